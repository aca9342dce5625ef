//! What a flow comes to.
ghost use Rattle.std.specs.Prelude.{◌≡◌};
ghost use Rattle.xf_traffic.specs.Asked.{tried_reply};

use arrayvec::ArrayVec;
use xf_types::{Addr, Policy, Reply, Template};

/// A template that wants a state: the policy that has it, its place there from 0, and the addresses at which it is used.
#[derive(Debug, Drop)]
pub struct Wanted {
    pub policy: Policy,
    pub place: u32,
    pub template: Template,
    pub src: Addr,
    pub dst: Addr,
}

/// What a flow comes to.
#[derive(Debug, Drop)]
pub enum Asked {
    /// It has its reply. The states of a path stand in these slots, in order.
    Answered {
        reply: Reply,
        slots: ArrayVec<u32, 6>,
    },
    Wants(Wanted),
}

impl Asked {
    /// The reply where nothing is to change: a template that wants a state is named.
    pub fn tried(self) -> Reply
        ensures { result ≡ tried_reply self }
    {
        match self {
            Asked::Answered { reply, slots: _ } => reply,
            Asked::Wants(wanted) => Reply::Wanting {
                index: wanted.policy.index,
                template: wanted.place,
            },
        }
    }
}
