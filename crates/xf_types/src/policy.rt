//! Policies: what they ask, what they apply, and what names them.
ghost use Rattle.std.specs.Prelude.{◌≡◌};
ghost use Rattle.xf_types.specs.Facts.{IsThresholds};

use crate::{Addr, Dir, Mark, Prefix, Proto, Ptype, Selector};
use arrayvec::ArrayVec;
use std::marker::Model;

/// What a policy does with the flows that it applies to.
#[derive(Clone, Copy, PartialEq, Eq, Debug)]
pub enum Action {
    Allow,
    Block,
}

/// How a state wraps a packet.
#[derive(Clone, Copy, PartialEq, Eq, Default, Debug)]
pub enum Mode {
    #[default]
    Transport,
    Tunnel,
    Beet,
    Ro,
    InTrigger,
}

/// Whether a template without a state is skipped.
#[derive(Clone, Copy, PartialEq, Eq, Default, Debug)]
pub enum Level {
    #[default]
    Required,
    Use,
}

/// What one state of a path has to be. Its fields stand by their size, so that no room is lost between them.
#[derive(Clone, Copy, PartialEq, Eq, Default, Debug)]
pub struct Template {
    pub src: Addr,
    pub dst: Addr,
    pub spi: u32,
    pub reqid: u32,
    pub proto: Proto,
    pub mode: Mode,
    pub level: Level,
}

/// The templates of a policy, in the order in which they are applied.
#[derive(Clone, PartialEq, Eq, Debug, Drop)]
pub struct Templates {
    pub items: ArrayVec<Template, 6>,
}

impl Model for Templates {
    ghost use Rattle.std.specs.Prelude.{List};
    ghost use Rattle.xf_types.specs.declared.policy.Template.{Template};

    ghost Value = { List Template };

    ghost view = { λ t. t.items.items };

    ghost inverse = { λ xs. record { items = record { items = xs } } };
}

/// When a policy or a state warns, and when it ends (RFC 4301, 4.4.2.1). Times are in seconds, and 0 is no limit; a byte or
/// packet limit of 0 is a limit.
#[derive(Clone, Copy, PartialEq, Eq, Debug)]
pub struct Limits {
    pub time_soft: u64,
    pub time_hard: u64,
    pub use_soft: u64,
    pub use_hard: u64,
    pub byte_soft: Option<u64>,
    pub byte_hard: Option<u64>,
    pub packet_soft: Option<u64>,
    pub packet_hard: Option<u64>,
}

/// A policy as it is asked for. An index of 0 asks for none. Its fields stand by their size, so that a call is small.
#[derive(Clone, PartialEq, Eq, Debug, Drop)]
pub struct PolicySpec {
    pub sel: Selector,
    pub templates: Templates,
    pub limits: Limits,
    pub mark: Mark,
    pub if_id: u32,
    pub priority: u32,
    pub index: u32,
    pub dir: Dir,
    pub ptype: Ptype,
    pub action: Action,
}

/// A policy as it is listed.
#[derive(Clone, PartialEq, Eq, Debug, Drop)]
pub struct Policy {
    pub number: u64,
    pub index: u32,
    pub added: u64,
    pub soft: bool,
    pub spec: PolicySpec,
}

/// What names a policy: its index, or what makes two policies the same.
#[derive(Clone, Copy, PartialEq, Eq, Debug)]
pub enum PolicyKey {
    Index {
        dir: Dir,
        index: u32,
    },
    Same {
        dir: Dir,
        ptype: Ptype,
        sel: Selector,
        mark: Mark,
        if_id: u32,
    },
}

/// Conditions on policies, each by equality.
#[derive(Clone, Copy, PartialEq, Eq, Debug)]
pub struct PolicyFilter {
    pub dir: Option<Dir>,
    pub ptype: Option<Ptype>,
    pub action: Option<Action>,
    pub priority: Option<u32>,
    pub index: Option<u32>,
    pub src: Option<Prefix>,
    pub dst: Option<Prefix>,
    pub proto: Option<u8>,
    pub sport: Option<u16>,
    pub dport: Option<u16>,
}

/// From which lengths of the local and the remote prefix on a policy is kept by exact match.
#[derive(Clone, Copy, PartialEq, Eq, Debug)]
pub struct Thresholds {
    pub v4: Option<(u8, u8)>,
    pub v6: Option<(u8, u8)>,
    pub ghost facts: { IsThresholds v4 v6 },
}

/// Policies in the order of their list.
#[derive(Debug, Drop)]
pub struct Policies {
    pub items: Vec<Policy>,
}

impl PartialEq for Policies {
    ghost use Rattle.std.specs.Cmp.{on_per};
    ghost use lib.Pointwise.{pointwise};
    ghost use Rattle.std.specs.Cmp.Lexicographic.{lists_per};
    ghost use Rattle.xf_types.specs.contracts.policy.PolicyPartialEq.TheImpl as policy;
    ghost use Rattle.xf_types.specs.contracts.policy.PolicyPartialEq.TheImpl.Laws.{laws-law};

    ghost eq = { pointwise policy.eq-value.it };

    ghost laws = { lists_per laws-law };

    fn eq(&self, other: &Policies) -> bool {
        self.items == other.items
    }
}

impl Model for Policies {
    ghost use Rattle.std.specs.Prelude.{List};
    ghost use Rattle.xf_types.specs.declared.policy.Policy.{Policy};

    ghost Value = { List Policy };

    ghost view = { λ p. p.items.items };
}

impl Limits {
    ghost use Rattle.xf_types.specs.StateList.{no_limits};

    /// No limit at all.
    pub fn none() -> Limits
        ensures { result ≡ no_limits }
    {
        Limits {
            time_soft: 0,
            time_hard: 0,
            use_soft: 0,
            use_hard: 0,
            byte_soft: None,
            byte_hard: None,
            packet_soft: None,
            packet_hard: None,
        }
    }
}

impl Templates {
    ghost use Rattle.std.specs.Prelude.{◌≡◌, ◌≤◌, [], length};

    /// No templates.
    pub fn none() -> Templates
        ensures { result ≡ [] }
    {
        Templates {
            items: ArrayVec::new(),
        }
    }

    /// The templates, of which there are at most 6.
    pub fn as_slice(&self) -> &[Template]
        ensures value { result.now ≡ self.now }
        ensures few { length result.now ≤ 6 }
    {
        self.items.as_slice()
    }
}

impl Policies {
    /// A list of the policies, which is taken over as it is.
    pub fn new(items: Vec<Policy>) -> Policies
        ensures { result ≡ items.items }
    {
        Policies { items }
    }

    pub fn into_vec(self) -> Vec<Policy>
        ensures { result.items ≡ self }
    {
        let Policies { items } = self;
        items
    }

    pub fn as_slice(&self) -> &[Policy]
        ensures { result.now ≡ self.now }
    {
        self.items.as_slice()
    }
}

impl PolicySpec {
    /// The same request, which takes no memory.
    pub fn copy(&self) -> PolicySpec
        ensures { result ≡ self.now }
    {
        self.clone().unwrap()
    }
}

impl Policy {
    /// The same policy, which takes no memory.
    pub fn copy(&self) -> Policy
        ensures { result ≡ self.now }
    {
        self.clone().unwrap()
    }
}
