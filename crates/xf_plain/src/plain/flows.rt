//! Flows: the policy that they meet, and the states that they go through.
ghost use Rattle.std.specs.Prelude.{◌≡◌, ◌≢◌, ◌<◌, ◌^◌, ◌≤◌, IfOk, OnOk, OnErr, Some, length, false};
ghost use Rattle.xf_plain.specs.Wanted.{IsAsked, acquired_as};
ghost use Rattle.xf_paths.specs.Shown.{shown};
ghost use Rattle.xf_types.specs.FlowRules as rule;
ghost use Rattle.xf_types.specs.PolicyList.{first_policy};

use super::Plain;
use crate::listing;
use xf_paths::Resolved;
use xf_states::next_seq;
use xf_types::{Action, Addr, Dir, Flow, Limits, Path, Policy, Reply, SaSpec, Template};

/// A template that wants a state: its policy's index, its place from 0, and the state that it asks for, which has no sequence
/// number yet.
#[derive(Debug, Drop)]
pub struct Wanted {
    index: u32,
    place: u32,
    spec: SaSpec,
}

/// What a flow comes to.
#[derive(Debug, Drop)]
enum Asked {
    Answer(Reply),
    Wants(Wanted),
}

/// The templates of a policy: at most 6.
fn templates_of(policy: &Policy) -> &[Template]
    ensures templates { result.now ≡ policy.now.spec.templates }
    ensures few { length result.now ≤ 6 }
{
    policy.spec.templates.items.as_slice()
}

/// The state that a template of this policy asks for, used at these addresses.
fn spec_for(policy: &Policy, template: &Template, src: Addr, dst: Addr, seq: u32) -> SaSpec
    ensures { result ≡ rule.acquired_spec policy.now template.now src dst seq }
{
    SaSpec {
        src,
        dst,
        proto: template.proto,
        spi: template.spi,
        mode: template.mode,
        reqid: template.reqid,
        seq,
        mark: policy.spec.mark,
        if_id: policy.spec.if_id,
        sel: None,
        window: 0,
        in_seq: 0,
        out_seq: 0,
        wildrecv: false,
        esn: false,
        limits: Limits::none(),
    }
}

/// The request with this sequence number.
fn with_seq(spec: SaSpec, seq: u32) -> SaSpec
    ensures { result ≡ record spec { seq = seq } }
{
    let mut numbered = spec;
    numbered.seq = seq;
    numbered
}

impl Plain {
    ghost use Rattle.xf_types.specs.Machine.{outcome};
    ghost use Rattle.xf_types.specs.Changes.{applied};
    ghost use Rattle.xf_types.specs.History.{is_contended};

    /// The states that a flow goes through under a policy. No template is tried for what comes in or is forwarded.
    fn resolve(&self, flow: &Flow, policy: &Policy) -> Resolved
        ensures { shown result ≡ rule.resolved self.now.shown flow.now policy.now }
    {
        match flow.dir {
            Dir::Out => self.states.resolve(flow, templates_of(policy)),
            Dir::In | Dir::Fwd => Resolved::Through(Path::empty()),
        }
    }

    /// What a flow comes to under its policy.
    fn ask_under(&self, flow: &Flow, policy: &Policy) -> Asked
        requires { first_policy self.now.shown.policies flow.now ≡ Some policy.now }
        ensures { IsAsked result self.now.shown flow.now }
    {
        match policy.spec.action {
            Action::Block => Asked::Answer(Reply::FlowBlock(policy.index)),
            Action::Allow => match self.resolve(flow, policy) {
                Resolved::Through(path) => Asked::Answer(Reply::FlowAllow {
                    index: policy.index,
                    path,
                }),
                Resolved::Waits(seq) => Asked::Answer(Reply::Waiting(seq)),
                Resolved::Wants {
                    template,
                    place,
                    src,
                    dst,
                } => Asked::Wants(Wanted {
                    index: policy.index,
                    place,
                    spec: spec_for(policy, &template, src, dst, 0),
                }),
            },
        }
    }

    /// What a flow comes to, where nothing is changed.
    fn ask(&self, flow: &Flow) -> Asked
        ensures { IsAsked result self.now.shown flow.now }
    {
        match listing::find_first(self.policies.as_slice(), flow) {
            None => Asked::Answer(Reply::FlowNone),
            Some(policy) => self.ask_under(flow, policy),
        }
    }

    /// Lists the larval state that is asked for, where there is room, with a fresh sequence number.
    #[inline(never)]
    fn acquire(&mut self, wanted: SaSpec) -> Reply
        requires { self.old.shown.next_sid < 2 ^ 63 }
        ensures answer { result ≢ Reply.NoMemory
            → outcome result self.new ≡ applied self.old (acquired_as self.old.shown wanted) }
        ensures memory { result ≡ Reply.NoMemory → self.new ≡ self.old }
        ensures settled { is_contended result ≡ false }
    {
        if self.states.len() >= self.max_states as usize {
            return Reply::Full {
                live: self.states.len() as u32,
                waiting: 0,
            };
        }
        let seq = self.states.free_seq(self.next_seq);
        match self.put_larval(&with_seq(wanted, seq)) {
            Ok(_) => {
                self.next_seq = next_seq(seq);
                Reply::Acquire(seq)
            }
            Err(_) => Reply::NoMemory,
        }
    }

    #[inline(never)]
    pub(super) fn flow(&mut self, flow: &Flow) -> Reply
        requires { self.old.shown.next_sid < 2 ^ 63 }
        ensures answer { result ≢ Reply.NoMemory
            → outcome result self.new ≡ applied self.old (rule.flow_rule self.old.shown flow.now) }
        ensures memory { result ≡ Reply.NoMemory → self.new ≡ self.old }
        ensures settled { is_contended result ≡ false }
    {
        match self.ask(flow) {
            Asked::Answer(reply) => reply,
            Asked::Wants(wanted) => self.acquire(wanted.spec),
        }
    }

    #[inline(never)]
    pub(super) fn try_flow(&self, flow: &Flow) -> Reply
        ensures answer { outcome result self.now ≡ applied self.now (rule.try_rule self.now.shown flow.now) }
        ensures memory { result ≢ Reply.NoMemory }
        ensures settled { is_contended result ≡ false }
    {
        match self.ask(flow) {
            Asked::Answer(reply) => reply,
            Asked::Wants(wanted) => Reply::Wanting {
                index: wanted.index,
                template: wanted.place,
            },
        }
    }
}
