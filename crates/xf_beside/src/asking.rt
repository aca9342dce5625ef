//! The policy that a flow meets, where no state is asked for.
ghost use Rattle.std.specs.Prelude.{◌≡◌, ℕ, List, IfSome};
ghost use Rattle.xf_types.specs.declared.policy.Policy.{Policy};
ghost use Rattle.xf_types.specs.Changes.{stays};
ghost use Rattle.xf_types.specs.FlowRules.{WantAnswer, by_action, by_policy};
ghost use Rattle.xf_types.specs.Machine.{Shown};
ghost use Rattle.xf_types.specs.PolicyList.{IsPolicyOrder, first_policy};
ghost use Rattle.xf_inexact.specs.Whole.{SpdStands, WholeFits};
ghost use Rattle.xf_beside.specs.Asking.{wants_states};

use crate::cursor;
use xf_cells::Cells;
use xf_spd::Spd;
use xf_types::{Action, Dir, Flow, Path, Policy, Reply};

/// Whether a policy has templates for a flow.
fn wants_states(policy: &Policy, flow: &Flow) -> bool
    ensures { result ≡ wants_states policy.now flow.now }
{
    match flow.dir {
        Dir::Out => !policy.spec.templates.as_slice().is_empty(),
        Dir::In | Dir::Fwd => false,
    }
}

/// What a flow comes to under a policy. None where the policy has templates for it.
fn under(policy: &Policy, flow: &Flow) -> Option<Reply>
    ensures { (s : Shown) (wants : WantAnswer) → IfSome result (λ reply. by_action s flow.now policy.now wants policy.now.spec.action ≡ stays reply) }
{
    match policy.spec.action {
        Action::Block => Some(Reply::FlowBlock(policy.index)),
        Action::Allow => {
            if wants_states(policy, flow) {
                return None;
            }
            Some(Reply::FlowAllow {
                index: policy.index,
                path: Path::empty(),
            })
        }
    }
}

/// What a flow comes to. None where its policy has templates for it.
pub fn ask<C: Cells>(spd: &Spd, c: &mut C, flow: &Flow) -> Option<Reply>
    requires { WholeFits spd.now.area (C.size c.old) }
    ensures size { C.size c.new ≡ C.size c.old }
    ensures words { C.words c.new ≡ C.words c.old }
    ensures answer { (s : Shown) (es : List (ℕ × Policy)) (wants : Policy → WantAnswer) → IsPolicyOrder s.policies → SpdStands spd.now.area (C.words c.old) s es → IfSome result (λ reply. by_policy s flow.now wants (first_policy s.policies flow.now) ≡ stays reply) }
{
    match cursor::first(spd, c, flow) {
        None => Some(Reply::FlowNone),
        Some(policy) => under(&policy, flow),
    }
}
