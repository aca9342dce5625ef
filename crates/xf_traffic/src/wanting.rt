//! A template that wants a state.
ghost use Rattle.std.specs.Prelude.{◌≡◌, ℕ, ◌<◌, false, [], Some, length};
ghost use Rattle.std.specs.List.{slice_get};
ghost use Rattle.xf_types.specs.declared.network.Flow.{Flow};
ghost use Rattle.xf_types.specs.declared.policy.Action.TheVariants.{Allow};
ghost use Rattle.xf_types.specs.declared.policy.Template.{Template};
ghost use Rattle.xf_types.specs.FlowRules.{resolved};
ghost use Rattle.xf_types.specs.History.{is_contended};
ghost use Rattle.xf_types.specs.Machine.{Shown};
ghost use Rattle.xf_types.specs.PolicyList.{first_policy};
ghost use Rattle.xf_types.specs.Resolution as templates;
ghost use Rattle.xf_traffic.specs.Asked.{IsAsked, tried_reply, slots_told, path_in};

use crate::asked::{Asked, Wanted};
use arrayvec::ArrayVec;
use xf_types::{Addr, Policy, Reply, Template};

/// The template of a policy at a place.
fn template_at(policy: &Policy, place: u32) -> Option<Template>
    ensures { result ≡ slice_get policy.now.spec.templates place }
{
    let templates = policy.spec.templates.as_slice();
    let place = place as usize;
    if place < templates.len() {
        Some(templates[place])
    } else {
        None
    }
}

/// The template of a policy at a place, as a lookup found it, wants a state. Where it has none there, the words changed meanwhile.
pub(crate) fn wanting(policy: Policy, place: u32, src: Addr, dst: Addr) -> Asked
    ensures settled { is_contended (tried_reply result) ≡ false }
    ensures bare { slots_told result ≡ [] }
    ensures pathless { path_in (tried_reply result) ≡ [] }
    ensures answer { (s : Shown) (flow : Flow) (t : Template) → first_policy s.policies flow ≡ Some policy → policy.spec.action ≡ Allow → resolved s flow policy ≡ templates.Wants t place src dst → IsAsked s flow result }
{
    match template_at(&policy, place) {
        None => Asked::Answered {
            reply: Reply::FlowNone,
            slots: ArrayVec::new(),
        },
        Some(template) => Asked::Wants(Wanted {
            policy,
            place,
            template,
            src,
            dst,
        }),
    }
}
