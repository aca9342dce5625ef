//! What a flow comes to, asked of words alone.
ghost use Rattle.std.specs.Prelude.{◌≡◌, ℕ, ◌+◌, ◌*◌, ◌≤◌, Bool, false, List, Option, Some};
ghost use Rattle.xf_types.specs.declared.network.Ptype.TheVariants.{Sub, Main};
ghost use Rattle.xf_types.specs.declared.policy.Action.TheVariants.{Allow};
ghost use Rattle.xf_types.specs.declared.policy.Policy.{Policy};
ghost use Rattle.xf_types.specs.declared.state.Sa.{Sa};
ghost use Rattle.xf_types.specs.Changes.{stays};
ghost use Rattle.xf_types.specs.FlowRules.{try_rule};
ghost use Rattle.xf_types.specs.History.{is_contended};
ghost use Rattle.xf_types.specs.Machine.{Shown};
ghost use Rattle.xf_types.specs.PolicyList.{IsPolicyOrder, first_policy};
ghost use Rattle.xf_cells.specs.Words.{Narrows};
ghost use Rattle.xf_chain.specs.Lists.{Within};
ghost use Rattle.xf_inexact.specs.Whole.{SpdStands};
ghost use Rattle.xf_sadimage.specs.States.{StatesStand};
ghost use Rattle.xf_sadfind.specs.Paths.{IsPath};
ghost use Rattle.xf_sadfind.specs.Tried.{policy_met};
ghost use Rattle.xf_spd.specs.Firsts.{all_met};
ghost use Rattle.xf_rows.specs.Layouts.{Fits};
ghost use Rattle.xf_traffic.specs.Asked.{IsAsked, tried_reply, slots_told, path_in};
ghost use Rattle.xf_traffic.specs.Paths.{flow_met};

use crate::asked::Asked;
use crate::hops::path_through;
use crate::wanting::wanting;
use arrayvec::ArrayVec;
use xf_cells::Load;
use xf_rows::Layout;
use xf_sadfind::{Resolved, StateFinder};
use xf_spd::Spd;
use xf_types::{Action, Flow, Policy, Reply};

/// What a flow comes to under a policy that allows it, by its templates.
fn ask_templates<L: Load>(layout: &Layout, l: &mut L, flow: &Flow, policy: Policy) -> Asked
    requires { Fits layout.now (L.size l.old) }
    ensures size { L.size l.new ≡ L.size l.old }
    ensures begun { L.begun l.new ≡ L.begun l.old }
    ensures rest { L.rest l.new ≡ L.rest l.old }
    ensures among { Narrows (L.agrees l.old) (L.agrees l.new) }
    ensures most { L.loads l.new ≤ L.loads l.old + 356 + 350 * layout.now.states.slots }
    ensures few { (image : List ℕ) (s : Shown) (entries : List (ℕ × Sa)) → L.agrees l.new image → StatesStand layout.now.states image s entries → L.loads l.new ≤ L.loads l.old + 436 + 160 * policy_met layout.now.states image entries flow.now policy }
    ensures settled { is_contended (tried_reply result) ≡ false }
    ensures within { Within layout.now.states.slots (slots_told result) }
    ensures path { (image : List ℕ) (s : Shown) (entries : List (ℕ × Sa)) → L.agrees l.new image → StatesStand layout.now.states image s entries → IsPath entries (slots_told result) (path_in (tried_reply result)) }
    ensures answer { (image : List ℕ) (s : Shown) (entries : List (ℕ × Sa)) → L.agrees l.new image → StatesStand layout.now.states image s entries → first_policy s.policies flow.now ≡ Some policy → policy.spec.action ≡ Allow → IsAsked s flow.now result }
{
    let finder = StateFinder {
        area: layout.states,
    };
    match finder.resolve(l, &policy, flow) {
        Resolved::Path { slots } => {
            let path = path_through(&layout.states, l, slots.as_slice());
            Asked::Answered {
                reply: Reply::FlowAllow {
                    index: policy.index,
                    path,
                },
                slots,
            }
        }
        Resolved::Waiting { seq } => Asked::Answered {
            reply: Reply::Waiting(seq),
            slots: ArrayVec::new(),
        },
        Resolved::Wanting { template, src, dst } => wanting(policy, template, src, dst),
    }
}

/// What a flow comes to under its policy.
fn ask_policy<L: Load>(layout: &Layout, l: &mut L, flow: &Flow, policy: Policy) -> Asked
    requires { Fits layout.now (L.size l.old) }
    ensures size { L.size l.new ≡ L.size l.old }
    ensures begun { L.begun l.new ≡ L.begun l.old }
    ensures rest { L.rest l.new ≡ L.rest l.old }
    ensures among { Narrows (L.agrees l.old) (L.agrees l.new) }
    ensures most { L.loads l.new ≤ L.loads l.old + 356 + 350 * layout.now.states.slots }
    ensures few { (image : List ℕ) (s : Shown) (entries : List (ℕ × Sa)) → L.agrees l.new image → StatesStand layout.now.states image s entries → L.loads l.new ≤ L.loads l.old + 436 + 160 * policy_met layout.now.states image entries flow.now policy }
    ensures settled { is_contended (tried_reply result) ≡ false }
    ensures within { Within layout.now.states.slots (slots_told result) }
    ensures path { (image : List ℕ) (s : Shown) (entries : List (ℕ × Sa)) → L.agrees l.new image → StatesStand layout.now.states image s entries → IsPath entries (slots_told result) (path_in (tried_reply result)) }
    ensures answer { (image : List ℕ) (s : Shown) (entries : List (ℕ × Sa)) → L.agrees l.new image → StatesStand layout.now.states image s entries → first_policy s.policies flow.now ≡ Some policy → IsAsked s flow.now result }
{
    match policy.spec.action {
        Action::Block => Asked::Answered {
            reply: Reply::FlowBlock(policy.index),
            slots: ArrayVec::new(),
        },
        Action::Allow => ask_templates(layout, l, flow, policy),
    }
}

/// What a flow comes to before anything is changed: its reply, or a template that wants a state. It reads words alone, so it may be asked
/// while they change.
pub fn ask<L: Load>(layout: &Layout, l: &mut L, flow: &Flow) -> Asked
    requires { Fits layout.now (L.size l.old) }
    ensures size { L.size l.new ≡ L.size l.old }
    ensures begun { L.begun l.new ≡ L.begun l.old }
    ensures rest { L.rest l.new ≡ L.rest l.old }
    ensures among { Narrows (L.agrees l.old) (L.agrees l.new) }
    ensures most { L.loads l.new ≤ L.loads l.old + 3174 + 32 * layout.now.policies.slots + 258 * (651 + 129 * (4 + 16 * layout.now.policies.slots)) + 350 * layout.now.states.slots }
    ensures few { (image : List ℕ) (s : Shown) (policies : List (ℕ × Policy)) (entries : List (ℕ × Sa)) (h : SpdStands layout.now.policies image s policies) → L.agrees l.new image → IsPolicyOrder s.policies → StatesStand layout.now.states image s entries → L.loads l.new ≤ L.loads l.old + 160 * (10 + (all_met layout.now.policies image s h.part.trees.trees policies Sub flow.now + all_met layout.now.policies image s h.part.trees.trees policies Main flow.now + flow_met layout.now.states image entries flow.now (first_policy s.policies flow.now))) }
    ensures settled { is_contended (tried_reply result) ≡ false }
    ensures within { Within layout.now.states.slots (slots_told result) }
    ensures path { (image : List ℕ) (s : Shown) (entries : List (ℕ × Sa)) → L.agrees l.new image → StatesStand layout.now.states image s entries → IsPath entries (slots_told result) (path_in (tried_reply result)) }
    ensures answer { (image : List ℕ) (s : Shown) (policies : List (ℕ × Policy)) (entries : List (ℕ × Sa)) → L.agrees l.new image → IsPolicyOrder s.policies → SpdStands layout.now.policies image s policies → StatesStand layout.now.states image s entries → IsAsked s flow.now result }
{
    let spd = Spd {
        area: layout.policies,
    };
    match spd.first(l, flow) {
        None => Asked::Answered {
            reply: Reply::FlowNone,
            slots: ArrayVec::new(),
        },
        Some(policy) => ask_policy(layout, l, flow, policy),
    }
}

/// What a flow is answered where nothing is to change: a template that wants a state is named.
pub fn try_flow<L: Load>(layout: &Layout, l: &mut L, flow: &Flow) -> Reply
    requires { Fits layout.now (L.size l.old) }
    ensures size { L.size l.new ≡ L.size l.old }
    ensures begun { L.begun l.new ≡ L.begun l.old }
    ensures rest { L.rest l.new ≡ L.rest l.old }
    ensures among { Narrows (L.agrees l.old) (L.agrees l.new) }
    ensures most { L.loads l.new ≤ L.loads l.old + 3174 + 32 * layout.now.policies.slots + 258 * (651 + 129 * (4 + 16 * layout.now.policies.slots)) + 350 * layout.now.states.slots }
    ensures few { (image : List ℕ) (s : Shown) (policies : List (ℕ × Policy)) (entries : List (ℕ × Sa)) (h : SpdStands layout.now.policies image s policies) → L.agrees l.new image → IsPolicyOrder s.policies → StatesStand layout.now.states image s entries → L.loads l.new ≤ L.loads l.old + 160 * (10 + (all_met layout.now.policies image s h.part.trees.trees policies Sub flow.now + all_met layout.now.policies image s h.part.trees.trees policies Main flow.now + flow_met layout.now.states image entries flow.now (first_policy s.policies flow.now))) }
    ensures settled { is_contended result ≡ false }
    ensures answer { (image : List ℕ) (s : Shown) (policies : List (ℕ × Policy)) (entries : List (ℕ × Sa)) → L.agrees l.new image → IsPolicyOrder s.policies → SpdStands layout.now.policies image s policies → StatesStand layout.now.states image s entries → try_rule s flow.now ≡ stays result }
{
    ask(layout, l, flow).tried()
}
