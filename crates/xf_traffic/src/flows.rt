//! Flows.
ghost use Rattle.std.specs.Prelude.{◌≡◌, ℕ, ◌<◌, ◌^◌, Bool, true, false, List, ◌⊎◌, None};
ghost use Rattle.xf_types.specs.declared.call.Call.TheVariants as call;
ghost use Rattle.xf_types.specs.declared.policy.Policy.{Policy};
ghost use Rattle.xf_types.specs.declared.state.Sa.{Sa};
ghost use Rattle.xf_types.specs.History.{is_contended};
ghost use Rattle.xf_types.specs.Machine.{Machine, Shown};
ghost use Rattle.xf_types.specs.Moves.{is_moving};
ghost use Rattle.xf_types.specs.PolicyList.{IsPolicyOrder};
ghost use Rattle.xf_chain.specs.Lists.{Within};
ghost use Rattle.xf_inexact.specs.Whole.{SpdStands};
ghost use Rattle.xf_sadimage.specs.States.{StatesStand};
ghost use Rattle.xf_sadlist.specs.Listed.{next_sid_in};
ghost use Rattle.xf_sad.specs.Places.{KeepsPlaces, SlotCame};
ghost use Rattle.xf_sad.specs.Slots.{PoolFits, listed_in};
ghost use Rattle.xf_rows.specs.Layouts.{Fits};
ghost use Rattle.xf_rows.specs.Replies.{Answers};
ghost use Rattle.xf_rows.specs.Stands.{Stands};
ghost use Rattle.xf_statecalls.specs.Ready.{IsReady, Stood, LeavesOthers, IsSame};
ghost use Rattle.xf_traffic.specs.Asked.{IsAsked, tried_reply, slots_told};

use crate::acquiring::acquire;
use crate::asked::Asked;
use crate::asking::ask;
use arrayvec::ArrayVec;
use std::alloc::Global;
use xf_cells::{Cells, Load, Pool};
use xf_parts::Parts;
use xf_rows::Layout;
use xf_types::{Flow, Reply};

/// The reply to a flow, and the slots of the states that it goes through, in order: where it is allowed, good guesses for the outputs that follow.
#[derive(Debug, Drop)]
pub struct Flowed {
    pub reply: Reply,
    pub slots: ArrayVec<u32, 6>,
}

/// What a flow comes to, in words that stand still.
fn ask_here<D: Parts>(layout: &Layout, parts: &mut D, flow: &Flow) -> Asked
    requires { Fits layout.now (D.size parts.old) }
    ensures size { D.size parts.new ≡ D.size parts.old }
    ensures begun { D.begun parts.new ≡ D.begun parts.old }
    ensures words { D.words parts.new ≡ D.words parts.old }
    ensures hidden { D.hidden parts.new ≡ D.hidden parts.old }
    ensures beside { D.beside parts.new ≡ D.beside parts.old }
    ensures settled { is_contended (tried_reply result) ≡ false }
    ensures within { Within layout.now.states.slots (slots_told result) }
    ensures answer { (s : Shown) (policies : List (ℕ × Policy)) (entries : List (ℕ × Sa)) → IsPolicyOrder s.policies → SpdStands layout.now.policies (D.words parts.old) s policies → StatesStand layout.now.states (D.words parts.old) s entries → IsAsked s flow.now result }
{
    ask(layout, parts, flow)
}

/// What a flow is answered. A template that wants a state acquires a larval one, which alone changes anything; no value but that of its slot, which
/// the pool gives, is touched.
pub fn flow<D: Parts, P: Pool>(
    alloc: Global,
    layout: &Layout,
    parts: &mut D,
    pool: &mut P,
    flow: &Flow,
) -> Flowed
    requires ready { IsReady layout.now (D.size parts.old) (D.hidden parts.old) (D.beside parts.old) (P.spent pool.old) (P.gives pool.old) }
    requires stands { Stood layout.now (D.words parts.old) (D.beside parts.old) }
    requires young { next_sid_in layout.now.states (D.words parts.old) < 2 ^ 63 }
    requires pool { PoolFits (P.capacity pool.old) (P.taken pool.old) (P.gives pool.old) (P.takes pool.old) layout.now.states.slots (listed_in layout.now.states (D.words parts.old)) }
    ensures size { D.size parts.new ≡ D.size parts.old }
    ensures hidden { D.hidden parts.new ≡ D.hidden parts.old }
    ensures capacity { P.capacity pool.new ≡ P.capacity pool.old }
    ensures lasts { P.lasts pool.new ≡ P.lasts pool.old }
    ensures given { SlotCame (P.gives pool.old) None (listed_in layout.now.states (D.words parts.old)) (listed_in layout.now.states (D.words parts.new)) ⊎ (listed_in layout.now.states (D.words parts.new) ≡ listed_in layout.now.states (D.words parts.old)) }
    ensures places { KeepsPlaces layout.now.states (D.beside parts.old).held (D.words parts.old) (D.words parts.new) }
    ensures others { LeavesOthers layout.now (D.hidden parts.old) (D.words parts.old) (D.words parts.new) (D.beside parts.old) (D.beside parts.new) }
    ensures settled { P.held pool.new ≡ 0 → is_contended result.reply ≡ false }
    ensures idle { is_moving result.reply ≡ false → IsSame (D.words parts.old) (D.words parts.new) (D.beside parts.old) (D.beside parts.new) (D.begun parts.old) (D.begun parts.new) }
    ensures within { Within layout.now.states.slots result.slots.items }
    ensures answer { (m : Machine) → Stands layout.now (D.words parts.old) (D.beside parts.old) m → Answers layout.now (D.words parts.new) (D.beside parts.new) m (call.Flow flow.now) result.reply }
    ensures pool { P.lasts pool.old ≡ true → PoolFits (P.capacity pool.new) (P.taken pool.new) (P.gives pool.new) (P.takes pool.new) layout.now.states.slots (listed_in layout.now.states (D.words parts.new)) }
{
    match ask_here(layout, parts, flow) {
        Asked::Answered { reply, slots } => Flowed { reply, slots },
        Asked::Wants(wanted) => {
            let reply = acquire(alloc, layout, parts, pool, &wanted);
            Flowed {
                reply,
                slots: ArrayVec::new(),
            }
        }
    }
}
