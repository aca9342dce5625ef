//! What is due for the state in a slot is done to its words. No value is touched.
ghost use Rattle.std.specs.Prelude.{◌≡◌, ℕ, ◌<◌, ◌≤◌, true, List, ◌∷◌, ◌++◌, length};
ghost use Rattle.xf_types.specs.declared.state.Sa.{Sa};
ghost use Rattle.xf_types.specs.Machine.{Shown};
ghost use Rattle.xf_types.specs.OneState.{dying_if};
ghost use Rattle.xf_index.specs.Indexes.{records_in};
ghost use Rattle.xf_sadidx.specs.Layout.{end_of};
ghost use Rattle.xf_sadimage.specs.States.{StatesStand};
ghost use Rattle.xf_sadlist.specs.Listed.{with_states};
ghost use Rattle.xf_sad.specs.Slots.{listed_in};
ghost use Rattle.xf_rows.specs.Layouts.{Fits};
ghost use Rattle.xf_policies.specs.Standing.{LeavesOthers};
ghost use Rattle.xf_ticking.specs.Dues.{entry_by};
ghost use Rattle.xf_ticking.specs.Ready.{FitsStates};
ghost use Rattle.xf_ticking.specs.Walks.{HasState};

use crate::due::Due;
use xf_cells::{Cells, Load, Pool};
use xf_parts::Parts;
use xf_rows::Layout;
use xf_sad::Sad;

/// The state in a slot leaves, and the slot goes back; whoever owns the words is told.
fn remove<D: Parts, P: Pool>(layout: &Layout, parts: &mut D, pool: &mut P, slot: u32)
    requires fits { Fits layout.now (D.size parts.old) }
    requires behind { D.hidden parts.old ≤ layout.now.policies.base }
    requires slot { slot < layout.now.states.slots }
    requires count { length (D.beside parts.old).values ≡ layout.now.states.slots }
    requires listed { HasState layout.now.states (D.words parts.old) slot }
    requires back { P.takes pool.old slot }
    ensures size { D.size parts.new ≡ D.size parts.old }
    ensures hidden { D.hidden parts.new ≡ D.hidden parts.old }
    ensures beside { D.beside parts.new ≡ D.beside parts.old }
    ensures capacity { P.capacity pool.new ≡ P.capacity pool.old }
    ensures lasts { P.lasts pool.new ≡ P.lasts pool.old }
    ensures held { P.held pool.new ≡ P.held pool.old }
    ensures others { LeavesOthers (D.hidden parts.old) layout.now.states.base (end_of layout.now.states) (D.words parts.old) (D.words parts.new) }
    ensures stands { (s : Shown) (front back : List (ℕ × Sa)) (r : Sa) → StatesStand layout.now.states (D.words parts.old) s (front ++ ((slot, r) ∷ back)) → StatesStand layout.now.states (D.words parts.new) (with_states s (records_in (front ++ back))) (front ++ back) }
    ensures out { P.taken pool.old ≡ length (listed_in layout.now.states (D.words parts.old)) → P.taken pool.new ≡ length (listed_in layout.now.states (D.words parts.new)) }
    ensures pool { P.lasts pool.old ≡ true → FitsStates layout.now (D.words parts.old) (P.capacity pool.old) (P.taken pool.old) (P.gives pool.old) (P.takes pool.old) → FitsStates layout.now (D.words parts.new) (P.capacity pool.new) (P.taken pool.new) (P.gives pool.new) (P.takes pool.new) }
{
    (Sad {
        area: layout.states,
    })
    .delete(parts, pool, slot);
    parts.state_freed(slot);
}

/// The state in a slot is marked as dying.
fn mark<D: Parts>(layout: &Layout, parts: &mut D, slot: u32)
    requires fits { Fits layout.now (D.size parts.old) }
    requires slot { slot < layout.now.states.slots }
    requires listed { HasState layout.now.states (D.words parts.old) slot }
    ensures size { D.size parts.new ≡ D.size parts.old }
    ensures hidden { D.hidden parts.new ≡ D.hidden parts.old }
    ensures beside { D.beside parts.new ≡ D.beside parts.old }
    ensures others { LeavesOthers (D.hidden parts.old) layout.now.states.base (end_of layout.now.states) (D.words parts.old) (D.words parts.new) }
    ensures stands { (s : Shown) (front back : List (ℕ × Sa)) (r : Sa) → StatesStand layout.now.states (D.words parts.old) s (front ++ ((slot, r) ∷ back)) → StatesStand layout.now.states (D.words parts.new) (with_states s (records_in (front ++ ((slot, dying_if true r) ∷ back)))) (front ++ ((slot, dying_if true r) ∷ back)) }
    ensures listed { listed_in layout.now.states (D.words parts.new) ≡ listed_in layout.now.states (D.words parts.old) }
{
    (Sad {
        area: layout.states,
    })
    .set_dying(parts, slot);
}

/// What is due for the state in a slot is done.
pub(crate) fn settle<D: Parts, P: Pool>(
    layout: &Layout,
    parts: &mut D,
    pool: &mut P,
    slot: u32,
    due: Due,
)
    requires fits { Fits layout.now (D.size parts.old) }
    requires behind { D.hidden parts.old ≤ layout.now.policies.base }
    requires slot { slot < layout.now.states.slots }
    requires count { length (D.beside parts.old).values ≡ layout.now.states.slots }
    requires listed { HasState layout.now.states (D.words parts.old) slot }
    requires back { P.takes pool.old slot }
    ensures size { D.size parts.new ≡ D.size parts.old }
    ensures hidden { D.hidden parts.new ≡ D.hidden parts.old }
    ensures beside { D.beside parts.new ≡ D.beside parts.old }
    ensures capacity { P.capacity pool.new ≡ P.capacity pool.old }
    ensures lasts { P.lasts pool.new ≡ P.lasts pool.old }
    ensures held { P.held pool.new ≡ P.held pool.old }
    ensures others { LeavesOthers (D.hidden parts.old) layout.now.states.base (end_of layout.now.states) (D.words parts.old) (D.words parts.new) }
    ensures stands { (s : Shown) (front back : List (ℕ × Sa)) (r : Sa) → StatesStand layout.now.states (D.words parts.old) s (front ++ ((slot, r) ∷ back)) → StatesStand layout.now.states (D.words parts.new) (with_states s (records_in (front ++ (entry_by due (slot, r) ++ back)))) (front ++ (entry_by due (slot, r) ++ back)) }
    ensures out { P.taken pool.old ≡ length (listed_in layout.now.states (D.words parts.old)) → P.taken pool.new ≡ length (listed_in layout.now.states (D.words parts.new)) }
    ensures pool { P.lasts pool.old ≡ true → FitsStates layout.now (D.words parts.old) (P.capacity pool.old) (P.taken pool.old) (P.gives pool.old) (P.takes pool.old) → FitsStates layout.now (D.words parts.new) (P.capacity pool.new) (P.taken pool.new) (P.gives pool.new) (P.takes pool.new) }
{
    match due {
        Due::Nothing => {}
        Due::Mark => mark(layout, parts, slot),
        Due::Leave => remove(layout, parts, pool, slot),
    }
}
