//! The state in a slot leaves: its words, its value, and its slot, which goes back to the pool.
ghost use Rattle.std.specs.Prelude.{◌≡◌, ℕ, ◌<◌, ◌≤◌, Bool, true, false, List, ◌∷◌, ◌++◌, length, ◌+◌, Some};
ghost use Rattle.xf_types.specs.declared.state.Sa.{Sa};
ghost use Rattle.xf_types.specs.Machine.{Machine, Shown};
ghost use Rattle.xf_index.specs.Indexes.{records_in};
ghost use Rattle.xf_image.specs.Frames.{Frame};
ghost use Rattle.xf_sadidx.specs.Layout.{end_of};
ghost use Rattle.xf_sadimage.specs.States.{StatesStand};
ghost use Rattle.xf_sadlist.specs.Listed.{with_states};
ghost use Rattle.xf_sad.specs.Places.{KeepsPlaces, slots_but};
ghost use Rattle.xf_sad.specs.Slots.{PoolFits, listed_in};
ghost use Rattle.xf_local.specs.View.{Dead};
ghost use Rattle.xf_rows.specs.Layouts.{Fits};
ghost use Rattle.xf_rows.specs.Values.{value_put};
ghost use Rattle.xf_statecalls.specs.Left.{RowAt, Occupied, StandsFor, around};
ghost use Rattle.xf_statecalls.specs.Ready.{LeavesOthers};

use crate::values::end_value;
use xf_cells::{Cells, Load, Pool};
use xf_parts::Parts;
use xf_rows::Layout;
use xf_sad::Sad;

/// The words of the state in a slot leave, and the slot goes back. No value is touched.
fn delete_here<D: Parts, P: Pool>(layout: &Layout, parts: &mut D, pool: &mut P, slot: u32)
    requires fits { Fits layout.now (D.size parts.old) }
    requires slot { slot < layout.now.states.slots }
    requires back { P.takes pool.old slot }
    requires occupied { Occupied layout.now (D.words parts.old) (D.beside parts.old) slot }
    ensures size { D.size parts.new ≡ D.size parts.old }
    ensures begun { D.begun parts.new ≡ true }
    ensures hidden { D.hidden parts.new ≡ D.hidden parts.old }
    ensures beside { D.beside parts.new ≡ D.beside parts.old }
    ensures capacity { P.capacity pool.new ≡ P.capacity pool.old }
    ensures lasts { P.lasts pool.new ≡ P.lasts pool.old }
    ensures held { P.held pool.new ≡ P.held pool.old }
    ensures returned { P.returned pool.new slot }
    ensures out { P.taken pool.new + 1 ≡ P.taken pool.old }
    ensures frame { Frame layout.now.states.base (end_of layout.now.states) (D.words parts.old) (D.words parts.new) }
    ensures stands { (s : Shown) (front back : List (ℕ × Sa)) (r : Sa) → StatesStand layout.now.states (D.words parts.old) s (front ++ ((slot, r) ∷ back)) → StatesStand layout.now.states (D.words parts.new) (with_states s (records_in (front ++ back))) (front ++ back) }
    ensures pool { P.lasts pool.old ≡ true → PoolFits (P.capacity pool.old) (P.taken pool.old) (P.gives pool.old) (P.takes pool.old) layout.now.states.slots (listed_in layout.now.states (D.words parts.old)) → PoolFits (P.capacity pool.new) (P.taken pool.new) (P.gives pool.new) (P.takes pool.new) layout.now.states.slots (listed_in layout.now.states (D.words parts.new)) }
{
    (Sad {
        area: layout.states,
    })
    .delete(parts, pool, slot);
}

/// The state in a slot leaves.
pub(crate) fn leave<D: Parts, P: Pool>(layout: &Layout, parts: &mut D, pool: &mut P, slot: u32)
    requires fits { Fits layout.now (D.size parts.old) }
    requires behind { D.hidden parts.old ≤ layout.now.policies.base }
    requires slot { slot < layout.now.states.slots }
    requires held { (D.beside parts.old).held slot ≡ true }
    requires back { P.takes pool.old slot }
    requires occupied { Occupied layout.now (D.words parts.old) (D.beside parts.old) slot }
    ensures size { D.size parts.new ≡ D.size parts.old }
    ensures begun { D.begun parts.new ≡ true }
    ensures hidden { D.hidden parts.new ≡ D.hidden parts.old }
    ensures capacity { P.capacity pool.new ≡ P.capacity pool.old }
    ensures lasts { P.lasts pool.new ≡ P.lasts pool.old }
    ensures held { P.held pool.new ≡ P.held pool.old }
    ensures returned { P.returned pool.new slot }
    ensures out { P.taken pool.new + 1 ≡ P.taken pool.old }
    ensures less { length (listed_in layout.now.states (D.words parts.new)) + 1 ≡ length (listed_in layout.now.states (D.words parts.old)) }
    ensures list { listed_in layout.now.states (D.words parts.new) ≡ slots_but (Some slot) (listed_in layout.now.states (D.words parts.old)) }
    ensures places { KeepsPlaces layout.now.states (D.beside parts.old).held (D.words parts.old) (D.words parts.new) }
    ensures others { LeavesOthers layout.now (D.hidden parts.old) (D.words parts.old) (D.words parts.new) (D.beside parts.old) (D.beside parts.new) }
    ensures stands { (m : Machine) (t : RowAt layout.now (D.words parts.old) (D.beside parts.old) m slot) → StandsFor layout.now (D.words parts.new) (D.beside parts.new) m.shown (around t.stands.rows t.row t.place) }
    ensures pool { P.lasts pool.old ≡ true → PoolFits (P.capacity pool.old) (P.taken pool.old) (P.gives pool.old) (P.takes pool.old) layout.now.states.slots (listed_in layout.now.states (D.words parts.old)) → PoolFits (P.capacity pool.new) (P.taken pool.new) (P.gives pool.new) (P.takes pool.new) layout.now.states.slots (listed_in layout.now.states (D.words parts.new)) }
{
    delete_here(layout, parts, pool, slot);
    end_value(parts, slot);
}
