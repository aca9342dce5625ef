//! One walk over the states, from which some leave.
ghost use Rattle.std.specs.Prelude.{◌≡◌, ℕ, ◌<◌, ◌≤◌, Bool, true, false, List, ◌∷◌, ◌++◌, length, if◌then◌else◌, Some};
ghost use Rattle.xf_types.specs.declared.state.Sa.{Sa};
ghost use Rattle.xf_types.specs.Machine.{Machine, Shown};
ghost use Rattle.xf_cells.specs.Backs.{TakesBack};
ghost use Rattle.xf_sadidx.specs.Layout.{record_at};
ghost use Rattle.xf_sad.specs.Places.{KeepsPlaces};
ghost use Rattle.xf_sad.specs.Slots.{PoolFits, listed_in};
ghost use Rattle.xf_rows.specs.Layouts.{Fits};
ghost use Rattle.xf_rows.specs.Rows.{Row};
ghost use Rattle.xf_rows.specs.Stands.{Stands};
ghost use Rattle.xf_statecalls.specs.Choices.{chosen};
ghost use Rattle.xf_statecalls.specs.Left.{RowAt, Occupied, StandsFor};
ghost use Rattle.xf_statecalls.specs.Ready.{Stood, LeavesOthers};
ghost use Rattle.xf_statecalls.specs.Sweeps.{HasTurns, Started, passed, IsSwept};

use crate::choice::Choice;
use crate::here::{first_here, next_here, state_here};
use crate::removing::leave;
use xf_cells::{Cells, Load, Pool};
use xf_parts::Parts;
use xf_rows::Layout;

/// The state in a slot leaves, where it is to. How many left.
fn leave_if<D: Parts, P: Pool>(
    layout: &Layout,
    parts: &mut D,
    pool: &mut P,
    slot: u32,
    leaves: bool,
) -> u32
    requires fits { Fits layout.now (D.size parts.old) }
    requires behind { D.hidden parts.old ≤ layout.now.policies.base }
    requires slot { slot < layout.now.states.slots }
    requires held { leaves ≡ true → (D.beside parts.old).held slot ≡ true }
    requires back { P.takes pool.old slot }
    requires occupied { Occupied layout.now (D.words parts.old) (D.beside parts.old) slot }
    ensures size { D.size parts.new ≡ D.size parts.old }
    ensures hidden { D.hidden parts.new ≡ D.hidden parts.old }
    ensures capacity { P.capacity pool.new ≡ P.capacity pool.old }
    ensures lasts { P.lasts pool.new ≡ P.lasts pool.old }
    ensures held { P.held pool.new ≡ P.held pool.old }
    ensures out { P.taken pool.old ≡ length (listed_in layout.now.states (D.words parts.old)) → P.taken pool.new ≡ length (listed_in layout.now.states (D.words parts.new)) }
    ensures others { LeavesOthers layout.now (D.hidden parts.old) (D.words parts.old) (D.words parts.new) (D.beside parts.old) (D.beside parts.new) }
    ensures started { Started result (D.words parts.old) (D.words parts.new) (D.beside parts.old) (D.beside parts.new) (D.begun parts.old) (D.begun parts.new) }
    ensures count { result ≡ (if leaves then 1 else 0) }
    ensures stands { (m : Machine) (t : RowAt layout.now (D.words parts.old) (D.beside parts.old) m slot) → StandsFor layout.now (D.words parts.new) (D.beside parts.new) m.shown (passed leaves t.place.front t.row t.place.back) }
    ensures pool { P.lasts pool.old ≡ true → PoolFits (P.capacity pool.old) (P.taken pool.old) (P.gives pool.old) (P.takes pool.old) layout.now.states.slots (listed_in layout.now.states (D.words parts.old)) → PoolFits (P.capacity pool.new) (P.taken pool.new) (P.gives pool.new) (P.takes pool.new) layout.now.states.slots (listed_in layout.now.states (D.words parts.new)) }
{
    if leaves {
        leave(layout, parts, pool, slot);
        return 1;
    }
    0
}

/// The state in a slot leaves, where it is chosen. How many left.
fn pass<D: Parts, P: Pool>(
    layout: &Layout,
    parts: &mut D,
    pool: &mut P,
    slot: u32,
    choice: &Choice,
) -> u32
    requires fits { Fits layout.now (D.size parts.old) }
    requires behind { D.hidden parts.old ≤ layout.now.policies.base }
    requires slot { slot < layout.now.states.slots }
    requires held { (r : Sa) → record_at layout.now.states (D.words parts.old) slot ≡ Some r → chosen choice.now r ≡ true → (D.beside parts.old).held slot ≡ true }
    requires back { P.takes pool.old slot }
    requires occupied { Occupied layout.now (D.words parts.old) (D.beside parts.old) slot }
    ensures size { D.size parts.new ≡ D.size parts.old }
    ensures hidden { D.hidden parts.new ≡ D.hidden parts.old }
    ensures capacity { P.capacity pool.new ≡ P.capacity pool.old }
    ensures lasts { P.lasts pool.new ≡ P.lasts pool.old }
    ensures held { P.held pool.new ≡ P.held pool.old }
    ensures out { P.taken pool.old ≡ length (listed_in layout.now.states (D.words parts.old)) → P.taken pool.new ≡ length (listed_in layout.now.states (D.words parts.new)) }
    ensures others { LeavesOthers layout.now (D.hidden parts.old) (D.words parts.old) (D.words parts.new) (D.beside parts.old) (D.beside parts.new) }
    ensures started { Started result (D.words parts.old) (D.words parts.new) (D.beside parts.old) (D.beside parts.new) (D.begun parts.old) (D.begun parts.new) }
    ensures few { result ≤ 1 }
    ensures count { (m : Machine) (t : RowAt layout.now (D.words parts.old) (D.beside parts.old) m slot) → result ≡ (if chosen choice.now t.row.1.0 then 1 else 0) }
    ensures stands { (m : Machine) (t : RowAt layout.now (D.words parts.old) (D.beside parts.old) m slot) → StandsFor layout.now (D.words parts.new) (D.beside parts.new) m.shown (passed (chosen choice.now t.row.1.0) t.place.front t.row t.place.back) }
    ensures pool { P.lasts pool.old ≡ true → PoolFits (P.capacity pool.old) (P.taken pool.old) (P.gives pool.old) (P.takes pool.old) layout.now.states.slots (listed_in layout.now.states (D.words parts.old)) → PoolFits (P.capacity pool.new) (P.taken pool.new) (P.gives pool.new) (P.takes pool.new) layout.now.states.slots (listed_in layout.now.states (D.words parts.new)) }
{
    match state_here(layout, parts, slot) {
        None => 0,
        Some(state) => {
            let leaves = choice.takes(&state);
            leave_if(layout, parts, pool, slot, leaves)
        }
    }
}

/// The states that are chosen leave. How many they were. The next slot is asked for before a state leaves. The turns of those that
/// leave are held.
pub(crate) fn remove_all<D: Parts, P: Pool>(
    layout: &Layout,
    parts: &mut D,
    pool: &mut P,
    choice: &Choice,
) -> u32
    requires fits { Fits layout.now (D.size parts.old) }
    requires behind { D.hidden parts.old ≤ layout.now.policies.base }
    requires turns { HasTurns layout.now.states (D.words parts.old) (D.beside parts.old) (chosen choice.now) }
    requires back { TakesBack (P.lasts pool.old) P.taken P.takes }
    requires stands { Stood layout.now (D.words parts.old) (D.beside parts.old) }
    requires pool { PoolFits (P.capacity pool.old) (P.taken pool.old) (P.gives pool.old) (P.takes pool.old) layout.now.states.slots (listed_in layout.now.states (D.words parts.old)) }
    ensures size { D.size parts.new ≡ D.size parts.old }
    ensures hidden { D.hidden parts.new ≡ D.hidden parts.old }
    ensures capacity { P.capacity pool.new ≡ P.capacity pool.old }
    ensures lasts { P.lasts pool.new ≡ P.lasts pool.old }
    ensures held { P.held pool.new ≡ P.held pool.old }
    ensures out { P.taken pool.new ≡ length (listed_in layout.now.states (D.words parts.new)) }
    ensures places { KeepsPlaces layout.now.states (D.beside parts.old).held (D.words parts.old) (D.words parts.new) }
    ensures others { LeavesOthers layout.now (D.hidden parts.old) (D.words parts.old) (D.words parts.new) (D.beside parts.old) (D.beside parts.new) }
    ensures started { Started result (D.words parts.old) (D.words parts.new) (D.beside parts.old) (D.beside parts.new) (D.begun parts.old) (D.begun parts.new) }
    ensures swept { (m : Machine) (t : Stands layout.now (D.words parts.old) (D.beside parts.old) m) → IsSwept layout.now (D.words parts.new) (D.beside parts.new) (chosen choice.now) m.shown t.rows result }
    ensures pool { P.lasts pool.old ≡ true → PoolFits (P.capacity pool.new) (P.taken pool.new) (P.gives pool.new) (P.takes pool.new) layout.now.states.slots (listed_in layout.now.states (D.words parts.new)) }
{
    let mut count = 0;
    let mut at = first_here(layout, parts);
    let mut left = layout.states.slots;
    'slots: while left > 0 {
        let Some(slot) = at else {
            return count;
        };
        at = next_here(layout, parts, slot);
        let gone = pass(layout, parts, pool, slot, choice);
        count += gone;
        left -= 1;
    }
    count
}
