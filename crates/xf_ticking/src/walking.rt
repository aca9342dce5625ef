//! The states' words at a later time.
ghost use Rattle.std.specs.Prelude.{◌≡◌, ℕ, ◌≤◌, true, List, length};
ghost use Rattle.xf_types.specs.declared.state.Sa.{Sa};
ghost use Rattle.xf_types.specs.Machine.{Shown};
ghost use Rattle.xf_cells.specs.Backs.{TakesBack};
ghost use Rattle.xf_sadidx.specs.Layout.{end_of};
ghost use Rattle.xf_sadimage.specs.States.{StatesStand};
ghost use Rattle.xf_sad.specs.Slots.{listed_in};
ghost use Rattle.xf_rows.specs.Layouts.{Fits};
ghost use Rattle.xf_policies.specs.Standing.{LeavesOthers};
ghost use Rattle.xf_ticking.specs.Ready.{FitsStates, HoldsListed};
ghost use Rattle.xf_ticking.specs.Walks.{StatesStood, StandsLeft};

use crate::cursor::{first_slot, next_slot};
use crate::due::Due;
use crate::settling::settle;
use xf_cells::{Cells, Load, Pool};
use xf_parts::Parts;
use xf_rows::Layout;

/// Removes the states that a time ends, and marks those as dying that it newly warns of, as their values tell. The time is in seconds.
/// No value changes, and the clock's word is the caller's. The pool takes back one slot after the other, and the turns of the listed
/// slots are held. The next slot is asked for before a state leaves.
pub fn states_later<D: Parts, P: Pool>(layout: &Layout, parts: &mut D, pool: &mut P, now: u64)
    requires fits { Fits layout.now (D.size parts.old) }
    requires behind { D.hidden parts.old ≤ layout.now.policies.base }
    requires count { length (D.beside parts.old).values ≡ layout.now.states.slots }
    requires turns { HoldsListed layout.now (D.words parts.old) (D.beside parts.old) }
    requires back { TakesBack (P.lasts pool.old) P.taken P.takes }
    requires stood { StatesStood layout.now.states (D.words parts.old) }
    requires pool { FitsStates layout.now (D.words parts.old) (P.capacity pool.old) (P.taken pool.old) (P.gives pool.old) (P.takes pool.old) }
    ensures size { D.size parts.new ≡ D.size parts.old }
    ensures hidden { D.hidden parts.new ≡ D.hidden parts.old }
    ensures beside { D.beside parts.new ≡ D.beside parts.old }
    ensures capacity { P.capacity pool.new ≡ P.capacity pool.old }
    ensures lasts { P.lasts pool.new ≡ P.lasts pool.old }
    ensures held { P.held pool.new ≡ P.held pool.old }
    ensures others { LeavesOthers (D.hidden parts.old) layout.now.states.base (end_of layout.now.states) (D.words parts.old) (D.words parts.new) }
    ensures later { (s : Shown) (es : List (ℕ × Sa)) → StatesStand layout.now.states (D.words parts.old) s es → StandsLeft layout.now.states (D.words parts.new) now (D.beside parts.old) s es }
    ensures out { P.taken pool.new ≡ length (listed_in layout.now.states (D.words parts.new)) }
    ensures pool { P.lasts pool.old ≡ true → FitsStates layout.now (D.words parts.new) (P.capacity pool.new) (P.taken pool.new) (P.gives pool.new) (P.takes pool.new) }
{
    let mut at = first_slot(layout, parts);
    let mut left = layout.states.slots;
    'slots: while left > 0 {
        let Some(slot) = at else {
            return;
        };
        let due = Due::by(parts.event(slot, now));
        at = next_slot(layout, parts, slot);
        settle(layout, parts, pool, slot, due);
        left -= 1;
    }
}
