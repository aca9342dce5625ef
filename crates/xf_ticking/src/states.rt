//! The states' half of a tick. Without events there is no walk.
ghost use Rattle.std.specs.Prelude.{◌≡◌, ℕ, ◌≤◌, ◌++◌, true, List, OnOk, filter_map, length};
ghost use Rattle.xf_types.specs.declared.state.Sa.{Sa};
ghost use Rattle.xf_types.specs.Machine.{Machine, Shown};
ghost use Rattle.xf_types.specs.TickRules.{state_event, with_own};
ghost use Rattle.xf_cells.specs.Backs.{TakesBack};
ghost use Rattle.xf_sadidx.specs.Layout.{end_of};
ghost use Rattle.xf_sadimage.specs.States.{StatesStand};
ghost use Rattle.xf_sad.specs.Slots.{listed_in};
ghost use Rattle.xf_rows.specs.Layouts.{Fits};
ghost use Rattle.xf_rows.specs.Stands.{Stands};
ghost use Rattle.xf_policies.specs.Standing.{LeavesOthers};
ghost use Rattle.xf_ticking.specs.Counted.{CountsStates};
ghost use Rattle.xf_ticking.specs.Ready.{FitsStates, HoldsListed};
ghost use Rattle.xf_ticking.specs.Walks.{StatesStood, StandsLeft};

use crate::telling::state_events;
use crate::walking::states_later;
use xf_cells::{Cells, Load, Pool};
use xf_parts::Parts;
use xf_rows::Layout;
use xf_types::{Event, NoMemory};

/// Puts the events of states at a time, of which there are so many, behind those so far.
pub(crate) fn state_events_here<D: Parts>(
    layout: &Layout,
    parts: &mut D,
    now: u64,
    count: u32,
    events: &mut Vec<Event>,
) -> Result<(), NoMemory>
    requires fits { Fits layout.now (D.size parts.old) }
    requires count { length (D.beside parts.old).values ≡ layout.now.states.slots }
    requires stood { StatesStood layout.now.states (D.words parts.old) }
    requires turns { HoldsListed layout.now (D.words parts.old) (D.beside parts.old) }
    requires counts { CountsStates layout.now (D.words parts.old) (D.beside parts.old) now count }
    ensures size { D.size parts.new ≡ D.size parts.old }
    ensures begun { D.begun parts.new ≡ D.begun parts.old }
    ensures rest { D.rest parts.new ≡ D.rest parts.old }
    ensures words { D.words parts.new ≡ D.words parts.old }
    ensures hidden { D.hidden parts.new ≡ D.hidden parts.old }
    ensures beside { D.beside parts.new ≡ D.beside parts.old }
    ensures answer { (m : Machine) → Stands layout.now (D.words parts.old) (D.beside parts.old) m → OnOk result (events.new.items ≡ events.old.items ++ filter_map (state_event now) (with_own m)) }
{
    if count == 0 {
        return Ok(());
    }
    state_events(layout, parts, now, events)
}

/// Removes the states that a time ends, and marks those as dying that it newly warns of. They are so many.
pub(crate) fn states_later_here<D: Parts, P: Pool>(
    layout: &Layout,
    parts: &mut D,
    pool: &mut P,
    now: u64,
    count: u32,
)
    requires fits { Fits layout.now (D.size parts.old) }
    requires behind { D.hidden parts.old ≤ layout.now.policies.base }
    requires count { length (D.beside parts.old).values ≡ layout.now.states.slots }
    requires turns { HoldsListed layout.now (D.words parts.old) (D.beside parts.old) }
    requires counts { CountsStates layout.now (D.words parts.old) (D.beside parts.old) now count }
    requires back { TakesBack (P.lasts pool.old) P.taken P.takes }
    requires stood { StatesStood layout.now.states (D.words parts.old) }
    requires pool { FitsStates layout.now (D.words parts.old) (P.capacity pool.old) (P.taken pool.old) (P.gives pool.old) (P.takes pool.old) }
    ensures size { D.size parts.new ≡ D.size parts.old }
    ensures hidden { D.hidden parts.new ≡ D.hidden parts.old }
    ensures beside { D.beside parts.new ≡ D.beside parts.old }
    ensures capacity { P.capacity pool.new ≡ P.capacity pool.old }
    ensures lasts { P.lasts pool.new ≡ P.lasts pool.old }
    ensures held { P.held pool.new ≡ P.held pool.old }
    ensures others { LeavesOthers (D.hidden parts.old) layout.now.states.base (end_of layout.now.states) (D.words parts.old) (D.words parts.new) }
    ensures later { (s : Shown) (es : List (ℕ × Sa)) → StatesStand layout.now.states (D.words parts.old) s es → StandsLeft layout.now.states (D.words parts.new) now (D.beside parts.old) s es }
    ensures out { P.taken pool.new ≡ length (listed_in layout.now.states (D.words parts.new)) }
    ensures pool { P.lasts pool.old ≡ true → FitsStates layout.now (D.words parts.new) (P.capacity pool.new) (P.taken pool.new) (P.gives pool.new) (P.takes pool.new) }
{
    if count == 0 {
        return;
    }
    states_later(layout, parts, pool, now);
}
