//! What a tick reports: policies first, then states, each in the order of its list.
ghost use Rattle.std.specs.Prelude.{◌≡◌, IfOk, length};
ghost use Rattle.xf_types.specs.Machine.{Machine};
ghost use Rattle.xf_types.specs.TickRules.{events_at};
ghost use Rattle.xf_rows.specs.Layouts.{Fits};
ghost use Rattle.xf_rows.specs.Stands.{Stands};
ghost use Rattle.xf_ticking.specs.Counted.{CountsPolicies, CountsStates};
ghost use Rattle.xf_ticking.specs.Ready.{HoldsListed};
ghost use Rattle.xf_ticking.specs.Walks.{StatesStood};

use crate::policies::{policy_count_here, policy_events_here};
use crate::states::state_events_here;
use crate::telling::state_event_count;
use std::alloc::Global;
use xf_cells::{Cells, Load};
use xf_parts::Parts;
use xf_rows::Layout;
use xf_types::{Event, NoMemory};

/// How many events there are at a time.
#[derive(Clone, Copy, Debug, PartialEq, Eq)]
pub(crate) struct EventCount {
    pub(crate) policies: u32,
    pub(crate) states: u32,
}

/// How many events there are at a time.
pub(crate) fn event_count<D: Parts>(layout: &Layout, parts: &mut D, now: u64) -> EventCount
    requires fits { Fits layout.now (D.size parts.old) }
    requires count { length (D.beside parts.old).values ≡ layout.now.states.slots }
    requires stood { StatesStood layout.now.states (D.words parts.old) }
    requires turns { HoldsListed layout.now (D.words parts.old) (D.beside parts.old) }
    ensures size { D.size parts.new ≡ D.size parts.old }
    ensures begun { D.begun parts.new ≡ D.begun parts.old }
    ensures rest { D.rest parts.new ≡ D.rest parts.old }
    ensures words { D.words parts.new ≡ D.words parts.old }
    ensures hidden { D.hidden parts.new ≡ D.hidden parts.old }
    ensures beside { D.beside parts.new ≡ D.beside parts.old }
    ensures policies { CountsPolicies layout.now (D.words parts.old) now result.policies }
    ensures states { CountsStates layout.now (D.words parts.old) (D.beside parts.old) now result.states }
{
    let policies = policy_count_here(layout, parts, now);
    let states = state_event_count(layout, parts, now);
    EventCount { policies, states }
}

/// The events at a time, of which there are so many. Memory for them is taken first.
pub(crate) fn events_at<D: Parts>(
    alloc: Global,
    layout: &Layout,
    parts: &mut D,
    now: u64,
    count: EventCount,
) -> Result<Vec<Event>, NoMemory>
    requires fits { Fits layout.now (D.size parts.old) }
    requires count { length (D.beside parts.old).values ≡ layout.now.states.slots }
    requires stood { StatesStood layout.now.states (D.words parts.old) }
    requires turns { HoldsListed layout.now (D.words parts.old) (D.beside parts.old) }
    requires policies { CountsPolicies layout.now (D.words parts.old) now count.policies }
    requires states { CountsStates layout.now (D.words parts.old) (D.beside parts.old) now count.states }
    ensures size { D.size parts.new ≡ D.size parts.old }
    ensures begun { D.begun parts.new ≡ D.begun parts.old }
    ensures rest { D.rest parts.new ≡ D.rest parts.old }
    ensures words { D.words parts.new ≡ D.words parts.old }
    ensures hidden { D.hidden parts.new ≡ D.hidden parts.old }
    ensures beside { D.beside parts.new ≡ D.beside parts.old }
    ensures answer { (m : Machine) → Stands layout.now (D.words parts.old) (D.beside parts.old) m → IfOk result (λ events. events.items ≡ events_at m now) }
{
    let room = count.policies.saturating_add(count.states);
    let Ok(mut events) = Vec::with_capacity(alloc, room as usize) else {
        return Err(NoMemory);
    };
    policy_events_here(layout, parts, now, count.policies, &mut events)?;
    state_events_here(layout, parts, now, count.states, &mut events)?;
    Ok(events)
}
