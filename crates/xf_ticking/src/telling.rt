//! What the values of the listed states report at a time, in the order of the list.
ghost use Rattle.std.specs.Prelude.{◌≡◌, ◌≤◌, ◌++◌, OnOk, length, filter_map, option_to_list};
ghost use Rattle.xf_types.specs.Machine.{Machine};
ghost use Rattle.xf_types.specs.TickRules.{state_event, with_own};
ghost use Rattle.xf_rows.specs.Layouts.{Fits};
ghost use Rattle.xf_rows.specs.Stands.{Stands};
ghost use Rattle.xf_ticking.specs.Counted.{CountsStates};
ghost use Rattle.xf_ticking.specs.Ready.{HoldsListed};
ghost use Rattle.xf_ticking.specs.Walks.{StatesStood};

use crate::cursor::{first_slot, next_slot};
use xf_cells::{Cells, Load};
use xf_parts::Parts;
use xf_rows::Layout;
use xf_types::{Event, NoMemory};

/// How many events these are.
fn one_if(event: Option<Event>) -> u32
    ensures is { result ≡ length (option_to_list event) }
    ensures few { result ≤ 1 }
{
    match event {
        None => 0,
        Some(_) => 1,
    }
}

/// Puts an event, where there is one, behind those so far.
fn push_some(events: &mut Vec<Event>, event: Option<Event>) -> Result<(), NoMemory>
    ensures { OnOk result (events.new.items ≡ events.old.items ++ option_to_list event) }
{
    if let Some(event) = event {
        if events.push(event).is_err() {
            return Err(NoMemory);
        }
    }
    Ok(())
}

/// How many events of states there are at a time, in seconds. The turns of the listed slots are held.
pub fn state_event_count<D: Parts>(layout: &Layout, parts: &mut D, now: u64) -> u32
    requires fits { Fits layout.now (D.size parts.old) }
    requires count { length (D.beside parts.old).values ≡ layout.now.states.slots }
    requires stood { StatesStood layout.now.states (D.words parts.old) }
    requires turns { HoldsListed layout.now (D.words parts.old) (D.beside parts.old) }
    ensures size { D.size parts.new ≡ D.size parts.old }
    ensures begun { D.begun parts.new ≡ D.begun parts.old }
    ensures rest { D.rest parts.new ≡ D.rest parts.old }
    ensures words { D.words parts.new ≡ D.words parts.old }
    ensures hidden { D.hidden parts.new ≡ D.hidden parts.old }
    ensures beside { D.beside parts.new ≡ D.beside parts.old }
    ensures few { result ≤ layout.now.states.slots }
    ensures counts { CountsStates layout.now (D.words parts.old) (D.beside parts.old) now result }
    ensures answer { (m : Machine) → Stands layout.now (D.words parts.old) (D.beside parts.old) m → result ≡ length (filter_map (state_event now) (with_own m)) }
{
    let mut count = 0;
    let mut at = first_slot(layout, parts);
    let mut left = layout.states.slots;
    'slots: while left > 0 {
        let Some(slot) = at else {
            return count;
        };
        let event = parts.event(slot, now);
        count += one_if(event);
        at = next_slot(layout, parts, slot);
        left -= 1;
    }
    count
}

/// Puts the events of states at a time, in seconds, behind those so far, in the order of the list. Where memory runs out some of them may
/// stand there. The turns of the listed slots are held.
pub fn state_events<D: Parts>(
    layout: &Layout,
    parts: &mut D,
    now: u64,
    events: &mut Vec<Event>,
) -> Result<(), NoMemory>
    requires fits { Fits layout.now (D.size parts.old) }
    requires count { length (D.beside parts.old).values ≡ layout.now.states.slots }
    requires stood { StatesStood layout.now.states (D.words parts.old) }
    requires turns { HoldsListed layout.now (D.words parts.old) (D.beside parts.old) }
    ensures size { D.size parts.new ≡ D.size parts.old }
    ensures begun { D.begun parts.new ≡ D.begun parts.old }
    ensures rest { D.rest parts.new ≡ D.rest parts.old }
    ensures words { D.words parts.new ≡ D.words parts.old }
    ensures hidden { D.hidden parts.new ≡ D.hidden parts.old }
    ensures beside { D.beside parts.new ≡ D.beside parts.old }
    ensures answer { (m : Machine) → Stands layout.now (D.words parts.old) (D.beside parts.old) m → OnOk result (events.new.items ≡ events.old.items ++ filter_map (state_event now) (with_own m)) }
{
    let mut at = first_slot(layout, parts);
    let mut left = layout.states.slots;
    'slots: while left > 0 {
        let Some(slot) = at else {
            return Ok(());
        };
        let event = parts.event(slot, now);
        push_some(events, event)?;
        at = next_slot(layout, parts, slot);
        left -= 1;
    }
    Ok(())
}
