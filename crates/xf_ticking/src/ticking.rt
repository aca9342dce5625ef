//! The passing of time.
ghost use Rattle.std.specs.Prelude.{◌≡◌, ◌≢◌, true, false, length};
ghost use Rattle.xf_types.specs.declared.call.Call.TheVariants.{Tick};
ghost use Rattle.xf_types.specs.History.{is_contended};
ghost use Rattle.xf_types.specs.Machine.{Machine};
ghost use Rattle.xf_cells.specs.Backs.{TakesBack};
ghost use Rattle.xf_image.specs.Readings.{listed_in as policies_listed};
ghost use Rattle.xf_sad.specs.Slots.{listed_in as states_listed};
ghost use Rattle.xf_rows.specs.Replies.{Answers};
ghost use Rattle.xf_rows.specs.Stands.{Stands};
ghost use Rattle.xf_statecalls.specs.Ready.{Stood, IsSame};
ghost use Rattle.xf_ticking.specs.Ready.{IsReady, FitsPolicies, FitsStates, LeavesOutside};

use crate::clock::time_here;
use crate::passing::pass_to;
use crate::reports::{event_count, events_at};
use crate::slots::AllParts;
use std::alloc::Global;
use xf_cells::{Cells, Load, Pool};
use xf_parts::Parts;
use xf_policies::PolicySlots;
use xf_rows::Layout;
use xf_types::{Events, Reply};

/// Brings words and values to a time, in seconds, and tells what ended or is newly warned of. Time never goes back: a given time that is
/// past tells what is due now. NoMemory where there is no room for the events; then nothing has changed. Both pools
/// take back one slot after the other, and the turns of the listed states' slots are held.
pub fn tick<D: AllParts, P: Pool, Q: Pool>(
    alloc: Global,
    layout: &Layout,
    parts: &mut D,
    policies: &mut P,
    states: &mut Q,
    given: u64,
) -> Reply
    requires ready { IsReady layout.now (D.size parts.old) (D.Parts.hidden parts.old) (D.words parts.old) (D.beside parts.old) }
    requires stands { Stood layout.now (D.words parts.old) (D.beside parts.old) }
    requires policies_back { TakesBack (P.lasts policies.old) P.taken P.takes }
    requires states_back { TakesBack (Q.lasts states.old) Q.taken Q.takes }
    requires policies { FitsPolicies layout.now (D.words parts.old) (P.capacity policies.old) (P.taken policies.old) (P.gives policies.old) (P.takes policies.old) }
    requires states { FitsStates layout.now (D.words parts.old) (Q.capacity states.old) (Q.taken states.old) (Q.gives states.old) (Q.takes states.old) }
    ensures size { D.size parts.new ≡ D.size parts.old }
    ensures begun { result ≢ Reply.NoMemory → D.begun parts.new ≡ true }
    ensures hidden { D.Parts.hidden parts.new ≡ D.Parts.hidden parts.old }
    ensures policies_capacity { P.capacity policies.new ≡ P.capacity policies.old }
    ensures policies_last { P.lasts policies.new ≡ P.lasts policies.old }
    ensures policies_held { P.held policies.new ≡ P.held policies.old }
    ensures states_capacity { Q.capacity states.new ≡ Q.capacity states.old }
    ensures states_last { Q.lasts states.new ≡ Q.lasts states.old }
    ensures states_held { Q.held states.new ≡ Q.held states.old }
    ensures outside { LeavesOutside layout.now (D.Parts.hidden parts.old) (D.words parts.old) (D.words parts.new) (D.beside parts.old) (D.beside parts.new) }
    ensures settled { is_contended result ≡ false }
    ensures memory { result ≡ Reply.NoMemory → IsSame (D.words parts.old) (D.words parts.new) (D.beside parts.old) (D.beside parts.new) (D.begun parts.old) (D.begun parts.new) }
    ensures answer { (m : Machine) → Stands layout.now (D.words parts.old) (D.beside parts.old) m → Answers layout.now (D.words parts.new) (D.beside parts.new) m (Tick given) result }
    ensures policies_out { P.taken policies.new ≡ length (policies_listed layout.now.policies (D.words parts.new)) }
    ensures states_out { Q.taken states.new ≡ length (states_listed layout.now.states (D.words parts.new)) }
    ensures policies { P.lasts policies.old ≡ true → FitsPolicies layout.now (D.words parts.new) (P.capacity policies.new) (P.taken policies.new) (P.gives policies.new) (P.takes policies.new) }
    ensures states { Q.lasts states.old ≡ true → FitsStates layout.now (D.words parts.new) (Q.capacity states.new) (Q.taken states.new) (Q.gives states.new) (Q.takes states.new) }
{
    let now = time_here(layout, parts).max(given);
    let count = event_count(layout, parts, now);
    match events_at(alloc, layout, parts, now, count) {
        Err(_) => Reply::NoMemory,
        Ok(events) => {
            pass_to(layout, parts, policies, states, now, count);
            Reply::Ticked {
                now,
                events: Events::new(events),
            }
        }
    }
}
