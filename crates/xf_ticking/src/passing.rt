//! Words and values at the later time.
ghost use Rattle.std.specs.Prelude.{◌≡◌, true, length};
ghost use Rattle.xf_types.specs.Machine.{Machine};
ghost use Rattle.xf_types.specs.TickRules.{at_time};
ghost use Rattle.xf_cells.specs.Backs.{TakesBack};
ghost use Rattle.xf_image.specs.Readings.{listed_in as policies_listed};
ghost use Rattle.xf_sad.specs.Slots.{listed_in as states_listed};
ghost use Rattle.xf_rows.specs.Stands.{Stands};
ghost use Rattle.xf_statecalls.specs.Ready.{Stood};
ghost use Rattle.xf_ticking.specs.Counted.{CountsPolicies, CountsStates};
ghost use Rattle.xf_ticking.specs.Ready.{IsReady, FitsPolicies, FitsStates, LeavesOutside};

use crate::clock::set_time;
use crate::policies::policies_later_here;
use crate::reports::EventCount;
use crate::slots::AllParts;
use crate::states::states_later_here;
use xf_cells::{Cells, Load, Pool};
use xf_parts::{Parts, age_all};
use xf_policies::PolicySlots;
use xf_rows::Layout;

/// Policies, states, the time's word and the values come to a time, at which so many events are told.
pub(crate) fn pass_to<D: AllParts, P: Pool, Q: Pool>(
    layout: &Layout,
    parts: &mut D,
    policies: &mut P,
    states: &mut Q,
    now: u64,
    count: EventCount,
)
    requires ready { IsReady layout.now (D.size parts.old) (D.Parts.hidden parts.old) (D.words parts.old) (D.beside parts.old) }
    requires stands { Stood layout.now (D.words parts.old) (D.beside parts.old) }
    requires counts_policies { CountsPolicies layout.now (D.words parts.old) now count.policies }
    requires counts_states { CountsStates layout.now (D.words parts.old) (D.beside parts.old) now count.states }
    requires policies_back { TakesBack (P.lasts policies.old) P.taken P.takes }
    requires states_back { TakesBack (Q.lasts states.old) Q.taken Q.takes }
    requires policies { FitsPolicies layout.now (D.words parts.old) (P.capacity policies.old) (P.taken policies.old) (P.gives policies.old) (P.takes policies.old) }
    requires states { FitsStates layout.now (D.words parts.old) (Q.capacity states.old) (Q.taken states.old) (Q.gives states.old) (Q.takes states.old) }
    ensures size { D.size parts.new ≡ D.size parts.old }
    ensures begun { D.begun parts.new ≡ true }
    ensures hidden { D.Parts.hidden parts.new ≡ D.Parts.hidden parts.old }
    ensures policies_capacity { P.capacity policies.new ≡ P.capacity policies.old }
    ensures policies_last { P.lasts policies.new ≡ P.lasts policies.old }
    ensures policies_held { P.held policies.new ≡ P.held policies.old }
    ensures states_capacity { Q.capacity states.new ≡ Q.capacity states.old }
    ensures states_last { Q.lasts states.new ≡ Q.lasts states.old }
    ensures states_held { Q.held states.new ≡ Q.held states.old }
    ensures outside { LeavesOutside layout.now (D.Parts.hidden parts.old) (D.words parts.old) (D.words parts.new) (D.beside parts.old) (D.beside parts.new) }
    ensures stands { (m : Machine) → Stands layout.now (D.words parts.old) (D.beside parts.old) m → Stands layout.now (D.words parts.new) (D.beside parts.new) (at_time m now) }
    ensures policies_out { P.taken policies.new ≡ length (policies_listed layout.now.policies (D.words parts.new)) }
    ensures states_out { Q.taken states.new ≡ length (states_listed layout.now.states (D.words parts.new)) }
    ensures policies { P.lasts policies.old ≡ true → FitsPolicies layout.now (D.words parts.new) (P.capacity policies.new) (P.taken policies.new) (P.gives policies.new) (P.takes policies.new) }
    ensures states { Q.lasts states.old ≡ true → FitsStates layout.now (D.words parts.new) (Q.capacity states.new) (Q.taken states.new) (Q.gives states.new) (Q.takes states.new) }
{
    policies_later_here(layout, parts, policies, now, count.policies);
    states_later_here(layout, parts, states, now, count.states);
    set_time(layout, parts, now);
    age_all(parts, layout.states.slots, now);
}
