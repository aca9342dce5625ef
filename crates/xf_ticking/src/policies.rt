//! The policies' half of a tick, where the words have values beside them.
ghost use Rattle.std.specs.Prelude.{◌≡◌, ℕ, ◌≤◌, ◌++◌, true, List, OnOk, length, filter_map};
ghost use Rattle.xf_types.specs.declared.policy.Policy.{Policy};
ghost use Rattle.xf_types.specs.Machine.{Shown};
ghost use Rattle.xf_types.specs.TickRules.{policy_event};
ghost use Rattle.xf_cells.specs.Backs.{TakesBack};
ghost use Rattle.xf_image.specs.Readings.{listed_in};
ghost use Rattle.xf_inexact.specs.Whole.{SpdStands, whole_end};
ghost use Rattle.xf_rows.specs.Layouts.{Fits};
ghost use Rattle.xf_policies.specs.Standing.{Stood as PoliciesStood, LeavesOthers, AreLater};
ghost use Rattle.xf_ticking.specs.Counted.{CountsPolicies};
ghost use Rattle.xf_ticking.specs.Ready.{FitsPolicies};

use crate::slots::AllParts;
use xf_cells::{Cells, Load, Pool};
use xf_parts::Parts;
use xf_policies::{PolicySlots, policies_later, policy_event_count, policy_events};
use xf_rows::Layout;
use xf_spd::Spd;
use xf_types::{Event, NoMemory};

/// How many events of policies there are at a time.
pub(crate) fn policy_count_here<D: Parts>(layout: &Layout, parts: &mut D, now: u64) -> u32
    requires { Fits layout.now (D.size parts.old) }
    ensures size { D.size parts.new ≡ D.size parts.old }
    ensures begun { D.begun parts.new ≡ D.begun parts.old }
    ensures rest { D.rest parts.new ≡ D.rest parts.old }
    ensures words { D.words parts.new ≡ D.words parts.old }
    ensures hidden { D.hidden parts.new ≡ D.hidden parts.old }
    ensures beside { D.beside parts.new ≡ D.beside parts.old }
    ensures counts { CountsPolicies layout.now (D.words parts.old) now result }
{
    let spd = Spd {
        area: layout.policies,
    };
    policy_event_count(&spd, parts, now)
}

/// Puts the events of policies at a time, of which there are so many, behind those so far. With none there is no walk.
pub(crate) fn policy_events_here<D: Parts>(
    layout: &Layout,
    parts: &mut D,
    now: u64,
    count: u32,
    events: &mut Vec<Event>,
) -> Result<(), NoMemory>
    requires fits { Fits layout.now (D.size parts.old) }
    requires counts { CountsPolicies layout.now (D.words parts.old) now count }
    ensures size { D.size parts.new ≡ D.size parts.old }
    ensures begun { D.begun parts.new ≡ D.begun parts.old }
    ensures rest { D.rest parts.new ≡ D.rest parts.old }
    ensures words { D.words parts.new ≡ D.words parts.old }
    ensures hidden { D.hidden parts.new ≡ D.hidden parts.old }
    ensures beside { D.beside parts.new ≡ D.beside parts.old }
    ensures answer { (s : Shown) (es : List (ℕ × Policy)) → SpdStands layout.now.policies (D.words parts.old) s es → OnOk result (events.new.items ≡ events.old.items ++ filter_map (policy_event now) s.policies) }
{
    if count == 0 {
        return Ok(());
    }
    let spd = Spd {
        area: layout.policies,
    };
    policy_events(&spd, parts, now, events)
}

/// Removes the policies that a time ends, and marks those that it newly warns of. They are so many; with none there is no walk.
pub(crate) fn policies_later_here<D: AllParts, P: Pool>(
    layout: &Layout,
    parts: &mut D,
    pool: &mut P,
    now: u64,
    count: u32,
)
    requires fits { Fits layout.now (D.size parts.old) }
    requires behind { D.Parts.hidden parts.old ≤ layout.now.policies.base }
    requires back { TakesBack (P.lasts pool.old) P.taken P.takes }
    requires counts { CountsPolicies layout.now (D.words parts.old) now count }
    requires stood { PoliciesStood layout.now.policies (D.words parts.old) }
    requires pool { FitsPolicies layout.now (D.words parts.old) (P.capacity pool.old) (P.taken pool.old) (P.gives pool.old) (P.takes pool.old) }
    ensures size { D.size parts.new ≡ D.size parts.old }
    ensures hidden { D.Parts.hidden parts.new ≡ D.Parts.hidden parts.old }
    ensures beside { D.beside parts.new ≡ D.beside parts.old }
    ensures capacity { P.capacity pool.new ≡ P.capacity pool.old }
    ensures lasts { P.lasts pool.new ≡ P.lasts pool.old }
    ensures held { P.held pool.new ≡ P.held pool.old }
    ensures others { LeavesOthers (D.Parts.hidden parts.old) layout.now.policies.base (whole_end layout.now.policies) (D.words parts.old) (D.words parts.new) }
    ensures later { (s : Shown) (es : List (ℕ × Policy)) → SpdStands layout.now.policies (D.words parts.old) s es → AreLater layout.now.policies (D.words parts.new) now s es }
    ensures out { P.taken pool.new ≡ length (listed_in layout.now.policies (D.words parts.new)) }
    ensures pool { P.lasts pool.old ≡ true → FitsPolicies layout.now (D.words parts.new) (P.capacity pool.new) (P.taken pool.new) (P.gives pool.new) (P.takes pool.new) }
{
    if count == 0 {
        return;
    }
    let spd = Spd {
        area: layout.policies,
    };
    let _changes = policies_later(&spd, parts, pool, now);
}
