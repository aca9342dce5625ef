//! The passing of time. Times are in seconds. The clock's word is the caller's.
ghost use Rattle.std.specs.Prelude.{◌≡◌, ℕ, ◌+◌, ◌*◌, ◌≤◌, true, List, [], ◌∷◌, ◌++◌, OnOk, length, filter_map};
ghost use Rattle.xf_types.specs.declared.policy.Policy.{Policy};
ghost use Rattle.xf_types.specs.Machine.{Shown};
ghost use Rattle.xf_types.specs.TickRules as rule;
ghost use Rattle.xf_cells.specs.Words.{Narrows};
ghost use Rattle.xf_cells.specs.Backs.{TakesBack};
ghost use Rattle.xf_image.specs.Readings.{listed_in};
ghost use Rattle.xf_inexact.specs.Whole.{SpdStands, WholeFits, whole_end};
ghost use Rattle.xf_spd.specs.Slots.{PoolFits};
ghost use Rattle.xf_policies.specs.Standing.{Stood, LeavesOthers, Started, AreLater};

use crate::counting::count_changes;
use crate::slots::PolicySlots;
use crate::sweep::Sweep;
use crate::sweeping::change_all;
use crate::times;
use crate::walking::{Visitor, walk};
use std::mem;
use xf_cells::{Load, Pool};
use xf_spd::Spd;
use xf_types::{Event, NoMemory, Policy};

/// What is reported so far at a time.
#[derive(Drop)]
pub(crate) struct Report {
    time: u64,
    events: Vec<Event>,
}

/// What is reported of a policy.
fn event(policy: &Policy, time: u64) -> Option<Event>
    ensures { result ≡ rule.policy_event time policy.now }
{
    if times::ends(policy, time) {
        Some(Event::PolicyExpired(policy.index))
    } else if times::warns(policy, time) {
        Some(Event::PolicySoft(policy.index))
    } else {
        None
    }
}

impl Visitor for Report {
    ghost goes = { λ v p u. (u.time ≡ v.time) × (u.events.items ≡ v.events.items ++ filter_map (rule.policy_event v.time) (p ∷ [])) };

    ghost fails = { true };

    fn visit(&mut self, policy: Policy) -> Result<(), NoMemory> {
        let Some(event) = event(&policy, self.time) else {
            return Ok(());
        };
        match self.events.push(event) {
            Ok(()) => Ok(()),
            Err(_) => Err(NoMemory),
        }
    }
}

/// How many events of policies there are at a time.
pub fn policy_event_count<L: Load>(spd: &Spd, l: &mut L, now: u64) -> u32
    requires { WholeFits spd.now.area (L.size l.old) }
    ensures size { L.size l.new ≡ L.size l.old }
    ensures begun { L.begun l.new ≡ L.begun l.old }
    ensures rest { L.rest l.new ≡ L.rest l.old }
    ensures among { Narrows (L.agrees l.old) (L.agrees l.new) }
    ensures loads { L.loads l.new ≤ L.loads l.old + 1 + 102 * spd.now.area.slots }
    ensures answer { (image : List ℕ) (s : Shown) (es : List (ℕ × Policy)) → L.agrees l.new image → SpdStands spd.now.area image s es → result ≡ length (filter_map (rule.policy_event now) s.policies) }
{
    count_changes(spd, l, Sweep::Later(now))
}

/// Puts the events of policies at a time behind those so far, in the order of the list. Where memory runs out some of them may stand
/// there.
pub fn policy_events<L: Load>(
    spd: &Spd,
    l: &mut L,
    now: u64,
    events: &mut Vec<Event>,
) -> Result<(), NoMemory>
    requires { WholeFits spd.now.area (L.size l.old) }
    ensures size { L.size l.new ≡ L.size l.old }
    ensures begun { L.begun l.new ≡ L.begun l.old }
    ensures rest { L.rest l.new ≡ L.rest l.old }
    ensures among { Narrows (L.agrees l.old) (L.agrees l.new) }
    ensures loads { L.loads l.new ≤ L.loads l.old + 1 + 102 * spd.now.area.slots }
    ensures answer { (image : List ℕ) (s : Shown) (es : List (ℕ × Policy)) → L.agrees l.new image → SpdStands spd.now.area image s es → OnOk result (events.new.items ≡ events.old.items ++ filter_map (rule.policy_event now) s.policies) }
{
    let none = Vec::new(*events.allocator());
    let own = mem::replace(events, none);
    let mut report = Report {
        time: now,
        events: own,
    };
    let told = walk(spd, l, &mut report);
    *events = report.events;
    told
}

/// Removes the policies that a time ends, and marks those that it newly warns of. How many these were.
pub fn policies_later<C: PolicySlots, P: Pool>(spd: &Spd, c: &mut C, pool: &mut P, now: u64) -> u32
    requires fits { WholeFits spd.now.area (C.size c.old) }
    requires hidden { C.hidden c.old ≤ spd.now.area.base }
    requires back { TakesBack (P.lasts pool.old) P.taken P.takes }
    requires stood { Stood spd.now.area (C.words c.old) }
    requires pool { PoolFits (P.capacity pool.old) (P.taken pool.old) (P.gives pool.old) (P.takes pool.old) spd.now.area.slots (listed_in spd.now.area (C.words c.old)) }
    ensures size { C.size c.new ≡ C.size c.old }
    ensures rest { C.rest c.new ≡ C.rest c.old }
    ensures capacity { P.capacity pool.new ≡ P.capacity pool.old }
    ensures lasts { P.lasts pool.new ≡ P.lasts pool.old }
    ensures held { P.held pool.new ≡ P.held pool.old }
    ensures others { LeavesOthers (C.hidden c.old) spd.now.area.base (whole_end spd.now.area) (C.words c.old) (C.words c.new) }
    ensures started { Started result (C.words c.old) (C.words c.new) (C.begun c.old) (C.begun c.new) }
    ensures count { (s : Shown) (es : List (ℕ × Policy)) → SpdStands spd.now.area (C.words c.old) s es → result ≡ length (filter_map (rule.policy_event now) s.policies) }
    ensures later { (s : Shown) (es : List (ℕ × Policy)) → SpdStands spd.now.area (C.words c.old) s es → AreLater spd.now.area (C.words c.new) now s es }
    ensures out { P.taken pool.new ≡ length (listed_in spd.now.area (C.words c.new)) }
    ensures pool { P.lasts pool.old ≡ true → PoolFits (P.capacity pool.new) (P.taken pool.new) (P.gives pool.new) (P.takes pool.new) spd.now.area.slots (listed_in spd.now.area (C.words c.new)) }
{
    change_all(spd, c, pool, &Sweep::Later(now))
}
