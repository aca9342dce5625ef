//! One walk over the list, in which policies leave or are warned of.
ghost use Rattle.std.specs.Prelude.{◌≡◌, ℕ, ◌+◌, ◌*◌, ◌<◌, ◌≤◌, Bool, true, List, ◌∷◌, ◌++◌, length};
ghost use Rattle.xf_types.specs.declared.policy.Policy.{Policy};
ghost use Rattle.xf_types.specs.Machine.{Shown};
ghost use Rattle.xf_cells.specs.Backs.{TakesBack};
ghost use Rattle.xf_records.specs.Policies.{warned};
ghost use Rattle.xf_image.specs.Frames.{Frame};
ghost use Rattle.xf_image.specs.Readings.{listed_in};
ghost use Rattle.xf_inexact.specs.Whole.{SpdStands, WholeFits, whole_end};
ghost use Rattle.xf_spd.specs.Slots.{PoolFits};
ghost use Rattle.xf_policies.specs.Sweeps.{left_of};
ghost use Rattle.xf_policies.specs.Standing.{StandsWith, Stood, LeavesOthers, Started, Moves, Passes, IsSwept};

use crate::cursor;
use crate::slots::PolicySlots;
use crate::sweep::{Fate, Sweep};
use xf_cells::{Cells, Pool};
use xf_listing::{Entry, Listing};
use xf_spd::Spd;

/// A policy leaves its slot, which goes back; whoever owns the words is told.
fn remove<C: PolicySlots, P: Pool>(spd: &Spd, c: &mut C, pool: &mut P, entry: &Entry)
    requires fits { WholeFits spd.now.area (C.size c.old) }
    requires hidden { C.hidden c.old ≤ spd.now.area.base }
    requires slot { entry.now.slot < spd.now.area.slots }
    requires back { P.takes pool.old entry.now.slot }
    ensures size { C.size c.new ≡ C.size c.old }
    ensures rest { C.rest c.new ≡ C.rest c.old }
    ensures capacity { P.capacity pool.new ≡ P.capacity pool.old }
    ensures lasts { P.lasts pool.new ≡ P.lasts pool.old }
    ensures held { P.held pool.new ≡ P.held pool.old }
    ensures begun { C.begun c.new ≡ true }
    ensures others { LeavesOthers (C.hidden c.old) spd.now.area.base (whole_end spd.now.area) (C.words c.old) (C.words c.new) }
    ensures stands { (s : Shown) (front back : List (ℕ × Policy)) → StandsWith spd.now.area (C.words c.old) s (front ++ ((entry.now.slot, entry.now.policy) ∷ back)) → StandsWith spd.now.area (C.words c.new) s (front ++ back) }
    ensures pool { (s : Shown) (front back : List (ℕ × Policy)) → P.lasts pool.old ≡ true → StandsWith spd.now.area (C.words c.old) s (front ++ ((entry.now.slot, entry.now.policy) ∷ back)) → PoolFits (P.capacity pool.old) (P.taken pool.old) (P.gives pool.old) (P.takes pool.old) spd.now.area.slots (listed_in spd.now.area (C.words c.old)) → PoolFits (P.capacity pool.new) (P.taken pool.new) (P.gives pool.new) (P.takes pool.new) spd.now.area.slots (listed_in spd.now.area (C.words c.new)) }
    ensures out { (s : Shown) (front back : List (ℕ × Policy)) → StandsWith spd.now.area (C.words c.old) s (front ++ ((entry.now.slot, entry.now.policy) ∷ back)) → P.taken pool.old ≡ length (listed_in spd.now.area (C.words c.old)) → P.taken pool.new ≡ length (listed_in spd.now.area (C.words c.new)) }
{
    Listing { area: spd.area }.delist(c, entry);
    c.policy_freed(entry.slot);
    pool.give(entry.slot);
}

/// The policy in a slot is warned of.
fn warn<C: Cells>(spd: &Spd, c: &mut C, slot: u32)
    requires fits { WholeFits spd.now.area (C.size c.old) }
    requires slot { slot < spd.now.area.slots }
    ensures size { C.size c.new ≡ C.size c.old }
    ensures rest { C.rest c.new ≡ C.rest c.old }
    ensures begun { C.begun c.new ≡ true }
    ensures frame { Frame spd.now.area.base (whole_end spd.now.area) (C.words c.old) (C.words c.new) }
    ensures stands { (s : Shown) (front back : List (ℕ × Policy)) (p : Policy) → StandsWith spd.now.area (C.words c.old) s (front ++ ((slot, p) ∷ back)) → StandsWith spd.now.area (C.words c.new) s (front ++ ((slot, warned p) ∷ back)) }
    ensures slots { (s : Shown) (front back : List (ℕ × Policy)) (p : Policy) → StandsWith spd.now.area (C.words c.old) s (front ++ ((slot, p) ∷ back)) → listed_in spd.now.area (C.words c.new) ≡ listed_in spd.now.area (C.words c.old) }
{
    Listing { area: spd.area }.set_soft_in(c, slot);
}

/// A policy comes to its fate.
fn settle<C: PolicySlots, P: Pool>(spd: &Spd, c: &mut C, pool: &mut P, entry: &Entry, fate: Fate)
    requires fits { WholeFits spd.now.area (C.size c.old) }
    requires hidden { C.hidden c.old ≤ spd.now.area.base }
    requires slot { entry.now.slot < spd.now.area.slots }
    requires back { P.takes pool.old entry.now.slot }
    ensures size { C.size c.new ≡ C.size c.old }
    ensures rest { C.rest c.new ≡ C.rest c.old }
    ensures capacity { P.capacity pool.new ≡ P.capacity pool.old }
    ensures lasts { P.lasts pool.new ≡ P.lasts pool.old }
    ensures held { P.held pool.new ≡ P.held pool.old }
    ensures others { LeavesOthers (C.hidden c.old) spd.now.area.base (whole_end spd.now.area) (C.words c.old) (C.words c.new) }
    ensures moves { Moves fate (C.words c.old) (C.words c.new) (C.begun c.old) (C.begun c.new) }
    ensures stands { (s : Shown) (front back : List (ℕ × Policy)) → StandsWith spd.now.area (C.words c.old) s (front ++ ((entry.now.slot, entry.now.policy) ∷ back)) → StandsWith spd.now.area (C.words c.new) s (front ++ (left_of fate entry.now.slot entry.now.policy ++ back)) }
    ensures pool { (s : Shown) (front back : List (ℕ × Policy)) → P.lasts pool.old ≡ true → StandsWith spd.now.area (C.words c.old) s (front ++ ((entry.now.slot, entry.now.policy) ∷ back)) → PoolFits (P.capacity pool.old) (P.taken pool.old) (P.gives pool.old) (P.takes pool.old) spd.now.area.slots (listed_in spd.now.area (C.words c.old)) → PoolFits (P.capacity pool.new) (P.taken pool.new) (P.gives pool.new) (P.takes pool.new) spd.now.area.slots (listed_in spd.now.area (C.words c.new)) }
    ensures out { (s : Shown) (front back : List (ℕ × Policy)) → StandsWith spd.now.area (C.words c.old) s (front ++ ((entry.now.slot, entry.now.policy) ∷ back)) → P.taken pool.old ≡ length (listed_in spd.now.area (C.words c.old)) → P.taken pool.new ≡ length (listed_in spd.now.area (C.words c.new)) }
{
    match fate {
        Fate::Stays => {}
        Fate::Warned => warn(spd, c, entry.slot),
        Fate::Gone => remove(spd, c, pool, entry),
    }
}

/// The policy in a slot comes to what the walk does to it.
fn pass<C: PolicySlots, P: Pool>(
    spd: &Spd,
    c: &mut C,
    pool: &mut P,
    slot: u32,
    what: &Sweep,
) -> Fate
    requires fits { WholeFits spd.now.area (C.size c.old) }
    requires hidden { C.hidden c.old ≤ spd.now.area.base }
    requires slot { slot < spd.now.area.slots }
    requires back { P.takes pool.old slot }
    ensures size { C.size c.new ≡ C.size c.old }
    ensures rest { C.rest c.new ≡ C.rest c.old }
    ensures capacity { P.capacity pool.new ≡ P.capacity pool.old }
    ensures lasts { P.lasts pool.new ≡ P.lasts pool.old }
    ensures held { P.held pool.new ≡ P.held pool.old }
    ensures others { LeavesOthers (C.hidden c.old) spd.now.area.base (whole_end spd.now.area) (C.words c.old) (C.words c.new) }
    ensures moves { Moves result (C.words c.old) (C.words c.new) (C.begun c.old) (C.begun c.new) }
    ensures passes { (s : Shown) (front back : List (ℕ × Policy)) (p : Policy) → StandsWith spd.now.area (C.words c.old) s (front ++ ((slot, p) ∷ back)) → Passes spd.now.area (C.words c.new) s front slot p back what.now result }
    ensures pool { (s : Shown) (front back : List (ℕ × Policy)) (p : Policy) → P.lasts pool.old ≡ true → StandsWith spd.now.area (C.words c.old) s (front ++ ((slot, p) ∷ back)) → PoolFits (P.capacity pool.old) (P.taken pool.old) (P.gives pool.old) (P.takes pool.old) spd.now.area.slots (listed_in spd.now.area (C.words c.old)) → PoolFits (P.capacity pool.new) (P.taken pool.new) (P.gives pool.new) (P.takes pool.new) spd.now.area.slots (listed_in spd.now.area (C.words c.new)) }
    ensures out { (s : Shown) (front back : List (ℕ × Policy)) (p : Policy) → StandsWith spd.now.area (C.words c.old) s (front ++ ((slot, p) ∷ back)) → P.taken pool.old ≡ length (listed_in spd.now.area (C.words c.old)) → P.taken pool.new ≡ length (listed_in spd.now.area (C.words c.new)) }
{
    match cursor::policy_in(spd, c, slot) {
        Some(policy) => {
            let fate = what.fate(&policy);
            settle(spd, c, pool, &Entry { slot, policy }, fate);
            fate
        }
        None => Fate::Stays,
    }
}

/// Each policy comes to what the walk does to it. How many left or were warned of. The next slot is asked for before a policy leaves.
pub(crate) fn change_all<C: PolicySlots, P: Pool>(
    spd: &Spd,
    c: &mut C,
    pool: &mut P,
    what: &Sweep,
) -> u32
    requires fits { WholeFits spd.now.area (C.size c.old) }
    requires hidden { C.hidden c.old ≤ spd.now.area.base }
    requires back { TakesBack (P.lasts pool.old) P.taken P.takes }
    requires stood { Stood spd.now.area (C.words c.old) }
    requires pool { PoolFits (P.capacity pool.old) (P.taken pool.old) (P.gives pool.old) (P.takes pool.old) spd.now.area.slots (listed_in spd.now.area (C.words c.old)) }
    ensures size { C.size c.new ≡ C.size c.old }
    ensures rest { C.rest c.new ≡ C.rest c.old }
    ensures capacity { P.capacity pool.new ≡ P.capacity pool.old }
    ensures lasts { P.lasts pool.new ≡ P.lasts pool.old }
    ensures held { P.held pool.new ≡ P.held pool.old }
    ensures others { LeavesOthers (C.hidden c.old) spd.now.area.base (whole_end spd.now.area) (C.words c.old) (C.words c.new) }
    ensures started { Started result (C.words c.old) (C.words c.new) (C.begun c.old) (C.begun c.new) }
    ensures swept { (s : Shown) (es : List (ℕ × Policy)) → SpdStands spd.now.area (C.words c.old) s es → IsSwept spd.now.area (C.words c.new) what.now s es result }
    ensures out { P.taken pool.new ≡ length (listed_in spd.now.area (C.words c.new)) }
    ensures pool { P.lasts pool.old ≡ true → PoolFits (P.capacity pool.new) (P.taken pool.new) (P.gives pool.new) (P.takes pool.new) spd.now.area.slots (listed_in spd.now.area (C.words c.new)) }
{
    let mut changes = 0;
    let mut at = cursor::first_slot(spd, c);
    let mut left = spd.area.slots;
    'slots: while left > 0 {
        let Some(slot) = at else {
            return changes;
        };
        at = cursor::next_slot(spd, c, slot);
        let fate = pass(spd, c, pool, slot, what);
        changes += fate.changes();
        left -= 1;
    }
    changes
}
