//! All policies of a kind leave, in one walk over the list.
ghost use Rattle.std.specs.Prelude.{◌≡◌, ℕ, ◌<◌, ◌≤◌, ◌∷◌, ◌++◌, List, true};
ghost use Rattle.xf_types.specs.declared.policy.Policy.{Policy};
ghost use Rattle.xf_types.specs.Machine.{Machine, Shown};
ghost use Rattle.xf_types.specs.Steps.{step};
ghost use Rattle.xf_image.specs.Entries.{IsEntry};
ghost use Rattle.xf_inexact.specs.Whole.{SpdStands, WholeFits};
ghost use Rattle.xf_image.specs.Readings.{listed_in};
ghost use Rattle.xf_spd.specs.Slots.{PoolFits};
ghost use Rattle.xf_beside.specs.Leaving.{leaves, call_of};
ghost use Rattle.xf_beside.specs.Passing.{StandsWith, Passes};
ghost use Rattle.xf_beside.specs.Standing.{StandsFor, Stood, Answers};

use crate::cursor;
use crate::leaving::Leaving;
use xf_cells::{Cells, Pool};
use xf_spd::Spd;
use xf_types::Reply;

/// The policy in a slot leaves, where it is one of these. How many left.
fn remove_if<C: Cells, P: Pool>(
    spd: &Spd,
    c: &mut C,
    pool: &mut P,
    slot: u32,
    leaving: &Leaving,
) -> u32
    requires fits { WholeFits spd.now.area (C.size c.old) }
    requires slot { slot < spd.now.area.slots }
    requires back { P.takes pool.old slot }
    ensures size { C.size c.new ≡ C.size c.old }
    ensures lasts { P.lasts pool.new ≡ P.lasts pool.old }
    ensures few { result ≤ 1 }
    ensures passes { (s : Shown) (front back : List (ℕ × Policy)) (p : Policy) → StandsWith spd.now.area (C.words c.old) s (front ++ ((slot, p) ∷ back))
        → Passes spd.now.area (C.words c.new) s front slot p back (leaves leaving.now p) result }
    ensures pool { (s : Shown) (es : List (ℕ × Policy)) (p : Policy) → P.lasts pool.old ≡ true → IsEntry es slot p → SpdStands spd.now.area (C.words c.old) s es → PoolFits (P.capacity pool.old) (P.taken pool.old) (P.gives pool.old) (P.takes pool.old) spd.now.area.slots (listed_in spd.now.area (C.words c.old)) → PoolFits (P.capacity pool.new) (P.taken pool.new) (P.gives pool.new) (P.takes pool.new) spd.now.area.slots (listed_in spd.now.area (C.words c.new)) }
{
    match cursor::policy(spd, c, slot) {
        Some(policy) => {
            if leaving.takes(&policy) {
                spd.remove(c, pool, slot);
                1
            } else {
                0
            }
        }
        None => 0,
    }
}

/// All of these leave. The next slot is asked for before a policy leaves.
pub fn remove_all<C: Cells, P: Pool>(spd: &Spd, c: &mut C, pool: &mut P, leaving: &Leaving) -> Reply
    requires fits { WholeFits spd.now.area (C.size c.old) }
    requires lasts { P.lasts pool.old ≡ true }
    requires stood { (now : ℕ) × Stood spd.now.area (C.words c.old) now (P.capacity pool.old) (P.taken pool.old) (P.gives pool.old) (P.takes pool.old) }
    ensures size { C.size c.new ≡ C.size c.old }
    ensures lasts { P.lasts pool.new ≡ P.lasts pool.old }
    ensures stood { (now : ℕ) → Stood spd.now.area (C.words c.old) now (P.capacity pool.old) (P.taken pool.old) (P.gives pool.old) (P.takes pool.old)
        → Stood spd.now.area (C.words c.new) now (P.capacity pool.new) (P.taken pool.new) (P.gives pool.new) (P.takes pool.new) }
    ensures answer { (now : ℕ) (m : Machine) → StandsFor spd.now.area (C.words c.old) now m → Answers spd.now.area (C.words c.new) now result (step m (call_of leaving.now)) }
{
    let mut removed = 0;
    let mut at = cursor::first_slot(spd, c);
    let mut left = cursor::count(spd, c);
    'slots: while left > 0 {
        let Some(slot) = at else {
            return Reply::Removed(removed);
        };
        at = cursor::next_slot(spd, c, slot);
        removed += remove_if(spd, c, pool, slot, leaving);
        left -= 1;
    }
    Reply::Removed(removed)
}
