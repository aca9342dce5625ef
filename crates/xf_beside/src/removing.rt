//! The policy that a key names leaves.
ghost use Rattle.std.specs.Prelude.{◌≡◌, ℕ, true};
ghost use Rattle.xf_types.specs.declared.call.Call.TheVariants.{PolicyDelete};
ghost use Rattle.xf_types.specs.Machine.{Machine};
ghost use Rattle.xf_types.specs.Steps.{step};
ghost use Rattle.xf_inexact.specs.Whole.{WholeFits};
ghost use Rattle.xf_beside.specs.Standing.{StandsFor, Stood, Answers};

use crate::replying::index_reply;
use xf_cells::{Cells, Pool};
use xf_spd::Spd;
use xf_types::{PolicyKey, Reply};

pub fn delete<C: Cells, P: Pool>(spd: &Spd, c: &mut C, pool: &mut P, key: &PolicyKey) -> Reply
    requires fits { WholeFits spd.now.area (C.size c.old) }
    requires lasts { P.lasts pool.old ≡ true }
    requires stood { (now : ℕ) × Stood spd.now.area (C.words c.old) now (P.capacity pool.old) (P.taken pool.old) (P.gives pool.old) (P.takes pool.old) }
    ensures size { C.size c.new ≡ C.size c.old }
    ensures lasts { P.lasts pool.new ≡ P.lasts pool.old }
    ensures stood { (now : ℕ) → Stood spd.now.area (C.words c.old) now (P.capacity pool.old) (P.taken pool.old) (P.gives pool.old) (P.takes pool.old)
        → Stood spd.now.area (C.words c.new) now (P.capacity pool.new) (P.taken pool.new) (P.gives pool.new) (P.takes pool.new) }
    ensures answer { (now : ℕ) (m : Machine) → StandsFor spd.now.area (C.words c.old) now m → Answers spd.now.area (C.words c.new) now result (step m (PolicyDelete key.now)) }
{
    let answer = spd.delete(c, pool, key);
    index_reply(answer)
}
