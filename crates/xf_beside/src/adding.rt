//! A policy is added, or takes the place of the same one.
ghost use Rattle.std.specs.Prelude.{◌≡◌, ℕ, true};
ghost use Rattle.xf_types.specs.declared.call.Call.TheVariants.{PolicyAdd, PolicyUpdate};
ghost use Rattle.xf_types.specs.Machine.{Machine};
ghost use Rattle.xf_types.specs.Steps.{step};
ghost use Rattle.xf_inexact.specs.Whole.{WholeFits};
ghost use Rattle.xf_beside.specs.Standing.{StandsFor, Stood, IsYoung, Answers};

use crate::replying::index_reply;
use xf_cells::{Cells, Pool};
use xf_spd::Spd;
use xf_types::{PolicySpec, Reply};

pub fn add<C: Cells, P: Pool>(
    spd: &Spd,
    c: &mut C,
    pool: &mut P,
    spec: &PolicySpec,
    now: u64,
) -> Reply
    requires fits { WholeFits spd.now.area (C.size c.old) }
    requires lasts { P.lasts pool.old ≡ true }
    requires young { IsYoung spd.now.area (C.words c.old) }
    requires stood { Stood spd.now.area (C.words c.old) now (P.capacity pool.old) (P.taken pool.old) (P.gives pool.old) (P.takes pool.old) }
    ensures size { C.size c.new ≡ C.size c.old }
    ensures lasts { P.lasts pool.new ≡ P.lasts pool.old }
    ensures stood { Stood spd.now.area (C.words c.new) now (P.capacity pool.new) (P.taken pool.new) (P.gives pool.new) (P.takes pool.new) }
    ensures answer { (m : Machine) → P.held pool.new ≡ 0 → StandsFor spd.now.area (C.words c.old) now m → Answers spd.now.area (C.words c.new) now result (step m (PolicyAdd spec.now)) }
{
    let answer = spd.insert(c, pool, spec, now);
    index_reply(answer)
}

pub fn update<C: Cells, P: Pool>(
    spd: &Spd,
    c: &mut C,
    pool: &mut P,
    spec: &PolicySpec,
    now: u64,
) -> Reply
    requires fits { WholeFits spd.now.area (C.size c.old) }
    requires lasts { P.lasts pool.old ≡ true }
    requires young { IsYoung spd.now.area (C.words c.old) }
    requires stood { Stood spd.now.area (C.words c.old) now (P.capacity pool.old) (P.taken pool.old) (P.gives pool.old) (P.takes pool.old) }
    ensures size { C.size c.new ≡ C.size c.old }
    ensures lasts { P.lasts pool.new ≡ P.lasts pool.old }
    ensures stood { Stood spd.now.area (C.words c.new) now (P.capacity pool.new) (P.taken pool.new) (P.gives pool.new) (P.takes pool.new) }
    ensures answer { (m : Machine) → P.held pool.new ≡ 0 → StandsFor spd.now.area (C.words c.old) now m → Answers spd.now.area (C.words c.new) now result (step m (PolicyUpdate spec.now)) }
{
    let answer = spd.update(c, pool, spec, now);
    index_reply(answer)
}
