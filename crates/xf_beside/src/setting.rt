//! Other thresholds.
ghost use Rattle.std.specs.Prelude.{◌≡◌, ℕ};
ghost use Rattle.xf_types.specs.declared.call.Call.TheVariants.{PolicySet};
ghost use Rattle.xf_types.specs.Machine.{Machine};
ghost use Rattle.xf_types.specs.Steps.{step};
ghost use Rattle.xf_inexact.specs.Whole.{WholeFits};
ghost use Rattle.xf_image.specs.Readings.{listed_in};
ghost use Rattle.xf_beside.specs.Standing.{StandsFor, Answers};

use xf_cells::Cells;
use xf_spd::Spd;
use xf_types::{Reply, Thresholds};

pub fn set<C: Cells>(spd: &Spd, c: &mut C, thresholds: &Thresholds) -> Reply
    requires { WholeFits spd.now.area (C.size c.old) }
    ensures size { C.size c.new ≡ C.size c.old }
    ensures slots { (now : ℕ) (m : Machine) → StandsFor spd.now.area (C.words c.old) now m → listed_in spd.now.area (C.words c.new) ≡ listed_in spd.now.area (C.words c.old) }
    ensures answer { (now : ℕ) (m : Machine) → StandsFor spd.now.area (C.words c.old) now m → Answers spd.now.area (C.words c.new) now result (step m (PolicySet thresholds.now)) }
{
    spd.set(c, thresholds);
    Reply::Done
}
