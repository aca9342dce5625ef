//! How many nodes of the trees are free.
ghost use Rattle.std.specs.Prelude.{◌≡◌};
ghost use Rattle.xf_inexact.specs.Whole.{WholeFits};

use xf_cells::Cells;
use xf_inexact::Inexact;
use xf_spd::Spd;

/// How many nodes of the trees are free.
pub(crate) fn spare<C: Cells>(spd: &Spd, c: &mut C) -> u32
    requires { WholeFits spd.now.area (C.size c.old) }
    ensures size { C.size c.new ≡ C.size c.old }
    ensures words { C.words c.new ≡ C.words c.old }
{
    Inexact::behind(spd.area).bins(0).spare(c)
}
