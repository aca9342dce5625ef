//! The split of one old head of each kind.
ghost use Rattle.std.specs.Prelude.{◌≡◌, ◌<◌, true};
ghost use Rattle.xf_doubling.specs.Heads.{IsDoubling};
ghost use Rattle.xf_sadidx.specs.Layout.{Fits};
ghost use Rattle.xf_resize.specs.Doubled as doubled;

use xf_cells::Cells;
use xf_doubling::{Doubling, split};
use xf_sadidx::{Kind, StateArea, StateKeys};

/// Splits the next old head of a kind.
fn split_kind<C: Cells>(area: &StateArea, c: &mut C, kind: Kind, d: Doubling)
    requires fits { Fits area.now (C.size c.old) }
    requires begun { C.begun c.old ≡ true }
    requires is { IsDoubling d.half d.moved }
    requires pending { d.moved < d.half }
    ensures size { C.size c.new ≡ C.size c.old }
    ensures begun { C.begun c.new ≡ true }
    ensures rest { C.rest c.new ≡ C.rest c.old }
    ensures words { C.words c.new ≡ doubled.split_kind area.now d kind (C.words c.old) }
{
    let keys = StateKeys { area: *area, kind };
    split(&area.chains(kind), c, &keys, d);
}

/// Splits the next old head of each kind.
pub(crate) fn split_all<C: Cells>(area: &StateArea, c: &mut C, d: Doubling)
    requires fits { Fits area.now (C.size c.old) }
    requires begun { C.begun c.old ≡ true }
    requires is { IsDoubling d.half d.moved }
    requires pending { d.moved < d.half }
    ensures size { C.size c.new ≡ C.size c.old }
    ensures begun { C.begun c.new ≡ true }
    ensures rest { C.rest c.new ≡ C.rest c.old }
    ensures words { C.words c.new ≡ doubled.split_all area.now d (C.words c.old) }
{
    split_kind(area, c, Kind::Spi, d);
    split_kind(area, c, Kind::Route, d);
    split_kind(area, c, Kind::Seq, d);
}
