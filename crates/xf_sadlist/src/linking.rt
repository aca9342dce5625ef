//! A slot in the two chains of all.
ghost use Rattle.std.specs.Prelude.{◌≡◌, ◌<◌, true};
ghost use Rattle.xf_chain.specs.Chains.{Below};
ghost use Rattle.xf_sadidx.specs.Layout.{Fits};
ghost use Rattle.xf_sadimage.specs.Writes as writes;

use crate::listing::StateListing;
use xf_cells::Cells;

/// Puts a slot behind another one, the last.
pub(crate) fn link<C: Cells>(listing: &StateListing, c: &mut C, after: Option<u32>, slot: u32)
    requires fits { Fits listing.now.area (C.size c.old) }
    requires begun { C.begun c.old ≡ true }
    requires after { Below listing.now.area.slots after }
    requires slot { slot < listing.now.area.slots }
    ensures size { C.size c.new ≡ C.size c.old }
    ensures begun { C.begun c.new ≡ true }
    ensures rest { C.rest c.new ≡ C.rest c.old }
    ensures words { C.words c.new ≡ writes.linked listing.now.area (C.words c.old) after slot }
{
    listing.area.order().insert(c, Some(0), after, slot);
    listing.area.back().insert(c, Some(0), None, slot);
}

/// Takes a slot out from between its neighbours.
pub(crate) fn cut<C: Cells>(
    listing: &StateListing,
    c: &mut C,
    before: Option<u32>,
    after: Option<u32>,
    slot: u32,
)
    requires fits { Fits listing.now.area (C.size c.old) }
    requires begun { C.begun c.old ≡ true }
    requires before { Below listing.now.area.slots before }
    requires after { Below listing.now.area.slots after }
    requires slot { slot < listing.now.area.slots }
    ensures size { C.size c.new ≡ C.size c.old }
    ensures begun { C.begun c.new ≡ true }
    ensures rest { C.rest c.new ≡ C.rest c.old }
    ensures words { C.words c.new ≡ writes.cut_out listing.now.area (C.words c.old) before after slot }
{
    listing.area.order().remove(c, Some(0), before, slot);
    listing.area.back().remove(c, Some(0), after, slot);
}
