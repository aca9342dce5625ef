//! The states one after another, in the order of adding.
ghost use Rattle.std.specs.Prelude.{◌≡◌, ℕ, ◌+◌, ◌<◌, ◌≤◌, List, ◌∷◌, ◌++◌};
ghost use Rattle.xf_types.specs.declared.state.Sa.{Sa};
ghost use Rattle.xf_types.specs.Machine.{Shown};
ghost use Rattle.xf_cells.specs.Words.{Narrows};
ghost use Rattle.xf_chain.specs.Chains.{Below, first_in};
ghost use Rattle.xf_chain.specs.Families.{chain_at};
ghost use Rattle.xf_chain.specs.Lists.{first_of};
ghost use Rattle.xf_index.specs.Indexes.{slots_in};
ghost use Rattle.xf_sadidx.specs.Layout.{Fits, order_of};
ghost use Rattle.xf_sadimage.specs.States.{StatesStand};
ghost use Rattle.xf_sadimage.specs.Writes as writes;

use crate::listing::StateListing;
use xf_cells::{Cells, Load};

impl StateListing {
    /// The slot of the first state, where there is one.
    pub fn first_slot<L: Load>(&self, l: &mut L) -> Option<u32>
        requires fits { Fits self.now.area (L.size l.old) }
        ensures size { L.size l.new ≡ L.size l.old }
        ensures begun { L.begun l.new ≡ L.begun l.old }
        ensures rest { L.rest l.new ≡ L.rest l.old }
        ensures among { Narrows (L.agrees l.old) (L.agrees l.new) }
        ensures loads { L.loads l.new ≤ L.loads l.old + 1 }
        ensures below { Below self.now.area.slots result }
        ensures answer { (image : List ℕ) → L.agrees l.new image → result ≡ first_in (chain_at (order_of self.now.area) 0) image }
        ensures state { (image : List ℕ) (s : Shown) (es : List (ℕ × Sa)) → L.agrees l.new image → StatesStand self.now.area image s es → result ≡ first_of (slots_in es) }
    {
        let size = l.size();
        self.area.order().chain(0, size).first(l)
    }

    /// The slot of the state that was added after that of a slot. A loop that removes states asks for it before it removes one.
    pub fn next_slot<L: Load>(&self, l: &mut L, slot: u32) -> Option<u32>
        requires fits { Fits self.now.area (L.size l.old) }
        requires slot { slot < self.now.area.slots }
        ensures size { L.size l.new ≡ L.size l.old }
        ensures begun { L.begun l.new ≡ L.begun l.old }
        ensures rest { L.rest l.new ≡ L.rest l.old }
        ensures among { Narrows (L.agrees l.old) (L.agrees l.new) }
        ensures loads { L.loads l.new ≤ L.loads l.old + 1 }
        ensures below { Below self.now.area.slots result }
        ensures answer { (image : List ℕ) → L.agrees l.new image → result ≡ writes.after_in self.now.area image slot }
        ensures state { (image : List ℕ) (s : Shown) (front back : List (ℕ × Sa)) (r : Sa) → L.agrees l.new image → StatesStand self.now.area image s (front ++ ((slot, r) ∷ back)) → result ≡ first_of (slots_in back) }
    {
        let size = l.size();
        self.area.order().chain(0, size).next(l, slot)
    }
}

/// The slot of the last state of cells, whose words stay.
pub(crate) fn last_in<C: Cells>(listing: &StateListing, c: &mut C) -> Option<u32>
    requires { Fits listing.now.area (C.size c.old) }
    ensures size { C.size c.new ≡ C.size c.old }
    ensures begun { C.begun c.new ≡ C.begun c.old }
    ensures rest { C.rest c.new ≡ C.rest c.old }
    ensures words { C.words c.new ≡ C.words c.old }
    ensures below { Below listing.now.area.slots result }
    ensures answer { result ≡ writes.last_in listing.now.area (C.words c.old) }
{
    let size = c.size();
    listing.area.back().chain(0, size).first(c)
}

/// The slot of the state that was added before that of a slot, of cells, whose words stay.
pub(crate) fn before_in<C: Cells>(listing: &StateListing, c: &mut C, slot: u32) -> Option<u32>
    requires fits { Fits listing.now.area (C.size c.old) }
    requires slot { slot < listing.now.area.slots }
    ensures size { C.size c.new ≡ C.size c.old }
    ensures begun { C.begun c.new ≡ C.begun c.old }
    ensures rest { C.rest c.new ≡ C.rest c.old }
    ensures words { C.words c.new ≡ C.words c.old }
    ensures below { Below listing.now.area.slots result }
    ensures answer { result ≡ writes.before_in listing.now.area (C.words c.old) slot }
{
    let size = c.size();
    listing.area.back().chain(0, size).next(c, slot)
}

/// The slot of the state that was added after that of a slot, of cells, whose words stay.
pub(crate) fn after_in<C: Cells>(listing: &StateListing, c: &mut C, slot: u32) -> Option<u32>
    requires fits { Fits listing.now.area (C.size c.old) }
    requires slot { slot < listing.now.area.slots }
    ensures size { C.size c.new ≡ C.size c.old }
    ensures begun { C.begun c.new ≡ C.begun c.old }
    ensures rest { C.rest c.new ≡ C.rest c.old }
    ensures words { C.words c.new ≡ C.words c.old }
    ensures below { Below listing.now.area.slots result }
    ensures answer { result ≡ writes.after_in listing.now.area (C.words c.old) slot }
{
    listing.next_slot(c, slot)
}
