//! The heads of the chains of states.
ghost use Rattle.std.specs.Prelude.{◌≡◌, ℕ, ◌+◌, ◌-◌, ◌<◌, ◌≤◌, ◌^◌, min, true, List};
ghost use Rattle.xf_types.specs.declared.state.Sa.{Sa};
ghost use Rattle.xf_cells.specs.Words.{Narrows};
ghost use Rattle.xf_image.specs.Frames.{Frame};
ghost use Rattle.xf_sadidx.specs.Layout.{Fits, doubling_place, doubling_in, chains_end};
ghost use Rattle.xf_resize.specs.Doubled as doubled;
ghost use Rattle.xf_resize.specs.Rooms as rooms;

use crate::splitting::split_all;
use xf_cells::{Cells, Load};
use xf_doubling::doubling_at;
use xf_sadidx::StateArea;

/// The heads of the chains of states. First there are 8 of each kind, and at most 4,096. While they are doubled, a chain of an old head that isn't
/// split yet has the states of two of the new heads.
#[derive(Clone, Copy, Debug, PartialEq, Eq)]
pub struct Resize {
    pub area: StateArea,
}

impl Resize {
    /// How many heads there are; the new number once a doubling has begun.
    pub fn buckets<L: Load>(&self, l: &mut L) -> u32
        requires fits { Fits self.now.area (L.size l.old) }
        ensures size { L.size l.new ≡ L.size l.old }
        ensures begun { L.begun l.new ≡ L.begun l.old }
        ensures rest { L.rest l.new ≡ L.rest l.old }
        ensures among { Narrows (L.agrees l.old) (L.agrees l.new) }
        ensures loads { L.loads l.new ≤ L.loads l.old + 2 }
        ensures most { result ≤ 4096 }
        ensures answer { (image : List ℕ) → L.agrees l.new image → result ≡ rooms.buckets_in self.now.area image }
    {
        let d = doubling_at(l, self.area.doubling_place());
        d.half + d.half
    }

    /// How many of the old heads aren't split yet, 0 where no doubling is under way.
    pub fn pending<L: Load>(&self, l: &mut L) -> u32
        requires fits { Fits self.now.area (L.size l.old) }
        ensures size { L.size l.new ≡ L.size l.old }
        ensures begun { L.begun l.new ≡ L.begun l.old }
        ensures rest { L.rest l.new ≡ L.rest l.old }
        ensures among { Narrows (L.agrees l.old) (L.agrees l.new) }
        ensures loads { L.loads l.new ≤ L.loads l.old + 2 }
        ensures most { result ≤ 2048 }
        ensures answer { (image : List ℕ) → L.agrees l.new image → result ≡ rooms.pending_in self.now.area image }
    {
        let d = doubling_at(l, self.area.doubling_place());
        d.half - d.moved
    }

    /// Writes that the heads were doubled once more, and that no old one is split.
    fn begin<C: Cells>(&self, c: &mut C)
        requires fits { Fits self.now.area (C.size c.old) }
        requires begun { C.begun c.old ≡ true }
        ensures size { C.size c.new ≡ C.size c.old }
        ensures begun { C.begun c.new ≡ true }
        ensures rest { C.rest c.new ≡ C.rest c.old }
        ensures words { C.words c.new ≡ doubled.grown self.now.area (C.words c.old) }
    {
        let place = self.area.doubling_place();
        let d = xf_sadidx::doubling_in(&self.area, c);
        let word = xf_cells::read(c, place);
        c.store(place, word.min(9) + 1);
        c.store(place + 1, u64::from(d.half + d.half));
    }

    /// Splits the next old head of each kind, and writes that it is.
    fn step<C: Cells>(&self, c: &mut C)
        requires fits { Fits self.now.area (C.size c.old) }
        requires begun { C.begun c.old ≡ true }
        requires pending { (doubling_in self.now.area (C.words c.old)).moved < (doubling_in self.now.area (C.words c.old)).half }
        ensures size { C.size c.new ≡ C.size c.old }
        ensures begun { C.begun c.new ≡ true }
        ensures rest { C.rest c.new ≡ C.rest c.old }
        ensures words { C.words c.new ≡ doubled.advanced self.now.area (C.words c.old) }
    {
        let d = xf_sadidx::doubling_in(&self.area, c);
        split_all(&self.area, c, d);
        let place = self.area.doubling_place();
        c.store(place + 1, u64::from(d.half - (d.moved + 1)));
    }

    /// Begins a doubling and moves nothing: all old heads are left to be split.
    pub fn grow<C: Cells>(&self, c: &mut C)
        requires fits { Fits self.now.area (C.size c.old) }
        requires begun { C.begun c.old ≡ true }
        requires below { rooms.buckets_in self.now.area (C.words c.old) < 4096 }
        requires pending { rooms.pending_in self.now.area (C.words c.old) ≡ 0 }
        ensures size { C.size c.new ≡ C.size c.old }
        ensures begun { C.begun c.new ≡ true }
        ensures rest { C.rest c.new ≡ C.rest c.old }
        ensures buckets { rooms.buckets_in self.now.area (C.words c.new) ≡ rooms.buckets_in self.now.area (C.words c.old) + rooms.buckets_in self.now.area (C.words c.old) }
        ensures pending { rooms.pending_in self.now.area (C.words c.new) ≡ rooms.buckets_in self.now.area (C.words c.old) }
        ensures frame { Frame (doubling_place self.now.area) (doubling_place self.now.area + 2) (C.words c.old) (C.words c.new) }
        ensures entries { (entries : List (ℕ × Sa)) → rooms.StatesChained self.now.area (C.words c.old) entries → rooms.StatesChained self.now.area (C.words c.new) entries }
    {
        self.begin(c);
    }

    /// Splits the lowest old head that isn't split yet, of each kind. The states of each chain keep their order.
    pub fn advance<C: Cells>(&self, c: &mut C)
        requires fits { Fits self.now.area (C.size c.old) }
        requires begun { C.begun c.old ≡ true }
        requires pending { 0 < rooms.pending_in self.now.area (C.words c.old) }
        ensures size { C.size c.new ≡ C.size c.old }
        ensures begun { C.begun c.new ≡ true }
        ensures rest { C.rest c.new ≡ C.rest c.old }
        ensures frame { Frame (doubling_place self.now.area) (chains_end self.now.area) (C.words c.old) (C.words c.new) }
        ensures buckets { rooms.buckets_in self.now.area (C.words c.new) ≡ rooms.buckets_in self.now.area (C.words c.old) }
        ensures pending { rooms.pending_in self.now.area (C.words c.new) + 1 ≡ rooms.pending_in self.now.area (C.words c.old) }
        ensures entries { (entries : List (ℕ × Sa)) → rooms.StatesChained self.now.area (C.words c.old) entries → rooms.StatesChained self.now.area (C.words c.new) entries }
    {
        self.step(c);
    }
}
