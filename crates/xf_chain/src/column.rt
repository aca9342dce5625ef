ghost use Rattle.std.specs.Prelude.{◌≡◌, ◌≢◌, ℕ, ◌<◌, true, List, slice_index, slice_set};
ghost use Rattle.xf_cells.specs.Words.{next_count, Narrows};
ghost use Rattle.xf_chain.specs.Columns.{Spans, cell_of};

use xf_cells::{Cells, Load};

/// One word a slot, in a row.
#[derive(Clone, Copy, Debug, PartialEq, Eq)]
pub struct Column {
    /// The place of the word of slot 0.
    pub start: u32,

    /// How many slots there are.
    pub slots: u32,
}

impl Column {
    /// The place of a slot's word.
    pub fn place(&self, slot: u32, size: u32) -> u32
        requires spans { Spans self.now size }
        requires slot { slot < self.now.slots }
        ensures place { result ≡ cell_of self.now slot }
        ensures below { result < size }
    {
        self.start + slot
    }

    /// The word of a slot.
    pub fn get<L: Load>(&self, l: &mut L, slot: u32) -> u64
        requires spans { Spans self.now (L.size l.old) }
        requires slot { slot < self.now.slots }
        ensures size { L.size l.new ≡ L.size l.old }
        ensures begun { L.begun l.new ≡ L.begun l.old }
        ensures rest { L.rest l.new ≡ L.rest l.old }
        ensures loads { L.loads l.new ≡ next_count (L.loads l.old) }
        ensures among { Narrows (L.agrees l.old) (L.agrees l.new) }
        ensures answer { (image : List ℕ) → L.agrees l.new image → result ≡ slice_index image (cell_of self.now slot) }
    {
        let size = l.size();
        l.load(self.place(slot, size))
    }

    /// Replaces the word of a slot.
    pub fn set<C: Cells>(&self, c: &mut C, slot: u32, word: u64)
        requires spans { Spans self.now (C.size c.old) }
        requires begun { C.begun c.old ≡ true }
        requires slot { slot < self.now.slots }
        ensures size { C.size c.new ≡ C.size c.old }
        ensures begun { C.begun c.new ≡ true }
        ensures rest { C.rest c.new ≡ C.rest c.old }
        ensures words { C.words c.new ≡ slice_set (C.words c.old) (cell_of self.now slot) word }
        ensures others { (place : ℕ) → place ≢ cell_of self.now slot → slice_index (C.words c.new) place ≡ slice_index (C.words c.old) place }
    {
        let size = c.size();
        c.store(self.place(slot, size), word);
    }
}
