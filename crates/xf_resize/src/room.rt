//! Room for one state more.
ghost use Rattle.std.specs.Prelude.{◌≡◌, ℕ, ◌+◌, ◌<◌, ◌≤◌, ◌^◌, true, List};
ghost use Rattle.xf_types.specs.declared.state.Sa.{Sa};
ghost use Rattle.xf_image.specs.Frames.{Frame};
ghost use Rattle.xf_sadidx.specs.Layout.{Fits, doubling_place, chains_end};
ghost use Rattle.xf_resize.specs.Rooms as rooms;

use crate::resize::Resize;
use xf_cells::Cells;

/// How many heads cells have, whose words stay.
fn buckets_in<C: Cells>(resize: &Resize, c: &mut C) -> u32
    requires fits { Fits resize.now.area (C.size c.old) }
    ensures size { C.size c.new ≡ C.size c.old }
    ensures begun { C.begun c.new ≡ C.begun c.old }
    ensures rest { C.rest c.new ≡ C.rest c.old }
    ensures words { C.words c.new ≡ C.words c.old }
    ensures answer { result ≡ rooms.buckets_in resize.now.area (C.words c.old) }
{
    resize.buckets(c)
}

/// How many of their old heads aren't split yet.
fn pending_in<C: Cells>(resize: &Resize, c: &mut C) -> u32
    requires fits { Fits resize.now.area (C.size c.old) }
    ensures size { C.size c.new ≡ C.size c.old }
    ensures begun { C.begun c.new ≡ C.begun c.old }
    ensures rest { C.rest c.new ≡ C.rest c.old }
    ensures words { C.words c.new ≡ C.words c.old }
    ensures answer { result ≡ rooms.pending_in resize.now.area (C.words c.old) }
{
    resize.pending(c)
}

/// Whether a doubling is due: one state more than so many is more than there are heads, and none of the old heads is left to be split. Where the heads
/// suffice for the states, none is left by then.
fn is_due<C: Cells>(resize: &Resize, c: &mut C, count: u32) -> bool
    requires fits { Fits resize.now.area (C.size c.old) }
    ensures size { C.size c.new ≡ C.size c.old }
    ensures begun { C.begun c.new ≡ C.begun c.old }
    ensures rest { C.rest c.new ≡ C.rest c.old }
    ensures words { C.words c.new ≡ C.words c.old }
    ensures due { result ≡ rooms.is_due (rooms.buckets_in resize.now.area (C.words c.old)) (rooms.pending_in resize.now.area (C.words c.old)) count }
{
    let buckets = buckets_in(resize, c);
    let pending = pending_in(resize, c);
    count >= buckets && buckets < 4096 && pending == 0
}

impl Resize {
    /// Begins a doubling where it is due.
    fn grow_if_due<C: Cells>(&self, c: &mut C, count: u32)
        requires fits { Fits self.now.area (C.size c.old) }
        requires begun { C.begun c.old ≡ true }
        ensures size { C.size c.new ≡ C.size c.old }
        ensures begun { C.begun c.new ≡ true }
        ensures rest { C.rest c.new ≡ C.rest c.old }
        ensures frame { Frame (doubling_place self.now.area) (chains_end self.now.area) (C.words c.old) (C.words c.new) }
        ensures room { rooms.Suffices (rooms.buckets_in self.now.area (C.words c.old)) (rooms.pending_in self.now.area (C.words c.old)) count → rooms.Begun (rooms.buckets_in self.now.area (C.words c.new)) (rooms.pending_in self.now.area (C.words c.new)) count }
        ensures entries { (entries : List (ℕ × Sa)) → rooms.StatesChained self.now.area (C.words c.old) entries → rooms.StatesChained self.now.area (C.words c.new) entries }
    {
        if is_due(self, c, count) {
            self.grow(c);
        }
    }

    /// Splits one old head of each kind where some are left.
    fn advance_if_pending<C: Cells>(&self, c: &mut C)
        requires fits { Fits self.now.area (C.size c.old) }
        requires begun { C.begun c.old ≡ true }
        ensures size { C.size c.new ≡ C.size c.old }
        ensures begun { C.begun c.new ≡ true }
        ensures rest { C.rest c.new ≡ C.rest c.old }
        ensures frame { Frame (doubling_place self.now.area) (chains_end self.now.area) (C.words c.old) (C.words c.new) }
        ensures buckets { rooms.buckets_in self.now.area (C.words c.new) ≡ rooms.buckets_in self.now.area (C.words c.old) }
        ensures pending { 0 < rooms.pending_in self.now.area (C.words c.old) → rooms.pending_in self.now.area (C.words c.new) + 1 ≡ rooms.pending_in self.now.area (C.words c.old) }
        ensures still { rooms.pending_in self.now.area (C.words c.old) ≡ 0 → rooms.pending_in self.now.area (C.words c.new) ≡ 0 }
        ensures entries { (entries : List (ℕ × Sa)) → rooms.StatesChained self.now.area (C.words c.old) entries → rooms.StatesChained self.now.area (C.words c.new) entries }
    {
        if pending_in(self, c) > 0 {
            self.advance(c);
        }
    }

    /// Makes room for one state more, where so many are listed.
    pub fn make_room<C: Cells>(&self, c: &mut C, count: u32)
        requires fits { Fits self.now.area (C.size c.old) }
        requires begun { C.begun c.old ≡ true }
        ensures size { C.size c.new ≡ C.size c.old }
        ensures begun { C.begun c.new ≡ true }
        ensures rest { C.rest c.new ≡ C.rest c.old }
        ensures frame { Frame (doubling_place self.now.area) (chains_end self.now.area) (C.words c.old) (C.words c.new) }
        ensures suffices { rooms.Suffices (rooms.buckets_in self.now.area (C.words c.old)) (rooms.pending_in self.now.area (C.words c.old)) count → rooms.Suffices (rooms.buckets_in self.now.area (C.words c.new)) (rooms.pending_in self.now.area (C.words c.new)) (count + 1) }
        ensures entries { (entries : List (ℕ × Sa)) → rooms.StatesChained self.now.area (C.words c.old) entries → rooms.StatesChained self.now.area (C.words c.new) entries }
    {
        self.grow_if_due(c, count);
        self.advance_if_pending(c);
    }
}
