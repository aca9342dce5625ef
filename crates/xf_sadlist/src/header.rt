//! What the first words tell.
ghost use Rattle.std.specs.Prelude.{◌≡◌, ℕ, ◌+◌, ◌-◌, ◌<◌, ◌≤◌, ◌^◌, true, min, List, length};
ghost use Rattle.xf_types.specs.declared.state.Sa.{Sa};
ghost use Rattle.xf_types.specs.IsMachine.{IsInRange};
ghost use Rattle.xf_types.specs.Machine.{Shown};
ghost use Rattle.xf_cells.specs.Words.{Narrows};
ghost use Rattle.xf_image.specs.Frames.{Frame};
ghost use Rattle.xf_sadidx.specs.Layout.{Fits, end_of};
ghost use Rattle.xf_resize.specs.Rooms as rooms;
ghost use Rattle.xf_sadimage.specs.States.{StatesStand};
ghost use Rattle.xf_sadlist.specs.Listed as listed;

use crate::listing::StateListing;
use xf_cells::{Cells, Load};
use xf_resize::Resize;

/// The number, or the greatest one where it is greater.
fn at_most(word: u64, most: u32) -> u32
    ensures is { result ≡ min word most }
    ensures most { result ≤ most }
{
    if word < u64::from(most) {
        word as u32
    } else {
        most
    }
}

impl StateListing {
    /// The acquire counter.
    pub fn next_seq<L: Load>(&self, l: &mut L) -> u32
        requires { Fits self.now.area (L.size l.old) }
        ensures size { L.size l.new ≡ L.size l.old }
        ensures begun { L.begun l.new ≡ L.begun l.old }
        ensures rest { L.rest l.new ≡ L.rest l.old }
        ensures among { Narrows (L.agrees l.old) (L.agrees l.new) }
        ensures loads { L.loads l.new ≤ L.loads l.old + 1 }
        ensures some { 1 ≤ result }
        ensures answer { (image : List ℕ) → L.agrees l.new image → result ≡ listed.next_seq_in self.now.area image }
        ensures state { (image : List ℕ) (s : Shown) (es : List (ℕ × Sa)) → L.agrees l.new image → IsInRange s → StatesStand self.now.area image s es → result ≡ s.next_seq }
    {
        let word = l.load(self.area.next_seq_place());
        at_most(word, 0xffff_fffe) + 1
    }

    /// The id of the next state.
    pub fn next_sid<L: Load>(&self, l: &mut L) -> u64
        requires { Fits self.now.area (L.size l.old) }
        ensures size { L.size l.new ≡ L.size l.old }
        ensures begun { L.begun l.new ≡ L.begun l.old }
        ensures rest { L.rest l.new ≡ L.rest l.old }
        ensures among { Narrows (L.agrees l.old) (L.agrees l.new) }
        ensures loads { L.loads l.new ≤ L.loads l.old + 1 }
        ensures answer { (image : List ℕ) → L.agrees l.new image → result ≡ listed.next_sid_in self.now.area image }
        ensures state { (image : List ℕ) (s : Shown) (es : List (ℕ × Sa)) → L.agrees l.new image → s.next_sid < 2 ^ 63 → StatesStand self.now.area image s es → result ≡ s.next_sid }
        ensures young { (image : List ℕ) (s : Shown) (es : List (ℕ × Sa)) → L.agrees l.new image → StatesStand self.now.area image s es → result < 2 ^ 63 → s.next_sid ≡ result }
    {
        l.load(self.area.next_sid_place()).saturating_add(1)
    }

    /// How many states are listed.
    pub fn count<L: Load>(&self, l: &mut L) -> u32
        requires { Fits self.now.area (L.size l.old) }
        ensures size { L.size l.new ≡ L.size l.old }
        ensures begun { L.begun l.new ≡ L.begun l.old }
        ensures rest { L.rest l.new ≡ L.rest l.old }
        ensures among { Narrows (L.agrees l.old) (L.agrees l.new) }
        ensures loads { L.loads l.new ≤ L.loads l.old + 1 }
        ensures most { result ≤ self.now.area.slots }
        ensures answer { (image : List ℕ) → L.agrees l.new image → result ≡ listed.count_in self.now.area image }
        ensures state { (image : List ℕ) (s : Shown) (es : List (ℕ × Sa)) → L.agrees l.new image → StatesStand self.now.area image s es → result ≡ length s.states }
    {
        let word = l.load(self.area.count_place());
        at_most(word, self.area.slots)
    }

    /// How many heads the chains of a kind have; the new number once a doubling has begun.
    pub fn buckets<L: Load>(&self, l: &mut L) -> u32
        requires { Fits self.now.area (L.size l.old) }
        ensures size { L.size l.new ≡ L.size l.old }
        ensures begun { L.begun l.new ≡ L.begun l.old }
        ensures rest { L.rest l.new ≡ L.rest l.old }
        ensures among { Narrows (L.agrees l.old) (L.agrees l.new) }
        ensures loads { L.loads l.new ≤ L.loads l.old + 2 }
        ensures answer { (image : List ℕ) → L.agrees l.new image → result ≡ rooms.buckets_in self.now.area image }
    {
        (Resize { area: self.area }).buckets(l)
    }

    /// How many of the old heads aren't split yet, 0 where no doubling is under way.
    pub fn pending<L: Load>(&self, l: &mut L) -> u32
        requires { Fits self.now.area (L.size l.old) }
        ensures size { L.size l.new ≡ L.size l.old }
        ensures begun { L.begun l.new ≡ L.begun l.old }
        ensures rest { L.rest l.new ≡ L.rest l.old }
        ensures among { Narrows (L.agrees l.old) (L.agrees l.new) }
        ensures loads { L.loads l.new ≤ L.loads l.old + 2 }
        ensures answer { (image : List ℕ) → L.agrees l.new image → result ≡ rooms.pending_in self.now.area image }
    {
        (Resize { area: self.area }).pending(l)
    }

    /// Writes another acquire counter, which is never 0.
    pub fn set_next_seq<C: Cells>(&self, c: &mut C, seq: u32)
        requires fits { Fits self.now.area (C.size c.old) }
        requires begun { C.begun c.old ≡ true }
        requires some { 1 ≤ seq }
        ensures size { C.size c.new ≡ C.size c.old }
        ensures begun { C.begun c.new ≡ true }
        ensures rest { C.rest c.new ≡ C.rest c.old }
        ensures frame { Frame self.now.area.base (end_of self.now.area) (C.words c.old) (C.words c.new) }
        ensures stands { (shown : Shown) (es : List (ℕ × Sa)) → StatesStand self.now.area (C.words c.old) shown es → StatesStand self.now.area (C.words c.new) (listed.with_next_seq shown seq) es }
    {
        c.store(self.area.next_seq_place(), u64::from(seq - 1));
    }
}

/// How many states are listed in cells, whose words stay.
pub(crate) fn count_in<C: Cells>(listing: &StateListing, c: &mut C) -> u32
    requires { Fits listing.now.area (C.size c.old) }
    ensures size { C.size c.new ≡ C.size c.old }
    ensures begun { C.begun c.new ≡ C.begun c.old }
    ensures rest { C.rest c.new ≡ C.rest c.old }
    ensures words { C.words c.new ≡ C.words c.old }
    ensures most { result ≤ listing.now.area.slots }
    ensures answer { result ≡ listed.count_in listing.now.area (C.words c.old) }
{
    listing.count(c)
}

/// Writes the word of the next id, and how many are listed.
pub(crate) fn tally<C: Cells>(listing: &StateListing, c: &mut C, sid_word: u64, count: u32)
    requires fits { Fits listing.now.area (C.size c.old) }
    requires begun { C.begun c.old ≡ true }
    ensures size { C.size c.new ≡ C.size c.old }
    ensures begun { C.begun c.new ≡ true }
    ensures rest { C.rest c.new ≡ C.rest c.old }
    ensures words { C.words c.new ≡ listed.tallied listing.now.area (C.words c.old) sid_word count }
{
    c.store(listing.area.next_sid_place(), sid_word);
    c.store(listing.area.count_place(), u64::from(count));
}

/// Counts one state less.
pub(crate) fn count_less<C: Cells>(listing: &StateListing, c: &mut C)
    requires fits { Fits listing.now.area (C.size c.old) }
    requires begun { C.begun c.old ≡ true }
    ensures size { C.size c.new ≡ C.size c.old }
    ensures begun { C.begun c.new ≡ true }
    ensures rest { C.rest c.new ≡ C.rest c.old }
    ensures words { C.words c.new ≡ listed.one_less listing.now.area (C.words c.old) }
{
    let count = count_in(listing, c);
    c.store(
        listing.area.count_place(),
        u64::from(count.saturating_sub(1)),
    );
}
