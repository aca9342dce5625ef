//! An insertion that asks first whether there is room, so that it is safe on any words.
ghost use Rattle.std.specs.Prelude.{◌≡◌, ℕ, ◌+◌, ◌<◌, ◌≤◌, Bool, true, List, Option, slice_index};
ghost use Rattle.xf_cells.specs.Words.{Narrows};
ghost use Rattle.xf_trie.specs.Nodes.{Below, Lies};
ghost use Rattle.xf_trie.specs.Pools.{Beside};
ghost use Rattle.xf_trie.specs.Rooms as rooms;
ghost use Rattle.xf_trie.specs.Spares.{next_of};

use crate::trie::Trie;
use xf_cells::{Cells, Load};

impl Trie {
    // The free node after another.
    fn next<L: Load>(&self, l: &mut L, slot: u32) -> u64
        requires lies { Lies self.now (L.size l.old) }
        requires slot { slot < self.now.count }
        ensures size { L.size l.new ≡ L.size l.old }
        ensures begun { L.begun l.new ≡ L.begun l.old }
        ensures rest { L.rest l.new ≡ L.rest l.old }
        ensures loads { L.loads l.new ≤ L.loads l.old + 1 }
        ensures among { Narrows (L.agrees l.old) (L.agrees l.new) }
        ensures answer { (image : List ℕ) → L.agrees l.new image → result ≡ next_of self.now image slot }
    {
        let size = l.size();
        let word = l.load(self.place(slot, size) + 6);
        if word == 0 {
            u64::from(slot) + 1
        } else {
            word - 1
        }
    }

    /// Whether two nodes can be taken. It costs at most three loads.
    pub fn has_room<L: Load>(&self, l: &mut L) -> bool
        requires { Lies self.now (L.size l.old) }
        ensures size { L.size l.new ≡ L.size l.old }
        ensures begun { L.begun l.new ≡ L.begun l.old }
        ensures rest { L.rest l.new ≡ L.rest l.old }
        ensures loads { L.loads l.new ≤ L.loads l.old + 3 }
        ensures among { Narrows (L.agrees l.old) (L.agrees l.new) }
        ensures answer { (image : List ℕ) → L.agrees l.new image → result ≡ rooms.has_room self.now image }
    {
        let count = u64::from(self.count);
        let head = l.load(self.free);
        if head >= count || self.next(l, head as u32) >= count {
            return false;
        }
        let taken = l.load(self.free + 1);
        taken < count && taken + 1 < count
    }

    // The same in cells, whose words stand still.
    fn room_here<C: Cells>(&self, c: &mut C) -> bool
        requires { Lies self.now (C.size c.old) }
        ensures size { C.size c.new ≡ C.size c.old }
        ensures begun { C.begun c.new ≡ C.begun c.old }
        ensures rest { C.rest c.new ≡ C.rest c.old }
        ensures words { C.words c.new ≡ C.words c.old }
        ensures answer { result ≡ rooms.has_room self.now (C.words c.old) }
    {
        self.has_room(c)
    }

    /// Inserts the prefix that has the first bits of a key where two nodes are free, and answers its node.
    #[tactic(auto, unfolding(crate::specs::Rooms::room_inserted, crate::specs::Rooms::room_slot))]
    pub fn try_insert_key<C: Cells>(&self, c: &mut C, key: u128, len: u8) -> Option<u32>
        requires lies { Lies self.now (C.size c.old) }
        requires begun { C.begun c.old ≡ true }
        requires len { len ≤ 128 }
        ensures size { C.size c.new ≡ C.size c.old }
        ensures begun { C.begun c.new ≡ true }
        ensures rest { C.rest c.new ≡ C.rest c.old }
        ensures words { C.words c.new ≡ rooms.room_inserted self.now (C.words c.old) key len }
        ensures slot { result ≡ rooms.room_slot self.now (C.words c.old) key len }
        ensures others { (place : ℕ) → Beside self.now place → slice_index (C.words c.new) place ≡ slice_index (C.words c.old) place }
        ensures below { Below self.now.count result }
    {
        if self.room_here(c) {
            Some(self.insert_free(c, key, len))
        } else {
            None
        }
    }
}
