//! A node that isn't needed: its prefix isn't inserted, and it lacks a child.
ghost use Rattle.std.specs.Prelude.{◌≡◌, ℕ, ◌+◌, ◌<◌, Bool, true, false, slice_index, slice_set};
ghost use Rattle.xf_trie.specs.Nodes.{Lies, place_of, child_at};
ghost use Rattle.xf_trie.specs.Spares.{gave};
ghost use Rattle.xf_trie.specs.Removals.{tidy_node as tidy_words, tidied};

use crate::trie::Trie;
use xf_cells::{Cells, read};

impl Trie {
    // Puts a word of a node at the link to it, and gives the node back.
    fn splice<C: Cells>(&self, c: &mut C, place: u32, slot: u32, column: u32)
        requires lies { Lies self.now (C.size c.old) }
        requires begun { C.begun c.old ≡ true }
        requires place { place < C.size c.old }
        requires slot { slot < self.now.count }
        requires column { column < 8 }
        ensures size { C.size c.new ≡ C.size c.old }
        ensures begun { C.begun c.new ≡ true }
        ensures rest { C.rest c.new ≡ C.rest c.old }
        ensures words { C.words c.new ≡ gave self.now (slice_set (C.words c.old) place (slice_index (C.words c.old) (place_of self.now slot + column))) slot }
    {
        let size = c.size();
        let word = read(c, self.place(slot, size) + column);
        c.store(place, word);
        self.give(c, slot);
    }

    // Takes a node that lacks a child out; the other child, where it has one, comes to its place.
    fn tidy_node<C: Cells>(&self, c: &mut C, place: u32, slot: u32)
        requires lies { Lies self.now (C.size c.old) }
        requires begun { C.begun c.old ≡ true }
        requires place { place < C.size c.old }
        requires slot { slot < self.now.count }
        ensures size { C.size c.new ≡ C.size c.old }
        ensures begun { C.begun c.new ≡ true }
        ensures rest { C.rest c.new ≡ C.rest c.old }
        ensures words { C.words c.new ≡ tidy_words self.now (C.words c.old) place slot (child_at self.now (C.words c.old) slot false) (child_at self.now (C.words c.old) slot true) }
    {
        match self.child_in(c, slot, false) {
            None => self.splice(c, place, slot, 5),
            Some(_) => {
                if self.child_in(c, slot, true).is_none() {
                    self.splice(c, place, slot, 4);
                }
            }
        }
    }

    /// Takes the node at a link out where it isn't needed.
    #[tactic(auto, unfolding(crate::specs::Removals::tidied))]
    pub(crate) fn tidy<C: Cells>(&self, c: &mut C, place: u32)
        requires lies { Lies self.now (C.size c.old) }
        requires begun { C.begun c.old ≡ true }
        requires place { place < C.size c.old }
        ensures size { C.size c.new ≡ C.size c.old }
        ensures begun { C.begun c.new ≡ true }
        ensures rest { C.rest c.new ≡ C.rest c.old }
        ensures words { C.words c.new ≡ tidied self.now (C.words c.old) place }
    {
        let word = read(c, place);
        if let Some(slot) = self.slot(word) {
            let size = c.size();
            if read(c, self.place(slot, size) + 3) != 1 {
                self.tidy_node(c, place, slot);
            }
        }
    }
}
