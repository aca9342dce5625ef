//! Nodes of cells, whose words stand still: read and written.
ghost use Rattle.std.specs.Prelude.{◌≡◌, ℕ, ◌+◌, ◌<◌, ◌≤◌, Bool, true, false, Option};
ghost use Rattle.xf_trie.specs.Nodes.{Lies, node_at, child_at};
ghost use Rattle.xf_trie.specs.Insertions.{written, marked_at};
ghost use Rattle.xf_trie.specs.Removals.{unmarked};

use crate::trie::{Node, Trie};
use xf_cells::{Cells, read};

impl Trie {
    /// The node in a slot.
    pub(crate) fn node_in<C: Cells>(&self, c: &mut C, slot: u32) -> Node
        requires lies { Lies self.now (C.size c.old) }
        requires slot { slot < self.now.count }
        ensures size { C.size c.new ≡ C.size c.old }
        ensures begun { C.begun c.new ≡ C.begun c.old }
        ensures rest { C.rest c.new ≡ C.rest c.old }
        ensures words { C.words c.new ≡ C.words c.old }
        ensures len { result.len ≤ 128 }
        ensures slot { result.slot ≡ slot }
        ensures answer { result ≡ node_at self.now (C.words c.old) slot }
    {
        self.node(c, slot)
    }

    /// The child of a node on a side.
    pub(crate) fn child_in<C: Cells>(&self, c: &mut C, slot: u32, side: bool) -> Option<u32>
        requires lies { Lies self.now (C.size c.old) }
        requires slot { slot < self.now.count }
        ensures size { C.size c.new ≡ C.size c.old }
        ensures begun { C.begun c.new ≡ C.begun c.old }
        ensures rest { C.rest c.new ≡ C.rest c.old }
        ensures words { C.words c.new ≡ C.words c.old }
        ensures answer { result ≡ child_at self.now (C.words c.old) slot side }
    {
        self.child(c, slot, side)
    }

    /// Writes a node, with the words that name its children.
    #[tactic(auto, unfolding(crate::specs::Insertions::written))]
    pub(crate) fn write<C: Cells>(&self, c: &mut C, node: &Node, left: u64, right: u64)
        requires lies { Lies self.now (C.size c.old) }
        requires begun { C.begun c.old ≡ true }
        requires slot { node.now.slot < self.now.count }
        ensures size { C.size c.new ≡ C.size c.old }
        ensures begun { C.begun c.new ≡ true }
        ensures rest { C.rest c.new ≡ C.rest c.old }
        ensures words { C.words c.new ≡ written self.now (C.words c.old) node.now.slot node.now.key node.now.len node.now.marked left right }
    {
        let size = c.size();
        let place = self.place(node.slot, size);
        c.store(place, (node.key / 0x1_0000_0000_0000_0000) as u64);
        c.store(place + 1, (node.key % 0x1_0000_0000_0000_0000) as u64);
        c.store(place + 2, u64::from(node.len));
        c.store(place + 3, u64::from(node.marked));
        c.store(place + 4, left);
        c.store(place + 5, right);
    }

    /// Marks a node's prefix as inserted.
    pub(crate) fn mark<C: Cells>(&self, c: &mut C, slot: u32)
        requires lies { Lies self.now (C.size c.old) }
        requires begun { C.begun c.old ≡ true }
        requires slot { slot < self.now.count }
        ensures size { C.size c.new ≡ C.size c.old }
        ensures begun { C.begun c.new ≡ true }
        ensures rest { C.rest c.new ≡ C.rest c.old }
        ensures words { C.words c.new ≡ marked_at self.now (C.words c.old) slot true }
    {
        let size = c.size();
        c.store(self.place(slot, size) + 3, 1);
    }

    /// Takes the mark of the node at a link away.
    #[tactic(auto, unfolding(crate::specs::Removals::unmarked))]
    pub(crate) fn unmark<C: Cells>(&self, c: &mut C, place: u32)
        requires lies { Lies self.now (C.size c.old) }
        requires begun { C.begun c.old ≡ true }
        requires place { place < C.size c.old }
        ensures size { C.size c.new ≡ C.size c.old }
        ensures begun { C.begun c.new ≡ true }
        ensures rest { C.rest c.new ≡ C.rest c.old }
        ensures words { C.words c.new ≡ unmarked self.now (C.words c.old) place }
    {
        let word = read(c, place);
        if let Some(slot) = self.slot(word) {
            let size = c.size();
            c.store(self.place(slot, size) + 3, 0);
        }
    }
}
