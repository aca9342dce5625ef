//! The free nodes. Each names the one after it, by a word that is 0 where that is the one in the next slot, else its slot plus 1: so in
//! words of zeros all nodes are free, in their order.
ghost use Rattle.std.specs.Prelude.{◌≡◌, ℕ, ◌+◌, ◌<◌, ◌≤◌, Bool, true, List};
ghost use Rattle.xf_cells.specs.Words.{Narrows};
ghost use Rattle.xf_trie.specs.Nodes.{Lies};
ghost use Rattle.xf_trie.specs.Spares.{head_of, spare_of, CanTake, took, gave};

use crate::trie::Trie;
use xf_cells::{Cells, Load, read};

impl Trie {
    /// How many nodes are free. It costs one load.
    pub fn spare<L: Load>(&self, l: &mut L) -> u32
        requires { Lies self.now (L.size l.old) }
        ensures size { L.size l.new ≡ L.size l.old }
        ensures begun { L.begun l.new ≡ L.begun l.old }
        ensures rest { L.rest l.new ≡ L.rest l.old }
        ensures loads { L.loads l.new ≤ L.loads l.old + 1 }
        ensures among { Narrows (L.agrees l.old) (L.agrees l.new) }
        ensures answer { (image : List ℕ) → L.agrees l.new image → result ≡ spare_of self.now image }
    {
        let taken = l.load(self.free + 1);
        u64::from(self.count).saturating_sub(taken) as u32
    }

    /// Takes the first free node.
    #[tactic(auto, unfolding(crate::specs::Spares::took))]
    pub(crate) fn take<C: Cells>(&self, c: &mut C) -> u32
        requires lies { Lies self.now (C.size c.old) }
        requires begun { C.begun c.old ≡ true }
        requires can { CanTake self.now (C.words c.old) }
        ensures size { C.size c.new ≡ C.size c.old }
        ensures begun { C.begun c.new ≡ true }
        ensures rest { C.rest c.new ≡ C.rest c.old }
        ensures words { C.words c.new ≡ took self.now (C.words c.old) }
        ensures slot { result ≡ head_of self.now (C.words c.old) }
        ensures below { result < self.now.count }
    {
        let head = read(c, self.free);
        let slot = head as u32;
        let size = c.size();
        let word = read(c, self.place(slot, size) + 6);
        let next = if word == 0 { head + 1 } else { word - 1 };
        let taken = read(c, self.free + 1);
        c.store(self.free, next);
        c.store(self.free + 1, taken + 1);
        slot
    }

    /// Gives a node back. It is the first free one then.
    #[tactic(auto, unfolding(crate::specs::Spares::gave))]
    pub(crate) fn give<C: Cells>(&self, c: &mut C, slot: u32)
        requires lies { Lies self.now (C.size c.old) }
        requires begun { C.begun c.old ≡ true }
        requires slot { slot < self.now.count }
        ensures size { C.size c.new ≡ C.size c.old }
        ensures begun { C.begun c.new ≡ true }
        ensures rest { C.rest c.new ≡ C.rest c.old }
        ensures words { C.words c.new ≡ gave self.now (C.words c.old) slot }
    {
        let head = read(c, self.free);
        let taken = read(c, self.free + 1);
        let size = c.size();
        c.store(self.place(slot, size) + 6, head.saturating_add(1));
        c.store(self.free, u64::from(slot));
        c.store(self.free + 1, taken.saturating_sub(1));
    }
}
