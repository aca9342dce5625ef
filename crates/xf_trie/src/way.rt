//! The way down to the link at which a prefix stands, or is to stand: to the first node that isn't a proper front of the prefix.
ghost use Rattle.std.specs.Prelude.{◌≡◌, ℕ, ◌<◌, ◌≤◌, Bool, Option, IfSome};
ghost use Rattle.xf_trie.specs.Nodes.{Lies};
ghost use Rattle.xf_trie.specs.Insertions.{below_of, spot_of};

use crate::keys::{agrees, bit};
use crate::trie::Trie;
use xf_cells::{Cells, read};

impl Trie {
    /// The place of the link below the node at a link, where that node is a proper front of a prefix.
    #[tactic(auto, unfolding(crate::specs::Insertions::below_of))]
    pub(crate) fn below<C: Cells>(&self, c: &mut C, key: u128, len: u8, place: u32) -> Option<u32>
        requires lies { Lies self.now (C.size c.old) }
        requires place { place < C.size c.old }
        ensures size { C.size c.new ≡ C.size c.old }
        ensures begun { C.begun c.new ≡ C.begun c.old }
        ensures rest { C.rest c.new ≡ C.rest c.old }
        ensures words { C.words c.new ≡ C.words c.old }
        ensures within { IfSome result (λ next. next < C.size c.old) }
        ensures answer { result ≡ below_of self.now (C.words c.old) key len place }
    {
        let word = read(c, place);
        let slot = self.slot(word)?;
        let node = self.node_in(c, slot);
        if agrees(node.key, key, node.len) && node.len < len {
            let size = c.size();
            Some(self.link(slot, bit(key, node.len), size))
        } else {
            None
        }
    }

    /// The place of the link at which the way ends.
    #[tactic(auto, unfolding(crate::specs::Insertions::spot_of))]
    pub(crate) fn spot<C: Cells>(&self, c: &mut C, key: u128, len: u8) -> u32
        requires lies { Lies self.now (C.size c.old) }
        ensures size { C.size c.new ≡ C.size c.old }
        ensures begun { C.begun c.new ≡ C.begun c.old }
        ensures rest { C.rest c.new ≡ C.rest c.old }
        ensures words { C.words c.new ≡ C.words c.old }
        ensures within { result < C.size c.old }
        ensures place { result ≡ spot_of self.now (C.words c.old) key len }
    {
        let mut place = self.root;
        let mut left: u32 = 129;
        'links: while left > 0 {
            match self.below(c, key, len, place) {
                None => return place,
                Some(next) => place = next,
            }
            left -= 1;
        }
        place
    }
}
