//! A prefix put at a link: alone, above the node there, beside it below a branch, or as that node's mark.
ghost use Rattle.std.specs.Prelude.{◌≡◌, ℕ, ◌<◌, ◌≤◌, Bool, true};
ghost use Rattle.xf_trie.specs.Nodes.{Lies};
ghost use Rattle.xf_trie.specs.Spares.{head_of, CanTake, took};
ghost use Rattle.xf_trie.specs.Insertions.{alone_at, branch_at, put_node, put_slot, put_at, slot_put, shared_with};

use crate::keys::{bit, common};
use crate::trie::{Node, Trie};
use xf_cells::{Cells, read};

impl Trie {
    // Puts one node at a link, with the words that name its children.
    #[tactic(auto, unfolding(crate::specs::Insertions::alone_at))]
    fn put_alone<C: Cells>(
        &self,
        c: &mut C,
        key: u128,
        len: u8,
        left: u64,
        right: u64,
        place: u32,
    ) -> u32
        requires lies { Lies self.now (C.size c.old) }
        requires begun { C.begun c.old ≡ true }
        requires place { place < C.size c.old }
        requires can { CanTake self.now (C.words c.old) }
        ensures size { C.size c.new ≡ C.size c.old }
        ensures begun { C.begun c.new ≡ true }
        ensures rest { C.rest c.new ≡ C.rest c.old }
        ensures words { C.words c.new ≡ alone_at self.now (C.words c.old) key len left right place }
        ensures slot { result ≡ head_of self.now (C.words c.old) }
        ensures below { result < self.now.count }
    {
        let slot = self.take(c);
        self.write(
            c,
            &Node {
                slot,
                key,
                len,
                marked: true,
            },
            left,
            right,
        );
        c.store(place, u64::from(slot) + 1);
        slot
    }

    // Puts a branch at a link, with a node and what stood there below it.
    #[tactic(auto, unfolding(crate::specs::Insertions::branch_at))]
    fn put_branch<C: Cells>(
        &self,
        c: &mut C,
        key: u128,
        len: u8,
        shared: u8,
        word: u64,
        place: u32,
    ) -> u32
        requires lies { Lies self.now (C.size c.old) }
        requires begun { C.begun c.old ≡ true }
        requires place { place < C.size c.old }
        requires can { CanTake self.now (C.words c.old) }
        requires more { CanTake self.now (took self.now (C.words c.old)) }
        ensures size { C.size c.new ≡ C.size c.old }
        ensures begun { C.begun c.new ≡ true }
        ensures rest { C.rest c.new ≡ C.rest c.old }
        ensures words { C.words c.new ≡ branch_at self.now (C.words c.old) key len shared word place }
        ensures slot { result ≡ head_of self.now (C.words c.old) }
        ensures below { result < self.now.count }
    {
        let slot = self.take(c);
        let branch = self.take(c);
        self.write(
            c,
            &Node {
                slot,
                key,
                len,
                marked: true,
            },
            0,
            0,
        );
        let here = u64::from(slot) + 1;
        let side = bit(key, shared);
        let left = if side { word } else { here };
        let right = if side { here } else { word };
        self.write(
            c,
            &Node {
                slot: branch,
                key,
                len: shared,
                marked: false,
            },
            left,
            right,
        );
        c.store(place, u64::from(branch) + 1);
        slot
    }

    // Puts a prefix at the link to a node.
    fn put_at_node<C: Cells>(&self, c: &mut C, key: u128, len: u8, place: u32, node: &Node) -> u32
        requires lies { Lies self.now (C.size c.old) }
        requires begun { C.begun c.old ≡ true }
        requires place { place < C.size c.old }
        requires node { node.now.slot < self.now.count }
        requires node_len { node.now.len ≤ 128 }
        requires len { len ≤ 128 }
        requires can { CanTake self.now (C.words c.old) }
        requires more { CanTake self.now (took self.now (C.words c.old)) }
        ensures size { C.size c.new ≡ C.size c.old }
        ensures begun { C.begun c.new ≡ true }
        ensures rest { C.rest c.new ≡ C.rest c.old }
        ensures words { C.words c.new ≡ put_node self.now (C.words c.old) key len place node.now (shared_with node.now key len) }
        ensures slot { result ≡ put_slot self.now (C.words c.old) node.now (shared_with node.now key len) }
        ensures below { result < self.now.count }
    {
        let shared = common(node.key, key, node.len.min(len));
        if shared == node.len {
            self.mark(c, node.slot);
            return node.slot;
        }
        let word = read(c, place);
        if shared == len {
            let side = bit(node.key, len);
            let left = if side { 0 } else { word };
            let right = if side { word } else { 0 };
            self.put_alone(c, key, len, left, right, place)
        } else {
            self.put_branch(c, key, len, shared, word, place)
        }
    }

    /// Puts a prefix at a link.
    #[tactic(auto, unfolding(crate::specs::Insertions::put_at, crate::specs::Insertions::slot_put))]
    pub(crate) fn put<C: Cells>(&self, c: &mut C, key: u128, len: u8, place: u32) -> u32
        requires lies { Lies self.now (C.size c.old) }
        requires begun { C.begun c.old ≡ true }
        requires place { place < C.size c.old }
        requires len { len ≤ 128 }
        requires can { CanTake self.now (C.words c.old) }
        requires more { CanTake self.now (took self.now (C.words c.old)) }
        ensures size { C.size c.new ≡ C.size c.old }
        ensures begun { C.begun c.new ≡ true }
        ensures rest { C.rest c.new ≡ C.rest c.old }
        ensures words { C.words c.new ≡ put_at self.now (C.words c.old) key len place }
        ensures slot { result ≡ slot_put self.now (C.words c.old) key len place }
        ensures below { result < self.now.count }
    {
        let word = read(c, place);
        match self.slot(word) {
            None => self.put_alone(c, key, len, 0, 0, place),
            Some(slot) => {
                let node = self.node_in(c, slot);
                self.put_at_node(c, key, len, place, &node)
            }
        }
    }
}
