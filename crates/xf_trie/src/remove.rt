ghost use Rattle.std.specs.Prelude.{◌≡◌, ℕ, ◌<◌, Bool, true, IsSome};
ghost use Rattle.xf_trie.specs.Keys.{key_of};
ghost use Rattle.xf_trie.specs.Nodes.{Lies};
ghost use Rattle.xf_trie.specs.Walks.{find_of};
ghost use Rattle.xf_trie.specs.Removals.{removed_from, removed};
ghost use Rattle.xf_trie.specs.Pools.{IsPrefixSet};
ghost use Rattle.xf_trie.specs.Promises.{Removes};

use crate::keys;
use crate::trie::Trie;
use xf_cells::Cells;
use xf_types::Prefix;

impl Trie {
    // Takes a prefix out below a link. Each link on the way back is tidied: the node of the prefix may leave its parent with one child, and
    // where nothing is missing tidying changes nothing.
    fn remove_from<C: Cells>(&self, c: &mut C, key: u128, len: u8, place: u32, left: u32)
        requires lies { Lies self.now (C.size c.old) }
        requires begun { C.begun c.old ≡ true }
        requires place { place < C.size c.old }
        ensures size { C.size c.new ≡ C.size c.old }
        ensures begun { C.begun c.new ≡ true }
        ensures rest { C.rest c.new ≡ C.rest c.old }
        ensures words { C.words c.new ≡ removed_from self.now (C.words c.old) key len left place }
    {
        if left == 0 {
            return;
        }
        match self.below(c, key, len, place) {
            None => {
                self.unmark(c, place);
                self.tidy(c, place);
            }
            Some(next) => {
                self.remove_from(c, key, len, next, left - 1);
                self.tidy(c, place);
            }
        }
    }

    // Takes a prefix out of the tree.
    fn remove_whole<C: Cells>(&self, c: &mut C, key: u128, len: u8)
        requires lies { Lies self.now (C.size c.old) }
        requires begun { C.begun c.old ≡ true }
        ensures size { C.size c.new ≡ C.size c.old }
        ensures begun { C.begun c.new ≡ true }
        ensures rest { C.rest c.new ≡ C.rest c.old }
        ensures words { C.words c.new ≡ removed self.now (C.words c.old) key len }
    {
        self.remove_from(c, key, len, self.root, 129);
    }

    /// Takes the prefix out that has the first bits of a key. Its node is given back, or stays as a branch.
    pub fn remove_key<C: Cells>(&self, c: &mut C, key: u128, len: u8)
        requires lies { Lies self.now (C.size c.old) }
        requires begun { C.begun c.old ≡ true }
        requires there { IsSome (find_of self.now (C.words c.old) key len) }
        ensures size { C.size c.new ≡ C.size c.old }
        ensures begun { C.begun c.new ≡ true }
        ensures rest { C.rest c.new ≡ C.rest c.old }
        ensures words { C.words c.new ≡ removed self.now (C.words c.old) key len }
        ensures prefixes { IsPrefixSet self.now (C.words c.old) → IsPrefixSet self.now (C.words c.new) }
        ensures law { Removes self.now (C.words c.old) (C.words c.new) key len }
    {
        self.remove_whole(c, key, len);
    }

    /// Takes a prefix out. Its node is given back, or stays as a branch.
    pub fn remove<C: Cells>(&self, c: &mut C, p: &Prefix)
        requires lies { Lies self.now (C.size c.old) }
        requires begun { C.begun c.old ≡ true }
        requires there { IsSome (find_of self.now (C.words c.old) (key_of p.now.addr) p.now.len) }
        ensures size { C.size c.new ≡ C.size c.old }
        ensures begun { C.begun c.new ≡ true }
        ensures rest { C.rest c.new ≡ C.rest c.old }
        ensures words { C.words c.new ≡ removed self.now (C.words c.old) (key_of p.now.addr) p.now.len }
        ensures prefixes { IsPrefixSet self.now (C.words c.old) → IsPrefixSet self.now (C.words c.new) }
        ensures law { Removes self.now (C.words c.old) (C.words c.new) (key_of p.now.addr) p.now.len }
    {
        let key = keys::key_of(&p.addr);
        self.remove_key(c, key, p.len);
    }
}
