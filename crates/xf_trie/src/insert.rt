ghost use Rattle.std.specs.Prelude.{◌≡◌, ℕ, ◌<◌, ◌≤◌, ◌^◌, Bool, true};
ghost use Rattle.xf_trie.specs.Keys.{key_of};
ghost use Rattle.xf_trie.specs.Nodes.{Lies};
ghost use Rattle.xf_trie.specs.Spares.{CanTake, spare_of, took};
ghost use Rattle.xf_trie.specs.Insertions.{inserted, slot_inserted};
ghost use Rattle.xf_trie.specs.Pools.{IsPrefixSet};
ghost use Rattle.xf_trie.specs.Promises.{Inserts};

use crate::keys;
use crate::trie::Trie;
use xf_cells::Cells;
use xf_types::Prefix;

impl Trie {
    /// Puts a prefix into the tree, by the two free nodes that come first.
    pub(crate) fn insert_free<C: Cells>(&self, c: &mut C, key: u128, len: u8) -> u32
        requires lies { Lies self.now (C.size c.old) }
        requires begun { C.begun c.old ≡ true }
        requires len { len ≤ 128 }
        requires can { CanTake self.now (C.words c.old) }
        requires more { CanTake self.now (took self.now (C.words c.old)) }
        ensures size { C.size c.new ≡ C.size c.old }
        ensures begun { C.begun c.new ≡ true }
        ensures rest { C.rest c.new ≡ C.rest c.old }
        ensures words { C.words c.new ≡ inserted self.now (C.words c.old) key len }
        ensures slot { result ≡ slot_inserted self.now (C.words c.old) key len }
        ensures below { result < self.now.count }
    {
        let place = self.spot(c, key, len);
        self.put(c, key, len, place)
    }

    /// Inserts the prefix that has the first bits of a key, and answers its node. It takes at most two of the free nodes.
    pub fn insert_key<C: Cells>(&self, c: &mut C, key: u128, len: u8) -> u32
        requires lies { Lies self.now (C.size c.old) }
        requires begun { C.begun c.old ≡ true }
        requires len { len ≤ 128 }
        requires prefixes { IsPrefixSet self.now (C.words c.old) }
        requires spare { 2 ≤ spare_of self.now (C.words c.old) }
        ensures size { C.size c.new ≡ C.size c.old }
        ensures begun { C.begun c.new ≡ true }
        ensures rest { C.rest c.new ≡ C.rest c.old }
        ensures words { C.words c.new ≡ inserted self.now (C.words c.old) key len }
        ensures prefixes { IsPrefixSet self.now (C.words c.new) }
        ensures law { Inserts self.now (C.words c.old) (C.words c.new) key len result }
        ensures below { result < self.now.count }
    {
        self.insert_free(c, key, len)
    }

    /// Inserts a prefix, and answers its node. It takes at most two of the free nodes.
    pub fn insert<C: Cells>(&self, c: &mut C, p: &Prefix) -> u32
        requires lies { Lies self.now (C.size c.old) }
        requires begun { C.begun c.old ≡ true }
        requires prefixes { IsPrefixSet self.now (C.words c.old) }
        requires spare { 2 ≤ spare_of self.now (C.words c.old) }
        ensures size { C.size c.new ≡ C.size c.old }
        ensures begun { C.begun c.new ≡ true }
        ensures rest { C.rest c.new ≡ C.rest c.old }
        ensures key { key_of p.now.addr < 2 ^ 128 }
        ensures words { C.words c.new ≡ inserted self.now (C.words c.old) (key_of p.now.addr) p.now.len }
        ensures prefixes { IsPrefixSet self.now (C.words c.new) }
        ensures law { Inserts self.now (C.words c.old) (C.words c.new) (key_of p.now.addr) p.now.len result }
        ensures below { result < self.now.count }
    {
        let key = keys::key_of(&p.addr);
        self.insert_key(c, key, p.len)
    }
}
