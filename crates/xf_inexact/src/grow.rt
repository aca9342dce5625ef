//! A policy's three prefixes, put into the trees: its bin, its destination below that, its source below that.
ghost use Rattle.std.specs.Prelude.{◌≡◌, ℕ, ◌<◌, ◌≤◌, ◌^◌, true, List, Option};
ghost use Rattle.xf_chain.specs.Families.{IsOf};
ghost use Rattle.xf_trie.specs.Keys as trie;
ghost use Rattle.xf_trie.specs.Nodes.{Below, Lies};
ghost use Rattle.xf_inexact.specs.Grown as grown;
ghost use Rattle.xf_inexact.specs.Places as places;

use crate::inexact::Inexact;
use crate::keys::{bin_bucket, bin_key};
use xf_cells::Cells;
use xf_trie::key_of;
use xf_types::{Policy, Prefix};

impl Inexact {
    /// Puts a policy's bin into the tree of its bucket, and answers its node.
    #[tactic(auto, unfolding(crate::specs::Grown::bin_grown, crate::specs::Grown::bin_put), using(crate::proofs::Apart::bucket_lies))]
    fn grow_bin<C: Cells>(&self, c: &mut C, p: &Policy) -> Option<u32>
        requires fits { places.Fits self.now (C.size c.old) }
        requires begun { C.begun c.old ≡ true }
        ensures size { C.size c.new ≡ C.size c.old }
        ensures begun { C.begun c.new ≡ true }
        ensures rest { C.rest c.new ≡ C.rest c.old }
        ensures words { C.words c.new ≡ grown.bin_grown self.now (C.words c.old) p.now }
        ensures node { result ≡ grown.bin_put self.now (C.words c.old) p.now }
        ensures key { grown.bin_key_of p.now < 2 ^ 128 }
        ensures below { Below (places.count_of self.now) result }
    {
        let (ptype, addr) = (p.spec.ptype, p.spec.sel.dst.addr);
        let tree = self.bins(bin_bucket(ptype, &addr, p.spec.dir, p.spec.if_id));
        tree.try_insert_key(c, bin_key(ptype, &addr, p.spec.dir, p.spec.if_id), 128)
    }

    /// Puts a prefix into the tree below a node, where there is one, and answers its node.
    #[tactic(auto, unfolding(crate::specs::Grown::below_grown, crate::specs::Grown::below_put), using(crate::proofs::Apart::below_lies))]
    fn grow_below<C: Cells>(&self, c: &mut C, node: Option<u32>, p: &Prefix) -> Option<u32>
        requires fits { places.Fits self.now (C.size c.old) }
        requires begun { C.begun c.old ≡ true }
        requires node { Below (places.count_of self.now) node }
        ensures size { C.size c.new ≡ C.size c.old }
        ensures begun { C.begun c.new ≡ true }
        ensures rest { C.rest c.new ≡ C.rest c.old }
        ensures words { C.words c.new ≡ grown.below_grown self.now (C.words c.old) node (trie.key_of p.now.addr) p.now.len }
        ensures node { result ≡ grown.below_put self.now (C.words c.old) node (trie.key_of p.now.addr) p.now.len }
        ensures key { trie.key_of p.now.addr < 2 ^ 128 }
        ensures below { Below (places.count_of self.now) result }
    {
        let key = key_of(&p.addr);
        match node {
            None => None,
            Some(node) => self.below(node).try_insert_key(c, key, p.len),
        }
    }

    /// Puts the three prefixes of a policy into the trees, and answers the node at which it stands.
    #[tactic(auto, unfolding(crate::specs::Grown::destination_grown, crate::specs::Grown::destination_put, crate::specs::Grown::source_grown, crate::specs::Grown::source_put))]
    pub(crate) fn grow<C: Cells>(&self, c: &mut C, p: &Policy) -> Option<u32>
        requires fits { places.Fits self.now (C.size c.old) }
        requires begun { C.begun c.old ≡ true }
        ensures size { C.size c.new ≡ C.size c.old }
        ensures begun { C.begun c.new ≡ true }
        ensures rest { C.rest c.new ≡ C.rest c.old }
        ensures words { C.words c.new ≡ grown.source_grown self.now (C.words c.old) p.now }
        ensures node { result ≡ grown.source_put self.now (C.words c.old) p.now }
        ensures keys { grown.KeysFit p.now }
        ensures below { IsOf (places.chains_of self.now) result }
    {
        let bin = self.grow_bin(c, p);
        let destination = self.grow_below(c, bin, &p.spec.sel.dst);
        self.grow_below(c, destination, &p.spec.sel.src)
    }
}
