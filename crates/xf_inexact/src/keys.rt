//! At which node of the trees a selector's policies stand.
ghost use Rattle.std.specs.Prelude.{◌≡◌, ℕ, ◌+◌, ◌*◌, ◌<◌, ◌≤◌, ◌^◌, List, Option};
ghost use Rattle.xf_cells.specs.Words.{Narrows};
ghost use Rattle.xf_chain.specs.Families.{IsOf};
ghost use Rattle.xf_trie.specs.Nodes.{Below, Lies};
ghost use Rattle.xf_types.specs.Address as address;
ghost use Rattle.xf_trie.specs.Keys as trie;
ghost use Rattle.xf_inexact.specs.Keys as keys;
ghost use Rattle.xf_inexact.specs.Places as places;

use crate::inexact::Inexact;
use xf_cells::{Load, hash};
use xf_records::{dir_word, family_word, ptype_word};
use xf_types::{Addr, Dir, Prefix, Ptype, Selector};

/// The key of a bin.
pub(crate) fn bin_key(ptype: Ptype, addr: &Addr, dir: Dir, if_id: u32) -> u128
    ensures { result ≡ keys.bin_key ptype (address.family_of addr.now) dir if_id }
{
    u128::from(if_id)
        + u128::from(dir_word(dir)) * 0x1_0000_0000
        + u128::from(family_word(addr)) * 0x100_0000_0000
        + u128::from(ptype_word(ptype)) * 0x1_0000_0000_0000
}

/// The bucket of a bin.
pub(crate) fn bin_bucket(ptype: Ptype, addr: &Addr, dir: Dir, if_id: u32) -> u32
    ensures bucket { result ≡ keys.bin_bucket ptype (address.family_of addr.now) dir if_id }
    ensures below { result < 64 }
{
    let words = [
        ptype_word(ptype),
        family_word(addr),
        dir_word(dir),
        u64::from(if_id),
    ];
    (hash(&words) % 64) as u32
}

impl Inexact {
    /// The node of a bin.
    #[tactic(auto, unfolding(crate::specs::Keys::bin_of, crate::specs::Keys::bin_cost), using(crate::proofs::Apart::bucket_lies))]
    pub(crate) fn bin<L: Load>(
        &self,
        l: &mut L,
        ptype: Ptype,
        addr: &Addr,
        dir: Dir,
        if_id: u32,
    ) -> Option<u32>
        requires { places.Fits self.now (L.size l.old) }
        ensures size { L.size l.new ≡ L.size l.old }
        ensures begun { L.begun l.new ≡ L.begun l.old }
        ensures rest { L.rest l.new ≡ L.rest l.old }
        ensures among { Narrows (L.agrees l.old) (L.agrees l.new) }
        ensures most { L.loads l.new ≤ L.loads l.old + 651 }
        ensures below { Below (places.count_of self.now) result }
        ensures loads { (image : List ℕ) → L.agrees l.new image → L.loads l.new ≤ L.loads l.old + keys.bin_cost self.now image ptype (address.family_of addr.now) dir if_id }
        ensures answer { (image : List ℕ) → L.agrees l.new image → result ≡ keys.bin_of self.now image ptype (address.family_of addr.now) dir if_id }
    {
        let tree = self.bins(bin_bucket(ptype, addr, dir, if_id));
        tree.find_key(l, bin_key(ptype, addr, dir, if_id), 128)
    }

    /// The node of a prefix in the tree below a node, where there is one.
    #[tactic(auto, using(crate::proofs::Apart::below_lies))]
    pub(crate) fn find_below<L: Load>(
        &self,
        l: &mut L,
        node: Option<u32>,
        p: &Prefix,
    ) -> Option<u32>
        requires fits { places.Fits self.now (L.size l.old) }
        requires node { Below (places.count_of self.now) node }
        ensures size { L.size l.new ≡ L.size l.old }
        ensures begun { L.begun l.new ≡ L.begun l.old }
        ensures rest { L.rest l.new ≡ L.rest l.old }
        ensures among { Narrows (L.agrees l.old) (L.agrees l.new) }
        ensures most { L.loads l.new ≤ L.loads l.old + 651 }
        ensures below { Below (places.count_of self.now) result }
        ensures answer { (image : List ℕ) → L.agrees l.new image → result ≡ keys.found_below self.now image node (trie.key_of p.now.addr) p.now.len }
    {
        match node {
            None => None,
            Some(node) => self.below(node).find(l, p),
        }
    }

    /// The node of a selector: its source prefix below its destination prefix below the bin.
    #[tactic(auto, unfolding(crate::specs::Keys::selector_node))]
    pub fn node<L: Load>(
        &self,
        l: &mut L,
        dir: Dir,
        ptype: Ptype,
        sel: &Selector,
        if_id: u32,
    ) -> Option<u32>
        requires { places.Fits self.now (L.size l.old) }
        ensures size { L.size l.new ≡ L.size l.old }
        ensures begun { L.begun l.new ≡ L.begun l.old }
        ensures rest { L.rest l.new ≡ L.rest l.old }
        ensures among { Narrows (L.agrees l.old) (L.agrees l.new) }
        ensures most { L.loads l.new ≤ L.loads l.old + 1953 }
        ensures below { IsOf (places.chains_of self.now) result }
        ensures answer { (image : List ℕ) → L.agrees l.new image → result ≡ keys.selector_node self.now image dir ptype if_id sel.now }
    {
        let bin = self.bin(l, ptype, &sel.dst.addr, dir, if_id);
        let destination = self.find_below(l, bin, &sel.dst);
        self.find_below(l, destination, &sel.src)
    }
}
