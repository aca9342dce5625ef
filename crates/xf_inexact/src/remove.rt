//! How a policy goes: its slot out of its node's chain, then each prefix that no policy needs any more out of its tree, from the source up.
ghost use Rattle.std.specs.Prelude.{◌≡◌, ℕ, ◌<◌, ◌++◌, Bool, true, false, List, ◌∷◌, Some, is_some};
ghost use Rattle.xf_chain.specs.Lists.{Apart};
ghost use Rattle.xf_exact.specs.Parts.{is_in_exact, without_slot};
ghost use Rattle.xf_image.specs.Frames.{Frame};
ghost use Rattle.xf_index.specs.Indexes.{slots_in};
ghost use Rattle.xf_trie.specs.Nodes.{Lies};
ghost use Rattle.xf_trie.specs.Walks.{find_of};
ghost use Rattle.xf_inexact.specs.Dropped as dropped;
ghost use Rattle.xf_inexact.specs.Holds.{HoldPart};
ghost use Rattle.xf_inexact.specs.Places as places;

use crate::inexact::Inexact;
use crate::keys::{bin_bucket, bin_key};
use xf_cells::{Cells, read};
use xf_exact::before_in;
use xf_trie::{Trie, key_of};
use xf_types::Policy;

// Whether the word at a place names one of so many.
fn names_one<C: Cells>(c: &mut C, place: u32, count: u32) -> bool
    requires { place < C.size c.old }
    ensures size { C.size c.new ≡ C.size c.old }
    ensures begun { C.begun c.new ≡ C.begun c.old }
    ensures rest { C.rest c.new ≡ C.rest c.old }
    ensures words { C.words c.new ≡ C.words c.old }
    ensures answer { result ≡ dropped.names_one (C.words c.old) place count }
{
    let word = read(c, place);
    word != 0 && word <= u64::from(count)
}

// Whether a tree has a prefix.
fn has_key<C: Cells>(tree: &Trie, c: &mut C, key: u128, len: u8) -> bool
    requires { Lies tree.now (C.size c.old) }
    ensures size { C.size c.new ≡ C.size c.old }
    ensures begun { C.begun c.new ≡ C.begun c.old }
    ensures rest { C.rest c.new ≡ C.rest c.old }
    ensures words { C.words c.new ≡ C.words c.old }
    ensures answer { result ≡ is_some (find_of tree.now (C.words c.old) key len) }
{
    tree.find_key(c, key, len).is_some()
}

// Takes a prefix out of a tree that has it, where the word at a place names none of so many.
#[tactic(auto, unfolding(crate::specs::Dropped::dropped))]
fn drop_key<C: Cells>(tree: &Trie, c: &mut C, key: u128, len: u8, place: u32, count: u32)
    requires lies { Lies tree.now (C.size c.old) }
    requires begun { C.begun c.old ≡ true }
    requires place { place < C.size c.old }
    ensures size { C.size c.new ≡ C.size c.old }
    ensures begun { C.begun c.new ≡ true }
    ensures rest { C.rest c.new ≡ C.rest c.old }
    ensures words { C.words c.new ≡ dropped.dropped tree.now (C.words c.old) key len place count }
{
    if names_one(c, place, count) {
        return;
    }
    if has_key(tree, c, key, len) {
        tree.remove_key(c, key, len);
    }
}

impl Inexact {
    // Takes a slot out of a node's chain.
    #[tactic(auto, using(crate::proofs::Apart::chains_lay))]
    fn unlink<C: Cells>(&self, c: &mut C, slot: u32, node: u32)
        requires fits { places.Fits self.now (C.size c.old) }
        requires begun { C.begun c.old ≡ true }
        requires slot { slot < self.now.area.slots }
        requires node { node < places.count_of self.now }
        ensures size { C.size c.new ≡ C.size c.old }
        ensures begun { C.begun c.new ≡ true }
        ensures rest { C.rest c.new ≡ C.rest c.old }
        ensures words { C.words c.new ≡ without_slot (C.words c.old) (places.chains_of self.now) (Some node) slot }
    {
        let chains = self.chains();
        let after = before_in(c, slot, &chains, Some(node));
        chains.remove(c, Some(node), after, slot);
    }

    // Takes a policy out of what is below a destination.
    #[tactic(auto, unfolding(crate::specs::Dropped::dropped_source), using(crate::proofs::Apart::below_lies))]
    fn remove_source<C: Cells>(&self, c: &mut C, slot: u32, p: &Policy, destination: u32)
        requires fits { places.Fits self.now (C.size c.old) }
        requires begun { C.begun c.old ≡ true }
        requires slot { slot < self.now.area.slots }
        requires node { destination < places.count_of self.now }
        ensures size { C.size c.new ≡ C.size c.old }
        ensures begun { C.begun c.new ≡ true }
        ensures rest { C.rest c.new ≡ C.rest c.old }
        ensures words { C.words c.new ≡ dropped.dropped_source self.now (C.words c.old) slot p.now destination }
    {
        if let Some(source) = self.find_below(c, Some(destination), &p.spec.sel.src) {
            self.unlink(c, slot, source);
            let tree = self.below(destination);
            let key = key_of(&p.spec.sel.src.addr);
            let head = self.base + 64 + 6 * self.area.slots + source;
            drop_key(&tree, c, key, p.spec.sel.src.len, head, self.area.slots);
        }
    }

    // Takes a policy out of what is below a bin.
    #[tactic(auto, unfolding(crate::specs::Dropped::dropped_destination), using(crate::proofs::Apart::below_lies))]
    fn remove_destination<C: Cells>(&self, c: &mut C, slot: u32, p: &Policy, bin: u32)
        requires fits { places.Fits self.now (C.size c.old) }
        requires begun { C.begun c.old ≡ true }
        requires slot { slot < self.now.area.slots }
        requires node { bin < places.count_of self.now }
        ensures size { C.size c.new ≡ C.size c.old }
        ensures begun { C.begun c.new ≡ true }
        ensures rest { C.rest c.new ≡ C.rest c.old }
        ensures words { C.words c.new ≡ dropped.dropped_destination self.now (C.words c.old) slot p.now bin }
    {
        if let Some(destination) = self.find_below(c, Some(bin), &p.spec.sel.dst) {
            self.remove_source(c, slot, p, destination);
            let tree = self.below(bin);
            let key = key_of(&p.spec.sel.dst.addr);
            let root = self.base + 64 + destination;
            drop_key(&tree, c, key, p.spec.sel.dst.len, root, 6 * self.area.slots);
        }
    }

    // Takes a policy out of all that is there.
    #[tactic(auto, unfolding(crate::specs::Dropped::dropped_policy), using(crate::proofs::Apart::bucket_lies))]
    fn remove_policy<C: Cells>(&self, c: &mut C, slot: u32, p: &Policy)
        requires fits { places.Fits self.now (C.size c.old) }
        requires begun { C.begun c.old ≡ true }
        requires slot { slot < self.now.area.slots }
        ensures size { C.size c.new ≡ C.size c.old }
        ensures begun { C.begun c.new ≡ true }
        ensures rest { C.rest c.new ≡ C.rest c.old }
        ensures words { C.words c.new ≡ dropped.dropped_policy self.now (C.words c.old) slot p.now }
    {
        let spec = &p.spec;
        let remote = &spec.sel.dst.addr;
        if let Some(bin) = self.bin(c, spec.ptype, remote, spec.dir, spec.if_id) {
            self.remove_destination(c, slot, p, bin);
            let tree = self.bins(bin_bucket(spec.ptype, remote, spec.dir, spec.if_id));
            let key = bin_key(spec.ptype, remote, spec.dir, spec.if_id);
            let root = self.base + 64 + bin;
            drop_key(&tree, c, key, 128, root, 6 * self.area.slots);
        }
    }
}

impl Inexact {
    /// Takes a policy's slot out of the chain of its node, and the prefixes that no policy needs any more out of the trees. On words that
    /// don't hold this part it may leave any words of its own.
    pub fn remove<C: Cells>(&self, c: &mut C, slot: u32, p: &Policy)
        requires fits { places.Fits self.now (C.size c.old) }
        requires begun { C.begun c.old ≡ true }
        requires slot { slot < self.now.area.slots }
        ensures size { C.size c.new ≡ C.size c.old }
        ensures begun { C.begun c.new ≡ true }
        ensures rest { C.rest c.new ≡ C.rest c.old }
        ensures frame { Frame self.now.base (places.end_of self.now) (C.words c.old) (C.words c.new) }
        ensures entries { (h4 h6 : ℕ × ℕ) (front back : List (ℕ × Policy)) → is_in_exact h4 h6 p.now ≡ false → Apart (slots_in (front ++ ((slot, p.now) ∷ back))) → HoldPart self.now (C.words c.old) h4 h6 (front ++ ((slot, p.now) ∷ back)) → HoldPart self.now (C.words c.new) h4 h6 (front ++ back) }
    {
        self.remove_policy(c, slot, p);
    }
}
