//! What is found on the way down to a key.
ghost use Rattle.std.specs.Prelude.{◌≡◌, ℕ, ◌+◌, ◌*◌, ◌<◌, ◌≤◌, ◌^◌, Bool, List, Option, All, length};
ghost use Rattle.xf_cells.specs.Words.{Narrows};
ghost use Rattle.xf_trie.specs.Keys.{key_of};
ghost use Rattle.xf_trie.specs.Nodes.{Lies, Below};
ghost use Rattle.xf_trie.specs.Walks.{path_of, visit_of, find_of};
ghost use Rattle.xf_trie.specs.Lookups.{Visits, Finds};

use crate::keys;
use crate::trie::Trie;
use crate::walk::Walk;
use arrayvec::ArrayVec;
use xf_cells::Load;
use xf_types::{Addr, Prefix};

impl Trie {
    // The marked nodes on the way to a key.
    #[tactic(auto, unfolding(crate::specs::Walks::visit_of))]
    fn visited<L: Load>(&self, l: &mut L, key: u128) -> ArrayVec<u32, 129>
        requires { Lies self.now (L.size l.old) }
        ensures size { L.size l.new ≡ L.size l.old }
        ensures begun { L.begun l.new ≡ L.begun l.old }
        ensures rest { L.rest l.new ≡ L.rest l.old }
        ensures among { Narrows (L.agrees l.old) (L.agrees l.new) }
        ensures most { L.loads l.new ≤ L.loads l.old + 651 }
        ensures below { All (λ slot. slot < self.now.count) result.items }
        ensures loads { (image : List ℕ) → L.agrees l.new image → L.loads l.new ≤ L.loads l.old + 6 + 5 * length (path_of self.now image key) }
        ensures answer { (image : List ℕ) → L.agrees l.new image → result.items ≡ visit_of self.now image key }
    {
        let mut visited = ArrayVec::new();
        let mut walk = Walk::start(self, l);
        'nodes: while let Some(node) = walk.step(self, l, key) {
            if node.marked {
                visited.push(node.slot);
            }
        }
        visited
    }

    // The marked node of a prefix on the way to it.
    #[tactic(auto, unfolding(crate::specs::Walks::find_of))]
    fn found<L: Load>(&self, l: &mut L, key: u128, len: u8) -> Option<u32>
        requires { Lies self.now (L.size l.old) }
        ensures size { L.size l.new ≡ L.size l.old }
        ensures begun { L.begun l.new ≡ L.begun l.old }
        ensures rest { L.rest l.new ≡ L.rest l.old }
        ensures among { Narrows (L.agrees l.old) (L.agrees l.new) }
        ensures most { L.loads l.new ≤ L.loads l.old + 651 }
        ensures below { Below self.now.count result }
        ensures loads { (image : List ℕ) → L.agrees l.new image → L.loads l.new ≤ L.loads l.old + 6 + 5 * length (path_of self.now image key) }
        ensures answer { (image : List ℕ) → L.agrees l.new image → result ≡ find_of self.now image key len }
    {
        let mut walk = Walk::start(self, l);
        'nodes: while let Some(node) = walk.step(self, l, key) {
            if node.len == len && node.marked {
                return Some(node.slot);
            }
        }
        None
    }

    /// The nodes of all inserted prefixes that hold a key, shortest first.
    pub fn visit_key<L: Load>(&self, l: &mut L, key: u128) -> ArrayVec<u32, 129>
        requires { Lies self.now (L.size l.old) }
        ensures size { L.size l.new ≡ L.size l.old }
        ensures begun { L.begun l.new ≡ L.begun l.old }
        ensures rest { L.rest l.new ≡ L.rest l.old }
        ensures among { Narrows (L.agrees l.old) (L.agrees l.new) }
        ensures most { L.loads l.new ≤ L.loads l.old + 651 }
        ensures below { All (λ slot. slot < self.now.count) result.items }
        ensures loads { (image : List ℕ) → L.agrees l.new image → L.loads l.new ≤ L.loads l.old + 6 + 5 * length (path_of self.now image key) }
        ensures answer { (image : List ℕ) → L.agrees l.new image → result.items ≡ visit_of self.now image key }
        ensures law { (image : List ℕ) → L.agrees l.new image → Visits self.now image key (L.loads l.old) (L.loads l.new) result.items }
    {
        self.visited(l, key)
    }

    /// The node of a prefix, which has the first bits of a key. None exactly where it wasn't inserted.
    pub fn find_key<L: Load>(&self, l: &mut L, key: u128, len: u8) -> Option<u32>
        requires { Lies self.now (L.size l.old) }
        ensures size { L.size l.new ≡ L.size l.old }
        ensures begun { L.begun l.new ≡ L.begun l.old }
        ensures rest { L.rest l.new ≡ L.rest l.old }
        ensures among { Narrows (L.agrees l.old) (L.agrees l.new) }
        ensures most { L.loads l.new ≤ L.loads l.old + 651 }
        ensures below { Below self.now.count result }
        ensures loads { (image : List ℕ) → L.agrees l.new image → L.loads l.new ≤ L.loads l.old + 6 + 5 * length (path_of self.now image key) }
        ensures answer { (image : List ℕ) → L.agrees l.new image → result ≡ find_of self.now image key len }
        ensures law { (image : List ℕ) → L.agrees l.new image → Finds self.now image key len result }
    {
        self.found(l, key, len)
    }

    /// The nodes of all inserted prefixes that hold an address, shortest first.
    pub fn visit<L: Load>(&self, l: &mut L, a: &Addr) -> ArrayVec<u32, 129>
        requires { Lies self.now (L.size l.old) }
        ensures size { L.size l.new ≡ L.size l.old }
        ensures begun { L.begun l.new ≡ L.begun l.old }
        ensures rest { L.rest l.new ≡ L.rest l.old }
        ensures among { Narrows (L.agrees l.old) (L.agrees l.new) }
        ensures most { L.loads l.new ≤ L.loads l.old + 651 }
        ensures below { All (λ slot. slot < self.now.count) result.items }
        ensures loads { (image : List ℕ) → L.agrees l.new image → L.loads l.new ≤ L.loads l.old + 6 + 5 * length (path_of self.now image (key_of a.now)) }
        ensures answer { (image : List ℕ) → L.agrees l.new image → result.items ≡ visit_of self.now image (key_of a.now) }
        ensures law { (image : List ℕ) → L.agrees l.new image → Visits self.now image (key_of a.now) (L.loads l.old) (L.loads l.new) result.items }
    {
        let key = keys::key_of(a);
        self.visit_key(l, key)
    }

    /// The node of a prefix. None exactly where it wasn't inserted.
    pub fn find<L: Load>(&self, l: &mut L, p: &Prefix) -> Option<u32>
        requires { Lies self.now (L.size l.old) }
        ensures size { L.size l.new ≡ L.size l.old }
        ensures begun { L.begun l.new ≡ L.begun l.old }
        ensures rest { L.rest l.new ≡ L.rest l.old }
        ensures among { Narrows (L.agrees l.old) (L.agrees l.new) }
        ensures most { L.loads l.new ≤ L.loads l.old + 651 }
        ensures below { Below self.now.count result }
        ensures loads { (image : List ℕ) → L.agrees l.new image → L.loads l.new ≤ L.loads l.old + 6 + 5 * length (path_of self.now image (key_of p.now.addr)) }
        ensures answer { (image : List ℕ) → L.agrees l.new image → result ≡ find_of self.now image (key_of p.now.addr) p.now.len }
        ensures law { (image : List ℕ) → L.agrees l.new image → Finds self.now image (key_of p.now.addr) p.now.len result }
    {
        let key = keys::key_of(&p.addr);
        self.find_key(l, key, p.len)
    }
}
