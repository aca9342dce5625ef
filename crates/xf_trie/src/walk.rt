ghost use Rattle.std.specs.Prelude.{◌≡◌, ℕ, ◌+◌, ◌*◌, ◌<◌, ◌≤◌, List, Option, IsSome, IfSome, length};
ghost use Rattle.xf_cells.specs.Words.{Narrows};
ghost use Rattle.xf_trie.specs.Nodes.{Lies, Below};
ghost use Rattle.xf_trie.specs.Walks.{path_from, path_of, Steps};

use crate::keys::{agrees, bit};
use crate::trie::{Node, Trie};
use xf_cells::Load;

/// A walk down to a key. It ends after 129 turns, so that it ends on any words: prefixes that nest have lengths of their own, 0 to 128.
#[derive(Clone, Copy, Debug, PartialEq, Eq)]
pub struct Walk {
    /// The node that comes next.
    pub at: Option<u32>,

    /// How many turns are left.
    pub left: u32,
}

impl Walk {
    /// A walk from the root. It costs one load.
    #[tactic(auto, unfolding(crate::specs::Walks::path_of))]
    pub fn start<L: Load>(trie: &Trie, l: &mut L) -> Walk
        requires { Lies trie.now (L.size l.old) }
        ensures size { L.size l.new ≡ L.size l.old }
        ensures begun { L.begun l.new ≡ L.begun l.old }
        ensures rest { L.rest l.new ≡ L.rest l.old }
        ensures loads { L.loads l.new ≤ L.loads l.old + 1 }
        ensures among { Narrows (L.agrees l.old) (L.agrees l.new) }
        ensures below { Below trie.now.count result.at }
        ensures left { result.left ≡ 129 }
        ensures ahead { (image : List ℕ) (key : ℕ) → L.agrees l.new image → path_from trie.now image key result.left result.at ≡ path_of trie.now image key }
    {
        let at = trie.top(l);
        Walk { at, left: 129 }
    }

    /// The node that comes next, where its prefix holds the key. It costs at most five loads.
    pub fn step<L: Load>(&mut self, trie: &Trie, l: &mut L, key: u128) -> Option<Node>
        requires lies { Lies trie.now (L.size l.old) }
        requires below { Below trie.now.count self.old.at }
        ensures size { L.size l.new ≡ L.size l.old }
        ensures begun { L.begun l.new ≡ L.begun l.old }
        ensures rest { L.rest l.new ≡ L.rest l.old }
        ensures loads { L.loads l.new ≤ L.loads l.old + 5 }
        ensures among { Narrows (L.agrees l.old) (L.agrees l.new) }
        ensures below { Below trie.now.count self.new.at }
        ensures slot { IfSome result (λ node. node.slot < trie.now.count) }
        ensures left { IsSome result → self.new.left < self.old.left }
        ensures least { self.new.left ≤ self.old.left }
        ensures ahead { (image : List ℕ) → L.agrees l.new image → Steps result (path_from trie.now image key self.old.left self.old.at) (path_from trie.now image key self.new.left self.new.at) }
    {
        let slot = self.at?;
        if self.left == 0 {
            return None;
        }
        let node = trie.node(l, slot);
        if !agrees(node.key, key, node.len) {
            return None;
        }
        self.left -= 1;
        self.at = trie.child(l, slot, bit(key, node.len));
        Some(node)
    }
}
