ghost use Rattle.std.specs.Prelude.{◌≡◌, ℕ, ◌+◌, ◌*◌, ◌<◌, ◌≤◌, ◌^◌, Bool, List, Option, slice_index};
ghost use Rattle.xf_cells.specs.Words.{Narrows};
ghost use Rattle.xf_trie.specs.Nodes.{Lies, Below, slot_of, place_of, link_of, node_at, child_at, root_of};

use xf_cells::Load;

/// A tree of prefixes in words. Trees whose `nodes`, `free` and `count` are equal share their nodes, and each has a root of its own. A word
/// that names a node is 0 where there is none, else the node's slot plus 1; a word above `count` names none. So zeros are empty trees,
/// and any words at all are read as some tree.
#[derive(Clone, Copy, Debug, PartialEq, Eq)]
pub struct Trie {
    /// The place of the word that names the root.
    pub root: u32,

    /// The place of the node in slot 0. A node has eight words.
    pub nodes: u32,

    /// The place of the slot of the first free node. Behind it stands how many nodes are taken.
    pub free: u32,

    /// How many nodes there are.
    pub count: u32,
}

/// A node: its slot, the bits of which its prefix has the first `len`, and whether the prefix was inserted.
#[derive(Clone, Copy, Debug, PartialEq, Eq)]
pub struct Node {
    pub slot: u32,
    pub key: u128,
    pub len: u8,
    pub marked: bool,
}

impl Trie {
    /// The node that a word names.
    pub(crate) fn slot(&self, word: u64) -> Option<u32>
        ensures slot { result ≡ slot_of self.now.count word }
        ensures below { Below self.now.count result }
    {
        if word == 0 || word > u64::from(self.count) {
            None
        } else {
            Some((word - 1) as u32)
        }
    }

    /// The first place of a node.
    pub(crate) fn place(&self, slot: u32, size: u32) -> u32
        requires slot { slot < self.now.count }
        requires lies { Lies self.now size }
        ensures place { result ≡ place_of self.now slot }
        ensures within { result + 8 ≤ size }
    {
        self.nodes + 8 * slot
    }

    /// The place of the link to a node's child.
    pub(crate) fn link(&self, slot: u32, side: bool, size: u32) -> u32
        requires slot { slot < self.now.count }
        requires lies { Lies self.now size }
        ensures place { result ≡ link_of self.now slot side }
        ensures within { result < size }
    {
        let place = self.place(slot, size);
        if side { place + 5 } else { place + 4 }
    }

    /// The root. It costs one load.
    pub(crate) fn top<L: Load>(&self, l: &mut L) -> Option<u32>
        requires { Lies self.now (L.size l.old) }
        ensures size { L.size l.new ≡ L.size l.old }
        ensures begun { L.begun l.new ≡ L.begun l.old }
        ensures rest { L.rest l.new ≡ L.rest l.old }
        ensures loads { L.loads l.new ≤ L.loads l.old + 1 }
        ensures among { Narrows (L.agrees l.old) (L.agrees l.new) }
        ensures below { Below self.now.count result }
        ensures answer { (image : List ℕ) → L.agrees l.new image → result ≡ root_of self.now image }
    {
        let word = l.load(self.root);
        self.slot(word)
    }

    /// The child of a node on a side. It costs one load.
    pub(crate) fn child<L: Load>(&self, l: &mut L, slot: u32, side: bool) -> Option<u32>
        requires lies { Lies self.now (L.size l.old) }
        requires slot { slot < self.now.count }
        ensures size { L.size l.new ≡ L.size l.old }
        ensures begun { L.begun l.new ≡ L.begun l.old }
        ensures rest { L.rest l.new ≡ L.rest l.old }
        ensures loads { L.loads l.new ≤ L.loads l.old + 1 }
        ensures among { Narrows (L.agrees l.old) (L.agrees l.new) }
        ensures below { Below self.now.count result }
        ensures answer { (image : List ℕ) → L.agrees l.new image → result ≡ child_at self.now image slot side }
    {
        let size = l.size();
        let word = l.load(self.link(slot, side, size));
        self.slot(word)
    }

    /// The node in a slot. A length above 128 is read as 128. It costs four loads.
    pub(crate) fn node<L: Load>(&self, l: &mut L, slot: u32) -> Node
        requires lies { Lies self.now (L.size l.old) }
        requires slot { slot < self.now.count }
        ensures size { L.size l.new ≡ L.size l.old }
        ensures begun { L.begun l.new ≡ L.begun l.old }
        ensures rest { L.rest l.new ≡ L.rest l.old }
        ensures loads { L.loads l.new ≤ L.loads l.old + 4 }
        ensures among { Narrows (L.agrees l.old) (L.agrees l.new) }
        ensures slot { result.slot ≡ slot }
        ensures len { result.len ≤ 128 }
        ensures answer { (image : List ℕ) → L.agrees l.new image → result ≡ node_at self.now image slot }
    {
        let size = l.size();
        let place = self.place(slot, size);
        let high = l.load(place);
        let low = l.load(place + 1);
        let len = l.load(place + 2);
        let marked = l.load(place + 3);
        Node {
            slot,
            key: u128::from(high) * 0x1_0000_0000_0000_0000 + u128::from(low),
            len: len.min(128) as u8,
            marked: marked == 1,
        }
    }
}
