ghost use Rattle.std.specs.Prelude.{◌≡◌, ℕ, ◌<◌, true};
ghost use Rattle.xf_chain.specs.Families.{Lays};
ghost use Rattle.xf_trie.specs.Nodes.{Lies};
ghost use Rattle.xf_image.specs.Layout.{IsArea};
ghost use Rattle.xf_inexact.specs.Places as places;
ghost use Rattle.xf_inexact.specs.Whole.{trees_of};

use xf_chain::Family;
use xf_image::PolicyArea;
use xf_trie::Trie;

/// The words of the trees: their first place, and the words of the policies, which come before them.
#[derive(Clone, Copy, Debug, PartialEq, Eq)]
pub struct Inexact {
    pub area: PolicyArea,
    pub base: u32,
}

impl Inexact {
    /// The words of the trees directly behind those of the policies.
    pub fn behind(area: PolicyArea) -> Inexact
        requires { IsArea area }
        ensures { result ≡ trees_of area }
    {
        Inexact {
            area,
            base: area.end(),
        }
    }

    /// The tree with its root at a place.
    fn tree(&self, root: u32) -> Trie
        requires { places.IsInexact self.now }
        ensures { result ≡ places.tree_at self.now root }
    {
        Trie {
            root,
            nodes: self.base + 66 + 13 * self.area.slots,
            free: self.base + 64 + 13 * self.area.slots,
            count: 6 * self.area.slots,
        }
    }

    /// The tree of the bins of a bucket.
    pub fn bins(&self, bucket: u32) -> Trie
        requires places { places.IsInexact self.now }
        requires bucket { bucket < 64 }
        ensures { result ≡ places.bins_of self.now bucket }
    {
        self.tree(self.base + bucket)
    }

    /// The tree below a node.
    pub fn below(&self, node: u32) -> Trie
        requires places { places.IsInexact self.now }
        requires node { node < places.count_of self.now }
        ensures { result ≡ places.below_of self.now node }
    {
        self.tree(self.base + 64 + node)
    }

    /// The chains of policies, by node.
    pub fn chains(&self) -> Family
        requires { places.IsInexact self.now }
        ensures { result ≡ places.chains_of self.now }
    {
        Family {
            heads: self.base + 64 + 6 * self.area.slots,
            count: 6 * self.area.slots,
            links: self.base + 64 + 12 * self.area.slots,
            slots: self.area.slots,
        }
    }
}
