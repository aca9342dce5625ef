//! Laws of trees of prefixes. No code calls these functions.
ghost use Rattle.std.specs.Prelude.{◌≡◌, ℕ, List, length, slice_index};
ghost use Rattle.xf_cells.specs.Words.{zeros};
ghost use Rattle.xf_trie.specs.Spares.{spare_of};
ghost use Rattle.xf_trie.specs.Pools.{IsPool, IsPrefixSet, Layout};
ghost use Rattle.xf_trie.specs.Empty.{IsEmpty};
ghost use Rattle.xf_trie.specs.Laws.{AddressLaws, FindLaws, ForestLaws, SizeLaws};

use crate::trie::Trie;

/// Words of zeros hold an empty tree, and all nodes are free: they stand for no prefix.
pub fn empty(trie: &Trie)
    ensures set { (size : ℕ) → Layout trie.now → IsPrefixSet trie.now (zeros size) }
    ensures tree { (image : List ℕ) → ((place : ℕ) → slice_index image place ≡ 0) → IsEmpty trie.now image }
{}

/// The count of free nodes is that of their list.
pub fn spares(trie: &Trie)
    ensures { (image free : List ℕ) → IsPool trie.now image free → spare_of trie.now image ≡ length free }
{}

/// How many nodes a tree has, and takes and gives back in a change.
pub fn sizes()
    ensures { SizeLaws }
{}

/// What is found after a change.
pub fn finds()
    ensures { FindLaws }
{}

/// Keys agree as addresses do.
pub fn addresses()
    ensures { AddressLaws }
{}

/// A change of one tree of a pool leaves the others.
pub fn forests(trie: &Trie)
    ensures { ForestLaws trie.now }
{}
