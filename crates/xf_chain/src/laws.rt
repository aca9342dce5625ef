ghost use Rattle.std.specs.Prelude.{◌≡◌, ℕ, ◌<◌, List, [], ◌∷◌, ◌++◌, None, length, slice_index};
ghost use Rattle.xf_chain.specs.Chains.{slots_of, place_of, first_in, next_in};
ghost use Rattle.xf_chain.specs.Lists.{IsChain, first_of, last_of};
ghost use Rattle.xf_chain.specs.Families.{chain_at, Lays, last_while, is_other, emptied};

use crate::chain::Chain;
use crate::family::Family;

/// A walk passes just the slots of the chain. The head names the first, the link of a slot the one after it, and the walk to a slot ends
/// at the one before it. A chain none of whose words was written stays.
pub fn law(chain: &Chain)
    ensures walk { (image slots : List ℕ) → IsChain chain.now image slots → slots_of chain.now image ≡ slots }
    ensures first { (image slots : List ℕ) → IsChain chain.now image slots → first_in chain.now image ≡ first_of slots }
    ensures next { (image front back : List ℕ) (slot : ℕ) → IsChain chain.now image (front ++ (slot ∷ back)) → next_in chain.now image slot ≡ first_of back }
    ensures before { (image front back : List ℕ) (slot : ℕ) → IsChain chain.now image (front ++ (slot ∷ back)) → last_while (is_other slot) None (slots_of chain.now image) ≡ last_of front }
    ensures stays { (image words slots : List ℕ) → slice_index words chain.now.head ≡ slice_index image chain.now.head → ((slot : ℕ) → slot < chain.now.slots → slice_index words (place_of chain.now slot) ≡ slice_index image (place_of chain.now slot)) → IsChain chain.now image slots → IsChain chain.now words slots }
{}

/// A family that was emptied has empty chains.
pub fn families(family: &Family)
    ensures { (image : List ℕ) (number : ℕ) → Lays family.now (length image) → number < family.now.count → IsChain (chain_at family.now number) (emptied family.now.heads family.now.count image) [] }
{}
