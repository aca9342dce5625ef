//! The policy with an index, and the first index that no policy has.
ghost use Rattle.std.specs.Prelude.{◌≡◌, ℕ, ◌+◌, ◌*◌, ◌-◌, ◌^◌, ◌<◌, ◌≤◌, List};
ghost use Rattle.xf_cells.specs.Words.{Narrows};
ghost use Rattle.xf_chain.specs.Chains.{Below};
ghost use Rattle.xf_inexact.specs.Whole.{WholeFits};
ghost use Rattle.xf_types.specs.Counters.{next_in};
ghost use Rattle.xf_types.specs.PolicyRules.{last_index};
ghost use Rattle.xf_listing.specs.Walks.{slot_with, is_taken_in, free_in};

use crate::listing::Listing;
use xf_cells::Load;
use xf_exact::{Query, found};

/// The number after one, in cyclic order from 1.
pub(crate) fn next_number(number: u32) -> u32
    requires some { 1 ≤ number }
    requires most { number ≤ 2 ^ 29 - 1 }
    ensures is { result ≡ next_in last_index number }
    ensures some { 1 ≤ result }
    ensures most { result ≤ 2 ^ 29 - 1 }
{
    if number == 0x1fff_ffff { 1 } else { number + 1 }
}

impl Listing {
    /// The slot of the policy with an index.
    #[tactic(auto, using(crate::proofs::Wholes::list_fits))]
    pub(crate) fn slot_with<L: Load>(&self, l: &mut L, index: u32) -> Option<u32>
        requires { WholeFits self.now.area (L.size l.old) }
        ensures size { L.size l.new ≡ L.size l.old }
        ensures begun { L.begun l.new ≡ L.begun l.old }
        ensures rest { L.rest l.new ≡ L.rest l.old }
        ensures among { Narrows (L.agrees l.old) (L.agrees l.new) }
        ensures loads { L.loads l.new ≤ L.loads l.old + 2 + 16 * self.now.area.slots }
        ensures below { Below self.now.area.slots result }
        ensures answer { (image : List ℕ) → L.agrees l.new image → result ≡ slot_with self.now.area image index }
    {
        let size = l.size();
        let chain = self.indices(size).chain(index % 1024, size);
        found(&self.area, l, &chain, &Query::Index { index })
    }

    pub(crate) fn is_taken<L: Load>(&self, l: &mut L, index: u32) -> bool
        requires { WholeFits self.now.area (L.size l.old) }
        ensures size { L.size l.new ≡ L.size l.old }
        ensures begun { L.begun l.new ≡ L.begun l.old }
        ensures rest { L.rest l.new ≡ L.rest l.old }
        ensures among { Narrows (L.agrees l.old) (L.agrees l.new) }
        ensures answer { (image : List ℕ) → L.agrees l.new image → result ≡ is_taken_in self.now.area image index }
    {
        self.slot_with(l, index).is_some()
    }

    /// The first number from one on whose index is free, in at most so many steps.
    pub(crate) fn free_number<L: Load>(
        &self,
        l: &mut L,
        remainder: u32,
        from: u32,
        tries: u32,
    ) -> u32
        requires fits { WholeFits self.now.area (L.size l.old) }
        requires remainder { remainder < 8 }
        requires some { 1 ≤ from }
        requires most { from ≤ 2 ^ 29 - 1 }
        ensures size { L.size l.new ≡ L.size l.old }
        ensures begun { L.begun l.new ≡ L.begun l.old }
        ensures rest { L.rest l.new ≡ L.rest l.old }
        ensures among { Narrows (L.agrees l.old) (L.agrees l.new) }
        ensures some { 1 ≤ result }
        ensures most { result ≤ 2 ^ 29 - 1 }
        ensures answer { (image : List ℕ) → L.agrees l.new image → result ≡ free_in self.now.area image remainder from tries }
    {
        let mut number = from;
        let mut left = tries;
        'numbers: while left > 0 {
            if !self.is_taken(l, 8 * number + remainder) {
                return number;
            }
            number = next_number(number);
            left -= 1;
        }
        number
    }
}
