//! The index of a new policy.
ghost use Rattle.std.specs.Prelude.{◌≡◌, ℕ, ◌+◌, ◌-◌, ◌*◌, ◌^◌, ◌≤◌, ◌&&◌, ◌==◌, not, List};
ghost use Rattle.xf_types.specs.Counters.{next_in};
ghost use Rattle.xf_types.specs.PolicyRules.{last_index};
ghost use Rattle.xf_types.specs.Same.{dir_number};
ghost use Rattle.xf_cells.specs.Words.{Narrows};
ghost use Rattle.xf_inexact.specs.Whole.{WholeFits};
ghost use Rattle.xf_listing.specs.Header.{count_in};
ghost use Rattle.xf_listing.specs.Walks.{is_taken_in, free_in};
ghost use Rattle.xf_listing.specs.Calls.{choice_in};

use crate::entry::Choice;
use crate::index::next_number;
use crate::listing::Listing;
use xf_cells::Load;
use xf_types::{Dir, PolicySpec};

impl Listing {
    /// Whether the index that is asked for is given and free.
    fn is_given<L: Load>(&self, l: &mut L, index: u32) -> bool
        requires { WholeFits self.now.area (L.size l.old) }
        ensures size { L.size l.new ≡ L.size l.old }
        ensures begun { L.begun l.new ≡ L.begun l.old }
        ensures rest { L.rest l.new ≡ L.rest l.old }
        ensures among { Narrows (L.agrees l.old) (L.agrees l.new) }
        ensures answer { (image : List ℕ) → L.agrees l.new image → result ≡ (not (index == 0) && not (is_taken_in self.now.area image index)) }
    {
        index != 0 && !self.is_taken(l, index)
    }

    /// The first free number from the counter on.
    fn fresh_number<L: Load>(&self, l: &mut L, dir: Dir, from: u32) -> u32
        requires fits { WholeFits self.now.area (L.size l.old) }
        requires some { 1 ≤ from }
        requires most { from ≤ 2 ^ 29 - 1 }
        ensures size { L.size l.new ≡ L.size l.old }
        ensures begun { L.begun l.new ≡ L.begun l.old }
        ensures rest { L.rest l.new ≡ L.rest l.old }
        ensures among { Narrows (L.agrees l.old) (L.agrees l.new) }
        ensures some { 1 ≤ result }
        ensures most { result ≤ 2 ^ 29 - 1 }
        ensures answer { (image : List ℕ) → L.agrees l.new image → result ≡ free_in self.now.area image (dir_number dir) from (count_in self.now.area image) }
    {
        let count = self.count_word(l);
        self.free_number(l, dir.number(), from, count)
    }

    /// The index of a new policy, and the word of the counter behind it.
    pub fn chosen<L: Load>(&self, l: &mut L, spec: &PolicySpec) -> Choice
        requires { WholeFits self.now.area (L.size l.old) }
        ensures size { L.size l.new ≡ L.size l.old }
        ensures begun { L.begun l.new ≡ L.begun l.old }
        ensures rest { L.rest l.new ≡ L.rest l.old }
        ensures among { Narrows (L.agrees l.old) (L.agrees l.new) }
        ensures answer { (image : List ℕ) → L.agrees l.new image → result ≡ choice_in self.now.area image spec.now }
    {
        let next = self.index_word(l);
        if self.is_given(l, spec.index) {
            Choice {
                index: spec.index,
                word: next - 1,
            }
        } else {
            let number = self.fresh_number(l, spec.dir, next);
            Choice {
                index: 8 * number + spec.dir.number(),
                word: next_number(number) - 1,
            }
        }
    }
}
