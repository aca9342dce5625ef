//! What the first words tell.
ghost use Rattle.std.specs.Prelude.{◌≡◌, ◌*◌, ℕ, ◌+◌, ◌-◌, ◌<◌, ◌≤◌, ◌^◌, min, List, Some, slice_index};
ghost use Rattle.xf_cells.specs.Words.{Narrows};
ghost use Rattle.xf_image.specs.Layout.{thresholds_place};
ghost use Rattle.xf_inexact.specs.Whole.{WholeFits};
ghost use Rattle.xf_image.specs.Readings.{next_index_in, next_number_in, hthresh4_in, hthresh6_in};
ghost use Rattle.xf_listing.specs.Header.{count_in};

use crate::listing::Listing;
use xf_cells::Load;
use xf_types::Thresholds;

/// The number, or the greatest one where it is greater.
fn at_most(word: u64, most: u32) -> u32
    ensures is { result ≡ min word most }
    ensures most { result ≤ most }
{
    if word < u64::from(most) {
        word as u32
    } else {
        most
    }
}

/// What a word lacks to a length.
fn lacking(most: u8, word: u64) -> u8
    ensures is { result ≡ most - word }
    ensures most { result ≤ most }
{
    if word <= u64::from(most) {
        most - word as u8
    } else {
        0
    }
}

impl Listing {
    /// The index counter.
    #[tactic(auto, using(crate::proofs::Wholes::list_fits))]
    pub fn index_word<L: Load>(&self, l: &mut L) -> u32
        requires { WholeFits self.now.area (L.size l.old) }
        ensures size { L.size l.new ≡ L.size l.old }
        ensures begun { L.begun l.new ≡ L.begun l.old }
        ensures rest { L.rest l.new ≡ L.rest l.old }
        ensures among { Narrows (L.agrees l.old) (L.agrees l.new) }
        ensures loads { L.loads l.new ≤ L.loads l.old + 1 }
        ensures some { 1 ≤ result }
        ensures most { result ≤ 2 ^ 29 - 1 }
        ensures answer { (image : List ℕ) → L.agrees l.new image → result ≡ next_index_in self.now.area image }
    {
        let word = l.load(self.area.next_index_place());
        at_most(word, 0x1fff_fffe) + 1
    }

    /// The number of the next policy.
    #[tactic(auto, using(crate::proofs::Wholes::list_fits))]
    pub fn number_word<L: Load>(&self, l: &mut L) -> u64
        requires { WholeFits self.now.area (L.size l.old) }
        ensures size { L.size l.new ≡ L.size l.old }
        ensures begun { L.begun l.new ≡ L.begun l.old }
        ensures rest { L.rest l.new ≡ L.rest l.old }
        ensures among { Narrows (L.agrees l.old) (L.agrees l.new) }
        ensures loads { L.loads l.new ≤ L.loads l.old + 1 }
        ensures answer { (image : List ℕ) → L.agrees l.new image → result ≡ next_number_in self.now.area image }
    {
        l.load(self.area.next_number_place()).saturating_add(1)
    }

    pub(crate) fn lengths<L: Load>(&self, l: &mut L, at: u32, most: u8) -> (u8, u8)
        requires lies { at + 1 < L.size l.old }
        requires fits { at + 1 < 2 ^ 32 }
        ensures size { L.size l.new ≡ L.size l.old }
        ensures begun { L.begun l.new ≡ L.begun l.old }
        ensures rest { L.rest l.new ≡ L.rest l.old }
        ensures among { Narrows (L.agrees l.old) (L.agrees l.new) }
        ensures loads { L.loads l.new ≤ L.loads l.old + 2 }
        ensures local { result.0 ≤ most }
        ensures remote { result.1 ≤ most }
        ensures answer { (image : List ℕ) → L.agrees l.new image → result ≡ (most - slice_index image at, most - slice_index image (at + 1)) }
    {
        let local = l.load(at);
        let remote = l.load(at + 1);
        (lacking(most, local), lacking(most, remote))
    }

    /// The thresholds of both families.
    #[tactic(auto, using(crate::proofs::Wholes::list_fits))]
    pub fn threshold_words<L: Load>(&self, l: &mut L) -> Thresholds
        requires { WholeFits self.now.area (L.size l.old) }
        ensures size { L.size l.new ≡ L.size l.old }
        ensures begun { L.begun l.new ≡ L.begun l.old }
        ensures rest { L.rest l.new ≡ L.rest l.old }
        ensures among { Narrows (L.agrees l.old) (L.agrees l.new) }
        ensures loads { L.loads l.new ≤ L.loads l.old + 4 }
        ensures v4 { (image : List ℕ) → L.agrees l.new image → result.v4 ≡ Some (hthresh4_in self.now.area image) }
        ensures v6 { (image : List ℕ) → L.agrees l.new image → result.v6 ≡ Some (hthresh6_in self.now.area image) }
    {
        let v4 = self.lengths(l, self.area.thresholds_place(), 32);
        let v6 = self.lengths(l, self.area.thresholds_place() + 2, 128);
        Thresholds {
            v4: Some(v4),
            v6: Some(v6),
        }
    }

    /// How many policies are listed.
    #[tactic(auto, using(crate::proofs::Wholes::list_fits))]
    pub fn count_word<L: Load>(&self, l: &mut L) -> u32
        requires { WholeFits self.now.area (L.size l.old) }
        ensures size { L.size l.new ≡ L.size l.old }
        ensures begun { L.begun l.new ≡ L.begun l.old }
        ensures rest { L.rest l.new ≡ L.rest l.old }
        ensures among { Narrows (L.agrees l.old) (L.agrees l.new) }
        ensures loads { L.loads l.new ≤ L.loads l.old + 1 }
        ensures most { result ≤ self.now.area.slots }
        ensures answer { (image : List ℕ) → L.agrees l.new image → result ≡ count_in self.now.area image }
    {
        let word = l.load(self.area.count_place());
        at_most(word, self.area.slots)
    }
}
