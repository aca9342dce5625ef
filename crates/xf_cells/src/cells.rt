//! Words, each of 64 bits and at a place of its own, counted from 0.
ghost use Rattle.std.specs.Prelude.{◌≡◌, ℕ, ◌<◌, Bool, true, List, slice_index, slice_set, length};
ghost use Rattle.xf_cells.specs.Words.{next_count, Narrows};

/// Words that can be loaded. They need not stand still between two loads: what a load answers holds of each list of words, an
/// image, that agrees with all that was loaded.
pub trait Load {
    /// How many words there are.
    ghost size: { Self → ℕ };

    /// How often a word was loaded. The count stops at the end of its type.
    ghost loads: { Self → ℕ };

    /// Whether words may be stored. A `Load` alone can't store, but what is stored into it goes through it.
    ghost begun: { Self → Bool };

    ghost Rest: { Type 0 };

    /// All that is beside the words, which no call on words changes.
    ghost rest: { Self → Rest };

    /// Which images agree with what was loaded.
    ghost agrees: { Self → List ℕ → Type 0 };

    /// How many words there are.
    fn size(&self) -> u32
        ensures { result ≡ size self.now };

    /// The word at a place.
    fn load(&mut self, place: u32) -> u64
        requires { place < size self.old }
        ensures size { size self.new ≡ size self.old }
        ensures begun { begun self.new ≡ begun self.old }
        ensures rest { rest self.new ≡ rest self.old }
        ensures loads { loads self.new ≡ next_count (loads self.old) }
        ensures among { Narrows (agrees self.old) (agrees self.new) }
        ensures word { (image : List ℕ) → agrees self.new image → result ≡ slice_index image place };
}

/// Words that can be stored as well. They stand still but for these stores, so one image alone agrees.
pub trait Cells: Load {
    ghost words: { Self → List ℕ };

    /// Allows stores, where they weren't allowed.
    fn begin(&mut self)
        ensures size { Self.size self.new ≡ Self.size self.old }
        ensures begun { Self.begun self.new ≡ true }
        ensures rest { Self.rest self.new ≡ Self.rest self.old }
        ensures loads { Self.loads self.new ≡ Self.loads self.old }
        ensures words { words self.new ≡ words self.old }
        ensures again { Self.begun self.old ≡ true → self.new ≡ self.old };

    /// Replaces the word at a place.
    fn store(&mut self, place: u32, value: u64)
        requires begun { Self.begun self.old ≡ true }
        requires place { place < Self.size self.old }
        ensures size { Self.size self.new ≡ Self.size self.old }
        ensures begun { Self.begun self.new ≡ true }
        ensures rest { Self.rest self.new ≡ Self.rest self.old }
        ensures loads { Self.loads self.new ≡ Self.loads self.old }
        ensures words { words self.new ≡ slice_set (words self.old) place value };

    ghost own: { (cells : Self) → Self.agrees cells (words cells) };

    ghost only: { (cells : Self) (image : List ℕ) → Self.agrees cells image → image ≡ words cells };

    ghost all: { (cells : Self) → length (words cells) ≡ Self.size cells };
}

/// The word at a place of words that stand still.
pub fn read<C: Cells>(cells: &mut C, place: u32) -> u64
    requires { place < C.size cells.old }
    ensures size { C.size cells.new ≡ C.size cells.old }
    ensures begun { C.begun cells.new ≡ C.begun cells.old }
    ensures rest { C.rest cells.new ≡ C.rest cells.old }
    ensures words { C.words cells.new ≡ C.words cells.old }
    ensures word { result ≡ slice_index (C.words cells.old) place }
{
    cells.load(place)
}
