//! Several words from a place on.
ghost use Rattle.std.specs.Prelude.{◌≡◌, ℕ, ◌+◌, ◌<◌, ◌≤◌, ◌^◌, Bool, true, List, length};
ghost use Rattle.std.specs.Str.{bytes_eq};
ghost use Rattle.xf_cells.specs.Words.{Narrows};
ghost use Rattle.xf_records.specs.Blocks.{fetched, stored};

use xf_cells::{Cells, Load};

/// Loads as many words as there are, from a place on.
pub fn load_all<L: Load>(cells: &mut L, at: u32, words: &mut [u64])
    requires lies { at + length words.old ≤ L.size cells.old }
    requires fits { at + length words.old < 2 ^ 32 }
    ensures size { L.size cells.new ≡ L.size cells.old }
    ensures begun { L.begun cells.new ≡ L.begun cells.old }
    ensures rest { L.rest cells.new ≡ L.rest cells.old }
    ensures among { Narrows (L.agrees cells.old) (L.agrees cells.new) }
    ensures loads { L.loads cells.new ≤ L.loads cells.old + length words.old }
    ensures words { (image : List ℕ) → L.agrees cells.new image → words.new ≡ fetched image at words.old }
{
    let mut place = at;
    'words: for word in words.iter_mut() {
        *word = cells.load(place);
        place += 1;
    }
}

/// Stores words from a place on.
pub fn store_all<C: Cells>(cells: &mut C, at: u32, words: &[u64])
    requires begun { C.begun cells.old ≡ true }
    requires lies { at + length words.now ≤ C.size cells.old }
    requires fits { at + length words.now < 2 ^ 32 }
    ensures size { C.size cells.new ≡ C.size cells.old }
    ensures begun { C.begun cells.new ≡ true }
    ensures rest { C.rest cells.new ≡ C.rest cells.old }
    ensures loads { C.loads cells.new ≡ C.loads cells.old }
    ensures words { C.words cells.new ≡ stored (C.words cells.old) at words.now }
{
    let mut place = at;
    'words: for word in words {
        cells.store(place, *word);
        place += 1;
    }
}

/// Whether the two rows of words are equal.
pub(crate) fn same_words(a: &[u64], b: &[u64]) -> bool
    ensures { result ≡ bytes_eq a.now b.now }
{
    a == b
}
