ghost use Rattle.std.specs.Prelude.{◌≡◌, ℕ, ◌+◌, ◌<◌, ◌≤◌, List, Option};
ghost use Rattle.xf_cells.specs.Words.{Narrows};

use xf_cells::Load;

/// What slots stand in chains by: the hash of each, where it has one.
pub trait Keys {
    /// The key of a slot in these words.
    ghost key: { Self → List ℕ → ℕ → Option ℕ };

    /// How many slots there are.
    ghost slots: { Self → ℕ };

    /// The words that a key rests on lie in so many.
    ghost lies: { Self → ℕ → Type 0 };

    /// How many loads a key costs at most.
    ghost cost: { Self → ℕ };

    /// The key of a slot.
    fn key_at<L: Load>(&self, l: &mut L, slot: u32) -> Option<u64>
        requires lies { lies self.now (L.size l.old) }
        requires slot { slot < slots self.now }
        ensures size { L.size l.new ≡ L.size l.old }
        ensures begun { L.begun l.new ≡ L.begun l.old }
        ensures rest { L.rest l.new ≡ L.rest l.old }
        ensures among { Narrows (L.agrees l.old) (L.agrees l.new) }
        ensures loads { L.loads l.new ≤ L.loads l.old + cost self.now }
        ensures answer { (image : List ℕ) → L.agrees l.new image → result ≡ key self.now image slot };
}
