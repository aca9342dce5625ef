//! What the calls read first.
ghost use Rattle.std.specs.Prelude.{◌≡◌, ℕ, ◌+◌, ◌<◌, ◌≤◌, List, length};
ghost use Rattle.xf_types.specs.declared.state.Sa.{Sa};
ghost use Rattle.xf_types.specs.IsMachine.{IsInRange};
ghost use Rattle.xf_types.specs.Machine.{Shown};
ghost use Rattle.xf_cells.specs.Words.{Narrows};
ghost use Rattle.xf_sadidx.specs.Layout.{Fits, record_at};
ghost use Rattle.xf_sadimage.specs.States.{StatesStand};

use xf_cells::Load;
use xf_records::get_state;
use xf_sadidx::StateArea;
use xf_types::Sa;

/// What is found in the words of the states. No call stores a word.
#[derive(Clone, Copy, Debug, PartialEq, Eq)]
pub struct StateFinder {
    pub area: StateArea,
}

impl StateFinder {
    /// How many states are listed.
    pub(crate) fn count<L: Load>(&self, l: &mut L) -> u32
        requires fits { Fits self.now.area (L.size l.old) }
        ensures size { L.size l.new ≡ L.size l.old }
        ensures begun { L.begun l.new ≡ L.begun l.old }
        ensures rest { L.rest l.new ≡ L.rest l.old }
        ensures among { Narrows (L.agrees l.old) (L.agrees l.new) }
        ensures loads { L.loads l.new ≤ L.loads l.old + 1 }
        ensures most { result ≤ self.now.area.slots }
        ensures state { (image : List ℕ) (s : Shown) (entries : List (ℕ × Sa)) → L.agrees l.new image → StatesStand self.now.area image s entries → result ≡ length s.states }
    {
        let word = l.load(self.area.count_place());
        if word < u64::from(self.area.slots) {
            return word as u32;
        }
        self.area.slots
    }

    /// The acquire counter.
    pub(crate) fn next_seq<L: Load>(&self, l: &mut L) -> u32
        requires fits { Fits self.now.area (L.size l.old) }
        ensures size { L.size l.new ≡ L.size l.old }
        ensures begun { L.begun l.new ≡ L.begun l.old }
        ensures rest { L.rest l.new ≡ L.rest l.old }
        ensures among { Narrows (L.agrees l.old) (L.agrees l.new) }
        ensures loads { L.loads l.new ≤ L.loads l.old + 1 }
        ensures some { 1 ≤ result }
        ensures state { (image : List ℕ) (s : Shown) (entries : List (ℕ × Sa)) → L.agrees l.new image → IsInRange s → StatesStand self.now.area image s entries → result ≡ s.next_seq }
    {
        let word = l.load(self.area.next_seq_place());
        if word < 0xffff_ffff {
            return word as u32 + 1;
        }
        1
    }

    /// The state in a slot.
    pub(crate) fn state<L: Load>(&self, l: &mut L, slot: u32) -> Option<Sa>
        requires fits { Fits self.now.area (L.size l.old) }
        requires slot { slot < self.now.area.slots }
        ensures size { L.size l.new ≡ L.size l.old }
        ensures begun { L.begun l.new ≡ L.begun l.old }
        ensures rest { L.rest l.new ≡ L.rest l.old }
        ensures among { Narrows (L.agrees l.old) (L.agrees l.new) }
        ensures loads { L.loads l.new ≤ L.loads l.old + 46 }
        ensures answer { (image : List ℕ) → L.agrees l.new image → result ≡ record_at self.now.area image slot }
    {
        get_state(l, self.area.record_place(slot))
    }
}
