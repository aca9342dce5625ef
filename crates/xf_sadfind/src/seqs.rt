//! The first sequence number that no state has.
ghost use Rattle.std.specs.Prelude.{◌≡◌, ℕ, ◌+◌, ◌*◌, ◌<◌, ◌≤◌, List};
ghost use Rattle.std.specs.List.{list_any};
ghost use Rattle.xf_types.specs.declared.state.Sa.{Sa};
ghost use Rattle.xf_types.specs.Counters.{next_in, first_free};
ghost use Rattle.xf_types.specs.FlowRules.{last_seq, free_seq};
ghost use Rattle.xf_types.specs.IsMachine.{IsInRange};
ghost use Rattle.xf_types.specs.Machine.{Shown};
ghost use Rattle.xf_cells.specs.Words.{Narrows};
ghost use Rattle.xf_index.specs.Indexes.{records_in};
ghost use Rattle.xf_sadidx.specs.Layout.{Fits};
ghost use Rattle.xf_sadidx.specs.Queries.{has_seq};
ghost use Rattle.xf_sadidx.specs.Standing.{StatesIndexed, RecordsStand};
ghost use Rattle.xf_sadimage.specs.States.{StatesStand};

use crate::finder::StateFinder;
use xf_cells::Load;
use xf_sadidx::SadIndex;

/// The sequence number after one, in cyclic order from 1.
fn next_seq(seq: u32) -> u32
    ensures is { result ≡ next_in last_seq seq }
    ensures some { 1 ≤ result }
{
    if seq == u32::MAX { 1 } else { seq + 1 }
}

impl StateFinder {
    /// Whether a state has a sequence number.
    fn is_seq_taken<L: Load>(&self, l: &mut L, seq: u32) -> bool
        requires fits { Fits self.now.area (L.size l.old) }
        requires seq { 1 ≤ seq }
        ensures size { L.size l.new ≡ L.size l.old }
        ensures begun { L.begun l.new ≡ L.begun l.old }
        ensures rest { L.rest l.new ≡ L.rest l.old }
        ensures among { Narrows (L.agrees l.old) (L.agrees l.new) }
        ensures most { L.loads l.new ≤ L.loads l.old + 4 + 50 * self.now.area.slots }
        ensures state { (image : List ℕ) (entries : List (ℕ × Sa)) → L.agrees l.new image → StatesIndexed self.now.area image entries → RecordsStand self.now.area image entries → result ≡ list_any (has_seq seq) (records_in entries) }
    {
        let slot = (SadIndex { area: self.area }).by_seq(l, seq);
        slot.is_some()
    }

    /// The first sequence number from one on that no state has, in at most so many tries.
    fn seq_from<L: Load>(&self, l: &mut L, from: u32, tries: u32) -> u32
        requires fits { Fits self.now.area (L.size l.old) }
        requires from { 1 ≤ from }
        ensures size { L.size l.new ≡ L.size l.old }
        ensures begun { L.begun l.new ≡ L.begun l.old }
        ensures rest { L.rest l.new ≡ L.rest l.old }
        ensures among { Narrows (L.agrees l.old) (L.agrees l.new) }
        ensures most { L.loads l.new ≤ L.loads l.old + (4 + 50 * self.now.area.slots) * tries }
        ensures some { 1 ≤ result }
        ensures state { (image : List ℕ) (entries : List (ℕ × Sa)) → L.agrees l.new image → StatesIndexed self.now.area image entries → RecordsStand self.now.area image entries → result ≡ first_free (λ seq. list_any (has_seq seq) (records_in entries)) last_seq from tries }
    {
        let mut seq = from;
        'numbers: for _tried in 0..tries {
            if !self.is_seq_taken(l, seq) {
                return seq;
            }
            seq = next_seq(seq);
        }
        seq
    }

    /// The first sequence number that no state has, in cyclic order from the acquire counter.
    pub fn free_seq<L: Load>(&self, l: &mut L) -> u32
        requires fits { Fits self.now.area (L.size l.old) }
        ensures size { L.size l.new ≡ L.size l.old }
        ensures begun { L.begun l.new ≡ L.begun l.old }
        ensures rest { L.rest l.new ≡ L.rest l.old }
        ensures among { Narrows (L.agrees l.old) (L.agrees l.new) }
        ensures most { L.loads l.new ≤ L.loads l.old + 2 + (4 + 50 * self.now.area.slots) * self.now.area.slots }
        ensures some { 1 ≤ result }
        ensures state { (image : List ℕ) (s : Shown) (entries : List (ℕ × Sa)) → L.agrees l.new image → IsInRange s → StatesStand self.now.area image s entries → result ≡ free_seq s }
    {
        let from = self.next_seq(l);
        let tries = self.count(l);
        self.seq_from(l, from, tries)
    }
}
