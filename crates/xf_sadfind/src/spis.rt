//! The least SPI of a range that no state has.
ghost use Rattle.std.specs.Prelude.{◌≡◌, ℕ, ◌+◌, ◌-◌, ◌*◌, ◌^◌, ◌<◌, ◌≤◌, min, not, List, find};
ghost use Rattle.xf_types.specs.declared.state.Sa.{Sa};
ghost use Rattle.xf_types.specs.Counters.{upwards};
ghost use Rattle.xf_types.specs.Machine.{Shown};
ghost use Rattle.xf_types.specs.StateRules.{is_spi_taken, free_spi};
ghost use Rattle.xf_cells.specs.Words.{Narrows};
ghost use Rattle.xf_index.specs.Indexes.{records_in};
ghost use Rattle.xf_sadidx.specs.Layout.{Fits};
ghost use Rattle.xf_sadidx.specs.Standing.{StatesIndexed, RecordsStand};
ghost use Rattle.xf_sadimage.specs.States.{StatesStand};

use crate::finder::StateFinder;
use xf_cells::Load;
use xf_sadidx::SadIndex;
use xf_types::AllocSpec;

/// How many SPIs of a range are asked for: of one more than there are states one is free.
fn tries_for(spec: &AllocSpec, count: u32) -> u32
    requires { count ≤ 8192 }
    ensures is { result ≡ min (spec.now.max + 1 - spec.now.min) (count + 1) }
    ensures few { result ≤ count + 1 }
    ensures fits { spec.now.min + result ≤ 2 ^ 32 }
{
    if spec.max < spec.min {
        return 0;
    }
    let more = spec.max - spec.min;
    if more < count {
        return more + 1;
    }
    count + 1
}

impl StateFinder {
    /// Whether a state has an SPI, with the destination and protocol that are asked for.
    fn is_spi_taken<L: Load>(&self, l: &mut L, spec: &AllocSpec, spi: u32) -> bool
        requires fits { Fits self.now.area (L.size l.old) }
        ensures size { L.size l.new ≡ L.size l.old }
        ensures begun { L.begun l.new ≡ L.begun l.old }
        ensures rest { L.rest l.new ≡ L.rest l.old }
        ensures among { Narrows (L.agrees l.old) (L.agrees l.new) }
        ensures most { L.loads l.new ≤ L.loads l.old + 4 + 50 * self.now.area.slots }
        ensures state { (image : List ℕ) (entries : List (ℕ × Sa)) → L.agrees l.new image → StatesIndexed self.now.area image entries → RecordsStand self.now.area image entries → result ≡ is_spi_taken spec.now (records_in entries) spi }
    {
        let slot = (SadIndex { area: self.area }).by_number(l, &spec.dst, spec.proto, spi);
        slot.is_some()
    }

    /// The first SPI of the range that no state has, in so many tries.
    fn spi_among<L: Load>(&self, l: &mut L, spec: &AllocSpec, tries: u32) -> Option<u32>
        requires fits { Fits self.now.area (L.size l.old) }
        requires tries { spec.now.min + tries ≤ 2 ^ 32 }
        ensures size { L.size l.new ≡ L.size l.old }
        ensures begun { L.begun l.new ≡ L.begun l.old }
        ensures rest { L.rest l.new ≡ L.rest l.old }
        ensures among { Narrows (L.agrees l.old) (L.agrees l.new) }
        ensures most { L.loads l.new ≤ L.loads l.old + (4 + 50 * self.now.area.slots) * tries }
        ensures state { (image : List ℕ) (entries : List (ℕ × Sa)) → L.agrees l.new image → StatesIndexed self.now.area image entries → RecordsStand self.now.area image entries → result ≡ find (λ spi. not (is_spi_taken spec.now (records_in entries) spi)) (upwards spec.now.min tries) }
    {
        'numbers: for tried in 0..tries {
            let spi = spec.min + tried;
            if !self.is_spi_taken(l, spec, spi) {
                return Some(spi);
            }
        }
        None
    }

    /// The least SPI of the range that no state has, with the destination and protocol that are asked for. It asks for one SPI after
    /// another, of one more than there are states at most, and takes no memory.
    pub fn free_spi<L: Load>(&self, l: &mut L, spec: &AllocSpec) -> Option<u32>
        requires fits { Fits self.now.area (L.size l.old) }
        ensures size { L.size l.new ≡ L.size l.old }
        ensures begun { L.begun l.new ≡ L.begun l.old }
        ensures rest { L.rest l.new ≡ L.rest l.old }
        ensures among { Narrows (L.agrees l.old) (L.agrees l.new) }
        ensures most { L.loads l.new ≤ L.loads l.old + 1 + (4 + 50 * self.now.area.slots) * (self.now.area.slots + 1) }
        ensures state { (image : List ℕ) (s : Shown) (entries : List (ℕ × Sa)) → L.agrees l.new image → StatesStand self.now.area image s entries → result ≡ free_spi spec.now s.states }
    {
        let count = self.count(l);
        let tries = tries_for(spec, count);
        self.spi_among(l, spec, tries)
    }
}
