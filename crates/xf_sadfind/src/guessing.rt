//! The state with a state id, by a guess at its slot.
ghost use Rattle.std.specs.Prelude.{◌≡◌, ℕ, ◌+◌, ◌*◌, ◌<◌, ◌≤◌, ◌==◌, true, List, Some};
ghost use Rattle.std.specs.List.{list_any};
ghost use Rattle.xf_types.specs.declared.state.Sa.{Sa};
ghost use Rattle.xf_types.specs.IsMachine.{IsStateList};
ghost use Rattle.xf_types.specs.Machine.{Shown};
ghost use Rattle.xf_types.specs.StateList.{has_sid};
ghost use Rattle.xf_cells.specs.Words.{Narrows};
ghost use Rattle.xf_chain.specs.Chains.{Lies, Below, slots_of};
ghost use Rattle.xf_index.specs.Finds.{found_in, slot_found};
ghost use Rattle.xf_index.specs.Indexes.{slots_in};
ghost use Rattle.xf_sadidx.specs.Layout.{Fits};
ghost use Rattle.xf_sadidx.specs.Standing.{StatesIndexed};
ghost use Rattle.xf_sadimage.specs.States.{StatesStand};

use crate::finder::StateFinder;
use xf_cells::Load;
use xf_chain::{Chain, Walk};
use xf_doubling::Keys;
use xf_sadidx::{Kind, StateKeys, whole_chain};

/// Whether a chain passes a slot.
fn passes<L: Load>(l: &mut L, chain: &Chain, slot: u32) -> bool
    requires lies { Lies chain.now (L.size l.old) }
    ensures size { L.size l.new ≡ L.size l.old }
    ensures begun { L.begun l.new ≡ L.begun l.old }
    ensures rest { L.rest l.new ≡ L.rest l.old }
    ensures among { Narrows (L.agrees l.old) (L.agrees l.new) }
    ensures most { L.loads l.new ≤ L.loads l.old + 2 + chain.now.slots }
    ensures answer { (image : List ℕ) → L.agrees l.new image → result ≡ list_any (λ other. other == slot) (slots_of chain.now image) }
{
    let mut walk = Walk::start(chain, l);
    'slots: while let Some(other) = walk.step(chain, l) {
        if other == slot {
            return true;
        }
    }
    false
}

impl StateFinder {
    /// Whether a slot stands in the chain of the SPI, destination and protocol that its words tell.
    fn is_chained<L: Load>(&self, l: &mut L, slot: u32) -> bool
        requires fits { Fits self.now.area (L.size l.old) }
        requires slot { slot < self.now.area.slots }
        ensures size { L.size l.new ≡ L.size l.old }
        ensures begun { L.begun l.new ≡ L.begun l.old }
        ensures rest { L.rest l.new ≡ L.rest l.old }
        ensures among { Narrows (L.agrees l.old) (L.agrees l.new) }
        ensures most { L.loads l.new ≤ L.loads l.old + 9 + self.now.area.slots }
        ensures state { (image : List ℕ) (entries : List (ℕ × Sa)) → L.agrees l.new image → StatesIndexed self.now.area image entries → result ≡ true → list_any (λ other. other == slot) (slots_in entries) ≡ true }
    {
        let keys = StateKeys {
            area: self.area,
            kind: Kind::Spi,
        };
        match keys.key_at(l, slot) {
            None => false,
            Some(hash) => {
                let chain = whole_chain(&self.area, l, Kind::Spi, hash);
                passes(l, &chain, slot)
            }
        }
    }

    /// Whether the state with a state id is listed in a slot. It walks along the chain of one hash alone.
    pub fn holds<L: Load>(&self, l: &mut L, slot: u32, sid: u64) -> bool
        requires fits { Fits self.now.area (L.size l.old) }
        requires slot { slot < self.now.area.slots }
        ensures size { L.size l.new ≡ L.size l.old }
        ensures begun { L.begun l.new ≡ L.begun l.old }
        ensures rest { L.rest l.new ≡ L.rest l.old }
        ensures among { Narrows (L.agrees l.old) (L.agrees l.new) }
        ensures most { L.loads l.new ≤ L.loads l.old + 10 + self.now.area.slots }
        ensures state { (image : List ℕ) (s : Shown) (entries : List (ℕ × Sa)) → L.agrees l.new image → IsStateList s → StatesStand self.now.area image s entries → result ≡ true → slot_found (found_in (has_sid sid) entries) ≡ Some slot }
    {
        if !self.has_sid(l, slot, sid) {
            return false;
        }
        self.is_chained(l, slot)
    }

    /// Whether a guess at the slot of the state with a state id is right.
    fn is_right<L: Load>(&self, l: &mut L, guess: Option<u32>, sid: u64) -> bool
        requires fits { Fits self.now.area (L.size l.old) }
        requires guess { Below self.now.area.slots guess }
        ensures size { L.size l.new ≡ L.size l.old }
        ensures begun { L.begun l.new ≡ L.begun l.old }
        ensures rest { L.rest l.new ≡ L.rest l.old }
        ensures among { Narrows (L.agrees l.old) (L.agrees l.new) }
        ensures most { L.loads l.new ≤ L.loads l.old + 10 + self.now.area.slots }
        ensures state { (image : List ℕ) (s : Shown) (entries : List (ℕ × Sa)) → L.agrees l.new image → IsStateList s → StatesStand self.now.area image s entries → result ≡ true → slot_found (found_in (has_sid sid) entries) ≡ guess }
    {
        match guess {
            None => false,
            Some(slot) => self.holds(l, slot, sid),
        }
    }

    /// The slot of the state with a state id. A right guess at it saves the walk along all.
    pub fn by_sid_near<L: Load>(&self, l: &mut L, sid: u64, guess: Option<u32>) -> Option<u32>
        requires fits { Fits self.now.area (L.size l.old) }
        requires guess { Below self.now.area.slots guess }
        ensures size { L.size l.new ≡ L.size l.old }
        ensures begun { L.begun l.new ≡ L.begun l.old }
        ensures rest { L.rest l.new ≡ L.rest l.old }
        ensures among { Narrows (L.agrees l.old) (L.agrees l.new) }
        ensures most { L.loads l.new ≤ L.loads l.old + 12 + 3 * self.now.area.slots }
        ensures slot { Below self.now.area.slots result }
        ensures state { (image : List ℕ) (s : Shown) (entries : List (ℕ × Sa)) → L.agrees l.new image → IsStateList s → StatesStand self.now.area image s entries → result ≡ slot_found (found_in (has_sid sid) entries) }
    {
        if self.is_right(l, guess, sid) {
            return guess;
        }
        self.by_sid(l, sid)
    }
}
