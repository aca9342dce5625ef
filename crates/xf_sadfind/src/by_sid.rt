//! The state with a state id.
ghost use Rattle.std.specs.Prelude.{◌≡◌, ℕ, ◌+◌, ◌*◌, ◌<◌, ◌≤◌, List, find};
ghost use Rattle.xf_types.specs.declared.state.Sa.{Sa};
ghost use Rattle.xf_types.specs.Machine.{Shown};
ghost use Rattle.xf_types.specs.StateList.{has_sid};
ghost use Rattle.xf_cells.specs.Words.{Narrows};
ghost use Rattle.xf_chain.specs.Chains.{Lies, Below, slots_of};
ghost use Rattle.xf_index.specs.Finds.{found_in, slot_found};
ghost use Rattle.xf_sadidx.specs.Layout.{Fits};
ghost use Rattle.xf_sadimage.specs.States.{StatesStand};
ghost use Rattle.xf_sadfind.specs.Slots.{has_sid_in};

use crate::finder::StateFinder;
use xf_asked::sid_at;
use xf_cells::Load;
use xf_chain::{Chain, Walk};

impl StateFinder {
    /// Whether the words of a slot have a state id.
    pub(crate) fn has_sid<L: Load>(&self, l: &mut L, slot: u32, sid: u64) -> bool
        requires fits { Fits self.now.area (L.size l.old) }
        requires slot { slot < self.now.area.slots }
        ensures size { L.size l.new ≡ L.size l.old }
        ensures begun { L.begun l.new ≡ L.begun l.old }
        ensures rest { L.rest l.new ≡ L.rest l.old }
        ensures among { Narrows (L.agrees l.old) (L.agrees l.new) }
        ensures loads { L.loads l.new ≤ L.loads l.old + 1 }
        ensures answer { (image : List ℕ) → L.agrees l.new image → result ≡ has_sid_in self.now.area image sid slot }
    {
        sid_at(l, self.area.record_place(slot)) == sid
    }

    /// The first slot of a chain whose words have a state id.
    fn sid_on<L: Load>(&self, l: &mut L, chain: &Chain, sid: u64) -> Option<u32>
        requires fits { Fits self.now.area (L.size l.old) }
        requires lies { Lies chain.now (L.size l.old) }
        requires slots { chain.now.slots ≡ self.now.area.slots }
        ensures size { L.size l.new ≡ L.size l.old }
        ensures begun { L.begun l.new ≡ L.begun l.old }
        ensures rest { L.rest l.new ≡ L.rest l.old }
        ensures among { Narrows (L.agrees l.old) (L.agrees l.new) }
        ensures most { L.loads l.new ≤ L.loads l.old + 2 + 2 * self.now.area.slots }
        ensures slot { Below self.now.area.slots result }
        ensures answer { (image : List ℕ) → L.agrees l.new image → result ≡ find (has_sid_in self.now.area image sid) (slots_of chain.now image) }
    {
        let mut walk = Walk::start(chain, l);
        'slots: while let Some(slot) = walk.step(chain, l) {
            if self.has_sid(l, slot, sid) {
                return Some(slot);
            }
        }
        None
    }

    /// The slot of the state with a state id. The walk loads two words of each state before it.
    pub fn by_sid<L: Load>(&self, l: &mut L, sid: u64) -> Option<u32>
        requires fits { Fits self.now.area (L.size l.old) }
        ensures size { L.size l.new ≡ L.size l.old }
        ensures begun { L.begun l.new ≡ L.begun l.old }
        ensures rest { L.rest l.new ≡ L.rest l.old }
        ensures among { Narrows (L.agrees l.old) (L.agrees l.new) }
        ensures most { L.loads l.new ≤ L.loads l.old + 2 + 2 * self.now.area.slots }
        ensures slot { Below self.now.area.slots result }
        ensures state { (image : List ℕ) (s : Shown) (entries : List (ℕ × Sa)) → L.agrees l.new image → StatesStand self.now.area image s entries → result ≡ slot_found (found_in (has_sid sid) entries) }
    {
        let size = l.size();
        let chain = self.area.order().chain(0, size);
        self.sid_on(l, &chain, sid)
    }
}
