//! The state at a place in the order of adding.
ghost use Rattle.std.specs.Prelude.{◌≡◌, ℕ, ◌+◌, ◌<◌, ◌≤◌, List, slice_get};
ghost use Rattle.xf_types.specs.declared.state.Sa.{Sa};
ghost use Rattle.xf_types.specs.Machine.{Shown};
ghost use Rattle.xf_cells.specs.Words.{Narrows};
ghost use Rattle.xf_chain.specs.Chains.{Lies, Below, slots_of};
ghost use Rattle.xf_index.specs.Indexes.{slots_in};
ghost use Rattle.xf_sadidx.specs.Layout.{Fits};
ghost use Rattle.xf_sadimage.specs.States.{StatesStand};
ghost use Rattle.xf_sadfind.specs.Slots.{nth_slot};

use crate::finder::StateFinder;
use xf_cells::Load;
use xf_chain::{Chain, Walk};

/// The slot at a place of a chain.
fn nth_on<L: Load>(l: &mut L, chain: &Chain, place: u32) -> Option<u32>
    requires lies { Lies chain.now (L.size l.old) }
    ensures size { L.size l.new ≡ L.size l.old }
    ensures begun { L.begun l.new ≡ L.begun l.old }
    ensures rest { L.rest l.new ≡ L.rest l.old }
    ensures among { Narrows (L.agrees l.old) (L.agrees l.new) }
    ensures most { L.loads l.new ≤ L.loads l.old + 2 + chain.now.slots }
    ensures slot { Below chain.now.slots result }
    ensures answer { (image : List ℕ) → L.agrees l.new image → result ≡ nth_slot place (slots_of chain.now image) }
{
    let mut walk = Walk::start(chain, l);
    let mut left = place;
    'slots: while let Some(slot) = walk.step(chain, l) {
        if left == 0 {
            return Some(slot);
        }
        left -= 1;
    }
    None
}

impl StateFinder {
    /// The slot of the state at a place in the order of adding, from 0. None exactly past the end.
    pub fn nth<L: Load>(&self, l: &mut L, place: u32) -> Option<u32>
        requires fits { Fits self.now.area (L.size l.old) }
        ensures size { L.size l.new ≡ L.size l.old }
        ensures begun { L.begun l.new ≡ L.begun l.old }
        ensures rest { L.rest l.new ≡ L.rest l.old }
        ensures among { Narrows (L.agrees l.old) (L.agrees l.new) }
        ensures most { L.loads l.new ≤ L.loads l.old + 2 + self.now.area.slots }
        ensures slot { Below self.now.area.slots result }
        ensures state { (image : List ℕ) (s : Shown) (entries : List (ℕ × Sa)) → L.agrees l.new image → StatesStand self.now.area image s entries → result ≡ slice_get (slots_in entries) place }
    {
        let size = l.size();
        let chain = self.area.order().chain(0, size);
        nth_on(l, &chain, place)
    }
}
