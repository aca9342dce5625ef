//! What walks find: a state by its place or its state id, and the states that a flow goes through.
ghost use Rattle.std.specs.Prelude.{◌≡◌, ℕ, ◌+◌, ◌*◌, ◌≤◌, List, slice_get};
ghost use Rattle.xf_types.specs.declared.state.Sa.{Sa};
ghost use Rattle.xf_types.specs.FlowRules.{resolved};
ghost use Rattle.xf_types.specs.Machine.{Shown};
ghost use Rattle.xf_types.specs.StateList.{has_sid};
ghost use Rattle.xf_cells.specs.Words.{Narrows};
ghost use Rattle.xf_chain.specs.Chains.{Below};
ghost use Rattle.xf_index.specs.Finds.{found_in, slot_found};
ghost use Rattle.xf_index.specs.Indexes.{slots_in};
ghost use Rattle.xf_sadidx.specs.Layout.{Fits};
ghost use Rattle.xf_sadimage.specs.States.{StatesStand};
ghost use Rattle.xf_sadfind.specs.Paths.{IsResolved, IsWithin};
ghost use Rattle.xf_sadfind.specs.Tried.{policy_met};

use crate::sad::Sad;
use xf_cells::Load;
use xf_sadfind::{Resolved, StateFinder};
use xf_types::{Flow, Policy};

impl Sad {
    /// The slot of the state at a place in the order of adding, from 0. None exactly past the end.
    pub fn nth<L: Load>(&self, l: &mut L, place: u32) -> Option<u32>
        requires fits { Fits self.now.area (L.size l.old) }
        ensures size { L.size l.new ≡ L.size l.old }
        ensures begun { L.begun l.new ≡ L.begun l.old }
        ensures rest { L.rest l.new ≡ L.rest l.old }
        ensures among { Narrows (L.agrees l.old) (L.agrees l.new) }
        ensures most { L.loads l.new ≤ L.loads l.old + 2 + self.now.area.slots }
        ensures slot { Below self.now.area.slots result }
        ensures state { (image : List ℕ) (s : Shown) (entries : List (ℕ × Sa)) → L.agrees l.new image → StatesStand self.now.area image s entries → result ≡ slice_get (slots_in entries) place }
    {
        (StateFinder { area: self.area }).nth(l, place)
    }

    /// The slot of the state with a state id.
    pub fn by_sid<L: Load>(&self, l: &mut L, sid: u64) -> Option<u32>
        requires fits { Fits self.now.area (L.size l.old) }
        ensures size { L.size l.new ≡ L.size l.old }
        ensures begun { L.begun l.new ≡ L.begun l.old }
        ensures rest { L.rest l.new ≡ L.rest l.old }
        ensures among { Narrows (L.agrees l.old) (L.agrees l.new) }
        ensures most { L.loads l.new ≤ L.loads l.old + 2 + 2 * self.now.area.slots }
        ensures slot { Below self.now.area.slots result }
        ensures state { (image : List ℕ) (s : Shown) (entries : List (ℕ × Sa)) → L.agrees l.new image → StatesStand self.now.area image s entries → result ≡ slot_found (found_in (has_sid sid) entries) }
    {
        (StateFinder { area: self.area }).by_sid(l, sid)
    }

    /// The states that a flow goes through under a policy, what it waits for, or what it wants.
    pub fn resolve<L: Load>(&self, l: &mut L, p: &Policy, flow: &Flow) -> Resolved
        requires fits { Fits self.now.area (L.size l.old) }
        ensures size { L.size l.new ≡ L.size l.old }
        ensures begun { L.begun l.new ≡ L.begun l.old }
        ensures rest { L.rest l.new ≡ L.rest l.old }
        ensures among { Narrows (L.agrees l.old) (L.agrees l.new) }
        ensures most { L.loads l.new ≤ L.loads l.old + 80 + 350 * self.now.area.slots }
        ensures loads { (image : List ℕ) (s : Shown) (entries : List (ℕ × Sa)) → L.agrees l.new image → StatesStand self.now.area image s entries → L.loads l.new ≤ L.loads l.old + 160 * (1 + policy_met self.now.area image entries flow.now p.now) }
        ensures within { IsWithin self.now.area.slots result }
        ensures state { (image : List ℕ) (s : Shown) (entries : List (ℕ × Sa)) → L.agrees l.new image → StatesStand self.now.area image s entries → IsResolved entries result (resolved s flow.now p.now) }
    {
        (StateFinder { area: self.area }).resolve(l, p, flow)
    }
}
