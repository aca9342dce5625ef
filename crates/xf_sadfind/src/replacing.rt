//! The state that a new one takes the place of, and the state that it can't stand beside.
ghost use Rattle.std.specs.Prelude.{◌≡◌, ℕ, ◌+◌, ◌*◌, ◌<◌, ◌≤◌, List, Option};
ghost use Rattle.xf_types.specs.declared.state.Sa.{Sa};
ghost use Rattle.xf_types.specs.Machine.{Shown};
ghost use Rattle.xf_cells.specs.Words.{Narrows};
ghost use Rattle.xf_chain.specs.Chains.{Below};
ghost use Rattle.xf_index.specs.Finds.{slot_found};
ghost use Rattle.xf_sadidx.specs.Founds.{latest_in};
ghost use Rattle.xf_sadidx.specs.Layout.{Fits};
ghost use Rattle.xf_sadidx.specs.Standing.{StatesIndexed, RecordsStand};
ghost use Rattle.xf_sadimage.specs.States.{StatesStand};
ghost use Rattle.xf_sadfind.specs.Replaced.{larval_in, names_beside, sid_found, in_the_way};
ghost use Rattle.xf_sadfind.specs.Slots.{sid_in, IsThere};

use crate::finder::StateFinder;
use xf_asked::sid_at;
use xf_cells::Load;
use xf_held::id_of;
use xf_sadidx::SadIndex;
use xf_types::{SaId, SaSpec};

impl StateFinder {
    /// The slot of the larval state that a new state takes the place of: the last one with its sequence number, protocol and
    /// destination, where its sequence number isn't 0.
    pub fn replaced<L: Load>(&self, l: &mut L, spec: &SaSpec) -> Option<u32>
        requires fits { Fits self.now.area (L.size l.old) }
        ensures size { L.size l.new ≡ L.size l.old }
        ensures begun { L.begun l.new ≡ L.begun l.old }
        ensures rest { L.rest l.new ≡ L.rest l.old }
        ensures among { Narrows (L.agrees l.old) (L.agrees l.new) }
        ensures most { L.loads l.new ≤ L.loads l.old + 4 + 50 * self.now.area.slots }
        ensures slot { Below self.now.area.slots result }
        ensures state { (image : List ℕ) (s : Shown) (entries : List (ℕ × Sa)) → L.agrees l.new image → StatesStand self.now.area image s entries → result ≡ slot_found (larval_in spec.now entries) }
    {
        if spec.seq == 0 {
            return None;
        }
        (SadIndex { area: self.area }).replaced(l, spec.seq, spec.proto, &spec.dst)
    }

    /// The state id in a slot, where one is named.
    fn sid_in<L: Load>(&self, l: &mut L, slot: Option<u32>) -> Option<u64>
        requires fits { Fits self.now.area (L.size l.old) }
        requires slot { Below self.now.area.slots slot }
        ensures size { L.size l.new ≡ L.size l.old }
        ensures begun { L.begun l.new ≡ L.begun l.old }
        ensures rest { L.rest l.new ≡ L.rest l.old }
        ensures among { Narrows (L.agrees l.old) (L.agrees l.new) }
        ensures loads { L.loads l.new ≤ L.loads l.old + 1 }
        ensures answer { (image : List ℕ) → L.agrees l.new image → result ≡ sid_in self.now.area image slot }
    {
        match slot {
            None => None,
            Some(slot) => Some(sid_at(l, self.area.record_place(slot))),
        }
    }

    /// The slot of the state that an id names, the one in the slot `gone` left out.
    fn named_beside<L: Load>(&self, l: &mut L, id: &SaId, gone: Option<u32>) -> Option<u32>
        requires fits { Fits self.now.area (L.size l.old) }
        requires gone { Below self.now.area.slots gone }
        ensures size { L.size l.new ≡ L.size l.old }
        ensures begun { L.begun l.new ≡ L.begun l.old }
        ensures rest { L.rest l.new ≡ L.rest l.old }
        ensures among { Narrows (L.agrees l.old) (L.agrees l.new) }
        ensures most { L.loads l.new ≤ L.loads l.old + 5 + 50 * self.now.area.slots }
        ensures slot { Below self.now.area.slots result }
        ensures state { (image : List ℕ) (entries : List (ℕ × Sa)) (old : Option Sa) → L.agrees l.new image → StatesIndexed self.now.area image entries → RecordsStand self.now.area image entries → IsThere self.now.area image gone old → result ≡ slot_found (latest_in (names_beside id.now old) entries) }
    {
        let index = SadIndex { area: self.area };
        match gone {
            None => index.living(l, id),
            Some(slot) => {
                let sid = sid_at(l, self.area.record_place(slot));
                index.beside(l, id, sid)
            }
        }
    }

    /// The state id of the state that a new one can't stand beside, where there is one. The larval state in the slot `gone`, whose place
    /// the new one takes, is left out.
    pub fn in_the_way<L: Load>(&self, l: &mut L, spec: &SaSpec, gone: Option<u32>) -> Option<u64>
        requires fits { Fits self.now.area (L.size l.old) }
        requires gone { Below self.now.area.slots gone }
        ensures size { L.size l.new ≡ L.size l.old }
        ensures begun { L.begun l.new ≡ L.begun l.old }
        ensures rest { L.rest l.new ≡ L.rest l.old }
        ensures among { Narrows (L.agrees l.old) (L.agrees l.new) }
        ensures most { L.loads l.new ≤ L.loads l.old + 6 + 50 * self.now.area.slots }
        ensures state { (image : List ℕ) (s : Shown) (entries : List (ℕ × Sa)) → L.agrees l.new image → StatesStand self.now.area image s entries → gone ≡ slot_found (larval_in spec.now entries) → result ≡ sid_found (in_the_way s.states spec.now) }
    {
        let id = id_of(spec);
        let slot = self.named_beside(l, &id, gone);
        self.sid_in(l, slot)
    }
}
