//! A new state is listed in a slot of the pool, and another one may leave for it.
ghost use Rattle.std.specs.Prelude.{◌≡◌, ℕ, ◌^◌, ◌<◌, Bool, true, false, List, [], ◌∷◌, ◌++◌, IsErr, IsOk, IfErr, IfOk, is_ok, if◌then◌else◌};
ghost use Rattle.xf_types.specs.declared.state.Sa.{Sa};
ghost use Rattle.xf_types.specs.Machine.{Shown};
ghost use Rattle.xf_chain.specs.Chains.{Below};
ghost use Rattle.xf_chain.specs.Lists.{Misses};
ghost use Rattle.xf_index.specs.Indexes.{slots_in, records_in};
ghost use Rattle.xf_image.specs.Frames.{Frame};
ghost use Rattle.xf_sadidx.specs.Layout.{Fits, end_of};
ghost use Rattle.xf_sadimage.specs.States.{StatesStand};
ghost use Rattle.xf_sadlist.specs.Listed.{next_sid_in, with_state, with_states};
ghost use Rattle.xf_sad.specs.Changes.{entries_but, new_state, Placed};
ghost use Rattle.xf_sad.specs.Replies.{IsRoomFault, IsOutOfRoom};
ghost use Rattle.xf_sad.specs.Slots.{PoolFits, IsListed, Where, listed_in};

use crate::faults::SadFault;
use crate::pool::{give_back, taken};
use crate::sad::Sad;
use xf_cells::{Cells, Pool};
use xf_sadlist::StateListing;
use xf_types::{Sa, SaSpec};

impl Sad {
    /// The id of the next state of cells, whose words stay.
    fn sid_here<C: Cells>(&self, c: &mut C) -> u64
        requires { Fits self.now.area (C.size c.old) }
        ensures size { C.size c.new ≡ C.size c.old }
        ensures begun { C.begun c.new ≡ C.begun c.old }
        ensures rest { C.rest c.new ≡ C.rest c.old }
        ensures words { C.words c.new ≡ C.words c.old }
        ensures answer { result ≡ next_sid_in self.now.area (C.words c.old) }
    {
        (StateListing { area: self.area }).next_sid(c)
    }

    /// Lists a new state in a slot where none is listed.
    pub(crate) fn list<C: Cells>(&self, c: &mut C, slot: u32, spec: &SaSpec, larval: bool, now: u64)
        requires fits { Fits self.now.area (C.size c.old) }
        requires begun { C.begun c.old ≡ true }
        requires slot { slot < self.now.area.slots }
        ensures size { C.size c.new ≡ C.size c.old }
        ensures begun { C.begun c.new ≡ true }
        ensures rest { C.rest c.new ≡ C.rest c.old }
        ensures frame { Frame self.now.area.base (end_of self.now.area) (C.words c.old) (C.words c.new) }
        ensures stands { (s : Shown) (es : List (ℕ × Sa)) → s.next_sid < 2 ^ 63 → s.time ≡ now → Misses slot (slots_in es) → StatesStand self.now.area (C.words c.old) s es → StatesStand self.now.area (C.words c.new) (with_state s (new_state s (record { spec = spec.now; larval = larval }))) (es ++ ((slot, new_state s (record { spec = spec.now; larval = larval })) ∷ [])) }
    {
        let sid = self.sid_here(c);
        let state = Sa {
            sid,
            added: now,
            larval,
            dying: false,
            spec: *spec,
        };
        (StateListing { area: self.area }).come(c, slot, &state);
    }

    /// Takes the state of a slot out of the list.
    fn unlist<C: Cells>(&self, c: &mut C, slot: u32)
        requires fits { Fits self.now.area (C.size c.old) }
        requires begun { C.begun c.old ≡ true }
        requires slot { slot < self.now.area.slots }
        ensures size { C.size c.new ≡ C.size c.old }
        ensures begun { C.begun c.new ≡ true }
        ensures rest { C.rest c.new ≡ C.rest c.old }
        ensures frame { Frame self.now.area.base (end_of self.now.area) (C.words c.old) (C.words c.new) }
        ensures stands { (s : Shown) (front back : List (ℕ × Sa)) (r : Sa) → StatesStand self.now.area (C.words c.old) s (front ++ ((slot, r) ∷ back)) → StatesStand self.now.area (C.words c.new) (with_states s (records_in (front ++ back))) (front ++ back) }
    {
        if let Some(s) = self.state_here(c, slot) {
            (StateListing { area: self.area }).leave(c, slot, &s);
        }
    }

    /// Takes the state of a slot out of the list, where a slot is named.
    fn unlist_if<C: Cells>(&self, c: &mut C, gone: Option<u32>)
        requires fits { Fits self.now.area (C.size c.old) }
        requires begun { C.begun c.old ≡ true }
        requires gone { Below self.now.area.slots gone }
        ensures size { C.size c.new ≡ C.size c.old }
        ensures begun { C.begun c.new ≡ true }
        ensures rest { C.rest c.new ≡ C.rest c.old }
        ensures frame { Frame self.now.area.base (end_of self.now.area) (C.words c.old) (C.words c.new) }
        ensures stands { (s : Shown) (es : List (ℕ × Sa)) → Where (IsListed es) gone → StatesStand self.now.area (C.words c.old) s es → StatesStand self.now.area (C.words c.new) (with_states s (records_in (entries_but gone es))) (entries_but gone es) }
    {
        match gone {
            None => {}
            Some(slot) => self.unlist(c, slot),
        }
    }

    /// Lists a new state in a slot where none is listed; before it the state of another slot leaves, where one is named.
    fn replace<C: Cells>(
        &self,
        c: &mut C,
        gone: Option<u32>,
        slot: u32,
        spec: &SaSpec,
        larval: bool,
        now: u64,
    )
        requires fits { Fits self.now.area (C.size c.old) }
        requires gone { Below self.now.area.slots gone }
        requires slot { slot < self.now.area.slots }
        ensures size { C.size c.new ≡ C.size c.old }
        ensures begun { C.begun c.new ≡ true }
        ensures rest { C.rest c.new ≡ C.rest c.old }
        ensures frame { Frame self.now.area.base (end_of self.now.area) (C.words c.old) (C.words c.new) }
        ensures stands { (s : Shown) (es : List (ℕ × Sa)) → s.next_sid < 2 ^ 63 → s.time ≡ now → Misses slot (slots_in es) → Where (IsListed es) gone → StatesStand self.now.area (C.words c.old) s es → StatesStand self.now.area (C.words c.new) (with_state (with_states s (records_in (entries_but gone es))) (new_state s (record { spec = spec.now; larval = larval }))) (entries_but gone es ++ ((slot, new_state s (record { spec = spec.now; larval = larval })) ∷ [])) }
    {
        c.begin();
        self.unlist_if(c, gone);
        self.list(c, slot, spec, larval, now);
    }

    /// Lists a new state where there is room. The pool is asked for its slot first; then the state of the slot that is named leaves, where one is,
    /// and gives this slot back last.
    pub(crate) fn place<C: Cells, P: Pool>(
        &self,
        c: &mut C,
        pool: &mut P,
        gone: Option<u32>,
        spec: &SaSpec,
        larval: bool,
        now: u64,
    ) -> Result<u32, SadFault>
        requires fits { Fits self.now.area (C.size c.old) }
        requires spent { P.spent pool.old ≡ false }
        requires below { (slot : ℕ) → P.gives pool.old slot → slot < self.now.area.slots }
        requires gone { Below self.now.area.slots gone }
        requires back { Where (P.takes pool.old) gone }
        ensures size { C.size c.new ≡ C.size c.old }
        ensures rest { C.rest c.new ≡ C.rest c.old }
        ensures capacity { P.capacity pool.new ≡ P.capacity pool.old }
        ensures lasts { P.lasts pool.new ≡ P.lasts pool.old }
        ensures begun { C.begun c.new ≡ (if is_ok result then true else C.begun c.old) }
        ensures refused { IsErr result → C.words c.new ≡ C.words c.old }
        ensures frame { Frame self.now.area.base (end_of self.now.area) (C.words c.old) (C.words c.new) }
        ensures fault { IfErr result IsRoomFault }
        ensures given { IfOk result (λ slot. P.gives pool.old slot) }
        ensures returned { IsOk result → Where (P.returned pool.new) gone }
        ensures full { (s : Shown) (es : List (ℕ × Sa)) → StatesStand self.now.area (C.words c.old) s es → PoolFits (P.capacity pool.old) (P.taken pool.old) (P.gives pool.old) (P.takes pool.old) self.now.area.slots (listed_in self.now.area (C.words c.old)) → IfErr result (λ fault. IsOutOfRoom s (P.held pool.new) fault) }
        ensures placed { (s : Shown) (es : List (ℕ × Sa)) → s.next_sid < 2 ^ 63 → s.time ≡ now → Where (IsListed es) gone → StatesStand self.now.area (C.words c.old) s es → PoolFits (P.capacity pool.old) (P.taken pool.old) (P.gives pool.old) (P.takes pool.old) self.now.area.slots (listed_in self.now.area (C.words c.old)) → IfOk result (λ slot. Placed self.now.area (C.words c.new) s es (P.gives pool.old) gone slot (record { spec = spec.now; larval = larval })) }
        ensures pool { (s : Shown) (es : List (ℕ × Sa)) → P.lasts pool.old ≡ true → s.next_sid < 2 ^ 63 → s.time ≡ now → Where (IsListed es) gone → StatesStand self.now.area (C.words c.old) s es → PoolFits (P.capacity pool.old) (P.taken pool.old) (P.gives pool.old) (P.takes pool.old) self.now.area.slots (listed_in self.now.area (C.words c.old)) → PoolFits (P.capacity pool.new) (P.taken pool.new) (P.gives pool.new) (P.takes pool.new) self.now.area.slots (listed_in self.now.area (C.words c.new)) }
    {
        match taken(pool) {
            Err(fault) => Err(fault),
            Ok(slot) => {
                self.replace(c, gone, slot, spec, larval, now);
                give_back(pool, gone);
                Ok(slot)
            }
        }
    }
}
