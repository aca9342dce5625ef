//! A listed state is updated: a larval one leaves for a new one, one in use is refreshed.
ghost use Rattle.std.specs.Prelude.{◌≡◌, ℕ, ◌<◌, ◌⊎◌, Bool, true, false, List, ◌∷◌, ◌++◌, Some, Ok, IsErr, IfErr, IfOk, is_ok, if◌then◌else◌};
ghost use Rattle.xf_types.specs.declared.state.Sa.{Sa};
ghost use Rattle.xf_types.specs.Changes.{shown_after};
ghost use Rattle.xf_types.specs.Machine.{Shown};
ghost use Rattle.xf_types.specs.StateList.{has_id, id_of};
ghost use Rattle.xf_types.specs.StateRules.{refreshed_record, state_update, state_updated};
ghost use Rattle.xf_image.specs.Frames.{Frame};
ghost use Rattle.xf_sadidx.specs.Founds.{latest_in};
ghost use Rattle.xf_sadidx.specs.Layout.{Fits, end_of};
ghost use Rattle.xf_sadimage.specs.States.{StatesStand};
ghost use Rattle.xf_sad.specs.Changes.{IsAt, Comes};
ghost use Rattle.xf_sad.specs.Lookups.{named_in};
ghost use Rattle.xf_sad.specs.Replies.{IsUpdateFault, ReplyIs, sid_told};
ghost use Rattle.xf_sad.specs.Slots.{PoolFits, Where, listed_in};

use crate::changing::refreshed;
use crate::faults::SadFault;
use crate::sad::Sad;
use xf_cells::{Cells, Pool};
use xf_held::id_of;
use xf_types::{Sa, SaSpec};

impl Sad {
    /// Updates the state in a slot, whose record is `old`.
    fn update_state<C: Cells, P: Pool>(
        &self,
        c: &mut C,
        pool: &mut P,
        slot: u32,
        old: &Sa,
        spec: &SaSpec,
        now: u64,
    ) -> Result<u32, SadFault>
        requires fits { Fits self.now.area (C.size c.old) }
        requires spent { P.spent pool.old ≡ false }
        requires below { (slot : ℕ) → P.gives pool.old slot → slot < self.now.area.slots }
        requires slot { slot < self.now.area.slots }
        requires back { P.takes pool.old slot }
        ensures size { C.size c.new ≡ C.size c.old }
        ensures rest { C.rest c.new ≡ C.rest c.old }
        ensures capacity { P.capacity pool.new ≡ P.capacity pool.old }
        ensures lasts { P.lasts pool.new ≡ P.lasts pool.old }
        ensures begun { C.begun c.new ≡ (if is_ok result then true else C.begun c.old) }
        ensures refused { IsErr result → C.words c.new ≡ C.words c.old }
        ensures frame { Frame self.now.area.base (end_of self.now.area) (C.words c.old) (C.words c.new) }
        ensures fault { IfErr result IsUpdateFault }
        ensures given { IfOk result (λ new. P.gives pool.old new ⊎ (new ≡ slot)) }
        ensures reply { (s : Shown) (front back : List (ℕ × Sa)) → IsAt s now → StatesStand self.now.area (C.words c.old) s (front ++ ((slot, old.now) ∷ back)) → PoolFits (P.capacity pool.old) (P.taken pool.old) (P.gives pool.old) (P.takes pool.old) self.now.area.slots (listed_in self.now.area (C.words c.old)) → ReplyIs (P.held pool.new) s (λ t. (state_updated t spec.now (Some old.now)).reply) (sid_told self.now.area (C.words c.new)) result }
        ensures larval { (s : Shown) (front back : List (ℕ × Sa)) → old.now.larval ≡ true → IsAt s now → StatesStand self.now.area (C.words c.old) s (front ++ ((slot, old.now) ∷ back)) → PoolFits (P.capacity pool.old) (P.taken pool.old) (P.gives pool.old) (P.takes pool.old) self.now.area.slots (listed_in self.now.area (C.words c.old)) → IfOk result (λ new. Comes self.now.area (C.words c.new) s (front ++ ((slot, old.now) ∷ back)) (P.gives pool.old) (Some slot) new (state_updated s spec.now (Some old.now))) }
        ensures used { (s : Shown) (front back : List (ℕ × Sa)) → old.now.larval ≡ false → IsAt s now → StatesStand self.now.area (C.words c.old) s (front ++ ((slot, old.now) ∷ back)) → (result ≡ Ok slot) × StatesStand self.now.area (C.words c.new) (shown_after s (state_updated s spec.now (Some old.now)).change) (front ++ ((slot, refreshed_record spec.now old.now) ∷ back)) }
        ensures pool { (s : Shown) (front back : List (ℕ × Sa)) → P.lasts pool.old ≡ true → IsAt s now → StatesStand self.now.area (C.words c.old) s (front ++ ((slot, old.now) ∷ back)) → PoolFits (P.capacity pool.old) (P.taken pool.old) (P.gives pool.old) (P.takes pool.old) self.now.area.slots (listed_in self.now.area (C.words c.old)) → PoolFits (P.capacity pool.new) (P.taken pool.new) (P.gives pool.new) (P.takes pool.new) self.now.area.slots (listed_in self.now.area (C.words c.new)) }
    {
        if old.larval {
            return self.place(c, pool, Some(slot), spec, false, now);
        }
        let fresh = refreshed(old, spec);
        self.rewrite(c, slot, &fresh);
        Ok(slot)
    }

    /// Updates the state in a slot.
    fn update_in<C: Cells, P: Pool>(
        &self,
        c: &mut C,
        pool: &mut P,
        slot: u32,
        spec: &SaSpec,
        now: u64,
    ) -> Result<u32, SadFault>
        requires fits { Fits self.now.area (C.size c.old) }
        requires spent { P.spent pool.old ≡ false }
        requires below { (slot : ℕ) → P.gives pool.old slot → slot < self.now.area.slots }
        requires slot { slot < self.now.area.slots }
        requires back { P.takes pool.old slot }
        ensures size { C.size c.new ≡ C.size c.old }
        ensures rest { C.rest c.new ≡ C.rest c.old }
        ensures capacity { P.capacity pool.new ≡ P.capacity pool.old }
        ensures lasts { P.lasts pool.new ≡ P.lasts pool.old }
        ensures begun { C.begun c.new ≡ (if is_ok result then true else C.begun c.old) }
        ensures refused { IsErr result → C.words c.new ≡ C.words c.old }
        ensures frame { Frame self.now.area.base (end_of self.now.area) (C.words c.old) (C.words c.new) }
        ensures fault { IfErr result IsUpdateFault }
        ensures given { IfOk result (λ new. P.gives pool.old new ⊎ (new ≡ slot)) }
        ensures reply { (s : Shown) (front back : List (ℕ × Sa)) (old : Sa) → IsAt s now → StatesStand self.now.area (C.words c.old) s (front ++ ((slot, old) ∷ back)) → PoolFits (P.capacity pool.old) (P.taken pool.old) (P.gives pool.old) (P.takes pool.old) self.now.area.slots (listed_in self.now.area (C.words c.old)) → ReplyIs (P.held pool.new) s (λ t. (state_updated t spec.now (Some old)).reply) (sid_told self.now.area (C.words c.new)) result }
        ensures larval { (s : Shown) (front back : List (ℕ × Sa)) (old : Sa) → old.larval ≡ true → IsAt s now → StatesStand self.now.area (C.words c.old) s (front ++ ((slot, old) ∷ back)) → PoolFits (P.capacity pool.old) (P.taken pool.old) (P.gives pool.old) (P.takes pool.old) self.now.area.slots (listed_in self.now.area (C.words c.old)) → IfOk result (λ new. Comes self.now.area (C.words c.new) s (front ++ ((slot, old) ∷ back)) (P.gives pool.old) (Some slot) new (state_updated s spec.now (Some old))) }
        ensures used { (s : Shown) (front back : List (ℕ × Sa)) (old : Sa) → old.larval ≡ false → IsAt s now → StatesStand self.now.area (C.words c.old) s (front ++ ((slot, old) ∷ back)) → (result ≡ Ok slot) × StatesStand self.now.area (C.words c.new) (shown_after s (state_updated s spec.now (Some old)).change) (front ++ ((slot, refreshed_record spec.now old) ∷ back)) }
        ensures pool { (s : Shown) (front back : List (ℕ × Sa)) (old : Sa) → P.lasts pool.old ≡ true → IsAt s now → StatesStand self.now.area (C.words c.old) s (front ++ ((slot, old) ∷ back)) → PoolFits (P.capacity pool.old) (P.taken pool.old) (P.gives pool.old) (P.takes pool.old) self.now.area.slots (listed_in self.now.area (C.words c.old)) → PoolFits (P.capacity pool.new) (P.taken pool.new) (P.gives pool.new) (P.takes pool.new) self.now.area.slots (listed_in self.now.area (C.words c.new)) }
    {
        match self.state_here(c, slot) {
            None => Err(SadFault::NoState),
            Some(old) => self.update_state(c, pool, slot, &old, spec, now),
        }
    }

    /// Updates the state that a request names. A larval one leaves for a new one in a slot of the pool, whose slot it answers; one in use stays in its
    /// slot, which it answers, and has the limits and the selector of the request. It is NoState or Full where it is refused.
    pub fn update<C: Cells, P: Pool>(
        &self,
        c: &mut C,
        pool: &mut P,
        spec: &SaSpec,
        now: u64,
    ) -> Result<u32, SadFault>
        requires fits { Fits self.now.area (C.size c.old) }
        requires spent { P.spent pool.old ≡ false }
        requires below { (slot : ℕ) → P.gives pool.old slot → slot < self.now.area.slots }
        requires back { Where (P.takes pool.old) (named_in self.now.area (C.words c.old) (id_of spec.now)) }
        ensures size { C.size c.new ≡ C.size c.old }
        ensures rest { C.rest c.new ≡ C.rest c.old }
        ensures capacity { P.capacity pool.new ≡ P.capacity pool.old }
        ensures lasts { P.lasts pool.new ≡ P.lasts pool.old }
        ensures begun { C.begun c.new ≡ (if is_ok result then true else C.begun c.old) }
        ensures refused { IsErr result → C.words c.new ≡ C.words c.old }
        ensures frame { Frame self.now.area.base (end_of self.now.area) (C.words c.old) (C.words c.new) }
        ensures fault { IfErr result IsUpdateFault }
        ensures given { IfOk result (λ new. P.gives pool.old new ⊎ (named_in self.now.area (C.words c.old) (id_of spec.now) ≡ Some new)) }
        ensures reply { (s : Shown) (es : List (ℕ × Sa)) → IsAt s now → StatesStand self.now.area (C.words c.old) s es → PoolFits (P.capacity pool.old) (P.taken pool.old) (P.gives pool.old) (P.takes pool.old) self.now.area.slots (listed_in self.now.area (C.words c.old)) → ReplyIs (P.held pool.new) s (λ t. (state_update t spec.now).reply) (sid_told self.now.area (C.words c.new)) result }
        ensures larval { (s : Shown) (es : List (ℕ × Sa)) (slot : ℕ) (old : Sa) → latest_in (has_id (id_of spec.now)) es ≡ Some (slot, old) → old.larval ≡ true → IsAt s now → StatesStand self.now.area (C.words c.old) s es → PoolFits (P.capacity pool.old) (P.taken pool.old) (P.gives pool.old) (P.takes pool.old) self.now.area.slots (listed_in self.now.area (C.words c.old)) → IfOk result (λ new. Comes self.now.area (C.words c.new) s es (P.gives pool.old) (Some slot) new (state_update s spec.now)) }
        ensures used { (s : Shown) (front back : List (ℕ × Sa)) (slot : ℕ) (old : Sa) → latest_in (has_id (id_of spec.now)) (front ++ ((slot, old) ∷ back)) ≡ Some (slot, old) → old.larval ≡ false → IsAt s now → StatesStand self.now.area (C.words c.old) s (front ++ ((slot, old) ∷ back)) → (result ≡ Ok slot) × StatesStand self.now.area (C.words c.new) (shown_after s (state_update s spec.now).change) (front ++ ((slot, refreshed_record spec.now old) ∷ back)) }
        ensures pool { (s : Shown) (es : List (ℕ × Sa)) → P.lasts pool.old ≡ true → IsAt s now → StatesStand self.now.area (C.words c.old) s es → PoolFits (P.capacity pool.old) (P.taken pool.old) (P.gives pool.old) (P.takes pool.old) self.now.area.slots (listed_in self.now.area (C.words c.old)) → PoolFits (P.capacity pool.new) (P.taken pool.new) (P.gives pool.new) (P.takes pool.new) self.now.area.slots (listed_in self.now.area (C.words c.new)) }
    {
        let id = id_of(spec);
        match self.named_here(c, &id) {
            None => Err(SadFault::NoState),
            Some(slot) => self.update_in(c, pool, slot, spec, now),
        }
    }
}
