//! A new state is added, unless another one is in its way.
ghost use Rattle.std.specs.Prelude.{◌≡◌, ℕ, ◌<◌, Bool, true, false, List, IsErr, IsOk, IfErr, IfOk, is_ok, if◌then◌else◌};
ghost use Rattle.xf_types.specs.declared.state.Sa.{Sa};
ghost use Rattle.xf_types.specs.Machine.{Shown};
ghost use Rattle.xf_types.specs.StateRules.{state_add};
ghost use Rattle.xf_index.specs.Finds.{slot_found};
ghost use Rattle.xf_image.specs.Frames.{Frame};
ghost use Rattle.xf_sadidx.specs.Layout.{Fits, end_of};
ghost use Rattle.xf_sadimage.specs.States.{StatesStand};
ghost use Rattle.xf_sadfind.specs.Replaced.{larval_in};
ghost use Rattle.xf_sad.specs.Changes.{IsAt, Comes};
ghost use Rattle.xf_sad.specs.Lookups.{replaced_in};
ghost use Rattle.xf_sad.specs.Replies.{IsAddFault, ReplyIs, sid_told};
ghost use Rattle.xf_sad.specs.Slots.{PoolFits, Where, listed_in};

use crate::faults::SadFault;
use crate::sad::Sad;
use xf_cells::{Cells, Pool};
use xf_types::SaSpec;

impl Sad {
    /// Adds a state in use in a slot of the pool, and answers the slot. The larval state of its sequence number, protocol and destination leaves, if there
    /// is one; its slot goes back last, so it isn't the new state's. It is Exists or Full where it is refused.
    pub fn add<C: Cells, P: Pool>(
        &self,
        c: &mut C,
        pool: &mut P,
        spec: &SaSpec,
        now: u64,
    ) -> Result<u32, SadFault>
        requires fits { Fits self.now.area (C.size c.old) }
        requires spent { P.spent pool.old ≡ false }
        requires below { (slot : ℕ) → P.gives pool.old slot → slot < self.now.area.slots }
        requires back { Where (P.takes pool.old) (replaced_in self.now.area (C.words c.old) spec.now) }
        ensures size { C.size c.new ≡ C.size c.old }
        ensures rest { C.rest c.new ≡ C.rest c.old }
        ensures capacity { P.capacity pool.new ≡ P.capacity pool.old }
        ensures lasts { P.lasts pool.new ≡ P.lasts pool.old }
        ensures begun { C.begun c.new ≡ (if is_ok result then true else C.begun c.old) }
        ensures refused { IsErr result → C.words c.new ≡ C.words c.old }
        ensures frame { Frame self.now.area.base (end_of self.now.area) (C.words c.old) (C.words c.new) }
        ensures fault { IfErr result IsAddFault }
        ensures given { IfOk result (λ slot. P.gives pool.old slot) }
        ensures returned { IsOk result → Where (P.returned pool.new) (replaced_in self.now.area (C.words c.old) spec.now) }
        ensures reply { (s : Shown) (es : List (ℕ × Sa)) → IsAt s now → StatesStand self.now.area (C.words c.old) s es → PoolFits (P.capacity pool.old) (P.taken pool.old) (P.gives pool.old) (P.takes pool.old) self.now.area.slots (listed_in self.now.area (C.words c.old)) → ReplyIs (P.held pool.new) s (λ t. (state_add t spec.now).reply) (sid_told self.now.area (C.words c.new)) result }
        ensures stands { (s : Shown) (es : List (ℕ × Sa)) → IsAt s now → StatesStand self.now.area (C.words c.old) s es → PoolFits (P.capacity pool.old) (P.taken pool.old) (P.gives pool.old) (P.takes pool.old) self.now.area.slots (listed_in self.now.area (C.words c.old)) → IfOk result (λ slot. Comes self.now.area (C.words c.new) s es (P.gives pool.old) (slot_found (larval_in spec.now es)) slot (state_add s spec.now)) }
        ensures pool { (s : Shown) (es : List (ℕ × Sa)) → P.lasts pool.old ≡ true → IsAt s now → StatesStand self.now.area (C.words c.old) s es → PoolFits (P.capacity pool.old) (P.taken pool.old) (P.gives pool.old) (P.takes pool.old) self.now.area.slots (listed_in self.now.area (C.words c.old)) → PoolFits (P.capacity pool.new) (P.taken pool.new) (P.gives pool.new) (P.takes pool.new) self.now.area.slots (listed_in self.now.area (C.words c.new)) }
    {
        let gone = self.replaced_here(c, spec);
        match self.in_the_way_here(c, spec, gone) {
            Some(sid) => Err(SadFault::Exists { sid }),
            None => self.place(c, pool, gone, spec, false, now),
        }
    }
}
