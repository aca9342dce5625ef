//! A policy is listed as a new one.
ghost use Rattle.std.specs.Prelude.{◌≡◌, ℕ, ◌<◌, Bool, true, false, List, IsErr, IfErr, IfOk, is_ok, if◌then◌else◌};
ghost use Rattle.xf_types.specs.declared.policy.Policy.{Policy};
ghost use Rattle.xf_types.specs.Machine.{Shown};
ghost use Rattle.xf_types.specs.PolicyRules.{added_with_index, policy_added_if_room};
ghost use Rattle.xf_chain.specs.Lists.{Misses};
ghost use Rattle.xf_index.specs.Indexes.{slots_in};
ghost use Rattle.xf_image.specs.Frames.{Frame};
ghost use Rattle.xf_inexact.specs.Whole.{SpdStands, WholeFits, whole_end};
ghost use Rattle.xf_image.specs.Readings.{listed_in};
ghost use Rattle.xf_spd.specs.Changes.{IsAt, Adds, AddsGiven};
ghost use Rattle.xf_spd.specs.Replies.{IsRoomFault, ReplyIs};
ghost use Rattle.xf_spd.specs.Slots.{PoolFits};

use crate::faults::SpdFault;
use crate::pool::taken;
use crate::spd::Spd;
use xf_cells::{Cells, Pool};
use xf_listing::Listing;
use xf_types::PolicySpec;

impl Spd {
    /// Lists a new policy in a slot.
    fn add<C: Cells>(&self, c: &mut C, slot: u32, spec: &PolicySpec, now: u64) -> u32
        requires fits { WholeFits self.now.area (C.size c.old) }
        requires slot { slot < self.now.area.slots }
        ensures size { C.size c.new ≡ C.size c.old }
        ensures begun { C.begun c.new ≡ true }
        ensures rest { C.rest c.new ≡ C.rest c.old }
        ensures frame { Frame self.now.area.base (whole_end self.now.area) (C.words c.old) (C.words c.new) }
        ensures adds { (s : Shown) (es : List (ℕ × Policy)) → IsAt s now → SpdStands self.now.area (C.words c.old) s es → Misses slot (slots_in es) → Adds self.now.area (C.words c.new) s es slot result spec.now (added_with_index s spec.now) }
    {
        let choice = Listing { area: self.area }.chosen(c, spec);
        Listing { area: self.area }.list(c, slot, spec, choice.index, choice.word, now);
        choice.index
    }

    /// Lists a new policy where there is room.
    pub(crate) fn add_new<C: Cells, P: Pool>(
        &self,
        c: &mut C,
        pool: &mut P,
        spec: &PolicySpec,
        now: u64,
    ) -> Result<u32, SpdFault>
        requires fits { WholeFits self.now.area (C.size c.old) }
        requires spent { P.spent pool.old ≡ false }
        requires below { (slot : ℕ) → P.gives pool.old slot → slot < self.now.area.slots }
        ensures size { C.size c.new ≡ C.size c.old }
        ensures rest { C.rest c.new ≡ C.rest c.old }
        ensures capacity { P.capacity pool.new ≡ P.capacity pool.old }
        ensures lasts { P.lasts pool.new ≡ P.lasts pool.old }
        ensures begun { C.begun c.new ≡ (if is_ok result then true else C.begun c.old) }
        ensures refused { IsErr result → C.words c.new ≡ C.words c.old }
        ensures frame { Frame self.now.area.base (whole_end self.now.area) (C.words c.old) (C.words c.new) }
        ensures fault { IfErr result IsRoomFault }
        ensures reply { (s : Shown) (es : List (ℕ × Policy)) → IsAt s now → SpdStands self.now.area (C.words c.old) s es → PoolFits (P.capacity pool.old) (P.taken pool.old) (P.gives pool.old) (P.takes pool.old) self.now.area.slots (listed_in self.now.area (C.words c.old)) → ReplyIs (P.held pool.new) s (λ t. (policy_added_if_room t spec.now).reply) result }
        ensures adds { (s : Shown) (es : List (ℕ × Policy)) → IsAt s now → SpdStands self.now.area (C.words c.old) s es → PoolFits (P.capacity pool.old) (P.taken pool.old) (P.gives pool.old) (P.takes pool.old) self.now.area.slots (listed_in self.now.area (C.words c.old)) → IfOk result (λ index. AddsGiven self.now.area (C.words c.new) s es (P.gives pool.old) index spec.now (policy_added_if_room s spec.now)) }
        ensures pool { (s : Shown) (es : List (ℕ × Policy)) → P.lasts pool.old ≡ true → IsAt s now → SpdStands self.now.area (C.words c.old) s es → PoolFits (P.capacity pool.old) (P.taken pool.old) (P.gives pool.old) (P.takes pool.old) self.now.area.slots (listed_in self.now.area (C.words c.old)) → PoolFits (P.capacity pool.new) (P.taken pool.new) (P.gives pool.new) (P.takes pool.new) self.now.area.slots (listed_in self.now.area (C.words c.new)) }
    {
        match taken(pool) {
            Err(fault) => Err(fault),
            Ok(slot) => Ok(self.add(c, slot, spec, now)),
        }
    }
}
