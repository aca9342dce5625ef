//! A new policy is listed, unless the same one is.
ghost use Rattle.std.specs.Prelude.{◌≡◌, ℕ, ◌<◌, Bool, true, false, List, IsErr, IfErr, IfOk, is_ok, if◌then◌else◌};
ghost use Rattle.xf_types.specs.declared.policy.Policy.{Policy};
ghost use Rattle.xf_types.specs.Machine.{Shown};
ghost use Rattle.xf_types.specs.PolicyRules.{policy_add};
ghost use Rattle.xf_image.specs.Frames.{Frame};
ghost use Rattle.xf_inexact.specs.Whole.{SpdStands, WholeFits, whole_end};
ghost use Rattle.xf_image.specs.Readings.{listed_in};
ghost use Rattle.xf_spd.specs.Changes.{IsAt, AddsGiven};
ghost use Rattle.xf_spd.specs.Replies.{IsAddFault, ReplyIs, index_reply};
ghost use Rattle.xf_spd.specs.Slots.{PoolFits};

use crate::faults::SpdFault;
use crate::keys::is_bad_index;
use crate::spd::Spd;
use xf_cells::{Cells, Pool};
use xf_listing::Listing;
use xf_types::PolicySpec;

impl Spd {
    /// Lists a new policy in a slot of the pool, and answers its index.
    pub fn insert<C: Cells, P: Pool>(
        &self,
        c: &mut C,
        pool: &mut P,
        spec: &PolicySpec,
        now: u64,
    ) -> Result<u32, SpdFault>
        requires fits { WholeFits self.now.area (C.size c.old) }
        requires spent { P.spent pool.old ≡ false }
        requires below { (slot : ℕ) → P.gives pool.old slot → slot < self.now.area.slots }
        ensures size { C.size c.new ≡ C.size c.old }
        ensures rest { C.rest c.new ≡ C.rest c.old }
        ensures capacity { P.capacity pool.new ≡ P.capacity pool.old }
        ensures lasts { P.lasts pool.new ≡ P.lasts pool.old }
        ensures begun { C.begun c.new ≡ (if is_ok result then true else C.begun c.old) }
        ensures refused { IsErr result → C.words c.new ≡ C.words c.old }
        ensures frame { Frame self.now.area.base (whole_end self.now.area) (C.words c.old) (C.words c.new) }
        ensures fault { IfErr result IsAddFault }
        ensures reply { (s : Shown) (es : List (ℕ × Policy)) → IsAt s now → SpdStands self.now.area (C.words c.old) s es → PoolFits (P.capacity pool.old) (P.taken pool.old) (P.gives pool.old) (P.takes pool.old) self.now.area.slots (listed_in self.now.area (C.words c.old)) → ReplyIs (P.held pool.new) s (λ t. (policy_add t spec.now).reply) result }
        ensures plain { (s : Shown) (es : List (ℕ × Policy)) → P.held pool.new ≡ 0 → IsAt s now → SpdStands self.now.area (C.words c.old) s es → PoolFits (P.capacity pool.old) (P.taken pool.old) (P.gives pool.old) (P.takes pool.old) self.now.area.slots (listed_in self.now.area (C.words c.old)) → index_reply result ≡ (policy_add s spec.now).reply }
        ensures stands { (s : Shown) (es : List (ℕ × Policy)) → IsAt s now → SpdStands self.now.area (C.words c.old) s es → PoolFits (P.capacity pool.old) (P.taken pool.old) (P.gives pool.old) (P.takes pool.old) self.now.area.slots (listed_in self.now.area (C.words c.old)) → IfOk result (λ index. AddsGiven self.now.area (C.words c.new) s es (P.gives pool.old) index spec.now (policy_add s spec.now)) }
        ensures pool { (s : Shown) (es : List (ℕ × Policy)) → P.lasts pool.old ≡ true → IsAt s now → SpdStands self.now.area (C.words c.old) s es → PoolFits (P.capacity pool.old) (P.taken pool.old) (P.gives pool.old) (P.takes pool.old) self.now.area.slots (listed_in self.now.area (C.words c.old)) → PoolFits (P.capacity pool.new) (P.taken pool.new) (P.gives pool.new) (P.takes pool.new) self.now.area.slots (listed_in self.now.area (C.words c.new)) }
    {
        if is_bad_index(spec) {
            return Err(SpdFault::Invalid);
        }
        match (Listing { area: self.area }).same_here(c, spec) {
            Some(entry) => Err(SpdFault::Exists {
                index: entry.policy.index,
            }),
            None => self.add_new(c, pool, spec, now),
        }
    }
}
