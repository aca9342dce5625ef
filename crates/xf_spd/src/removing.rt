//! A policy leaves, and its slot goes back to the pool.
ghost use Rattle.std.specs.Prelude.{◌≡◌, ◌≢◌, ℕ, ◌+◌, ◌<◌, Bool, true, false, List, ◌∷◌, ◌++◌, IsErr, IfErr, IsOk, is_ok, if◌then◌else◌};
ghost use Rattle.xf_types.specs.declared.policy.Policy.{Policy};
ghost use Rattle.xf_types.specs.Changes.{shown_after};
ghost use Rattle.xf_types.specs.IsMachine.{IsPolicyList};
ghost use Rattle.xf_types.specs.Machine.{Shown};
ghost use Rattle.xf_types.specs.PolicyList.{has_key};
ghost use Rattle.xf_types.specs.PolicyRules.{policy_delete};
ghost use Rattle.xf_index.specs.Indexes.{records_in};
ghost use Rattle.xf_image.specs.Entries.{entries_without, slot_left, IsEntry, with_policies};
ghost use Rattle.xf_image.specs.Frames.{Frame};
ghost use Rattle.xf_inexact.specs.Whole.{SpdStands, WholeFits, whole_end};
ghost use Rattle.xf_image.specs.Readings.{listed_in};
ghost use Rattle.xf_listing.specs.Calls.{slot_named};
ghost use Rattle.xf_spd.specs.Replies.{IsKeyFault, index_reply};
ghost use Rattle.xf_spd.specs.Slots.{PoolFits, Where};

use crate::faults::SpdFault;
use crate::keys::is_bad_key;
use crate::spd::Spd;
use xf_cells::{Cells, Pool};
use xf_listing::{Entry, Listing};
use xf_types::PolicyKey;

impl Spd {
    /// Takes a policy out of its slot, and gives the slot back.
    fn remove_entry<C: Cells, P: Pool>(&self, c: &mut C, pool: &mut P, entry: &Entry)
        requires fits { WholeFits self.now.area (C.size c.old) }
        requires slot { entry.now.slot < self.now.area.slots }
        requires back { P.takes pool.old entry.now.slot }
        ensures size { C.size c.new ≡ C.size c.old }
        ensures begun { C.begun c.new ≡ true }
        ensures rest { C.rest c.new ≡ C.rest c.old }
        ensures capacity { P.capacity pool.new ≡ P.capacity pool.old }
        ensures lasts { P.lasts pool.new ≡ P.lasts pool.old }
        ensures held { P.held pool.new ≡ P.held pool.old }
        ensures returned { P.returned pool.new entry.now.slot }
        ensures frame { Frame self.now.area.base (whole_end self.now.area) (C.words c.old) (C.words c.new) }
        ensures removes { (s : Shown) (es : List (ℕ × Policy)) → IsEntry es entry.now.slot entry.now.policy → SpdStands self.now.area (C.words c.old) s es → SpdStands self.now.area (C.words c.new) (with_policies s (records_in (slot_left entry.now.slot es))) (slot_left entry.now.slot es) }
        ensures pool { (s : Shown) (es : List (ℕ × Policy)) → P.lasts pool.old ≡ true → IsEntry es entry.now.slot entry.now.policy → SpdStands self.now.area (C.words c.old) s es → PoolFits (P.capacity pool.old) (P.taken pool.old) (P.gives pool.old) (P.takes pool.old) self.now.area.slots (listed_in self.now.area (C.words c.old)) → PoolFits (P.capacity pool.new) (P.taken pool.new) (P.gives pool.new) (P.takes pool.new) self.now.area.slots (listed_in self.now.area (C.words c.new)) }
    {
        Listing { area: self.area }.delist(c, entry);
        pool.give(entry.slot);
    }

    /// Removes the policy that a key names, and answers its index. The pool has to take back the policy's slot. It is Invalid or
    /// NoEntry where it is refused.
    pub fn delete<C: Cells, P: Pool>(
        &self,
        c: &mut C,
        pool: &mut P,
        key: &PolicyKey,
    ) -> Result<u32, SpdFault>
        requires fits { WholeFits self.now.area (C.size c.old) }
        requires back { Where (P.takes pool.old) (slot_named self.now.area (C.words c.old) key.now) }
        ensures size { C.size c.new ≡ C.size c.old }
        ensures rest { C.rest c.new ≡ C.rest c.old }
        ensures capacity { P.capacity pool.new ≡ P.capacity pool.old }
        ensures lasts { P.lasts pool.new ≡ P.lasts pool.old }
        ensures held { P.held pool.new ≡ P.held pool.old }
        ensures begun { C.begun c.new ≡ (if is_ok result then true else C.begun c.old) }
        ensures refused { IsErr result → C.words c.new ≡ C.words c.old }
        ensures frame { Frame self.now.area.base (whole_end self.now.area) (C.words c.old) (C.words c.new) }
        ensures fault { IfErr result IsKeyFault }
        ensures returned { IsOk result → Where (P.returned pool.new) (slot_named self.now.area (C.words c.old) key.now) }
        ensures reply { (s : Shown) (es : List (ℕ × Policy)) → SpdStands self.now.area (C.words c.old) s es → index_reply result ≡ (policy_delete s key.now).reply }
        ensures stands { (s : Shown) (es : List (ℕ × Policy)) → IsOk result → IsPolicyList s → SpdStands self.now.area (C.words c.old) s es → SpdStands self.now.area (C.words c.new) (shown_after s (policy_delete s key.now).change) (entries_without (has_key key.now) es) }
        ensures pool { (s : Shown) (es : List (ℕ × Policy)) → P.lasts pool.old ≡ true → SpdStands self.now.area (C.words c.old) s es → PoolFits (P.capacity pool.old) (P.taken pool.old) (P.gives pool.old) (P.takes pool.old) self.now.area.slots (listed_in self.now.area (C.words c.old)) → PoolFits (P.capacity pool.new) (P.taken pool.new) (P.gives pool.new) (P.takes pool.new) self.now.area.slots (listed_in self.now.area (C.words c.new)) }
    {
        if is_bad_key(key) {
            return Err(SpdFault::Invalid);
        }
        match (Listing { area: self.area }).named_here(c, key) {
            None => Err(SpdFault::NoEntry),
            Some(entry) => {
                self.remove_entry(c, pool, &entry);
                Ok(entry.policy.index)
            }
        }
    }

    /// Removes the policy in a slot. The pool has to take back the slot. A loop over the list asks for the next slot before.
    pub fn remove<C: Cells, P: Pool>(&self, c: &mut C, pool: &mut P, slot: u32)
        requires fits { WholeFits self.now.area (C.size c.old) }
        requires slot { slot < self.now.area.slots }
        requires back { P.takes pool.old slot }
        ensures size { C.size c.new ≡ C.size c.old }
        ensures rest { C.rest c.new ≡ C.rest c.old }
        ensures capacity { P.capacity pool.new ≡ P.capacity pool.old }
        ensures lasts { P.lasts pool.new ≡ P.lasts pool.old }
        ensures held { P.held pool.new ≡ P.held pool.old }
        ensures frame { Frame self.now.area.base (whole_end self.now.area) (C.words c.old) (C.words c.new) }
        ensures begun { (s : Shown) (es : List (ℕ × Policy)) (p : Policy) → IsEntry es slot p → SpdStands self.now.area (C.words c.old) s es → C.begun c.new ≡ true }
        ensures returned { (s : Shown) (es : List (ℕ × Policy)) (p : Policy) → IsEntry es slot p → SpdStands self.now.area (C.words c.old) s es → P.returned pool.new slot }
        ensures stands { (s : Shown) (es : List (ℕ × Policy)) (p : Policy) → IsEntry es slot p → SpdStands self.now.area (C.words c.old) s es → SpdStands self.now.area (C.words c.new) (with_policies s (records_in (slot_left slot es))) (slot_left slot es) }
        ensures pool { (s : Shown) (es : List (ℕ × Policy)) (p : Policy) → P.lasts pool.old ≡ true → IsEntry es slot p → SpdStands self.now.area (C.words c.old) s es → PoolFits (P.capacity pool.old) (P.taken pool.old) (P.gives pool.old) (P.takes pool.old) self.now.area.slots (listed_in self.now.area (C.words c.old)) → PoolFits (P.capacity pool.new) (P.taken pool.new) (P.gives pool.new) (P.takes pool.new) self.now.area.slots (listed_in self.now.area (C.words c.new)) }
    {
        if let Some(entry) = (Listing { area: self.area }).found_here(c, slot) {
            self.remove_entry(c, pool, &entry);
        }
    }
}
