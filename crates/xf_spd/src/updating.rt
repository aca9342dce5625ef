//! A policy takes the place of the same one, or is listed as a new one.
ghost use Rattle.std.specs.Prelude.{◌≡◌, ℕ, ◌+◌, ◌-◌, ◌<◌, Bool, true, false, List, Some, IsErr, IfErr, IfOk, is_ok, if◌then◌else◌};
ghost use Rattle.xf_types.specs.declared.policy.Policy.{Policy};
ghost use Rattle.xf_types.specs.Machine.{Shown};
ghost use Rattle.xf_types.specs.PolicyList.{is_same};
ghost use Rattle.xf_types.specs.PolicyRules.{policy_update, policy_replaced_or_added};
ghost use Rattle.xf_cells.specs.Words.{Narrows};
ghost use Rattle.xf_index.specs.Finds.{Found};
ghost use Rattle.xf_image.specs.Entries.{entries_without};
ghost use Rattle.xf_image.specs.Frames.{Frame};
ghost use Rattle.xf_inexact.specs.Whole.{SpdStands, WholeFits, whole_end};
ghost use Rattle.xf_image.specs.Readings.{listed_in, next_index_in};
ghost use Rattle.xf_spd.specs.Changes.{IsAt, Adds, Replaces};
ghost use Rattle.xf_spd.specs.Replies.{IsUpdateFault, ReplyIs, index_reply};
ghost use Rattle.xf_spd.specs.Slots.{PoolFits};

use crate::faults::SpdFault;
use crate::keys::is_bad_index;
use crate::spd::Spd;
use xf_cells::{Cells, Load, Pool};
use xf_listing::{Entry, Listing};
use xf_types::PolicySpec;

impl Spd {
    /// The word of the index counter, where it stays as it is.
    fn kept_word<L: Load>(&self, l: &mut L) -> u32
        requires { WholeFits self.now.area (L.size l.old) }
        ensures size { L.size l.new ≡ L.size l.old }
        ensures begun { L.begun l.new ≡ L.begun l.old }
        ensures rest { L.rest l.new ≡ L.rest l.old }
        ensures among { Narrows (L.agrees l.old) (L.agrees l.new) }
        ensures answer { (image : List ℕ) → L.agrees l.new image → result + 1 ≡ next_index_in self.now.area image }
    {
        Listing { area: self.area }.index_word(l) - 1
    }

    /// Lists a policy in the slot of the same one, with its index.
    fn replace<C: Cells>(&self, c: &mut C, entry: &Entry, spec: &PolicySpec, now: u64) -> u32
        requires fits { WholeFits self.now.area (C.size c.old) }
        requires slot { entry.now.slot < self.now.area.slots }
        ensures size { C.size c.new ≡ C.size c.old }
        ensures begun { C.begun c.new ≡ true }
        ensures rest { C.rest c.new ≡ C.rest c.old }
        ensures frame { Frame self.now.area.base (whole_end self.now.area) (C.words c.old) (C.words c.new) }
        ensures replaces { (s : Shown) (es : List (ℕ × Policy)) → IsAt s now → SpdStands self.now.area (C.words c.old) s es → Found (λ p. is_same p.spec spec.now) entry.now.slot entry.now.policy es → Adds self.now.area (C.words c.new) s (entries_without (λ p. is_same p.spec spec.now) es) entry.now.slot result spec.now (policy_replaced_or_added s spec.now (Some entry.now.policy)) }
    {
        Listing { area: self.area }.delist(c, entry);
        let word = self.kept_word(c);
        Listing { area: self.area }.list(c, entry.slot, spec, entry.policy.index, word, now);
        entry.policy.index
    }

    /// Lists a policy in place of the same one, in its slot and with its index; where there is none, as a new one. It is Invalid or
    /// Full where it is refused.
    pub fn update<C: Cells, P: Pool>(
        &self,
        c: &mut C,
        pool: &mut P,
        spec: &PolicySpec,
        now: u64,
    ) -> Result<u32, SpdFault>
        requires fits { WholeFits self.now.area (C.size c.old) }
        requires spent { P.spent pool.old ≡ false }
        requires below { (slot : ℕ) → P.gives pool.old slot → slot < self.now.area.slots }
        ensures size { C.size c.new ≡ C.size c.old }
        ensures rest { C.rest c.new ≡ C.rest c.old }
        ensures capacity { P.capacity pool.new ≡ P.capacity pool.old }
        ensures lasts { P.lasts pool.new ≡ P.lasts pool.old }
        ensures begun { C.begun c.new ≡ (if is_ok result then true else C.begun c.old) }
        ensures refused { IsErr result → C.words c.new ≡ C.words c.old }
        ensures frame { Frame self.now.area.base (whole_end self.now.area) (C.words c.old) (C.words c.new) }
        ensures fault { IfErr result IsUpdateFault }
        ensures reply { (s : Shown) (es : List (ℕ × Policy)) → IsAt s now → SpdStands self.now.area (C.words c.old) s es → PoolFits (P.capacity pool.old) (P.taken pool.old) (P.gives pool.old) (P.takes pool.old) self.now.area.slots (listed_in self.now.area (C.words c.old)) → ReplyIs (P.held pool.new) s (λ t. (policy_update t spec.now).reply) result }
        ensures plain { (s : Shown) (es : List (ℕ × Policy)) → P.held pool.new ≡ 0 → IsAt s now → SpdStands self.now.area (C.words c.old) s es → PoolFits (P.capacity pool.old) (P.taken pool.old) (P.gives pool.old) (P.takes pool.old) self.now.area.slots (listed_in self.now.area (C.words c.old)) → index_reply result ≡ (policy_update s spec.now).reply }
        ensures stands { (s : Shown) (es : List (ℕ × Policy)) → IsAt s now → SpdStands self.now.area (C.words c.old) s es → PoolFits (P.capacity pool.old) (P.taken pool.old) (P.gives pool.old) (P.takes pool.old) self.now.area.slots (listed_in self.now.area (C.words c.old)) → IfOk result (λ index. Replaces self.now.area (C.words c.new) s es (P.gives pool.old) index spec.now (policy_update s spec.now)) }
        ensures pool { (s : Shown) (es : List (ℕ × Policy)) → P.lasts pool.old ≡ true → IsAt s now → SpdStands self.now.area (C.words c.old) s es → PoolFits (P.capacity pool.old) (P.taken pool.old) (P.gives pool.old) (P.takes pool.old) self.now.area.slots (listed_in self.now.area (C.words c.old)) → PoolFits (P.capacity pool.new) (P.taken pool.new) (P.gives pool.new) (P.takes pool.new) self.now.area.slots (listed_in self.now.area (C.words c.new)) }
    {
        if is_bad_index(spec) {
            return Err(SpdFault::Invalid);
        }
        match (Listing { area: self.area }).same_here(c, spec) {
            Some(entry) => Ok(self.replace(c, &entry, spec, now)),
            None => self.add_new(c, pool, spec, now),
        }
    }
}
