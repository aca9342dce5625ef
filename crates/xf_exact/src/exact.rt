//! The policies that are found by exact match.
ghost use Rattle.std.specs.Prelude.{◌≡◌, ℕ, ◌+◌, ◌*◌, ◌<◌, ◌≤◌, ◌&&◌, not, true, false, List, ◌∷◌, ◌++◌, Option, length, slice_index};
ghost use Rattle.xf_types.specs.ExactPart.{is_exact_at};
ghost use Rattle.xf_types.specs.declared.policy.Policy.{Policy};
ghost use Rattle.xf_types.specs.PolicyList.{applies, comes_after};
ghost use Rattle.xf_cells.specs.Words.{Narrows};
ghost use Rattle.xf_chain.specs.Families.{IsOf, Outside, chain_at};
ghost use Rattle.xf_chain.specs.Chains.{slots_of};
ghost use Rattle.xf_index.specs.Indexes.{Indexed, AllAre, slots_in, picked};
ghost use Rattle.xf_chain.specs.Lists.{Misses, Apart};
ghost use Rattle.xf_image.specs.ExactKeys.{exact_key, spec_key, flow_number};
ghost use Rattle.xf_image.specs.Layout.{Fits, exact_of};
ghost use Rattle.xf_image.specs.Policies.{ColumnsStand};
ghost use Rattle.xf_image.specs.Readings.{hthresh4_in, hthresh6_in};
ghost use Rattle.xf_exact.specs.Hits.{first_of};
ghost use Rattle.xf_exact.specs.Parts.{is_in_exact, Tells, exact_key_in, flow_number_in, exact_first, with_slot, without_slot};

use crate::changing::{put, take};
use crate::firsts::first_on;
use crate::hit::Hit;
use crate::keys::{exact_number, is_exact_for, key_for};
use crate::thresholds::lens;
use xf_cells::{Cells, Load};
use xf_image::PolicyArea;
use xf_types::{Dir, Flow, Policy, PolicySpec, Ptype, Selector};

/// The policies that are found by exact match, in chains by the hash of their addresses, which are cut to the thresholds.
#[derive(Clone, Copy, Debug, PartialEq, Eq)]
pub struct Exact {
    pub area: PolicyArea,
}

impl Exact {
    /// Whether the part takes a policy under these thresholds of its family.
    pub fn takes(&self, p: &PolicySpec, local: u8, remote: u8) -> bool
        ensures { result ≡ is_exact_at (local, remote) p.now }
    {
        is_exact_for((local, remote), p.dir, &p.sel)
    }

    /// The chain of a selector, where the part takes it under the thresholds that the words tell.
    pub fn key<L: Load>(
        &self,
        l: &mut L,
        dir: Dir,
        ptype: Ptype,
        sel: &Selector,
        if_id: u32,
    ) -> Option<u32>
        requires { Fits self.now.area (L.size l.old) }
        ensures size { L.size l.new ≡ L.size l.old }
        ensures begun { L.begun l.new ≡ L.begun l.old }
        ensures rest { L.rest l.new ≡ L.rest l.old }
        ensures among { Narrows (L.agrees l.old) (L.agrees l.new) }
        ensures loads { L.loads l.new ≤ L.loads l.old + 2 }
        ensures below { IsOf (exact_of self.now.area) result }
        ensures answer { (image : List ℕ) → L.agrees l.new image → result ≡ spec_key (hthresh4_in self.now.area image) (hthresh6_in self.now.area image) dir ptype if_id sel.now }
    {
        let lens = lens(&self.area, l, &sel.src.addr);
        key_for(lens, dir, ptype, if_id, sel)
    }

    /// The chain of what applies to a flow.
    fn flow_number<L: Load>(&self, l: &mut L, ptype: Ptype, flow: &Flow) -> u32
        requires { Fits self.now.area (L.size l.old) }
        ensures size { L.size l.new ≡ L.size l.old }
        ensures begun { L.begun l.new ≡ L.begun l.old }
        ensures rest { L.rest l.new ≡ L.rest l.old }
        ensures among { Narrows (L.agrees l.old) (L.agrees l.new) }
        ensures loads { L.loads l.new ≤ L.loads l.old + 2 }
        ensures below { result < 1024 }
        ensures answer { (image : List ℕ) → L.agrees l.new image → result ≡ flow_number_in self.now.area image ptype flow.now }
    {
        let lens = lens(&self.area, l, &flow.src);
        exact_number(lens, ptype, flow.dir, flow.if_id, &flow.dst, &flow.src)
    }

    /// The first policy of the chain of a flow that applies to it.
    fn first_there<L: Load>(&self, l: &mut L, flow: &Flow, ptype: Ptype) -> Option<Hit>
        requires { Fits self.now.area (L.size l.old) }
        ensures size { L.size l.new ≡ L.size l.old }
        ensures begun { L.begun l.new ≡ L.begun l.old }
        ensures rest { L.rest l.new ≡ L.rest l.old }
        ensures among { Narrows (L.agrees l.old) (L.agrees l.new) }
        ensures most { L.loads l.new ≤ L.loads l.old + 6 + 16 * self.now.area.slots }
        ensures loads { (image : List ℕ) → L.agrees l.new image → L.loads l.new ≤ L.loads l.old + 6 + 16 * length (slots_of (chain_at (exact_of self.now.area) (flow_number_in self.now.area image ptype flow.now)) image) }
        ensures answer { (image : List ℕ) → L.agrees l.new image → result ≡ exact_first self.now.area image ptype flow.now }
    {
        let number = self.flow_number(l, ptype, flow);
        first_on(&self.area, l, &self.area.exact(), number, ptype, flow)
    }

    /// The first policy of this part that applies to the flow and has this ptype.
    pub fn first<L: Load>(&self, l: &mut L, flow: &Flow, ptype: Ptype) -> Option<Hit>
        requires { Fits self.now.area (L.size l.old) }
        ensures size { L.size l.new ≡ L.size l.old }
        ensures begun { L.begun l.new ≡ L.begun l.old }
        ensures rest { L.rest l.new ≡ L.rest l.old }
        ensures among { Narrows (L.agrees l.old) (L.agrees l.new) }
        ensures most { L.loads l.new ≤ L.loads l.old + 6 + 16 * self.now.area.slots }
        ensures loads { (image : List ℕ) (h4 h6 : ℕ × ℕ) (entries : List (ℕ × Policy)) → L.agrees l.new image → Tells self.now.area image h4 h6 → Indexed (exact_of self.now.area) image (exact_key h4 h6) entries → L.loads l.new ≤ L.loads l.old + 6 + 16 * length (picked (exact_key h4 h6) (flow_number h4 h6 ptype flow.now) entries) }
        ensures answer { (image : List ℕ) → L.agrees l.new image → result ≡ exact_first self.now.area image ptype flow.now }
        ensures policy { (image : List ℕ) (h4 h6 : ℕ × ℕ) (entries : List (ℕ × Policy)) → L.agrees l.new image → Tells self.now.area image h4 h6 → Indexed (exact_of self.now.area) image (exact_key h4 h6) entries → ColumnsStand self.now.area image entries → result ≡ first_of (λ p. is_in_exact h4 h6 p && applies ptype flow.now p) entries }
    {
        self.first_there(l, flow, ptype)
    }

    /// Puts a slot into the chain of its policy: what it writes.
    fn put<C: Cells>(&self, c: &mut C, slot: u32, p: &Policy)
        requires fits { Fits self.now.area (C.size c.old) }
        requires begun { C.begun c.old ≡ true }
        requires slot { slot < self.now.area.slots }
        ensures size { C.size c.new ≡ C.size c.old }
        ensures begun { C.begun c.new ≡ true }
        ensures rest { C.rest c.new ≡ C.rest c.old }
        ensures words { C.words c.new ≡ with_slot self.now.area (C.words c.old) (exact_of self.now.area) (exact_key_in self.now.area (C.words c.old) p.now) slot p.now }
    {
        let number = self.key(c, p.spec.dir, p.spec.ptype, &p.spec.sel, p.spec.if_id);
        put(&self.area, c, &self.area.exact(), number, slot, p);
    }

    /// Takes a slot out of the chain of its policy: what it writes.
    fn take<C: Cells>(&self, c: &mut C, slot: u32, p: &Policy)
        requires fits { Fits self.now.area (C.size c.old) }
        requires begun { C.begun c.old ≡ true }
        requires slot { slot < self.now.area.slots }
        ensures size { C.size c.new ≡ C.size c.old }
        ensures begun { C.begun c.new ≡ true }
        ensures rest { C.rest c.new ≡ C.rest c.old }
        ensures words { C.words c.new ≡ without_slot (C.words c.old) (exact_of self.now.area) (exact_key_in self.now.area (C.words c.old) p.now) slot }
    {
        let number = self.key(c, p.spec.dir, p.spec.ptype, &p.spec.sel, p.spec.if_id);
        take(c, &self.area.exact(), number, slot);
    }

    /// Puts a slot into the chain of its policy, where the part takes it. The slot's record is `p`.
    pub fn insert<C: Cells>(&self, c: &mut C, slot: u32, p: &Policy)
        requires fits { Fits self.now.area (C.size c.old) }
        requires begun { C.begun c.old ≡ true }
        requires slot { slot < self.now.area.slots }
        ensures size { C.size c.new ≡ C.size c.old }
        ensures begun { C.begun c.new ≡ true }
        ensures rest { C.rest c.new ≡ C.rest c.old }
        ensures words { C.words c.new ≡ with_slot self.now.area (C.words c.old) (exact_of self.now.area) (exact_key_in self.now.area (C.words c.old) p.now) slot p.now }
        ensures outside { (q : ℕ) → Outside (exact_of self.now.area) q → slice_index (C.words c.new) q ≡ slice_index (C.words c.old) q }
        ensures entries { (h4 h6 : ℕ × ℕ) (front back : List (ℕ × Policy)) → Tells self.now.area (C.words c.old) h4 h6 → ColumnsStand self.now.area (C.words c.old) (front ++ back) → Misses slot (slots_in (front ++ back)) → Apart (slots_in (front ++ back)) → AllAre (λ q. not (comes_after q p.now)) true front → AllAre (λ q. not (comes_after q p.now)) false back → Indexed (exact_of self.now.area) (C.words c.old) (exact_key h4 h6) (front ++ back) → Indexed (exact_of self.now.area) (C.words c.new) (exact_key h4 h6) (front ++ ((slot, p.now) ∷ back)) }
    {
        self.put(c, slot, p);
    }

    /// Takes a slot out of the chain of its policy, where the part takes it. The slot's record is `p`.
    pub fn remove<C: Cells>(&self, c: &mut C, slot: u32, p: &Policy)
        requires fits { Fits self.now.area (C.size c.old) }
        requires begun { C.begun c.old ≡ true }
        requires slot { slot < self.now.area.slots }
        ensures size { C.size c.new ≡ C.size c.old }
        ensures begun { C.begun c.new ≡ true }
        ensures rest { C.rest c.new ≡ C.rest c.old }
        ensures words { C.words c.new ≡ without_slot (C.words c.old) (exact_of self.now.area) (exact_key_in self.now.area (C.words c.old) p.now) slot }
        ensures outside { (q : ℕ) → Outside (exact_of self.now.area) q → slice_index (C.words c.new) q ≡ slice_index (C.words c.old) q }
        ensures entries { (h4 h6 : ℕ × ℕ) (front back : List (ℕ × Policy)) → Tells self.now.area (C.words c.old) h4 h6 → Apart (slots_in (front ++ ((slot, p.now) ∷ back))) → Indexed (exact_of self.now.area) (C.words c.old) (exact_key h4 h6) (front ++ ((slot, p.now) ∷ back)) → Indexed (exact_of self.now.area) (C.words c.new) (exact_key h4 h6) (front ++ back) }
    {
        self.take(c, slot, p);
    }
}
