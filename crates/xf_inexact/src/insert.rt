//! How a policy comes into the trees and into the chain of its node.
ghost use Rattle.std.specs.Prelude.{◌≡◌, ℕ, ◌<◌, ◌++◌, ◌∷◌, true, false, not, List, Option, length};
ghost use Rattle.xf_chain.specs.Chains.{Below};
ghost use Rattle.xf_chain.specs.Families.{IsOf, Lays};
ghost use Rattle.xf_chain.specs.Lists.{Apart, Misses};
ghost use Rattle.xf_exact.specs.Parts.{is_in_exact};
ghost use Rattle.xf_image.specs.Frames.{Frame};
ghost use Rattle.xf_image.specs.Placing.{place_in as place_for};
ghost use Rattle.xf_image.specs.Policies.{ColumnsStand};
ghost use Rattle.xf_index.specs.Indexes.{AllAre, slots_in};
ghost use Rattle.xf_types.specs.declared.policy.Policy.{Policy};
ghost use Rattle.xf_types.specs.PolicyList.{comes_after};
ghost use Rattle.xf_inexact.specs.Grown as grown;
ghost use Rattle.xf_inexact.specs.Holds.{HoldPart};
ghost use Rattle.xf_inexact.specs.Places as places;

use crate::inexact::Inexact;
use xf_cells::Cells;
use xf_exact::place_in;
use xf_types::Policy;

impl Inexact {
    // Puts a policy into the trees and its slot into the chain there: what it writes.
    #[tactic(auto, unfolding(crate::specs::Grown::policy_put), using(crate::proofs::Apart::policies_fit, crate::proofs::Apart::chains_lay))]
    fn put<C: Cells>(&self, c: &mut C, slot: u32, p: &Policy)
        requires fits { places.Fits self.now (C.size c.old) }
        requires begun { C.begun c.old ≡ true }
        requires slot { slot < self.now.area.slots }
        ensures size { C.size c.new ≡ C.size c.old }
        ensures begun { C.begun c.new ≡ true }
        ensures rest { C.rest c.new ≡ C.rest c.old }
        ensures words { C.words c.new ≡ grown.policy_put self.now (C.words c.old) slot p.now }
        ensures keys { grown.KeysFit p.now }
        ensures after { Below self.now.area.slots (place_for self.now.area (grown.source_grown self.now (C.words c.old) p.now) p.now (places.chains_of self.now) (grown.source_put self.now (C.words c.old) p.now)) }
    {
        let node = self.grow(c, p);
        let chains = self.chains();
        let after = place_in(&self.area, c, p, &chains, node);
        chains.insert(c, node, after, slot);
    }

    // The same at the front of the chain.
    #[tactic(auto, unfolding(crate::specs::Grown::policy_first), using(crate::proofs::Apart::chains_lay))]
    fn put_first<C: Cells>(&self, c: &mut C, slot: u32, p: &Policy)
        requires fits { places.Fits self.now (C.size c.old) }
        requires begun { C.begun c.old ≡ true }
        requires slot { slot < self.now.area.slots }
        ensures size { C.size c.new ≡ C.size c.old }
        ensures begun { C.begun c.new ≡ true }
        ensures rest { C.rest c.new ≡ C.rest c.old }
        ensures words { C.words c.new ≡ grown.policy_first self.now (C.words c.old) slot p.now }
        ensures keys { grown.KeysFit p.now }
    {
        let node = self.grow(c, p);
        self.chains().insert(c, node, None, slot);
    }
}

impl Inexact {
    /// Puts a policy's slot into the chain of its node, behind those that aren't asked after it. The slot's record is `p`, and the exact
    /// part doesn't take it.
    pub fn insert<C: Cells>(&self, c: &mut C, slot: u32, p: &Policy)
        requires fits { places.Fits self.now (C.size c.old) }
        requires begun { C.begun c.old ≡ true }
        requires slot { slot < self.now.area.slots }
        ensures size { C.size c.new ≡ C.size c.old }
        ensures begun { C.begun c.new ≡ true }
        ensures rest { C.rest c.new ≡ C.rest c.old }
        ensures frame { Frame self.now.base (places.end_of self.now) (C.words c.old) (C.words c.new) }
        ensures entries { (h4 h6 : ℕ × ℕ) (front back : List (ℕ × Policy)) → is_in_exact h4 h6 p.now ≡ false → ColumnsStand self.now.area (C.words c.old) (front ++ back) → Misses slot (slots_in (front ++ back)) → Apart (slots_in (front ++ back)) → length (front ++ back) < self.now.area.slots → AllAre (λ q. not (comes_after q p.now)) true front → AllAre (λ q. not (comes_after q p.now)) false back → HoldPart self.now (C.words c.old) h4 h6 (front ++ back) → HoldPart self.now (C.words c.new) h4 h6 (front ++ ((slot, p.now) ∷ back)) }
    {
        self.put(c, slot, p);
    }

    /// Puts a policy's slot to the front of the chain of its node: where policies come from the last one back, that is its place. The
    /// exact part doesn't take it.
    pub fn insert_first<C: Cells>(&self, c: &mut C, slot: u32, p: &Policy)
        requires fits { places.Fits self.now (C.size c.old) }
        requires begun { C.begun c.old ≡ true }
        requires slot { slot < self.now.area.slots }
        ensures size { C.size c.new ≡ C.size c.old }
        ensures begun { C.begun c.new ≡ true }
        ensures rest { C.rest c.new ≡ C.rest c.old }
        ensures frame { Frame self.now.base (places.end_of self.now) (C.words c.old) (C.words c.new) }
        ensures entries { (h4 h6 : ℕ × ℕ) (back : List (ℕ × Policy)) → is_in_exact h4 h6 p.now ≡ false → Misses slot (slots_in back) → Apart (slots_in back) → length back < self.now.area.slots → HoldPart self.now (C.words c.old) h4 h6 back → HoldPart self.now (C.words c.new) h4 h6 ((slot, p.now) ∷ back) }
    {
        self.put_first(c, slot, p);
    }
}
