//! The policies that the exact part doesn't take: they stand at the nodes of the trees behind the words of the list.
ghost use Rattle.std.specs.Prelude.{◌≡◌, ℕ, ◌<◌, not, true, false, List, [], ◌∷◌, ◌++◌, Option, length};
ghost use Rattle.xf_types.specs.declared.policy.Policy.{Policy};
ghost use Rattle.xf_types.specs.PolicyList.{comes_after};
ghost use Rattle.xf_chain.specs.Lists.{Misses, Apart};
ghost use Rattle.xf_index.specs.Indexes.{AllAre, slots_in};
ghost use Rattle.xf_image.specs.ExactKeys.{exact_key};
ghost use Rattle.xf_image.specs.Frames.{Frame};
ghost use Rattle.xf_image.specs.Layout.{end_of};
ghost use Rattle.xf_image.specs.Policies.{ColumnsStand};
ghost use Rattle.xf_exact.specs.Parts.{is_in_exact};
ghost use Rattle.xf_inexact.specs.Holds.{HoldPart};
ghost use Rattle.xf_inexact.specs.Whole.{WholeFits, trees_of, whole_end};

use crate::listing::Listing;
use xf_cells::Cells;
use xf_inexact::Inexact;
use xf_types::Policy;

impl Listing {
    /// Puts a slot into the chain of its policy's node.
    fn insert_at_node<C: Cells>(&self, c: &mut C, slot: u32, policy: &Policy)
        requires fits { WholeFits self.now.area (C.size c.old) }
        requires begun { C.begun c.old ≡ true }
        requires slot { slot < self.now.area.slots }
        ensures size { C.size c.new ≡ C.size c.old }
        ensures begun { C.begun c.new ≡ true }
        ensures rest { C.rest c.new ≡ C.rest c.old }
        ensures frame { Frame (end_of self.now.area) (whole_end self.now.area) (C.words c.old) (C.words c.new) }
        ensures entries { (h4 h6 : ℕ × ℕ) (front back : List (ℕ × Policy)) → is_in_exact h4 h6 policy.now ≡ false → ColumnsStand self.now.area (C.words c.old) (front ++ back) → Misses slot (slots_in (front ++ back)) → Apart (slots_in (front ++ back)) → length (front ++ back) < self.now.area.slots → AllAre (λ q. not (comes_after q policy.now)) true front → AllAre (λ q. not (comes_after q policy.now)) false back → HoldPart (trees_of self.now.area) (C.words c.old) h4 h6 (front ++ back) → HoldPart (trees_of self.now.area) (C.words c.new) h4 h6 (front ++ ((slot, policy.now) ∷ back)) }
    {
        Inexact::behind(self.area).insert(c, slot, policy);
    }

    /// Takes a slot out of the chain of its policy's node.
    fn remove_at_node<C: Cells>(&self, c: &mut C, slot: u32, policy: &Policy)
        requires fits { WholeFits self.now.area (C.size c.old) }
        requires begun { C.begun c.old ≡ true }
        requires slot { slot < self.now.area.slots }
        ensures size { C.size c.new ≡ C.size c.old }
        ensures begun { C.begun c.new ≡ true }
        ensures rest { C.rest c.new ≡ C.rest c.old }
        ensures frame { Frame (end_of self.now.area) (whole_end self.now.area) (C.words c.old) (C.words c.new) }
        ensures entries { (h4 h6 : ℕ × ℕ) (front back : List (ℕ × Policy)) → is_in_exact h4 h6 policy.now ≡ false → Apart (slots_in (front ++ ((slot, policy.now) ∷ back))) → HoldPart (trees_of self.now.area) (C.words c.old) h4 h6 (front ++ ((slot, policy.now) ∷ back)) → HoldPart (trees_of self.now.area) (C.words c.new) h4 h6 (front ++ back) }
    {
        Inexact::behind(self.area).remove(c, slot, policy);
    }

    /// Puts a slot to the front of the chain of its policy's node.
    fn front_at_node<C: Cells>(&self, c: &mut C, slot: u32, policy: &Policy)
        requires fits { WholeFits self.now.area (C.size c.old) }
        requires begun { C.begun c.old ≡ true }
        requires slot { slot < self.now.area.slots }
        ensures size { C.size c.new ≡ C.size c.old }
        ensures begun { C.begun c.new ≡ true }
        ensures rest { C.rest c.new ≡ C.rest c.old }
        ensures frame { Frame (end_of self.now.area) (whole_end self.now.area) (C.words c.old) (C.words c.new) }
        ensures entries { (h4 h6 : ℕ × ℕ) (back : List (ℕ × Policy)) → is_in_exact h4 h6 policy.now ≡ false → Misses slot (slots_in back) → Apart (slots_in back) → length back < self.now.area.slots → HoldPart (trees_of self.now.area) (C.words c.old) h4 h6 back → HoldPart (trees_of self.now.area) (C.words c.new) h4 h6 ((slot, policy.now) ∷ back) }
    {
        Inexact::behind(self.area).insert_first(c, slot, policy);
    }

    /// Empties the trees.
    pub(crate) fn empty_trees<C: Cells>(&self, c: &mut C)
        requires fits { WholeFits self.now.area (C.size c.old) }
        requires begun { C.begun c.old ≡ true }
        ensures size { C.size c.new ≡ C.size c.old }
        ensures begun { C.begun c.new ≡ true }
        ensures rest { C.rest c.new ≡ C.rest c.old }
        ensures frame { Frame (end_of self.now.area) (whole_end self.now.area) (C.words c.old) (C.words c.new) }
        ensures entries { (h4 h6 : ℕ × ℕ) → HoldPart (trees_of self.now.area) (C.words c.new) h4 h6 [] }
    {
        Inexact::behind(self.area).clear(c);
    }
}

impl Listing {
    /// Puts a slot into the chain of its policy's node, where the policy has no chain of the exact part.
    pub(crate) fn plant<C: Cells>(&self, c: &mut C, slot: u32, policy: &Policy, bucket: Option<u32>)
        requires fits { WholeFits self.now.area (C.size c.old) }
        requires begun { C.begun c.old ≡ true }
        requires slot { slot < self.now.area.slots }
        ensures size { C.size c.new ≡ C.size c.old }
        ensures begun { C.begun c.new ≡ true }
        ensures rest { C.rest c.new ≡ C.rest c.old }
        ensures frame { Frame (end_of self.now.area) (whole_end self.now.area) (C.words c.old) (C.words c.new) }
        ensures entries { (h4 h6 : ℕ × ℕ) (front back : List (ℕ × Policy)) → exact_key h4 h6 policy.now ≡ bucket → ColumnsStand self.now.area (C.words c.old) (front ++ back) → Misses slot (slots_in (front ++ back)) → Apart (slots_in (front ++ back)) → length (front ++ back) < self.now.area.slots → AllAre (λ q. not (comes_after q policy.now)) true front → AllAre (λ q. not (comes_after q policy.now)) false back → HoldPart (trees_of self.now.area) (C.words c.old) h4 h6 (front ++ back) → HoldPart (trees_of self.now.area) (C.words c.new) h4 h6 (front ++ ((slot, policy.now) ∷ back)) }
    {
        if bucket.is_none() {
            self.insert_at_node(c, slot, policy);
        }
    }

    /// Takes a slot out of the chain of its policy's node, where the policy has no chain of the exact part.
    pub(crate) fn uproot<C: Cells>(
        &self,
        c: &mut C,
        slot: u32,
        policy: &Policy,
        bucket: Option<u32>,
    )
        requires fits { WholeFits self.now.area (C.size c.old) }
        requires begun { C.begun c.old ≡ true }
        requires slot { slot < self.now.area.slots }
        ensures size { C.size c.new ≡ C.size c.old }
        ensures begun { C.begun c.new ≡ true }
        ensures rest { C.rest c.new ≡ C.rest c.old }
        ensures frame { Frame (end_of self.now.area) (whole_end self.now.area) (C.words c.old) (C.words c.new) }
        ensures entries { (h4 h6 : ℕ × ℕ) (front back : List (ℕ × Policy)) → exact_key h4 h6 policy.now ≡ bucket → Apart (slots_in (front ++ ((slot, policy.now) ∷ back))) → HoldPart (trees_of self.now.area) (C.words c.old) h4 h6 (front ++ ((slot, policy.now) ∷ back)) → HoldPart (trees_of self.now.area) (C.words c.new) h4 h6 (front ++ back) }
    {
        if bucket.is_none() {
            self.remove_at_node(c, slot, policy);
        }
    }

    /// Puts a slot to the front of the chain of its policy's node, where the policy has no chain of the exact part.
    pub(crate) fn plant_first<C: Cells>(
        &self,
        c: &mut C,
        slot: u32,
        policy: &Policy,
        bucket: Option<u32>,
    )
        requires fits { WholeFits self.now.area (C.size c.old) }
        requires begun { C.begun c.old ≡ true }
        requires slot { slot < self.now.area.slots }
        ensures size { C.size c.new ≡ C.size c.old }
        ensures begun { C.begun c.new ≡ true }
        ensures rest { C.rest c.new ≡ C.rest c.old }
        ensures frame { Frame (end_of self.now.area) (whole_end self.now.area) (C.words c.old) (C.words c.new) }
        ensures entries { (h4 h6 : ℕ × ℕ) (back : List (ℕ × Policy)) → exact_key h4 h6 policy.now ≡ bucket → Misses slot (slots_in back) → Apart (slots_in back) → length back < self.now.area.slots → HoldPart (trees_of self.now.area) (C.words c.old) h4 h6 back → HoldPart (trees_of self.now.area) (C.words c.new) h4 h6 ((slot, policy.now) ∷ back) }
    {
        if bucket.is_none() {
            self.front_at_node(c, slot, policy);
        }
    }
}
