//! Other thresholds: the exact part is filled anew, and then the trees.
ghost use Rattle.std.specs.Prelude.{◌≡◌, ℕ, ◌<◌, ◌≤◌, true, List, ◌∷◌, Some, length};
ghost use Rattle.xf_types.specs.declared.policy.Policy.{Policy};
ghost use Rattle.xf_types.specs.Machine.{Shown};
ghost use Rattle.xf_chain.specs.Lists.{Misses, Apart};
ghost use Rattle.xf_index.specs.Indexes.{slots_in};
ghost use Rattle.xf_image.specs.Entries.{with_thresholds};
ghost use Rattle.xf_image.specs.Frames.{Frame};
ghost use Rattle.xf_image.specs.Layout.{end_of, record_at};
ghost use Rattle.xf_image.specs.Policies.{PoliciesStand};
ghost use Rattle.xf_exact.specs.Parts.{Tells};
ghost use Rattle.xf_inexact.specs.Holds.{HoldPart};
ghost use Rattle.xf_inexact.specs.Whole.{SpdStands, WholeFits, trees_of, whole_end};

use crate::listing::Listing;
use xf_cells::Cells;
use xf_chain::Walk;

impl Listing {
    /// Puts a slot to the front of the chain of its policy's node, where the exact part doesn't take the policy.
    fn plant_one<C: Cells>(&self, c: &mut C, slot: u32)
        requires fits { WholeFits self.now.area (C.size c.old) }
        requires begun { C.begun c.old ≡ true }
        requires slot { slot < self.now.area.slots }
        ensures size { C.size c.new ≡ C.size c.old }
        ensures begun { C.begun c.new ≡ true }
        ensures rest { C.rest c.new ≡ C.rest c.old }
        ensures frame { Frame (end_of self.now.area) (whole_end self.now.area) (C.words c.old) (C.words c.new) }
        ensures entries { (h4 h6 : ℕ × ℕ) (back : List (ℕ × Policy)) (p : Policy) → record_at self.now.area (C.words c.old) slot ≡ Some p → Tells self.now.area (C.words c.old) h4 h6 → Misses slot (slots_in back) → Apart (slots_in back) → length back < self.now.area.slots → HoldPart (trees_of self.now.area) (C.words c.old) h4 h6 back → HoldPart (trees_of self.now.area) (C.words c.new) h4 h6 ((slot, p) ∷ back) }
    {
        if let Some(policy) = self.policy_here(c, slot) {
            let bucket = self.bucket_here(c, &policy);
            self.plant_first(c, slot, &policy, bucket);
        }
    }

    /// Fills the trees anew, from the last policy of the list back, so that each goes to the front.
    fn plant_all<C: Cells>(&self, c: &mut C)
        requires fits { WholeFits self.now.area (C.size c.old) }
        requires begun { C.begun c.old ≡ true }
        ensures size { C.size c.new ≡ C.size c.old }
        ensures begun { C.begun c.new ≡ true }
        ensures rest { C.rest c.new ≡ C.rest c.old }
        ensures frame { Frame (end_of self.now.area) (whole_end self.now.area) (C.words c.old) (C.words c.new) }
        ensures plants { (s : Shown) (es : List (ℕ × Policy)) → PoliciesStand self.now.area (C.words c.old) s es → SpdStands self.now.area (C.words c.new) s es }
    {
        self.empty_trees(c);
        let size = c.size();
        let chain = self.back(size).chain(0, size);
        let mut walk = Walk::start(&chain, c);
        'slots: while let Some(slot) = walk.step(&chain, c) {
            self.plant_one(c, slot);
        }
    }

    /// Moves all policies to the chains that they have under other thresholds.
    pub fn move_all<C: Cells>(&self, c: &mut C, h4: (u8, u8), h6: (u8, u8))
        requires fits { WholeFits self.now.area (C.size c.old) }
        requires local4 { h4.0 ≤ 32 }
        requires remote4 { h4.1 ≤ 32 }
        requires local6 { h6.0 ≤ 128 }
        requires remote6 { h6.1 ≤ 128 }
        ensures size { C.size c.new ≡ C.size c.old }
        ensures begun { C.begun c.new ≡ true }
        ensures rest { C.rest c.new ≡ C.rest c.old }
        ensures frame { Frame self.now.area.base (whole_end self.now.area) (C.words c.old) (C.words c.new) }
        ensures moves { (s : Shown) (es : List (ℕ × Policy)) → SpdStands self.now.area (C.words c.old) s es → SpdStands self.now.area (C.words c.new) (with_thresholds s h4 h6) es }
    {
        self.move_exact(c, h4, h6);
        self.plant_all(c);
    }
}
