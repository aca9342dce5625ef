//! A policy is warned of.
ghost use Rattle.std.specs.Prelude.{◌≡◌, ℕ, true, List};
ghost use Rattle.xf_types.specs.declared.policy.Policy.{Policy};
ghost use Rattle.xf_types.specs.IsMachine.{IsPolicyList};
ghost use Rattle.xf_types.specs.Machine.{Shown};
ghost use Rattle.xf_index.specs.Indexes.{records_in};
ghost use Rattle.xf_image.specs.Entries.{slot_warned, IsEntry, with_policies};
ghost use Rattle.xf_image.specs.Frames.{Frame};
ghost use Rattle.xf_image.specs.Layout.{end_of};
ghost use Rattle.xf_inexact.specs.Whole.{SpdStands, WholeFits};
ghost use Rattle.xf_listing.specs.Walks.{is_taken_in};

use crate::spd::Spd;
use xf_cells::Cells;
use xf_listing::Listing;

impl Spd {
    /// Sets the flag of the policy with an index by which it warned, and changes nothing else. A listed policy has the index.
    pub fn set_soft<C: Cells>(&self, c: &mut C, index: u32)
        requires fits { WholeFits self.now.area (C.size c.old) }
        requires listed { is_taken_in self.now.area (C.words c.old) index ≡ true }
        ensures size { C.size c.new ≡ C.size c.old }
        ensures begun { C.begun c.new ≡ true }
        ensures rest { C.rest c.new ≡ C.rest c.old }
        ensures frame { Frame self.now.area.base (end_of self.now.area) (C.words c.old) (C.words c.new) }
        ensures stands { (s : Shown) (es : List (ℕ × Policy)) (slot : ℕ) (p : Policy) → IsEntry es slot p → p.index ≡ index → IsPolicyList s → SpdStands self.now.area (C.words c.old) s es → SpdStands self.now.area (C.words c.new) (with_policies s (records_in (slot_warned slot es))) (slot_warned slot es) }
    {
        if let Some(slot) = (Listing { area: self.area }).slot_here(c, index) {
            Listing { area: self.area }.set_soft_in(c, slot);
        }
    }
}
