//! Other thresholds: each policy goes to the part that it has under them.
ghost use Rattle.std.specs.Prelude.{◌≡◌, ℕ, true, List};
ghost use Rattle.xf_types.specs.declared.policy.Policy.{Policy};
ghost use Rattle.xf_types.specs.Changes.{shown_after};
ghost use Rattle.xf_types.specs.Machine.{Shown};
ghost use Rattle.xf_types.specs.PolicyRules.{policy_set};
ghost use Rattle.xf_image.specs.Frames.{Frame};
ghost use Rattle.xf_inexact.specs.Whole.{SpdStands, WholeFits, whole_end};

use crate::spd::Spd;
use xf_cells::Cells;
use xf_listing::Listing;
use xf_types::Thresholds;

impl Spd {
    /// Replaces the thresholds that are given. Policies move between the parts, and no answer changes.
    pub fn set<C: Cells>(&self, c: &mut C, t: &Thresholds)
        requires fits { WholeFits self.now.area (C.size c.old) }
        ensures size { C.size c.new ≡ C.size c.old }
        ensures begun { C.begun c.new ≡ true }
        ensures rest { C.rest c.new ≡ C.rest c.old }
        ensures frame { Frame self.now.area.base (whole_end self.now.area) (C.words c.old) (C.words c.new) }
        ensures stands { (s : Shown) (es : List (ℕ × Policy)) → SpdStands self.now.area (C.words c.old) s es → SpdStands self.now.area (C.words c.new) (shown_after s (policy_set s t.now).change) es }
    {
        let h4 = Listing { area: self.area }.given4(c, t);
        let h6 = Listing { area: self.area }.given6(c, t);
        Listing { area: self.area }.move_all(c, h4, h6);
    }
}
