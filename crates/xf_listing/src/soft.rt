//! A policy is warned of.
ghost use Rattle.std.specs.Prelude.{◌≡◌, ℕ, ◌<◌, true, List, Option, IfSome};
ghost use Rattle.xf_types.specs.declared.policy.Policy.{Policy};
ghost use Rattle.xf_types.specs.Machine.{Shown};
ghost use Rattle.xf_chain.specs.Chains.{Below};
ghost use Rattle.xf_index.specs.Indexes.{records_in};
ghost use Rattle.xf_image.specs.Entries.{slot_warned, IsEntry, with_policies};
ghost use Rattle.xf_image.specs.Frames.{Frame};
ghost use Rattle.xf_image.specs.Layout.{end_of};
ghost use Rattle.xf_inexact.specs.Whole.{SpdStands, WholeFits};
ghost use Rattle.xf_listing.specs.Walks.{slot_with};

use crate::listing::Listing;
use xf_cells::{Cells, Load};

impl Listing {
    /// The slot of the policy with an index, of cells, whose words stay.
    pub fn slot_here<C: Cells>(&self, c: &mut C, index: u32) -> Option<u32>
        requires { WholeFits self.now.area (C.size c.old) }
        ensures size { C.size c.new ≡ C.size c.old }
        ensures begun { C.begun c.new ≡ C.begun c.old }
        ensures rest { C.rest c.new ≡ C.rest c.old }
        ensures words { C.words c.new ≡ C.words c.old }
        ensures below { Below self.now.area.slots result }
        ensures answer { result ≡ slot_with self.now.area (C.words c.old) index }
    {
        self.slot_with(c, index)
    }

    /// Sets the flag of a slot's policy.
    pub fn set_soft_in<C: Cells>(&self, c: &mut C, slot: u32)
        requires fits { WholeFits self.now.area (C.size c.old) }
        requires slot { slot < self.now.area.slots }
        ensures size { C.size c.new ≡ C.size c.old }
        ensures begun { C.begun c.new ≡ true }
        ensures rest { C.rest c.new ≡ C.rest c.old }
        ensures frame { Frame self.now.area.base (end_of self.now.area) (C.words c.old) (C.words c.new) }
        ensures warns { (s : Shown) (es : List (ℕ × Policy)) (p : Policy) → IsEntry es slot p → SpdStands self.now.area (C.words c.old) s es → SpdStands self.now.area (C.words c.new) (with_policies s (records_in (slot_warned slot es))) (slot_warned slot es) }
    {
        c.begin();
        self.warn(c, slot);
    }
}
