//! A listed state leaves.
ghost use Rattle.std.specs.Prelude.{◌≡◌, ℕ, ◌<◌, true, List, ◌∷◌, ◌++◌};
ghost use Rattle.xf_types.specs.declared.state.Sa.{Sa};
ghost use Rattle.xf_types.specs.Machine.{Shown};
ghost use Rattle.xf_index.specs.Indexes.{records_in};
ghost use Rattle.xf_image.specs.Frames.{Frame};
ghost use Rattle.xf_sadidx.specs.Layout.{Fits, end_of};
ghost use Rattle.xf_sadimage.specs.States.{StatesStand};
ghost use Rattle.xf_sadlist.specs.Listed.{with_states};

use crate::header::count_less;
use crate::linking::cut;
use crate::listing::StateListing;
use crate::order::{after_in, before_in};
use xf_cells::Cells;
use xf_sadidx::SadIndex;
use xf_types::Sa;

impl StateListing {
    /// Takes the state of a slot out of the list. The words of its record stay as they are.
    pub fn leave<C: Cells>(&self, c: &mut C, slot: u32, s: &Sa)
        requires fits { Fits self.now.area (C.size c.old) }
        requires begun { C.begun c.old ≡ true }
        requires slot { slot < self.now.area.slots }
        ensures size { C.size c.new ≡ C.size c.old }
        ensures begun { C.begun c.new ≡ true }
        ensures rest { C.rest c.new ≡ C.rest c.old }
        ensures frame { Frame self.now.area.base (end_of self.now.area) (C.words c.old) (C.words c.new) }
        ensures stands { (shown : Shown) (front back : List (ℕ × Sa)) → StatesStand self.now.area (C.words c.old) shown (front ++ ((slot, s.now) ∷ back)) → StatesStand self.now.area (C.words c.new) (with_states shown (records_in (front ++ back))) (front ++ back) }
    {
        let before = before_in(self, c, slot);
        let after = after_in(self, c, slot);
        count_less(self, c);
        cut(self, c, before, after, slot);
        (SadIndex { area: self.area }).remove(c, slot, s);
    }
}
