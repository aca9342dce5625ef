//! A state is listed last.
ghost use Rattle.std.specs.Prelude.{◌≡◌, ℕ, ◌+◌, ◌<◌, true, List, [], ◌∷◌, ◌++◌};
ghost use Rattle.xf_types.specs.declared.state.Sa.{Sa};
ghost use Rattle.xf_types.specs.Machine.{Shown};
ghost use Rattle.xf_chain.specs.Lists.{Misses};
ghost use Rattle.xf_index.specs.Indexes.{slots_in};
ghost use Rattle.xf_image.specs.Frames.{Frame};
ghost use Rattle.xf_sadidx.specs.Layout.{Fits, end_of};
ghost use Rattle.xf_sadimage.specs.States.{StatesStand};
ghost use Rattle.xf_sadlist.specs.Listed.{with_state};

use crate::header::{count_in, tally};
use crate::linking::link;
use crate::listing::StateListing;
use crate::order::last_in;
use xf_cells::Cells;
use xf_records::put_state;
use xf_resize::Resize;
use xf_sadidx::SadIndex;
use xf_types::Sa;

impl StateListing {
    /// Lists a state last, in a slot where none is listed. Its id is the next one.
    pub fn come<C: Cells>(&self, c: &mut C, slot: u32, s: &Sa)
        requires fits { Fits self.now.area (C.size c.old) }
        requires begun { C.begun c.old ≡ true }
        requires slot { slot < self.now.area.slots }
        ensures size { C.size c.new ≡ C.size c.old }
        ensures begun { C.begun c.new ≡ true }
        ensures rest { C.rest c.new ≡ C.rest c.old }
        ensures frame { Frame self.now.area.base (end_of self.now.area) (C.words c.old) (C.words c.new) }
        ensures stands { (shown : Shown) (entries : List (ℕ × Sa)) → Misses slot (slots_in entries) → s.now.sid ≡ shown.next_sid → StatesStand self.now.area (C.words c.old) shown entries → StatesStand self.now.area (C.words c.new) (with_state shown s.now) (entries ++ ((slot, s.now) ∷ [])) }
    {
        let last = last_in(self, c);
        let count = count_in(self, c);
        tally(self, c, s.sid, count + 1);
        link(self, c, last, slot);
        (Resize { area: self.area }).make_room(c, count);
        (SadIndex { area: self.area }).insert(c, slot, s);
        put_state(c, self.area.record_place(slot), s);
    }
}
