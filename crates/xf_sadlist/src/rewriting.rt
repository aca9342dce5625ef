//! A listed state gets another record.
ghost use Rattle.std.specs.Prelude.{◌≡◌, ℕ, ◌<◌, true, List, ◌∷◌, ◌++◌};
ghost use Rattle.xf_types.specs.declared.state.Sa.{Sa};
ghost use Rattle.xf_types.specs.Machine.{Shown};
ghost use Rattle.xf_index.specs.Indexes.{records_in};
ghost use Rattle.xf_image.specs.Frames.{Frame};
ghost use Rattle.xf_sadidx.specs.declared.kind.Kind.{Kind};
ghost use Rattle.xf_sadidx.specs.Keys.{key_of};
ghost use Rattle.xf_sadidx.specs.Layout.{Fits, end_of};
ghost use Rattle.xf_sadimage.specs.States.{StatesStand};
ghost use Rattle.xf_sadlist.specs.Listed.{with_states};

use crate::listing::StateListing;
use xf_cells::Cells;
use xf_records::put_state;
use xf_types::Sa;

impl StateListing {
    /// Puts another record with the same hashes in the slot of a state. So it stays in its chains.
    pub fn rewrite<C: Cells>(&self, c: &mut C, slot: u32, s: &Sa)
        requires fits { Fits self.now.area (C.size c.old) }
        requires begun { C.begun c.old ≡ true }
        requires slot { slot < self.now.area.slots }
        ensures size { C.size c.new ≡ C.size c.old }
        ensures begun { C.begun c.new ≡ true }
        ensures rest { C.rest c.new ≡ C.rest c.old }
        ensures frame { Frame self.now.area.base (end_of self.now.area) (C.words c.old) (C.words c.new) }
        ensures stands { (shown : Shown) (front back : List (ℕ × Sa)) (was : Sa) → ((kind : Kind) → key_of kind s.now ≡ key_of kind was) → StatesStand self.now.area (C.words c.old) shown (front ++ ((slot, was) ∷ back)) → StatesStand self.now.area (C.words c.new) (with_states shown (records_in (front ++ ((slot, s.now) ∷ back)))) (front ++ ((slot, s.now) ∷ back)) }
    {
        put_state(c, self.area.record_place(slot), s);
    }
}
