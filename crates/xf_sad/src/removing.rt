//! A state leaves, and its slot goes back to the pool.
ghost use Rattle.std.specs.Prelude.{◌≡◌, ℕ, ◌+◌, ◌<◌, Bool, true, List, ◌∷◌, ◌++◌};
ghost use Rattle.xf_types.specs.declared.state.Sa.{Sa};
ghost use Rattle.xf_types.specs.Machine.{Shown};
ghost use Rattle.xf_index.specs.Indexes.{records_in};
ghost use Rattle.xf_image.specs.Frames.{Frame};
ghost use Rattle.xf_sadidx.specs.Layout.{Fits, end_of};
ghost use Rattle.xf_sadimage.specs.States.{StatesStand};
ghost use Rattle.xf_sadlist.specs.Listed.{with_states};
ghost use Rattle.xf_sad.specs.Slots.{PoolFits, listed_in};

use crate::sad::Sad;
use xf_cells::{Cells, Pool};
use xf_sadlist::StateListing;
use xf_types::Sa;

impl Sad {
    /// Takes a state out of its slot, and gives the slot back.
    fn remove<C: Cells, P: Pool>(&self, c: &mut C, pool: &mut P, slot: u32, s: &Sa)
        requires fits { Fits self.now.area (C.size c.old) }
        requires slot { slot < self.now.area.slots }
        requires back { P.takes pool.old slot }
        ensures size { C.size c.new ≡ C.size c.old }
        ensures begun { C.begun c.new ≡ true }
        ensures rest { C.rest c.new ≡ C.rest c.old }
        ensures capacity { P.capacity pool.new ≡ P.capacity pool.old }
        ensures lasts { P.lasts pool.new ≡ P.lasts pool.old }
        ensures held { P.held pool.new ≡ P.held pool.old }
        ensures returned { P.returned pool.new slot }
        ensures out { P.taken pool.new + 1 ≡ P.taken pool.old }
        ensures frame { Frame self.now.area.base (end_of self.now.area) (C.words c.old) (C.words c.new) }
        ensures stands { (shown : Shown) (front back : List (ℕ × Sa)) → StatesStand self.now.area (C.words c.old) shown (front ++ ((slot, s.now) ∷ back)) → StatesStand self.now.area (C.words c.new) (with_states shown (records_in (front ++ back))) (front ++ back) }
        ensures pool { (shown : Shown) (front back : List (ℕ × Sa)) → P.lasts pool.old ≡ true → StatesStand self.now.area (C.words c.old) shown (front ++ ((slot, s.now) ∷ back)) → PoolFits (P.capacity pool.old) (P.taken pool.old) (P.gives pool.old) (P.takes pool.old) self.now.area.slots (listed_in self.now.area (C.words c.old)) → PoolFits (P.capacity pool.new) (P.taken pool.new) (P.gives pool.new) (P.takes pool.new) self.now.area.slots (listed_in self.now.area (C.words c.new)) }
    {
        c.begin();
        (StateListing { area: self.area }).leave(c, slot, s);
        pool.give(slot);
    }

    /// Removes the state in a slot. The pool has to take back the slot. A loop over the list asks for the next slot before.
    pub fn delete<C: Cells, P: Pool>(&self, c: &mut C, pool: &mut P, slot: u32)
        requires fits { Fits self.now.area (C.size c.old) }
        requires slot { slot < self.now.area.slots }
        requires back { P.takes pool.old slot }
        ensures size { C.size c.new ≡ C.size c.old }
        ensures rest { C.rest c.new ≡ C.rest c.old }
        ensures capacity { P.capacity pool.new ≡ P.capacity pool.old }
        ensures lasts { P.lasts pool.new ≡ P.lasts pool.old }
        ensures held { P.held pool.new ≡ P.held pool.old }
        ensures frame { Frame self.now.area.base (end_of self.now.area) (C.words c.old) (C.words c.new) }
        ensures begun { (s : Shown) (front back : List (ℕ × Sa)) (r : Sa) → StatesStand self.now.area (C.words c.old) s (front ++ ((slot, r) ∷ back)) → C.begun c.new ≡ true }
        ensures returned { (s : Shown) (front back : List (ℕ × Sa)) (r : Sa) → StatesStand self.now.area (C.words c.old) s (front ++ ((slot, r) ∷ back)) → P.returned pool.new slot }
        ensures out { (s : Shown) (front back : List (ℕ × Sa)) (r : Sa) → StatesStand self.now.area (C.words c.old) s (front ++ ((slot, r) ∷ back)) → P.taken pool.new + 1 ≡ P.taken pool.old }
        ensures stands { (s : Shown) (front back : List (ℕ × Sa)) (r : Sa) → StatesStand self.now.area (C.words c.old) s (front ++ ((slot, r) ∷ back)) → StatesStand self.now.area (C.words c.new) (with_states s (records_in (front ++ back))) (front ++ back) }
        ensures pool { (s : Shown) (front back : List (ℕ × Sa)) (r : Sa) → P.lasts pool.old ≡ true → StatesStand self.now.area (C.words c.old) s (front ++ ((slot, r) ∷ back)) → PoolFits (P.capacity pool.old) (P.taken pool.old) (P.gives pool.old) (P.takes pool.old) self.now.area.slots (listed_in self.now.area (C.words c.old)) → PoolFits (P.capacity pool.new) (P.taken pool.new) (P.gives pool.new) (P.takes pool.new) self.now.area.slots (listed_in self.now.area (C.words c.new)) }
    {
        if let Some(s) = self.state_here(c, slot) {
            self.remove(c, pool, slot, &s);
        }
    }
}
