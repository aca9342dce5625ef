//! A listed state gets another record.
ghost use Rattle.std.specs.Prelude.{◌≡◌, ℕ, ◌<◌, Bool, true, List, ◌∷◌, ◌++◌};
ghost use Rattle.xf_types.specs.declared.state.Sa.{Sa};
ghost use Rattle.xf_types.specs.Machine.{Shown};
ghost use Rattle.xf_types.specs.StateRules.{refreshed_record};
ghost use Rattle.xf_index.specs.Indexes.{records_in};
ghost use Rattle.xf_records.specs.States.{dying_now};
ghost use Rattle.xf_image.specs.Frames.{Frame};
ghost use Rattle.xf_sadidx.specs.declared.kind.Kind.{Kind};
ghost use Rattle.xf_sadidx.specs.Keys.{key_of};
ghost use Rattle.xf_sadidx.specs.Layout.{Fits, end_of};
ghost use Rattle.xf_sadimage.specs.States.{StatesStand};
ghost use Rattle.xf_sadlist.specs.Listed.{with_states};

use crate::sad::Sad;
use xf_cells::Cells;
use xf_records::put_dying;
use xf_sadlist::StateListing;
use xf_types::{Sa, SaSpec};

/// A state with the limits of a request, and with its selector where it has one.
pub(crate) fn refreshed(s: &Sa, spec: &SaSpec) -> Sa
    ensures { result ≡ refreshed_record spec.now s.now }
{
    let mut fresh = *s;
    fresh.refresh(spec);
    fresh
}

impl Sad {
    /// Sets the flag of the state in a slot that it is dying, and changes nothing else.
    pub fn set_dying<C: Cells>(&self, c: &mut C, slot: u32)
        requires fits { Fits self.now.area (C.size c.old) }
        requires slot { slot < self.now.area.slots }
        ensures size { C.size c.new ≡ C.size c.old }
        ensures begun { C.begun c.new ≡ true }
        ensures rest { C.rest c.new ≡ C.rest c.old }
        ensures frame { Frame self.now.area.base (end_of self.now.area) (C.words c.old) (C.words c.new) }
        ensures stands { (s : Shown) (front back : List (ℕ × Sa)) (r : Sa) → StatesStand self.now.area (C.words c.old) s (front ++ ((slot, r) ∷ back)) → StatesStand self.now.area (C.words c.new) (with_states s (records_in (front ++ ((slot, dying_now r) ∷ back)))) (front ++ ((slot, dying_now r) ∷ back)) }
    {
        c.begin();
        put_dying(c, self.area.record_place(slot));
    }

    /// Puts another record with the same hashes in the slot of a state.
    pub(crate) fn rewrite<C: Cells>(&self, c: &mut C, slot: u32, s: &Sa)
        requires fits { Fits self.now.area (C.size c.old) }
        requires slot { slot < self.now.area.slots }
        ensures size { C.size c.new ≡ C.size c.old }
        ensures begun { C.begun c.new ≡ true }
        ensures rest { C.rest c.new ≡ C.rest c.old }
        ensures frame { Frame self.now.area.base (end_of self.now.area) (C.words c.old) (C.words c.new) }
        ensures stands { (shown : Shown) (front back : List (ℕ × Sa)) (was : Sa) → ((kind : Kind) → key_of kind s.now ≡ key_of kind was) → StatesStand self.now.area (C.words c.old) shown (front ++ ((slot, was) ∷ back)) → StatesStand self.now.area (C.words c.new) (with_states shown (records_in (front ++ ((slot, s.now) ∷ back)))) (front ++ ((slot, s.now) ∷ back)) }
    {
        c.begin();
        (StateListing { area: self.area }).rewrite(c, slot, s);
    }

    /// Gives the state in a slot the limits of a request, and its selector where it has one. It isn't dying then.
    pub fn refresh<C: Cells>(&self, c: &mut C, slot: u32, spec: &SaSpec)
        requires fits { Fits self.now.area (C.size c.old) }
        requires slot { slot < self.now.area.slots }
        ensures size { C.size c.new ≡ C.size c.old }
        ensures rest { C.rest c.new ≡ C.rest c.old }
        ensures frame { Frame self.now.area.base (end_of self.now.area) (C.words c.old) (C.words c.new) }
        ensures begun { (s : Shown) (front back : List (ℕ × Sa)) (r : Sa) → StatesStand self.now.area (C.words c.old) s (front ++ ((slot, r) ∷ back)) → C.begun c.new ≡ true }
        ensures stands { (s : Shown) (front back : List (ℕ × Sa)) (r : Sa) → StatesStand self.now.area (C.words c.old) s (front ++ ((slot, r) ∷ back)) → StatesStand self.now.area (C.words c.new) (with_states s (records_in (front ++ ((slot, refreshed_record spec.now r) ∷ back)))) (front ++ ((slot, refreshed_record spec.now r) ∷ back)) }
    {
        if let Some(s) = self.state_here(c, slot) {
            let fresh = refreshed(&s, spec);
            self.rewrite(c, slot, &fresh);
        }
    }
}
