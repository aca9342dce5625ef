//! What the changes write, area after area as they lie.
ghost use Rattle.std.specs.Prelude.{◌≡◌, ℕ, ◌<◌, ◌-◌, true, Some, slice_index, slice_set};
ghost use Rattle.xf_records.specs.Policies.{policy_at, policy_words, PolicyFits};
ghost use Rattle.xf_records.specs.Blocks.{stored};
ghost use Rattle.xf_image.specs.Layout.{count_place, record_place};
ghost use Rattle.xf_inexact.specs.Whole.{WholeFits};
ghost use Rattle.xf_image.specs.Placing.{ArePlaces};
ghost use Rattle.xf_image.specs.Writes.{counted, linked, ranked, added_words, removed_words, warned_words};

use crate::listing::Listing;
use xf_cells::Cells;
use xf_image::Places;
use xf_records::{put_policy, put_soft};
use xf_types::Policy;

impl Listing {
    /// One more policy is listed, and these numbers were given.
    #[tactic(auto, using(crate::proofs::Wholes::list_fits))]
    fn count_up<C: Cells>(&self, c: &mut C, index_word: u32, number: u64)
        requires fits { WholeFits self.now.area (C.size c.old) }
        requires begun { C.begun c.old ≡ true }
        ensures size { C.size c.new ≡ C.size c.old }
        ensures begun { C.begun c.new ≡ true }
        ensures rest { C.rest c.new ≡ C.rest c.old }
        ensures words { C.words c.new ≡ counted self.now.area (C.words c.old) index_word number }
    {
        let count = xf_cells::read(c, self.area.count_place());
        c.store(self.area.next_index_place(), u64::from(index_word));
        c.store(self.area.next_number_place(), number);
        c.store(self.area.count_place(), count.saturating_add(1));
    }

    /// Puts a slot into its chains.
    fn link<C: Cells>(&self, c: &mut C, places: &Places, slot: u32)
        requires fits { WholeFits self.now.area (C.size c.old) }
        requires begun { C.begun c.old ≡ true }
        requires places { ArePlaces self.now.area places.now }
        requires slot { slot < self.now.area.slots }
        ensures size { C.size c.new ≡ C.size c.old }
        ensures begun { C.begun c.new ≡ true }
        ensures rest { C.rest c.new ≡ C.rest c.old }
        ensures words { C.words c.new ≡ linked self.now.area (C.words c.old) places.now slot }
    {
        let size = c.size();
        self.order(size).insert(c, Some(0), places.order, slot);
        self.back(size).insert(c, Some(0), places.back, slot);
        self.exact(size)
            .insert(c, places.bucket, places.exact, slot);
        self.indices(size)
            .insert(c, Some(places.row), places.indices, slot);
    }

    /// Notes a policy's priority and number where walks read them.
    fn rank<C: Cells>(&self, c: &mut C, slot: u32, policy: &Policy)
        requires fits { WholeFits self.now.area (C.size c.old) }
        requires begun { C.begun c.old ≡ true }
        requires slot { slot < self.now.area.slots }
        ensures size { C.size c.new ≡ C.size c.old }
        ensures begun { C.begun c.new ≡ true }
        ensures rest { C.rest c.new ≡ C.rest c.old }
        ensures words { C.words c.new ≡ ranked self.now.area (C.words c.old) slot policy.now }
    {
        let size = c.size();
        c.store(self.priority(slot, size), u64::from(policy.spec.priority));
        c.store(self.number(slot, size), policy.number);
    }

    /// Puts a policy's record into a slot.
    fn put_record<C: Cells>(&self, c: &mut C, slot: u32, policy: &Policy)
        requires fits { WholeFits self.now.area (C.size c.old) }
        requires begun { C.begun c.old ≡ true }
        requires slot { slot < self.now.area.slots }
        ensures size { C.size c.new ≡ C.size c.old }
        ensures begun { C.begun c.new ≡ true }
        ensures rest { C.rest c.new ≡ C.rest c.old }
        ensures words { C.words c.new ≡ stored (C.words c.old) (record_place self.now.area slot) (policy_words policy.now) }
        ensures fits { PolicyFits policy.now }
    {
        let size = c.size();
        put_policy(c, self.record(slot, size), policy);
    }

    /// Puts a policy into a slot, and the slot into its chains.
    pub(crate) fn put<C: Cells>(
        &self,
        c: &mut C,
        places: &Places,
        slot: u32,
        policy: &Policy,
        index_word: u32,
    )
        requires fits { WholeFits self.now.area (C.size c.old) }
        requires begun { C.begun c.old ≡ true }
        requires places { ArePlaces self.now.area places.now }
        requires slot { slot < self.now.area.slots }
        ensures size { C.size c.new ≡ C.size c.old }
        ensures begun { C.begun c.new ≡ true }
        ensures rest { C.rest c.new ≡ C.rest c.old }
        ensures words { C.words c.new ≡ added_words self.now.area (C.words c.old) places.now slot policy.now index_word }
        ensures fits { PolicyFits policy.now }
    {
        self.count_up(c, index_word, policy.number);
        self.link(c, places, slot);
        self.rank(c, slot, policy);
        self.put_record(c, slot, policy);
    }

    /// One policy less is listed.
    #[tactic(auto, using(crate::proofs::Wholes::list_fits))]
    fn count_down<C: Cells>(&self, c: &mut C)
        requires fits { WholeFits self.now.area (C.size c.old) }
        requires begun { C.begun c.old ≡ true }
        ensures size { C.size c.new ≡ C.size c.old }
        ensures begun { C.begun c.new ≡ true }
        ensures rest { C.rest c.new ≡ C.rest c.old }
        ensures words { C.words c.new ≡ slice_set (C.words c.old) (count_place self.now.area) (slice_index (C.words c.old) (count_place self.now.area) - 1) }
    {
        let count = xf_cells::read(c, self.area.count_place());
        c.store(self.area.count_place(), count.saturating_sub(1));
    }

    /// Takes a slot out of its chains.
    pub(crate) fn cut<C: Cells>(&self, c: &mut C, places: &Places, slot: u32)
        requires fits { WholeFits self.now.area (C.size c.old) }
        requires begun { C.begun c.old ≡ true }
        requires places { ArePlaces self.now.area places.now }
        requires slot { slot < self.now.area.slots }
        ensures size { C.size c.new ≡ C.size c.old }
        ensures begun { C.begun c.new ≡ true }
        ensures rest { C.rest c.new ≡ C.rest c.old }
        ensures words { C.words c.new ≡ removed_words self.now.area (C.words c.old) places.now slot }
    {
        let size = c.size();
        self.count_down(c);
        self.order(size).remove(c, Some(0), places.order, slot);
        self.back(size).remove(c, Some(0), places.back, slot);
        self.exact(size)
            .remove(c, places.bucket, places.exact, slot);
        self.indices(size)
            .remove(c, Some(places.row), places.indices, slot);
    }

    /// Sets the flag in a slot's record.
    pub(crate) fn warn<C: Cells>(&self, c: &mut C, slot: u32)
        requires fits { WholeFits self.now.area (C.size c.old) }
        requires begun { C.begun c.old ≡ true }
        requires slot { slot < self.now.area.slots }
        ensures size { C.size c.new ≡ C.size c.old }
        ensures begun { C.begun c.new ≡ true }
        ensures rest { C.rest c.new ≡ C.rest c.old }
        ensures words { C.words c.new ≡ warned_words self.now.area (C.words c.old) slot }
    {
        let size = c.size();
        put_soft(c, self.record(slot, size));
    }
}
