//! The policy at a place of the list.
ghost use Rattle.std.specs.Prelude.{◌≡◌, ◌≤◌, ◌*◌, ◌+◌, ℕ, ◌<◌, List};
ghost use Rattle.xf_cells.specs.Words.{Narrows};
ghost use Rattle.xf_image.specs.Layout.{record_at};
ghost use Rattle.xf_inexact.specs.Whole.{WholeFits};
ghost use Rattle.xf_listing.specs.Walks.{nth_on};
ghost use Rattle.xf_image.specs.Readings.{listed_in};

use crate::listing::Listing;
use xf_cells::Load;
use xf_chain::Walk;
use xf_records::get_policy;
use xf_types::Policy;

impl Listing {
    /// The policy in a slot.
    pub fn policy_in<L: Load>(&self, l: &mut L, slot: u32, size: u32) -> Option<Policy>
        requires size { size ≡ L.size l.old }
        requires fits { WholeFits self.now.area (L.size l.old) }
        requires slot { slot < self.now.area.slots }
        ensures size { L.size l.new ≡ L.size l.old }
        ensures begun { L.begun l.new ≡ L.begun l.old }
        ensures rest { L.rest l.new ≡ L.rest l.old }
        ensures among { Narrows (L.agrees l.old) (L.agrees l.new) }
        ensures loads { L.loads l.new ≤ L.loads l.old + 101 }
        ensures answer { (image : List ℕ) → L.agrees l.new image → result ≡ record_at self.now.area image slot }
    {
        get_policy(l, self.record(slot, size))
    }

    /// The policy at a place of the list.
    pub fn nth_listed<L: Load>(&self, l: &mut L, place: u32) -> Option<Policy>
        requires { WholeFits self.now.area (L.size l.old) }
        ensures size { L.size l.new ≡ L.size l.old }
        ensures begun { L.begun l.new ≡ L.begun l.old }
        ensures rest { L.rest l.new ≡ L.rest l.old }
        ensures among { Narrows (L.agrees l.old) (L.agrees l.new) }
        ensures loads { L.loads l.new ≤ L.loads l.old + 103 + self.now.area.slots }
        ensures answer { (image : List ℕ) → L.agrees l.new image → result ≡ nth_on self.now.area image place (listed_in self.now.area image) }
    {
        let size = l.size();
        let chain = self.order(size).chain(0, size);
        let mut walk = Walk::start(&chain, l);
        let mut left = place;
        'slots: while let Some(slot) = walk.step(&chain, l) {
            if left == 0 {
                return self.policy_in(l, slot, size);
            }
            left -= 1;
        }
        None
    }
}
