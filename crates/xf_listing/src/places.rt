//! Where a policy goes and where it stands, found before the first store.
ghost use Rattle.std.specs.Prelude.{◌≡◌, ℕ, ◌<◌, List, Option};
ghost use Rattle.xf_cells.specs.Words.{Narrows};
ghost use Rattle.xf_chain.specs.Families.{IsOf};
ghost use Rattle.xf_image.specs.ExactKeys.{exact_key};
ghost use Rattle.xf_image.specs.Layout.{exact_of};
ghost use Rattle.xf_inexact.specs.Whole.{WholeFits};
ghost use Rattle.xf_image.specs.Placing.{places_for, places_of, ArePlaces};
ghost use Rattle.xf_image.specs.Readings.{hthresh4_in, hthresh6_in};

use crate::listing::Listing;
use xf_cells::{Cells, Load};
use xf_exact::{before_in, place_in, place_in_order};
use xf_image::Places;
use xf_types::Policy;

impl Listing {
    /// The chain of the exact part that a policy has under the thresholds that the words tell.
    fn bucket<L: Load>(&self, l: &mut L, policy: &Policy) -> Option<u32>
        requires { WholeFits self.now.area (L.size l.old) }
        ensures size { L.size l.new ≡ L.size l.old }
        ensures begun { L.begun l.new ≡ L.begun l.old }
        ensures rest { L.rest l.new ≡ L.rest l.old }
        ensures among { Narrows (L.agrees l.old) (L.agrees l.new) }
        ensures below { IsOf (exact_of self.now.area) result }
        ensures answer { (image : List ℕ) → L.agrees l.new image → result ≡ exact_key (hthresh4_in self.now.area image) (hthresh6_in self.now.area image) policy.now }
    {
        let spec = &policy.spec;
        self.key(l, spec.dir, spec.ptype, &spec.sel, spec.if_id)
    }

    /// Where a new policy goes.
    #[tactic(auto, using(crate::proofs::Wholes::list_fits))]
    pub(crate) fn places<L: Load>(&self, l: &mut L, policy: &Policy) -> Places
        requires { WholeFits self.now.area (L.size l.old) }
        ensures size { L.size l.new ≡ L.size l.old }
        ensures begun { L.begun l.new ≡ L.begun l.old }
        ensures rest { L.rest l.new ≡ L.rest l.old }
        ensures among { Narrows (L.agrees l.old) (L.agrees l.new) }
        ensures places { ArePlaces self.now.area result }
        ensures answer { (image : List ℕ) → L.agrees l.new image → result ≡ places_for self.now.area image (hthresh4_in self.now.area image) (hthresh6_in self.now.area image) policy.now }
    {
        let size = l.size();
        let row = policy.index % 1024;
        let bucket = self.bucket(l, policy);
        let order = place_in_order(&self.area, l, policy);
        let back = self.after(l, order);
        let exact = place_in(&self.area, l, policy, &self.exact(size), bucket);
        let indices = place_in(&self.area, l, policy, &self.indices(size), Some(row));
        Places {
            order,
            back,
            bucket,
            exact,
            row,
            indices,
        }
    }

    /// Where the policy in a slot stands. The list isn't walked: its neighbours are one load each.
    #[tactic(auto, using(crate::proofs::Wholes::list_fits))]
    pub(crate) fn stood<L: Load>(&self, l: &mut L, slot: u32, policy: &Policy) -> Places
        requires fits { WholeFits self.now.area (L.size l.old) }
        requires slot { slot < self.now.area.slots }
        ensures size { L.size l.new ≡ L.size l.old }
        ensures begun { L.begun l.new ≡ L.begun l.old }
        ensures rest { L.rest l.new ≡ L.rest l.old }
        ensures among { Narrows (L.agrees l.old) (L.agrees l.new) }
        ensures places { ArePlaces self.now.area result }
        ensures answer { (image : List ℕ) → L.agrees l.new image → result ≡ places_of self.now.area image (hthresh4_in self.now.area image) (hthresh6_in self.now.area image) policy.now slot }
    {
        let size = l.size();
        let row = policy.index % 1024;
        let bucket = self.bucket(l, policy);
        let order = self.before(l, Some(slot));
        let back = self.after(l, Some(slot));
        let exact = before_in(l, slot, &self.exact(size), bucket);
        let indices = before_in(l, slot, &self.indices(size), Some(row));
        Places {
            order,
            back,
            bucket,
            exact,
            row,
            indices,
        }
    }

    /// The chain of the exact part of cells, whose words stay.
    pub(crate) fn bucket_here<C: Cells>(&self, c: &mut C, policy: &Policy) -> Option<u32>
        requires { WholeFits self.now.area (C.size c.old) }
        ensures size { C.size c.new ≡ C.size c.old }
        ensures begun { C.begun c.new ≡ C.begun c.old }
        ensures rest { C.rest c.new ≡ C.rest c.old }
        ensures words { C.words c.new ≡ C.words c.old }
        ensures below { IsOf (exact_of self.now.area) result }
        ensures answer { result ≡ exact_key (hthresh4_in self.now.area (C.words c.old)) (hthresh6_in self.now.area (C.words c.old)) policy.now }
    {
        self.bucket(c, policy)
    }
}
