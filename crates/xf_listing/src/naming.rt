//! Which policy is meant, found along one short chain.
ghost use Rattle.std.specs.Prelude.{◌≡◌, ◌≤◌, ◌*◌, ◌+◌, ℕ, ◌<◌, List, Option, IfSome};
ghost use Rattle.xf_cells.specs.Words.{Narrows};
ghost use Rattle.xf_chain.specs.Chains.{Below};
ghost use Rattle.xf_chain.specs.Families.{IsOf, chain_at};
ghost use Rattle.xf_image.specs.ExactKeys.{spec_key};
ghost use Rattle.xf_image.specs.Layout.{exact_of, record_at};
ghost use Rattle.xf_exact.specs.Walks.{found_on};
ghost use Rattle.xf_inexact.specs.Keys.{selector_node};
ghost use Rattle.xf_inexact.specs.Places.{chains_of};
ghost use Rattle.xf_inexact.specs.Whole.{WholeFits, trees_of};
ghost use Rattle.xf_image.specs.Readings.{hthresh4_in, hthresh6_in};
ghost use Rattle.xf_listing.specs.Calls.{found_with, found_at, found_there, slot_under, slot_named, same_in, named_in};

use crate::entry::Entry;
use crate::listing::Listing;
use xf_cells::{Cells, Load};
use xf_exact::{Exact, Query, found};
use xf_inexact::Inexact;
use xf_types::{Dir, Mark, PolicyKey, PolicySpec, Ptype, Selector};

impl Listing {
    /// The chain of the exact part that a selector has under the thresholds that the words tell.
    #[tactic(auto, using(crate::proofs::Wholes::list_fits))]
    pub(crate) fn key<L: Load>(
        &self,
        l: &mut L,
        dir: Dir,
        ptype: Ptype,
        sel: &Selector,
        if_id: u32,
    ) -> Option<u32>
        requires { WholeFits self.now.area (L.size l.old) }
        ensures size { L.size l.new ≡ L.size l.old }
        ensures begun { L.begun l.new ≡ L.begun l.old }
        ensures rest { L.rest l.new ≡ L.rest l.old }
        ensures among { Narrows (L.agrees l.old) (L.agrees l.new) }
        ensures loads { L.loads l.new ≤ L.loads l.old + 2 }
        ensures below { IsOf (exact_of self.now.area) result }
        ensures answer { (image : List ℕ) → L.agrees l.new image → result ≡ spec_key (hthresh4_in self.now.area image) (hthresh6_in self.now.area image) dir ptype if_id sel.now }
    {
        let part = Exact { area: self.area };
        part.key(l, dir, ptype, sel, if_id)
    }

    /// The slot of what is asked for, in a chain of the exact part.
    #[tactic(auto, using(crate::proofs::Wholes::list_fits))]
    fn found_exact<L: Load>(&self, l: &mut L, number: u32, query: &Query) -> Option<u32>
        requires fits { WholeFits self.now.area (L.size l.old) }
        requires number { number < 1024 }
        ensures size { L.size l.new ≡ L.size l.old }
        ensures begun { L.begun l.new ≡ L.begun l.old }
        ensures rest { L.rest l.new ≡ L.rest l.old }
        ensures among { Narrows (L.agrees l.old) (L.agrees l.new) }
        ensures loads { L.loads l.new ≤ L.loads l.old + 2 + 16 * self.now.area.slots }
        ensures below { Below self.now.area.slots result }
        ensures answer { (image : List ℕ) → L.agrees l.new image → result ≡ found_on self.now.area image query.now (chain_at (exact_of self.now.area) number) }
    {
        let size = l.size();
        let chain = self.exact(size).chain(number, size);
        found(&self.area, l, &chain, query)
    }

    /// The slot of what is asked for, in the chain of a node, where there is one.
    #[tactic(auto, using(crate::proofs::Wholes::list_fits))]
    fn found_there<L: Load>(&self, l: &mut L, node: Option<u32>, query: &Query) -> Option<u32>
        requires fits { WholeFits self.now.area (L.size l.old) }
        requires node { IsOf (chains_of (trees_of self.now.area)) node }
        ensures size { L.size l.new ≡ L.size l.old }
        ensures begun { L.begun l.new ≡ L.begun l.old }
        ensures rest { L.rest l.new ≡ L.rest l.old }
        ensures among { Narrows (L.agrees l.old) (L.agrees l.new) }
        ensures loads { L.loads l.new ≤ L.loads l.old + 2 + 16 * self.now.area.slots }
        ensures below { Below self.now.area.slots result }
        ensures answer { (image : List ℕ) → L.agrees l.new image → result ≡ found_there self.now.area image query.now node }
    {
        let size = l.size();
        let chain = self.chains(size).chain(node?, size);
        found(&self.area, l, &chain, query)
    }

    /// The node of a selector.
    fn node<L: Load>(
        &self,
        l: &mut L,
        dir: Dir,
        ptype: Ptype,
        sel: &Selector,
        if_id: u32,
    ) -> Option<u32>
        requires { WholeFits self.now.area (L.size l.old) }
        ensures size { L.size l.new ≡ L.size l.old }
        ensures begun { L.begun l.new ≡ L.begun l.old }
        ensures rest { L.rest l.new ≡ L.rest l.old }
        ensures among { Narrows (L.agrees l.old) (L.agrees l.new) }
        ensures loads { L.loads l.new ≤ L.loads l.old + 1953 }
        ensures below { IsOf (chains_of (trees_of self.now.area)) result }
        ensures answer { (image : List ℕ) → L.agrees l.new image → result ≡ selector_node (trees_of self.now.area) image dir ptype if_id sel.now }
    {
        let trees = Inexact::behind(self.area);
        trees.node(l, dir, ptype, sel, if_id)
    }

    /// The slot of the policy that is listed under these.
    fn slot_under<L: Load>(
        &self,
        l: &mut L,
        dir: Dir,
        ptype: Ptype,
        sel: &Selector,
        mark: Mark,
        if_id: u32,
    ) -> Option<u32>
        requires { WholeFits self.now.area (L.size l.old) }
        ensures size { L.size l.new ≡ L.size l.old }
        ensures begun { L.begun l.new ≡ L.begun l.old }
        ensures rest { L.rest l.new ≡ L.rest l.old }
        ensures among { Narrows (L.agrees l.old) (L.agrees l.new) }
        ensures loads { L.loads l.new ≤ L.loads l.old + 1957 + 16 * self.now.area.slots }
        ensures below { Below self.now.area.slots result }
        ensures answer { (image : List ℕ) → L.agrees l.new image → result ≡ slot_under self.now.area image dir ptype sel.now mark if_id }
    {
        let query = Query::Under {
            dir,
            ptype,
            sel: *sel,
            mark,
            if_id,
        };
        match self.key(l, dir, ptype, sel, if_id) {
            Some(number) => self.found_exact(l, number, &query),
            None => {
                let node = self.node(l, dir, ptype, sel, if_id);
                self.found_there(l, node, &query)
            }
        }
    }

    /// The slot of the policy that a key names.
    fn slot_named<L: Load>(&self, l: &mut L, key: &PolicyKey) -> Option<u32>
        requires { WholeFits self.now.area (L.size l.old) }
        ensures size { L.size l.new ≡ L.size l.old }
        ensures begun { L.begun l.new ≡ L.begun l.old }
        ensures rest { L.rest l.new ≡ L.rest l.old }
        ensures among { Narrows (L.agrees l.old) (L.agrees l.new) }
        ensures loads { L.loads l.new ≤ L.loads l.old + 1957 + 16 * self.now.area.slots }
        ensures below { Below self.now.area.slots result }
        ensures answer { (image : List ℕ) → L.agrees l.new image → result ≡ slot_named self.now.area image key.now }
    {
        match key {
            PolicyKey::Index { dir: _, index } => self.slot_with(l, *index),
            PolicyKey::Same {
                dir,
                ptype,
                sel,
                mark,
                if_id,
            } => self.slot_under(l, *dir, *ptype, sel, *mark, *if_id),
        }
    }

    /// The policy in a slot, with the slot.
    fn found_with<L: Load>(&self, l: &mut L, slot: u32) -> Option<Entry>
        requires fits { WholeFits self.now.area (L.size l.old) }
        requires slot { slot < self.now.area.slots }
        ensures size { L.size l.new ≡ L.size l.old }
        ensures begun { L.begun l.new ≡ L.begun l.old }
        ensures rest { L.rest l.new ≡ L.rest l.old }
        ensures among { Narrows (L.agrees l.old) (L.agrees l.new) }
        ensures loads { L.loads l.new ≤ L.loads l.old + 101 }
        ensures below { IfSome result (λ f. f.slot < self.now.area.slots) }
        ensures answer { (image : List ℕ) → L.agrees l.new image → result ≡ found_with slot (record_at self.now.area image slot) }
    {
        let size = l.size();
        let policy = self.policy_in(l, slot, size)?;
        Some(Entry { slot, policy })
    }

    fn found_at<L: Load>(&self, l: &mut L, slot: Option<u32>) -> Option<Entry>
        requires fits { WholeFits self.now.area (L.size l.old) }
        requires slot { Below self.now.area.slots slot }
        ensures size { L.size l.new ≡ L.size l.old }
        ensures begun { L.begun l.new ≡ L.begun l.old }
        ensures rest { L.rest l.new ≡ L.rest l.old }
        ensures among { Narrows (L.agrees l.old) (L.agrees l.new) }
        ensures loads { L.loads l.new ≤ L.loads l.old + 101 }
        ensures below { IfSome result (λ f. f.slot < self.now.area.slots) }
        ensures answer { (image : List ℕ) → L.agrees l.new image → result ≡ found_at self.now.area image slot }
    {
        let slot = slot?;
        self.found_with(l, slot)
    }

    /// The policy that is the same.
    fn same<L: Load>(&self, l: &mut L, spec: &PolicySpec) -> Option<Entry>
        requires { WholeFits self.now.area (L.size l.old) }
        ensures size { L.size l.new ≡ L.size l.old }
        ensures begun { L.begun l.new ≡ L.begun l.old }
        ensures rest { L.rest l.new ≡ L.rest l.old }
        ensures among { Narrows (L.agrees l.old) (L.agrees l.new) }
        ensures below { IfSome result (λ f. f.slot < self.now.area.slots) }
        ensures answer { (image : List ℕ) → L.agrees l.new image → result ≡ same_in self.now.area image spec.now }
    {
        let slot = self.slot_under(l, spec.dir, spec.ptype, &spec.sel, spec.mark, spec.if_id);
        self.found_at(l, slot)
    }

    /// The policy that a key names.
    pub fn named<L: Load>(&self, l: &mut L, key: &PolicyKey) -> Option<Entry>
        requires { WholeFits self.now.area (L.size l.old) }
        ensures size { L.size l.new ≡ L.size l.old }
        ensures begun { L.begun l.new ≡ L.begun l.old }
        ensures rest { L.rest l.new ≡ L.rest l.old }
        ensures among { Narrows (L.agrees l.old) (L.agrees l.new) }
        ensures loads { L.loads l.new ≤ L.loads l.old + 2058 + 16 * self.now.area.slots }
        ensures below { IfSome result (λ f. f.slot < self.now.area.slots) }
        ensures answer { (image : List ℕ) → L.agrees l.new image → result ≡ named_in self.now.area image key.now }
    {
        let slot = self.slot_named(l, key);
        self.found_at(l, slot)
    }

    /// The policy that is the same, of cells, whose words stay.
    pub fn same_here<C: Cells>(&self, c: &mut C, spec: &PolicySpec) -> Option<Entry>
        requires { WholeFits self.now.area (C.size c.old) }
        ensures size { C.size c.new ≡ C.size c.old }
        ensures begun { C.begun c.new ≡ C.begun c.old }
        ensures rest { C.rest c.new ≡ C.rest c.old }
        ensures words { C.words c.new ≡ C.words c.old }
        ensures below { IfSome result (λ f. f.slot < self.now.area.slots) }
        ensures answer { result ≡ same_in self.now.area (C.words c.old) spec.now }
    {
        self.same(c, spec)
    }

    /// The policy that a key names, of cells, whose words stay.
    pub fn named_here<C: Cells>(&self, c: &mut C, key: &PolicyKey) -> Option<Entry>
        requires { WholeFits self.now.area (C.size c.old) }
        ensures size { C.size c.new ≡ C.size c.old }
        ensures begun { C.begun c.new ≡ C.begun c.old }
        ensures rest { C.rest c.new ≡ C.rest c.old }
        ensures words { C.words c.new ≡ C.words c.old }
        ensures below { IfSome result (λ f. f.slot < self.now.area.slots) }
        ensures answer { result ≡ named_in self.now.area (C.words c.old) key.now }
    {
        self.named(c, key)
    }

    /// The policy in a slot, with the slot, of cells, whose words stay.
    pub fn found_here<C: Cells>(&self, c: &mut C, slot: u32) -> Option<Entry>
        requires fits { WholeFits self.now.area (C.size c.old) }
        requires slot { slot < self.now.area.slots }
        ensures size { C.size c.new ≡ C.size c.old }
        ensures begun { C.begun c.new ≡ C.begun c.old }
        ensures rest { C.rest c.new ≡ C.rest c.old }
        ensures words { C.words c.new ≡ C.words c.old }
        ensures below { IfSome result (λ f. f.slot < self.now.area.slots) }
        ensures answer { result ≡ found_with slot (record_at self.now.area (C.words c.old) slot) }
    {
        self.found_with(c, slot)
    }
}
