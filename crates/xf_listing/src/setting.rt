//! Other thresholds: each policy goes to the part that it has under them.
ghost use Rattle.std.specs.Prelude.{◌≡◌, ℕ, ◌+◌, ◌<◌, ◌≤◌, ◌^◌, true, List, Option, Some, unwrap_or};
ghost use Rattle.xf_cells.specs.Words.{Narrows};
ghost use Rattle.xf_image.specs.Layout.{record_at};
ghost use Rattle.xf_inexact.specs.Whole.{WholeFits};
ghost use Rattle.xf_image.specs.Readings.{hthresh4_in, hthresh6_in};
ghost use Rattle.xf_image.specs.Writes.{lens_put, thresholds_put, cleared, moved_policy, moved, set_words};

use crate::listing::Listing;
use xf_cells::{Cells, Load};
use xf_chain::Walk;
use xf_types::{Policy, Thresholds};

impl Listing {
    /// The thresholds of IPv4 that are given, or those that there are.
    #[tactic(auto, using(crate::proofs::Wholes::list_fits))]
    pub fn given4<L: Load>(&self, l: &mut L, t: &Thresholds) -> (u8, u8)
        requires { WholeFits self.now.area (L.size l.old) }
        ensures size { L.size l.new ≡ L.size l.old }
        ensures begun { L.begun l.new ≡ L.begun l.old }
        ensures rest { L.rest l.new ≡ L.rest l.old }
        ensures among { Narrows (L.agrees l.old) (L.agrees l.new) }
        ensures local { result.0 ≤ 32 }
        ensures remote { result.1 ≤ 32 }
        ensures answer { (image : List ℕ) → L.agrees l.new image → result ≡ unwrap_or t.now.v4 (hthresh4_in self.now.area image) }
    {
        match t.v4 {
            Some(lens) => lens,
            None => self.lengths(l, self.area.thresholds_place(), 32),
        }
    }

    /// The thresholds of IPv6 that are given, or those that there are.
    #[tactic(auto, using(crate::proofs::Wholes::list_fits))]
    pub fn given6<L: Load>(&self, l: &mut L, t: &Thresholds) -> (u8, u8)
        requires { WholeFits self.now.area (L.size l.old) }
        ensures size { L.size l.new ≡ L.size l.old }
        ensures begun { L.begun l.new ≡ L.begun l.old }
        ensures rest { L.rest l.new ≡ L.rest l.old }
        ensures among { Narrows (L.agrees l.old) (L.agrees l.new) }
        ensures local { result.0 ≤ 128 }
        ensures remote { result.1 ≤ 128 }
        ensures answer { (image : List ℕ) → L.agrees l.new image → result ≡ unwrap_or t.now.v6 (hthresh6_in self.now.area image) }
    {
        match t.v6 {
            Some(lens) => lens,
            None => self.lengths(l, self.area.thresholds_place() + 2, 128),
        }
    }

    /// Notes two lengths as what they lack to a whole address.
    fn put_lens<C: Cells>(&self, c: &mut C, at: u32, whole: u8, lens: (u8, u8))
        requires lies { at + 1 < C.size c.old }
        requires fits { at + 1 < 2 ^ 32 }
        requires begun { C.begun c.old ≡ true }
        requires local { lens.0 ≤ whole }
        requires remote { lens.1 ≤ whole }
        ensures size { C.size c.new ≡ C.size c.old }
        ensures begun { C.begun c.new ≡ true }
        ensures rest { C.rest c.new ≡ C.rest c.old }
        ensures words { C.words c.new ≡ lens_put (C.words c.old) at (at + 1) whole lens }
    {
        c.store(at, u64::from(whole - lens.0));
        c.store(at + 1, u64::from(whole - lens.1));
    }

    #[tactic(auto, using(crate::proofs::Wholes::list_fits))]
    fn put_thresholds<C: Cells>(&self, c: &mut C, h4: (u8, u8), h6: (u8, u8))
        requires fits { WholeFits self.now.area (C.size c.old) }
        requires begun { C.begun c.old ≡ true }
        requires local4 { h4.0 ≤ 32 }
        requires remote4 { h4.1 ≤ 32 }
        requires local6 { h6.0 ≤ 128 }
        requires remote6 { h6.1 ≤ 128 }
        ensures size { C.size c.new ≡ C.size c.old }
        ensures begun { C.begun c.new ≡ true }
        ensures rest { C.rest c.new ≡ C.rest c.old }
        ensures words { C.words c.new ≡ thresholds_put self.now.area (C.words c.old) h4 h6 }
    {
        self.put_lens(c, self.area.thresholds_place(), 32, h4);
        self.put_lens(c, self.area.thresholds_place() + 2, 128, h6);
    }

    /// Notes the thresholds, and empties the chains of the exact part.
    fn clear<C: Cells>(&self, c: &mut C, h4: (u8, u8), h6: (u8, u8))
        requires fits { WholeFits self.now.area (C.size c.old) }
        requires begun { C.begun c.old ≡ true }
        requires local4 { h4.0 ≤ 32 }
        requires remote4 { h4.1 ≤ 32 }
        requires local6 { h6.0 ≤ 128 }
        requires remote6 { h6.1 ≤ 128 }
        ensures size { C.size c.new ≡ C.size c.old }
        ensures begun { C.begun c.new ≡ true }
        ensures rest { C.rest c.new ≡ C.rest c.old }
        ensures words { C.words c.new ≡ cleared self.now.area (C.words c.old) h4 h6 }
    {
        let size = c.size();
        self.put_thresholds(c, h4, h6);
        self.exact(size).clear(c);
    }

    /// Puts a slot to the front of the chain of the exact part that its policy has under the thresholds that the words tell.
    fn move_policy<C: Cells>(&self, c: &mut C, slot: u32, policy: &Policy)
        requires fits { WholeFits self.now.area (C.size c.old) }
        requires begun { C.begun c.old ≡ true }
        requires slot { slot < self.now.area.slots }
        ensures size { C.size c.new ≡ C.size c.old }
        ensures begun { C.begun c.new ≡ true }
        ensures rest { C.rest c.new ≡ C.rest c.old }
        ensures words { C.words c.new ≡ moved_policy self.now.area (hthresh4_in self.now.area (C.words c.old)) (hthresh6_in self.now.area (C.words c.old)) (C.words c.old) slot (Some policy.now) }
    {
        let size = c.size();
        let bucket = self.bucket_here(c, policy);
        self.exact(size).insert(c, bucket, None, slot);
    }

    /// The policy in a slot of cells, whose words stay.
    pub(crate) fn policy_here<C: Cells>(&self, c: &mut C, slot: u32) -> Option<Policy>
        requires fits { WholeFits self.now.area (C.size c.old) }
        requires slot { slot < self.now.area.slots }
        ensures size { C.size c.new ≡ C.size c.old }
        ensures begun { C.begun c.new ≡ C.begun c.old }
        ensures rest { C.rest c.new ≡ C.rest c.old }
        ensures words { C.words c.new ≡ C.words c.old }
        ensures answer { result ≡ record_at self.now.area (C.words c.old) slot }
    {
        let size = c.size();
        self.policy_in(c, slot, size)
    }

    /// Puts a slot to the front of its new chain of the exact part.
    fn move_one<C: Cells>(&self, c: &mut C, slot: u32)
        requires fits { WholeFits self.now.area (C.size c.old) }
        requires begun { C.begun c.old ≡ true }
        requires slot { slot < self.now.area.slots }
        ensures size { C.size c.new ≡ C.size c.old }
        ensures begun { C.begun c.new ≡ true }
        ensures rest { C.rest c.new ≡ C.rest c.old }
        ensures words { C.words c.new ≡ moved self.now.area (hthresh4_in self.now.area (C.words c.old)) (hthresh6_in self.now.area (C.words c.old)) (C.words c.old) slot }
    {
        if let Some(policy) = self.policy_here(c, slot) {
            self.move_policy(c, slot, &policy);
        }
    }

    /// Moves all policies within the exact part, the last one of the list first, so that each goes to the front.
    pub(crate) fn move_exact<C: Cells>(&self, c: &mut C, h4: (u8, u8), h6: (u8, u8))
        requires fits { WholeFits self.now.area (C.size c.old) }
        requires local4 { h4.0 ≤ 32 }
        requires remote4 { h4.1 ≤ 32 }
        requires local6 { h6.0 ≤ 128 }
        requires remote6 { h6.1 ≤ 128 }
        ensures size { C.size c.new ≡ C.size c.old }
        ensures begun { C.begun c.new ≡ true }
        ensures rest { C.rest c.new ≡ C.rest c.old }
        ensures words { C.words c.new ≡ set_words self.now.area (C.words c.old) h4 h6 }
    {
        c.begin();
        self.clear(c, h4, h6);
        let size = c.size();
        let chain = self.back(size).chain(0, size);
        let mut walk = Walk::start(&chain, c);
        'slots: while let Some(slot) = walk.step(&chain, c) {
            self.move_one(c, slot);
        }
    }
}
