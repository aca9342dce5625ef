//! A policy is listed in a free slot, or leaves its slot.
ghost use Rattle.std.specs.Prelude.{◌≡◌, ℕ, ◌+◌, ◌<◌, ◌^◌, true, List, ◌∷◌, ◌++◌};
ghost use Rattle.xf_types.specs.declared.policy.Policy.{Policy};
ghost use Rattle.xf_types.specs.Machine.{Shown};
ghost use Rattle.xf_cells.specs.Words.{Narrows};
ghost use Rattle.xf_chain.specs.Lists.{Misses};
ghost use Rattle.xf_index.specs.Indexes.{slots_in, records_in};
ghost use Rattle.xf_records.specs.Policies.{PolicyFits};
ghost use Rattle.xf_image.specs.Entries.{new_policy, entries_with, slot_left, IsEntry, InOrder, with_listed, with_policies};
ghost use Rattle.xf_image.specs.Frames.{Frame};
ghost use Rattle.xf_image.specs.ExactKeys.{exact_key};
ghost use Rattle.xf_image.specs.Readings.{hthresh4_in, hthresh6_in};
ghost use Rattle.xf_inexact.specs.Whole.{SpdStands, WholeFits, whole_end};
ghost use Rattle.xf_listing.specs.Calls.{new_policy_in, listed_words, delisted_words};

use crate::entry::Entry;
use crate::listing::Listing;
use xf_cells::{Cells, Load};
use xf_types::{Policy, PolicySpec};

impl Listing {
    /// A new policy as it is listed.
    fn new_policy<L: Load>(&self, l: &mut L, spec: &PolicySpec, index: u32, now: u64) -> Policy
        requires { WholeFits self.now.area (L.size l.old) }
        ensures size { L.size l.new ≡ L.size l.old }
        ensures begun { L.begun l.new ≡ L.begun l.old }
        ensures rest { L.rest l.new ≡ L.rest l.old }
        ensures among { Narrows (L.agrees l.old) (L.agrees l.new) }
        ensures answer { (image : List ℕ) → L.agrees l.new image → result ≡ new_policy_in self.now.area image spec.now index now }
    {
        let number = self.number_word(l);
        Policy {
            number,
            index,
            added: now,
            soft: false,
            spec: spec.copy(),
        }
    }

    /// Lists a policy in a slot: what it writes of the list. It answers the policy's chain of the exact part.
    fn list_words<C: Cells>(&self, c: &mut C, slot: u32, policy: &Policy, word: u32) -> Option<u32>
        requires fits { WholeFits self.now.area (C.size c.old) }
        requires slot { slot < self.now.area.slots }
        ensures size { C.size c.new ≡ C.size c.old }
        ensures begun { C.begun c.new ≡ true }
        ensures rest { C.rest c.new ≡ C.rest c.old }
        ensures words { C.words c.new ≡ listed_words self.now.area (C.words c.old) slot policy.now word }
        ensures bucket { result ≡ exact_key (hthresh4_in self.now.area (C.words c.old)) (hthresh6_in self.now.area (C.words c.old)) policy.now }
        ensures fits { PolicyFits policy.now }
    {
        let places = self.places(c, policy);
        c.begin();
        self.put(c, &places, slot, policy, word);
        places.bucket
    }

    /// Lists a policy in a slot.
    fn list_policy<C: Cells>(&self, c: &mut C, slot: u32, policy: &Policy, word: u32)
        requires fits { WholeFits self.now.area (C.size c.old) }
        requires slot { slot < self.now.area.slots }
        ensures size { C.size c.new ≡ C.size c.old }
        ensures begun { C.begun c.new ≡ true }
        ensures rest { C.rest c.new ≡ C.rest c.old }
        ensures frame { Frame self.now.area.base (whole_end self.now.area) (C.words c.old) (C.words c.new) }
        ensures lists { (s : Shown) (es : List (ℕ × Policy)) → policy.now.number ≡ s.next_number → InOrder s → SpdStands self.now.area (C.words c.old) s es → Misses slot (slots_in es) → SpdStands self.now.area (C.words c.new) (with_listed s policy.now (word + 1)) (entries_with slot policy.now es) }
    {
        let bucket = self.list_words(c, slot, policy, word);
        self.plant(c, slot, policy, bucket);
    }

    /// Lists a policy with this index in a slot. The word is that of the index counter afterwards.
    pub fn list<C: Cells>(
        &self,
        c: &mut C,
        slot: u32,
        spec: &PolicySpec,
        index: u32,
        word: u32,
        now: u64,
    )
        requires fits { WholeFits self.now.area (C.size c.old) }
        requires slot { slot < self.now.area.slots }
        ensures size { C.size c.new ≡ C.size c.old }
        ensures begun { C.begun c.new ≡ true }
        ensures rest { C.rest c.new ≡ C.rest c.old }
        ensures frame { Frame self.now.area.base (whole_end self.now.area) (C.words c.old) (C.words c.new) }
        ensures lists { (s : Shown) (es : List (ℕ × Policy)) → s.next_number < 2 ^ 63 → InOrder s → s.time ≡ now → SpdStands self.now.area (C.words c.old) s es → Misses slot (slots_in es) → SpdStands self.now.area (C.words c.new) (with_listed s (new_policy s spec.now index) (word + 1)) (entries_with slot (new_policy s spec.now index) es) }
    {
        let policy = self.new_policy(c, spec, index, now);
        self.list_policy(c, slot, &policy, word);
    }

    /// Takes a policy out of its slot: what it writes of the list. It answers the policy's chain of the exact part.
    fn delist_words<C: Cells>(&self, c: &mut C, found: &Entry) -> Option<u32>
        requires fits { WholeFits self.now.area (C.size c.old) }
        requires slot { found.now.slot < self.now.area.slots }
        ensures size { C.size c.new ≡ C.size c.old }
        ensures begun { C.begun c.new ≡ true }
        ensures rest { C.rest c.new ≡ C.rest c.old }
        ensures words { C.words c.new ≡ delisted_words self.now.area (C.words c.old) found.now.slot found.now.policy }
        ensures bucket { result ≡ exact_key (hthresh4_in self.now.area (C.words c.old)) (hthresh6_in self.now.area (C.words c.old)) found.now.policy }
    {
        let places = self.stood(c, found.slot, &found.policy);
        c.begin();
        self.cut(c, &places, found.slot);
        places.bucket
    }

    /// Takes a policy out of its slot.
    pub fn delist<C: Cells>(&self, c: &mut C, found: &Entry)
        requires fits { WholeFits self.now.area (C.size c.old) }
        requires slot { found.now.slot < self.now.area.slots }
        ensures size { C.size c.new ≡ C.size c.old }
        ensures begun { C.begun c.new ≡ true }
        ensures rest { C.rest c.new ≡ C.rest c.old }
        ensures frame { Frame self.now.area.base (whole_end self.now.area) (C.words c.old) (C.words c.new) }
        ensures delists { (s : Shown) (es : List (ℕ × Policy)) → IsEntry es found.now.slot found.now.policy → SpdStands self.now.area (C.words c.old) s es → SpdStands self.now.area (C.words c.new) (with_policies s (records_in (slot_left found.now.slot es))) (slot_left found.now.slot es) }
    {
        let bucket = self.delist_words(c, found);
        self.uproot(c, found.slot, &found.policy, bucket);
    }
}
