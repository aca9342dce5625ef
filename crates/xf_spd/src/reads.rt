//! What the words show, where they stand for a policy list.
ghost use Rattle.std.specs.Prelude.{◌≡◌, ◌≤◌, ◌*◌, ◌+◌, ℕ, ◌<◌, ◌^◌, ◌∷◌, ◌++◌, List, Option, Some, length};
ghost use Rattle.std.specs.List.{slice_get};
ghost use Rattle.xf_types.specs.declared.policy.Policy.{Policy};
ghost use Rattle.xf_types.specs.Machine.{Shown};
ghost use Rattle.xf_types.specs.IsMachine.{IsInRoom, IsInRange};
ghost use Rattle.xf_cells.specs.Words.{Narrows};
ghost use Rattle.xf_chain.specs.Chains.{Below};
ghost use Rattle.xf_index.specs.Indexes.{slots_in};
ghost use Rattle.xf_inexact.specs.Whole.{SpdStands, WholeFits};
ghost use Rattle.xf_chain.specs.Lists.{first_of};

use crate::spd::Spd;
use xf_cells::Load;
use xf_listing::Listing;
use xf_types::{Policy, Thresholds};

impl Spd {
    /// How many policies are listed.
    pub fn count<L: Load>(&self, l: &mut L) -> u32
        requires { WholeFits self.now.area (L.size l.old) }
        ensures size { L.size l.new ≡ L.size l.old }
        ensures begun { L.begun l.new ≡ L.begun l.old }
        ensures rest { L.rest l.new ≡ L.rest l.old }
        ensures among { Narrows (L.agrees l.old) (L.agrees l.new) }
        ensures loads { L.loads l.new ≤ L.loads l.old + 1 }
        ensures answer { (image : List ℕ) (s : Shown) (es : List (ℕ × Policy)) → L.agrees l.new image → IsInRoom s → SpdStands self.now.area image s es → result ≡ length s.policies }
    {
        Listing { area: self.area }.count_word(l)
    }

    /// The index counter.
    pub fn next_index<L: Load>(&self, l: &mut L) -> u32
        requires { WholeFits self.now.area (L.size l.old) }
        ensures size { L.size l.new ≡ L.size l.old }
        ensures begun { L.begun l.new ≡ L.begun l.old }
        ensures rest { L.rest l.new ≡ L.rest l.old }
        ensures among { Narrows (L.agrees l.old) (L.agrees l.new) }
        ensures loads { L.loads l.new ≤ L.loads l.old + 1 }
        ensures answer { (image : List ℕ) (s : Shown) (es : List (ℕ × Policy)) → L.agrees l.new image → IsInRange s → SpdStands self.now.area image s es → result ≡ s.next_index }
    {
        Listing { area: self.area }.index_word(l)
    }

    /// The number of the next policy.
    pub fn next_number<L: Load>(&self, l: &mut L) -> u64
        requires { WholeFits self.now.area (L.size l.old) }
        ensures size { L.size l.new ≡ L.size l.old }
        ensures begun { L.begun l.new ≡ L.begun l.old }
        ensures rest { L.rest l.new ≡ L.rest l.old }
        ensures among { Narrows (L.agrees l.old) (L.agrees l.new) }
        ensures loads { L.loads l.new ≤ L.loads l.old + 1 }
        ensures answer { (image : List ℕ) (s : Shown) (es : List (ℕ × Policy)) → L.agrees l.new image → s.next_number < 2 ^ 63 → SpdStands self.now.area image s es → result ≡ s.next_number }
        ensures young { (image : List ℕ) (s : Shown) (es : List (ℕ × Policy)) → L.agrees l.new image → SpdStands self.now.area image s es → result < 2 ^ 63 → s.next_number ≡ result }
    {
        Listing { area: self.area }.number_word(l)
    }

    /// The thresholds of both families.
    pub fn thresholds<L: Load>(&self, l: &mut L) -> Thresholds
        requires { WholeFits self.now.area (L.size l.old) }
        ensures size { L.size l.new ≡ L.size l.old }
        ensures begun { L.begun l.new ≡ L.begun l.old }
        ensures rest { L.rest l.new ≡ L.rest l.old }
        ensures among { Narrows (L.agrees l.old) (L.agrees l.new) }
        ensures loads { L.loads l.new ≤ L.loads l.old + 4 }
        ensures v4 { (image : List ℕ) (s : Shown) (es : List (ℕ × Policy)) → L.agrees l.new image → SpdStands self.now.area image s es → result.v4 ≡ Some s.hthresh4 }
        ensures v6 { (image : List ℕ) (s : Shown) (es : List (ℕ × Policy)) → L.agrees l.new image → SpdStands self.now.area image s es → result.v6 ≡ Some s.hthresh6 }
    {
        Listing { area: self.area }.threshold_words(l)
    }

    /// The policy at a place of the list.
    pub fn nth<L: Load>(&self, l: &mut L, place: u32) -> Option<Policy>
        requires { WholeFits self.now.area (L.size l.old) }
        ensures size { L.size l.new ≡ L.size l.old }
        ensures begun { L.begun l.new ≡ L.begun l.old }
        ensures rest { L.rest l.new ≡ L.rest l.old }
        ensures among { Narrows (L.agrees l.old) (L.agrees l.new) }
        ensures loads { L.loads l.new ≤ L.loads l.old + 103 + self.now.area.slots }
        ensures answer { (image : List ℕ) (s : Shown) (es : List (ℕ × Policy)) → L.agrees l.new image → SpdStands self.now.area image s es → result ≡ slice_get s.policies place }
    {
        Listing { area: self.area }.nth_listed(l, place)
    }

    /// The slot of the first policy.
    pub fn first_slot<L: Load>(&self, l: &mut L) -> Option<u32>
        requires { WholeFits self.now.area (L.size l.old) }
        ensures size { L.size l.new ≡ L.size l.old }
        ensures begun { L.begun l.new ≡ L.begun l.old }
        ensures rest { L.rest l.new ≡ L.rest l.old }
        ensures among { Narrows (L.agrees l.old) (L.agrees l.new) }
        ensures loads { L.loads l.new ≤ L.loads l.old + 1 }
        ensures below { Below self.now.area.slots result }
        ensures answer { (image : List ℕ) (s : Shown) (es : List (ℕ × Policy)) → L.agrees l.new image → SpdStands self.now.area image s es → result ≡ first_of (slots_in es) }
    {
        Listing { area: self.area }.after(l, None)
    }

    /// The slot of the policy after a slot's. A loop that removes policies asks for it before it removes one.
    pub fn next_slot<L: Load>(&self, l: &mut L, slot: u32) -> Option<u32>
        requires fits { WholeFits self.now.area (L.size l.old) }
        requires slot { slot < self.now.area.slots }
        ensures size { L.size l.new ≡ L.size l.old }
        ensures begun { L.begun l.new ≡ L.begun l.old }
        ensures rest { L.rest l.new ≡ L.rest l.old }
        ensures among { Narrows (L.agrees l.old) (L.agrees l.new) }
        ensures loads { L.loads l.new ≤ L.loads l.old + 1 }
        ensures below { Below self.now.area.slots result }
        ensures answer { (image : List ℕ) (s : Shown) (front back : List (ℕ × Policy)) (p : Policy) → L.agrees l.new image → SpdStands self.now.area image s (front ++ ((slot, p) ∷ back)) → result ≡ first_of (slots_in back) }
    {
        Listing { area: self.area }.after(l, Some(slot))
    }

    /// The policy in a slot.
    pub fn policy<L: Load>(&self, l: &mut L, slot: u32) -> Option<Policy>
        requires fits { WholeFits self.now.area (L.size l.old) }
        requires slot { slot < self.now.area.slots }
        ensures size { L.size l.new ≡ L.size l.old }
        ensures begun { L.begun l.new ≡ L.begun l.old }
        ensures rest { L.rest l.new ≡ L.rest l.old }
        ensures among { Narrows (L.agrees l.old) (L.agrees l.new) }
        ensures loads { L.loads l.new ≤ L.loads l.old + 101 }
        ensures answer { (image : List ℕ) (s : Shown) (front back : List (ℕ × Policy)) (p : Policy) → L.agrees l.new image → SpdStands self.now.area image s (front ++ ((slot, p) ∷ back)) → result ≡ Some p }
    {
        let size = l.size();
        Listing { area: self.area }.policy_in(l, slot, size)
    }
}
