//! What the words show, where they stand for a state list.
ghost use Rattle.std.specs.Prelude.{◌≡◌, ℕ, ◌+◌, ◌*◌, ◌<◌, ◌≤◌, ◌^◌, List, ◌∷◌, ◌++◌, Some, length};
ghost use Rattle.xf_types.specs.declared.state.Sa.{Sa};
ghost use Rattle.xf_types.specs.IsMachine.{IsInRange};
ghost use Rattle.xf_types.specs.Machine.{Shown};
ghost use Rattle.xf_cells.specs.Words.{Narrows};
ghost use Rattle.xf_chain.specs.Chains.{Below};
ghost use Rattle.xf_chain.specs.Lists.{first_of};
ghost use Rattle.xf_index.specs.Finds.{slot_found};
ghost use Rattle.xf_index.specs.Indexes.{slots_in};
ghost use Rattle.xf_sadidx.specs.declared.kind.Kind.TheVariants.{Spi};
ghost use Rattle.xf_sadidx.specs.declared.query.StateQuery.TheVariants as asked;
ghost use Rattle.xf_sadidx.specs.Founds.{latest_in, bucket_size};
ghost use Rattle.xf_sadidx.specs.Keys.{spi_hash};
ghost use Rattle.xf_sadidx.specs.Layout.{Fits, record_at};
ghost use Rattle.xf_sadidx.specs.Queries.{meets};
ghost use Rattle.xf_resize.specs.Rooms as rooms;
ghost use Rattle.xf_sadimage.specs.States.{StatesStand};
ghost use Rattle.xf_sad.specs.Replies.{found_reply};

use crate::faults::SadFault;
use crate::sad::Sad;
use xf_cells::{Cells, Load};
use xf_records::get_state;
use xf_sadidx::SadIndex;
use xf_sadlist::StateListing;
use xf_types::{Sa, SaId};

/// A slot, or that there is no state.
fn found_reply(slot: Option<u32>) -> Result<u32, SadFault>
    ensures { result ≡ found_reply slot }
{
    match slot {
        None => Err(SadFault::NoState),
        Some(slot) => Ok(slot),
    }
}

impl Sad {
    /// The acquire counter.
    pub fn next_seq<L: Load>(&self, l: &mut L) -> u32
        requires { Fits self.now.area (L.size l.old) }
        ensures size { L.size l.new ≡ L.size l.old }
        ensures begun { L.begun l.new ≡ L.begun l.old }
        ensures rest { L.rest l.new ≡ L.rest l.old }
        ensures among { Narrows (L.agrees l.old) (L.agrees l.new) }
        ensures loads { L.loads l.new ≤ L.loads l.old + 1 }
        ensures state { (image : List ℕ) (s : Shown) (es : List (ℕ × Sa)) → L.agrees l.new image → IsInRange s → StatesStand self.now.area image s es → result ≡ s.next_seq }
    {
        (StateListing { area: self.area }).next_seq(l)
    }

    /// The id of the next state.
    pub fn next_sid<L: Load>(&self, l: &mut L) -> u64
        requires { Fits self.now.area (L.size l.old) }
        ensures size { L.size l.new ≡ L.size l.old }
        ensures begun { L.begun l.new ≡ L.begun l.old }
        ensures rest { L.rest l.new ≡ L.rest l.old }
        ensures among { Narrows (L.agrees l.old) (L.agrees l.new) }
        ensures loads { L.loads l.new ≤ L.loads l.old + 1 }
        ensures state { (image : List ℕ) (s : Shown) (es : List (ℕ × Sa)) → L.agrees l.new image → s.next_sid < 2 ^ 63 → StatesStand self.now.area image s es → result ≡ s.next_sid }
        ensures young { (image : List ℕ) (s : Shown) (es : List (ℕ × Sa)) → L.agrees l.new image → StatesStand self.now.area image s es → result < 2 ^ 63 → s.next_sid ≡ result }
    {
        (StateListing { area: self.area }).next_sid(l)
    }

    /// How many states are listed.
    pub fn count<L: Load>(&self, l: &mut L) -> u32
        requires { Fits self.now.area (L.size l.old) }
        ensures size { L.size l.new ≡ L.size l.old }
        ensures begun { L.begun l.new ≡ L.begun l.old }
        ensures rest { L.rest l.new ≡ L.rest l.old }
        ensures among { Narrows (L.agrees l.old) (L.agrees l.new) }
        ensures loads { L.loads l.new ≤ L.loads l.old + 1 }
        ensures most { result ≤ self.now.area.slots }
        ensures state { (image : List ℕ) (s : Shown) (es : List (ℕ × Sa)) → L.agrees l.new image → StatesStand self.now.area image s es → result ≡ length s.states }
    {
        (StateListing { area: self.area }).count(l)
    }

    /// How many heads the chains of a kind have; the new number once a doubling has begun.
    pub fn buckets<L: Load>(&self, l: &mut L) -> u32
        requires { Fits self.now.area (L.size l.old) }
        ensures size { L.size l.new ≡ L.size l.old }
        ensures begun { L.begun l.new ≡ L.begun l.old }
        ensures rest { L.rest l.new ≡ L.rest l.old }
        ensures among { Narrows (L.agrees l.old) (L.agrees l.new) }
        ensures loads { L.loads l.new ≤ L.loads l.old + 2 }
        ensures answer { (image : List ℕ) → L.agrees l.new image → result ≡ rooms.buckets_in self.now.area image }
    {
        (StateListing { area: self.area }).buckets(l)
    }

    /// How many of the old heads aren't split yet, 0 where no doubling is under way.
    pub fn pending<L: Load>(&self, l: &mut L) -> u32
        requires { Fits self.now.area (L.size l.old) }
        ensures size { L.size l.new ≡ L.size l.old }
        ensures begun { L.begun l.new ≡ L.begun l.old }
        ensures rest { L.rest l.new ≡ L.rest l.old }
        ensures among { Narrows (L.agrees l.old) (L.agrees l.new) }
        ensures loads { L.loads l.new ≤ L.loads l.old + 2 }
        ensures answer { (image : List ℕ) → L.agrees l.new image → result ≡ rooms.pending_in self.now.area image }
    {
        (StateListing { area: self.area }).pending(l)
    }

    /// The slot of the first state, where there is one.
    pub fn first_slot<L: Load>(&self, l: &mut L) -> Option<u32>
        requires { Fits self.now.area (L.size l.old) }
        ensures size { L.size l.new ≡ L.size l.old }
        ensures begun { L.begun l.new ≡ L.begun l.old }
        ensures rest { L.rest l.new ≡ L.rest l.old }
        ensures among { Narrows (L.agrees l.old) (L.agrees l.new) }
        ensures loads { L.loads l.new ≤ L.loads l.old + 1 }
        ensures below { Below self.now.area.slots result }
        ensures state { (image : List ℕ) (s : Shown) (es : List (ℕ × Sa)) → L.agrees l.new image → StatesStand self.now.area image s es → result ≡ first_of (slots_in es) }
    {
        (StateListing { area: self.area }).first_slot(l)
    }

    /// The slot of the state that was added after that of a slot. A loop that removes states asks for it before it removes one.
    pub fn next_slot<L: Load>(&self, l: &mut L, slot: u32) -> Option<u32>
        requires fits { Fits self.now.area (L.size l.old) }
        requires slot { slot < self.now.area.slots }
        ensures size { L.size l.new ≡ L.size l.old }
        ensures begun { L.begun l.new ≡ L.begun l.old }
        ensures rest { L.rest l.new ≡ L.rest l.old }
        ensures among { Narrows (L.agrees l.old) (L.agrees l.new) }
        ensures loads { L.loads l.new ≤ L.loads l.old + 1 }
        ensures below { Below self.now.area.slots result }
        ensures state { (image : List ℕ) (s : Shown) (front back : List (ℕ × Sa)) (r : Sa) → L.agrees l.new image → StatesStand self.now.area image s (front ++ ((slot, r) ∷ back)) → result ≡ first_of (slots_in back) }
    {
        (StateListing { area: self.area }).next_slot(l, slot)
    }

    /// The state in a slot. Nothing is said of a slot where none is listed.
    pub fn state<L: Load>(&self, l: &mut L, slot: u32) -> Option<Sa>
        requires fits { Fits self.now.area (L.size l.old) }
        requires slot { slot < self.now.area.slots }
        ensures size { L.size l.new ≡ L.size l.old }
        ensures begun { L.begun l.new ≡ L.begun l.old }
        ensures rest { L.rest l.new ≡ L.rest l.old }
        ensures among { Narrows (L.agrees l.old) (L.agrees l.new) }
        ensures loads { L.loads l.new ≤ L.loads l.old + 46 }
        ensures answer { (image : List ℕ) → L.agrees l.new image → result ≡ record_at self.now.area image slot }
        ensures state { (image : List ℕ) (s : Shown) (front back : List (ℕ × Sa)) (r : Sa) → L.agrees l.new image → StatesStand self.now.area image s (front ++ ((slot, r) ∷ back)) → result ≡ Some r }
    {
        get_state(l, self.area.record_place(slot))
    }

    /// The slot of the state that an id names: the last one that was added.
    pub fn find<L: Load>(&self, l: &mut L, id: &SaId) -> Result<u32, SadFault>
        requires fits { Fits self.now.area (L.size l.old) }
        ensures size { L.size l.new ≡ L.size l.old }
        ensures begun { L.begun l.new ≡ L.begun l.old }
        ensures rest { L.rest l.new ≡ L.rest l.old }
        ensures among { Narrows (L.agrees l.old) (L.agrees l.new) }
        ensures most { L.loads l.new ≤ L.loads l.old + 4 + 50 * self.now.area.slots }
        ensures loads { (image : List ℕ) (s : Shown) (entries : List (ℕ × Sa)) → L.agrees l.new image → StatesStand self.now.area image s entries → L.loads l.new ≤ L.loads l.old + 30 + 80 * bucket_size self.now.area image Spi (spi_hash id.now.dst id.now.spi id.now.proto) entries }
        ensures state { (image : List ℕ) (s : Shown) (entries : List (ℕ × Sa)) → L.agrees l.new image → StatesStand self.now.area image s entries → result ≡ found_reply (slot_found (latest_in (meets (asked.Named id.now)) entries)) }
    {
        let slot = (SadIndex { area: self.area }).living(l, id);
        found_reply(slot)
    }

    /// The state in a slot of cells, whose words stay.
    pub(crate) fn state_here<C: Cells>(&self, c: &mut C, slot: u32) -> Option<Sa>
        requires fits { Fits self.now.area (C.size c.old) }
        requires slot { slot < self.now.area.slots }
        ensures size { C.size c.new ≡ C.size c.old }
        ensures begun { C.begun c.new ≡ C.begun c.old }
        ensures rest { C.rest c.new ≡ C.rest c.old }
        ensures words { C.words c.new ≡ C.words c.old }
        ensures answer { result ≡ record_at self.now.area (C.words c.old) slot }
    {
        self.state(c, slot)
    }
}
