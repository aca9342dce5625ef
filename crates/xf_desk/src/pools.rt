//! Pools of one slot, found by the statuses of the slots.
ghost use Rattle.std.specs.Prelude.{◌≡◌, ◌≢◌, ℕ, ◌+◌, ◌<◌, ◌≤◌, ◌^◌, List, Option, Some, None};
ghost use Rattle.xf_cells.specs.Words.{Narrows};
ghost use Rattle.xf_desk.specs.Pools.{IsScan, IsPoolOf, IsFullPool};

use xf_cells::{Load, OnePool};

/// The status of a slot that is listed.
pub const LISTED: u64 = 1;

// How many slots are listed, and one that isn't.
#[derive(Clone, Copy)]
struct Found {
    live: u32,
    free: Option<u32>,
}

// Of so many slots, whose statuses begin at a place.
#[tactic(auto, using(crate::proofs::Scanning::none_yet, crate::proofs::Scanning::one_listed, crate::proofs::Scanning::one_free))]
fn scan<L: Load>(words: &mut L, first: u32, count: u32) -> Found
    requires size { first + count ≤ L.size words.old }
    requires small { first + count < 2 ^ 32 }
    ensures size { L.size words.new ≡ L.size words.old }
    ensures begun { L.begun words.new ≡ L.begun words.old }
    ensures rest { L.rest words.new ≡ L.rest words.old }
    ensures among { Narrows (L.agrees words.old) (L.agrees words.new) }
    ensures few { (result.live ≤ count) × ((slot : ℕ) → result.free ≡ Some slot → result.live < count) }
    ensures scan { (image : List ℕ) → L.agrees words.new image → IsScan first count image result.live result.free }
{
    let mut live = 0;
    let mut free = None;
    let mut slot = 0;
    'slots: while slot < count {
        if words.load(first + slot) == LISTED {
            live += 1;
        } else {
            free = Some(slot);
        }
        slot += 1;
    }
    Found { live, free }
}

/// A pool with one slot that isn't listed, where there is one, of so many whose statuses begin at a place.
pub fn free_slot<L: Load>(words: &mut L, first: u32, count: u32) -> OnePool
    requires size { first + count ≤ L.size words.old }
    requires small { first + count < 2 ^ 32 }
    ensures size { L.size words.new ≡ L.size words.old }
    ensures begun { L.begun words.new ≡ L.begun words.old }
    ensures rest { L.rest words.new ≡ L.rest words.old }
    ensures among { Narrows (L.agrees words.old) (L.agrees words.new) }
    ensures pool { (image : List ℕ) → L.agrees words.new image → IsPoolOf first count image result }
{
    let found = scan(words, first, count);
    OnePool {
        slot: found.free,
        given: None,
        live: found.live,
        waiting: 0,
        capacity: count,
    }
}

/// A pool that has no slot to give and takes back any while one is out, for a call that removes.
pub fn full_pool<L: Load>(words: &mut L, first: u32, count: u32) -> OnePool
    requires size { first + count ≤ L.size words.old }
    requires small { first + count < 2 ^ 32 }
    ensures size { L.size words.new ≡ L.size words.old }
    ensures begun { L.begun words.new ≡ L.begun words.old }
    ensures rest { L.rest words.new ≡ L.rest words.old }
    ensures among { Narrows (L.agrees words.old) (L.agrees words.new) }
    ensures pool { (image : List ℕ) → L.agrees words.new image → IsFullPool first count image result }
{
    let found = scan(words, first, count);
    OnePool {
        slot: None,
        given: None,
        live: found.live,
        waiting: count - found.live,
        capacity: count,
    }
}
