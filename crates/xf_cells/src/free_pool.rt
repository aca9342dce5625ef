//! All slots of a table on one thread, where none has to wait.
ghost use Rattle.std.specs.Prelude.{◌≡◌, ◌≢◌, ℕ, ◌+◌, ◌<◌, ◌≤◌, ◌^◌, Bool, true, false, List, Option, None, Some, IsNone, MatchOption, length, drop, vec_len, slice_index, slice_set, IfOk, refl};
ghost use Rattle.std.specs.List.{range_with_len};
ghost use Rattle.xf_cells.specs.Pools.{Given, Kept, IsFull};
ghost use Rattle.xf_cells.specs.Frees.{AreFree, IsFree, IsOut};

use crate::pool::Pool;
use crate::vec_cells::NoMemory;
use std::alloc::Global;

// All slots in their order.
#[tactic(auto, using(crate::proofs::NumberLemmas::number_laws))]
fn numbered(alloc: Global, count: u32) -> Result<Vec<u32>, NoMemory>
    ensures { IfOk result (λ slots. slots.items ≡ range_with_len 0 count) }
{
    let Ok(mut slots) = vec![in alloc; 0; count as usize] else {
        return Err(NoMemory);
    };
    let mut place = 0;
    'places: while place < count {
        slots[place as usize] = place;
        place += 1;
    }
    Ok(slots)
}

/// Slots that can be given at once when they are back. It gives the one that came back last.
#[derive(Drop)]
pub struct FreePool {
    /// As many as there are slots: behind the first `count` stand those that are free, the next to be given in front.
    slots: Vec<u32>,
    /// How many are out.
    count: u32,
    ghost fits: { vec_len slots < 2 ^ 32 },
    ghost within: { count ≤ length slots.items },
    ghost free: { AreFree (length slots.items) (drop count slots.items) },
}

impl Pool for FreePool {
    ghost capacity = { λ p. length p.slots.items };

    ghost taken = { λ p. p.count };

    ghost held = { λ p. 0 };

    ghost spent = { λ p. false };

    ghost lasts = { λ p. true };

    ghost gives = { λ p slot. IsFree (drop p.count p.slots.items) slot };

    ghost takes = { λ p slot. IsOut (length p.slots.items) (drop p.count p.slots.items) slot };

    ghost returned = { λ p slot. IsFree (drop p.count p.slots.items) slot };

    #[tactic(auto, using(crate::proofs::FreeLemmas::take_laws))]
    fn take(&mut self) -> Option<u32> {
        let slot = *self.slots.get(self.count as usize)?;
        self.count += 1;
        Some(slot)
    }

    #[tactic(auto, using(crate::proofs::FreeLemmas::give_laws))]
    fn give(&mut self, slot: u32) {
        self.count -= 1;
        self.slots[self.count as usize] = slot;
    }

    fn live(&self) -> u32 {
        self.count
    }

    fn waiting(&self) -> u32 {
        0
    }

    ghost never = { λ p is. refl };
}

impl FreePool {
    /// As many slots, counted from 0, all free.
    #[tactic(auto, using(crate::proofs::NumberLemmas::new_laws))]
    pub fn new(alloc: Global, count: u32) -> Result<FreePool, NoMemory>
        ensures full { IfOk result (λ pool. IsFull count (⟦<FreePool as Pool>⟧.capacity pool) (⟦<FreePool as Pool>⟧.taken pool) (⟦<FreePool as Pool>⟧.gives pool)) }
    {
        let slots = numbered(alloc, count)?;
        Ok(FreePool { slots, count: 0 })
    }
}
