//! A slot that was found elsewhere beforehand, handed to a call that asks a pool for one.
ghost use Rattle.std.specs.Prelude.{◌≡◌, ℕ, ◌+◌, ◌<◌, ◌≤◌, Bool, true, false, Option, None, Some};
ghost use Rattle.xf_cells.specs.OneSlot.{IsOneSlot, is_spent, never_lasts};

use crate::pool::Pool;

/// A pool of one slot. It gives the slot once, and keeps the one that was given back last.
#[derive(Clone, Copy, Debug, PartialEq, Eq)]
pub struct OnePool {
    /// The slot that it can give. Whoever makes a pool has one exactly where `live` and `waiting` together are below `capacity`.
    pub slot: Option<u32>,
    /// The slot that was given back last.
    pub given: Option<u32>,
    /// How many slots are out, of all that there are.
    pub live: u32,
    /// How many of them wait.
    pub waiting: u32,
    /// How many there are.
    pub capacity: u32,
    pub ghost facts: { IsOneSlot slot live waiting capacity },
}

impl Pool for OnePool {
    ghost capacity = { λ p. p.capacity };

    ghost taken = { λ p. p.live };

    ghost held = { λ p. p.waiting };

    ghost spent = { λ p. is_spent p.slot p.live p.waiting p.capacity };

    ghost lasts = { λ p. false };

    ghost gives = { λ p slot. p.slot ≡ Some slot };

    ghost takes = { λ p slot. 0 < p.live };

    ghost returned = { λ p slot. p.given ≡ Some slot };

    fn take(&mut self) -> Option<u32> {
        let slot = self.slot?;
        self.slot = None;
        self.live += 1;
        Some(slot)
    }

    fn give(&mut self, slot: u32) {
        self.given = Some(slot);
        self.live -= 1;
    }

    fn live(&self) -> u32 {
        self.live
    }

    fn waiting(&self) -> u32 {
        self.waiting
    }

    ghost never = { λ p is. never_lasts (is_spent p.slot p.live p.waiting p.capacity) is };
}
