//! Slots, small numbers that name a record's place among others of its kind.
ghost use Rattle.std.specs.Prelude.{◌≡◌, ◌≢◌, ℕ, ◌+◌, ◌↔◌, Bool, true, false, Option, None, Some, IsNone, MatchOption};
ghost use Rattle.xf_cells.specs.Pools.{Given, Kept};

/// Slots that can be taken and given back. A slot is out between the two; one that was given back may have to wait until it can be
/// given again.
pub trait Pool {
    /// How many slots there are.
    ghost capacity: { Self → ℕ };

    /// How many are out.
    ghost taken: { Self → ℕ };

    /// How many wait: they are neither out nor can be given.
    ghost held: { Self → ℕ };

    /// It can't be asked for a slot.
    ghost spent: { Self → Bool };

    /// It is never spent.
    ghost lasts: { Self → Bool };

    /// Which slots it can give.
    ghost gives: { Self → ℕ → Type 0 };

    /// Which slots it can take back.
    ghost takes: { Self → ℕ → Type 0 };

    /// Which slot it has back.
    ghost returned: { Self → ℕ → Type 0 };

    /// A slot, which is out from now on. None exactly where each slot is out or waits.
    fn take(&mut self) -> Option<u32>
        requires { spent self.old ≡ false }
        ensures capacity { capacity self.new ≡ capacity self.old }
        ensures lasts { lasts self.new ≡ lasts self.old }
        ensures none { IsNone result ↔ (taken self.old + held self.new ≡ capacity self.old) }
        ensures slot { MatchOption result (Kept (taken self.old) (taken self.new) (spent self.old) (spent self.new) (gives self.old) (gives self.new) (takes self.old) (takes self.new)) (λ slot. Given slot (lasts self.old) (taken self.old) (taken self.new) (gives self.old) (gives self.new) (takes self.old) (takes self.new)) };

    /// Gives a slot back.
    fn give(&mut self, slot: u32)
        requires { takes self.old slot }
        ensures capacity { capacity self.new ≡ capacity self.old }
        ensures lasts { lasts self.new ≡ lasts self.old }
        ensures taken { taken self.new + 1 ≡ taken self.old }
        ensures held { held self.new ≡ held self.old }
        ensures gives { (other : ℕ) → other ≢ slot → gives self.new other → gives self.old other }
        ensures takes { lasts self.old ≡ true → (other : ℕ) → other ≢ slot → takes self.old other → takes self.new other }
        ensures returned { returned self.new slot };

    /// How many slots are out.
    fn live(&self) -> u32
        ensures { result ≡ taken self.now };

    /// How many wait.
    fn waiting(&self) -> u32
        ensures { result ≡ held self.now };

    ghost never: { (pool : Self) → lasts pool ≡ true → spent pool ≡ false };
}
