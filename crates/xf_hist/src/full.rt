//! Lists that are full with slots held back.
ghost use Rattle.std.specs.Prelude.{◌↔◌, ◌<◌, ◌^◌, [], IfOk, IsTrue};
ghost use Rattle.xf_hist.specs.Moments.{at, PoliciesAreHeldBack, StatesAreHeldBack};
ghost use Rattle.xf_types.specs.History.{IsFullWithWaiting, IsHeldBack};

use crate::moment::{Moment, answers};
use xf_types::{NoMemory, Receipt, Reply};

impl Moment {
    /// Whether the list that the call adds to is as full as it may be with slots held back.
    pub fn is_full(&self, receipt: &Receipt, live: u32, waiting: u32) -> Result<bool, NoMemory>
        requires numbers { self.now.machine.shown.next_number < 2 ^ 63 }
        requires sids { self.now.machine.shown.next_sid < 2 ^ 63 }
        ensures { IfOk result (λ b. IsTrue b ↔ IsFullWithWaiting (at self.now []) receipt.now live waiting) }
    {
        if receipt.call.adds_policy() {
            self.policies_are_held_back(receipt, live, waiting)
        } else {
            self.states_are_held_back(receipt, live, waiting)
        }
    }

    fn policies_are_held_back(
        &self,
        receipt: &Receipt,
        live: u32,
        waiting: u32,
    ) -> Result<bool, NoMemory>
        requires numbers { self.now.machine.shown.next_number < 2 ^ 63 }
        requires sids { self.now.machine.shown.next_sid < 2 ^ 63 }
        ensures { IfOk result (λ b. IsTrue b ↔ PoliciesAreHeldBack self.now receipt.now live waiting) }
    {
        let listed = self.machine.policies();
        let capacity = self.machine.max_policies();
        if !is_held_back(live, waiting, listed, capacity, self.policies_removed) {
            return Ok(false);
        }
        let mut filled = self.machine.copy()?;
        filled.fill_policies();
        answers(
            &mut filled,
            &receipt.call,
            &Reply::Full { live, waiting: 0 },
        )
    }

    fn states_are_held_back(
        &self,
        receipt: &Receipt,
        live: u32,
        waiting: u32,
    ) -> Result<bool, NoMemory>
        requires numbers { self.now.machine.shown.next_number < 2 ^ 63 }
        requires sids { self.now.machine.shown.next_sid < 2 ^ 63 }
        ensures { IfOk result (λ b. IsTrue b ↔ StatesAreHeldBack self.now receipt.now live waiting) }
    {
        let listed = self.machine.states();
        let capacity = self.machine.max_states();
        if !is_held_back(live, waiting, listed, capacity, self.states_removed) {
            return Ok(false);
        }
        let mut filled = self.machine.copy()?;
        filled.fill_states();
        answers(
            &mut filled,
            &receipt.call,
            &Reply::Full { live, waiting: 0 },
        )
    }
}

/// Whether so many listed and waiting ones are the capacity, and no more wait than were removed.
fn is_held_back(live: u32, waiting: u32, listed: u32, capacity: u32, removed: u128) -> bool
    ensures { IsTrue result ↔ IsHeldBack live waiting listed capacity removed }
{
    live == listed
        && u64::from(live) + u64::from(waiting) == u64::from(capacity)
        && u128::from(waiting) <= removed
}
