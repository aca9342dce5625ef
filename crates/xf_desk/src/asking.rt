//! What the statuses of a table say to a pass that has the turn.
ghost use Rattle.std.specs.Prelude.{◌≡◌, ◌+◌, ◌≤◌, ◌^◌, false};
ghost use Rattle.xf_live.specs.Passes.{IsHere};
ghost use Rattle.xf_desk.specs.Lending.{AreSlots, IsLent, MayLend};
ghost use Rattle.xf_desk.specs.Pools.{IsPoolOf};

use crate::lent::{From, lend};
use crate::pools::free_slot;
use std::marker::Brand;
use xf_cells::OnePool;
use xf_live::{Live, Pass};
use xf_values::StateValue;

// The pool of so many slots from a first one on, by the words of a lent pass.
fn ask_slots<B: From>(
    live: &Live<StateValue>,
    pass: Pass<StateValue>,
    policies: u32,
    states: u32,
    first: u32,
    count: u32,
) -> (OnePool, Pass<StateValue>)
    requires said { (B.live ≡ live.now) × (B.pass ≡ pass) }
    requires slots { AreSlots live.now policies states × (first + count ≤ policies + states) }
    requires lent { MayLend live.now pass }
    ensures here { IsHere live.now result.1 }
    ensures lent { IsLent live.now.start.policies pass result.1 false }
    ensures pool { IsPoolOf first count pass.view.image.words result.0 }
{
    let mut desk = lend::<(), B>(live, &(), pass, policies, states);
    let pool = free_slot(&mut desk, first, count);
    (pool, desk.end())
}

/// The pool of the policies' slots. Nothing is stored.
pub fn policy_pool(
    live: &Live<StateValue>,
    pass: Pass<StateValue>,
    policies: u32,
    states: u32,
) -> (OnePool, Pass<StateValue>)
    requires slots { AreSlots live.now policies states }
    requires lent { MayLend live.now pass }
    ensures here { IsHere live.now result.1 }
    ensures lent { IsLent live.now.start.policies pass result.1 false }
    ensures pool { IsPoolOf 0 policies pass.view.image.words result.0 }
{
    ask_slots::<Brand>(live, pass, policies, states, 0, policies)
}

/// The pool of the states' slots. Nothing is stored.
pub fn state_pool(
    live: &Live<StateValue>,
    pass: Pass<StateValue>,
    policies: u32,
    states: u32,
) -> (OnePool, Pass<StateValue>)
    requires slots { AreSlots live.now policies states }
    requires lent { MayLend live.now pass }
    ensures here { IsHere live.now result.1 }
    ensures lent { IsLent live.now.start.policies pass result.1 false }
    ensures pool { IsPoolOf policies states pass.view.image.words result.0 }
{
    ask_slots::<Brand>(live, pass, policies, states, policies, states)
}
