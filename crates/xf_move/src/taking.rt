//! The turn of one slot, taken under the turn of the database.
ghost use Rattle.std.specs.Prelude.{◌≡◌, ◌+◌, ◌<◌, true, []};
ghost use Rattle.xf_meaning.specs.Good.{Good};
ghost use Rattle.xf_meaning.specs.Tells.{lists};
ghost use Rattle.xf_live.specs.Passes.{IsHere};
ghost use Rattle.xf_live.specs.Calls.{Took};
ghost use Rattle.xf_live.specs.Values.{holds};
ghost use Rattle.xf_desk.specs.Lending.{AreSlots, MayLend};
ghost use Rattle.xf_desk.specs.TurnLaws.{stands_for};
ghost use Rattle.xf_serve.specs.Served.{IsTableOf};
ghost use Rattle.xf_move.specs.OnSlot.{KnowsAll};

use std::sync::Wait;
use xf_live::{Live, Pass};
use xf_values::StateValue;

/// Waits for the turn of the slot of a state. The pass has the turn of the database and no other slot's.
pub fn take_slot<R: Wait>(
    live: &Live<StateValue>,
    rt: &R,
    pass: Pass<StateValue>,
    policies: u32,
    states: u32,
    slot: u32,
) -> Pass<StateValue>
    requires slots { AreSlots live.now policies states }
    requires base { IsTableOf policies states live.now }
    requires lent { MayLend live.now pass }
    requires alone { pass.values ≡ [] }
    requires slot { slot < states }
    ensures took { Took Good lists stands_for pass (policies + slot) result }
    ensures lent { MayLend live.now result }
    ensures knows { KnowsAll policies states live.now.start result }
    ensures held { holds result.values (policies + slot) ≡ true }
{
    let mut pass = pass;
    live.enter_slot(rt, &mut pass, policies + slot);
    pass
}
