//! The end of a call for the state in one slot, once it has its reply.
ghost use Rattle.std.specs.Prelude.{◌≡◌, ◌+◌, ◌<◌, length};
ghost use Rattle.xf_table.specs.Rows.{MayStay};
ghost use Rattle.xf_live.specs.Passes.{IsHere};
ghost use Rattle.xf_move.specs.OnSlot.{IsAnsweredOn, SettledOn};

use xf_live::{Live, Pass};
use xf_values::StateValue;
use xf_views::Entry;

/// Draws a number for a call that left the words as they were and may have changed the own part of the state in a slot, and gives back the slot's turn
/// and that of the database. The slots of so many policies come first.
pub fn settle_on_slot(
    live: &Live<StateValue>,
    pass: Pass<StateValue>,
    policies: u32,
    slot: u32,
    entry: Entry,
) -> Pass<StateValue>
    requires here { IsHere live.now pass }
    requires policies { policies ≡ pass.view.life.start.policies }
    requires small { policies + slot < 4294967296 }
    requires row { MayStay pass.view entry }
    requires answered { IsAnsweredOn pass.view.life.start slot pass entry }
    requires spare { length pass.view.knows.mine < pass.room }
    ensures here { IsHere live.now result }
    ensures settled { SettledOn (policies + slot) entry pass result }
{
    let mut pass = pass;
    live.draw_still(&mut pass, entry);
    live.give_turn(&mut pass, policies + slot);
    live.leave_turn(&mut pass);
    pass
}
