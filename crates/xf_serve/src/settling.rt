//! The end of a call under the turn, once it has its reply.
ghost use Rattle.std.specs.Prelude.{◌<◌, length};
ghost use Rattle.xf_meaning.specs.Good.{Good};
ghost use Rattle.xf_meaning.specs.Marks.{bucket_of};
ghost use Rattle.xf_meaning.specs.Tells.{lists};
ghost use Rattle.xf_table.specs.Rows.{IsHonestMove, IsHonestStay, MayMove, MayStay};
ghost use Rattle.xf_live.specs.Passes.{IsHere};
ghost use Rattle.xf_serve.specs.Settling.{SettledMove, SettledStill};

use xf_live::{Live, Pass};
use xf_values::StateValue;
use xf_views::Entry;

/// Draws a number for a call that changed the words, finishes the change, and gives the turn back.
pub fn settle_moving(
    live: &Live<StateValue>,
    pass: Pass<StateValue>,
    entry: Entry,
) -> Pass<StateValue>
    requires here { IsHere live.now pass }
    requires row { MayMove pass.view entry }
    requires honest { IsHonestMove bucket_of Good lists pass.view entry }
    requires spare { length pass.view.knows.mine < pass.room }
    ensures here { IsHere live.now result }
    ensures settled { SettledMove entry pass result }
{
    let mut pass = pass;
    live.draw_moving(&mut pass, entry);
    live.finish(&mut pass);
    live.leave_turn(&mut pass);
    pass
}

/// Draws a number for a call that left the words as they were, and gives the turn back.
pub fn settle_still(
    live: &Live<StateValue>,
    pass: Pass<StateValue>,
    entry: Entry,
) -> Pass<StateValue>
    requires here { IsHere live.now pass }
    requires row { MayStay pass.view entry }
    requires honest { IsHonestStay bucket_of Good lists pass.view entry }
    requires spare { length pass.view.knows.mine < pass.room }
    ensures here { IsHere live.now result }
    ensures settled { SettledStill entry pass result }
{
    let mut pass = pass;
    live.draw_still(&mut pass, entry);
    live.leave_turn(&mut pass);
    pass
}
