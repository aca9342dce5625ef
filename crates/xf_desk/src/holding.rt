//! Turns of slots, before a pass is lent.
ghost use Rattle.std.specs.Prelude.{◌≡◌, ◌<◌, true, false};
ghost use Rattle.xf_seats.specs.Opened.{slots_of};
ghost use Rattle.xf_table.specs.Plays.{StandsWith};
ghost use Rattle.xf_live.specs.Passes.{IsHere};
ghost use Rattle.xf_meaning.specs.Good.{Good};
ghost use Rattle.xf_meaning.specs.Tells.{lists};
ghost use Rattle.xf_desk.specs.Turns.{AllStand, HoldsToo};

use std::sync::Wait;
use xf_live::{Live, Pass};
use xf_values::StateValue;

/// Waits for a slot's turn, where the pass hasn't it. Slots are counted as in the table, those of policies first.
pub fn hold_slot<R: Wait>(live: &Live<StateValue>, rt: &R, pass: &mut Pass<StateValue>, slot: u32)
    requires here { IsHere live.now pass.old }
    requires slot { slot < slots_of live.now.start }
    requires shut { (pass.old.view.hand.has_turn ≡ true) × (pass.old.view.hand.writing ≡ false) }
    requires stands { AllStand pass.old × StandsWith Good lists live.now.start pass.old.view.image.words pass.old.view.own.turns }
    ensures here { IsHere live.now pass.new }
    ensures holds { HoldsToo pass.old pass.new slot }
    ensures stands { AllStand pass.new × StandsWith Good lists live.now.start pass.new.view.image.words pass.new.view.own.turns }
{
    if !pass.has_turn(slot) {
        live.enter_slot(rt, pass, slot);
    }
}
