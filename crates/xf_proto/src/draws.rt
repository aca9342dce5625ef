//! Draws: a receipt stands at once, or waits for the end of its read.
ghost use Rattle.std.specs.Prelude.{◌≡◌, ◌+◌, ◌<◌, ◌^◌, length, Some, slice_get, OnOk, OnErr};
ghost use Rattle.xf_proto.specs.SeatState.{SeatState};
ghost use Rattle.xf_proto.specs.Effects.{state_after, drawn_by, drawn_later, drawn_now};
ghost use Rattle.xf_proto.specs.declared.step.Kind.TheVariants as kind;

use crate::state::State;
use xf_types::{NoMemory, Receipt};

impl State {
    pub(crate) fn make_draw(&mut self, i: usize, receipt: &Option<Receipt>) -> Result<(), NoMemory>
        requires room { self.old.steps + 1 < 2 ^ 62 }
        requires seat { i < length self.old.seats }
        ensures ok { OnOk result ((s : SeatState) → slice_get self.old.seats i ≡ Some s → self.new ≡ state_after self.old i s (kind.Draw receipt.now)) }
        ensures err { OnErr result (self.new ≡ self.old) }
    {
        match receipt {
            None => {
                self.draw_later(i, None);
                Ok(())
            }
            Some(receipt) => self.draw_receipt(i, receipt),
        }
    }

    fn draw_receipt(&mut self, i: usize, receipt: &Receipt) -> Result<(), NoMemory>
        requires room { self.old.steps + 1 < 2 ^ 62 }
        requires seat { i < length self.old.seats }
        ensures ok { OnOk result ((s : SeatState) → slice_get self.old.seats i ≡ Some s → self.new ≡ drawn_by self.old i s (Some receipt.now)) }
        ensures err { OnErr result (self.new ≡ self.old) }
    {
        let copy = receipt.copy()?;
        if self.seats[i].is_by_trial(receipt) {
            self.draw_later(i, Some(copy));
            return Ok(());
        }
        let moves = self.seats[i].is_by_move(receipt);
        self.draw_now(i, copy, moves)
    }

    fn draw_later(&mut self, i: usize, receipt: Option<Receipt>)
        requires room { self.old.steps + 1 < 2 ^ 62 }
        requires seat { i < length self.old.seats }
        ensures { (s : SeatState) → slice_get self.old.seats i ≡ Some s → self.new ≡ drawn_later self.old i s receipt }
    {
        let number = self.draw;
        self.seats[i].try_number(number, receipt);
        self.draw += 1;
        self.steps += 1;
    }

    fn draw_now(&mut self, i: usize, receipt: Receipt, moves: bool) -> Result<(), NoMemory>
        requires room { self.old.steps + 1 < 2 ^ 62 }
        requires seat { i < length self.old.seats }
        ensures ok { OnOk result ((s : SeatState) → slice_get self.old.seats i ≡ Some s → self.new ≡ drawn_now self.old i s receipt moves) }
        ensures err { OnErr result (self.new ≡ self.old) }
    {
        if self.receipts.push(receipt).is_err() {
            return Err(NoMemory);
        }
        self.seats[i].draw(moves);
        self.draw += 1;
        self.steps += 1;
        Ok(())
    }
}
