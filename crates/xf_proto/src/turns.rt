//! Tickets, and the turn of the database that they give.
ghost use Rattle.std.specs.Prelude.{◌≡◌, ◌+◌, ◌<◌, ◌^◌, length, Some, slice_get};
ghost use Rattle.xf_proto.specs.SeatState.{SeatState};
ghost use Rattle.xf_proto.specs.Effects.{state_after};
ghost use Rattle.xf_proto.specs.declared.step.Kind.TheVariants as kind;

use crate::state::State;

impl State {
    pub(crate) fn make_ticket(&mut self, i: usize)
        requires room { self.old.steps + 1 < 2 ^ 62 }
        requires seat { i < length self.old.seats }
        ensures { (s : SeatState) → slice_get self.old.seats i ≡ Some s → self.new ≡ state_after self.old i s kind.Ticket }
    {
        let seat = &mut self.seats[i];
        seat.ticket = Some(self.ticket);
        seat.just_began = false;
        self.ticket += 1;
        self.steps += 1;
    }

    pub(crate) fn make_serving(&mut self, i: usize)
        requires room { self.old.steps + 1 < 2 ^ 62 }
        requires seat { i < length self.old.seats }
        ensures { (s : SeatState) → slice_get self.old.seats i ≡ Some s → self.new ≡ state_after self.old i s kind.Serving }
    {
        let seat = &mut self.seats[i];
        seat.has_turn = match seat.ticket {
            None => false,
            Some(ticket) => ticket == self.serving,
        };
        seat.just_began = false;
        seat.loaded.clear();
        seat.retired.clear();
        self.steps += 1;
    }

    pub(crate) fn make_leave(&mut self, i: usize)
        requires room { self.old.steps + 1 < 2 ^ 62 }
        requires seat { i < length self.old.seats }
        ensures { (s : SeatState) → slice_get self.old.seats i ≡ Some s → self.new ≡ state_after self.old i s kind.Leave }
    {
        let seat = &mut self.seats[i];
        seat.has_turn = false;
        seat.ticket = None;
        seat.just_began = false;
        self.serving += 1;
        self.steps += 1;
    }
}
