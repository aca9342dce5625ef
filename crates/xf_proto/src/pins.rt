//! Pins: while a seat is pinned, no slot that it has seen listed is listed again.
ghost use Rattle.std.specs.Prelude.{◌≡◌, ◌+◌, ◌<◌, ◌^◌, length, Some, slice_get, OnOk, OnErr};
ghost use Rattle.xf_proto.specs.SeatState.{SeatState};
ghost use Rattle.xf_proto.specs.Effects.{state_after};
ghost use Rattle.xf_proto.specs.declared.step.Kind.TheVariants as kind;
ghost use Rattle.xf_views.specs.Hands.{hand_after_load_pin};

use crate::seat::Seat;
use crate::state::State;
use xf_types::NoMemory;

impl State {
    pub(crate) fn make_pin(&mut self, i: usize)
        requires room { self.old.steps + 1 < 2 ^ 62 }
        requires seat { i < length self.old.seats }
        ensures { (s : SeatState) → slice_get self.old.seats i ≡ Some s → self.new ≡ state_after self.old i s kind.Pin }
    {
        self.seats[i].set_pin();
        self.steps += 1;
    }

    pub(crate) fn make_unpin(&mut self, i: usize)
        requires room { self.old.steps + 1 < 2 ^ 62 }
        requires seat { i < length self.old.seats }
        ensures { (s : SeatState) → slice_get self.old.seats i ≡ Some s → self.new ≡ state_after self.old i s kind.Unpin }
    {
        let seat = &mut self.seats[i];
        seat.pin = 0;
        seat.just_began = false;
        self.steps += 1;
    }

    pub(crate) fn make_load_pin(&mut self, i: usize, seat: u32) -> Result<(), NoMemory>
        requires room { self.old.steps + 1 < 2 ^ 62 }
        requires seat { i < length self.old.seats }
        requires other { seat < length self.old.seats }
        ensures ok { OnOk result ((s : SeatState) → slice_get self.old.seats i ≡ Some s → self.new ≡ state_after self.old i s (kind.LoadPin seat)) }
        ensures err { OnErr result (self.new ≡ self.old) }
    {
        let pin = self.seats[seat as usize].pin;
        self.seats[i].keep_pin(seat as u64, pin)?;
        self.steps += 1;
        Ok(())
    }
}

impl Seat {
    /// A pin word was loaded.
    fn keep_pin(&mut self, seat: u64, pin: u64) -> Result<(), NoMemory>
        ensures ok { OnOk result (self.new ≡ record { hand = hand_after_load_pin self.old.hand seat pin; pending = self.old.pending }) }
        ensures err { OnErr result (self.new ≡ self.old) }
    {
        if self.loaded.push((seat, pin)).is_err() {
            return Err(NoMemory);
        }
        self.just_began = false;
        Ok(())
    }
}
