//! Openings: the generation gets odd, words are stored, and it gets even again.
ghost use Rattle.std.specs.Prelude.{◌≡◌, ◌+◌, ◌<◌, ◌^◌, length, Some, slice_get, OnOk, OnErr};
ghost use Rattle.xf_proto.specs.SeatState.{SeatState};
ghost use Rattle.xf_proto.specs.Effects.{state_after};
ghost use Rattle.xf_proto.specs.declared.step.Kind.TheVariants as kind;

use crate::state::State;
use xf_types::NoMemory;

impl State {
    pub(crate) fn make_begin(&mut self, i: usize)
        requires room { self.old.steps + 1 < 2 ^ 62 }
        requires seat { i < length self.old.seats }
        ensures { (s : SeatState) → slice_get self.old.seats i ≡ Some s → self.new ≡ state_after self.old i s kind.Begin }
    {
        let seat = &mut self.seats[i];
        seat.writing = true;
        seat.drawn = false;
        seat.just_began = false;
        self.generation += 1;
        self.steps += 1;
    }

    pub(crate) fn make_store(&mut self, i: usize, place: u32, value: u64) -> Result<(), NoMemory>
        requires room { self.old.steps + 1 < 2 ^ 62 }
        requires seat { i < length self.old.seats }
        requires word { place < length self.old.words }
        ensures ok { OnOk result ((s : SeatState) → slice_get self.old.seats i ≡ Some s → self.new ≡ state_after self.old i s (kind.Store place value)) }
        ensures err { OnErr result (self.new ≡ self.old) }
    {
        let word = place as usize;
        let seat = &mut self.seats[i];
        if word < self.turns.len() && value >= 2 {
            let count = seat.loaded.len() as u64;
            if seat.retired.insert(0, (place as u64, count)).is_err() {
                return Err(NoMemory);
            }
        }
        seat.just_began = false;
        self.words[word] = value;
        self.steps += 1;
        Ok(())
    }

    pub(crate) fn make_finish(&mut self, i: usize)
        requires room { self.old.steps + 1 < 2 ^ 62 }
        requires seat { i < length self.old.seats }
        ensures { (s : SeatState) → slice_get self.old.seats i ≡ Some s → self.new ≡ state_after self.old i s kind.Finish }
    {
        let seat = &mut self.seats[i];
        seat.writing = false;
        seat.drawn = false;
        seat.just_began = false;
        self.generation += 1;
        self.steps += 1;
    }
}
