//! Reads: from one load of the generation to the next.
ghost use Rattle.std.specs.Prelude.{◌≡◌, ◌+◌, ◌<◌, ◌^◌, length, Some, slice_get, OnOk, OnErr};
ghost use Rattle.xf_proto.specs.SeatState.{SeatState};
ghost use Rattle.xf_proto.specs.Effects.{state_after};
ghost use Rattle.xf_proto.specs.declared.step.Kind.TheVariants as kind;
ghost use Rattle.xf_views.specs.Hands.{is_same};

use crate::receipts::settle;
use crate::state::State;
use xf_types::NoMemory;

impl State {
    pub(crate) fn make_load_generation(&mut self, i: usize) -> Result<(), NoMemory>
        requires room { self.old.steps + 1 < 2 ^ 62 }
        requires seat { i < length self.old.seats }
        ensures ok { OnOk result ((s : SeatState) → slice_get self.old.seats i ≡ Some s → self.new ≡ state_after self.old i s kind.LoadGeneration) }
        ensures err { OnErr result (self.new ≡ self.old) }
    {
        let generation = self.generation;
        let seat = &mut self.seats[i];
        let same = ends_same(seat.began, generation);
        settle(&mut self.receipts, &mut seat.pending, same)?;
        seat.began = Some(generation);
        seat.trial = None;
        seat.just_began = true;
        self.steps += 1;
        Ok(())
    }

    pub(crate) fn make_load_word(&mut self, i: usize, place: u32)
        requires room { self.old.steps + 1 < 2 ^ 62 }
        requires seat { i < length self.old.seats }
        ensures { (s : SeatState) → slice_get self.old.seats i ≡ Some s → self.new ≡ state_after self.old i s (kind.LoadWord place) }
    {
        self.seats[i].just_began = false;
        self.steps += 1;
    }
}

/// Whether a read that began so ends the same.
fn ends_same(began: Option<u64>, generation: u64) -> bool
    ensures { result ≡ is_same began generation }
{
    match began {
        None => false,
        Some(began) => began == generation && generation % 2 == 0,
    }
}
