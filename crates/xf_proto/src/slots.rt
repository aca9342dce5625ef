//! The turns of slots.
ghost use Rattle.std.specs.Prelude.{◌≡◌, ◌+◌, ◌<◌, ◌^◌, ◌==◌, not, filter, length, Some, slice_get, OnOk, OnErr};
ghost use Rattle.xf_proto.specs.SeatState.{SeatState};
ghost use Rattle.xf_proto.specs.Effects.{state_after};
ghost use Rattle.xf_proto.specs.declared.step.Kind.TheVariants as kind;
ghost use Rattle.xf_views.specs.Hands.{hand_after_take, hand_after_give};

use crate::seat::Seat;
use crate::state::State;
use xf_types::NoMemory;

impl State {
    pub(crate) fn make_take_turn(&mut self, i: usize, slot: u32) -> Result<(), NoMemory>
        requires room { self.old.steps + 1 < 2 ^ 62 }
        requires seat { i < length self.old.seats }
        requires slot { slot < length self.old.turns }
        ensures ok { OnOk result ((s : SeatState) → slice_get self.old.seats i ≡ Some s → self.new ≡ state_after self.old i s (kind.TakeTurn slot)) }
        ensures err { OnErr result (self.new ≡ self.old) }
    {
        let place = slot as usize;
        if self.turns[place] == 0 {
            self.seats[i].take(slot as u64)?;
            self.turns[place] = i as u64 + 1;
        } else {
            self.seats[i].just_began = false;
        }
        self.steps += 1;
        Ok(())
    }

    pub(crate) fn make_give_turn(&mut self, i: usize, slot: u32)
        requires room { self.old.steps + 1 < 2 ^ 62 }
        requires seat { i < length self.old.seats }
        requires slot { slot < length self.old.turns }
        ensures { (s : SeatState) → slice_get self.old.seats i ≡ Some s → self.new ≡ state_after self.old i s (kind.GiveTurn slot) }
    {
        self.seats[i].give(slot as u64);
        self.turns[slot as usize] = 0;
        self.steps += 1;
    }
}

impl Seat {
    /// The turn of a slot was taken.
    fn take(&mut self, slot: u64) -> Result<(), NoMemory>
        ensures ok { OnOk result (self.new ≡ record { hand = hand_after_take self.old.hand slot; pending = self.old.pending }) }
        ensures err { OnErr result (self.new ≡ self.old) }
    {
        if self.slots.insert(0, slot).is_err() {
            return Err(NoMemory);
        }
        self.just_began = false;
        Ok(())
    }

    /// The turn of a slot was given back.
    fn give(&mut self, slot: u64)
        ensures { self.new ≡ record { hand = hand_after_give self.old.hand slot; pending = self.old.pending } }
    {
        remove_slot(&mut self.slots, slot);
        self.just_began = false;
    }
}

/// The slot is no longer among them.
fn remove_slot(slots: &mut Vec<u64>, slot: u64)
    ensures { slots.new.items ≡ filter (λ j. not (j == slot)) slots.old.items }
{
    slots.retain(|held| *held != slot);
}
