//! Which steps are legal.
ghost use Rattle.std.specs.Prelude.{◌≡◌, ◌+◌, ◌<◌, length, Some, slice_get, None, MatchBool};
ghost use Rattle.xf_proto.specs.SeatState.{SeatState};
ghost use Rattle.xf_proto.specs.Legality.{has_slot, is_output, began_even, is_by_move, is_by_turn, is_by_trial, is_by_slot, may_draw, may_step};
ghost use Rattle.xf_proto.specs.Table.{row_for};
ghost use Rattle.xf_proto.specs.Runs.{HasRow};

use crate::seat::Seat;
use crate::state::State;
use crate::step::Kind;
use xf_types::{Call, Receipt};

impl State {
    /// Whether the table has a row for the step.
    pub(crate) fn has_row(&self, i: usize, kind: &Kind) -> bool
        ensures { MatchBool result (HasRow self.now i kind.now) (row_for self.now i (slice_get self.now.seats i) kind.now ≡ None) }
    {
        if i >= self.seats.len() {
            return false;
        }
        self.may_step(i, kind)
    }

    fn may_step(&self, i: usize, kind: &Kind) -> bool
        requires { i < length self.now.seats }
        ensures { (s : SeatState) → slice_get self.now.seats i ≡ Some s → result ≡ may_step self.now i s.hand kind.now }
    {
        let seat = &self.seats[i];
        match kind {
            Kind::Ticket => seat.ticket.is_none(),
            Kind::Serving => seat.ticket.is_some() && !seat.has_turn,
            Kind::Begin => seat.has_turn && !seat.writing,
            Kind::Store { place, value } => {
                seat.has_turn
                    && seat.writing
                    && !seat.drawn
                    && (*place as usize) < self.words.len()
                    && self.may_store(seat, *place, *value)
            }
            Kind::Draw { receipt } => seat.may_draw(self.draw, i, receipt),
            Kind::Finish => seat.writing && seat.drawn,
            Kind::Leave => seat.has_turn && !seat.writing,
            Kind::LoadGeneration => true,
            Kind::LoadWord { place } => (*place as usize) < self.words.len(),
            Kind::Pin => seat.pin == 0 && seat.just_began,
            Kind::Unpin => seat.pin != 0 && !seat.has_turn && seat.slots.is_empty(),
            Kind::LoadPin { seat: other } => seat.has_turn && (*other as usize) < self.seats.len(),
            Kind::TakeTurn { slot } => {
                (*slot as usize) < self.turns.len() && !seat.has_slot(*slot as u64) && !seat.writing
            }
            Kind::GiveTurn { slot } => {
                (*slot as usize) < self.turns.len()
                    && seat.has_slot(*slot as u64)
                    && seat.trial.is_none()
                    && (!seat.writing || seat.drawn)
            }
        }
    }
}

impl Seat {
    /// Whether the turn of a slot is held.
    fn has_slot(&self, slot: u64) -> bool
        ensures { result ≡ has_slot slot self.now.hand.slots }
    {
        self.slots.iter().any(|held| *held == slot)
    }

    /// Whether the current read began even.
    fn began_even(&self) -> bool
        ensures { result ≡ began_even self.now.hand.began }
    {
        match self.began {
            None => false,
            Some(began) => began % 2 == 0,
        }
    }

    /// Whether a draw with this receipt may be made.
    fn may_draw(&self, number: u64, i: usize, receipt: &Option<Receipt>) -> bool
        ensures { result ≡ may_draw number i self.now.hand receipt.now }
    {
        match receipt {
            None => !self.has_turn && self.trial.is_none() && self.began_even(),
            Some(receipt) => {
                receipt.number == number
                    && receipt.worker as usize == i
                    && self.trial.is_none()
                    && (self.is_by_move(receipt)
                        || self.is_by_turn(receipt)
                        || self.is_by_trial(receipt)
                        || self.is_by_slot(receipt))
            }
        }
    }

    /// Whether it is a move of an opening that hasn't drawn.
    pub(crate) fn is_by_move(&self, receipt: &Receipt) -> bool
        ensures { result ≡ is_by_move self.now.hand receipt.now }
    {
        self.has_turn && self.writing && !self.drawn && receipt.reply.is_moving()
    }

    /// Whether it is another receipt under the turn of the database.
    fn is_by_turn(&self, receipt: &Receipt) -> bool
        ensures { result ≡ is_by_turn self.now.hand receipt.now }
    {
        self.has_turn && !self.writing && !receipt.reply.is_moving()
    }

    /// Whether it is that of a trial.
    pub(crate) fn is_by_trial(&self, receipt: &Receipt) -> bool
        ensures { result ≡ is_by_trial self.now.hand receipt.now }
    {
        !self.has_turn
            && self.began_even()
            && !is_output(&receipt.call)
            && !receipt.reply.is_moving()
    }

    /// Whether it is an output's under the turn of a slot.
    fn is_by_slot(&self, receipt: &Receipt) -> bool
        ensures { result ≡ is_by_slot self.now.hand receipt.now }
    {
        !self.has_turn
            && !self.slots.is_empty()
            && is_output(&receipt.call)
            && !receipt.reply.is_moving()
    }
}

fn is_output(call: &Call) -> bool
    ensures { result ≡ is_output call.now }
{
    matches!(call, Call::Output { .. })
}
