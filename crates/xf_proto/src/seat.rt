//! A seat of the protocol.
ghost use Rattle.std.specs.Prelude.{◌≡◌, ◌<◌, ◌^◌};
ghost use Rattle.std.specs.Option.{ForSome};
ghost use Rattle.xf_proto.specs.Effects.{pin_after};
ghost use Rattle.xf_proto.specs.SeatState.{first_seat};
ghost use Rattle.xf_views.specs.Hands.{hand_after_trial, hand_after_draw, hand_after_pin};

use std::alloc::Global;
use std::marker::Model;
use xf_types::Receipt;

/// One seat. Contracts see it as its hand and the receipt of its pending trial.
#[derive(Drop)]
pub(crate) struct Seat {
    pub(crate) ticket: Option<u64>,
    pub(crate) has_turn: bool,
    pub(crate) writing: bool,
    pub(crate) drawn: bool,
    pub(crate) trial: Option<u64>,
    pub(crate) pending: Option<Receipt>,
    pub(crate) began: Option<u64>,
    pub(crate) just_began: bool,
    pub(crate) pin: u64,
    pub(crate) loaded: Vec<(u64, u64)>,
    pub(crate) retired: Vec<(u64, u64)>,
    pub(crate) slots: Vec<u64>,
    pub(crate) ghost early: { ForSome began (λ g. g < 2 ^ 62) },
}

impl Model for Seat {
    ghost use Rattle.xf_proto.specs.SeatState.{SeatState};

    ghost Value = { SeatState };

    ghost view = { λ s. record { hand = record { ticket = s.ticket; has_turn = s.has_turn; writing = s.writing; drawn = s.drawn; trial = s.trial; began = s.began; just_began = s.just_began; pin = s.pin; loaded = s.loaded.items; retired = s.retired.items; slots = s.slots.items }; pending = s.pending } };
}

impl Seat {
    /// A seat before its first step.
    pub(crate) fn new(alloc: Global) -> Seat
        ensures { result ≡ first_seat }
    {
        Seat {
            ticket: None,
            has_turn: false,
            writing: false,
            drawn: false,
            trial: None,
            pending: None,
            began: None,
            just_began: false,
            pin: 0,
            loaded: Vec::new(alloc),
            retired: Vec::new(alloc),
            slots: Vec::new(alloc),
        }
    }

    /// A trial was drawn.
    pub(crate) fn try_number(&mut self, number: u64, receipt: Option<Receipt>)
        ensures { self.new ≡ record { hand = hand_after_trial self.old.hand number; pending = receipt } }
    {
        self.trial = Some(number);
        self.pending = receipt;
        self.just_began = false;
    }

    /// A receipt was drawn that stands at once.
    pub(crate) fn draw(&mut self, moves: bool)
        ensures { self.new ≡ record { hand = hand_after_draw self.old.hand moves; pending = self.old.pending } }
    {
        self.drawn = moves;
        self.just_began = false;
    }

    /// The pin word is set to one more than the first value of the read.
    pub(crate) fn set_pin(&mut self)
        ensures { self.new ≡ record { hand = hand_after_pin self.old.hand (pin_after self.old.hand.began); pending = self.old.pending } }
    {
        self.pin = match self.began {
            None => 0,
            Some(began) => began + 1,
        };
        self.just_began = false;
    }
}
