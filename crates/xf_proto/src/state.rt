//! The state of the protocol: how it begins, and what it tells.
ghost use Rattle.std.specs.Prelude.{◌≡◌, ◌≤◌, replicate, IfOk};
ghost use Rattle.xf_proto.specs.ProtocolState.{first_state};
ghost use Rattle.xf_proto.specs.SeatState.{first_seat};

use crate::seat::Seat;
use std::alloc::Global;
use std::marker::Model;
use xf_types::{NoMemory, Receipt};

/// A state of the protocol: the words that all seats share, the seats, and the receipts that stand.
#[derive(Drop)]
pub struct State {
    pub(crate) ticket: u64,
    pub(crate) serving: u64,
    pub(crate) generation: u64,
    pub(crate) draw: u64,
    pub(crate) words: Vec<u64>,
    pub(crate) turns: Vec<u64>,
    pub(crate) seats: Vec<Seat>,
    pub(crate) receipts: Vec<Receipt>,
    pub(crate) steps: u64,
    pub(crate) ghost low: { (ticket ≤ steps) × (serving ≤ steps) × (generation ≤ steps) × (draw ≤ steps) },
}

impl Model for State {
    ghost use Rattle.xf_proto.specs.ProtocolState.{ProtocolState};

    ghost Value = { ProtocolState };

    ghost view = { λ s. record { numbers = record { ticket = s.ticket; serving = s.serving; generation = s.generation; draw = s.draw }; words = s.words.items; turns = s.turns.items; seats = s.seats.items; receipts = s.receipts.items; steps = s.steps } };
}

impl State {
    /// The first state, with so many seats, image words and slots.
    pub fn new(alloc: Global, seats: u32, words: u32, slots: u32) -> Result<State, NoMemory>
        requires seats { (1 ≤ seats) × (seats ≤ 16) }
        requires words { slots ≤ words }
        ensures { IfOk result (λ s. s ≡ first_state seats words slots) }
    {
        Ok(State {
            ticket: 0,
            serving: 0,
            generation: 0,
            draw: 0,
            words: zeros(alloc, words)?,
            turns: zeros(alloc, slots)?,
            seats: new_seats(alloc, seats)?,
            receipts: Vec::new(alloc),
            steps: 0,
        })
    }

    /// All receipts that stand, by number.
    pub fn receipts(&self) -> &[Receipt]
        ensures { result.now ≡ self.now.receipts }
    {
        self.receipts.as_slice()
    }

    /// How many steps were made since the first state.
    pub fn steps(&self) -> u64
        ensures { result ≡ self.now.steps }
    {
        self.steps
    }
}

/// So many zeros.
fn zeros(alloc: Global, count: u32) -> Result<Vec<u64>, NoMemory>
    ensures { IfOk result (λ v. v.items ≡ replicate count 0) }
{
    match vec![in alloc; 0; count as usize] {
        Ok(zeros) => Ok(zeros),
        Err(_) => Err(NoMemory),
    }
}

/// So many seats before their first step.
fn new_seats(alloc: Global, count: u32) -> Result<Vec<Seat>, NoMemory>
    ensures { IfOk result (λ v. v.items ≡ replicate count first_seat) }
{
    let mut seats = Vec::new(alloc);
    for i in 0..count {
        if seats.push(Seat::new(alloc)).is_err() {
            return Err(NoMemory);
        }
    }
    Ok(seats)
}
