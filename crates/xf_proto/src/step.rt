//! What a step is, and why steps end early.
use xf_types::Receipt;

/// What a step does. Each is one load, store, exchange or fetch-and-add on one word that all seats share.
#[derive(Debug, Drop)]
pub enum Kind {
    /// Takes the next ticket.
    Ticket,
    /// Loads the ticket that is served.
    Serving,
    /// Makes the generation odd.
    Begin,
    Store { place: u32, value: u64 },
    /// Takes the next number of the history. The receipt of a trial comes to stand if its read ends the same.
    Draw { receipt: Option<Receipt> },
    /// Makes the generation even.
    Finish,
    /// Lets the next ticket be served.
    Leave,
    LoadGeneration,
    LoadWord { place: u32 },
    /// Stores one more than the generation just loaded in the seat's own pin word.
    Pin,
    Unpin,
    LoadPin { seat: u32 },
    TakeTurn { slot: u32 },
    GiveTurn { slot: u32 },
}

/// A step of one seat.
#[derive(Debug, Drop)]
pub struct Step {
    pub actor: u32,
    pub kind: Kind,
}

/// Why the steps ended early, and at which of them, counted from 0.
#[derive(PartialEq, Debug, Drop)]
pub enum StepFault {
    /// The table has no row for the step.
    Illegal { at: u64 },
    NoMemory { at: u64 },
}
