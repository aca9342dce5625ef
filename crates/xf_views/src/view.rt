//! What a seat knows. No value of these types is made: the steps are functions on what contracts see of them.
use crate::{Hand, Listed, OwnSeen};
use std::collections::LinkedList;
use std::marker::Model;
use xf_types::{Receipt, Sa};

/// What it has seen and recorded.
pub struct Knowledge {
    /// Its draws and tickets so far.
    pub count: u64,
    /// The moves that it has seen.
    pub seen: LinkedList<Receipt>,
    /// Its own receipts.
    pub mine: LinkedList<Receipt>,
    /// Whether the current read began after its last receipt.
    pub anew: bool,
    /// The reads with a trial that began since its last receipt and were overtaken by a move: their first and second values.
    pub overtaken: LinkedList<(u64, u64)>,
}

/// The image as it knows it.
pub struct ImageView {
    /// The words, while it has the turn.
    pub words: LinkedList<u64>,
    /// The words as its opening began.
    pub kept: LinkedList<u64>,
    /// The places and words that the current read loaded.
    pub loads: LinkedList<(u64, u64)>,
}

/// What it holds by its pin.
pub struct PinView {
    /// The loads of each read that ended the same since the pin.
    pub shows: LinkedList<LinkedList<(u64, u64)>>,
    /// The slots listed in this opening.
    pub fresh: LinkedList<u64>,
}

/// A slot's turn that is held.
pub struct SlotTurn {
    pub slot: u64,
    /// What is listed there.
    pub listed: Option<Listed>,
    /// Whether the seat drew no move since it took the turn.
    pub still: bool,
    /// Whether the turn was held at the draw of the pending trial.
    pub tried: bool,
}

/// The slots' turns that it holds.
pub struct OwnView {
    pub turns: LinkedList<SlotTurn>,
}

/// What a value stands for at the start: a state's record, the time and the state's own part, or nothing (contracts see a
/// standing). No value of it is made.
pub struct Home {
    pub state: Sa,
    pub time: u64,
    pub own: OwnSeen,
}

impl Model for Home {
    ghost use Rattle.xf_types.specs.Standing.{Standing, OneState};

    ghost Value = { Standing };

    ghost view = { λ h. OneState h.state h.time h.own };
}

/// How many seats there are, how many slots of policies and of states, and the image words and the values at the start.
pub struct Start {
    pub seats: u64,
    pub policies: u64,
    pub states: u64,
    pub words: LinkedList<u64>,
    /// What the value at each slot stands for: the policies' slots come first.
    pub homes: LinkedList<Home>,
}

/// Where it comes from, and what it took in of others.
pub struct LifeView {
    pub start: Start,
    /// The number of the next seat that is split off, or 0.
    pub next: u64,
    /// The receipts of the workers from 1 on that were taken in.
    pub gathered: LinkedList<LinkedList<Receipt>>,
}

/// What a seat knows.
pub struct View {
    /// False of a seat that was taken in by another.
    pub here: bool,
    /// The seat's number, which is the worker of its receipts.
    pub worker: u64,
    pub hand: Hand,
    pub knows: Knowledge,
    pub image: ImageView,
    pub pins: PinView,
    pub own: OwnView,
    pub life: LifeView,
}
