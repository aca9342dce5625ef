//! What says which steps a seat may make.
use std::collections::LinkedList;

/// What a seat holds and has begun: by this alone, and by the words, the table says which steps it may make.
pub struct Hand {
    /// The ticket that is held.
    pub ticket: Option<u64>,
    /// Whether the turn of the database is held.
    pub has_turn: bool,
    /// Whether the seat made the generation odd.
    pub writing: bool,
    /// Whether it drew since.
    pub drawn: bool,
    /// The number of a draw that waits for the end of its read.
    pub trial: Option<u64>,
    /// The first value of the current read.
    pub began: Option<u64>,
    /// Whether the seat's last step began that read.
    pub just_began: bool,
    /// The seat's own pin word.
    pub pin: u64,
    /// The pin words loaded in this turn, each with its seat.
    pub loaded: LinkedList<(u64, u64)>,
    /// The slots retired in this turn, the last one first, each with the number of pin words loaded before.
    pub retired: LinkedList<(u64, u64)>,
    /// The slots whose turns are held.
    pub slots: LinkedList<u64>,
}
