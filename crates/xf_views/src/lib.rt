//! What a seat of the protocol knows, what each step makes of it, and the laws of the turn. No code calls this crate.
#![tactic(auto)]

mod entry;
mod hand;
mod laws;
mod view;

pub use entry::{Entry, Listed, OwnSeen};
pub use hand::Hand;
pub use laws::{
    begin_keeps_turn, draw_keeps_turn, finish_keeps_turn, give_turn_keeps_turn, leave_keeps_turn,
    load_generation_keeps_turn, load_pin_keeps_turn, load_word_keeps_turn, pin_keeps_turn,
    serving_keeps_turn, store_keeps_turn, take_turn_keeps_turn, ticket_keeps_turn, turn_begins,
    turn_says, unpin_keeps_turn,
};
pub use view::{Home, ImageView, Knowledge, LifeView, OwnView, PinView, SlotTurn, Start, View};
