//! What always holds of the protocol's slots' turns and of the own parts of states, and that each step keeps it. No code calls this crate.
#![tactic(auto)]

mod laws;
mod lists;

pub use laws::{
    begin_keeps_own, draw_keeps_own, finish_keeps_own, give_turn_keeps_own, leave_keeps_own,
    load_generation_keeps_own, load_pin_keeps_own, load_word_keeps_own, own_begins, own_says,
    pin_keeps_own, serving_keeps_own, store_keeps_own, take_turn_keeps_own, ticket_keeps_own,
    unpin_keeps_own, values_keep_own,
};
pub use lists::Lists;
