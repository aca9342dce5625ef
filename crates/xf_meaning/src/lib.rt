//! What the words of the databases mean for a table that threads share: a status for each slot, the words of the lists, the time, and ids that
//! count changes.
#![tactic(auto)]

mod laws;
mod place;

pub use laws::{calls, opening, places, slots, standing};
pub use place::layout_of;
