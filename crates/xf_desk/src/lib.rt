//! The desk of a call under the turn of the database: words, values and pools made of a table that threads share and of a pass.
#![tactic(auto)]

mod asking;
mod desk;
mod holding;
mod laws;
mod lent;
mod pools;

pub use asking::{policy_pool, state_pool};
pub use desk::Desk;
pub use holding::hold_slot;
pub use laws::{marks, turns};
pub use lent::{From, lend};
pub use pools::{LISTED, free_slot, full_pool};
