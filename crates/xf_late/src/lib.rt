//! What a receipt does to the own parts of states, and what one does that comes to stand late. No code calls this crate.
#![tactic(auto)]

mod laws;

pub use laws::{late_receipts, receipts};
