//! One state's changing part, as threads hand it to each other: it answers packets and outputs by itself, and says where the
//! database's turn is needed.
#![tactic(auto)]

mod aging;
mod answer;
mod laws;
mod listed;
mod local;
#[cfg(test)]
mod tests;
mod traffic;

pub use answer::{Inbound, Outbound};
pub use laws::one_state;
pub use local::Local;
