//! Chains of slots, and columns, in words.
#![tactic(auto)]

mod before;
mod chain;
mod column;
mod family;
mod laws;
#[cfg(test)]
mod tests;
mod walk;

pub use chain::Chain;
pub use column::Column;
pub use family::Family;
pub use laws::{families, law};
pub use walk::Walk;
