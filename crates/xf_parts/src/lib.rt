//! Words with a value for each slot of the states: what the calls of the machine are written over.
#![tactic(auto)]

mod aging;
mod memory;
mod parts;

pub use aging::age_all;
pub use memory::Memory;
pub use parts::Parts;
