//! The list of states of the plain machine: each state with its own part.
#![tactic(auto)]

mod counter;
mod events;
mod parts;
mod spis;
mod table;

pub use counter::next_seq;
pub use events::push_some;
pub use table::StateTable;
