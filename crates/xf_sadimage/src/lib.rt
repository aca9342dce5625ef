//! What the words of the states represent: when they stand for a state list, and what each change of the list makes of them.
#![tactic(auto)]

mod laws;

pub use laws::states;
