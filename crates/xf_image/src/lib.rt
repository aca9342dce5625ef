//! What the words of the policies represent: where they lie, when they stand for a policy list, and what each change of the list
//! writes.
#![tactic(auto)]

mod area;
mod exact_keys;
mod laws;
mod places;

pub use area::PolicyArea;
pub use exact_keys::exact_law;
pub use laws::{changes, frames, layout, set_walk, slots};
pub use places::Places;
