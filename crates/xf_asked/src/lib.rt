//! What a walk asks of the records that it passes: tests that load only the words that they name.
#![tactic(auto)]

mod fields;
mod laws;
mod policies;
mod selectors;
mod states;
#[cfg(test)]
mod tests;
mod words;

pub use fields::{added_at, dying_at, larval_at, number_at, priority_at, sid_at};
pub use laws::asked_laws;
pub use policies::{applies_at, has_index_at, is_under_at};
pub use states::{has_id_at, suits_at};
