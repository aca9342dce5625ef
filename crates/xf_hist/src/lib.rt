//! Histories: the receipts of several workers as one list, and whether a list is the history of a machine.
#![tactic(auto)]

mod again;
mod full;
mod legal;
mod merging;
mod moment;
mod order;
#[cfg(test)]
mod tests;

pub use legal::is_legal;
pub use merging::merge;
