//! Receipts and bad lines as text.
#![tactic(auto)]

mod bad_line;
mod limits;
mod policy;
mod put;
mod receipt;
mod reply;
mod selector;
mod state;
mod words;

pub use bad_line::print_bad_line;
pub use receipt::{print_answer, print_receipt};

#[cfg(test)]
mod tests;
