//! An input cut into logical lines, and a logical line into its words.
#![tactic(auto)]

mod fault;
mod lexer;
mod plain;
mod quoting;
mod scan;
mod split;
mod words;

pub use fault::LineFault;
pub use lexer::Lexer;
pub use plain::plain_front;
pub use quoting::Quoting;
pub use scan::Scan;
pub use split::{count_physical, split_line};
pub use words::Words;

#[cfg(test)]
mod tests;
