//! Trees of prefixes in words: a tree finds the prefixes that hold an address by a walk down, which takes as many turns as prefixes
//! nest, and not as many as there are.
//!
//! ```text
//! a node, eight words from its place on      the tree of 10.0.0.0/8, 10.64.0.0/10, 10.96.0.0/11 and 11.0.0.0/8
//!
//! 0  the first 64 bits of its key                            10.0.0.0/7   a branch, with two children
//! 1  the last 64 bits                                       0 /      \ 1
//! 2  the length of its prefix                         10.0.0.0/8   11.0.0.0/8
//! 3  1 where the prefix was inserted                     0 /
//! 4  the child where the bit after it is 0         10.64.0.0/10
//! 5  the child where that bit is 1                          \ 1
//! 6  the next free node                                10.96.0.0/11
//! 7  not used
//! ```
#![tactic(auto)]

mod free;
mod insert;
mod keys;
mod laws;
mod lookup;
mod put;
mod remove;
mod room;
#[cfg(test)]
mod tests;
mod tidy;
mod trie;
mod walk;
mod way;
mod write;

pub use keys::key_of;
pub use laws::{addresses, empty, finds, forests, sizes, spares};
pub use trie::{Node, Trie};
