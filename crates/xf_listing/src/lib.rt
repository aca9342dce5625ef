//! Policies listed in words: what the words tell of the list, where a policy goes and stands, and how one comes and leaves.
#![tactic(auto)]

mod choosing;
mod coming;
mod entry;
mod header;
mod index;
mod layout;
mod listing;
mod moving;
mod naming;
mod nth;
mod order;
mod places;
mod setting;
mod soft;
mod trees;
mod writes;

pub use entry::{Choice, Entry};
pub use listing::Listing;
