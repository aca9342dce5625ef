//! States listed in words: what the words tell of the list, and how a state comes, leaves, and gets another record.
#![tactic(auto)]

mod coming;
mod header;
mod leaving;
mod linking;
mod listing;
mod order;
mod rewriting;

pub use listing::StateListing;
