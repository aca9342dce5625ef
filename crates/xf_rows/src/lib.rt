//! What words and values stand for together: listed states, each with its slot, its record and its own part, beside the policies, the
//! counters and the time; and what each change makes of it.
#![tactic(auto)]

mod laws;
mod layout;

pub use laws::{in_place, lookups, replies, rows, shown, time, traffic};
pub use layout::Layout;
