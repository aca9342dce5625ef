//! The policies that are found by exact match: the first that applies to a flow, and how one comes in and goes. Also what each part of
//! a list needs: the first of a chain, and where a policy goes in one.
#![tactic(auto)]

mod changing;
mod exact;
mod finding;
mod firsts;
mod hit;
mod keys;
mod laws;
mod ordering;
mod placing;
mod query;
#[cfg(test)]
mod tests;
mod thresholds;

pub use exact::Exact;
pub use finding::found;
pub use firsts::first_on;
pub use hit::{Hit, better, hit_at};
pub use laws::{hits, parts, walks};
pub use ordering::place_in_order;
pub use placing::{before_in, place_in};
pub use query::Query;
