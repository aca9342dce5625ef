//! The policies that aren't found by exact match: a flow meets those alone whose prefixes hold its addresses, by walks down trees of
//! prefixes.
//!
//! ```text
//! 64 buckets     a tree of bins             below a bin, a tree            below a destination,     at a source, a chain
//! by hash        (ptype, family,            of destinations                a tree of sources        of policies
//!                direction, interface)
//!
//! bucket ------> main 4 out 0 ------------> 10.0.0.0/8 ------------------> 0.0.0.0/0 -------------> policy -> policy
//!                                              \
//!                                               10.64.0.0/10 -------------> 192.168.0.0/16 --------> policy
//! ```
//!
//! All trees have their nodes in one pool. A bin is a prefix of full length, so the three levels are one structure.
#![tactic(auto)]

mod clear;
mod first;
mod grow;
mod inexact;
mod insert;
mod keys;
mod laws;
mod remove;

pub use inexact::Inexact;
pub use laws::{bins, bounds, changes, firsts, holds, places};
