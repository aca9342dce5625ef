//! Chains by hash, whose heads are doubled one head after another.
#![tactic(auto)]

mod chains;
mod doubling;
mod keys;
mod laws;
mod turn;

pub use chains::split;
pub use doubling::{Doubling, doubling_at};
pub use keys::Keys;
pub use laws::doublings;
