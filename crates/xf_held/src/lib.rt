//! One state with what it keeps for itself: what names it, what its limits say, and what a packet or an output does to it.
#![tactic(auto)]

mod aging;
mod foresight;
mod held;
mod larval;
mod laws;
mod naming;
mod output;
mod parts;
mod traffic;

pub use held::Held;
pub use laws::windows_agree;
pub use naming::{
    admits, has_id, has_mark, id_of, id_of_packet, is_larval_of, is_that, meets_proto,
};
pub use traffic::Treatment;
