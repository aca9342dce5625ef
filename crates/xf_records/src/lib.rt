//! Policies and states as records in words: put at a place, and got from it.
#![tactic(auto)]

mod addresses;
mod block;
mod kinds;
mod numbers;
mod parts;
mod policy;
mod policy_fields;
mod state;
mod state_fields;
mod templates;
#[cfg(test)]
mod tests;

pub use addresses::{addr_in, family_word, high_word, low_word};
pub use block::{load_all, store_all};
pub use kinds::{dir_word, mode_in, proto_in, proto_word, ptype_word};
pub use numbers::{byte_in, byte_word, flag_in, port_in, port_word, small_in, small_word};
pub use parts::prefix_in;
pub use policy::{POLICY_WORDS, get_policy, put_policy, put_soft};
pub use state::{STATE_WORDS, get_state, put_dying, put_state};
