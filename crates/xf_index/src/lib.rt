//! Laws of indexes: what chains of slots are of a list of entries. No code calls this crate; proofs cite its lemmas.
#![tactic(auto)]

mod laws;

pub use laws::{
    changes, frame, last_first, lookups, next_slots, parting, standing, walks, whole_chain,
};
