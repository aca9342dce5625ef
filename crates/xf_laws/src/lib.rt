//! Laws of the machine: what follows from the rules alone. No code calls this crate; proofs cite its lemmas.
#![tactic(auto)]

mod laws;

pub use laws::{
    acceptances, change_ids, changes, equalities, first_policies, free_numbers, later, leaves,
    listed_anew, lookups, machines, moves, one_state, own_parts, reads, removals, shown_answers,
    spent_numbers, steps, tests, traffic, updates,
};
