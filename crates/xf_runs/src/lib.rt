//! What whole lists of legal steps lead to, whoever makes them in which order. No code calls this crate.
#![tactic(auto)]

mod laws;

pub use laws::{legal_runs, no_reuse, parts_stay, turns_stay};
