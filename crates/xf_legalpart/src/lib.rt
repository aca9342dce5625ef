//! That the receipts of the protocol are a legal history, which each step keeps, and which receipts may stand where. No code calls this crate.
#![tactic(auto)]

mod again_laws;
mod laws;

pub use again_laws::{
    again_begins, begin_keeps_again, draw_keeps_again, finish_keeps_again, gives_up,
    load_generation_keeps_again, others_keep_again,
};
pub use laws::{draw_keeps_legal, honest_receipts, load_generation_keeps_legal};
