//! That a state which a seat holds by its pin is listed at its own slot or nowhere, so that one whose slot lists it no more is gone. No code calls
//! this crate.
#![tactic(auto)]

mod laws;
mod shows;

pub use laws::{
    draw_keeps_stale, load_generation_keeps_stale, others_keep_stale, pin_keeps_stale,
    stale_begins, stale_says,
};
pub use shows::Shows;
