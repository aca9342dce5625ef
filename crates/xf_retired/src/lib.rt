//! That no more slots are retired than records were removed, and when a list may be called full while slots wait. No code calls this crate.
#![tactic(auto)]

mod laws;
mod pools;

pub use laws::{
    draw_keeps_retired, full_with_waiting, load_generation_keeps_retired, retired_begin,
};
pub use pools::Pools;
