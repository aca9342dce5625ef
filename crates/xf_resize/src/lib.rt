//! How many heads the chains of states have: they are doubled one old head after another, as states come.
#![tactic(auto)]

mod resize;
mod room;
mod splitting;

pub use resize::Resize;
