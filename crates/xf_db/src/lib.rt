//! The shared database: opened over an image, with a pass for each caller, and closed to one history and the image behind it.
#![tactic(auto)]

mod closing;
mod database;
mod opening;
mod pass;
mod policies;
mod rows;
#[cfg(test)]
mod tests;

pub use closing::{Closed, NotClosed};
pub use database::{Worn, Xfrm};
pub use opening::Returned;
pub use pass::Pass;
