//! The two databases at rest: an image, and how a table begins with one.
#![tactic(auto)]

mod image;
mod laws;
mod sizes;

pub use image::Image;
pub use laws::starts;
pub use sizes::Sizes;
