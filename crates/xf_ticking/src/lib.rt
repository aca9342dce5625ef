//! The passing of time over words and values: what the tick reports, and the words and values at the later time.
#![tactic(auto)]

mod clock;
mod cursor;
mod due;
mod entering;
mod passing;
mod policies;
mod reports;
mod settling;
mod slots;
mod states;
mod telling;
mod ticking;
mod walking;

pub use entering::enter_all;
pub use slots::AllParts;
pub use telling::{state_event_count, state_events};
pub use ticking::tick;
pub use walking::states_later;
