//! A live table: the words and values that threads share under the protocol, and the pass by which one of them makes its steps.
#![tactic(auto)]

mod closing;
mod draws;
mod front;
mod live;
mod making;
mod pass;
mod slots;
mod turn;

pub use closing::Closed;
pub use live::Live;
pub use making::NotMade;
pub use pass::Pass;
