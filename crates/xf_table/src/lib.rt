//! The live table: one atomic table under the protocol, and a function for each of the protocol's steps on it.
#![tactic(auto)]

mod closing;
mod opening;
mod rule;
mod seats;
mod steps;
mod table;

pub use closing::close;
pub use opening::open;
pub use rule::{Key, Place, Said};
pub use seats::{split, take_in};
pub use steps::{
    begin, draw_moving, draw_still, finish, give_turn, leave, load, look_serving, store,
    take_ticket, take_turn, value_in, value_out,
};
pub use table::Table;
