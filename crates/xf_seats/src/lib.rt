//! Seats of one table: what words mean for every number of slots, how seats are split off and taken in again, and what that leaves of
//! what always holds. No code calls this crate.
#![tactic(auto)]

mod ends;
mod held;
mod laws;
mod meaning;
mod parts;

pub use ends::{end_has_all, merged_is_history, parts_are_all, parts_are_apart};
pub use held::{
    alone_all_free, draws_hold, give_keeps_held, join_keeps_held, one_seat_held, others_keep_held,
    split_keeps_held, take_keeps_held,
};
pub use laws::{
    draw_keeps_life, join_keeps_life, join_keeps_turn, numbers_are_small, one_seat_life,
    one_seat_turn, quiet_keeps_life, settle_keeps_life, split_keeps_life, split_keeps_turn,
};
pub use meaning::Meaning;
pub use parts::{
    join_keeps_again, join_keeps_image, join_keeps_own, join_keeps_pins, join_keeps_stale,
    one_seat_image, one_seat_own, split_keeps_again, split_keeps_image, split_keeps_own,
    split_keeps_pins, split_keeps_stale,
};
