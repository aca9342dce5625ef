//! What always holds of the protocol beside the turn: its parts, and that each step keeps them. No code calls this crate.
#![tactic(auto)]

mod image_laws;
mod means;
mod pin_laws;

pub use image_laws::{
    begin_keeps_image, draw_keeps_image, finish_keeps_image, give_turn_keeps_image, image_begins,
    image_says, leave_keeps_image, load_generation_keeps_image, load_pin_keeps_image,
    load_word_keeps_image, pin_keeps_image, serving_keeps_image, store_keeps_image,
    take_turn_keeps_image, ticket_keeps_image, unpin_keeps_image,
};
pub use means::Means;
pub use pin_laws::{
    begin_keeps_pins, draw_keeps_pins, finish_keeps_pins, give_turn_keeps_pins, leave_keeps_pins,
    load_generation_keeps_pins, load_pin_keeps_pins, load_word_keeps_pins, pin_keeps_pins,
    pins_begin, pins_say, serving_keeps_pins, store_keeps_pins, take_turn_keeps_pins,
    ticket_keeps_pins, unpin_keeps_pins,
};
