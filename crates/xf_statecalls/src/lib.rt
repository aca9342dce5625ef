//! The calls on states over words and values: each answers what the machine answers, and leaves words and values that stand for the machine after it.
#![tactic(auto)]

mod adding;
mod allocating;
mod choice;
mod counting;
mod deleting;
mod finding;
mod getting;
mod here;
mod laws;
mod leaving;
mod listing;
mod refreshing;
mod removing;
mod replying;
mod sweeping;
mod updating;
mod values;
mod windows;

pub use adding::{state_add, state_add_at, state_add_ready};
pub use allocating::alloc_spi;
pub use counting::state_count;
pub use deleting::{state_delete, state_delete_ready};
pub use finding::{state_found, state_replaced};
pub use getting::state_get;
pub use laws::conditions;
pub use leaving::{state_deleteall, state_flush};
pub use listing::state_list;
pub use refreshing::state_refresh_ready;
pub use updating::{state_update, state_update_at, state_update_ready};
pub use windows::window_for;
