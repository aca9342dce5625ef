//! The calls on policies of the machine, over words: each as a function that answers the machine's reply.
#![tactic(auto)]

mod adding;
mod counting;
mod cursor;
mod deleting;
mod getting;
mod leaving;
mod listing;
mod replying;
mod setting;
mod slots;
mod sweep;
mod sweeping;
mod ticking;
mod times;
mod walking;

pub use adding::{policy_add, policy_update};
pub use counting::policy_count;
pub use deleting::policy_delete;
pub use getting::policy_get;
pub use leaving::{policy_deleteall, policy_flush};
pub use listing::policy_list;
pub use setting::policy_set;
pub use slots::PolicySlots;
pub use ticking::{policies_later, policy_event_count, policy_events};
