//! The calls of the two databases, each as a whole run of a pass under the turn of a table that threads share.
#![tactic(auto)]

mod changing;
mod reading;
mod settling;

pub use changing::{add, policy_add, policy_set, set};
pub use reading::{
    policy_count, policy_get, policy_list, read, state_count, state_get, state_list,
};
pub use settling::{settle_moving, settle_still};
