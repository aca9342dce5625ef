//! Worked rows of the definitions, and a test of the types' copies. Nothing stands on this crate.
#![tactic(auto)]

mod rows;

pub use rows::{
    batch_rows, change_rows, flow_rows, history_rows, index_rows, limit_rows, own_rows,
    policy_filter_rows, policy_rows, refused_batch_rows, refused_history_rows, state_filter_rows,
    state_rows, threshold_rows, window_rows,
};

#[cfg(test)]
mod tests;
