//! How the templates of a policy resolve a flow to a path of states.
#![tactic(auto)]

mod best;
mod resolved;
mod stage;
mod suits;
#[cfg(test)]
mod tests;
mod walk;

pub use resolved::Resolved;
pub use walk::resolve;
