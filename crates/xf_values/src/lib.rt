//! A state's changing part as a table keeps it: what words of the databases and such values beside them mean.
#![tactic(auto)]

mod state_value;

pub use state_value::StateValue;
