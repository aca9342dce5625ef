//! The states in words, in three kinds of chains by hash: which state an id or a sequence number names, which is the best for a template, and
//! how one comes into its chains and leaves them.
#![tactic(auto)]

mod area;
mod best;
mod changing;
mod finding;
mod index;
mod keys;
mod kind;
mod laws;
mod query;

pub use area::StateArea;
pub use best::best_on;
pub use changing::doubling_in;
pub use finding::{latest, whole_chain};
pub use index::SadIndex;
pub use keys::StateKeys;
pub use kind::{Kind, route_hash, seq_hash, spi_hash};
pub use laws::lists;
pub use query::StateQuery;
