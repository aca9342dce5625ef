//! The types of the two databases, and the definitions that every contract above cites.
#![tactic(auto)]

mod call;
mod copies;
mod kinds;
mod network;
mod policy;
mod refresh;
mod same;
mod stands;
mod state;
mod status;

pub use call::{Call, Event, Events, Hop, Packet, Path, Place, Receipt, Reply};
pub use network::{Addr, Dir, Flow, Mark, Prefix, Proto, Ptype, Selector};
pub use policy::{
    Action, Level, Limits, Mode, Policies, Policy, PolicyFilter, PolicyKey, PolicySpec, Template,
    Templates, Thresholds,
};
pub use same::{
    meets_ptype, same_addr, same_mark, same_policy, same_port, same_prefix, same_reply,
    same_selector,
};
pub use stands::Stands;
pub use state::{AllocSpec, Sa, SaFilter, SaId, SaSpec, Sas};
pub use status::{NoMemory, Reason, Status};
