//! What templates come to.

use xf_types::{Addr, Path, Template};

/// Where the templates of a policy lead a flow.
#[derive(PartialEq, Eq, Debug, Drop)]
pub enum Resolved {
    /// The flow goes through these states.
    Through(Path),
    /// A larval state is waited for, which has this sequence number.
    Waits(u32),
    /// The first required template without a state, its place from 0, and the addresses at which it is used.
    Wants {
        template: Template,
        place: u32,
        src: Addr,
        dst: Addr,
    },
}
