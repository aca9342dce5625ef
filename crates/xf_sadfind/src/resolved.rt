//! What templates come to.

use arrayvec::ArrayVec;
use xf_types::Addr;

/// Where the templates of a policy lead a flow.
#[derive(PartialEq, Eq, Debug, Drop)]
pub enum Resolved {
    /// The flow goes through the states in these slots, in order.
    Path { slots: ArrayVec<u32, 6> },
    /// A larval state is waited for, which has this sequence number.
    Waiting { seq: u32 },
    /// The place, from 0, of the first required template without a state, and the addresses at which it is used.
    Wanting { template: u32, src: Addr, dst: Addr },
}
