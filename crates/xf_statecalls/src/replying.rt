//! What is found or refused, as a reply.
ghost use Rattle.std.specs.Prelude.{◌≡◌};
ghost use Rattle.xf_types.specs.StateRules.{state_shown};
ghost use Rattle.xf_sad.specs.Replies.{fault_reply};

use xf_sad::SadFault;
use xf_types::{Reply, Sa};

/// Why a call was refused.
pub(crate) fn fault_reply(fault: SadFault) -> Reply
    ensures { result ≡ fault_reply fault }
{
    match fault {
        SadFault::Invalid => Reply::Invalid,
        SadFault::Exists { sid } => Reply::StateExists(sid),
        SadFault::NoState => Reply::NoState,
        SadFault::NoSpi => Reply::NoSpi,
        SadFault::Full { live, waiting } => Reply::Full { live, waiting },
    }
}

/// A state, or that there is none.
pub(crate) fn state_reply(state: Option<Sa>) -> Reply
    ensures { result ≡ (state_shown state).reply }
{
    match state {
        None => Reply::NoState,
        Some(state) => Reply::StateShown(state),
    }
}
