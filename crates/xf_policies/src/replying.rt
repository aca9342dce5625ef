//! Results as replies.
ghost use Rattle.std.specs.Prelude.{◌≡◌};
ghost use Rattle.xf_spd.specs.Replies.{fault_reply, index_reply, policy_reply};

use xf_spd::SpdFault;
use xf_types::{Policy, Reply};

fn fault_reply(fault: SpdFault) -> Reply
    ensures { result ≡ fault_reply fault }
{
    match fault {
        SpdFault::Invalid => Reply::Invalid,
        SpdFault::Exists { index } => Reply::PolicyExists(index),
        SpdFault::NoEntry => Reply::NoEntry,
        SpdFault::Full { live, waiting } => Reply::Full { live, waiting },
    }
}

/// The reply of an index, or of why there is none.
pub(crate) fn index_reply(answer: Result<u32, SpdFault>) -> Reply
    ensures { result ≡ index_reply answer }
{
    match answer {
        Ok(index) => Reply::DoneIndex(index),
        Err(fault) => fault_reply(fault),
    }
}

/// The reply of a policy, or of why there is none.
pub(crate) fn policy_reply(answer: Result<Policy, SpdFault>) -> Reply
    ensures { result ≡ policy_reply answer }
{
    match answer {
        Ok(policy) => Reply::PolicyShown(policy),
        Err(fault) => fault_reply(fault),
    }
}
