//! Kinds of calls and replies, as a legal history tells them apart.
ghost use Rattle.std.specs.Prelude.{◌≡◌};
ghost use Rattle.xf_types.specs.Codes.{is_refusal_of};
ghost use Rattle.xf_types.specs.History as history;
ghost use Rattle.xf_types.specs.Moves as moves;

use crate::{Call, Reply};

impl Reply {
    /// Whether the reply refuses its call.
    pub fn is_refusal(&self) -> bool
        ensures { result ≡ is_refusal_of self.now }
    {
        matches!(
            self,
            Reply::PolicyExists(_)
                | Reply::StateExists(_)
                | Reply::NoEntry
                | Reply::NoState
                | Reply::Invalid
                | Reply::Full { .. }
                | Reply::NoSpi
                | Reply::NoMemory
        )
    }

    /// Whether the reply changes what later lookups may find.
    pub fn is_moving(&self) -> bool
        ensures { result ≡ moves.is_moving self.now }
    {
        match self {
            Reply::Done
            | Reply::DoneIndex(_)
            | Reply::DoneSid(_)
            | Reply::DoneSpi { .. }
            | Reply::Acquire(_)
            | Reply::Expired
            | Reply::Ticked { .. } => true,
            Reply::Removed(count) => *count > 0,
            Reply::Accepted { soft, .. }
            | Reply::BadIcv { soft }
            | Reply::Sent { soft, .. }
            | Reply::Overflow { soft } => *soft,
            _ => false,
        }
    }

    /// Whether the reply is none of the machine's: a call that was given up, slots that are held back, or want of memory.
    pub fn is_exception(&self) -> bool
        ensures { result ≡ history.is_exception self.now }
    {
        match self {
            Reply::NoMemory | Reply::Again(_) => true,
            Reply::Full { waiting, .. } => *waiting > 0,
            _ => false,
        }
    }
}

impl Call {
    /// Whether the call may be given up after reads that were overtaken.
    pub fn may_be_again(&self) -> bool
        ensures { result ≡ history.may_be_again self.now }
    {
        matches!(self, Call::Flow(_) | Call::Packet(_) | Call::StateGet(_))
    }

    /// Whether the call adds to the list of policies.
    pub fn adds_policy(&self) -> bool
        ensures { result ≡ history.adds_policy self.now }
    {
        matches!(self, Call::PolicyAdd(_) | Call::PolicyUpdate(_))
    }
}
