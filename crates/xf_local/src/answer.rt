//! What a value answers.
ghost use Rattle.std.specs.Prelude.{◌≡◌};
ghost use Rattle.xf_local.specs.Answering.{needs_turn};

use xf_types::Reply;

/// The answer to a packet.
#[derive(PartialEq, Debug, Drop)]
pub enum Inbound {
    /// The state isn't listed.
    Dead,
    /// The reply would end the state, or make it dying: only the owner of the database's turn may give it.
    NeedsTurn,
    Answer(Reply),
}

/// The answer to an output.
#[derive(PartialEq, Debug, Drop)]
pub enum Outbound {
    /// The state isn't listed.
    Dead,
    /// The reply would end the state, or make it dying: only the owner of the database's turn may give it.
    NeedsTurn,
    Answer(Reply),
}

/// Whether only the owner of the database's turn may give the reply.
pub(crate) fn needs_turn(reply: &Reply) -> bool
    ensures { result ≡ needs_turn reply.now }
{
    match reply {
        Reply::Expired => true,
        Reply::Accepted { soft, .. }
        | Reply::BadIcv { soft }
        | Reply::Sent { soft, .. }
        | Reply::Overflow { soft } => *soft,
        _ => false,
    }
}
