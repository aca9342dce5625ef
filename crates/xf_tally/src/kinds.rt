//! Kinds of replies.
ghost use Rattle.std.specs.Prelude.{◌≡◌, ◌≤◌, ◌^◌, ◌*◌};
ghost use Rattle.xf_tally.specs.Summary as rule;

use xf_types::Reply;

pub(crate) fn has_policy(reply: &Reply) -> bool
    ensures { result ≡ rule.has_policy reply.now }
{
    matches!(reply, Reply::FlowBlock(_) | Reply::FlowAllow { .. })
}

pub(crate) fn has_none(reply: &Reply) -> bool
    ensures { result ≡ rule.has_none reply.now }
{
    matches!(reply, Reply::FlowNone)
}

pub(crate) fn is_sent(reply: &Reply) -> bool
    ensures { result ≡ rule.is_sent reply.now }
{
    matches!(reply, Reply::Sent { .. })
}

pub(crate) fn is_accepted(reply: &Reply) -> bool
    ensures { result ≡ rule.is_accepted reply.now }
{
    matches!(reply, Reply::Accepted { .. })
}

pub(crate) fn is_dropped(reply: &Reply) -> bool
    ensures { result ≡ rule.is_dropped reply.now }
{
    matches!(
        reply,
        Reply::Zero
            | Reply::Old { .. }
            | Reply::Seen { .. }
            | Reply::Expired
            | Reply::Larval
            | Reply::BadIcv { .. }
    )
}

/// The line times the number that was sent, 0 where none was.
pub(crate) fn mix_of(line: u64, reply: &Reply) -> u128
    requires { line ≤ 2 ^ 20 }
    ensures mix { result ≡ rule.mix_of line reply.now }
    ensures small { result ≤ 2 ^ 84 }
{
    match reply {
        Reply::Sent { seq, .. } => u128::from(line) * u128::from(*seq),
        _ => 0,
    }
}
