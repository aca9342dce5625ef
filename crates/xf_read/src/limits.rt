//! From fields to limits.
ghost use Rattle.std.specs.Prelude.{◌≡◌};
ghost use Rattle.xf_read.specs.Limits as rule;

use xf_grammar::{Fields, Slot, u64_at};
use xf_types::Limits;

/// The limits that a line gives.
#[tactic(auto, unfolding(crate::specs::Limits::limits_of))]
pub(crate) fn limits_of(fields: &Fields) -> Limits
    ensures { result ≡ rule.limits_of fields.now }
{
    Limits {
        time_soft: u64_at(fields, Slot::TimeSoft).unwrap_or(0),
        time_hard: u64_at(fields, Slot::TimeHard).unwrap_or(0),
        use_soft: u64_at(fields, Slot::UseSoft).unwrap_or(0),
        use_hard: u64_at(fields, Slot::UseHard).unwrap_or(0),
        byte_soft: u64_at(fields, Slot::ByteSoft),
        byte_hard: u64_at(fields, Slot::ByteHard),
        packet_soft: u64_at(fields, Slot::PacketSoft),
        packet_hard: u64_at(fields, Slot::PacketHard),
    }
}
