//! From fields to packets.
ghost use Rattle.std.specs.Prelude.{◌≡◌};
ghost use Rattle.xf_types.specs.Facts.{IsPacket};
ghost use Rattle.xf_read.specs.Packets as rule;

use crate::identity::{Identity, read_identity};
use crate::selector::judge_family;
use crate::state::sequence_number;
use xf_grammar::{Fields, Slot, icv_in, u32_at, u64_at};
use xf_types::{Packet, Reason};

/// A packet with this number, sent to this state.
fn packet_with(identity: Identity, seq: u64, fields: &Fields) -> Packet
    ensures { result ≡ rule.packet_with identity seq fields.now }
{
    Packet {
        src: identity.src,
        dst: identity.dst,
        proto: identity.proto,
        spi: identity.spi,
        seq: sequence_number(seq),
        len: u32_at(fields, Slot::Len).unwrap_or(0),
        mark: u32_at(fields, Slot::Mark).unwrap_or(0),
        icv_ok: icv_in(fields).unwrap_or(true),
    }
}

/// The packet that a line brings.
#[tactic(auto, unfolding(crate::specs::Packets::packet_of))]
pub(crate) fn read_packet(fields: &Fields) -> Result<Packet, Reason>
    ensures { result ≡ rule.packet_of fields.now }
{
    let identity = read_identity(fields)?;
    let seq = u64_at(fields, Slot::Seq).ok_or(Reason::Missing)?;
    judge_family(&identity.src, &identity.dst)?;
    Ok(packet_with(identity, seq, fields))
}
