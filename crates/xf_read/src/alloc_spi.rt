//! From fields to requests for a fresh SPI.
ghost use Rattle.std.specs.Prelude.{◌≡◌};
ghost use Rattle.xf_read.specs.Allocs as rule;

use crate::mark::mark_of;
use crate::selector::{judge_family, source_or_zero};
use xf_grammar::{Fields, Slot, addr_at, ipsec_in, mode_in, u32_at};
use xf_types::{Addr, AllocSpec, Mode, Proto, Reason};

// The SPIs below are reserved (RFC 4303, 2.1).
const LEAST_SPI: u32 = 0x100;

/// The greatest SPI where none is named: an IPComp state is named by 16 bits (RFC 3173, 3.3).
fn greatest_spi(proto: Proto) -> u32
    ensures { result ≡ rule.greatest_spi proto }
{
    match proto {
        Proto::Esp | Proto::Ah => 0x0fff_ffff,
        Proto::Comp => 0xffff,
    }
}

/// A request between these addresses.
fn alloc_with(src: Addr, dst: Addr, proto: Proto, fields: &Fields) -> AllocSpec
    ensures { result ≡ rule.alloc_with src dst proto fields.now }
{
    AllocSpec {
        src,
        dst,
        proto,
        mode: mode_in(fields).unwrap_or(Mode::Transport),
        mark: mark_of(fields),
        reqid: u32_at(fields, Slot::Reqid).unwrap_or(0),
        seq: u32_at(fields, Slot::Seq).unwrap_or(0),
        min: u32_at(fields, Slot::Min).unwrap_or(LEAST_SPI),
        max: u32_at(fields, Slot::Max).unwrap_or(greatest_spi(proto)),
    }
}

/// The request that a line makes.
#[tactic(auto, unfolding(crate::specs::Allocs::alloc_of))]
pub(crate) fn read_alloc(fields: &Fields) -> Result<AllocSpec, Reason>
    ensures { result ≡ rule.alloc_of fields.now }
{
    let dst = addr_at(fields, Slot::Dst).ok_or(Reason::Missing)?;
    let proto = ipsec_in(fields).ok_or(Reason::Missing)?;
    let src = source_or_zero(addr_at(fields, Slot::Src), &dst);
    judge_family(&src, &dst)?;
    Ok(alloc_with(src, dst, proto, fields))
}
