//! From fields to the identity of a state.
ghost use Rattle.std.specs.Prelude.{◌≡◌};
ghost use Rattle.xf_read.specs.Identity as rule;

use crate::selector::source_or_zero;
use xf_grammar::{Fields, Slot, addr_at, ipsec_in, u32_at};
use xf_types::{Addr, Proto, Reason};

/// What identifies a state: a source that is left out is the zero address of the destination's family.
#[derive(Clone, Copy, Debug)]
pub(crate) struct Identity {
    pub src: Addr,
    pub dst: Addr,
    pub proto: Proto,
    pub spi: u32,
}

/// The identity that a line gives.
#[tactic(auto, unfolding(crate::specs::Identity::identity_of))]
pub(crate) fn read_identity(fields: &Fields) -> Result<Identity, Reason>
    ensures { result ≡ rule.identity_of fields.now }
{
    let dst = addr_at(fields, Slot::Dst).ok_or(Reason::Missing)?;
    let proto = ipsec_in(fields).ok_or(Reason::Missing)?;
    let spi = u32_at(fields, Slot::Spi).ok_or(Reason::Missing)?;
    Ok(Identity {
        src: source_or_zero(addr_at(fields, Slot::Src), &dst),
        dst,
        proto,
        spi,
    })
}
