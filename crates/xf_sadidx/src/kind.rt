//! The kinds of chains, and the hashes by which states stand in them.
ghost use Rattle.std.specs.Prelude.{◌≡◌, Some};
ghost use Rattle.xf_sadidx.specs.Keys as keys;

use xf_cells::hash;
use xf_records::{family_word, high_word, low_word, proto_word};
use xf_types::{Addr, Proto, Sa};

/// A kind of chains: by SPI, with destination and protocol; by destination and request id; by sequence number.
#[derive(Clone, Copy, Debug, PartialEq, Eq)]
pub enum Kind {
    Spi,
    Route,
    Seq,
}

/// The hash of what names a state, but the mark.
pub fn spi_hash(dst: &Addr, spi: u32, proto: Proto) -> u64
    ensures { result ≡ keys.spi_hash dst.now spi proto }
{
    hash(&[
        family_word(dst),
        high_word(dst),
        low_word(dst),
        u64::from(spi),
        proto_word(proto),
    ])
}

/// The hash of a destination and a request id.
pub fn route_hash(dst: &Addr, reqid: u32) -> u64
    ensures { result ≡ keys.route_hash dst.now reqid }
{
    hash(&[
        family_word(dst),
        high_word(dst),
        low_word(dst),
        u64::from(reqid),
    ])
}

/// The hash of a sequence number, where it isn't 0.
pub fn seq_hash(seq: u64) -> Option<u64>
    ensures { result ≡ keys.seq_key seq }
{
    if seq == 0 { None } else { Some(hash(&[seq])) }
}

impl Kind {
    /// The hash of a state, where it has one.
    pub fn key(&self, s: &Sa) -> Option<u64>
        ensures { result ≡ keys.key_of self.now s.now }
    {
        match self {
            Kind::Spi => Some(spi_hash(&s.spec.dst, s.spec.spi, s.spec.proto)),
            Kind::Route => Some(route_hash(&s.spec.dst, s.spec.reqid)),
            Kind::Seq => seq_hash(u64::from(s.spec.seq)),
        }
    }
}
