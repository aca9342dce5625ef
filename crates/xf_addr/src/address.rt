//! Addresses.
ghost use Rattle.std.specs.Prelude.{◌≡◌, ◌++◌, OnOk, OnErr, IfOk, string_bytes};
ghost use Rattle.std.specs.Result.{result_ok};
ghost use Rattle.std.specs.Net.Grammar.{Parses};
ghost use Rattle.xf_addr.specs.Spelling.{Spells};
ghost use Rattle.xf_addr.specs.Reading.{addr_of};
ghost use Rattle.xf_addr.specs.Text.{addr_text};

use crate::bits::{join_groups, join_octets, split_groups, split_octets};
use std::alloc::{AllocError, Global};
use std::net::{IpAddr, Ipv4Addr, Ipv6Addr};
use xf_types::{Addr, NoMemory};

// The bytes of the longest text of a prefix: one allocation is enough.
const V4_ROOM: usize = 18;

const V6_ROOM: usize = 43;

/// The text spells no address, or no prefix.
#[derive(Clone, Copy, PartialEq, Eq, Debug)]
pub struct BadAddr;

/// The address that the whole text spells (RFC 4291, 2.2). A zone is no spelling, nor is `any`.
pub fn read_addr(text: &[u8]) -> Result<Addr, BadAddr>
    // The text spells what is read, or spells nothing.
    ensures spelled { Parses Spells text.now result }
    ensures value { result_ok result ≡ addr_of text.now }
{
    match IpAddr::parse_ascii(text) {
        Ok(IpAddr::V4(ip)) => Ok(Addr::V4(join_octets(ip.octets()))),
        Ok(IpAddr::V6(ip)) => Ok(Addr::V6(join_groups(ip.segments()))),
        Err(_) => Err(BadAddr),
    }
}

/// Appends the written form of the address (RFC 5952, 4), at most 39 bytes.
pub fn write_addr(out: &mut Vec<u8>, addr: &Addr) -> Result<(), NoMemory>
    ensures text { OnOk result (out.new.items ≡ out.old.items ++ addr_text addr.now) }
    ensures memory { OnErr result (out.new.items ≡ out.old.items) }
    // What is written is read as the same address.
    ensures again { addr_of (addr_text addr.now) ≡ Some addr.now }
{
    match addr_string(*out.allocator(), *addr) {
        Ok(text) => append(out, text.as_bytes()),
        Err(_) => Err(NoMemory),
    }
}

// The text is made aside, so that the list stays as it was where memory is refused in the middle.
#[tactic(auto, using(crate::proofs::Writings::addr_is_read))]
pub(crate) fn addr_string(alloc: Global, addr: Addr) -> Result<String, AllocError>
    ensures text { IfOk result (λ text. string_bytes text ≡ addr_text addr) }
    ensures again { addr_of (addr_text addr) ≡ Some addr }
{
    match addr {
        Addr::V4(number) => {
            let ip = Ipv4Addr::from_octets(split_octets(number));
            let mut text = String::with_capacity(alloc, V4_ROOM)?;
            write!(text, "{ip}")?;
            Ok(text)
        }
        Addr::V6(number) => {
            // `Ipv6Addr` itself would end some addresses in an IPv4 address (RFC 5952, 5).
            let groups = Ipv6Addr::from_segments(split_groups(number)).hex_groups();
            let mut text = String::with_capacity(alloc, V6_ROOM)?;
            write!(text, "{groups}")?;
            Ok(text)
        }
    }
}

pub(crate) fn append(out: &mut Vec<u8>, text: &[u8]) -> Result<(), NoMemory>
    ensures ok { OnOk result (out.new.items ≡ out.old.items ++ text.now) }
    ensures err { OnErr result (out.new.items ≡ out.old.items) }
{
    match out.extend_from_slice(text) {
        Ok(()) => Ok(()),
        Err(_) => Err(NoMemory),
    }
}
