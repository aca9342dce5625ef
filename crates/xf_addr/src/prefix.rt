//! Prefixes.
ghost use Rattle.std.specs.Prelude.{◌≡◌, ◌≤◌, ◌++◌, OnOk, OnErr, IfOk, string_bytes};
ghost use Rattle.std.specs.Result.{result_ok};
ghost use Rattle.std.specs.Net.Grammar.{Parses};
ghost use Rattle.xf_types.specs.Address.{width_of};
ghost use Rattle.xf_addr.specs.Prefixes.{SpellsPrefix, prefix_of, prefix_text};

use crate::address::{BadAddr, addr_string, append, read_addr};
use crate::number::{cut, read_number};
use std::alloc::{AllocError, Global};
use xf_types::{Addr, NoMemory, Prefix};

fn width(addr: &Addr) -> u8
    ensures value { result ≡ width_of addr.now }
    ensures most { result ≤ 128 }
{
    match addr {
        Addr::V4(_) => 32,
        Addr::V6(_) => 128,
    }
}

/// The prefix that the whole text spells (RFC 4291, 2.3). Without a length it has all bits of the address; bits past the
/// length are cleared.
pub fn read_prefix(text: &[u8]) -> Result<Prefix, BadAddr>
    // The text spells what is read, or spells nothing.
    ensures spelled { Parses SpellsPrefix text.now result }
    ensures value { result_ok result ≡ prefix_of text.now }
{
    match prefix(text) {
        Some(prefix) => Ok(prefix),
        None => Err(BadAddr),
    }
}

#[tactic(auto, unfolding(crate::specs::Prefixes::prefix_by))]
fn prefix(text: &[u8]) -> Option<Prefix>
    ensures { result ≡ prefix_of text.now }
{
    match cut(text, b'/') {
        None => {
            let addr = read_addr(text).ok()?;
            Some(Prefix::new(addr, width(&addr)))
        }
        Some((front, back)) => {
            let addr = read_addr(front).ok()?;
            let len = read_number(back, u64::from(width(&addr)))?;
            Some(Prefix::new(addr, len as u8))
        }
    }
}

/// Appends the written form of the prefix: its address, a slash and its length.
pub fn write_prefix(out: &mut Vec<u8>, prefix: &Prefix) -> Result<(), NoMemory>
    ensures text { OnOk result (out.new.items ≡ out.old.items ++ prefix_text prefix.now) }
    ensures memory { OnErr result (out.new.items ≡ out.old.items) }
    // What is written is read as the same prefix.
    ensures again { prefix_of (prefix_text prefix.now) ≡ Some prefix.now }
{
    match prefix_string(*out.allocator(), prefix) {
        Ok(text) => append(out, text.as_bytes()),
        Err(_) => Err(NoMemory),
    }
}

#[tactic(auto, using(crate::proofs::PrefixReadings::prefix_is_read))]
fn prefix_string(alloc: Global, prefix: &Prefix) -> Result<String, AllocError>
    ensures text { IfOk result (λ text. string_bytes text ≡ prefix_text prefix.now) }
    ensures again { prefix_of (prefix_text prefix.now) ≡ Some prefix.now }
{
    let mut text = addr_string(alloc, prefix.addr)?;
    let len = prefix.len;
    write!(text, "/{len}")?;
    Ok(text)
}
