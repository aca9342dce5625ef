//! The three words of an address, and what they give. Hashes of addresses are taken of the same words.
ghost use Rattle.std.specs.Prelude.{◌≡◌};
ghost use Rattle.xf_types.specs.Address as address;
ghost use Rattle.xf_records.specs.Codes as code;

use crate::numbers::small_in;
use xf_types::Addr;

/// The first word: 4 or 6.
pub fn family_word(addr: &Addr) -> u64
    ensures word { result ≡ address.family_of addr.now }
{
    match addr {
        Addr::V4(_) => 4,
        Addr::V6(_) => 6,
    }
}

/// The second word: the high 64 bits.
pub fn high_word(addr: &Addr) -> u64
    ensures word { result ≡ code.high_word addr.now }
{
    match addr {
        Addr::V4(_) => 0,
        Addr::V6(number) => (*number >> 64) as u64,
    }
}

/// The third word: the low 64 bits.
pub fn low_word(addr: &Addr) -> u64
    ensures word { result ≡ code.low_word addr.now }
    ensures fits { code.AddrFits addr.now }
{
    match addr {
        Addr::V4(number) => u64::from(*number),
        Addr::V6(number) => (*number % 0x1_0000_0000_0000_0000) as u64,
    }
}

/// The address that three words give.
pub fn addr_in(family: u64, high: u64, low: u64) -> Addr
    ensures { result ≡ code.addr_in family high low }
{
    if family == 4 {
        Addr::V4(small_in(low))
    } else {
        Addr::V6(u128::from(high) * 0x1_0000_0000_0000_0000 + u128::from(low))
    }
}
