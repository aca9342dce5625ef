//! Keys: the bits of addresses of both families, the first bit the greatest. An IPv4 address is the first 32 of 128 bits, so one width serves
//! for both; a tree whose prefixes are all of one family is asked by keys of that family.
ghost use Rattle.std.specs.Prelude.{◌≡◌, ℕ, ◌≤◌, ◌<◌};
ghost use Rattle.xf_trie.specs.Keys.{key_of as key_for};
ghost use Rattle.xf_trie.specs.Keys.{agrees as agrees_in, bit as bit_of, common as common_of};

use xf_types::Addr;

/// The address as a key.
pub fn key_of(addr: &Addr) -> u128
    ensures { result ≡ key_for addr.now }
{
    match *addr {
        Addr::V4(number) => u128::from(number) * 0x1_0000_0000_0000_0000_0000_0000,
        Addr::V6(number) => number,
    }
}

/// Whether two keys agree in their first `n` bits.
#[tactic(auto, unfolding(crate::specs::Keys::agrees))]
pub(crate) fn agrees(a: u128, b: u128, n: u8) -> bool
    requires { n ≤ 128 }
    ensures { result ≡ agrees_in a b n }
{
    n == 0 || a >> (128 - n) == b >> (128 - n)
}

/// The bit of a key after the first `n`.
#[tactic(auto, unfolding(crate::specs::Keys::bit))]
pub(crate) fn bit(key: u128, n: u8) -> bool
    ensures { result ≡ bit_of key n }
{
    let rest = 127u8.saturating_sub(n);
    (key >> rest) % 2 == 1
}

/// In how many first bits two keys agree, at most `n`.
pub(crate) fn common(a: u128, b: u128, n: u8) -> u8
    requires { n ≤ 128 }
    ensures { result ≡ common_of a b n }
{
    let mut same = n;
    'bits: while same > 0 && !agrees(a, b, same) {
        same -= 1;
    }
    same
}
