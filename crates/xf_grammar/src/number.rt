//! Numbers as lines spell them.
ghost use Rattle.std.specs.Prelude.{◌≡◌, ◌≤◌, ◌<◌, ◌^◌, length, Some, IfOk, IsTrue};
ghost use Rattle.std.specs.Str.{all_ascii_digits};
ghost use Rattle.xf_addr.specs.Numbers.{is_decimal};
ghost use Rattle.xf_grammar.specs.Numbers.{hex_digit, hex_from, are_hex_digits, is_hex, within, number_in};

use xf_addr::read_number;
use xf_types::Reason;

fn all_digits(word: &[u8]) -> bool
    ensures { result ≡ all_ascii_digits word.now }
{
    for digit in word {
        if !digit.is_ascii_digit() {
            return false;
        }
    }
    true
}

fn all_hex_digits(word: &[u8]) -> bool
    ensures { result ≡ are_hex_digits word.now }
{
    for digit in word {
        if !digit.is_ascii_hexdigit() {
            return false;
        }
    }
    true
}

fn spells_decimal(word: &[u8]) -> bool
    ensures { result ≡ is_decimal word.now }
{
    !word.is_empty() && all_digits(word) && (word[0] != b'0' || word.len() == 1)
}

fn spells_hex(word: &[u8]) -> bool
    ensures { result ≡ is_hex word.now }
{
    word.len() > 2
        && word.len() <= 18
        && word[0] == b'0'
        && word[1] == b'x'
        && all_hex_digits(&word[2..])
}

fn hex_digit(byte: u8) -> u8
    ensures { result ≡ hex_digit byte }
{
    if byte <= b'9' {
        byte.saturating_sub(b'0')
    } else if byte <= b'F' {
        byte.saturating_sub(55)
    } else {
        byte.saturating_sub(87)
    }
}

/// The number of at most 16 hexadecimal digits.
fn hex_value(digits: &[u8]) -> u64
    requires few { length digits.now ≤ 16 }
    requires digits { IsTrue (are_hex_digits digits.now) }
    ensures { result ≡ hex_from 0 digits.now }
{
    let mut value: u64 = 0;
    for digit in digits {
        value = 16 * value + u64::from(hex_digit(*digit));
    }
    value
}

fn within(low: u64, high: u64, n: u64) -> Result<u64, Reason>
    ensures number { result ≡ within low high (Some n) }
    ensures most { IfOk result (λ n. n ≤ high) }
{
    if low <= n && n <= high {
        Ok(n)
    } else {
        Err(Reason::Range)
    }
}

/// The number that a word spells, in its range.
#[tactic(auto, unfolding(crate::specs::Numbers::spelled, xf_addr::specs::Numbers::number_of))]
pub(crate) fn read_number_in(low: u64, high: u64, word: &[u8]) -> Result<u64, Reason>
    ensures number { result ≡ number_in low high word.now }
    ensures most { IfOk result (λ n. n ≤ high) }
{
    if let Some(n) = read_number(word, u64::MAX) {
        return within(low, high, n);
    }
    if spells_decimal(word) {
        return Err(Reason::Range);
    }
    if spells_hex(word) {
        return within(low, high, hex_value(&word[2..]));
    }
    Err(Reason::Number)
}
