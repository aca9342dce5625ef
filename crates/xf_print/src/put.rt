//! Bytes, numbers and addresses, written at the end of a list. Where memory is refused, a part may stand there.
ghost use Rattle.std.specs.Prelude.{◌≡◌, ◌<◌, ◌++◌, ◌/◌, ◌%◌, ◌^◌, OnOk, OnErr, decimal};
ghost use Rattle.xf_addr.specs.Text.{addr_text};
ghost use Rattle.xf_print.specs.Numbers.{hex_digit, eight_digits, hex_text, flag_text, given_text};

use itoa::Buffer;
use xf_addr::write_addr;
use xf_types::{Addr, NoMemory};

pub(crate) fn put(out: &mut Vec<u8>, text: &[u8]) -> Result<(), NoMemory>
    ensures text { OnOk result (out.new.items ≡ out.old.items ++ text.now) }
    ensures memory { OnErr result (out.new.items ≡ out.old.items) }
{
    match out.extend_from_slice(text) {
        Ok(()) => Ok(()),
        Err(_) => Err(NoMemory),
    }
}

/// A word and its number.
pub(crate) fn put_number(out: &mut Vec<u8>, word: &[u8], number: u64) -> Result<(), NoMemory>
    ensures { OnOk result (out.new.items ≡ out.old.items ++ word.now ++ decimal number) }
{
    put(out, word)?;
    let mut digits = Buffer::new();
    put(out, digits.format(number).as_bytes())
}

/// Two words, each with its number.
pub(crate) fn put_two(
    out: &mut Vec<u8>,
    word: &[u8],
    number: u64,
    other_word: &[u8],
    other: u64,
) -> Result<(), NoMemory>
    ensures { OnOk result
        (out.new.items ≡ out.old.items ++ (word.now ++ decimal number ++ other_word.now ++ decimal other)) }
{
    put_number(out, word, number)?;
    put_number(out, other_word, other)
}

/// A word, a number, and what follows it.
pub(crate) fn put_about(
    out: &mut Vec<u8>,
    word: &[u8],
    number: u64,
    rest: &[u8],
) -> Result<(), NoMemory>
    ensures { OnOk result (out.new.items ≡ out.old.items ++ (word.now ++ decimal number ++ rest.now)) }
{
    put_number(out, word, number)?;
    put(out, rest)
}

/// A word and its number, if there is one.
#[tactic(auto, unfolding(crate::specs::Numbers::given_text))]
pub(crate) fn put_given(out: &mut Vec<u8>, word: &[u8], number: Option<u64>) -> Result<(), NoMemory>
    ensures { OnOk result (out.new.items ≡ out.old.items ++ given_text word.now number) }
{
    match number {
        None => Ok(()),
        Some(number) => put_number(out, word, number),
    }
}

#[tactic(auto, unfolding(crate::specs::Numbers::flag_text))]
pub(crate) fn put_flag(out: &mut Vec<u8>, word: &[u8], set: bool) -> Result<(), NoMemory>
    ensures { OnOk result (out.new.items ≡ out.old.items ++ flag_text word.now set) }
{
    if set { put(out, word) } else { Ok(()) }
}

fn digit_at(number: u32, shift: u32) -> u8
    requires { shift < 32 }
    ensures { result ≡ hex_digit (number / 2 ^ shift % 16) }
{
    let digit = (number >> shift & 0xf) as u8;
    if digit < 10 {
        b'0' + digit
    } else {
        b'a' - 10 + digit
    }
}

fn digits(number: u32) -> [u8; 8]
    ensures { result ≡ eight_digits number }
{
    [
        digit_at(number, 28),
        digit_at(number, 24),
        digit_at(number, 20),
        digit_at(number, 16),
        digit_at(number, 12),
        digit_at(number, 8),
        digit_at(number, 4),
        digit_at(number, 0),
    ]
}

/// A word, and an SPI, a mark or a mask.
#[tactic(auto, unfolding(crate::specs::Numbers::hex_text))]
pub(crate) fn put_hex(out: &mut Vec<u8>, word: &[u8], number: u32) -> Result<(), NoMemory>
    ensures { OnOk result (out.new.items ≡ out.old.items ++ word.now ++ hex_text number) }
{
    put(out, word)?;
    put(out, b"0x")?;
    put(out, &digits(number))
}

/// A word and an address.
pub(crate) fn put_addr(out: &mut Vec<u8>, word: &[u8], addr: &Addr) -> Result<(), NoMemory>
    ensures { OnOk result (out.new.items ≡ out.old.items ++ word.now ++ addr_text addr.now) }
{
    put(out, word)?;
    write_addr(out, addr)
}
