//! The words of numbers, flags, ports and limits, and what each word gives.
ghost use Rattle.std.specs.Prelude.{◌≡◌, ◌<◌, ◌^◌};
ghost use Rattle.xf_types.specs.Extended.{number_bits};
ghost use Rattle.xf_records.specs.Codes as code;

/// A number of 32 bits, as it is.
pub fn small_word(number: u32) -> u64
    ensures word { result ≡ number }
    ensures fits { number < 2 ^ 32 }
{
    u64::from(number)
}

/// The number of 32 bits that a word gives.
pub fn small_in(word: u64) -> u32
    ensures { result ≡ code.small_in word }
{
    word.min(u64::from(u32::MAX)) as u32
}

/// A number of 8 bits, as it is.
pub fn byte_word(number: u8) -> u64
    ensures word { result ≡ number }
    ensures fits { number < 2 ^ 8 }
{
    u64::from(number)
}

/// The number of 8 bits that a word gives.
pub fn byte_in(word: u64) -> u8
    ensures { result ≡ code.byte_in word }
{
    word.min(255) as u8
}

/// The sequence number that a word gives, by whether the numbers are extended.
pub(crate) fn number_in(esn: bool, word: u64) -> u64
    ensures number { result ≡ code.number_in esn word }
    ensures fits { result < 2 ^ number_bits esn }
{
    if esn {
        word
    } else {
        word.min(u64::from(u32::MAX))
    }
}

/// 1 where the flag is set, else 0.
pub(crate) fn flag_word(flag: bool) -> u64
    ensures { result ≡ code.flag_word flag }
{
    u64::from(flag)
}

/// The flag that a word gives.
pub fn flag_in(word: u64) -> bool
    ensures { result ≡ code.flag_in word }
{
    word != 0
}

/// 0 where the port is left out, else one more than the port.
pub fn port_word(port: Option<u16>) -> u64
    ensures word { result ≡ code.port_word port }
    ensures fits { code.PortFits port }
{
    match port {
        None => 0,
        Some(port) => u64::from(port) + 1,
    }
}

/// The port that a word gives, or that it is left out.
pub fn port_in(word: u64) -> Option<u16>
    ensures { result ≡ code.port_in word }
{
    if word == 0 {
        None
    } else {
        Some((word - 1).min(u64::from(u16::MAX)) as u16)
    }
}

/// 1 where the limit is there, else 0.
pub(crate) fn given_word(limit: Option<u64>) -> u64
    ensures { result ≡ code.given_word limit }
{
    match limit {
        None => 0,
        Some(_) => 1,
    }
}

/// The limit, or 0 where there is none.
pub(crate) fn number_word(limit: Option<u64>) -> u64
    ensures { result ≡ code.number_word limit }
{
    limit.unwrap_or(0)
}

/// The limit of its two words.
pub(crate) fn limit_in(given: u64, number: u64) -> Option<u64>
    ensures { result ≡ code.limit_in given number }
{
    if given == 0 { None } else { Some(number) }
}
