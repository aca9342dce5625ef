//! Decimal numbers, and texts cut at a byte.
ghost use Rattle.std.specs.Prelude.{◌≡◌, ◌≤◌, IfSome, option_map};
ghost use Rattle.std.specs.Str.{all_ascii_digits};
ghost use Rattle.xf_addr.specs.Numbers.{is_decimal, number_of, cut_at};

fn spells_decimal(word: &[u8]) -> bool
    ensures { result ≡ is_decimal word.now }
{
    !word.is_empty() && all_digits(word) && (word[0] != b'0' || word.len() == 1)
}

fn all_digits(word: &[u8]) -> bool
    ensures { result ≡ all_ascii_digits word.now }
{
    for digit in word {
        if !digit.is_ascii_digit() {
            return false;
        }
    }
    true
}

/// The number that the whole word spells, up to a greatest one: decimal digits without a sign, and without a leading
/// zero unless the number is 0.
#[tactic(auto, unfolding(crate::specs::Numbers::number_of))]
pub fn read_number(word: &[u8], max: u64) -> Option<u64>
    ensures number { result ≡ number_of max word.now }
    ensures most { IfSome result (λ n. n ≤ max) }
{
    if !spells_decimal(word) {
        return None;
    }
    let mut value: u128 = 0;
    for digit in word {
        value = 10 * value + u128::from(digit.saturating_sub(b'0'));
        if value > u128::from(max) {
            return None;
        }
    }
    Some(value as u64)
}

/// What stands before the first such byte, and what after it; None where there is none.
pub fn cut(text: &[u8], byte: u8) -> Option<(&[u8], &[u8])>
    ensures { option_map (λ parts. (parts.0.now, parts.1.now)) result ≡ cut_at byte text.now }
{
    for (i, b) in text.iter().enumerate() {
        if *b == byte {
            return Some((&text[..i], &text[i + 1..]));
        }
    }
    None
}
