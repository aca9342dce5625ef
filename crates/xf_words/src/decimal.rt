//! Decimal numbers of 1 to 20 digits.
ghost use Rattle.std.specs.Prelude.{◌≡◌, ◌≤◌, IfSome};
ghost use Rattle.std.specs.Str.{all_ascii_digits};
ghost use Rattle.xf_words.specs.Numbers.{is_decimal as is_decimal_word, number_in};

fn all_digits(word: &[u8]) -> bool
    ensures { result ≡ all_ascii_digits word.now }
{
    for digit in word {
        if !digit.is_ascii_digit() {
            return false;
        }
    }
    true
}

fn is_decimal(word: &[u8]) -> bool
    ensures { result ≡ is_decimal_word word.now }
{
    1 <= word.len() && word.len() <= 20 && all_digits(word)
}

/// The number that the whole word spells, if it lies between the two bounds. Zeros may stand in front, a sign may not.
#[tactic(auto, unfolding(crate::specs::Numbers::number_in))]
pub fn read_number(word: &[u8], low: u64, high: u64) -> Option<u64>
    ensures number { result ≡ number_in low high word.now }
    ensures most { IfSome result (λ n. n ≤ high) }
{
    if !is_decimal(word) {
        return None;
    }
    let mut value: u128 = 0;
    for digit in word {
        value = 10 * value + u128::from(digit.saturating_sub(b'0'));
        if value > u128::from(high) {
            return None;
        }
    }
    if value < u128::from(low) {
        None
    } else {
        Some(value as u64)
    }
}
