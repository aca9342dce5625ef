//! The words of a line, one after another.
ghost use Rattle.std.specs.Prelude.{◌≡◌, ◌==◌, ◌∷◌, ◌≤◌, [], length, MatchOption};
ghost use Rattle.xf_lex.specs.Plain.{gap_count, word_count};

/// The words of a line that are still to come: those of a plain line where they stand, or those that were listed.
#[derive(Clone, Copy, Debug)]
pub enum Words<'a> {
    Plain(&'a [u8]),
    Listed(&'a [Vec<u8>]),
}

// How many bytes part words before the first one that doesn't.
fn gap_count(bytes: &[u8]) -> usize
    ensures count { result ≡ gap_count bytes.now }
    ensures within { result ≤ length bytes.now }
{
    for (i, byte) in bytes.iter().enumerate() {
        if *byte > b' ' {
            return i;
        }
    }
    bytes.len()
}

// How many bytes stand before the first one that parts words.
fn word_count(bytes: &[u8]) -> usize
    ensures count { result ≡ word_count bytes.now }
    ensures within { result ≤ length bytes.now }
{
    for (i, byte) in bytes.iter().enumerate() {
        if *byte <= b' ' {
            return i;
        }
    }
    bytes.len()
}

impl<'a> Words<'a> {
    ghost use Rattle.xf_lex.specs.Plain.{left};

    /// Whether no word is left.
    #[tactic(auto, using(crate::proofs::Splits::gaps_alone))]
    pub fn is_empty(&self) -> bool
        ensures { result ≡ (length (left self.now) == 0) }
    {
        match *self {
            Words::Plain(bytes) => gap_count(bytes) == bytes.len(),
            Words::Listed(words) => words.is_empty(),
        }
    }

    /// The next word, if one is left.
    #[tactic(auto, using(crate::proofs::Splits::first_word, crate::proofs::Splits::no_word))]
    pub fn next(&mut self) -> Option<&'a [u8]>
        ensures { MatchOption result (left self.old ≡ []) (λ word. left self.old ≡ word.now ∷ left self.new) }
    {
        match *self {
            Words::Plain(bytes) => {
                let (_, rest) = bytes.split_at(gap_count(bytes));
                if rest.is_empty() {
                    return None;
                }
                let (word, behind) = rest.split_at(word_count(rest));
                *self = Words::Plain(behind);
                Some(word)
            }
            Words::Listed(words) => {
                let (word, behind) = words.split_first()?;
                *self = Words::Listed(behind);
                Some(word)
            }
        }
    }
}
