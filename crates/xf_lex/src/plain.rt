//! Plain lines: outside their comment they have no quotes, no backslashes and no strange bytes.
ghost use Rattle.std.specs.Prelude.{◌≡◌, IfSome, Ok};
ghost use Rattle.xf_lex.specs.Lines.{words_of};
ghost use Rattle.xf_lex.specs.Plain.{split, is_end};

use xf_bytes::mild_count;

// So many bytes may a plain line have, with its comment and its line feed: it isn't long.
const PLAIN_LIMIT: usize = 4096;

// Whether the words of a line end before these bytes.
fn is_end(bytes: &[u8]) -> bool
    ensures { result ≡ is_end bytes.now }
{
    match bytes {
        [] => true,
        [b'#', ..] => true,
        [b'\n'] => true,
        _ => false,
    }
}

/// The front of a plain line, behind which there is its comment, its line feed, or nothing: its words stand between the blanks
/// of it.
#[tactic(auto, using(crate::proofs::PlainLines::front_words))]
pub fn plain_front(bytes: &[u8]) -> Option<&[u8]>
    ensures { IfSome result (λ front. words_of bytes.now ≡ Ok (split front.now)) }
{
    if bytes.len() > PLAIN_LIMIT {
        return None;
    }
    let (front, end) = bytes.split_at(mild_count(bytes));
    if is_end(end) { Some(front) } else { None }
}
