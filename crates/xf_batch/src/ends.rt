//! Where a logical line ends.
ghost use Rattle.std.specs.Prelude.{◌≡◌, ◌↔◌, ◌<◌, ◌≤◌, ◌^◌, IfSome, IsNone, length};
ghost use Rattle.xf_batch.specs.LineEnds.{IsLineEnd, IsUnfinished, ends_at, lines_in};

use xf_bytes::feedless_count;
use xf_lex::{Quoting, count_physical};

/// The extent of a logical line: its bytes with its line feeds, and how many physical lines it has.
#[derive(Clone, Copy, Debug, PartialEq, Eq)]
pub struct LineEnd {
    pub bytes: u64,
    pub lines: u64,
}

/// The extent of the first logical line of some bytes, if it is known to be whole. `ended` says that no bytes follow.
pub fn line_end(bytes: &[u8], ended: bool) -> Option<LineEnd>
    requires { length bytes.now ≤ 2 ^ 32 }
    ensures end { IfSome result (IsLineEnd bytes.now ended) }
    ensures none { IsNone result ↔ IsUnfinished bytes.now ended }
{
    let mut quoting = Quoting::Bare;
    for (i, b) in bytes.iter().enumerate() {
        if ends_at(quoting, *b) {
            return Some(extent(&bytes[..i + 1]));
        }
        quoting = quoting.after(*b);
    }
    if ended && !bytes.is_empty() {
        Some(extent(bytes))
    } else {
        None
    }
}

/// Whether the byte ends a line: a line feed that joins nothing.
pub(crate) fn ends_at(quoting: Quoting, byte: u8) -> bool
    ensures { result ≡ ends_at quoting byte }
{
    byte == b'\n' && !quoting.is_slash()
}

// The extent of a whole line.
fn extent(line: &[u8]) -> LineEnd
    requires some { 0 < length line.now }
    requires within { length line.now ≤ 2 ^ 32 }
    ensures bytes { result.bytes ≡ length line.now }
    ensures lines { result.lines ≡ lines_in line.now }
{
    LineEnd {
        bytes: line.len() as u64,
        lines: count_lines(line),
    }
}

/// How many physical lines a logical line has.
pub(crate) fn count_lines(line: &[u8]) -> u64
    requires some { 0 < length line.now }
    requires within { length line.now ≤ 2 ^ 32 }
    ensures count { result ≡ lines_in line.now }
    ensures few { result ≤ length line.now }
{
    let front = &line[..line.len() - 1];
    if feedless_count(front) == front.len() {
        return 1;
    }
    1 + count_physical(front) as u64
}
