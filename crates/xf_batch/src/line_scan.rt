//! The search for a line's end, piece by piece.
ghost use Rattle.std.specs.Prelude.{◌≡◌, ℕ, List, ◌≤◌, [], ◌++◌, length, take};
ghost use Rattle.xf_lex.specs.Lines.{line_limit};
ghost use Rattle.xf_batch.specs.Scans.{Scans, Walks, steady_count};

use crate::ends::ends_at;
use xf_bytes::{feedless_count, mild_count};
use xf_lex::Quoting;

// How many bytes a logical line may have.
const LINE_LIMIT: u32 = 4096;

/// What is known of a line that isn't long yet and whose end isn't found: where its bytes leave what stands after them, and how
/// many of them count.
#[derive(Clone, Copy)]
pub(crate) struct LineScan {
    pub quoting: Quoting,
    pub length: u32,
}

/// What a piece brought: the line's end behind so many of its bytes, or that the line is long, or neither.
#[derive(Clone, Copy)]
pub(crate) enum Walked {
    Ends(usize),
    Long,
    GoesOn,
}

// How many bytes from the first on are known to leave what stands behind them as it is.
fn steady_count(quoting: Quoting, bytes: &[u8]) -> usize
    ensures count { result ≡ steady_count quoting bytes.now }
    ensures within { result ≤ length bytes.now }
{
    match quoting {
        Quoting::Bare | Quoting::Single | Quoting::Double => mild_count(bytes),
        Quoting::Comment => feedless_count(bytes),
        _ => 0,
    }
}

impl LineScan {
    /// Before the first byte.
    pub(crate) fn new() -> LineScan
        ensures { Scans [] result }
    {
        LineScan {
            quoting: Quoting::Bare,
            length: 0,
        }
    }

    // Takes such bytes together, while the line isn't long, and says how many they are.
    fn take_run(&mut self, rest: &[u8]) -> usize
        requires { self.old.length ≤ line_limit }
        ensures within { result ≤ length rest.now }
        ensures short { self.new.length ≤ line_limit }
        ensures scans { (front : List ℕ) → Scans front self.old → Scans (front ++ take result rest.now) self.new }
    {
        let room = (LINE_LIMIT - self.length) as usize;
        let count = steady_count(self.quoting, rest).min(room);
        self.length += count as u32;
        count
    }

    /// Goes on with a piece of the line.
    pub(crate) fn walk(&mut self, piece: &[u8]) -> Walked
        requires { self.old.length ≤ line_limit }
        ensures { (front : List ℕ) → Scans front self.old → Walks front piece.now self.new result }
    {
        let mut i = 0;
        'bytes: loop {
            i += self.take_run(&piece[i..]);
            if i == piece.len() {
                return Walked::GoesOn;
            }
            let byte = piece[i];
            if ends_at(self.quoting, byte) {
                return Walked::Ends(i + 1);
            }
            self.length += self.quoting.counted(byte);
            self.quoting = self.quoting.after(byte);
            if self.length > LINE_LIMIT {
                return Walked::Long;
            }
            i += 1;
        }
    }
}
