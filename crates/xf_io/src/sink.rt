//! Bytes that go out.
ghost use Rattle.std.specs.Prelude.{ℕ, List, Option, ◌<◌, length, IfOk};
ghost use Rattle.std.specs.Io.{WritesAtMost};
ghost use Rattle.std.specs.Io.KnownBytes.{WriteAppends};
ghost use Rattle.xf_io.specs.Causes.{HasCause};

use crate::source::Failed;

/// Where bytes go to.
pub trait Sink {
    /// The text so far, where it tells it.
    ghost text: { Self → Option (List ℕ) };

    /// How often it has failed. The count never falls, and stands still at 2^64 - 1.
    ghost faults: { Self → ℕ };

    /// Takes bytes from the front of a piece, and answers how many: at least one, where the piece isn't empty. It
    /// answers `Failed` to such a piece only where the count of faults rose. A failed write takes no byte.
    fn write(&mut self, bytes: &[u8]) -> Result<usize, Failed>
        ensures bound { WritesAtMost result bytes.now }
        ensures bytes { WriteAppends (text self.old) (text self.new) result bytes.now }
        ensures some { 0 < length bytes.now → IfOk result (λ n. 0 < n) }
        ensures cause { HasCause (faults self.old) (faults self.new) (length bytes.now) result };
}
