//! Bytes that come in.
ghost use Rattle.std.specs.Prelude.{ℕ, List, Option, length};
ghost use Rattle.std.specs.Io.{ReadsAtMost};
ghost use Rattle.std.specs.Io.KnownBytes.{ReadConsumes};
ghost use Rattle.xf_io.specs.Causes.{HasCause};

/// A read or a write that didn't come about. Why is not told: the count of faults has risen.
#[derive(Clone, Copy, Debug, PartialEq, Eq)]
pub struct Failed;

/// Where bytes come from.
pub trait Source {
    /// The bytes still to come, where it tells them.
    ghost left: { Self → Option (List ℕ) };

    /// How often it has failed. The count never falls, and stands still at 2^64 - 1.
    ghost faults: { Self → ℕ };

    /// Reads into the front of the buffer, and answers how many bytes. It answers 0 to a buffer that isn't empty
    /// only at the end of the input, where it tells that, and `Failed` only where the count of faults rose. A failed
    /// read gives no byte; what then stands in the buffer is open.
    fn read(&mut self, buf: &mut [u8]) -> Result<usize, Failed>
        ensures bound { ReadsAtMost result buf.new }
        ensures bytes { ReadConsumes (left self.old) (left self.new) result buf.new }
        ensures cause { HasCause (faults self.old) (faults self.new) (length buf.new) result };
}
