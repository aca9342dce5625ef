//! Calls of std's readers that are made again where a signal interrupts them, as std's own loops do.
ghost use Rattle.std.specs.Io.{ReadsAtMost};
ghost use Rattle.std.specs.Io.KnownBytes.{ReadConsumes};

use std::io;
use std::io::{ErrorKind, Read};

// How often in a row a call is made. The last interruption then is an error like any other.
const TRIES: u32 = 1_024;

pub(crate) fn read_again<R: Read>(inner: &mut R, buf: &mut [u8]) -> io::Result<usize>
    ensures bound { ReadsAtMost result buf.new }
    ensures bytes { ReadConsumes (R.remaining inner.old) (R.remaining inner.new) result buf.new }
{
    for _ in 1..TRIES {
        match inner.read(buf) {
            Err(error) if error.kind() == ErrorKind::Interrupted => {}
            result => return result,
        }
    }
    inner.read(buf)
}
