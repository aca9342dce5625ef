//! What was written and is yet to be handed on.
ghost use Rattle.std.specs.Prelude.{◌≡◌, ◌↔◌, [], OnOk, IfOk, IfErr, IsErr, IsTrue};
ghost use Rattle.std.specs.Io.{ReadsAtMost};
ghost use Rattle.std.specs.Io.Buffered.{writer_buffer, writer_contents};
ghost use Rattle.std.specs.Io.KnownBytes.{Appends, Keeps, ReadConsumes};
ghost use Rattle.std.specs.IoError.{error_kind};

use crate::retry::read_again;
use crate::source::Failed;
use std::alloc::Global;
use std::io;
use std::io::{BufWriter, ErrorKind, Read, Write};

// How many bytes are handed on together.
const ROOM: usize = 65_536;

/// One of std's writers with what it is yet to be given, and whether a write has failed. After that it is given nothing more.
/// What a signal interrupts is written again; a writer that takes nothing has failed.
pub(crate) struct Pending<W: Write + Drop> {
    writer: BufWriter<W>,
    failed: bool,
}

impl<W: Write + Drop> Pending<W> {
    pub(crate) fn new(alloc: Global, writer: W) -> io::Result<Pending<W>>
        ensures empty { IfOk result (λ p. writer_buffer p.writer ≡ []) }
        ensures memory { IfErr result (λ e. error_kind e ≡ ErrorKind.OutOfMemory) }
    {
        Ok(Pending {
            writer: BufWriter::with_capacity(alloc, ROOM, writer)?,
            failed: false,
        })
    }

    fn answer(&self) -> Result<(), Failed>
        ensures { IsErr result ↔ IsTrue self.now.failed }
    {
        if self.failed { Err(Failed) } else { Ok(()) }
    }

    /// Takes a piece whole, and hands it on once there is no more room.
    pub(crate) fn take(&mut self, bytes: &[u8]) -> Result<(), Failed>
        ensures bytes { OnOk result (Appends (writer_contents W.contents self.old.writer)
            (writer_contents W.contents self.new.writer) bytes.now) }
        ensures tells { IsErr result ↔ IsTrue self.new.failed }
        ensures over { IsTrue self.old.failed → self.new ≡ self.old }
    {
        if !self.failed {
            self.failed = self.writer.write_all(bytes).is_err();
        }
        self.answer()
    }

    /// Hands all on.
    pub(crate) fn hand_on(&mut self) -> Result<(), Failed>
        ensures nothing { OnOk result (writer_buffer self.new.writer ≡ []) }
        ensures bytes { Keeps (writer_contents W.contents self.old.writer) (writer_contents W.contents self.new.writer) }
        ensures tells { IsErr result ↔ IsTrue self.new.failed }
        ensures over { IsTrue self.old.failed → self.new ≡ self.old }
    {
        if !self.failed {
            self.failed = self.writer.flush().is_err();
        }
        self.answer()
    }

    /// Reads. That may wait for whoever is given what is written, so nothing of it may be kept back.
    pub(crate) fn wait<R: Read>(&self, reader: &mut R, buf: &mut [u8]) -> io::Result<usize>
        requires nothing { writer_buffer self.now.writer ≡ [] }
        ensures bound { ReadsAtMost result buf.new }
        ensures bytes { ReadConsumes (R.remaining reader.old) (R.remaining reader.new) result buf.new }
    {
        read_again(reader, buf)
    }

    /// Hands all on, for the last time.
    pub(crate) fn end(mut self) -> Result<(), Failed>
        ensures { IsTrue self.failed → IsErr result }
    {
        let result = self.hand_on();
        // What is left after a failure is dropped here: the writer's own drop would offer it once more.
        let Pending { writer, failed: _ } = self;
        let _ = writer.into_parts();
        result
    }
}
