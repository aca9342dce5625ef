//! Output that is collected.
ghost use Rattle.std.specs.Prelude.{◌≡◌, IfErr};
ghost use Rattle.std.specs.Io.{ReadsAtMost};
ghost use Rattle.std.specs.IoError.{error_kind};

use crate::pending::Pending;
use crate::source::Failed;
use std::alloc::Global;
use std::cell::RefCell;
use std::io;
use std::io::{ErrorKind, Read, Write};

#[cfg(test)]
mod tests;

/// One of std's writers, and what a sink collected for it: it is handed on in large pieces, before a source that shares it
/// waits for input, and at the end. It can't be dropped: the end says whether a write has failed.
pub struct Collected<W: Write + Drop> {
    pending: RefCell<Pending<W>>,
}

impl<W: Write + Drop> Collected<W> {
    pub fn new(alloc: Global, writer: W) -> io::Result<Collected<W>>
        ensures { IfErr result (λ e. error_kind e ≡ ErrorKind.OutOfMemory) }
    {
        let pending = Pending::new(alloc, writer)?;
        Ok(Collected {
            pending: RefCell::new(pending),
        })
    }

    /// Takes a piece whole, unless a write has failed by now.
    pub(crate) fn take(&self, bytes: &[u8]) -> Result<(), Failed> {
        match self.pending.try_borrow_mut() {
            Ok(mut pending) => pending.take(bytes),
            Err(_) => Err(Failed),
        }
    }

    /// Hands all on and then reads, unless a write has failed by now.
    pub(crate) fn hand_on_and_read<R: Read>(
        &self,
        reader: &mut R,
        buf: &mut [u8],
    ) -> Result<usize, Failed>
        ensures { ReadsAtMost result buf.new }
    {
        let Ok(mut pending) = self.pending.try_borrow_mut() else {
            return Err(Failed);
        };
        pending.hand_on()?;
        match pending.wait(reader, buf) {
            Ok(count) => Ok(count),
            Err(_) => Err(Failed),
        }
    }

    /// Hands on what is left. `Failed` where any write has failed, now or before.
    pub fn end(self) -> Result<(), Failed> {
        let Collected { pending } = self;
        pending.into_inner().end()
    }
}
