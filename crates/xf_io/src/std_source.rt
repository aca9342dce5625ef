//! A source over std's readers.
ghost use Rattle.std.specs.Prelude.{◌≡◌, length, None};
ghost use Rattle.std.specs.Io.{ReadsAtMost};
ghost use Rattle.std.specs.Io.KnownBytes.{ReadConsumes};
ghost use Rattle.xf_io.specs.Causes.{Counts, HasCause};

use crate::collected::Collected;
use crate::source::{Failed, Source};
use std::io::{Read, Write};
use std::marker::Model;

/// Reads from one of std's readers, each time once all that was collected is handed on. Where that failed, so does the read,
/// and no more is read. What it gives isn't told.
#[derive(Drop)]
pub struct StdSource<'a, R: Read + Drop, W: Write + Drop> {
    reader: R,
    collected: &'a Collected<W>,
    faults: u64,
}

impl<'a, R: Read + Drop, W: Write + Drop> Model for StdSource<'a, R, W> {
    ghost use Rattle.std.specs.Prelude.{ℕ};

    ghost Value = { ℕ };

    ghost view = { λ s. s.faults };
}

impl<'a, R: Read + Drop, W: Write + Drop> StdSource<'a, R, W> {
    /// Contracts see its count of faults.
    pub fn new(reader: R, collected: &'a Collected<W>) -> StdSource<'a, R, W>
        ensures { result ≡ 0 }
    {
        StdSource {
            reader,
            collected,
            faults: 0,
        }
    }
}

impl<'a, R: Read + Drop, W: Write + Drop> Source for StdSource<'a, R, W> {
    ghost left = { λ _. None };

    ghost faults = { λ count. count };

    fn read(&mut self, buf: &mut [u8]) -> Result<usize, Failed>
        ensures bound { ReadsAtMost result buf.new }
        ensures bytes { ReadConsumes None None result buf.new }
        ensures cause { HasCause self.old self.new (length buf.new) result }
        ensures counted { Counts self.old self.new result }
    {
        let result = self.collected.hand_on_and_read(&mut self.reader, buf);
        if result.is_err() {
            self.faults = self.faults.saturating_add(1);
        }
        result
    }
}
