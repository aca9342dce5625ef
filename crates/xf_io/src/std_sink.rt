//! A sink over std's writers.
ghost use Rattle.std.specs.Prelude.{◌≡◌, ◌<◌, length, IfOk, None};
ghost use Rattle.std.specs.Io.{WritesAtMost};
ghost use Rattle.std.specs.Io.KnownBytes.{WriteAppends};
ghost use Rattle.xf_io.specs.Causes.{Counts, HasCause};

use crate::collected::Collected;
use crate::sink::Sink;
use crate::source::Failed;
use std::io::Write;
use std::marker::Model;

/// Collects what it is offered, and takes each piece whole. A write that fails late fails a later piece, or the end. What it
/// takes isn't told.
#[derive(Drop)]
pub struct StdSink<'a, W: Write + Drop> {
    collected: &'a Collected<W>,
    faults: u64,
}

impl<'a, W: Write + Drop> Model for StdSink<'a, W> {
    ghost use Rattle.std.specs.Prelude.{ℕ};

    ghost Value = { ℕ };

    ghost view = { λ s. s.faults };
}

impl<'a, W: Write + Drop> StdSink<'a, W> {
    /// Contracts see its count of faults.
    pub fn new(collected: &'a Collected<W>) -> StdSink<'a, W>
        ensures { result ≡ 0 }
    {
        StdSink {
            collected,
            faults: 0,
        }
    }
}

impl<'a, W: Write + Drop> Sink for StdSink<'a, W> {
    ghost text = { λ _. None };

    ghost faults = { λ count. count };

    fn write(&mut self, bytes: &[u8]) -> Result<usize, Failed>
        ensures bound { WritesAtMost result bytes.now }
        ensures bytes { WriteAppends None None result bytes.now }
        ensures some { 0 < length bytes.now → IfOk result (λ n. 0 < n) }
        ensures cause { HasCause self.old self.new (length bytes.now) result }
        ensures counted { Counts self.old self.new result }
        ensures whole { IfOk result (λ n. n ≡ length bytes.now) }
    {
        match self.collected.take(bytes) {
            Ok(()) => Ok(bytes.len()),
            Err(Failed) => {
                self.faults = self.faults.saturating_add(1);
                Err(Failed)
            }
        }
    }
}
