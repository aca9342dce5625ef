//! A sink over memory.
ghost use Rattle.std.specs.Prelude.{◌≡◌, ◌<◌, Some, [], length, IfOk};
ghost use Rattle.std.specs.Io.{WritesAtMost};
ghost use Rattle.std.specs.Io.KnownBytes.{WriteAppends};
ghost use Rattle.xf_io.specs.Causes.{HasCause};
ghost use Rattle.xf_io.specs.Memory.{Writes};

use crate::sink::Sink;
use crate::source::Failed;
use std::marker::Model;

/// Writes over a list from its front. The writes with the listed numbers, counted from 1, fail, and so do those of
/// pieces longer than what is left of the list. Any other piece is taken whole.
#[derive(Drop)]
pub struct MemSink {
    room: Vec<u8>,
    used: usize,
    fails: Vec<u64>,
    writes: u64,
    faults: u64,
}

impl Model for MemSink {
    ghost use Rattle.std.specs.Prelude.{◌≤◌, ◌-◌, take, vec_len};
    ghost use Rattle.xf_io.specs.Memory.{SinkState};

    ghost Value = { SinkState };

    ghost view = { λ s. record {
      text = take s.used s.room.items;
      space = vec_len s.room - s.used;
      fails = s.fails.items;
      writes = s.writes;
      faults = s.faults;
    } };

    ghost invariant = { λ s. s.used ≤ vec_len s.room };
}

impl MemSink {
    pub fn new(room: Vec<u8>, fails: Vec<u64>) -> MemSink
        ensures { result ≡ record {
          text = [];
          space = length room.items;
          fails = fails.items;
          writes = 0;
          faults = 0;
        } }
    {
        MemSink {
            room,
            used: 0,
            fails,
            writes: 0,
            faults: 0,
        }
    }

    /// The part of the list that has been written over.
    pub fn text(&self) -> &[u8]
        ensures { result.now ≡ self.now.text }
    {
        &self.room[..self.used]
    }
}

impl Sink for MemSink {
    ghost text = { λ s. Some s.text };

    ghost faults = { λ s. s.faults };

    fn write(&mut self, bytes: &[u8]) -> Result<usize, Failed>
        ensures bound { WritesAtMost result bytes.now }
        ensures bytes { WriteAppends (Some self.old.text) (Some self.new.text) result bytes.now }
        ensures some { 0 < length bytes.now → IfOk result (λ n. 0 < n) }
        ensures cause { HasCause self.old.faults self.new.faults (length bytes.now) result }
        ensures writes { Writes self.old self.new bytes.now result }
    {
        self.writes = self.writes.saturating_add(1);
        if self.fails.contains(&self.writes) || bytes.len() > self.room.len() - self.used {
            self.faults = self.faults.saturating_add(1);
            return Err(Failed);
        }
        let end = self.used + bytes.len();
        self.room[self.used..end].copy_from_slice(bytes);
        self.used = end;
        Ok(bytes.len())
    }
}
