//! The call lines of a large input as they are made, one after another.
ghost use Rattle.std.specs.Prelude.{◌≡◌, ◌<◌, ◌^◌, [], ◌∷◌, OnOk};
ghost use Rattle.xf_batch.specs.GeneratedCalls.{next_x, value_of};
ghost use Rattle.xf_batch.specs.Making.{Asks};

use crate::task::{Job, Task};
use std::alloc::Global;
use xf_types::NoMemory;

const FACTOR: u64 = 6_364_136_223_846_793_005;

const TERM: u64 = 1_442_695_040_888_963_407;

/// The x that follows.
pub(crate) fn next_x(x: u64) -> u64
    ensures { result ≡ next_x x }
{
    x.wrapping_mul(FACTOR).wrapping_add(TERM)
}

/// The lines so far, the number of the next one, and the x that the worker's next value comes from.
#[derive(Debug, Drop)]
pub(crate) struct Making {
    pub tasks: Vec<Task>,
    pub line: u64,
    pub x: u64,
}

impl Making {
    /// The worker's last value.
    pub fn last_value(&self) -> u32
        ensures { result ≡ value_of self.now.x }
    {
        (self.x >> 33) as u32
    }

    /// The worker's next value.
    pub fn value(&mut self) -> u32
        ensures value { result ≡ value_of self.new.x }
        ensures x { self.new ≡ record self.old { x = next_x self.old.x } }
    {
        self.x = next_x(self.x);
        self.last_value()
    }

    /// Makes one line.
    pub fn ask(&mut self, job: Job) -> Result<(), NoMemory>
        requires { self.old.line < 2 ^ 32 }
        ensures { OnOk result (Asks self.old self.new (job ∷ []) 0) }
    {
        let task = Task {
            line: self.line,
            job,
        };
        match self.tasks.push(task) {
            Ok(()) => {
                self.line += 1;
                Ok(())
            }
            Err(_) => Err(NoMemory),
        }
    }
}
