//! One phase of a batch.
ghost use Rattle.std.specs.Prelude.{◌≡◌, ◌<◌, [], length, get_or};
ghost use Rattle.xf_batch.specs.Shown.{lines_shown, threads_shown};

use crate::task::Task;

/// The call lines of a phase by thread, each thread's in the order of the input.
#[derive(Debug, Drop)]
pub struct Phase {
    pub threads: Vec<Vec<Task>>,
    /// A `sync` ended the phase, and not the input's end alone.
    pub synced: bool,
    /// The input goes on behind it.
    pub more: bool,
}

impl Phase {
    /// The call lines of a thread, in the order of the input.
    pub fn tasks(&self, thread: u32) -> &[Task]
        requires { thread < length self.now.threads.items }
        ensures tasks { lines_shown result.now ≡ get_or (threads_shown self.now.threads.items) thread [] }
    {
        &self.threads[thread as usize]
    }

    /// Whether the input goes on behind the phase: the line feed of a `sync` ended it.
    pub fn more(&self) -> bool
        ensures more { result ≡ self.now.more }
    {
        self.more
    }
}
