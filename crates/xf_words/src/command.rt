//! What the command words ask for.

/// A command of the program, with the values of its options.
#[derive(Clone, Copy, PartialEq, Eq, Debug)]
pub enum Command {
    /// Runs one batch on one thread.
    One,
    /// Reads a batch and counts its call lines; nothing runs.
    Check,
    /// Makes an input from a number and runs it.
    Gen { seed: u64 },
}
