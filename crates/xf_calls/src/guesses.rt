//! Where the states of a path stand.
ghost use Rattle.std.specs.Prelude.{◌≡◌};
ghost use Rattle.xf_chain.specs.Chains.{Below};

use arrayvec::ArrayVec;
use xf_types::{Hop, Reply};

/// A state, and the slot in which it stood.
#[derive(Clone, Copy, Debug, Default)]
struct Guess {
    sid: u64,
    slot: u32,
}

/// The states of the last path that a flow was given: good guesses for the outputs that follow, which change no answer.
#[derive(Debug, Drop)]
pub(crate) struct Guesses {
    path: ArrayVec<Guess, 6>,
}

/// The path that a reply gives, if it gives one.
fn path(reply: &Reply) -> &[Hop] {
    match reply {
        Reply::FlowAllow { index: _, path } => path.items.as_slice(),
        _ => &[],
    }
}

impl Guesses {
    /// No guess.
    pub(crate) fn none() -> Guesses {
        Guesses {
            path: ArrayVec::new(),
        }
    }

    /// The states of the path that a reply gives, which stand in these slots, in order.
    pub(crate) fn along(reply: &Reply, slots: &[u32]) -> Guesses {
        let mut guesses = ArrayVec::new();
        'path: for (hop, slot) in path(reply).iter().zip(slots) {
            if guesses.is_full() {
                break;
            }
            guesses.push(Guess {
                sid: hop.sid,
                slot: *slot,
            });
        }
        Guesses { path: guesses }
    }

    /// The slot in which a state stood, if it is one of so many.
    pub(crate) fn slot(&self, sid: u64, slots: u32) -> Option<u32>
        ensures { Below slots result }
    {
        let guess = self.path.as_slice().iter().find(|guess| guess.sid == sid)?;
        if guess.slot < slots {
            Some(guess.slot)
        } else {
            None
        }
    }
}
