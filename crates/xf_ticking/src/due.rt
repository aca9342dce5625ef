//! What a report of a state asks for.
ghost use Rattle.std.specs.Prelude.{◌≡◌};
ghost use Rattle.xf_ticking.specs.Dues.{due_by};

use xf_types::Event;

/// What is due for a state in a tick.
#[derive(Clone, Copy, Debug, PartialEq, Eq)]
pub(crate) enum Due {
    Nothing,
    /// It is marked as dying.
    Mark,
    /// It leaves.
    Leave,
}

impl Due {
    /// What is due, by what is reported of the state.
    pub(crate) fn by(event: Option<Event>) -> Due
        ensures { result ≡ due_by event }
    {
        match event {
            None => Due::Nothing,
            Some(Event::StateSoft(_)) => Due::Mark,
            Some(_) => Due::Leave,
        }
    }
}
