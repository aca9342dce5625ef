//! Which states leave together.
ghost use Rattle.std.specs.Prelude.{◌≡◌};
ghost use Rattle.xf_statecalls.specs.Choices.{chosen};

use xf_held::{admits, meets_proto};
use xf_types::{Proto, Sa, SaFilter};

/// Some of the states.
#[derive(Clone, Copy, Debug, PartialEq, Eq)]
pub(crate) enum Choice {
    /// Those that a filter admits.
    Admitted(SaFilter),
    /// Those of a protocol, or all.
    OfProto(Option<Proto>),
}

impl Choice {
    /// Whether a state is one of them.
    pub(crate) fn takes(&self, state: &Sa) -> bool
        ensures { result ≡ chosen self.now state.now }
    {
        match self {
            Choice::Admitted(filter) => admits(filter, state),
            Choice::OfProto(proto) => meets_proto(*proto, state.spec.proto),
        }
    }
}
