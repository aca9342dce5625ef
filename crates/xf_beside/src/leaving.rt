//! Which policies leave at once.
ghost use Rattle.std.specs.Prelude.{◌≡◌};
ghost use Rattle.xf_beside.specs.Leaving.{leaves};

use xf_types::{Policy, PolicyFilter, Ptype, meets_ptype};

/// Those that a filter admits, or those of a ptype or of both.
#[derive(Clone, Copy, Debug, PartialEq, Eq)]
pub enum Leaving {
    Admitted(PolicyFilter),
    OfPtype(Option<Ptype>),
}

impl Leaving {
    /// Whether a policy leaves.
    pub fn takes(&self, policy: &Policy) -> bool
        ensures { result ≡ leaves self.now policy.now }
    {
        match self {
            Leaving::Admitted(filter) => filter.admits(policy),
            Leaving::OfPtype(ptype) => meets_ptype(*ptype, policy.spec.ptype),
        }
    }
}
