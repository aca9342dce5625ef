//! What a walk that changes the list does to each policy.
ghost use Rattle.std.specs.Prelude.{◌≡◌, ◌≤◌};
ghost use Rattle.xf_policies.specs.Sweeps.{leaves, warns, fate_by, fate_of, changes_of};

use crate::times;
use xf_types::{Policy, PolicyFilter, Ptype, meets_ptype};

/// Which policies leave or are warned of.
#[derive(Clone, Copy, Debug, PartialEq, Eq)]
pub(crate) enum Sweep {
    /// Those that a filter admits leave.
    Admitted(PolicyFilter),
    /// Those of a ptype leave, or all.
    OfPtype(Option<Ptype>),
    /// Those that a time ends leave, and of others it warns.
    Later(u64),
}

/// What becomes of a policy.
#[derive(Clone, Copy, Debug, PartialEq, Eq)]
pub(crate) enum Fate {
    Stays,
    Warned,
    Gone,
}

impl Sweep {
    /// Whether a policy leaves.
    fn takes(&self, policy: &Policy) -> bool
        ensures { result ≡ leaves self.now policy.now }
    {
        match self {
            Sweep::Admitted(filter) => filter.admits(policy),
            Sweep::OfPtype(ptype) => meets_ptype(*ptype, policy.spec.ptype),
            Sweep::Later(now) => times::ends(policy, *now),
        }
    }

    /// Whether a policy that stays is warned of.
    fn warns(&self, policy: &Policy) -> bool
        ensures { result ≡ warns self.now policy.now }
    {
        match self {
            Sweep::Admitted(_) => false,
            Sweep::OfPtype(_) => false,
            Sweep::Later(now) => times::warns(policy, *now),
        }
    }

    /// What becomes of a policy.
    pub(crate) fn fate(&self, policy: &Policy) -> Fate
        ensures { result ≡ fate_of self.now policy.now }
    {
        Fate::of_flags(self.takes(policy), self.warns(policy))
    }
}

impl Fate {
    fn of_flags(leaves: bool, warns: bool) -> Fate
        ensures { result ≡ fate_by leaves warns }
    {
        if leaves {
            Fate::Gone
        } else if warns {
            Fate::Warned
        } else {
            Fate::Stays
        }
    }

    /// How many changes this is.
    pub(crate) fn changes(self) -> u32
        ensures is { result ≡ changes_of self }
        ensures few { result ≤ 1 }
    {
        match self {
            Fate::Stays => 0,
            Fate::Warned | Fate::Gone => 1,
        }
    }
}
