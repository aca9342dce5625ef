//! The policies that a filter admits.
ghost use Rattle.std.specs.Prelude.{◌≡◌, ◌≢◌, ℕ, ◌+◌, ◌*◌, ◌≤◌, true, List, [], ◌∷◌, ◌++◌, filter};
ghost use Rattle.xf_types.specs.declared.policy.Policy.{Policy};
ghost use Rattle.xf_types.specs.Machine.{Shown};
ghost use Rattle.xf_types.specs.PolicyList.{policy_meets};
ghost use Rattle.xf_types.specs.PolicyRules as rule;
ghost use Rattle.xf_cells.specs.Words.{Narrows};
ghost use Rattle.xf_inexact.specs.Whole.{SpdStands, WholeFits};

use crate::counting::count_changes;
use crate::sweep::Sweep;
use crate::walking::{Visitor, walk};
use std::alloc::Global;
use xf_cells::Load;
use xf_spd::Spd;
use xf_types::{NoMemory, Policies, Policy, PolicyFilter, Reply};

/// The policies shown so far that a filter admits.
#[derive(Drop)]
pub(crate) struct Admitted {
    wanted: PolicyFilter,
    found: Vec<Policy>,
}

impl Visitor for Admitted {
    ghost goes = { λ v p u. (u.wanted ≡ v.wanted) × (u.found.items ≡ v.found.items ++ filter (policy_meets v.wanted) (p ∷ [])) };

    ghost fails = { true };

    fn visit(&mut self, policy: Policy) -> Result<(), NoMemory> {
        if !self.wanted.admits(&policy) {
            return Ok(());
        }
        match self.found.push(policy) {
            Ok(()) => Ok(()),
            Err(_) => Err(NoMemory),
        }
    }
}

/// The policies that a filter admits, in order. Memory for as many as there are is taken first.
pub fn policy_list<L: Load>(spd: &Spd, l: &mut L, alloc: Global, wanted: &PolicyFilter) -> Reply
    requires { WholeFits spd.now.area (L.size l.old) }
    ensures size { L.size l.new ≡ L.size l.old }
    ensures begun { L.begun l.new ≡ L.begun l.old }
    ensures rest { L.rest l.new ≡ L.rest l.old }
    ensures among { Narrows (L.agrees l.old) (L.agrees l.new) }
    ensures loads { L.loads l.new ≤ L.loads l.old + 2 + 204 * spd.now.area.slots }
    ensures answer { (image : List ℕ) (s : Shown) (es : List (ℕ × Policy)) → L.agrees l.new image → SpdStands spd.now.area image s es → result ≢ Reply.NoMemory → result ≡ (rule.policy_list s wanted.now).reply }
{
    let count = count_changes(spd, l, Sweep::Admitted(*wanted));
    let Ok(found) = Vec::with_capacity(alloc, count as usize) else {
        return Reply::NoMemory;
    };
    let mut admitted = Admitted {
        wanted: *wanted,
        found,
    };
    if walk(spd, l, &mut admitted).is_err() {
        return Reply::NoMemory;
    }
    let Admitted { wanted: _, found } = admitted;
    Reply::PolicyList(Policies::new(found))
}
