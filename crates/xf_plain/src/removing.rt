//! Policies that leave the list.
ghost use Rattle.std.specs.Prelude.{◌≡◌, ◌≤◌, length, OnOk, OnErr, vec_capacity};
ghost use Rattle.xf_types.specs.PolicyList.{has_key, inserted, is_same, policy_meets, without};
ghost use Rattle.xf_types.specs.Same.{meets_one, same_ptype};

use crate::listing::insert;
use xf_types::{
    NoMemory, Policy, PolicyFilter, PolicyKey, PolicySpec, Ptype, meets_ptype, same_policy,
};

/// Removes those that the key names.
pub fn remove_named(policies: &mut Vec<Policy>, key: &PolicyKey)
    ensures { policies.new.items ≡ without (has_key key.now) policies.old.items }
{
    policies.retain(|p| !key.names(p));
}

/// Removes those that the filter admits.
pub fn remove_admitted(policies: &mut Vec<Policy>, filter: &PolicyFilter)
    ensures { policies.new.items ≡ without (policy_meets filter.now) policies.old.items }
{
    policies.retain(|p| !filter.admits(p));
}

/// Removes those of a ptype, or all.
pub fn remove_of_ptype(policies: &mut Vec<Policy>, ptype: Option<Ptype>)
    ensures { policies.new.items ≡ without (λ p. meets_one same_ptype ptype p.spec.ptype) policies.old.items }
{
    policies.retain(|p| !meets_ptype(ptype, p.spec.ptype));
}

/// Removes those that are the same.
fn remove_same(policies: &mut Vec<Policy>, spec: &PolicySpec)
    ensures rest { policies.new.items ≡ without (λ p. is_same p.spec spec.now) policies.old.items }
    ensures shorter { length policies.new.items ≤ length policies.old.items }
    ensures capacity { vec_capacity policies.new ≡ vec_capacity policies.old }
{
    policies.retain(|p| !same_policy(&p.spec, spec));
}

/// Removes those that are the same, and puts the new policy to its place.
pub fn replace_same(
    policies: &mut Vec<Policy>,
    spec: &PolicySpec,
    policy: Policy,
) -> Result<(), NoMemory>
    ensures ok { OnOk result
        (policies.new.items ≡ inserted policy (without (λ p. is_same p.spec spec.now) policies.old.items)) }
    ensures err { OnErr result (policies.new.items ≡ policies.old.items) }
{
    if policies.reserve(1).is_err() {
        return Err(NoMemory);
    }
    remove_same(policies, spec);
    match insert(policies, policy) {
        Ok(()) => Ok(()),
        Err(_) => unreachable!(),
    }
}
