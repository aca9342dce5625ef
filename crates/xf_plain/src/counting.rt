//! Policies that are counted or copied.
ghost use Rattle.std.specs.Prelude.{◌≡◌, count_by, filter, IfOk};
ghost use Rattle.xf_types.specs.PolicyList.{policy_meets};
ghost use Rattle.xf_types.specs.Same.{meets_one, same_dir, same_ptype};

use std::alloc::{AllocError, Global};
use xf_types::{Dir, Policy, PolicyFilter, Ptype, meets_ptype};

/// How many the filter admits.
pub fn count_admitted(policies: &[Policy], filter: &PolicyFilter) -> usize
    ensures { result ≡ count_by (policy_meets filter.now) policies.now }
{
    policies.iter().filter(|p| filter.admits(p)).count()
}

/// How many are of a ptype, or all.
pub fn count_of_ptype(policies: &[Policy], ptype: Option<Ptype>) -> usize
    ensures { result ≡ count_by (λ p. meets_one same_ptype ptype p.spec.ptype) policies.now }
{
    policies
        .iter()
        .filter(|p| meets_ptype(ptype, p.spec.ptype))
        .count()
}

/// How many are of a direction.
pub fn count_of_dir(policies: &[Policy], dir: Dir) -> usize
    ensures { result ≡ count_by (λ p. same_dir p.spec.dir dir) policies.now }
{
    policies.iter().filter(|p| p.spec.dir == dir).count()
}

/// Those that the filter admits, in order.
pub fn list_admitted(
    alloc: Global,
    policies: &[Policy],
    wanted: &PolicyFilter,
) -> Result<Vec<Policy>, AllocError>
    ensures { IfOk result (λ v. v.items ≡ filter (policy_meets wanted.now) policies.now) }
{
    let mut admitted = Vec::new(alloc);
    for policy in policies {
        if wanted.admits(policy) {
            admitted.push(policy.copy())?;
        }
    }
    Ok(admitted)
}
