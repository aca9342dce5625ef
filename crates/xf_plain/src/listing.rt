//! Walks over the policy list: where a policy stands, and the policy that a flow gets.
ghost use Rattle.std.specs.Prelude.{◌≡◌, ◌≤◌, ◌<◌, length, find, position, option_copied, OnOk, OnErr, IfOk, IsOk, count_by, not, vec_capacity};
ghost use Rattle.std.specs.List.{list_any, position_or_len};
ghost use Rattle.xf_types.specs.PolicyList.{applies, comes_after, inserted, is_same, has_index, has_key, first_policy};

use crate::indices;
use xf_types::{Flow, NoMemory, Policy, PolicyKey, PolicySpec, Ptype, same_policy};

/// Where the first policy stands that comes after this one.
fn first_after(policies: &[Policy], policy: &Policy) -> Option<usize>
    ensures { result ≡ position (λ q. comes_after q policy.now) policies.now }
{
    policies.iter().position(|q| q.comes_after(policy))
}

/// How many policies stand before this one's place.
fn place_of(policies: &[Policy], policy: &Policy) -> usize
    ensures place { result ≡ position_or_len (λ q. comes_after q policy.now) policies.now }
    ensures within { result ≤ length policies.now }
{
    first_after(policies, policy).unwrap_or(policies.len())
}

/// Puts the policy to its place.
pub fn insert(policies: &mut Vec<Policy>, policy: Policy) -> Result<(), NoMemory>
    ensures ok { OnOk result (policies.new.items ≡ inserted policy policies.old.items) }
    ensures err { OnErr result (policies.new.items ≡ policies.old.items) }
    ensures succeeds { length policies.old.items < vec_capacity policies.old → IsOk result }
{
    let place = place_of(policies.as_slice(), &policy);
    match policies.insert(place, policy) {
        Ok(()) => Ok(()),
        Err(_) => Err(NoMemory),
    }
}

/// The policy that is the same, if one is listed.
pub fn find_same<'a>(policies: &'a [Policy], spec: &PolicySpec) -> Option<&'a Policy>
    ensures { option_copied result ≡ find (λ p. is_same p.spec spec.now) policies.now }
{
    policies.iter().find(|p| same_policy(&p.spec, spec))
}

/// The policy that the key names, if one is listed.
pub fn find_key<'a>(policies: &'a [Policy], key: &PolicyKey) -> Option<&'a Policy>
    ensures { option_copied result ≡ find (has_key key.now) policies.now }
{
    policies.iter().find(|p| key.names(p))
}

/// The first policy of this kind that applies to the flow.
fn find_applying<'a>(policies: &'a [Policy], ptype: Ptype, flow: &Flow) -> Option<&'a Policy>
    ensures { option_copied result ≡ find (applies ptype flow.now) policies.now }
{
    policies.iter().find(|p| p.applies(ptype, flow))
}

/// The policy that the flow gets.
pub fn find_first<'a>(policies: &'a [Policy], flow: &Flow) -> Option<&'a Policy>
    ensures { option_copied result ≡ first_policy policies.now flow.now }
{
    match find_applying(policies, Ptype::Sub, flow) {
        Some(policy) => Some(policy),
        None => find_applying(policies, Ptype::Main, flow),
    }
}

/// The same policies once more.
pub fn copies(policies: &Vec<Policy>) -> Result<Vec<Policy>, NoMemory>
    ensures { IfOk result (λ v. v.items ≡ policies.now.items) }
{
    match policies.clone() {
        Ok(copies) => Ok(copies),
        Err(_) => Err(NoMemory),
    }
}

/// How many of the policies have no index of the other list.
pub fn count_gone(policies: &[Policy], later: &[Policy]) -> usize
    ensures { result ≡ count_by (λ p. not (list_any (has_index p.index) later.now)) policies.now }
{
    policies
        .iter()
        .filter(|p| !indices::is_taken(later, p.index))
        .count()
}
