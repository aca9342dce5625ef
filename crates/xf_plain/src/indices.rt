//! Fresh indexes of policies.
ghost use Rattle.std.specs.Prelude.{◌≡◌, ◌+◌, ◌*◌, ◌<◌, ◌≤◌, length};
ghost use Rattle.std.specs.List.{list_any};
ghost use Rattle.xf_types.specs.Counters.{first_free, next_in};
ghost use Rattle.xf_types.specs.PolicyList.{has_index};
ghost use Rattle.xf_types.specs.PolicyRules.{last_index};
ghost use Rattle.xf_types.specs.Same.{dir_number};

use xf_types::{Dir, Policy};

/// The greatest value of the index counter: the index of a policy is 8 times it and the direction's number.
const LAST_INDEX: u32 = (1 << 29) - 1;

/// Whether a policy has this index.
pub fn is_taken(policies: &[Policy], index: u32) -> bool
    ensures { result ≡ list_any (has_index index) policies.now }
{
    policies.iter().any(|p| p.index == index)
}

/// The number after `k`, in cyclic order from 1.
pub fn next_number(k: u32) -> u32
    requires { k ≤ last_index }
    ensures value { result ≡ next_in last_index k }
    ensures low { 0 < result }
    ensures high { result ≤ last_index }
{
    if k == LAST_INDEX { 1 } else { k + 1 }
}

/// The first number, in cyclic order from this one, whose index is free.
pub fn free_number(policies: &[Policy], dir: Dir, from: u32) -> u32
    requires low { 0 < from }
    requires high { from ≤ last_index }
    ensures value { result
        ≡ first_free (λ k. list_any (has_index (8 * k + dir_number dir)) policies.now) last_index from
        (length policies.now) }
    ensures low { 0 < result }
    ensures high { result ≤ last_index }
{
    let mut k = from;
    'tries: for _tries in 0..policies.len() {
        if !is_taken(policies, 8 * k + dir.number()) {
            return k;
        }
        k = next_number(k);
    }
    k
}
