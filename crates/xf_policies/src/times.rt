//! What a time does to a policy. Times are in seconds. No use limit of a policy is enforced.
ghost use Rattle.std.specs.Prelude.{◌≡◌};
ghost use Rattle.xf_types.specs.TickRules as rule;

use xf_life::{Verdict, by_time};
use xf_types::Policy;

/// Whether time ends the policy.
pub(crate) fn ends(policy: &Policy, now: u64) -> bool
    ensures { result ≡ rule.policy_ends now policy.now }
{
    by_time(&policy.spec.limits, policy.added, None, now) == Verdict::Hard
}

/// Whether time newly warns of the policy's end.
pub(crate) fn warns(policy: &Policy, now: u64) -> bool
    ensures { result ≡ rule.policy_warns now policy.now }
{
    !policy.soft && by_time(&policy.spec.limits, policy.added, None, now) == Verdict::Soft
}
