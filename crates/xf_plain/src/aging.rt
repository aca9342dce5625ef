//! What the passing of time does to policies. Times are in seconds. No use limit of a policy is enforced.
ghost use Rattle.std.specs.Prelude.{◌≡◌, ◌++◌, OnOk, filter_map, map};
ghost use Rattle.xf_types.specs.PolicyList.{without};
ghost use Rattle.xf_types.specs.TickRules as rule;

use xf_life::{Verdict, by_time};
use xf_states::push_some;
use xf_types::{Event, NoMemory, Policy};

/// Whether time ends the policy.
fn ends(policy: &Policy, now: u64) -> bool
    ensures { result ≡ rule.policy_ends now policy.now }
{
    by_time(&policy.spec.limits, policy.added, None, now) == Verdict::Hard
}

/// Whether time newly warns of the policy's end.
fn warns(policy: &Policy, now: u64) -> bool
    ensures { result ≡ rule.policy_warns now policy.now }
{
    !policy.soft && by_time(&policy.spec.limits, policy.added, None, now) == Verdict::Soft
}

/// What is reported of the policy.
fn event(policy: &Policy, now: u64) -> Option<Event>
    ensures { result ≡ rule.policy_event now policy.now }
{
    if ends(policy, now) {
        Some(Event::PolicyExpired(policy.index))
    } else if warns(policy, now) {
        Some(Event::PolicySoft(policy.index))
    } else {
        None
    }
}

/// The policy at the new time, where it stays.
fn age(policy: &mut Policy, now: u64)
    ensures { policy.new ≡ rule.policy_later now policy.old }
{
    if warns(policy, now) {
        policy.soft = true;
    }
}

/// Those that time ends leave.
fn remove_ended(policies: &mut Vec<Policy>, now: u64)
    ensures { policies.new.items ≡ without (rule.policy_ends now) policies.old.items }
{
    policies.retain(|p| !ends(p, now));
}

/// Each at the new time.
fn age_all(policies: &mut Vec<Policy>, now: u64)
    ensures { policies.new.items ≡ map (rule.policy_later now) policies.old.items }
{
    for policy in policies.iter_mut() {
        age(policy, now);
    }
}

/// The policies at the new time: those that stay.
pub fn age_policies(policies: &mut Vec<Policy>, now: u64)
    ensures { policies.new.items ≡ map (rule.policy_later now) (without (rule.policy_ends now) policies.old.items) }
{
    remove_ended(policies, now);
    age_all(policies, now);
}

/// Puts what is reported of the policies behind the events so far.
pub fn report_policies(
    policies: &[Policy],
    now: u64,
    events: &mut Vec<Event>,
) -> Result<(), NoMemory>
    ensures { OnOk result (events.new.items ≡ events.old.items ++ filter_map (rule.policy_event now) policies.now) }
{
    for policy in policies {
        push_some(events, event(policy, now))?;
    }
    Ok(())
}
