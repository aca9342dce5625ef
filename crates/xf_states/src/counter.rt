//! The acquire counter: the sequence numbers of states that flows ask for.
ghost use Rattle.std.specs.Prelude.{◌≡◌, ◌<◌, ◌≤◌};
ghost use Rattle.xf_types.specs.Counters.{next_in};
ghost use Rattle.xf_types.specs.FlowRules.{last_seq};

/// The acquire number after this one, in cyclic order from 1.
pub fn next_seq(seq: u32) -> u32
    ensures value { result ≡ next_in last_seq seq }
    ensures low { 0 < result }
    ensures high { result ≤ last_seq }
{
    if seq == u32::MAX { 1 } else { seq + 1 }
}
