//! The verdicts by time, by count, and by both. Times are in seconds. Sums stop at the greatest number of 64 bits.
ghost use Rattle.std.specs.Prelude.{◌≡◌};
ghost use Rattle.xf_life.specs.Shown.{shown};
ghost use Rattle.xf_types.specs.Lifetime as life;

use crate::Verdict;
use xf_types::Limits;

fn is_time_met(limit: u64, since: u64, now: u64) -> bool
    ensures { result ≡ life.is_time_met limit since now }
{
    limit > 0 && since.saturating_add(limit) <= now
}

fn is_use_met(limit: u64, first: Option<u64>, now: u64) -> bool
    ensures { result ≡ life.is_use_met limit first now }
{
    match first {
        None => false,
        Some(first) => is_time_met(limit, first, now),
    }
}

fn is_count_met(limit: Option<u64>, count: u64) -> bool
    ensures { result ≡ life.is_count_met limit count }
{
    match limit {
        None => false,
        Some(limit) => limit <= count,
    }
}

/// The verdict of the time limits, of what was added and first used at these times.
pub fn by_time(limits: &Limits, added: u64, first: Option<u64>, now: u64) -> Verdict
    ensures { shown result ≡ life.by_time limits.now added first now }
{
    Verdict::of_flags(
        is_time_met(limits.time_hard, added, now) || is_use_met(limits.use_hard, first, now),
        is_time_met(limits.time_soft, added, now) || is_use_met(limits.use_soft, first, now),
    )
}

/// The verdict of the packet and byte limits, of what carried so many so far.
pub fn by_count(limits: &Limits, packets: u64, bytes: u64) -> Verdict
    ensures { shown result ≡ life.by_count limits.now packets bytes }
{
    Verdict::of_flags(
        is_count_met(limits.packet_hard, packets) || is_count_met(limits.byte_hard, bytes),
        is_count_met(limits.packet_soft, packets) || is_count_met(limits.byte_soft, bytes),
    )
}

/// The verdict of all limits: the graver of both.
pub fn verdict(
    limits: &Limits,
    added: u64,
    first: Option<u64>,
    packets: u64,
    bytes: u64,
    now: u64,
) -> Verdict
    ensures { shown result ≡ life.verdict_of limits.now added first packets bytes now }
{
    by_time(limits, added, first, now).graver(by_count(limits, packets, bytes))
}
