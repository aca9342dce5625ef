//! Rows by RFC 4301, 4.4.2.1, and the rules of this profile: how verdicts look to a caller in Rust.
use crate::{Verdict, by_count, by_time, verdict};
use std::test::Fail;
use xf_types::Limits;

fn times(soft: u64, hard: u64) -> Limits {
    let mut limits = Limits::none();
    limits.time_soft = soft;
    limits.time_hard = hard;
    limits
}

fn uses(soft: u64, hard: u64) -> Limits {
    let mut limits = Limits::none();
    limits.use_soft = soft;
    limits.use_hard = hard;
    limits
}

fn packets(soft: Option<u64>, hard: Option<u64>) -> Limits {
    let mut limits = Limits::none();
    limits.packet_soft = soft;
    limits.packet_hard = hard;
    limits
}

fn bytes(soft: Option<u64>, hard: Option<u64>) -> Limits {
    let mut limits = Limits::none();
    limits.byte_soft = soft;
    limits.byte_hard = hard;
    limits
}

#[test]
fn times_are_met(rt: HostRuntime) -> Result<(), Fail> {
    // Limits, when it was added, when it was first used, the time, and the verdict.
    for (limits, added, first, now, answer) in [
        (times(0, 0), 0, None, u64::MAX, Verdict::Fine),
        (times(10, 20), 5, None, 14, Verdict::Fine),
        (times(10, 20), 5, None, 15, Verdict::Soft),
        (times(10, 20), 5, None, 24, Verdict::Soft),
        (times(10, 20), 5, None, 25, Verdict::Hard),
        (times(20, 10), 5, None, 15, Verdict::Hard),
        (uses(10, 20), 5, None, 1000, Verdict::Fine),
        (uses(10, 20), 5, Some(100), 109, Verdict::Fine),
        (uses(10, 20), 5, Some(100), 110, Verdict::Soft),
        (uses(10, 20), 5, Some(100), 120, Verdict::Hard),
        // A sum stops at the greatest number.
        (times(0, u64::MAX), 1, None, u64::MAX - 1, Verdict::Fine),
        (times(0, u64::MAX), 1, None, u64::MAX, Verdict::Hard),
    ] {
        assert_eq!(rt;
            by_time(&limits, added, first, now),
            answer,
            "{limits:?} since {added} and {first:?} at {now}"
        );
    }
    Ok(())
}

#[test]
fn counts_are_met(rt: HostRuntime) -> Result<(), Fail> {
    // Limits, packets and bytes so far, and the verdict.
    for (limits, carried, size, answer) in [
        (packets(None, None), u64::MAX, u64::MAX, Verdict::Fine),
        (packets(Some(2), Some(3)), 1, 0, Verdict::Fine),
        (packets(Some(2), Some(3)), 2, 0, Verdict::Soft),
        (packets(Some(2), Some(3)), 3, 0, Verdict::Hard),
        // A limit of 0 is a limit.
        (packets(None, Some(0)), 0, 0, Verdict::Hard),
        (bytes(Some(0), None), 0, 0, Verdict::Soft),
        (bytes(Some(100), Some(200)), 9, 99, Verdict::Fine),
        (bytes(Some(100), Some(200)), 9, 200, Verdict::Hard),
    ] {
        assert_eq!(rt;
            by_count(&limits, carried, size),
            answer,
            "{limits:?} after {carried} and {size}"
        );
    }
    Ok(())
}

#[test]
fn graver_one_is_told(rt: HostRuntime) -> Result<(), Fail> {
    let mut limits = packets(Some(1), None);
    limits.time_hard = 10;
    assert_eq!(rt; verdict(&limits, 0, None, 0, 0, 9), Verdict::Fine);
    assert_eq!(rt; verdict(&limits, 0, None, 1, 0, 9), Verdict::Soft);
    assert_eq!(rt; verdict(&limits, 0, None, 1, 0, 10), Verdict::Hard);
    Ok(())
}
