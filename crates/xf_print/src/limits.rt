//! Limits.
ghost use Rattle.std.specs.Prelude.{◌≡◌, ◌++◌, OnOk};
ghost use Rattle.xf_print.specs.Limits.{limit_text, time_text, count_text, times_text, counts_text, limits_text};

use crate::put::{put, put_number};
use xf_types::{Limits, NoMemory};

#[tactic(auto, unfolding(crate::specs::Limits::limit_text))]
fn put_limit(out: &mut Vec<u8>, kind: &[u8], limit: u64) -> Result<(), NoMemory>
    ensures { OnOk result (out.new.items ≡ out.old.items ++ limit_text kind.now limit) }
{
    put(out, b" limit ")?;
    put(out, kind)?;
    put_number(out, b" ", limit)
}

#[tactic(auto, unfolding(crate::specs::Limits::time_text))]
fn put_time(out: &mut Vec<u8>, kind: &[u8], seconds: u64) -> Result<(), NoMemory>
    ensures { OnOk result (out.new.items ≡ out.old.items ++ time_text kind.now seconds) }
{
    if seconds == 0 {
        Ok(())
    } else {
        put_limit(out, kind, seconds)
    }
}

#[tactic(auto, unfolding(crate::specs::Limits::count_text))]
fn put_count(out: &mut Vec<u8>, kind: &[u8], limit: Option<u64>) -> Result<(), NoMemory>
    ensures { OnOk result (out.new.items ≡ out.old.items ++ count_text kind.now limit) }
{
    match limit {
        None => Ok(()),
        Some(limit) => put_limit(out, kind, limit),
    }
}

#[tactic(auto, unfolding(crate::specs::Limits::times_text))]
fn put_times(out: &mut Vec<u8>, limits: &Limits) -> Result<(), NoMemory>
    ensures { OnOk result (out.new.items ≡ out.old.items ++ times_text limits.now) }
{
    put_time(out, b"time-soft", limits.time_soft)?;
    put_time(out, b"time-hard", limits.time_hard)?;
    put_time(out, b"time-use-soft", limits.use_soft)?;
    put_time(out, b"time-use-hard", limits.use_hard)
}

#[tactic(auto, unfolding(crate::specs::Limits::counts_text))]
fn put_counts(out: &mut Vec<u8>, limits: &Limits) -> Result<(), NoMemory>
    ensures { OnOk result (out.new.items ≡ out.old.items ++ counts_text limits.now) }
{
    put_count(out, b"byte-soft", limits.byte_soft)?;
    put_count(out, b"byte-hard", limits.byte_hard)?;
    put_count(out, b"packet-soft", limits.packet_soft)?;
    put_count(out, b"packet-hard", limits.packet_hard)
}

#[tactic(auto, unfolding(crate::specs::Limits::limits_text))]
pub(crate) fn put_limits(out: &mut Vec<u8>, limits: &Limits) -> Result<(), NoMemory>
    ensures { OnOk result (out.new.items ≡ out.old.items ++ limits_text limits.now) }
{
    put_times(out, limits)?;
    put_counts(out, limits)
}
