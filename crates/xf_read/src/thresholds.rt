//! From fields to thresholds.
ghost use Rattle.std.specs.Prelude.{◌≡◌};
ghost use Rattle.xf_types.specs.Facts.{IsThresholds};
ghost use Rattle.xf_read.specs.Thresholds as rule;

use xf_grammar::{Fields, Slot, u8_at};
use xf_types::{Reason, Thresholds};

/// A pair of lengths, no longer than an address. The table's range says the same, but a pair doesn't know its table.
fn lengths(most: u8, local: Option<u8>, remote: Option<u8>) -> Option<(u8, u8)>
    ensures { result ≡ rule.lengths most local remote }
{
    match (local, remote) {
        (Some(local), Some(remote)) => Some((local.min(most), remote.min(most))),
        _ => None,
    }
}

/// The thresholds that a line gives.
fn thresholds_of(fields: &Fields) -> Thresholds
    ensures { result ≡ rule.thresholds_of fields.now }
{
    Thresholds {
        v4: lengths(
            32,
            u8_at(fields, Slot::Local4),
            u8_at(fields, Slot::Remote4),
        ),
        v6: lengths(
            128,
            u8_at(fields, Slot::Local6),
            u8_at(fields, Slot::Remote6),
        ),
    }
}

pub(crate) fn read_thresholds(fields: &Fields) -> Result<Thresholds, Reason>
    ensures { result ≡ rule.some_thresholds (rule.thresholds_of fields.now) }
{
    let thresholds = thresholds_of(fields);
    if thresholds.v4.is_some() || thresholds.v6.is_some() {
        Ok(thresholds)
    } else {
        Err(Reason::Missing)
    }
}
