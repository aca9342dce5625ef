//! From fields to the passing of time.
ghost use Rattle.std.specs.Prelude.{◌≡◌};
ghost use Rattle.xf_read.specs.Ticks as rule;

use crate::reader::Item;
use xf_grammar::{Fields, Slot, Value, value_at};
use xf_types::{Call, Reason};

/// The time to which a line lets time go on.
#[inline(never)]
pub(crate) fn read_tick(fields: &Fields) -> Result<Item, Reason>
    ensures { result ≡ rule.tick_of fields.now }
{
    match value_at(fields, Slot::Time) {
        Some(Value::Now) => Ok(Item::TickNow),
        Some(Value::U64(now)) => Ok(Item::One(Call::Tick(now))),
        _ => Err(Reason::Missing),
    }
}
