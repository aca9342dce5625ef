//! From fields to the worker of the lines that follow.
ghost use Rattle.std.specs.Prelude.{◌≡◌};
ghost use Rattle.xf_read.specs.Workers as rule;

use crate::reader::Item;
use xf_grammar::{Fields, Slot, u32_at};
use xf_types::Reason;

/// The worker to which the lines that follow belong.
#[tactic(auto, unfolding(crate::specs::Workers::worker_of))]
#[inline(never)]
pub(crate) fn read_worker(fields: &Fields) -> Result<Item, Reason>
    ensures { result ≡ rule.worker_of fields.now }
{
    let worker = u32_at(fields, Slot::Worker).ok_or(Reason::Missing)?;
    Ok(Item::Worker(worker))
}
