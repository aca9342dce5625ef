//! Whether a list of receipts is the history of a machine.
ghost use Rattle.std.specs.Prelude.{◌↔◌, ◌≤◌, ◌<◌, ◌^◌, length, IfOk, IsTrue};
ghost use Rattle.xf_types.specs.History.{beginning, IsLegalFrom, IsLegalHistory};

use crate::moment::Moment;
use crate::order::is_increasing;
use xf_plain::Plain;
use xf_types::{NoMemory, Receipt};

/// Whether the list is a history that the machine could have had from here on. The machine has to be young.
pub fn is_legal(start: &Plain, list: &[Receipt]) -> Result<bool, NoMemory>
    requires numbers { start.now.shown.next_number ≤ 2 ^ 62 }
    requires sids { start.now.shown.next_sid ≤ 2 ^ 62 }
    requires few { length list.now < 2 ^ 62 }
    ensures { IfOk result (λ b. IsTrue b ↔ IsLegalHistory start.now list.now) }
{
    if !is_increasing(list) {
        return Ok(false);
    }
    is_legal_from(start.copy()?, list)
}

/// Whether each reply may stand at its moment.
fn is_legal_from(start: Plain, list: &[Receipt]) -> Result<bool, NoMemory>
    requires numbers { start.shown.next_number ≤ 2 ^ 62 }
    requires sids { start.shown.next_sid ≤ 2 ^ 62 }
    requires few { length list.now < 2 ^ 62 }
    ensures { IfOk result (λ b. IsTrue b ↔ IsLegalFrom (beginning start) list.now) }
{
    let mut moment = Moment {
        machine: start,
        policies_removed: 0,
        states_removed: 0,
    };
    for place in 0..list.len() {
        if !moment.goes_on(&list[..place], &list[place])? {
            return Ok(false);
        }
    }
    Ok(true)
}
