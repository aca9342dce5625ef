//! The order of a history.
ghost use Rattle.std.specs.Prelude.{◌↔◌, IsTrue};
ghost use Rattle.xf_types.specs.History.{IsIncreasing};

use xf_types::Receipt;

/// Whether the numbers increase.
pub fn is_increasing(list: &[Receipt]) -> bool
    ensures { IsTrue result ↔ IsIncreasing list.now }
{
    for place in 1..list.len() {
        if list[place - 1].number >= list[place].number {
            return false;
        }
    }
    true
}
