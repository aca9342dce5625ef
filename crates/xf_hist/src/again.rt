//! Calls that were given up.
ghost use Rattle.std.specs.Prelude.{◌≡◌, ◌↔◌, ◌≤◌, IsTrue, reverse};
ghost use Rattle.xf_types.specs.History.{may_be_again, moves_since};

use xf_types::Receipt;

/// Whether the call may have been given up here after so many tries.
pub fn is_again(past: &[Receipt], receipt: &Receipt, tries: u32) -> bool
    ensures { IsTrue result
        ↔ (IsTrue (may_be_again receipt.now.call) × (1 ≤ tries) × (tries ≤ moves_since receipt.now.worker (reverse past.now))) }
{
    receipt.call.may_be_again() && 1 <= tries && tries as usize <= moves_since(receipt.worker, past)
}

/// How many receipts of others moved since the worker's own before, or since the beginning.
fn moves_since(worker: u32, past: &[Receipt]) -> usize
    ensures { result ≡ moves_since worker (reverse past.now) }
{
    let mut moves = 0;
    for receipt in past {
        moves = if receipt.worker == worker {
            0
        } else if receipt.reply.is_moving() {
            moves + 1
        } else {
            moves
        };
    }
    moves
}
