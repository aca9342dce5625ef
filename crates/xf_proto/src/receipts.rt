//! The receipts that stand, by number.
ghost use Rattle.std.specs.Prelude.{◌≡◌, ◌<◌, IfErr, OnOk, position, IfSome, None, OnErr, length, nat_lt, not};
ghost use Rattle.xf_proto.specs.Effects.{placed, settled_with};

use xf_types::{NoMemory, Receipt};

/// Where the first receipt stands whose number isn't below this one.
fn place_of(receipts: &[Receipt], number: u64) -> Option<usize>
    ensures place { result ≡ position (λ q. not (nat_lt q.number number)) receipts.now }
    ensures within { IfSome result (λ place. place < length receipts.now) }
{
    receipts.iter().position(|q| !(q.number < number))
}

/// Puts the receipt among the others by its number, or gives it back.
fn place(receipts: &mut Vec<Receipt>, receipt: Receipt) -> Result<(), Receipt>
    ensures ok { OnOk result (receipts.new.items ≡ placed receipt receipts.old.items) }
    ensures err { IfErr result (λ r. (r ≡ receipt) × (receipts.new.items ≡ receipts.old.items)) }
{
    let place = place_of(receipts, receipt.number).unwrap_or(receipts.len());
    match receipts.insert(place, receipt) {
        Ok(()) => Ok(()),
        Err(failed) => Err(failed.value),
    }
}

/// Takes the receipt that waits; where its read ended the same, it comes to stand.
pub(crate) fn settle(
    receipts: &mut Vec<Receipt>,
    pending: &mut Option<Receipt>,
    same: bool,
) -> Result<(), NoMemory>
    ensures ok { OnOk result ((receipts.new.items ≡ settled_with same pending.old receipts.old.items) × (pending.new ≡ None)) }
    ensures err { OnErr result ((receipts.new.items ≡ receipts.old.items) × (pending.new ≡ pending.old)) }
{
    let Some(receipt) = pending.take() else {
        return Ok(());
    };
    if !same {
        return Ok(());
    }
    if let Err(receipt) = place(receipts, receipt) {
        *pending = Some(receipt);
        return Err(NoMemory);
    }
    Ok(())
}
