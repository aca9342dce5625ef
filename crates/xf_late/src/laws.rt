//! Laws of receipts and own parts.
ghost use Rattle.xf_late.specs.LateLaws.{ReceiptLaws, LateLaws};

/// What each receipt does to the own part of each state that stays listed, and what one begins with that is listed anew.
pub fn receipts()
    ensures { ReceiptLaws }
{}

/// A receipt that comes to stand before others to which it is no matter leaves the history legal. To the machine after it it does what it
/// would do there as the last one.
pub fn late_receipts()
    ensures { LateLaws }
{}
