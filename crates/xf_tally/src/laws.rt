//! What follows from the definition of a summary.
ghost use Rattle.std.specs.Prelude.{◌≡◌, ℕ, List};
ghost use Rattle.std.specs.List.Sorted.{IsPermutation};
ghost use Rattle.xf_types.specs.declared.call.Receipt.{Receipt};
ghost use Rattle.xf_tally.specs.Summary.{summary_of};

/// The summary doesn't depend on the order of the receipts.
pub fn any_order()
    ensures { (lines : ℕ) (g h : List Receipt) → IsPermutation g h → summary_of lines h ≡ summary_of lines g }
{}
