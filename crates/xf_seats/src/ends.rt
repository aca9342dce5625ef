//! Laws of the end of a table.
ghost use Rattle.xf_seats.specs.Ends.{EndHasAll, PartsAreAll, PartsAreApart, MergedIsHistory};

/// When worker 0 took in all others, its lists are the parts of the history, and it is alone.
pub fn end_has_all()
    ensures { EndHasAll }
{}

/// The parts together are the history in another order.
pub fn parts_are_all()
    ensures { PartsAreAll }
{}

/// No two of their receipts have one number.
pub fn parts_are_apart()
    ensures { PartsAreApart }
{}

/// What they are by number is the history.
pub fn merged_is_history()
    ensures { MergedIsHistory }
{}
