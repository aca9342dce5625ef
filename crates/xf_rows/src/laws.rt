//! Laws of the definitions. No code calls these functions; proofs cite the lemmas.
ghost use Rattle.xf_rows.specs.LookupLaws.{LookupLaws};
ghost use Rattle.xf_rows.specs.PlaceLaws.{PlaceLaws};
ghost use Rattle.xf_rows.specs.ReplyLaws.{ReplyLaws};
ghost use Rattle.xf_rows.specs.RowLaws.{RowLaws};
ghost use Rattle.xf_rows.specs.ShownLaws.{ShownLaws};
ghost use Rattle.xf_rows.specs.TimeLaws.{TimeLaws};
ghost use Rattle.xf_rows.specs.TrafficLaws.{TrafficLaws};

/// Words of others don't matter, and a change of policies leaves the states.
pub fn in_place()
    ensures { PlaceLaws }
{}

/// What rows that leave, come or change make of words and values.
pub fn rows()
    ensures { RowLaws }
{}

/// What a lookup found is the machine's.
pub fn lookups()
    ensures { LookupLaws }
{}

/// A packet or an output is the machine's where the words follow the value's reply.
pub fn traffic()
    ensures { TrafficLaws }
{}

/// What time makes of words and values.
pub fn time()
    ensures { TimeLaws }
{}

/// The replies that a call may give.
pub fn replies()
    ensures { ReplyLaws }
{}

/// Words and values tell one machine.
pub fn shown()
    ensures { ShownLaws }
{}
