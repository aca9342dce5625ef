//! Laws of seats that are split off and taken in.
ghost use Rattle.xf_seats.specs.FirstSeat.{OneSeatTurn, OneSeatLife};
ghost use Rattle.xf_seats.specs.Joins.{JoinKeepsTurn, JoinKeepsLife};
ghost use Rattle.xf_seats.specs.LifeLaws.{QuietKeepsLife, DrawKeepsLife, SettleKeepsLife};
ghost use Rattle.xf_seats.specs.Small.{NumbersAreSmall};
ghost use Rattle.xf_seats.specs.Splits.{SplitKeepsTurn, SplitKeepsLife};

/// For one seat the turn part holds.
pub fn one_seat_turn()
    ensures { OneSeatTurn }
{}

/// For one seat the life part holds.
pub fn one_seat_life()
    ensures { OneSeatLife }
{}

/// A step that leaves the history keeps the life part.
pub fn quiet_keeps_life()
    ensures { QuietKeepsLife }
{}

/// A draw keeps it.
pub fn draw_keeps_life()
    ensures { DrawKeepsLife }
{}

/// The end of a read keeps it, where the receipt of its trial comes to stand.
pub fn settle_keeps_life()
    ensures { SettleKeepsLife }
{}

/// A seat that splits off another one keeps the turn part: one seat more is made.
pub fn split_keeps_turn()
    ensures { SplitKeepsTurn }
{}

/// It keeps the life part.
pub fn split_keeps_life()
    ensures { SplitKeepsLife }
{}

/// A seat that takes in another one keeps the turn part.
pub fn join_keeps_turn()
    ensures { JoinKeepsTurn }
{}

/// It keeps the life part: it has the receipts of one worker more.
pub fn join_keeps_life()
    ensures { JoinKeepsLife }
{}

/// No number is greater than 16 seats can make it.
pub fn numbers_are_small()
    ensures { NumbersAreSmall }
{}
