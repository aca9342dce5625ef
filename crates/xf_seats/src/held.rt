//! Laws of the part on held turns.
ghost use Rattle.xf_seats.specs.HeldLaws.{OneSeatHeld, OthersKeepHeld, DrawsHold, TakeKeepsHeld, GiveKeepsHeld, SplitKeepsHeld, JoinKeepsHeld, AloneAllFree};

/// For one seat the part on held turns holds, where all turns are free.
pub fn one_seat_held()
    ensures { OneSeatHeld }
{}

/// A step that takes no slot's turn and gives none back keeps it.
pub fn others_keep_held()
    ensures { OthersKeepHeld }
{}

/// A draw is such a step.
pub fn draws_hold()
    ensures { DrawsHold }
{}

/// A slot's turn that is taken keeps it.
pub fn take_keeps_held()
    ensures { TakeKeepsHeld }
{}

/// A slot's turn that is given back keeps it.
pub fn give_keeps_held()
    ensures { GiveKeepsHeld }
{}

/// A seat that splits off another one keeps it.
pub fn split_keeps_held()
    ensures { SplitKeepsHeld }
{}

/// A seat that takes in another one, which holds no turn, keeps it.
pub fn join_keeps_held()
    ensures { JoinKeepsHeld }
{}

/// Where one seat is there, and holds no turn, all turns are free.
pub fn alone_all_free()
    ensures { AloneAllFree }
{}
