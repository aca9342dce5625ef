//! Laws of the turn part: what it says, and that each step keeps it.
ghost use Rattle.xf_views.specs.TurnLaws.{TicketKeepsTurn, ServingKeepsTurn, BeginKeepsTurn, StoreKeepsTurn, DrawKeepsTurn, FinishKeepsTurn, LeaveKeepsTurn, LoadGenerationKeepsTurn, LoadWordKeepsTurn, PinKeepsTurn, UnpinKeepsTurn, LoadPinKeepsTurn, TakeTurnKeepsTurn, GiveTurnKeepsTurn};
ghost use Rattle.xf_views.specs.Starts.{TurnBegins};
ghost use Rattle.xf_views.specs.TurnSays.{TurnSays};

/// At the beginning the turn part holds.
pub fn turn_begins()
    ensures { TurnBegins }
{}

/// What the turn part says of the numbers and of any two seats.
pub fn turn_says()
    ensures { TurnSays }
{}

/// A ticket that is drawn keeps the turn part.
pub fn ticket_keeps_turn()
    ensures { TicketKeepsTurn }
{}

/// A load of the ticket that is served keeps it: the seat with that ticket gets the turn, and no other.
pub fn serving_keeps_turn()
    ensures { ServingKeepsTurn }
{}

/// An opening that begins keeps it: the generation gets odd.
pub fn begin_keeps_turn()
    ensures { BeginKeepsTurn }
{}

/// A store of an image word keeps it.
pub fn store_keeps_turn()
    ensures { StoreKeepsTurn }
{}

/// A draw keeps it, each of its ways.
pub fn draw_keeps_turn()
    ensures { DrawKeepsTurn }
{}

/// An opening that ends keeps it: it drew its move.
pub fn finish_keeps_turn()
    ensures { FinishKeepsTurn }
{}

/// A turn that is given back keeps it.
pub fn leave_keeps_turn()
    ensures { LeaveKeepsTurn }
{}

/// A load of the generation keeps it, also where the receipt of a trial comes to stand.
pub fn load_generation_keeps_turn()
    ensures { LoadGenerationKeepsTurn }
{}

/// A load of an image word keeps it.
pub fn load_word_keeps_turn()
    ensures { LoadWordKeepsTurn }
{}

/// A pin that is set keeps it.
pub fn pin_keeps_turn()
    ensures { PinKeepsTurn }
{}

/// A pin that is cleared keeps it.
pub fn unpin_keeps_turn()
    ensures { UnpinKeepsTurn }
{}

/// A load of a pin word keeps it.
pub fn load_pin_keeps_turn()
    ensures { LoadPinKeepsTurn }
{}

/// A slot's turn that is asked for keeps it, taken or not.
pub fn take_turn_keeps_turn()
    ensures { TakeTurnKeepsTurn }
{}

/// A slot's turn that is given back keeps it.
pub fn give_turn_keeps_turn()
    ensures { GiveTurnKeepsTurn }
{}
