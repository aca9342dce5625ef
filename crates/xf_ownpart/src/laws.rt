//! Laws of the own part: what it says, and that each step keeps it, whatever image words mean.
ghost use Rattle.xf_ownpart.specs.Begins.{OwnBegins};
ghost use Rattle.xf_ownpart.specs.OwnSays.{OwnSays};
ghost use Rattle.xf_ownpart.specs.OwnLaws.{TicketKeepsOwn, ServingKeepsOwn, BeginKeepsOwn, StoreKeepsOwn, DrawKeepsOwn, FinishKeepsOwn, LeaveKeepsOwn, LoadGenerationKeepsOwn, LoadWordKeepsOwn, PinKeepsOwn, UnpinKeepsOwn, LoadPinKeepsOwn, TakeTurnKeepsOwn, GiveTurnKeepsOwn, ValuesKeepOwn};

use crate::Lists;

/// At the beginning the own part holds, where each value stands for what its slot lists.
pub fn own_begins<T: Lists>()
    ensures { OwnBegins T.lists }
{}

/// What the own part says of a held turn, of two seats, and of a free turn.
pub fn own_says<T: Lists>()
    ensures { OwnSays T.bucket_of T.good T.lists }
{}

/// A ticket that is drawn keeps the own part.
pub fn ticket_keeps_own<T: Lists>()
    ensures { TicketKeepsOwn T.bucket_of T.good T.lists }
{}

/// A load of the ticket that is served keeps it.
pub fn serving_keeps_own<T: Lists>()
    ensures { ServingKeepsOwn T.bucket_of T.good T.lists }
{}

/// An opening that begins keeps it.
pub fn begin_keeps_own<T: Lists>()
    ensures { BeginKeepsOwn T.bucket_of T.good T.lists }
{}

/// A store keeps it: the settled image stays.
pub fn store_keeps_own<T: Lists>()
    ensures { StoreKeepsOwn T.bucket_of T.good T.lists }
{}

/// A draw keeps it, each of its ways: a receipt that rests on a state's own part changes what the state's turn keeps; a move leaves what slots
/// list whose turns aren't held.
pub fn draw_keeps_own<T: Lists>()
    ensures { DrawKeepsOwn T.bucket_of T.good T.lists }
{}

/// An opening that ends keeps it.
pub fn finish_keeps_own<T: Lists>()
    ensures { FinishKeepsOwn T.bucket_of T.good T.lists }
{}

/// A turn that is given back keeps it.
pub fn leave_keeps_own<T: Lists>()
    ensures { LeaveKeepsOwn T.bucket_of T.good T.lists }
{}

/// A load of the generation keeps it, also where the receipt of a trial comes to stand before others.
pub fn load_generation_keeps_own<T: Lists>()
    ensures { LoadGenerationKeepsOwn T.bucket_of T.good T.lists }
{}

/// A load of an image word keeps it.
pub fn load_word_keeps_own<T: Lists>()
    ensures { LoadWordKeepsOwn T.bucket_of T.good T.lists }
{}

/// A pin that is set keeps it.
pub fn pin_keeps_own<T: Lists>()
    ensures { PinKeepsOwn T.bucket_of T.good T.lists }
{}

/// A pin that is cleared keeps it.
pub fn unpin_keeps_own<T: Lists>()
    ensures { UnpinKeepsOwn T.bucket_of T.good T.lists }
{}

/// A load of a pin word keeps it.
pub fn load_pin_keeps_own<T: Lists>()
    ensures { LoadPinKeepsOwn T.bucket_of T.good T.lists }
{}

/// A slot's turn that is asked for keeps it: one that is taken keeps what the value at home stands for.
pub fn take_turn_keeps_own<T: Lists>()
    ensures { TakeTurnKeepsOwn T.bucket_of T.good T.lists }
{}

/// A slot's turn that is given back keeps it, where the value at home stands for what the turn keeps.
pub fn give_turn_keeps_own<T: Lists>()
    ensures { GiveTurnKeepsOwn T.bucket_of T.good T.lists }
{}

/// What becomes of values whose slots' turns a seat holds keeps it.
pub fn values_keep_own<T: Lists>()
    ensures { ValuesKeepOwn T.bucket_of T.good T.lists }
{}
