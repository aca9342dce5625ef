//! Each row of the protocol, as one step on the table.
ghost use Rattle.std.specs.Prelude.{◌≡◌, ℕ, ◌%◌, ◌<◌, ◌^◌, true, false, Option, Some, None, List, ◌∷◌, length, slice_index, MatchBool};
ghost use Rattle.xf_views.specs.Views.{view_after_ticket, view_after_leave, view_after_begin, view_after_finish, view_after_store, view_after_load, view_after_miss, view_after_give};
ghost use Rattle.atomic_table.specs.Table.{rest};
ghost use Rattle.xf_seats.specs.Opened.{slots_of};
ghost use Rattle.xf_table.specs.Rows.{MayTicket, MayLook, MayTake, IsShut, IsOpen, IsDrawn, MayMove, MayStay, MayGive, IsHonestMove, IsHonestStay};
ghost use Rattle.xf_table.specs.Plays.{Looked, Moved, Stayed, Took};
ghost use Rattle.xf_table.specs.Tables.{IsAt};

use crate::rule::{
    Begin, DrawMove, DrawStill, Finish, GiveTurn, Leave, LoadWord, LookServing, Place, Said, Store,
    TakeTicket, TakeTurn,
};
use crate::table::Table;
use xf_seats::Meaning;
use xf_views::Entry;

/// Draws a ticket of the database's turn.
pub fn take_ticket<T: Meaning>(table: &Table<T>, place: &mut Place<T>) -> u64
    requires table { IsAt T.standing table.now place.old }
    requires row { MayTicket place.old.me.0 }
    ensures table { IsAt T.standing table.now place.new }
    ensures row { place.new.me ≡ (view_after_ticket place.old.me.0 result, place.old.me.1) }
{
    table.base.shared.fetch_add::<TakeTicket>(place, 0, 1)
}

/// Loads the ticket that is served: the seat that holds it has the turn from now on.
pub fn look_serving<T: Meaning>(table: &Table<T>, place: &mut Place<T>) -> u64
    requires table { IsAt T.standing table.now place.old }
    requires row { MayLook place.old.me.0 }
    ensures table { IsAt T.standing table.now place.new }
    ensures row { Looked T.good T.lists result place.old.me place.new.me }
{
    table.base.shared.load::<LookServing>(place, 1)
}

/// Gives the turn back.
pub fn leave<T: Meaning>(table: &Table<T>, place: &mut Place<T>)
    requires table { IsAt T.standing table.now place.old }
    requires row { IsShut place.old.me.0 }
    ensures table { IsAt T.standing table.now place.new }
    ensures row { place.new.me ≡ (view_after_leave place.old.me.0, place.old.me.1) }
{
    table.base.shared.fetch_add::<Leave>(place, 1, 1);
}

/// Makes the generation odd: image words may be stored. The result is the generation from now on.
pub fn begin<T: Meaning>(table: &Table<T>, place: &mut Place<T>) -> u64
    requires table { IsAt T.standing table.now place.old }
    requires row { IsShut place.old.me.0 }
    ensures table { IsAt T.standing table.now place.new }
    ensures row { place.new.me ≡ (view_after_begin place.old.me.0, place.old.me.1) }
    ensures generation { (result % 2 ≡ 1) × (result < 2 ^ 62) }
{
    let found = table.base.shared.fetch_add::<Begin>(place, 2, 1);
    found + 1
}

/// Makes the generation even.
pub fn finish<T: Meaning>(table: &Table<T>, place: &mut Place<T>)
    requires table { IsAt T.standing table.now place.old }
    requires row { IsDrawn place.old.me.0 }
    ensures table { IsAt T.standing table.now place.new }
    ensures row { place.new.me ≡ (view_after_finish place.old.me.0, place.old.me.1) }
{
    table.base.shared.fetch_add::<Finish>(place, 2, 1);
}

/// Replaces an image word.
pub fn store<T: Meaning>(table: &Table<T>, place: &mut Place<T>, word: usize, value: u64)
    requires table { IsAt T.standing table.now place.old }
    requires word { word < table.now.count }
    requires row { IsOpen place.old.me.0 }
    ensures table { IsAt T.standing table.now place.new }
    ensures row { place.new.me ≡ (view_after_store (slots_of place.old.me.0.life.start) place.old.me.0 word value, place.old.me.1) }
{
    table
        .base
        .shared
        .store::<Store>(place, word + table.seats + 4, value);
}

/// An image word. With the turn, it is that of the image that the seat knows.
pub fn load<T: Meaning>(table: &Table<T>, place: &mut Place<T>, word: usize) -> u64
    requires table { IsAt T.standing table.now place.old }
    requires word { word < table.now.count }
    ensures table { IsAt T.standing table.now place.new }
    ensures row { place.new.me ≡ (view_after_load place.old.me.0 word result, place.old.me.1) }
    ensures turn { place.old.me.0.hand.has_turn ≡ true → result ≡ slice_index place.old.me.0.image.words word }
{
    table
        .base
        .shared
        .load::<LoadWord>(place, word + table.seats + 4)
}

/// Draws the number of a receipt that moves, in an opening.
pub fn draw_moving<T: Meaning, E: Said>(
    table: &Table<T>,
    place: &mut Place<T>,
    entry: &Entry,
) -> u64
    requires said { E.entry ≡ Some entry.now }
    requires table { IsAt T.standing table.now place.old }
    requires row { MayMove place.old.me.0 entry.now }
    requires honest { IsHonestMove T.bucket_of T.good T.lists place.old.me.0 entry.now }
    ensures table { IsAt T.standing table.now place.new }
    ensures row { Moved T.good T.lists entry.now result place.old.me place.new.me }
{
    table.base.shared.fetch_add::<DrawMove<E>>(place, 3, 1)
}

/// Draws the number of a receipt that doesn't move, under the turn.
pub fn draw_still<T: Meaning, E: Said>(table: &Table<T>, place: &mut Place<T>, entry: &Entry) -> u64
    requires said { E.entry ≡ Some entry.now }
    requires table { IsAt T.standing table.now place.old }
    requires row { MayStay place.old.me.0 entry.now }
    requires honest { IsHonestStay T.bucket_of T.good T.lists place.old.me.0 entry.now }
    ensures table { IsAt T.standing table.now place.new }
    ensures row { Stayed T.good T.lists entry.now result place.old.me place.new.me }
{
    table.base.shared.fetch_add::<DrawStill<E>>(place, 3, 1)
}

/// Takes the turn of a slot, and its value with it. False where another seat has it.
pub fn take_turn<T: Meaning>(
    table: &Table<T>,
    place: &mut Place<T>,
    slot: usize,
    worker: u32,
) -> bool
    requires table { IsAt T.standing table.now place.old }
    requires slot { slot < table.now.slots }
    requires row { MayTake place.old.me.0 slot }
    requires worker { place.old.me.0.worker ≡ worker }
    ensures table { IsAt T.standing table.now place.new }
    ensures turn { MatchBool result (Took T.good T.lists T.standing slot place.old.me place.new.me) (place.new.me ≡ (view_after_miss place.old.me.0, place.old.me.1)) }
{
    let word = slot + table.count + table.seats + 4;
    let mine = u64::from(worker) + 1;
    table
        .base
        .shared
        .compare_exchange::<TakeTurn>(place, word, 0, mine)
        == 0
}

/// Gives the turn of a slot back, whose value is the one that was taken last.
pub fn give_turn<T: Meaning>(table: &Table<T>, place: &mut Place<T>, slot: usize)
    requires table { IsAt T.standing table.now place.old }
    requires slot { slot < table.now.slots }
    requires row { MayGive T.standing place.old.me.0 place.old.me.1 slot }
    ensures table { IsAt T.standing table.now place.new }
    ensures turn { place.new.me ≡ (view_after_give place.old.me.0 slot, rest place.old.me.1) }
{
    table
        .base
        .shared
        .store::<GiveTurn>(place, slot + table.count + table.seats + 4, 0);
}

/// The value that was taken last, out of its slot.
pub fn value_out<T: Meaning>(table: &Table<T>, place: &mut Place<T>, slot: usize) -> T
    requires table { IsAt T.standing table.now place.old }
    requires home { (x : T) × (xs : List (ℕ × Option T)) × (place.old.me.1 ≡ (slot, Some x) ∷ xs) }
    ensures table { IsAt T.standing table.now place.new }
    ensures value { (xs : List (ℕ × Option T)) × (place.old.me.1 ≡ (slot, Some result) ∷ xs) × (place.new.me ≡ (place.old.me.0, (slot, None) ∷ xs)) }
{
    table.base.shared.exchange(place, slot, None).unwrap()
}

/// A value into the slot that was taken last, whose value is out.
pub fn value_in<T: Meaning>(table: &Table<T>, place: &mut Place<T>, slot: usize, value: T)
    requires table { IsAt T.standing table.now place.old }
    requires out { (xs : List (ℕ × Option T)) × (place.old.me.1 ≡ (slot, None) ∷ xs) }
    ensures table { IsAt T.standing table.now place.new }
    ensures value { (xs : List (ℕ × Option T)) × (place.old.me.1 ≡ (slot, None) ∷ xs) × (place.new.me ≡ (place.old.me.0, (slot, Some value) ∷ xs)) }
{
    let before = table.base.shared.exchange(place, slot, Some(value));
    let None = before else { unreachable!() };
}
