//! A seat splits off another one, and takes one in.
ghost use Rattle.std.specs.Prelude.{◌≡◌, [], ◌∷◌};
ghost use Rattle.xf_seats.specs.Seats.{maker, split_off, taker};
ghost use Rattle.xf_table.specs.Rows.{MaySplit, MayJoin};
ghost use Rattle.xf_table.specs.Tables.{IsAt};

use crate::rule::{NewSeat, Place, TakeIn};
use crate::table::Table;
use xf_seats::Meaning;

/// Splits off a seat, which is the next worker.
pub fn split<T: Meaning>(table: &Table<T>, place: &mut Place<T>) -> Place<T>
    requires table { IsAt T.standing table.now place.old }
    requires row { MaySplit place.old.me.0 }
    ensures table { IsAt T.standing table.now place.new × IsAt T.standing table.now result }
    ensures first { place.new.me ≡ (maker place.old.me.0, place.old.me.1) }
    ensures new { result.me ≡ (split_off place.old.me.0, []) }
{
    table.base.shared.split_seat::<NewSeat>(place)
}

/// Takes a seat in: the first one has its receipts from then on.
pub fn take_in<T: Meaning>(table: &Table<T>, place: &mut Place<T>, other: Place<T>)
    requires table { IsAt T.standing table.now place.old × IsAt T.standing table.now other }
    requires row { MayJoin place.old.me.0 other.me.0 }
    requires empty { other.me.1 ≡ [] }
    ensures table { IsAt T.standing table.now place.new }
    ensures row { place.new.me ≡ (taker place.old.me.0 other.me.0, place.old.me.1) }
{
    table.base.shared.join_seat::<TakeIn>(place, other);
}
