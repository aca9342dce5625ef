//! The rule of the table, and what each step tells.
ghost use Rattle.std.specs.Prelude.{Option};

use atomic_table::{Join, Play, Seat, Split, TableRule};
use std::alloc::Global;
use std::marker::{Brand, PhantomData};
use std::snapshot::Snapshot;
use xf_seats::Meaning;
use xf_views::View;

/// What a table is told as it begins: its numbers of seats and of slots, the image words and the slots' values.
#[derive(Drop)]
pub struct Key<T> {
    pub seats: u64,
    pub policies: u64,
    pub states: u64,
    pub words: Snapshot<Vec<u64>>,
    pub values: Snapshot<Vec<T>>,
}

pub struct Turns;

impl<T: Meaning> TableRule<Option<T>, View, Key<T>> for Turns {
    ghost use Rattle.xf_views.specs.Starts.{first_view};
    ghost use Rattle.xf_table.specs.Rule.{Ruled, start_of};

    ghost holds = { λ key. Ruled T.bucket_of T.good T.lists T.machine T.standing (start_of T.standing key) };

    ghost first = { λ key. first_view (start_of T.standing key) 0 1 };
}

/// The atomic table.
pub type Base<T> = atomic_table::Table<Option<T>, View, Key<T>, Turns, Global>;

/// A seat.
pub type Place<T> = Seat<Option<T>, View>;

/// What a draw records, for the proof alone.
pub trait Said {
    ghost use Rattle.std.specs.Prelude.{Option};
    ghost use Rattle.xf_views.specs.declared.entry.Entry.{Entry};

    ghost entry: { Option Entry };
}

impl Said for Brand {
    ghost use Rattle.std.specs.Prelude.{None};

    ghost entry = { None };
}

pub struct TakeTicket;

impl<T> Play<Option<T>, View> for TakeTicket {
    ghost use Rattle.xf_table.specs.Plays.{takes_ticket};

    ghost then = { takes_ticket };
}

pub struct LookServing;

impl<T: Meaning> Play<Option<T>, View> for LookServing {
    ghost use Rattle.xf_table.specs.Plays.{looks_serving};

    ghost then = { looks_serving T.good T.lists };
}

pub struct Leave;

impl<T> Play<Option<T>, View> for Leave {
    ghost use Rattle.xf_table.specs.Plays.{leaves};

    ghost then = { leaves };
}

pub struct Begin;

impl<T> Play<Option<T>, View> for Begin {
    ghost use Rattle.xf_table.specs.Plays.{begins};

    ghost then = { begins };
}

pub struct Finish;

impl<T> Play<Option<T>, View> for Finish {
    ghost use Rattle.xf_table.specs.Plays.{finishes};

    ghost then = { finishes };
}

pub struct Store;

impl<T> Play<Option<T>, View> for Store {
    ghost use Rattle.xf_table.specs.Plays.{stores};

    ghost then = { stores };
}

pub struct LoadWord;

impl<T> Play<Option<T>, View> for LoadWord {
    ghost use Rattle.xf_table.specs.Plays.{loads};

    ghost then = { loads };
}

pub struct DrawMove<E> {
    said: PhantomData<E>,
}

impl<T: Meaning, E: Said> Play<Option<T>, View> for DrawMove<E> {
    ghost use Rattle.xf_table.specs.Plays.{moves_with};

    ghost then = { moves_with T.good T.lists E.entry };
}

pub struct DrawStill<E> {
    said: PhantomData<E>,
}

impl<T: Meaning, E: Said> Play<Option<T>, View> for DrawStill<E> {
    ghost use Rattle.xf_table.specs.Plays.{stays_with};

    ghost then = { stays_with T.good T.lists E.entry };
}

pub struct TakeTurn;

impl<T: Meaning> Play<Option<T>, View> for TakeTurn {
    ghost use Rattle.xf_table.specs.Plays.{takes_turn};

    ghost then = { takes_turn T.good T.lists T.standing };
}

pub struct GiveTurn;

impl<T> Play<Option<T>, View> for GiveTurn {
    ghost use Rattle.xf_table.specs.Plays.{gives};

    ghost then = { gives };
}

pub struct NewSeat;

impl Split<View> for NewSeat {
    ghost use Rattle.xf_seats.specs.Seats.{maker, split_off};

    ghost left = { maker };

    ghost right = { split_off };
}

pub struct TakeIn;

impl Join<View> for TakeIn {
    ghost use Rattle.xf_seats.specs.Seats.{taker, nobody};

    ghost both = { taker };

    ghost spent = { nobody };
}
