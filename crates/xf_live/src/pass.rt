//! The pass of one caller.
ghost use Rattle.std.specs.Prelude.{◌≡◌, ℕ, ◌+◌, ◌-◌, ◌^◌, ◌<◌, ◌≤◌, true, [], length, min, vec_len, vec_capacity, OnOk};
ghost use Rattle.xf_live.specs.Passes.{me_of, IsSeatOf};
ghost use Rattle.xf_views.specs.Starts.{first_view};
ghost use Rattle.xf_live.specs.Values.{AreHeld, holds};
ghost use Rattle.xf_seats.specs.Opened.{slots_of};

use std::alloc::Global;
use std::marker::Model;
use xf_table::Place;
use xf_types::{NoMemory, Receipt};

/// One caller's token: its seat, with what that knows, its own receipts, and the values of the slots whose turns it has.
#[derive(Drop)]
pub struct Pass<T> {
    pub(crate) seat: Place<T>,
    pub(crate) receipts: Vec<Receipt>,
    // The slots whose turns are held, the one that was taken last first.
    pub(crate) held: Vec<u32>,
    pub(crate) number: u32,
    pub(crate) drawn: u64,
    pub(crate) loads: u64,
    ghost here: { seat.me.0.here ≡ true },
    ghost worker: { seat.me.0.worker ≡ number },
    ghost count: { seat.me.0.knows.count ≡ drawn },
    ghost mine: { seat.me.0.knows.mine ≡ receipts.items },
    ghost holdings: { AreHeld (slots_of seat.me.0.life.start) seat.me.0.hand.slots seat.me.0.own.turns seat.me.1 held.items },
    ghost space: { slots_of seat.me.0.life.start ≤ vec_capacity held },
}

impl<T> Model for Pass<T> {
    ghost use Rattle.std.specs.Prelude.{vec_capacity};
    ghost use Rattle.xf_live.specs.Passes.{PassView};

    ghost Value = { PassView T };

    ghost view = { λ p. record { table = p.seat.table_id; view = p.seat.me.0; room = vec_capacity p.receipts; loads = p.loads; values = p.seat.me.1 } };
}

impl<T> Pass<T> {
    /// The pass of a seat that did nothing yet, with room for the slots whose turns it may hold.
    pub(crate) fn fresh(alloc: Global, seat: Place<T>, held: Vec<u32>, number: u32) -> Pass<T>
        requires seat { seat.me ≡ (first_view seat.me.0.life.start number seat.me.0.life.next, []) }
        requires room { (held.items ≡ []) × (slots_of seat.me.0.life.start ≤ vec_capacity held) }
        ensures seat { IsSeatOf result seat }
        ensures loads { result.loads ≡ 0 }
    {
        Pass {
            seat,
            receipts: Vec::new(alloc),
            held,
            number,
            drawn: 0,
            loads: 0,
        }
    }

    /// Its seat and its receipts.
    pub(crate) fn into_parts(self) -> (Place<T>, Vec<Receipt>)
        ensures seat { IsSeatOf self result.0 }
        ensures receipts { result.1.items ≡ self.view.knows.mine }
    {
        let Pass {
            seat,
            receipts,
            held: _,
            number: _,
            drawn: _,
            loads: _,
        } = self;
        (seat, receipts)
    }

    /// Its seat, which is the worker of its receipts.
    pub fn number(&self) -> u32
        ensures { result ≡ self.now.view.worker }
    {
        self.number
    }

    /// For how many more receipts it has room, as far as a `u32` goes.
    pub fn spare(&self) -> u32
        ensures { result ≡ min (self.now.room - length self.now.view.knows.mine) (2 ^ 32 - 1) }
    {
        let spare = self.receipts.capacity() - self.receipts.len();
        spare.min(u32::MAX as usize) as u32
    }

    /// How many numbers and tickets it drew.
    pub fn drawn(&self) -> u64
        ensures { result ≡ self.now.view.knows.count }
    {
        self.drawn
    }

    /// How many image words it loaded. The count stops at 2^64 - 1.
    pub fn loads(&self) -> u64
        ensures { result ≡ self.now.loads }
    {
        self.loads
    }

    /// Its receipts, in the order of their numbers.
    pub fn receipts(&self) -> &[Receipt]
        ensures { result.now ≡ self.now.view.knows.mine }
    {
        self.receipts.as_slice()
    }

    /// Whether it has the slot's turn.
    #[tactic(auto, using(crate::proofs::Parting::turned_test))]
    pub fn has_turn(&self, slot: u32) -> bool
        ensures { result ≡ holds self.now.values slot }
    {
        self.held.as_slice().contains(&slot)
    }

    /// Room for so many receipts more.
    pub(crate) fn widen(&mut self, places: u32) -> Result<(), NoMemory>
        ensures me { me_of self.new ≡ me_of self.old }
        ensures stays { (self.new.table ≡ self.old.table) × (self.new.loads ≡ self.old.loads) × (self.old.room ≤ self.new.room) }
        ensures room { OnOk result (length self.new.view.knows.mine + places ≤ self.new.room) }
    {
        match self.receipts.reserve(places as usize) {
            Ok(()) => Ok(()),
            Err(_) => Err(NoMemory),
        }
    }
}
