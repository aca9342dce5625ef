//! A table ends.
ghost use Rattle.std.specs.Prelude.{◌≡◌, ℕ, ◌≤◌, [], vec_len, vec_capacity};
ghost use Rattle.xf_seats.specs.Ends.{lists_of};
ghost use Rattle.xf_table.specs.Ends.{Ends, HasAll};
ghost use Rattle.xf_table.specs.Tables.{IsAt, first_of};
ghost use Rattle.xf_live.specs.Ends.{AreDone, live_of, receipts_of_all, lists_in};

use crate::live::Live;
use crate::pass::Pass;
use xf_seats::Meaning;
use xf_table::{Place, Table};
use xf_types::Receipt;

/// What a table leaves: its image words, the values of its slots, and the receipts of each pass, in the passes' order.
#[derive(Drop)]
pub struct Closed<T> {
    pub words: Vec<u64>,
    pub values: Vec<T>,
    pub receipts: Vec<Vec<Receipt>>,
}

impl<T: Meaning> Live<T> {
    /// Ends the table. All of its passes are given, the pass with number k at place k. Takes no memory.
    pub fn close(self, passes: Vec<Pass<T>>) -> Closed<T>
        requires { AreDone self passes.items }
        ensures receipts { lists_in result.receipts.items ≡ receipts_of_all passes.items }
        ensures history { Ends T.bucket_of T.good T.lists T.machine T.standing self.start result.words.items result.values.items (receipts_of_all passes.items) }
    {
        let Live {
            table,
            seats: _,
            count: _,
            slots: _,
            words,
            values,
            lists,
        } = self;
        let mut receipts = lists;
        let place = take_all_in(&table, passes, &mut receipts);
        let (words, values) = xf_table::close(table, place, words, values);
        Closed {
            words,
            values,
            receipts,
        }
    }
}

/// The first pass's seat takes in the others, one after the other. The lists get their receipts.
fn take_all_in<T: Meaning>(
    table: &Table<T>,
    passes: Vec<Pass<T>>,
    lists: &mut Vec<Vec<Receipt>>,
) -> Place<T>
    requires done { AreDone (live_of T.standing table.now) passes.items }
    requires seats { 1 ≤ table.now.seats }
    requires room { (lists.old.items ≡ []) × (table.now.seats ≤ vec_capacity lists.old) }
    ensures place { IsAt T.standing table.now result × HasAll result.me.0 }
    ensures taken { lists_of result.me.0 ≡ receipts_of_all passes.items }
    ensures lists { lists_in lists.new.items ≡ receipts_of_all passes.items }
{
    let mut passes = passes;
    let (mut place, receipts) = passes.remove(0).into_parts();
    lists.push_reserved(receipts);
    'others: while !passes.is_empty() {
        let (seat, receipts) = passes.remove(0).into_parts();
        xf_table::take_in(table, &mut place, seat);
        lists.push_reserved(receipts);
    }
    passes.destroy_empty();
    place
}
