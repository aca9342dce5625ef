//! A table ends.
ghost use Rattle.std.specs.Prelude.{◌≡◌, ℕ, ◌+◌, ◌<◌, ◌≤◌, ◌^◌, [], Some, length, take, drop, map, vec_len, vec_capacity};
ghost use Rattle.std.specs.Mem.Slots.{slots_items, slots_filled, slots_len, IsFull};
ghost use Rattle.xf_seats.specs.Ends.{lists_of};
ghost use Rattle.xf_table.specs.Ends.{Ends, HasAll};
ghost use Rattle.xf_table.specs.Emptied.{AreThere, AreValues, IsEmptied};
ghost use Rattle.xf_table.specs.Tables.{IsAt, first_of};

use crate::rule::Place;
use crate::table::Table;
use atomic_table::Closed;
use std::alloc::Global;
use xf_seats::Meaning;

/// Ends a table with the seat that took in all others. The image words and the slots' values come in the two lists, which have room for
/// them. Takes no memory.
pub fn close<T: Meaning>(
    table: Table<T>,
    place: Place<T>,
    words: Vec<u64>,
    values: Vec<T>,
) -> (Vec<u64>, Vec<T>)
    requires table { IsAt T.standing table place }
    requires row { HasAll place.me.0 }
    requires words { (words.items ≡ []) × (table.count ≤ vec_capacity words) }
    requires values { (values.items ≡ []) × (table.slots ≤ vec_capacity values) }
    ensures { Ends T.bucket_of T.good T.lists T.machine T.standing (first_of T.standing table) result.0.items result.1.items (lists_of place.me.0) }
{
    let Table {
        base,
        seats,
        count,
        slots,
    } = table;
    let mut closed = base.close_with(place);
    let words = copied(&closed, words, seats + 4, count);
    let values = taken(&mut closed, values, slots);
    closed.free();
    (words, values)
}

/// So many words from a place on, in the list.
fn copied<T>(
    closed: &Closed<Option<T>, Global>,
    words: Vec<u64>,
    from: usize,
    count: usize,
) -> Vec<u64>
    requires full { IsFull closed.now.words × (from + count ≤ slots_len closed.now.words) }
    requires room { (words.items ≡ []) × (count ≤ vec_capacity words) }
    ensures { result.items ≡ take count (drop from (slots_items closed.now.words)) }
{
    let mut words = words;
    let mut i = 0;
    while i < count {
        words.push_reserved(closed.word(from + i));
        i += 1;
    }
    words
}

/// The values of all slots, in the list.
fn taken<T>(closed: &mut Closed<Option<T>, Global>, values: Vec<T>, slots: usize) -> Vec<T>
    requires full { IsFull closed.old.slots × (slots_len closed.old.slots ≡ slots) }
    requires there { AreThere (slots_items closed.old.slots) slots }
    requires room { (values.items ≡ []) × (slots ≤ vec_capacity values) }
    ensures values { (vec_len result ≡ slots) × AreValues (slots_items closed.old.slots) slots result.items }
    ensures emptied { IsEmptied (slots_filled closed.new.slots) (slots_len closed.new.slots) }
{
    let mut values = values;
    let mut i = 0;
    while i < slots {
        let Some(value) = closed.take(i) else {
            unreachable!()
        };
        values.push_reserved(value);
        i += 1;
    }
    values
}
