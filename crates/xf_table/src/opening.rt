//! A table is made.
ghost use Rattle.std.specs.Prelude.{◌≡◌, ◌++◌, ◌^◌, ◌<◌, ◌≤◌, List, [], length, map, Some, replicate, IfOk, IfErr, vec_len, vec_capacity};
ghost use Rattle.xf_views.specs.Starts.{first_numbers};
ghost use Rattle.xf_seats.specs.Opened.{Opened};
ghost use Rattle.xf_table.specs.Rule.{laid, four};
ghost use Rattle.xf_table.specs.Ends.{start_from, IsFirst};

use crate::rule::{Key, Place};
use crate::table::Table;
use atomic_table::Refused;
use std::alloc::{AllocError, Global};
use std::snapshot::Snapshot;
use xf_seats::Meaning;

/// A table with so many seats over these image words and values, the first of which are of policies' slots; its first seat; and the list
/// of values, which is empty then. Where memory is wanting, the values come back.
pub fn open<T: Meaning>(
    alloc: Global,
    seats: u32,
    words: &Vec<u64>,
    values: Vec<T>,
    policies: u32,
) -> Result<(Table<T>, Place<T>, Vec<T>), Vec<T>>
    requires opened { Opened T.bucket_of T.good T.lists T.machine (start_from T.standing seats words.now.items values.items policies) }
    requires sizes { (vec_len words.now < 2 ^ 32) × (policies ≤ vec_len values) }
    ensures first { IfOk result (λ r. IsFirst T.standing (start_from T.standing seats words.now.items values.items policies) r.0 r.1) }
    ensures room { IfOk result (λ r. (r.2.items ≡ []) × (vec_capacity r.2 ≡ vec_capacity values)) }
    ensures refused { IfErr result (λ v. v.items ≡ values.items) }
{
    let slots = values.len();
    let Ok(laid_words) = lay(alloc, seats as usize, words.as_slice(), slots) else {
        return Err(values);
    };
    let Ok(room) = Vec::with_capacity(alloc, slots) else {
        return Err(values);
    };
    let key = Key {
        seats: u64::from(seats),
        policies: u64::from(policies),
        states: slots as u64 - u64::from(policies),
        words: Snapshot::of(words),
        values: Snapshot::of(&values),
    };
    let (homes, values) = dress(values, room);
    match atomic_table::Table::new(alloc, laid_words.as_slice(), homes, &key) {
        Ok((base, place)) => Ok((
            Table {
                base,
                seats: seats as usize,
                count: words.len(),
                slots,
            },
            place,
            values,
        )),
        Err(Refused { slots }) => Err(undress(slots, values)),
    }
}

/// Four numbers and the pin words, all 0, the image, and the turn words, all 0.
fn lay(alloc: Global, seats: usize, image: &[u64], slots: usize) -> Result<Vec<u64>, AllocError>
    requires { seats < 2 ^ 32 }
    ensures { IfOk result (λ v. v.items ≡ laid (four first_numbers) (replicate seats 0) image.now (replicate slots 0)) }
{
    let mut words = vec![in alloc; 0; 4 + seats]?;
    'image: for word in image {
        words.push(*word)?;
    }
    let mut i = 0;
    'slots: while i < slots {
        words.push(0)?;
        i += 1;
    }
    Ok(words)
}

/// The values as the table keeps them, in the second list.
fn dress<T>(values: Vec<T>, room: Vec<Option<T>>) -> (Vec<Option<T>>, Vec<T>)
    requires { (room.items ≡ []) × (vec_len values ≤ vec_capacity room) }
    ensures homes { result.0.items ≡ map Some values.items }
    ensures room { (result.1.items ≡ []) × (vec_capacity result.1 ≡ vec_capacity values) }
{
    let mut values = values;
    let mut homes = room;
    while let Some(value) = values.pop() {
        homes.push_reserved(Some(value));
    }
    homes.reverse();
    (homes, values)
}

/// The values as they were, in the second list.
fn undress<T>(homes: Vec<Option<T>>, room: Vec<T>) -> Vec<T>
    requires values { (xs : List T) × (homes.items ≡ map Some xs) }
    requires room { (room.items ≡ []) × (vec_len homes ≤ vec_capacity room) }
    ensures { homes.items ≡ map Some result.items }
{
    let mut homes = homes;
    let mut values = room;
    while let Some(home) = homes.pop() {
        let Some(value) = home else { unreachable!() };
        values.push_reserved(value);
    }
    homes.destroy_empty();
    values.reverse();
    values
}
