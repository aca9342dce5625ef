//! A table is made.
ghost use Rattle.std.specs.Prelude.{◌≡◌, ℕ, ◌+◌, ◌^◌, ◌<◌, ◌≤◌, [], ◌++◌, ◌∷◌, IfOk, IfErr, vec_len, vec_capacity};
ghost use Rattle.xf_seats.specs.Opened.{Opened, slots_of};
ghost use Rattle.xf_table.specs.Ends.{start_from, IsFirst};
ghost use Rattle.xf_table.specs.Tables.{first_of};
ghost use Rattle.xf_live.specs.Ends.{AreNew, AreRooms, live_of};

use crate::front::put_first;
use crate::live::Live;
use crate::pass::Pass;
use std::alloc::{AllocError, Global};
use xf_seats::Meaning;
use xf_table::{Place, Table};
use xf_types::Receipt;

/// There was no memory. The lists come back.
#[derive(Drop)]
pub struct NotMade<T> {
    pub words: Vec<u64>,
    pub values: Vec<T>,
}

impl<T: Meaning> Live<T> {
    /// A table with so many seats over these image words and values, the first of which are of policies' slots, and its passes: the pass with
    /// number k at place k.
    pub fn new(
        alloc: Global,
        seats: u32,
        words: Vec<u64>,
        values: Vec<T>,
        policies: u32,
    ) -> Result<(Live<T>, Vec<Pass<T>>), NotMade<T>>
        requires opened { Opened T.bucket_of T.good T.lists T.machine (start_from T.standing seats words.items values.items policies) }
        requires sizes { (vec_len words < 2 ^ 32) × (policies ≤ vec_len values) }
        ensures table { IfOk result (λ r. (r.0.start ≡ start_from T.standing seats words.items values.items policies) × (r.0.count ≡ vec_len words)) }
        ensures passes { IfOk result (λ r. AreNew r.0 r.1.items) }
        ensures refused { IfErr result (λ r. (r.words.items ≡ words.items) × (r.values.items ≡ values.items)) }
    {
        let count = words.len();
        let slots = values.len();
        let Ok(rooms) = make_rooms(alloc, seats, slots) else {
            return Err(NotMade { words, values });
        };
        let Rooms {
            held,
            lists,
            passes,
        } = rooms;
        match xf_table::open(alloc, seats, &words, values, policies) {
            Ok((table, place, values)) => {
                let mut words = words;
                words.clear();
                let passes = seat_all(alloc, &table, place, seats, held, passes);
                let live = Live {
                    table,
                    seats,
                    count: count as u32,
                    slots: slots as u32,
                    words,
                    values,
                    lists,
                };
                Ok((live, passes))
            }
            Err(values) => {
                passes.destroy_empty();
                Err(NotMade { words, values })
            }
        }
    }
}

/// The room that a table takes at its beginning: for the slots whose turns each pass holds, for the passes' receipts at the end, and for the
/// passes.
struct Rooms<T> {
    held: Vec<Vec<u32>>,
    lists: Vec<Vec<Receipt>>,
    passes: Vec<Pass<T>>,
}

fn make_rooms<T>(alloc: Global, seats: u32, slots: usize) -> Result<Rooms<T>, AllocError>
    ensures held { IfOk result (λ r. (vec_len r.held ≡ seats) × AreRooms slots r.held.items) }
    ensures lists { IfOk result (λ r. (r.lists.items ≡ []) × (seats ≤ vec_capacity r.lists)) }
    ensures passes { IfOk result (λ r. (r.passes.items ≡ []) × (seats ≤ vec_capacity r.passes)) }
{
    let held = make_held(alloc, seats, slots)?;
    let lists = Vec::with_capacity(alloc, seats as usize)?;
    let passes = Vec::with_capacity(alloc, seats as usize)?;
    Ok(Rooms {
        held,
        lists,
        passes,
    })
}

/// An empty list for each seat, with room for all slots.
fn make_held(alloc: Global, seats: u32, slots: usize) -> Result<Vec<Vec<u32>>, AllocError>
    ensures { IfOk result (λ v. (vec_len v ≡ seats) × AreRooms slots v.items) }
{
    let mut held = Vec::with_capacity(alloc, seats as usize)?;
    let mut made = 0;
    while made < seats {
        let room = Vec::with_capacity(alloc, slots)?;
        held.push_reserved(room);
        made += 1;
    }
    Ok(held)
}

/// One of the lists.
fn take_room(held: &mut Vec<Vec<u32>>) -> Vec<u32>
    requires { 1 ≤ vec_len held.old }
    ensures { held.old.items ≡ held.new.items ++ result ∷ [] }
{
    let Some(room) = held.pop() else {
        unreachable!()
    };
    room
}

/// Splits off all other seats, and gives each seat its pass.
fn seat_all<T: Meaning>(
    alloc: Global,
    table: &Table<T>,
    place: Place<T>,
    seats: u32,
    held: Vec<Vec<u32>>,
    passes: Vec<Pass<T>>,
) -> Vec<Pass<T>>
    requires first { IsFirst T.standing (first_of T.standing table.now) table.now place }
    requires seats { (1 ≤ seats) × (table.now.seats ≡ seats) }
    requires held { (vec_len held ≡ seats) × AreRooms table.now.slots held.items }
    requires room { (passes.items ≡ []) × (seats ≤ vec_capacity passes) }
    ensures { AreNew (live_of T.standing table.now) result.items }
{
    let mut place = place;
    let mut held = held;
    let mut passes = passes;
    let mut number = 1;
    'others: while number < seats {
        let seat = xf_table::split(table, &mut place);
        let room = take_room(&mut held);
        passes.push_reserved(Pass::fresh(alloc, seat, room, number));
        number += 1;
    }
    let room = take_room(&mut held);
    put_first(&mut passes, Pass::fresh(alloc, place, room, 0));
    passes
}
