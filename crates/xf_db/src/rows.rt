//! The passes of a table in the passes of a database, and back.
ghost use Rattle.std.specs.Prelude.{◌≡◌, ◌≤◌, [], All, map, IfSome, vec_len, vec_capacity};
ghost use Rattle.xf_db.specs.Closing.{total};
ghost use Rattle.xf_db.specs.Passes.{IsResting, pass_over};

use crate::pass::Pass;
use xf_values::StateValue;

/// Dresses each pass of a table, into the second list.
pub(crate) fn dress(
    seats: Vec<xf_live::Pass<StateValue>>,
    room: Vec<Pass>,
) -> (Vec<Pass>, Vec<xf_live::Pass<StateValue>>)
    requires resting { All IsResting seats.items }
    requires room { (room.items ≡ []) × (vec_len seats ≤ vec_capacity room) }
    ensures passes { result.0.items ≡ map pass_over seats.items }
    ensures room { (result.1.items ≡ []) × (vec_capacity result.1 ≡ vec_capacity seats) }
{
    let mut seats = seats;
    let mut passes = room;
    while let Some(seat) = seats.pop() {
        passes.push_reserved(Pass { seat: Some(seat) });
    }
    passes.reverse();
    (passes, seats)
}

/// The passes of the table again, in the second list.
pub(crate) fn undress(
    passes: Vec<Pass>,
    room: Vec<xf_live::Pass<StateValue>>,
) -> Vec<xf_live::Pass<StateValue>>
    requires { (room.items ≡ []) × (vec_len passes ≤ vec_capacity room) }
    ensures resting { All IsResting result.items }
    ensures passes { map pass_over result.items ≡ passes.items }
{
    let mut passes = passes;
    let mut seats = room;
    while let Some(pass) = passes.pop() {
        let Pass { seat } = pass;
        let Some(seat) = seat else { unreachable!() };
        seats.push_reserved(seat);
    }
    passes.destroy_empty();
    seats.reverse();
    seats
}

/// How many receipts the passes have, where a number tells it.
pub(crate) fn count_receipts(passes: &[Pass]) -> Option<usize>
    ensures { IfSome result (λ n. n ≡ total passes.now) }
{
    let mut count = 0usize;
    for pass in passes {
        let more = pass.receipts().len();
        count = count.checked_add(more)?;
    }
    Some(count)
}
