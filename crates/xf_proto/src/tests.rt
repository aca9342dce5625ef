//! What no clause says: that steps are made where there is memory, and two interleavings.
use super::*;
use std::process::Abort;
use std::test::Fail;
use xf_types::{Call, Place, Receipt, Reply};

fn step(actor: u32, kind: Kind) -> Step {
    Step { actor, kind }
}

fn receipt(number: u64, worker: u32, call: Call, reply: Reply) -> Receipt {
    Receipt {
        number,
        worker,
        at: Place { line: 1, part: 0 },
        call,
        reply,
    }
}

fn draw(actor: u32, receipt: Receipt) -> Step {
    step(
        actor,
        Kind::Draw {
            receipt: Some(receipt),
        },
    )
}

fn removes(number: u64, worker: u32) -> Receipt {
    receipt(number, worker, Call::PolicyFlush(None), Reply::Removed(1))
}

fn counts(number: u64, worker: u32) -> Receipt {
    receipt(number, worker, Call::StateCount, Reply::StateCount(0))
}

#[test]
fn second_ticket_is_illegal(rt: HostRuntime) -> Result<(), Fail> {
    let mut state = State::new(rt.alloc(), 2, 8, 2)?;
    assert_eq!(rt; state.step(&step(0, Kind::Ticket)), Ok(()));
    assert!(rt; state.steps() == 1);
    assert_eq!(rt;
        state.step(&step(0, Kind::Ticket)),
        Err(StepFault::Illegal { at: 0 })
    );
    let mut other = State::new(rt.alloc(), 2, 8, 2)?;
    let two = [step(0, Kind::Ticket), step(0, Kind::Ticket)];
    assert_eq!(rt; other.run(&two), Err(StepFault::Illegal { at: 1 }));
    assert_eq!(rt; other.steps(), 1);
    Ok(())
}

#[test]
fn opening_ends_with_its_draw(rt: HostRuntime) -> Result<(), Fail> {
    let mut state = State::new(rt.alloc(), 2, 8, 2)?;
    let undrawn = [
        step(0, Kind::Ticket),
        step(0, Kind::Serving),
        step(0, Kind::Begin),
        step(0, Kind::Store { place: 0, value: 1 }),
        step(0, Kind::Finish),
    ];
    assert_eq!(rt; state.run(&undrawn), Err(StepFault::Illegal { at: 4 }));
    let mut other = State::new(rt.alloc(), 2, 8, 2)?;
    let drawn = [
        step(0, Kind::Ticket),
        step(0, Kind::Serving),
        step(0, Kind::Begin),
        step(0, Kind::Store { place: 0, value: 1 }),
        draw(0, removes(0, 0)),
        step(0, Kind::Finish),
        step(0, Kind::Leave),
    ];
    assert_eq!(rt; other.run(&drawn), Ok(()));
    assert_eq!(rt; other.receipts().len(), 1);
    Ok(())
}

// Seat 1 reads while seat 0 changes the databases: its first try is overtaken and leaves number 0 blank, its second one comes to
// stand before a receipt that was drawn later.
#[test]
fn reader_is_overtaken_once(rt: HostRuntime) -> Result<(), Fail> {
    let mut state = State::new(rt.alloc(), 2, 8, 2)?;
    let steps = [
        step(0, Kind::Ticket),
        step(0, Kind::Serving),
        step(1, Kind::LoadGeneration),
        step(1, Kind::LoadWord { place: 5 }),
        draw(1, counts(0, 1)),
        step(0, Kind::Begin),
        step(0, Kind::Store { place: 5, value: 7 }),
        draw(0, removes(1, 0)),
        step(0, Kind::Finish),
        step(1, Kind::LoadGeneration),
        step(1, Kind::LoadWord { place: 5 }),
        draw(1, counts(2, 1)),
        draw(0, counts(3, 0)),
        step(0, Kind::Leave),
        step(1, Kind::LoadGeneration),
    ];
    assert_eq!(rt; state.run(&steps), Ok(()));
    let receipts = state.receipts();
    assert!(rt; receipts.len() == 3);
    assert_eq!(rt; receipts[0].number, 1);
    assert_eq!(rt; receipts[1].number, 2);
    assert_eq!(rt; receipts[1].worker, 1);
    assert_eq!(rt; receipts[2].number, 3);
    Ok(())
}

// Slot 0 is listed and retired while seat 1 is pinned, so it isn't listed again.
fn retired_under_a_pin(last: Kind) -> [Step; 17] {
    [
        step(0, Kind::Ticket),
        step(0, Kind::Serving),
        step(0, Kind::Begin),
        step(0, Kind::Store { place: 0, value: 1 }),
        draw(0, removes(0, 0)),
        step(0, Kind::Finish),
        step(1, Kind::LoadGeneration),
        step(1, Kind::Pin),
        step(0, Kind::Begin),
        step(0, Kind::Store { place: 0, value: 4 }),
        draw(0, removes(1, 0)),
        step(0, Kind::Finish),
        step(1, last),
        step(0, Kind::LoadPin { seat: 0 }),
        step(0, Kind::LoadPin { seat: 1 }),
        step(0, Kind::Begin),
        step(0, Kind::Store { place: 0, value: 1 }),
    ]
}

#[test]
fn pinned_slot_is_not_listed_again(rt: HostRuntime) -> Result<(), Fail> {
    let mut held = State::new(rt.alloc(), 2, 8, 2)?;
    let pinned = retired_under_a_pin(Kind::LoadWord { place: 0 });
    assert_eq!(rt; held.run(&pinned), Err(StepFault::Illegal { at: 16 }));
    let mut free = State::new(rt.alloc(), 2, 8, 2)?;
    let unpinned = retired_under_a_pin(Kind::Unpin);
    assert_eq!(rt; free.run(&unpinned), Ok(()));
    Ok(())
}

#[test]
fn slot_has_one_turn(rt: HostRuntime) -> Result<(), Fail> {
    let mut state = State::new(rt.alloc(), 2, 8, 2)?;
    let sent = receipt(0, 1, Call::Output { sid: 1, len: 9 }, Reply::Stale);
    let steps = [
        step(1, Kind::TakeTurn { slot: 1 }),
        step(0, Kind::TakeTurn { slot: 1 }),
        draw(1, sent),
        step(1, Kind::GiveTurn { slot: 1 }),
        step(0, Kind::GiveTurn { slot: 1 }),
    ];
    assert_eq!(rt; state.run(&steps), Err(StepFault::Illegal { at: 4 }));
    assert_eq!(rt; state.receipts().len(), 1);
    Ok(())
}
