//! Copies that may want memory, where there is some.
use std::process::Abort;
use std::test::Fail;
use xf_types::{Call, Event, Events, Place, Policies, Receipt, Reply, Sas};

fn check_copy(rt: &impl Abort, reply: Reply) -> Result<(), Fail> {
    let receipt = Receipt {
        number: 7,
        worker: 2,
        at: Place { line: 5, part: 0 },
        call: Call::Tick(30),
        reply,
    };
    let copy = receipt.copy()?;
    assert!(rt; copy == receipt);
    Ok(())
}

#[test]
fn receipts_are_copied(rt: HostRuntime) -> Result<(), Fail> {
    let alloc = rt.alloc();
    let events = vec![in alloc; Event::StateSoft(3), Event::PolicyExpired(9)]?;
    let ticked = Reply::Ticked {
        now: 30,
        events: Events::new(events),
    };
    check_copy(&rt, ticked)?;
    check_copy(&rt, Reply::PolicyList(Policies::new(Vec::new(alloc))))?;
    check_copy(&rt, Reply::StateList(Sas::new(Vec::new(alloc))))?;
    check_copy(&rt, Reply::Done)
}
