//! What no clause says: that an answer comes where there is memory. The lists are worked rows.
use super::*;
use std::alloc::Global;
use std::process::Abort;
use std::test::Fail;
use xf_plain::Plain;
use xf_types::{
    Action, Addr, Call, Dir, Flow, Limits, Mark, Place, PolicyKey, PolicySpec, Prefix, Ptype,
    Receipt, Reply, Selector, Templates,
};

fn receipt(line: u64, worker: u32, call: Call, reply: Reply) -> Receipt {
    Receipt {
        number: line,
        worker,
        at: Place { line, part: 0 },
        call,
        reply,
    }
}

fn selector(first: u32) -> Selector {
    Selector {
        src: Prefix::new(Addr::V4(first), 8),
        dst: Prefix::new(Addr::V4(0), 0),
        proto: 0,
        sport: None,
        dport: None,
    }
}

// A policy for what leaves this network.
fn added(line: u64, first: u32, reply: Reply) -> Receipt {
    let spec = PolicySpec {
        dir: Dir::Out,
        ptype: Ptype::Main,
        sel: selector(first),
        mark: Mark { value: 0, mask: 0 },
        if_id: 0,
        priority: 10,
        action: Action::Allow,
        index: 0,
        limits: Limits::none(),
        templates: Templates::none(),
    };
    receipt(line, 0, Call::PolicyAdd(spec), reply)
}

const TEN: u32 = 0x0a00_0000;

const ELEVEN: u32 = 0x0b00_0000;

// The policy of network 10 goes.
fn deleted(line: u64, reply: Reply) -> Receipt {
    let key = PolicyKey::Same {
        dir: Dir::Out,
        ptype: Ptype::Main,
        sel: selector(TEN),
        mark: Mark { value: 0, mask: 0 },
        if_id: 0,
    };
    receipt(line, 0, Call::PolicyDelete(key), reply)
}

fn asked(line: u64, worker: u32, reply: Reply) -> Receipt {
    let flow = Flow {
        dir: Dir::Out,
        src: Addr::V4(0x0a01_0203),
        dst: Addr::V4(0xc000_0201),
        proto: 6,
        sport: 1000,
        dport: 443,
        mark: 0,
        if_id: 0,
    };
    receipt(line, worker, Call::Flow(flow), reply)
}

fn full(live: u32, waiting: u32) -> Reply {
    Reply::Full { live, waiting }
}

// Whether the list is a history of the empty machine with room for one policy.
fn is_history(alloc: Global, list: [Receipt; 4]) -> Result<bool, Fail> {
    let start = Plain::sized(alloc, 1, 1)?;
    Ok(is_legal(&start, list.as_slice())?)
}

// What the policy is answered, and its deletion.
fn nine() -> Reply {
    Reply::DoneIndex(9)
}

fn none() -> Reply {
    Reply::FlowNone
}

#[test]
fn flow_is_given_up_after_as_many_moves_of_others(rt: HostRuntime) -> Result<(), Fail> {
    for (flow, legal) in [
        (asked(5, 1, Reply::Again(2)), true),
        (asked(5, 1, Reply::Again(1)), true),
        (asked(5, 1, none()), true),
        (asked(5, 1, Reply::Again(3)), false),
        (asked(5, 1, Reply::Again(0)), false),
        (asked(5, 0, Reply::Again(1)), false),
    ] {
        let list = [
            added(2, TEN, nine()),
            deleted(3, nine()),
            flow,
            asked(6, 1, none()),
        ];
        assert_eq!(rt; is_history(rt.alloc(), list)?, legal);
    }
    Ok(())
}

#[test]
fn flow_is_not_given_up_before_the_moves(rt: HostRuntime) -> Result<(), Fail> {
    let start = Plain::sized(rt.alloc(), 1, 1)?;
    let front = [added(2, TEN, nine()), asked(5, 1, Reply::Again(2))];
    assert!(rt; !is_legal(&start, front.as_slice())?);
    let list = [
        added(2, TEN, nine()),
        asked(3, 1, Reply::Again(2)),
        deleted(4, nine()),
        asked(5, 1, none()),
    ];
    assert!(rt; !is_history(rt.alloc(), list)?);
    Ok(())
}

#[test]
fn order_and_replies_are_those_of_the_machine(rt: HostRuntime) -> Result<(), Fail> {
    for (second, third, legal) in [
        (deleted(3, nine()), asked(5, 1, none()), true),
        (deleted(2, nine()), asked(5, 1, none()), false),
        (deleted(7, nine()), asked(5, 1, none()), false),
        (deleted(3, Reply::DoneIndex(17)), asked(5, 1, none()), false),
        (deleted(3, Reply::NoMemory), asked(5, 1, none()), false),
        (deleted(3, Reply::NoMemory), deleted(5, nine()), true),
    ] {
        let list = [added(2, TEN, nine()), second, third, asked(6, 1, none())];
        assert_eq!(rt; is_history(rt.alloc(), list)?, legal);
    }
    Ok(())
}

#[test]
fn removed_policy_may_hold_its_slot_back(rt: HostRuntime) -> Result<(), Fail> {
    for (second, third, last, legal) in [
        (full(1, 0), nine(), full(0, 1), true),
        (full(1, 0), nine(), Reply::DoneIndex(17), true),
        (full(1, 0), nine(), full(0, 2), false),
        (full(1, 0), nine(), full(1, 0), false),
        (full(1, 0), Reply::NoMemory, full(0, 1), false),
        (full(0, 1), nine(), full(0, 1), false),
    ] {
        let list = [
            added(2, TEN, nine()),
            added(3, ELEVEN, second),
            deleted(4, third),
            added(5, ELEVEN, last),
        ];
        assert_eq!(rt; is_history(rt.alloc(), list)?, legal);
    }
    Ok(())
}

#[test]
fn nothing_is_held_back_where_nothing_was_removed(rt: HostRuntime) -> Result<(), Fail> {
    let start = Plain::sized(rt.alloc(), 1, 1)?;
    let front = [added(2, TEN, full(0, 1))];
    assert!(rt; !is_legal(&start, front.as_slice())?);
    Ok(())
}

#[test]
fn no_receipts_are_a_history(rt: HostRuntime) -> Result<(), Fail> {
    let start = Plain::new(rt.alloc())?;
    let list: [Receipt; 0] = [];
    assert!(rt; is_legal(&start, list.as_slice())?);
    Ok(())
}

#[test]
fn no_lists_merge_to_none(rt: HostRuntime) -> Result<(), Fail> {
    let alloc = rt.alloc();
    assert!(rt; merge(Vec::new(alloc), Vec::new(alloc)).is_empty());
    Ok(())
}
