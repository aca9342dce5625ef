//! What no clause says: that a step succeeds where there is memory.
use super::*;
use arrayvec::ArrayVec;
use std::process::Abort;
use std::test::Fail;
use xf_replay::{Own, Window};
use xf_types::{
    Action, Addr, AllocSpec, Call, Dir, Event, Flow, Limits, Mark, Mode, Packet, PolicySpec,
    Prefix, Proto, Ptype, Reply, Sa, SaFilter, SaSpec, Selector, Template, Templates, Thresholds,
};

fn policy() -> PolicySpec {
    PolicySpec {
        dir: Dir::Out,
        ptype: Ptype::Main,
        sel: Selector {
            src: Prefix::new(Addr::V4(0x0a00_0000), 8),
            dst: Prefix::new(Addr::V4(0), 0),
            proto: 0,
            sport: None,
            dport: None,
        },
        mark: Mark { value: 0, mask: 0 },
        if_id: 0,
        priority: 10,
        action: Action::Allow,
        index: 0,
        limits: Limits::none(),
        templates: Templates::none(),
    }
}

fn spec() -> SaSpec {
    SaSpec {
        src: Addr::V4(0),
        dst: Addr::V4(0xc000_0202),
        proto: Proto::Esp,
        spi: 0x1000,
        mode: Mode::Transport,
        reqid: 0,
        seq: 0,
        mark: Mark { value: 0, mask: 0 },
        if_id: 0,
        sel: None,
        window: 32,
        in_seq: 0,
        out_seq: 0,
        wildrecv: false,
        esn: false,
        limits: Limits::none(),
    }
}

fn packet() -> Call {
    Call::Packet(Packet {
        src: Addr::V4(0),
        dst: Addr::V4(0xc000_0202),
        proto: Proto::Esp,
        spi: 0x1000,
        seq: 5,
        len: 100,
        mark: 0,
        icv_ok: true,
    })
}

// What the packet is answered at first.
fn accepted() -> Reply {
    Reply::Accepted {
        top: 5,
        soft: false,
    }
}

fn any_of(min: u32, max: u32) -> Call {
    Call::AllocSpi(AllocSpec {
        src: Addr::V4(0),
        dst: Addr::V4(0xc000_0202),
        proto: Proto::Esp,
        mode: Mode::Transport,
        mark: Mark { value: 0, mask: 0 },
        reqid: 0,
        seq: 7,
        min,
        max,
    })
}

fn every_state() -> Call {
    Call::StateList(SaFilter {
        src: None,
        dst: None,
        proto: None,
        spi: None,
        mode: None,
        reqid: None,
    })
}

fn reply(rt: &impl Abort, plain: &mut Plain, call: &Call) -> Reply {
    assert!(rt; plain.young());
    plain.step(call)
}

#[test]
fn first_policy_has_index_nine(rt: HostRuntime) -> Result<(), Fail> {
    let alloc = rt.alloc();
    for mut plain in [Plain::new(alloc)?, Plain::sized(alloc, 1, 1)?] {
        assert_eq!(rt;
            reply(&rt, &mut plain, &Call::PolicyAdd(policy())),
            Reply::DoneIndex(9)
        );
    }
    Ok(())
}

#[test]
fn state_is_added_used_updated_and_listed(rt: HostRuntime) -> Result<(), Fail> {
    let mut plain = Plain::new(rt.alloc())?;
    for (call, answer) in [
        (Call::StateAdd(spec()), Reply::DoneSid(1)),
        (Call::StateAdd(spec()), Reply::StateExists(1)),
        (packet(), accepted()),
        (packet(), Reply::Seen { top: 5 }),
        (Call::StateUpdate(spec()), Reply::DoneSid(1)),
    ] {
        assert_eq!(rt; reply(&rt, &mut plain, &call), answer);
    }
    match reply(&rt, &mut plain, &every_state()) {
        Reply::StateList(states) => assert_eq!(rt; states.as_slice().len(), 1),
        other => assert!(rt; false, "{other:?} is no list"),
    }
    Ok(())
}

// A policy whose flows want a state of ESP.
fn policy_with_template() -> PolicySpec {
    let mut items = ArrayVec::new();
    items.push(Template::default());
    let mut spec = policy();
    spec.templates = Templates { items };
    spec
}

fn flow() -> Flow {
    Flow {
        dir: Dir::Out,
        src: Addr::V4(0x0a00_0001),
        dst: Addr::V4(0xc000_0202),
        proto: 0,
        sport: 0,
        dport: 0,
        mark: 0,
        if_id: 0,
    }
}

#[test]
fn flow_asks_for_a_state_and_waits_for_it(rt: HostRuntime) -> Result<(), Fail> {
    let mut plain = Plain::new(rt.alloc())?;
    for (call, answer) in [
        (Call::PolicyAdd(policy_with_template()), Reply::DoneIndex(9)),
        (
            Call::TryFlow(flow()),
            Reply::Wanting {
                index: 9,
                template: 0,
            },
        ),
        (Call::Flow(flow()), Reply::Acquire(1)),
        (Call::Flow(flow()), Reply::Waiting(1)),
        (Call::StateAdd(spec()), Reply::DoneSid(2)),
        (
            Call::Output { sid: 2, len: 100 },
            Reply::Sent {
                proto: Proto::Esp,
                spi: 0x1000,
                seq: 1,
                soft: false,
            },
        ),
        (Call::Output { sid: 7, len: 100 }, Reply::Stale),
    ] {
        assert_eq!(rt; reply(&rt, &mut plain, &call), answer);
    }
    match reply(&rt, &mut plain, &Call::Tick(30)) {
        Reply::Ticked { now, events } => {
            assert_eq!(rt; now, 30);
            assert_eq!(rt; events.as_slice(), [Event::StateExpired(1)].as_slice());
        }
        other => assert!(rt; false, "{other:?} is no tick"),
    }
    Ok(())
}

#[test]
fn least_free_spi_is_given_then_the_next(rt: HostRuntime) -> Result<(), Fail> {
    let mut plain = Plain::new(rt.alloc())?;
    for (call, answer) in [
        (
            any_of(0x1000, 0x1001),
            Reply::DoneSpi {
                spi: 0x1000,
                sid: 1,
            },
        ),
        (
            any_of(0x1000, 0x1001),
            Reply::DoneSpi {
                spi: 0x1001,
                sid: 2,
            },
        ),
        (any_of(0x1000, 0x1001), Reply::NoSpi),
        (any_of(0x1001, 0x1000), Reply::Invalid),
        (packet(), Reply::Larval),
    ] {
        assert_eq!(rt; reply(&rt, &mut plain, &call), answer);
    }
    Ok(())
}

// A policy on this interface.
fn policy_on(if_id: u32) -> Call {
    let mut spec = policy();
    spec.if_id = if_id;
    Call::PolicyAdd(spec)
}

#[test]
fn copy_goes_on_where_the_machine_stands(rt: HostRuntime) -> Result<(), Fail> {
    let mut plain = Plain::new(rt.alloc())?;
    for (call, answer) in [
        (policy_on(0), Reply::DoneIndex(9)),
        (Call::StateAdd(spec()), Reply::DoneSid(1)),
    ] {
        assert_eq!(rt; reply(&rt, &mut plain, &call), answer);
    }
    let mut copy = plain.copy()?;
    for (call, answer) in [(policy_on(1), Reply::DoneIndex(17)), (packet(), accepted())] {
        assert_eq!(rt; reply(&rt, &mut copy, &call), answer);
    }
    assert_eq!(rt; copy.policies_gone(&plain), 1);
    assert_eq!(rt; copy.states_gone(&plain), 0);
    Ok(())
}

#[test]
fn filled_machine_takes_no_more(rt: HostRuntime) -> Result<(), Fail> {
    let mut plain = Plain::new(rt.alloc())?;
    assert_eq!(rt; reply(&rt, &mut plain, &policy_on(0)), Reply::DoneIndex(9));
    plain.fill_policies();
    plain.fill_states();
    assert_eq!(rt; (plain.policies(), plain.max_policies()), (1, 1));
    assert_eq!(rt; (plain.states(), plain.max_states()), (0, 0));
    for (call, live) in [(policy_on(1), 1), (Call::StateAdd(spec()), 0)] {
        assert_eq!(rt;
            reply(&rt, &mut plain, &call),
            Reply::Full { live, waiting: 0 }
        );
    }
    Ok(())
}

#[test]
fn machine_of_parts_goes_on(rt: HostRuntime) -> Result<(), Fail> {
    let alloc = rt.alloc();
    let state = Sa {
        sid: 4,
        added: 0,
        larval: false,
        dying: false,
        spec: spec(),
    };
    let own = Own {
        window: Window::new(alloc, state.spec.window, 3)?,
        out: 0,
        packets: 1,
        bytes: 100,
        first: Some(2),
    };
    let mut plain = Plain::of(PlainParts {
        policies: Vec::new(alloc),
        states: Vec::from_array(alloc, [state])?,
        own: Vec::from_array(alloc, [own])?,
        room: Vec::with_capacity(alloc, 1)?,
        next_index: 2,
        next_seq: 1,
        next_sid: 5,
        next_number: 2,
        thresholds: Thresholds {
            v4: Some((32, 32)),
            v6: Some((128, 128)),
        },
        now: 3,
        max_policies: 4096,
        max_states: 8192,
    });
    for (call, answer) in [
        (policy_on(0), Reply::DoneIndex(17)),
        (packet(), accepted()),
        (Call::StateAdd(spec()), Reply::StateExists(4)),
    ] {
        assert_eq!(rt; reply(&rt, &mut plain, &call), answer);
    }
    Ok(())
}
