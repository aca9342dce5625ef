//! What a value answers, row by row: how the clauses look to a caller.
use super::*;
use std::alloc::Global;
use std::process::Abort;
use std::test::Fail;
use xf_life::Verdict;
use xf_replay::{NoMemory, Window};
use xf_types::{Addr, Event, Limits, Mark, Mode, Packet, Proto, Reply, Sa, SaSpec, Stands};

fn state(limits: Limits) -> Sa {
    Sa {
        sid: 1,
        added: 0,
        larval: false,
        dying: false,
        spec: SaSpec {
            src: Addr::V4(0),
            dst: Addr::V4(0xc000_0202),
            proto: Proto::Esp,
            spi: 0x1000,
            mode: Mode::Transport,
            reqid: 0,
            seq: 0,
            mark: Mark { value: 0, mask: 0 },
            if_id: 0,
            sel: None,
            window: 32,
            in_seq: 0,
            out_seq: 0xffff_fffd,
            wildrecv: false,
            esn: false,
            limits,
        },
    }
}

fn packet(seq: u32, icv_ok: bool) -> Packet {
    Packet {
        src: Addr::V4(0),
        dst: Addr::V4(0xc000_0202),
        proto: Proto::Esp,
        spi: 0x1000,
        seq: u64::from(seq),
        len: 60,
        mark: 0,
        icv_ok,
    }
}

fn local(alloc: Global, limits: Limits) -> Result<Local, NoMemory> {
    let state = state(limits);
    let window = Window::new(alloc, state.spec.window, state.spec.in_seq)?;
    Ok(Local::new(&state, window, 0))
}

fn accepted(top: u64, soft: bool) -> Inbound {
    Inbound::Answer(Reply::Accepted { top, soft })
}

fn sent(seq: u64) -> Outbound {
    Outbound::Answer(Reply::Sent {
        proto: Proto::Esp,
        spi: 0x1000,
        seq,
        soft: false,
    })
}

// A slot's value, as one thread hands it to another.
fn handed_on<T: Stands + Send + Drop>(value: T) -> T {
    value
}

// A packet that is foreseen, and then comes.
fn assert_inbound(rt: &impl Abort, local: &mut Local, packet: &Packet, answer: &Inbound) {
    assert_eq!(rt; local.would(packet), *answer, "{packet:?} is foreseen");
    assert_eq!(rt; local.inbound(packet), *answer, "{packet:?} comes");
}

#[test]
fn packets_meet_the_window(rt: HostRuntime) -> Result<(), Fail> {
    let mut local = local(rt.alloc(), Limits::none())?;
    for (seq, answer) in [
        (1, accepted(1, false)),
        (33, accepted(33, false)),
        (2, accepted(33, false)),
        (1, Inbound::Answer(Reply::Old { top: 33 })),
        (0, Inbound::Answer(Reply::Zero)),
        (33, Inbound::Answer(Reply::Seen { top: 33 })),
    ] {
        assert_inbound(&rt, &mut local, &packet(seq, true), &answer);
    }
    let mut other = packet(34, true);
    other.spi = 0x1001;
    assert_inbound(&rt, &mut local, &other, &Inbound::Answer(Reply::NoState));
    Ok(())
}

#[test]
fn outputs_end_at_the_last_number(rt: HostRuntime) -> Result<(), Fail> {
    let mut local = local(rt.alloc(), Limits::none())?;
    for answer in [
        sent(0xffff_fffe),
        sent(0xffff_ffff),
        Outbound::Answer(Reply::Overflow { soft: false }),
    ] {
        assert_eq!(rt; local.outbound(60), answer);
    }
    Ok(())
}

#[test]
fn soft_limit_warns_once(rt: HostRuntime) -> Result<(), Fail> {
    let mut limits = Limits::none();
    limits.byte_soft = Some(100);
    let mut local = local(rt.alloc(), limits)?;
    for (seq, answer) in [
        (1, accepted(1, false)),
        (2, accepted(2, false)),
        (3, Inbound::NeedsTurn),
        // That changed nothing.
        (3, Inbound::NeedsTurn),
    ] {
        assert_inbound(&rt, &mut local, &packet(seq, true), &answer);
    }
    assert_eq!(rt; local.outbound(60), Outbound::NeedsTurn);
    assert_eq!(rt; local.inbound_settled(&packet(3, true)), accepted(3, true));
    let bad = Inbound::Answer(Reply::BadIcv { soft: false });
    assert_inbound(&rt, &mut local, &packet(4, false), &bad);
    assert_inbound(&rt, &mut local, &packet(4, true), &accepted(4, false));
    assert_eq!(rt; local.outbound(60), sent(0xffff_fffe));
    Ok(())
}

#[test]
fn hard_limit_ends(rt: HostRuntime) -> Result<(), Fail> {
    let mut limits = Limits::none();
    limits.packet_hard = Some(1);
    let mut local = local(rt.alloc(), limits)?;
    assert_inbound(&rt, &mut local, &packet(1, true), &accepted(1, false));
    assert_inbound(&rt, &mut local, &packet(2, true), &Inbound::NeedsTurn);
    assert_eq!(rt; local.outbound(60), Outbound::NeedsTurn);
    assert!(rt; local.own().is_some(), "it is live as yet");
    let expired = Outbound::Answer(Reply::Expired);
    assert_eq!(rt; local.outbound_settled(60), expired);
    assert_inbound(&rt, &mut local, &packet(2, true), &Inbound::Dead);
    assert_eq!(rt; local.inbound_settled(&packet(2, true)), Inbound::Dead);
    assert_eq!(rt; local.outbound(60), Outbound::Dead);
    assert!(rt; local.own().is_none(), "it is dead");
    assert!(rt;
        Local::dead().own().is_none(),
        "a dead value has no own part"
    );
    Ok(())
}

#[test]
fn time_and_record_are_replaced(rt: HostRuntime) -> Result<(), Fail> {
    let mut first = state(Limits::none());
    first.spec.limits.time_hard = 10;
    let window = Window::new(rt.alloc(), first.spec.window, first.spec.in_seq)?;
    let mut local = Local::new(&first, window, 0);
    assert_eq!(rt; local.due(), Verdict::Fine);
    local.set_now(10);
    assert_eq!(rt; local.due(), Verdict::Hard);
    let mut renewed = first;
    renewed.spec.limits.time_hard = 0;
    local.renew(&renewed);
    assert_eq!(rt; local.due(), Verdict::Fine);
    assert_inbound(&rt, &mut local, &packet(1, true), &accepted(1, false));
    match local.own() {
        Some(own) => assert_eq!(rt; own.first, Some(10)),
        None => assert!(rt; false, "it is live"),
    }
    Ok(())
}

#[test]
fn time_ends_a_value_that_is_handed_on(rt: HostRuntime) -> Result<(), Fail> {
    let mut first = state(Limits::none());
    first.spec.limits.time_soft = 5;
    first.spec.limits.time_hard = 10;
    let window = Window::new(rt.alloc(), first.spec.window, first.spec.in_seq)?;
    let mut local = handed_on(Local::new(&first, window, 0));
    for (now, event) in [
        (4, None),
        (5, Some(Event::StateSoft(1))),
        (9, None),
        (10, Some(Event::StateExpired(1))),
        (11, None),
    ] {
        assert_eq!(rt; local.event(now), event, "at {now}");
        local.age(now);
    }
    assert!(rt; local.own().is_none(), "it ended");
    Ok(())
}
