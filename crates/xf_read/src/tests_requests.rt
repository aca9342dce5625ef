//! Lines of states with limits, of requests for a fresh SPI, of sends, of ticks and of workers, with what they ask for.

use crate::reader::Item;
use crate::tests::{between, read, read_line, reader, v4};
use crate::tests_policies::flow;
use crate::tests_states::{state, with_selector};
use std::test::*;
use xf_types::{Addr, AllocSpec, Call, Dir, Flow, Limits, Mark, Mode, Proto};

const HERE: Addr = Addr::V4(0xc0000201);

const THERE: Addr = Addr::V4(0xc0000202);

#[test]
fn limits_of_states_are_read(rt: HostRuntime) -> Result<(), Fail> {
    let mut reader = reader(rt.alloc())?;
    let whole = Limits {
        time_soft: 1,
        time_hard: 2,
        use_soft: 3,
        use_hard: u64::MAX,
        byte_soft: Some(0),
        byte_hard: Some(5),
        packet_soft: Some(6),
        packet_hard: Some(7),
    };
    let hard = Limits {
        packet_hard: Some(2),
        ..Limits::none()
    };
    let cases: [(&[u8], Limits); 6] = [
        (b"limit packet-hard 2", hard),
        (b"limit packet-hard 0x2 limit time-soft 0", hard),
        (
            b"limit byte-hard 0",
            Limits {
                byte_hard: Some(0),
                ..Limits::none()
            },
        ),
        (b"limit time-use-soft 0 limit time-hard 0", Limits::none()),
        (b"enc limit byte-soft limit packet-hard 2", hard),
        (
            b"limit packet-hard 7 limit packet-soft 6 limit byte-hard 5 limit byte-soft 0 \
limit time-use-hard 18446744073709551615 flag icmp limit time-use-soft 3 limit time-hard 2 limit time-soft 1",
            whole,
        ),
    ];
    for (words, limits) in cases {
        let mut wanted = state(THERE, Proto::Esp, 1);
        wanted.limits = limits;
        assert_eq!(rt;
            read(
                &mut reader,
                rt.alloc(),
                b"xfrm state add dst 192.0.2.2 proto esp spi 1 ",
                words
            )?,
            Item::One(Call::StateAdd(wanted))
        );
        assert_eq!(rt;
            read(
                &mut reader,
                rt.alloc(),
                b"xfrm state update dst 192.0.2.2 proto esp spi 1 ",
                words
            )?,
            Item::One(Call::StateUpdate(wanted))
        );
    }
    // A limit ends the selector.
    let mut wanted = with_selector(between(v4(0, 0), v4(0xc0000201, 32)));
    wanted.limits = hard;
    assert_eq!(rt;
        read_line(
            &mut reader,
            rt.alloc(),
            b"xfrm state add sel dst 192.0.2.1 limit packet-hard 2 dst 192.0.2.2 proto esp spi 0x1000",
            1
        )?,
        Ok(Item::One(Call::StateAdd(wanted)))
    );
    Ok(())
}

// A request whose other words have their defaults.
fn alloc(src: Addr, dst: Addr, proto: Proto, min: u32, max: u32) -> AllocSpec {
    AllocSpec {
        src,
        dst,
        proto,
        mode: Mode::Transport,
        mark: Mark { value: 0, mask: 0 },
        reqid: 0,
        seq: 0,
        min,
        max,
    }
}

// The same for an ESP state.
fn esp(min: u32, max: u32) -> AllocSpec {
    alloc(Addr::V4(0), THERE, Proto::Esp, min, max)
}

fn comp(min: u32, max: u32) -> AllocSpec {
    alloc(Addr::V4(0), THERE, Proto::Comp, min, max)
}

#[test]
fn requests_for_spis_are_read(rt: HostRuntime) -> Result<(), Fail> {
    let mut reader = reader(rt.alloc())?;
    let mut whole = alloc(Addr::V6(1), Addr::V6(2), Proto::Ah, 5, 6);
    whole.mode = Mode::Tunnel;
    whole.mark = Mark { value: 5, mask: 3 };
    whole.reqid = 7;
    whole.seq = u32::MAX;
    let mut marked = esp(0x100, 0x0fffffff);
    marked.mark = Mark {
        value: 1,
        mask: u32::MAX,
    };
    let from_v6 = alloc(Addr::V6(0), Addr::V6(2), Proto::Esp, 0x100, 0x0fffffff);
    let mut all_ones = marked;
    all_ones.mark.value = u32::MAX;
    let mut required = esp(0x100, 0x0fffffff);
    required.reqid = u32::MAX;
    let cases: [(&[u8], AllocSpec); 22] = [
        (b"dst 192.0.2.2 proto esp mark 4294967295", all_ones),
        (
            b"dst 192.0.2.2 proto esp min 4294967295",
            esp(u32::MAX, 0x0fffffff),
        ),
        (b"dst 192.0.2.2 proto esp reqid 4294967295", required),
        (b"dst 192.0.2.2 proto esp", esp(0x100, 0x0fffffff)),
        (
            b"dst 192.0.2.2 proto ah",
            alloc(Addr::V4(0), THERE, Proto::Ah, 0x100, 0x0fffffff),
        ),
        (b"dst 192.0.2.2 proto comp", comp(0x100, 0xffff)),
        (b"dst 192.0.2.2 proto esp min 1", esp(1, 0x0fffffff)),
        (b"dst 192.0.2.2 proto esp max 1", esp(0x100, 1)),
        (
            b"max 4294967295 dst 192.0.2.2 proto esp",
            esp(0x100, u32::MAX),
        ),
        (
            b"min 0x100 max 0x101 dst 192.0.2.2 proto esp",
            esp(0x100, 0x101),
        ),
        (b"dst 192.0.2.2 proto esp max 7 min 7", esp(7, 7)),
        (b"dst 192.0.2.2 proto comp min 2", comp(2, 0xffff)),
        (
            b"dst 192.0.2.2 proto comp max 0x10000",
            comp(0x100, 0x10000),
        ),
        // A range that holds no number is asked all the same.
        (b"dst 192.0.2.2 proto esp min 2 max 1", esp(2, 1)),
        (
            b"dst 192.0.2.2 proto comp min 0x10000",
            comp(0x10000, 0xffff),
        ),
        (
            b"src 192.0.2.1 dst 192.0.2.2 proto esp",
            alloc(HERE, THERE, Proto::Esp, 0x100, 0x0fffffff),
        ),
        (b"dst ::2 proto esp", from_v6),
        (b"proto esp dst ::2 src ::", from_v6),
        (b"dst 192.0.2.2 proto esp mark 1", marked),
        (b"mark 1 mask 0xffffffff dst 192.0.2.2 proto esp", marked),
        (
            b"dst 192.0.2.2 proto esp mode transport reqid 0 seq 0 mark 0 mask 0",
            esp(0x100, 0x0fffffff),
        ),
        (
            b"max 6 min 5 seq 4294967295 reqid 7 mark 5 mask 3 mode tunnel proto ah dst ::2 src ::1",
            whole,
        ),
    ];
    for (words, wanted) in cases {
        assert_eq!(rt;
            read(&mut reader, rt.alloc(), b"xfrm state allocspi ", words)?,
            Item::One(Call::AllocSpi(wanted))
        );
    }
    Ok(())
}

#[test]
fn sends_are_read(rt: HostRuntime) -> Result<(), Fail> {
    let mut reader = reader(rt.alloc())?;
    let plain = flow(Dir::Out, HERE, THERE);
    let ports = Flow {
        proto: 6,
        sport: 1,
        dport: 65535,
        mark: 3,
        if_id: 4,
        ..plain
    };
    let ping = Flow {
        proto: 58,
        sport: 128,
        ..flow(Dir::Out, Addr::V6(1), Addr::V6(2))
    };
    let marked = Flow {
        mark: u32::MAX,
        ..plain
    };
    let unreachable = Flow {
        proto: 1,
        sport: 255,
        ..plain
    };
    let cases: [(&[u8], Flow, u32); 10] = [
        (b"src 192.0.2.1 dst 192.0.2.2 mark 4294967295", marked, 0),
        (
            b"src 192.0.2.1 dst 192.0.2.2 proto icmp type 255",
            unreachable,
            0,
        ),
        (b"src 192.0.2.1 dst 192.0.2.2", plain, 0),
        (b"src 192.0.2.1 dst 192.0.2.2 len 10", plain, 10),
        (b"len 0x5dc dst 192.0.2.2 src 192.0.2.1", plain, 1500),
        (
            b"src 192.0.2.1 len 4294967295 dst 192.0.2.2",
            plain,
            u32::MAX,
        ),
        (
            b"src 192.0.2.1 dst 192.0.2.2 proto 0 mark 0 if_id 0 len 0",
            plain,
            0,
        ),
        (
            b"if_id 4 len 7 mark 3 dport 65535 sport 1 proto tcp dst 192.0.2.2 src 192.0.2.1",
            ports,
            7,
        ),
        (b"src ::1 dst ::2 proto ipv6-icmp type 128 code 0", ping, 0),
        (b"src ::1 dst ::2 len 64 code 0 type 128 proto 58", ping, 64),
    ];
    for (words, flow, len) in cases {
        assert_eq!(rt;
            read(&mut reader, rt.alloc(), b"send ", words)?,
            Item::Send { flow, len }
        );
    }
    Ok(())
}

#[test]
fn ticks_are_read(rt: HostRuntime) -> Result<(), Fail> {
    let mut reader = reader(rt.alloc())?;
    let clock: [&[u8]; 4] = [
        b"tick now",
        b"tick 'now' # x",
        b"\tt\"ick\"  n\\\now\n",
        b"'tick' now",
    ];
    for line in clock {
        assert_eq!(rt;
            read_line(&mut reader, rt.alloc(), line, 1)?,
            Ok(Item::TickNow)
        );
    }
    let numbers: [(&[u8], u64); 6] = [
        (b"tick 0", 0),
        (b"tick 30", 30),
        (b"tick 0x1e", 30),
        (b"tick 0xffffffffffffffff", u64::MAX),
        (b"tick 18446744073709551615", u64::MAX),
        (b"tick 0x0000000000000001", 1),
    ];
    for (line, now) in numbers {
        assert_eq!(rt;
            read_line(&mut reader, rt.alloc(), line, 1)?,
            Ok(Item::One(Call::Tick(now)))
        );
    }
    Ok(())
}

#[test]
fn workers_are_read(rt: HostRuntime) -> Result<(), Fail> {
    let mut reader = reader(rt.alloc())?;
    let cases: [(&[u8], u32); 8] = [
        (b"worker 0", 0),
        (b"worker 9", 9),
        (b"worker 15", 15),
        (b"worker 0x0", 0),
        (b"worker 0xf", 15),
        (b"worker 0xF # x", 15),
        (b"\tw'orker'  \"1\"0\n", 10),
        (b"work\\\ner 0x000000000000000e", 14),
    ];
    for (line, worker) in cases {
        assert_eq!(rt;
            read_line(&mut reader, rt.alloc(), line, 1)?,
            Ok(Item::Worker(worker))
        );
    }
    Ok(())
}

#[test]
fn ends_of_phases_are_read(rt: HostRuntime) -> Result<(), Fail> {
    let mut reader = reader(rt.alloc())?;
    let lines: [&[u8]; 4] = [b"sync", b"sync\n", b" 'sync' # x", b"sy\\\nnc"];
    for line in lines {
        assert_eq!(rt;
            read_line(&mut reader, rt.alloc(), line, 1)?,
            Ok(Item::Sync)
        );
    }
    Ok(())
}
