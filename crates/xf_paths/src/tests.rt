//! Worked rows: one list of states, and what templates come to on it. The states are told apart by their request ids.
use super::*;
use std::alloc::Global;
use std::process::Abort;
use std::test::Fail;
use xf_held::Held;
use xf_types::{Addr, Dir, Flow, Level, Limits, Mark, Mode, Packet, Proto, SaSpec, Template};

const HOST: Addr = Addr::V4(0x0a00_0001);

const PEER: Addr = Addr::V4(0x0a00_0002);

const GATE: Addr = Addr::V4(0xc000_0201);

const FAR_GATE: Addr = Addr::V4(0xc000_0202);

fn flow() -> Flow {
    Flow {
        dir: Dir::Out,
        src: HOST,
        dst: PEER,
        proto: 17,
        sport: 0,
        dport: 0,
        mark: 0,
        if_id: 0,
    }
}

fn transport(reqid: u32) -> Template {
    Template {
        src: Addr::V4(0),
        dst: Addr::V4(0),
        proto: Proto::Esp,
        spi: 0,
        mode: Mode::Transport,
        reqid,
        level: Level::Required,
    }
}

fn tunnel(reqid: u32) -> Template {
    Template {
        src: GATE,
        dst: FAR_GATE,
        mode: Mode::Tunnel,
        ..transport(reqid)
    }
}

fn optional(template: Template) -> Template {
    Template {
        level: Level::Use,
        ..template
    }
}

fn spec(reqid: u32, spi: u32) -> SaSpec {
    SaSpec {
        src: HOST,
        dst: PEER,
        proto: Proto::Esp,
        spi,
        mode: Mode::Transport,
        reqid,
        seq: 0,
        mark: Mark { value: 0, mask: 0 },
        if_id: 0,
        sel: None,
        window: 0,
        in_seq: 0,
        out_seq: 0,
        wildrecv: false,
        esn: false,
        limits: Limits::none(),
    }
}

fn dying(alloc: Global, sid: u64, added: u64, mut spec: SaSpec) -> Result<Held, Fail> {
    spec.limits.packet_soft = Some(0);
    let mut held = Held::new(alloc, sid, added, &spec)?;
    let packet = Packet {
        src: spec.src,
        dst: spec.dst,
        proto: spec.proto,
        spi: spec.spi,
        seq: 1,
        len: 0,
        mark: 0,
        icv_ok: true,
    };
    held.receive(&packet, added);
    Ok(held)
}

fn states(alloc: Global) -> Result<Vec<Held>, Fail> {
    let mut wild = spec(3, 0x31);
    wild.wildrecv = true;
    let mut open = spec(4, 0x40);
    open.src = Addr::V6(0);
    let mut gate = spec(5, 0x50);
    gate.src = GATE;
    gate.dst = FAR_GATE;
    let mut inner = gate;
    gate.mode = Mode::Tunnel;
    inner.reqid = 6;
    let mut first = spec(7, 0x70);
    first.seq = 70;
    let mut second = spec(7, 0x71);
    second.seq = 71;

    let mut all = Vec::new(alloc);
    all.push(Held::new(alloc, 1, 5, &spec(1, 0x10))?)?;
    all.push(Held::new(alloc, 2, 5, &spec(1, 0x11))?)?;
    all.push(Held::new(alloc, 3, 5, &spec(2, 0x20))?)?;
    all.push(dying(alloc, 4, 9, spec(2, 0x21))?)?;
    all.push(Held::new(alloc, 5, 5, &spec(3, 0x30))?)?;
    all.push(Held::new(alloc, 6, 9, &wild)?)?;
    all.push(Held::new(alloc, 7, 5, &open)?)?;
    all.push(Held::new(alloc, 8, 5, &gate)?)?;
    all.push(Held::new(alloc, 9, 5, &inner)?)?;
    all.push(Held::new_larval(alloc, 10, 5, &first)?)?;
    all.push(Held::new_larval(alloc, 11, 5, &second)?)?;
    Ok(all)
}

fn expect_path(rt: &impl Abort, name: &str, states: &[Held], templates: &[Template], sids: &[u64]) {
    assert!(rt; templates.len() <= 6);
    match resolve(states, &flow(), templates) {
        Resolved::Through(path) => {
            let hops = path.as_slice();
            assert_eq!(rt; hops.len(), sids.len(), "{name}");
            for (hop, sid) in hops.iter().zip(sids) {
                assert_eq!(rt; hop.sid, *sid, "{name}");
            }
        }
        _ => assert!(rt; false, "{name}"),
    }
}

#[test]
fn templates_take_their_best_states(rt: HostRuntime) -> Result<(), Fail> {
    let all = states(rt.alloc())?;
    let one = transport(1);
    let mut of_spi = one;
    of_spi.spi = 0x10;
    let skipped = optional(tunnel(99));

    expect_path(&rt, "no template", &all, &[], &[]);
    expect_path(&rt, "of equal times the last", &all, &[one], &[2]);
    expect_path(&rt, "the SPI that is asked for", &all, &[of_spi], &[1]);
    expect_path(
        &rt,
        "not the later one, which is dying",
        &all,
        &[transport(2)],
        &[3],
    );
    expect_path(
        &rt,
        "not the one with wildrecv",
        &all,
        &[transport(3)],
        &[5],
    );
    expect_path(
        &rt,
        "a zero source of the other family",
        &all,
        &[transport(4)],
        &[7],
    );
    expect_path(
        &rt,
        "a skipped one between two",
        &all,
        &[one, skipped, one],
        &[2, 2],
    );
    expect_path(
        &rt,
        "a tunnel between two",
        &all,
        &[one, tunnel(5), transport(6)],
        &[2, 8, 9],
    );
    Ok(())
}

#[test]
fn templates_without_a_state_wait_or_want(rt: HostRuntime) -> Result<(), Fail> {
    let all = states(rt.alloc())?;
    let wanted = transport(98);
    let through_gates = tunnel(98);

    assert_eq!(rt;
        resolve(&all, &flow(), &[transport(7)]),
        Resolved::Waits(71)
    );
    assert_eq!(rt;
        resolve(&all, &flow(), &[optional(tunnel(99)), wanted]),
        Resolved::Wants {
            template: wanted,
            place: 1,
            src: HOST,
            dst: PEER,
        }
    );
    assert_eq!(rt;
        resolve(&all, &flow(), &[transport(1), through_gates]),
        Resolved::Wants {
            template: through_gates,
            place: 1,
            src: GATE,
            dst: FAR_GATE,
        }
    );
    Ok(())
}
