//! Each reply beside the counts that it belongs to, and the text of a summary.
use super::*;
use std::alloc::Global;
use std::test::*;
use xf_types::{
    Action, Addr, Dir, Events, Limits, Mark, Mode, Path, Policies, Policy, PolicySpec, Prefix,
    Proto, Ptype, Reply, Sa, SaSpec, Sas, Selector, Templates,
};

const NO_MARK: Mark = Mark { value: 0, mask: 0 };

fn policy() -> Policy {
    let sel = Selector {
        src: Prefix::new(Addr::V4(0), 0),
        dst: Prefix::new(Addr::V4(0), 0),
        proto: 0,
        sport: None,
        dport: None,
    };
    Policy {
        number: 1,
        index: 9,
        added: 0,
        soft: false,
        spec: PolicySpec {
            dir: Dir::Out,
            ptype: Ptype::Main,
            sel,
            mark: NO_MARK,
            if_id: 0,
            priority: 0,
            action: Action::Allow,
            index: 0,
            limits: Limits::none(),
            templates: Templates::none(),
        },
    }
}

fn state() -> Sa {
    Sa {
        sid: 1,
        added: 0,
        larval: false,
        dying: false,
        spec: SaSpec {
            src: Addr::V4(0),
            dst: Addr::V4(1),
            proto: Proto::Esp,
            spi: 1,
            mode: Mode::Transport,
            reqid: 0,
            seq: 0,
            mark: NO_MARK,
            if_id: 0,
            sel: None,
            window: 0,
            in_seq: 0,
            out_seq: 0,
            wildrecv: false,
            esn: false,
            limits: Limits::none(),
        },
    }
}

fn sent(seq: u64) -> Reply {
    Reply::Sent {
        proto: Proto::Esp,
        spi: 0x1000,
        seq,
        soft: false,
    }
}

fn allowed() -> Reply {
    Reply::FlowAllow {
        index: 9,
        path: Path::empty(),
    }
}

fn count(tally: &mut Tally, line: u64, reply: &Reply) -> Result<(), Fail> {
    if line > 1 << 20 || tally.calls() >= 1 << 40 {
        return Err(Fail::new("no room"));
    }
    tally.add(line, reply);
    Ok(())
}

fn counted(line: u64, reply: &Reply) -> Result<Tally, Fail> {
    let mut tally = Tally::new();
    count(&mut tally, line, reply)?;
    Ok(tally)
}

fn counts(tally: &Tally) -> [u64; 8] {
    [
        tally.lines(),
        tally.calls(),
        tally.policy(),
        tally.none(),
        tally.sent(),
        tally.accepted(),
        tally.dropped(),
        tally.refused(),
    ]
}

#[test]
fn replies_of_a_kind_are_counted(rt: HostRuntime) -> Result<(), Fail> {
    // The counts of lines, calls, policies, none, sent, accepted, dropped and refused.
    let policy = [0, 1, 1, 0, 0, 0, 0, 0];
    let none = [0, 1, 0, 1, 0, 0, 0, 0];
    let accepted = [0, 1, 0, 0, 0, 1, 0, 0];
    let dropped = [0, 1, 0, 0, 0, 0, 1, 0];
    let refused = [0, 1, 0, 0, 0, 0, 0, 1];
    let full = Reply::Full {
        live: 4096,
        waiting: 1,
    };
    for (reply, wanted) in [
        (Reply::FlowBlock(9), policy),
        (allowed(), policy),
        (Reply::FlowNone, none),
        (Reply::Accepted { top: 3, soft: true }, accepted),
        (Reply::Zero, dropped),
        (Reply::Old { top: 33 }, dropped),
        (Reply::Seen { top: 33 }, dropped),
        (Reply::Expired, dropped),
        (Reply::Larval, dropped),
        (Reply::BadIcv { soft: false }, dropped),
        (Reply::PolicyExists(9), refused),
        (Reply::StateExists(1), refused),
        (Reply::NoEntry, refused),
        (Reply::NoState, refused),
        (Reply::Invalid, refused),
        (full, refused),
        (Reply::NoSpi, refused),
        (Reply::NoMemory, refused),
    ] {
        let tally = counted(7, &reply)?;
        assert_eq!(rt; counts(&tally), wanted, "{reply:?}");
        assert_eq!(rt; tally.mix(), 0, "{reply:?}");
    }
    Ok(())
}

#[test]
fn sent_numbers_are_mixed_with_lines(rt: HostRuntime) -> Result<(), Fail> {
    for (line, seq, mix) in [
        (7, 3, 21),
        (4007, 1, 4007),
        (1 << 20, u64::MAX, 19342813113834066794250240),
    ] {
        let tally = counted(line, &sent(seq))?;
        assert_eq!(rt; counts(&tally), [0, 1, 0, 0, 1, 0, 0, 0], "{line}");
        assert_eq!(rt; tally.mix(), mix, "{line}");
    }
    Ok(())
}

fn other_replies(alloc: Global) -> [Reply; 18] {
    [
        Reply::Done,
        Reply::DoneIndex(9),
        Reply::DoneSid(1),
        Reply::DoneSpi { spi: 1, sid: 1 },
        Reply::Removed(1),
        Reply::PolicyShown(policy()),
        Reply::PolicyList(Policies::new(Vec::new(alloc))),
        Reply::PolicyCount {
            inward: 1,
            outward: 2,
            forward: 3,
        },
        Reply::StateShown(state()),
        Reply::StateList(Sas::new(Vec::new(alloc))),
        Reply::StateCount(1),
        Reply::Waiting(1),
        Reply::Acquire(1),
        Reply::Wanting {
            index: 9,
            template: 0,
        },
        Reply::Again(1),
        Reply::Stale,
        Reply::Overflow { soft: true },
        Reply::Ticked {
            now: 1,
            events: Events::new(Vec::new(alloc)),
        },
    ]
}

#[test]
fn other_replies_are_calls_alone(rt: HostRuntime) -> Result<(), Fail> {
    for reply in &other_replies(rt.alloc()) {
        let tally = counted(7, reply)?;
        assert_eq!(rt; counts(&tally), [0, 1, 0, 0, 0, 0, 0, 0], "{reply:?}");
        assert_eq!(rt; tally.mix(), 0, "{reply:?}");
    }
    Ok(())
}

fn printed(alloc: Global, tally: &Tally) -> Result<Vec<u8>, Fail> {
    let mut out = Vec::from_slice(alloc, b"-")?;
    match print_tally(&mut out, tally) {
        Ok(()) => Ok(out),
        Err(_) => Err(Fail::new("no memory")),
    }
}

#[test]
fn summaries_have_nine_lines(rt: HostRuntime) -> Result<(), Fail> {
    let mut tally = Tally::new();
    let nothing: &[u8] =
        b"-lines 0\ncalls 0\npolicy 0\nnone 0\nsent 0\naccepted 0\ndropped 0\nrefused 0\nmix 0\n";
    assert_eq!(rt; printed(rt.alloc(), &tally)?.as_slice(), nothing);
    tally.add_lines(10);
    for (line, reply) in [
        (2, Reply::FlowBlock(9)),
        (3, allowed()),
        (3, sent(1)),
        (3, sent(9)),
        (4, Reply::FlowNone),
        (5, allowed()),
        (5, sent(4294967295)),
        (6, Reply::Larval),
        (7, Reply::Zero),
        (8, Reply::Accepted { top: 1, soft: true }),
        (9, Reply::NoState),
        (10, Reply::Done),
    ] {
        count(&mut tally, line, &reply)?;
    }
    // 3 * 1 + 3 * 9 + 5 * 4294967295.
    let whole: &[u8] =
        b"-lines 10\ncalls 12\npolicy 3\nnone 1\nsent 3\naccepted 1\ndropped 2\nrefused 1\nmix 21474836505\n";
    assert_eq!(rt; printed(rt.alloc(), &tally)?.as_slice(), whole);
    Ok(())
}
