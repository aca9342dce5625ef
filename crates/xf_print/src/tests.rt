//! Receipts and bad lines beside the texts that the formats give them.
use super::*;
use std::alloc::Global;
use std::test::*;
use xf_types::{
    Addr, Call, Event, Events, Hop, Path, Place, Policies, Proto, Reason, Receipt, Reply, Sas,
};

mod records;

fn path(first: Option<Hop>, second: Option<Hop>) -> Path {
    let mut path = Path::empty();
    if let Some(hop) = first {
        let _ = path.items.try_push(hop);
    }
    if let Some(hop) = second {
        let _ = path.items.try_push(hop);
    }
    path
}

const HOP_V4: Hop = Hop {
    sid: 2,
    proto: Proto::Esp,
    spi: 0x2000,
    dst: Addr::V4(0xc6336402),
};

const HOP_V6: Hop = Hop {
    sid: 3,
    proto: Proto::Ah,
    spi: 0xabcdef,
    dst: Addr::V6(1),
};

/// What is printed of a reply behind a text that stands there.
pub(crate) fn printed(
    alloc: Global,
    front: &[u8],
    at: Place,
    reply: Reply,
) -> Result<Vec<u8>, Fail> {
    let receipt = Receipt {
        number: 5,
        worker: 6,
        at,
        call: Call::PolicyCount,
        reply,
    };
    let mut out = Vec::from_slice(alloc, front)?;
    print_receipt(&mut out, &receipt)?;
    Ok(out)
}

pub(crate) fn at(line: u64, part: u32) -> Place {
    Place { line, part }
}

#[test]
fn short_replies_have_their_texts(rt: HostRuntime) -> Result<(), Fail> {
    let alloc = rt.alloc();
    let texts: [(Place, Reply, &[u8]); 43] = [
        (at(3, 0), Reply::Done, b"3: ok\n"),
        (at(1, 0), Reply::DoneIndex(9), b"1: ok index 9\n"),
        (at(4, 0), Reply::DoneSid(2), b"4: ok sid 2\n"),
        (
            at(1, 0),
            Reply::DoneSpi { spi: 0x100, sid: 1 },
            b"1: ok spi 0x00000100 sid 1\n",
        ),
        (at(3, 0), Reply::Removed(0), b"3: ok removed 0\n"),
        (
            at(3, 0),
            Reply::PolicyCount {
                inward: 0,
                outward: 4096,
                forward: 2,
            },
            b"3: count in 0 out 4096 fwd 2\n",
        ),
        (at(5, 0), Reply::StateCount(1), b"5: count 1\n"),
        (at(5, 0), Reply::FlowNone, b"5: none\n"),
        (at(3, 0), Reply::FlowBlock(9), b"3: policy 9 block\n"),
        (
            at(2, 0),
            Reply::FlowAllow {
                index: 9,
                path: path(None, None),
            },
            b"2: policy 9 allow\n",
        ),
        (
            at(5, 0),
            Reply::FlowAllow {
                index: 9,
                path: path(Some(HOP_V4), None),
            },
            b"5: policy 9 allow esp 0x00002000 198.51.100.2\n",
        ),
        (
            at(5, 0),
            Reply::FlowAllow {
                index: 17,
                path: path(Some(HOP_V6), Some(HOP_V4)),
            },
            b"5: policy 17 allow ah 0x00abcdef ::1 esp 0x00002000 198.51.100.2\n",
        ),
        (at(3, 0), Reply::Waiting(1), b"3: waiting 1\n"),
        (at(2, 0), Reply::Acquire(1), b"2: acquire 1\n"),
        (
            at(2, 0),
            Reply::Wanting {
                index: 9,
                template: 0,
            },
            b"2: policy 9 wants template 0\n",
        ),
        (at(5, 0), Reply::Again(2), b"5: again 2\n"),
        (
            at(3, 0),
            Reply::Accepted {
                top: 33,
                soft: false,
            },
            b"3: accepted top 33\n",
        ),
        (
            at(4, 0),
            Reply::Accepted { top: 3, soft: true },
            b"4: accepted top 3 soft\n",
        ),
        (at(6, 0), Reply::Zero, b"6: zero\n"),
        (at(5, 0), Reply::Old { top: 33 }, b"5: old top 33\n"),
        (at(7, 0), Reply::Seen { top: 33 }, b"7: seen top 33\n"),
        (at(4, 0), Reply::Expired, b"4: expired\n"),
        (at(4, 0), Reply::Larval, b"4: larval\n"),
        (at(6, 0), Reply::BadIcv { soft: false }, b"6: icv\n"),
        (at(6, 0), Reply::BadIcv { soft: true }, b"6: icv soft\n"),
        (
            at(3, 1),
            Reply::Sent {
                proto: Proto::Esp,
                spi: 0x1000,
                seq: 4294967295,
                soft: false,
            },
            b"3.1: sent esp 0x00001000 seq 4294967295\n",
        ),
        (
            at(18446744073709551615, 6),
            Reply::Sent {
                proto: Proto::Ah,
                spi: 0xffffffff,
                seq: 1,
                soft: true,
            },
            b"18446744073709551615.6: sent ah 0xffffffff seq 1 soft\n",
        ),
        (at(2, 1), Reply::Stale, b"2.1: stale\n"),
        (
            at(4, 1),
            Reply::Overflow { soft: false },
            b"4.1: overflow\n",
        ),
        (
            at(4, 2),
            Reply::Overflow { soft: true },
            b"4.2: overflow soft\n",
        ),
        (
            at(2, 0),
            Reply::PolicyExists(9),
            b"2: RTNETLINK answers: File exists\n",
        ),
        (
            at(4, 0),
            Reply::StateExists(1),
            b"4: RTNETLINK answers: File exists\n",
        ),
        (
            at(1, 0),
            Reply::NoEntry,
            b"1: RTNETLINK answers: No such file or directory\n",
        ),
        (
            at(2, 0),
            Reply::NoState,
            b"2: RTNETLINK answers: No such process\n",
        ),
        (
            at(3, 0),
            Reply::Invalid,
            b"3: RTNETLINK answers: Invalid argument\n",
        ),
        (
            at(4097, 0),
            Reply::Full {
                live: 4096,
                waiting: 0,
            },
            b"4097: full live 4096 waiting 0\n",
        ),
        (at(3, 0), Reply::NoSpi, b"3: no spi\n"),
        (
            at(9, 0),
            Reply::NoMemory,
            b"9: RTNETLINK answers: Cannot allocate memory\n",
        ),
        (
            at(4, 0),
            Reply::Ticked {
                now: 29,
                events: Events::new(Vec::new(alloc)),
            },
            b"4: now 29 events 0\n",
        ),
        (
            at(4, 0),
            Reply::Ticked {
                now: 30,
                events: Events::new(vec![in alloc; Event::StateExpired(1)]?),
            },
            b"4: now 30 events 1\n4: state 1 expired\n",
        ),
        (
            at(8, 0),
            Reply::Ticked {
                now: 18446744073709551615,
                events: Events::new(vec![in alloc;
                    Event::PolicySoft(9),
                    Event::PolicyExpired(17),
                    Event::StateSoft(3),
                    Event::StateExpired(4),
                ]?),
            },
            b"8: now 18446744073709551615 events 4\n8: policy 9 soft\n8: policy 17 expired\n8: state 3 soft\n8: state 4 expired\n",
        ),
        (
            at(2, 0),
            Reply::PolicyList(Policies::new(Vec::new(alloc))),
            b"2: list 0\n",
        ),
        (
            at(5, 0),
            Reply::StateList(Sas::new(Vec::new(alloc))),
            b"5: list 0\n",
        ),
    ];
    for (at, reply, text) in texts {
        assert_eq!(rt; printed(alloc, b"", at, reply)?.as_slice(), text);
    }
    Ok(())
}

#[test]
fn receipts_stand_behind_what_was_there(rt: HostRuntime) -> Result<(), Fail> {
    let alloc = rt.alloc();
    let out = printed(alloc, b"1: ok index 9\n", at(2, 0), Reply::FlowNone)?;
    assert_eq!(rt; out.as_slice(), b"1: ok index 9\n2: none\n".as_slice());
    Ok(())
}

#[test]
fn bad_lines_have_their_texts(rt: HostRuntime) -> Result<(), Fail> {
    let texts: [(u64, Reason, &[u8]); 17] = [
        (1, Reason::Byte, b"-bad line 1: byte\n"),
        (4, Reason::Long, b"-bad line 4: long\n"),
        (1, Reason::Quote, b"-bad line 1: quote\n"),
        (4, Reason::Cut, b"-bad line 4: cut\n"),
        (4, Reason::Word, b"-bad line 4: word\n"),
        (4, Reason::Unsupported, b"-bad line 4: unsupported\n"),
        (1, Reason::Missing, b"-bad line 1: missing\n"),
        (1, Reason::Repeated, b"-bad line 1: repeated\n"),
        (1, Reason::Number, b"-bad line 1: number\n"),
        (1, Reason::Range, b"-bad line 1: range\n"),
        (1, Reason::Address, b"-bad line 1: address\n"),
        (1, Reason::Family, b"-bad line 1: family\n"),
        (1, Reason::Ports, b"-bad line 1: ports\n"),
        (1, Reason::Templates, b"-bad line 1: templates\n"),
        (2, Reason::Mixed, b"-bad line 2: mixed\n"),
        (16385, Reason::Phase, b"-bad line 16385: phase\n"),
        (
            18446744073709551615,
            Reason::Input,
            b"-bad line 18446744073709551615: input\n",
        ),
    ];
    for (line, reason, text) in texts {
        let mut out = Vec::from_slice(rt.alloc(), b"-")?;
        print_bad_line(&mut out, line, reason)?;
        assert_eq!(rt; out.as_slice(), text);
    }
    Ok(())
}
