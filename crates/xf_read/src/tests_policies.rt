//! Lines of policies and flows, with what they ask for.

use crate::reader::Item;
use crate::tests::{V6_NET, between, every, read, read_line, reader, v4, v6};
use std::test::*;
use xf_types::{
    Action, Addr, Call, Dir, Flow, Limits, Mark, PolicyFilter, PolicyKey, PolicySpec, Ptype,
    Selector, Templates,
};

// A policy whose other words have their defaults.
pub(crate) fn spec(dir: Dir, sel: Selector) -> PolicySpec {
    PolicySpec {
        dir,
        ptype: Ptype::Main,
        sel,
        mark: Mark { value: 0, mask: 0 },
        if_id: 0,
        priority: 0,
        action: Action::Allow,
        index: 0,
        limits: Limits::none(),
        templates: Templates::none(),
    }
}

// No condition.
fn open_filter() -> PolicyFilter {
    PolicyFilter {
        dir: None,
        ptype: None,
        action: None,
        priority: None,
        index: None,
        src: None,
        dst: None,
        proto: None,
        sport: None,
        dport: None,
    }
}

pub(crate) fn flow(dir: Dir, src: Addr, dst: Addr) -> Flow {
    Flow {
        dir,
        src,
        dst,
        proto: 0,
        sport: 0,
        dport: 0,
        mark: 0,
        if_id: 0,
    }
}

#[test]
fn policies_are_read(rt: HostRuntime) -> Result<(), Fail> {
    let mut reader = reader(rt.alloc())?;
    assert_eq!(rt;
        read_line(&mut reader, rt.alloc(), b"xfrm policy add dir in", 1)?,
        Ok(Item::One(Call::PolicyAdd(spec(Dir::In, every()))))
    );
    let sel = Selector {
        src: v6(V6_NET, 32),
        dst: v6(0, 0),
        proto: 6,
        sport: None,
        dport: Some(443),
    };
    assert_eq!(rt;
        read_line(
            &mut reader,
            rt.alloc(),
            b"xfrm policy add src 2001:DB8:0:0::/32 dst ::/0 proto tcp dport 443 dir out priority 7 mark 0x2a\n",
            1
        )?,
        Ok(Item::One(Call::PolicyAdd(PolicySpec {
            priority: 7,
            mark: Mark {
                value: 42,
                mask: u32::MAX
            },
            ..spec(Dir::Out, sel)
        })))
    );
    let sel = Selector {
        src: v4(0x0a090807, 8),
        dst: v4(0xc0000201, 32),
        proto: 1,
        sport: Some(8),
        dport: Some(0),
    };
    let wanted = PolicySpec {
        ptype: Ptype::Sub,
        mark: Mark {
            value: 0xff,
            mask: 15,
        },
        if_id: u32::MAX,
        priority: u32::MAX,
        action: Action::Block,
        index: 26,
        limits: Limits {
            time_soft: 1,
            time_hard: 2,
            use_soft: 3,
            use_hard: u64::MAX,
            byte_soft: Some(0),
            byte_hard: Some(5),
            packet_soft: Some(6),
            packet_hard: Some(7),
        },
        ..spec(Dir::Fwd, sel)
    };
    assert_eq!(rt;
        read_line(
            &mut reader,
            rt.alloc(),
            b"xfrm policy update limit packet-hard 7 limit packet-soft 6 flag icmp localok icmp flag localok \
code 0x0 type 8 proto icmp action block ptype sub index 26 if_id 0xFFFFffff priority 4294967295 \
mark 0xff mask 0x0000000f limit byte-soft 0 limit byte-hard 5 dst 192.0.2.1 src 10.9.8.7/8 dir fwd \
limit time-soft 1 limit time-hard 2 limit time-use-soft 3 limit time-use-hard 0xffffffffffffffff",
            1
        )?,
        Ok(Item::One(Call::PolicyUpdate(wanted)))
    );
    Ok(())
}

#[test]
fn edges_of_policies_are_read(rt: HostRuntime) -> Result<(), Fail> {
    let mut reader = reader(rt.alloc())?;
    let none = Limits::none();
    let all_ones = Mark {
        value: u32::MAX,
        mask: u32::MAX,
    };
    let unmarked = Mark { value: 0, mask: 0 };
    let cases: [(&[u8], u32, Mark, Limits); 11] = [
        (b"index 4294967295", u32::MAX, unmarked, none),
        (b"mark 4294967295", 0, all_ones, none),
        (
            b"limit byte-hard 18446744073709551615",
            0,
            unmarked,
            Limits {
                byte_hard: Some(u64::MAX),
                ..none
            },
        ),
        (
            b"limit byte-soft 18446744073709551615",
            0,
            unmarked,
            Limits {
                byte_soft: Some(u64::MAX),
                ..none
            },
        ),
        (
            b"limit packet-hard 0",
            0,
            unmarked,
            Limits {
                packet_hard: Some(0),
                ..none
            },
        ),
        (
            b"limit packet-hard 18446744073709551615",
            0,
            unmarked,
            Limits {
                packet_hard: Some(u64::MAX),
                ..none
            },
        ),
        (
            b"limit packet-soft 0",
            0,
            unmarked,
            Limits {
                packet_soft: Some(0),
                ..none
            },
        ),
        (
            b"limit packet-soft 18446744073709551615",
            0,
            unmarked,
            Limits {
                packet_soft: Some(u64::MAX),
                ..none
            },
        ),
        (
            b"limit time-soft 18446744073709551615",
            0,
            unmarked,
            Limits {
                time_soft: u64::MAX,
                ..none
            },
        ),
        (b"limit time-use-hard 0", 0, unmarked, none),
        (
            b"limit time-use-soft 18446744073709551615",
            0,
            unmarked,
            Limits {
                use_soft: u64::MAX,
                ..none
            },
        ),
    ];
    for (words, index, mark, limits) in cases {
        let wanted = PolicySpec {
            index,
            mark,
            limits,
            ..spec(Dir::Out, every())
        };
        assert_eq!(rt;
            read(&mut reader, rt.alloc(), b"xfrm policy add dir out ", words)?,
            Item::One(Call::PolicyAdd(wanted))
        );
    }
    Ok(())
}

#[test]
fn a_prefix_without_family_takes_the_others(rt: HostRuntime) -> Result<(), Fail> {
    let mut reader = reader(rt.alloc())?;
    let to_v6 = between(v6(0, 0), v6(1, 128));
    let from_v6 = between(v6(1, 128), v6(0, 0));
    let cases: [(&[u8], Selector); 6] = [
        (b"xfrm policy add dir in src any", every()),
        (b"xfrm policy add dir in dst all src default", every()),
        (b"xfrm policy add dir in dst ::1", to_v6),
        (b"xfrm policy add dir in src all dst ::1/128", to_v6),
        (b"xfrm policy add dir in src ::1", from_v6),
        (b"xfrm policy add dir in src ::1 dst any", from_v6),
    ];
    for (line, sel) in cases {
        assert_eq!(rt;
            read_line(&mut reader, rt.alloc(), line, 1)?,
            Ok(Item::One(Call::PolicyAdd(spec(Dir::In, sel))))
        );
    }
    Ok(())
}

#[test]
fn keys_are_read(rt: HostRuntime) -> Result<(), Fail> {
    let mut reader = reader(rt.alloc())?;
    let plain = PolicyKey::Same {
        dir: Dir::In,
        ptype: Ptype::Main,
        sel: every(),
        mark: Mark { value: 0, mask: 0 },
        if_id: 0,
    };
    let whole = PolicyKey::Same {
        dir: Dir::Out,
        ptype: Ptype::Sub,
        sel: Selector {
            src: v4(0x0a000000, 8),
            dst: v4(0, 0),
            proto: 17,
            sport: Some(0),
            dport: None,
        },
        mark: Mark { value: 1, mask: 2 },
        if_id: 3,
    };
    let index = |index| PolicyKey::Index {
        dir: Dir::Out,
        index,
    };
    let outward = |value, mask, if_id| PolicyKey::Same {
        dir: Dir::Out,
        ptype: Ptype::Main,
        sel: every(),
        mark: Mark { value, mask },
        if_id,
    };
    let cases: [(&[u8], PolicyKey); 8] = [
        (b"dir in", plain),
        (b"dir out if_id 4294967295", outward(0, 0, u32::MAX)),
        (b"dir out index 4294967295", index(u32::MAX)),
        (b"dir out mark 4294967295", outward(u32::MAX, u32::MAX, 0)),
        (b"dir in src any proto 0", plain),
        (b"index 9 dir out", index(9)),
        (b"dir out index 0", index(0)),
        (
            b"ptype sub if_id 3 mark 1 mask 2 proto udp sport 0 src 10.0.0.0/8 dir out",
            whole,
        ),
    ];
    for (words, key) in cases {
        assert_eq!(rt;
            read(&mut reader, rt.alloc(), b"xfrm policy delete ", words)?,
            Item::One(Call::PolicyDelete(key))
        );
        assert_eq!(rt;
            read(&mut reader, rt.alloc(), b"xfrm policy del ", words)?,
            Item::One(Call::PolicyDelete(key))
        );
        assert_eq!(rt;
            read(&mut reader, rt.alloc(), b"xfrm policy get ", words)?,
            Item::One(Call::PolicyGet(key))
        );
    }
    Ok(())
}

#[test]
fn filters_are_read(rt: HostRuntime) -> Result<(), Fail> {
    let mut reader = reader(rt.alloc())?;
    let whole = PolicyFilter {
        dir: Some(Dir::Fwd),
        ptype: Some(Ptype::Main),
        action: Some(Action::Block),
        priority: Some(1),
        index: Some(0),
        src: Some(v6(V6_NET, 32)),
        dst: Some(v6(0, 0)),
        proto: Some(58),
        sport: Some(1),
        dport: Some(255),
    };
    let numbered = |index, priority| PolicyFilter {
        index,
        priority,
        ..open_filter()
    };
    let ported = |proto, sport, dport| PolicyFilter {
        proto: Some(proto),
        sport,
        dport,
        ..open_filter()
    };
    let cases: [(&[u8], PolicyFilter); 13] = [
        (b"", open_filter()),
        (
            b"action allow",
            PolicyFilter {
                action: Some(Action::Allow),
                ..open_filter()
            },
        ),
        (b"flag icmp flag icmp", open_filter()),
        (b"index 4294967295", numbered(Some(u32::MAX), None)),
        (b"priority 0", numbered(None, Some(0))),
        (b"priority 4294967295", numbered(None, Some(u32::MAX))),
        (b"proto icmp type 255", ported(1, Some(255), None)),
        (b"proto tcp dport 65535", ported(6, None, Some(65535))),
        (b"proto tcp sport 65535", ported(6, Some(65535), None)),
        (b"nosock flag localok", open_filter()),
        (
            b"src any",
            PolicyFilter {
                src: Some(v4(0, 0)),
                ..open_filter()
            },
        ),
        (
            b"proto 0",
            PolicyFilter {
                proto: Some(0),
                ..open_filter()
            },
        ),
        (
            b"nosock index 0 priority 1 action block ptype main dir fwd dst default src 2001:db8::1/32 \
proto ipv6-icmp type 1 code 255 flag icmp icmp",
            whole,
        ),
    ];
    for (words, filter) in cases {
        assert_eq!(rt;
            read(&mut reader, rt.alloc(), b"xfrm policy deleteall ", words)?,
            Item::One(Call::PolicyDeleteAll(filter))
        );
        let heads: [&[u8]; 3] = [
            b"xfrm policy list ",
            b"xfrm policy show ",
            b"xfrm policy ls ",
        ];
        for head in heads {
            assert_eq!(rt;
                read(&mut reader, rt.alloc(), head, words)?,
                Item::One(Call::PolicyList(filter))
            );
        }
    }
    Ok(())
}

#[test]
fn other_policy_lines_are_read(rt: HostRuntime) -> Result<(), Fail> {
    let mut reader = reader(rt.alloc())?;
    let lengths: [(&[u8], Option<(u8, u8)>, Option<(u8, u8)>); 4] = [
        (b"xfrm policy set hthresh4 0 32", Some((0, 32)), None),
        (b"xfrm policy set hthresh4 32 0", Some((32, 0)), None),
        (b"xfrm policy set hthresh6 0 128", None, Some((0, 128))),
        (
            b"xfrm policy set hthresh6 64 0x30 hthresh4 24 16",
            Some((24, 16)),
            Some((64, 48)),
        ),
    ];
    for (line, v4, v6) in lengths {
        let Ok(Item::One(Call::PolicySet(thresholds))) = read_line(
            &mut reader,
            rt.alloc(),
            line,
            1,
        )?
        else {
            return Err(Fail::new("no thresholds"));
        };
        assert_eq!(rt; (thresholds.v4, thresholds.v6), (v4, v6));
    }
    let kinds: [(&[u8], Option<Ptype>); 3] = [
        (b"xfrm policy flush", None),
        (b"xfrm policy flush ptype main", Some(Ptype::Main)),
        (b"xfrm policy flush ptype sub\n", Some(Ptype::Sub)),
    ];
    for (line, ptype) in kinds {
        assert_eq!(rt;
            read_line(&mut reader, rt.alloc(), line, 1)?,
            Ok(Item::One(Call::PolicyFlush(ptype)))
        );
    }
    assert_eq!(rt;
        read_line(&mut reader, rt.alloc(), b"xfrm policy count", 1)?,
        Ok(Item::One(Call::PolicyCount))
    );
    Ok(())
}

#[test]
fn flows_are_read(rt: HostRuntime) -> Result<(), Fail> {
    let mut reader = reader(rt.alloc())?;
    let src = Addr::V4(0x0a010203);
    let dst = Addr::V4(0xc0000201);
    let cases: [(&[u8], Flow); 5] = [
        (
            b"flow out src 10.1.2.3 dst 192.0.2.1",
            flow(Dir::Out, src, dst),
        ),
        (
            b"flow in dst 192.0.2.1 src 10.1.2.3 proto 0",
            flow(Dir::In, src, dst),
        ),
        (
            b"flow fwd src 2001:db8::1 dst ::",
            flow(Dir::Fwd, Addr::V6(V6_NET + 1), Addr::V6(0)),
        ),
        (
            b"flow out if_id 4294967295 mark 0x2A dport 0 sport 65535 proto dccp src 10.1.2.3 dst 192.0.2.1",
            Flow {
                proto: 33,
                sport: 65535,
                mark: 42,
                if_id: u32::MAX,
                ..flow(Dir::Out, src, dst)
            },
        ),
        (
            b"flow out src 10.1.2.3 dst 192.0.2.1 code 255 type 3 proto mobility-header",
            Flow {
                proto: 135,
                sport: 3,
                dport: 255,
                ..flow(Dir::Out, src, dst)
            },
        ),
    ];
    for (line, flow) in cases {
        assert_eq!(rt;
            read_line(&mut reader, rt.alloc(), line, 1)?,
            Ok(Item::One(Call::Flow(flow)))
        );
    }
    Ok(())
}

#[test]
fn protocols_have_names(rt: HostRuntime) -> Result<(), Fail> {
    let mut reader = reader(rt.alloc())?;
    let names: [(&[u8], u8); 11] = [
        (b"tcp", 6),
        (b"udp", 17),
        (b"dccp", 33),
        (b"sctp", 132),
        (b"icmp", 1),
        (b"ipv6-icmp", 58),
        (b"mobility-header", 135),
        (b"gre", 47),
        (b"255", 255),
        (b"0xff", 255),
        (b"0x0000000000000006", 6),
    ];
    for (name, proto) in names {
        let wanted = PolicyFilter {
            proto: Some(proto),
            ..open_filter()
        };
        assert_eq!(rt;
            read(&mut reader, rt.alloc(), b"xfrm policy list proto ", name)?,
            Item::One(Call::PolicyList(wanted))
        );
        let wanted = Flow {
            proto,
            ..flow(Dir::In, Addr::V4(1), Addr::V4(2))
        };
        assert_eq!(rt;
            read(
                &mut reader,
                rt.alloc(),
                b"flow in src 0.0.0.1 dst 0.0.0.2 proto ",
                name
            )?,
            Item::One(Call::Flow(wanted))
        );
    }
    Ok(())
}
