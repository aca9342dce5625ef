//! Records of policies and states.
ghost use Rattle.std.specs.Prelude.{◌≤◌};

use super::{at, printed};
use std::test::*;
use xf_types::{
    Action, Addr, Dir, Level, Limits, Mark, Mode, Place, Policies, Policy, PolicySpec, Prefix,
    Proto, Ptype, Reply, Sa, SaSpec, Sas, Selector, Template, Templates,
};

/// What a selector asks beside its prefixes: the protocol, and the two ports.
type Asks = (u8, Option<u16>, Option<u16>);

fn between(src: (u32, u8), dst: (u32, u8), asks: Asks) -> Selector
    requires src_fits { src.1 ≤ 32 }
    requires dst_fits { dst.1 ≤ 32 }
{
    Selector {
        src: Prefix::new(Addr::V4(src.0), src.1),
        dst: Prefix::new(Addr::V4(dst.0), dst.1),
        proto: asks.0,
        sport: asks.1,
        dport: asks.2,
    }
}

fn between_v6(src: (u128, u8), dst: (u128, u8), asks: Asks) -> Selector
    requires src_fits { src.1 ≤ 128 }
    requires dst_fits { dst.1 ≤ 128 }
{
    Selector {
        src: Prefix::new(Addr::V6(src.0), src.1),
        dst: Prefix::new(Addr::V6(dst.0), dst.1),
        proto: asks.0,
        sport: asks.1,
        dport: asks.2,
    }
}

const NO_MARK: Mark = Mark { value: 0, mask: 0 };

const ALL_LIMITS: Limits = Limits {
    time_soft: 1,
    time_hard: 2,
    use_soft: 3,
    use_hard: 18446744073709551615,
    byte_soft: Some(0),
    byte_hard: Some(6),
    packet_soft: Some(7),
    packet_hard: Some(18446744073709551615),
};

const SOME_LIMITS: Limits = Limits {
    time_soft: 0,
    time_hard: 3600,
    use_soft: 0,
    use_hard: 0,
    byte_soft: None,
    byte_hard: Some(0),
    packet_soft: None,
    packet_hard: None,
};

/// The policy of the first worked lines.
fn plain_policy() -> Policy {
    Policy {
        number: 1,
        index: 9,
        added: 0,
        soft: false,
        spec: PolicySpec {
            dir: Dir::Out,
            ptype: Ptype::Main,
            sel: between((0x0a000000, 8), (0, 0), (0, None, None)),
            mark: NO_MARK,
            if_id: 0,
            priority: 10,
            action: Action::Allow,
            index: 0,
            limits: Limits::none(),
            templates: Templates::none(),
        },
    }
}

/// A policy like the first one for what comes in.
fn inward_policy(index: u32) -> Policy {
    let mut policy = plain_policy();
    policy.index = index;
    policy.spec.dir = Dir::In;
    policy
}

/// A policy for IPv6 with a port, a mark and a template.
fn tunnel_policy() -> Policy {
    let mut templates = Templates::none();
    let _ = templates.items.try_push(Template {
        src: Addr::V6(0x20010db8000000000000000000000001),
        dst: Addr::V6(0x20010db8000000000000000000000002),
        proto: Proto::Esp,
        spi: 0,
        mode: Mode::Tunnel,
        reqid: 1,
        level: Level::Required,
    });
    Policy {
        number: 1,
        index: 9,
        added: 0,
        soft: false,
        spec: PolicySpec {
            dir: Dir::Out,
            ptype: Ptype::Main,
            sel: between_v6(
                (0x20010db8000000000000000000000000, 32),
                (0, 0),
                (6, None, Some(443)),
            ),
            mark: Mark {
                value: 0x2a,
                mask: 0xffffffff,
            },
            if_id: 0,
            priority: 371327,
            action: Action::Allow,
            index: 0,
            limits: Limits::none(),
            templates,
        },
    }
}

/// A policy with all that may stand in its record.
fn full_policy() -> Policy {
    let mut templates = Templates::none();
    let _ = templates.items.try_push(Template {
        src: Addr::V4(0xc6336401),
        dst: Addr::V4(0xc6336402),
        proto: Proto::Ah,
        spi: 0xdeadbeef,
        mode: Mode::Beet,
        reqid: 4294967295,
        level: Level::Use,
    });
    let _ = templates.items.try_push(Template {
        src: Addr::V4(0),
        dst: Addr::V4(0),
        proto: Proto::Comp,
        spi: 0x100,
        mode: Mode::Transport,
        reqid: 0,
        level: Level::Required,
    });
    Policy {
        number: 3,
        index: 4294967290,
        added: 18446744073709551615,
        soft: true,
        spec: PolicySpec {
            dir: Dir::Fwd,
            ptype: Ptype::Sub,
            sel: between((0xc0000201, 32), (0xc6336400, 24), (1, Some(8), Some(0))),
            mark: Mark {
                value: 0x12345678,
                mask: 0x9abcdef0,
            },
            if_id: 77,
            priority: 4294967295,
            action: Action::Block,
            index: 4294967290,
            limits: ALL_LIMITS,
            templates,
        },
    }
}

/// The state of the first worked lines.
fn plain_state() -> Sa {
    Sa {
        sid: 1,
        added: 0,
        larval: false,
        dying: false,
        spec: SaSpec {
            src: Addr::V4(0xc0000201),
            dst: Addr::V4(0xc0000202),
            proto: Proto::Esp,
            spi: 0x1000,
            mode: Mode::Tunnel,
            reqid: 1,
            seq: 0,
            mark: NO_MARK,
            if_id: 0,
            sel: None,
            window: 32,
            in_seq: 0,
            out_seq: 0,
            wildrecv: false,
            esn: false,
            limits: Limits::none(),
        },
    }
}

/// A state with all that may stand in its record.
fn full_state() -> Sa {
    Sa {
        sid: 18446744073709551615,
        added: 100,
        larval: true,
        dying: true,
        spec: SaSpec {
            src: Addr::V6(0x20010db8000000000000000000000001),
            dst: Addr::V6(0x20010db8000000000000000000000002),
            proto: Proto::Comp,
            spi: 0xffff,
            mode: Mode::InTrigger,
            reqid: 3,
            seq: 5,
            mark: Mark {
                value: 0x2a,
                mask: 0xff,
            },
            if_id: 6,
            sel: Some(between_v6((1, 128), (0, 0), (17, Some(500), Some(65535)))),
            window: 0,
            in_seq: 7,
            out_seq: 8,
            wildrecv: true,
            esn: true,
            limits: SOME_LIMITS,
        },
    }
}

/// A state like the first one in another mode.
fn state_in(sid: u64, mode: Mode, larval: bool, dying: bool) -> Sa {
    let mut state = plain_state();
    state.sid = sid;
    state.spec.mode = mode;
    state.larval = larval;
    state.dying = dying;
    state
}

#[test]
fn records_have_their_texts(rt: HostRuntime) -> Result<(), Fail> {
    let alloc = rt.alloc();
    let texts: [(Place, Reply, &[u8]); 7] = [
        (
            at(2, 0),
            Reply::PolicyShown(tunnel_policy()),
            b"2: policy 9 dir out ptype main src 2001:db8::/32 dst ::/0 proto 6 dport 443 mark 0x0000002a mask 0xffffffff if_id 0 priority 371327 action allow added 0 tmpl src 2001:db8::1 dst 2001:db8::2 proto esp spi 0x00000000 mode tunnel reqid 1 level required\n",
        ),
        (
            at(6, 0),
            Reply::PolicyShown(full_policy()),
            b"6: policy 4294967290 dir fwd ptype sub src 192.0.2.1/32 dst 198.51.100.0/24 proto 1 sport 8 dport 0 mark 0x12345678 mask 0x9abcdef0 if_id 77 priority 4294967295 action block added 18446744073709551615 limit time-soft 1 limit time-hard 2 limit time-use-soft 3 limit time-use-hard 18446744073709551615 limit byte-soft 0 limit byte-hard 6 limit packet-soft 7 limit packet-hard 18446744073709551615 tmpl src 198.51.100.1 dst 198.51.100.2 proto ah spi 0xdeadbeef mode beet reqid 4294967295 level use tmpl src 0.0.0.0 dst 0.0.0.0 proto comp spi 0x00000100 mode transport reqid 0 level required soft\n",
        ),
        (
            at(2, 0),
            Reply::PolicyList(Policies::new(vec![in alloc; plain_policy()]?)),
            b"2: list 1\n2: policy 9 dir out ptype main src 10.0.0.0/8 dst 0.0.0.0/0 proto 0 mark 0x00000000 mask 0x00000000 if_id 0 priority 10 action allow added 0\n",
        ),
        (
            at(7, 0),
            Reply::PolicyList(Policies::new(vec![in alloc; plain_policy(), inward_policy(16)]?)),
            b"7: list 2\n7: policy 9 dir out ptype main src 10.0.0.0/8 dst 0.0.0.0/0 proto 0 mark 0x00000000 mask 0x00000000 if_id 0 priority 10 action allow added 0\n7: policy 16 dir in ptype main src 10.0.0.0/8 dst 0.0.0.0/0 proto 0 mark 0x00000000 mask 0x00000000 if_id 0 priority 10 action allow added 0\n",
        ),
        (
            at(3, 0),
            Reply::StateShown(plain_state()),
            b"3: state 1 src 192.0.2.1 dst 192.0.2.2 proto esp spi 0x00001000 reqid 1 mode tunnel seq 0 mark 0x00000000 mask 0x00000000 if_id 0 replay-window 32 added 0\n",
        ),
        (
            at(4, 0),
            Reply::StateShown(full_state()),
            b"4: state 18446744073709551615 src 2001:db8::1 dst 2001:db8::2 proto comp spi 0x0000ffff reqid 3 mode in_trigger seq 5 mark 0x0000002a mask 0x000000ff if_id 6 replay-window 0 added 100 wildrecv esn sel src ::1/128 dst ::/0 proto 17 sport 500 dport 65535 limit time-hard 3600 limit byte-hard 0 larval dying\n",
        ),
        (
            at(5, 0),
            Reply::StateList(Sas::new(vec![in alloc;
                state_in(2, Mode::Ro, true, false),
                state_in(3, Mode::Transport, false, true),
            ]?)),
            b"5: list 2\n5: state 2 src 192.0.2.1 dst 192.0.2.2 proto esp spi 0x00001000 reqid 1 mode ro seq 0 mark 0x00000000 mask 0x00000000 if_id 0 replay-window 32 added 0 larval\n5: state 3 src 192.0.2.1 dst 192.0.2.2 proto esp spi 0x00001000 reqid 1 mode transport seq 0 mark 0x00000000 mask 0x00000000 if_id 0 replay-window 32 added 0 dying\n",
        ),
    ];
    for (at, reply, text) in texts {
        assert_eq!(rt; printed(alloc, b"", at, reply)?.as_slice(), text);
    }
    Ok(())
}
