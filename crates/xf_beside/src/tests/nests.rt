//! Policies whose prefixes nest, share addresses or differ in one bit, in both families, of lengths 0 to 32 and 128.
ghost use Rattle.std.specs.Prelude.{◌<◌};

use xf_types::{
    Action, Addr, Dir, Flow, Limits, Mark, PolicyKey, PolicySpec, Prefix, Ptype, Selector,
    Templates, Thresholds,
};

const V4: u32 = 0x0aaa_aaaa;

const V6: u128 = 0x2001_0db8_aaaa_aaaa_aaaa_aaaa_aaaa_aaaa;

/// The selector of a policy: of each of five kinds there are 20, which nest or differ by the number `k`.
fn sel_at(kind: u32, k: u8) -> Selector
    requires { k < 20 }
{
    let (src, dst) = match kind {
        // 20 sources in one another, for one destination
        0 => (
            Prefix::new(Addr::V4(V4), 32 - k),
            Prefix::new(Addr::V4(V4), 0),
        ),
        // 20 destinations in one another, for a source of any address
        1 => (
            Prefix::new(Addr::V4(V4), 0),
            Prefix::new(Addr::V4(V4), 32 - k),
        ),
        // sources that differ from one address in one bit
        2 => (
            Prefix::new(Addr::V4(V4 ^ (1 << k)), 32),
            Prefix::new(Addr::V4(V4), 24),
        ),
        // 20 sources and 20 destinations in one another
        3 => (
            Prefix::new(Addr::V6(V6), 128 - k),
            Prefix::new(Addr::V6(V6), 100 + k),
        ),
        // destinations that differ from one address in one bit, for a source of any address
        _ => (
            Prefix::new(Addr::V6(V6), 0),
            Prefix::new(Addr::V6(V6 ^ (1 << k)), 128),
        ),
    };
    Selector {
        src,
        dst,
        proto: 0,
        sport: None,
        dport: None,
    }
}

pub fn spec_at(kind: u32, k: u8) -> PolicySpec
    requires { k < 20 }
{
    PolicySpec {
        sel: sel_at(kind, k),
        templates: Templates::none(),
        limits: Limits::none(),
        mark: Mark { value: 0, mask: 0 },
        if_id: 0,
        priority: u32::from(k) % 7,
        index: 0,
        dir: Dir::Out,
        ptype: Ptype::Main,
        action: Action::Allow,
    }
}

pub fn key_at(kind: u32, k: u8) -> PolicyKey
    requires { k < 20 }
{
    PolicyKey::Same {
        dir: Dir::Out,
        ptype: Ptype::Main,
        sel: sel_at(kind, k),
        mark: Mark { value: 0, mask: 0 },
        if_id: 0,
    }
}

/// A flow between the addresses of the policies of a kind, or between ones that differ from them in a bit.
pub fn flow_at(kind: u32, k: u8) -> Flow
    requires { k < 20 }
{
    let (src, dst) = match kind {
        0 => (Addr::V4(V4 ^ (1 << k)), Addr::V4(V4)),
        1 => (Addr::V4(V4), Addr::V4(V4 ^ (1 << k))),
        2 => (Addr::V4(V4 ^ (1 << k)), Addr::V4(V4 ^ 1)),
        3 => (Addr::V6(V6 ^ (1 << k)), Addr::V6(V6)),
        _ => (Addr::V6(V6), Addr::V6(V6 ^ (1 << k))),
    };
    Flow {
        dir: Dir::Out,
        src,
        dst,
        proto: 6,
        sport: 1,
        dport: 2,
        mark: 0,
        if_id: 0,
    }
}

/// Thresholds under which all policies, none and some are found by exact match.
pub fn thresholds_at(turn: u8) -> Thresholds {
    let (v4, v6) = match turn % 4 {
        0 => ((0, 0), (0, 0)),
        1 => ((32, 32), (128, 128)),
        2 => ((24, 0), (120, 0)),
        _ => ((0, 24), (0, 110)),
    };
    Thresholds {
        v4: Some(v4),
        v6: Some(v6),
    }
}
