//! Calls in which keys, indexes and priorities meet often.
ghost use Rattle.std.specs.Prelude.{◌<◌, ◌≤◌};

use xf_types::{
    Action, Addr, Call, Dir, Flow, Limits, Mark, PolicyFilter, PolicyKey, PolicySpec, Prefix,
    Ptype, Selector, Templates, Thresholds,
};

/// Numbers by a rule.
#[derive(Drop)]
pub struct Dice {
    pub x: u64,
}

impl Dice {
    fn roll(&mut self, sides: u32) -> u32
        requires { 0 < sides }
        ensures { result < sides }
    {
        self.x = self
            .x
            .wrapping_mul(6_364_136_223_846_793_005)
            .wrapping_add(1_442_695_040_888_963_407);
        (self.x >> 33) as u32 % sides
    }

    fn v4(&mut self) -> u32 {
        match self.roll(4) {
            0 => 0x0a00_0101,
            _ => 0x0a00_0001,
        }
    }

    fn v4_len(&mut self) -> u8
        ensures { result ≤ 32 }
    {
        match self.roll(5) {
            0 => 0,
            1 => 24,
            _ => 32,
        }
    }

    fn v6(&mut self) -> u128 {
        match self.roll(4) {
            0 => (0x2001_0db8 << 96) + (1 << 64),
            1 => 0x2001_0db9 << 96,
            _ => (0x2001_0db8 << 96) + 1,
        }
    }

    fn v6_len(&mut self) -> u8
        ensures { result ≤ 128 }
    {
        match self.roll(5) {
            0 => 0,
            1 => 64,
            _ => 128,
        }
    }

    fn dir(&mut self) -> Dir {
        match self.roll(12) {
            0 => Dir::In,
            1 => Dir::Fwd,
            _ => Dir::Out,
        }
    }

    fn ptype(&mut self) -> Ptype {
        match self.roll(4) {
            0 => Ptype::Sub,
            _ => Ptype::Main,
        }
    }

    fn action(&mut self) -> Action {
        match self.roll(3) {
            0 => Action::Block,
            _ => Action::Allow,
        }
    }

    fn proto(&mut self) -> u8 {
        match self.roll(16) {
            0 => 6,
            _ => 0,
        }
    }

    fn port(&mut self) -> Option<u16> {
        match self.roll(24) {
            0 => Some(1),
            _ => None,
        }
    }

    fn mark(&mut self) -> Mark {
        match self.roll(16) {
            0 => Mark { value: 1, mask: 1 },
            1 => Mark { value: 2, mask: 3 },
            _ => Mark { value: 0, mask: 0 },
        }
    }

    fn if_id(&mut self) -> u32 {
        match self.roll(16) {
            0 => 1,
            _ => 0,
        }
    }

    /// None, one that may be taken, or one that may be of another direction.
    fn index(&mut self, dir: Dir) -> u32 {
        match self.roll(8) {
            0 => 8 * (1 + self.roll(40)) + dir.number(),
            1 => 8 * (1 + self.roll(40)) + self.roll(8),
            _ => 0,
        }
    }

    fn sel(&mut self) -> Selector {
        match self.roll(4) {
            0 => Selector {
                src: Prefix::new(Addr::V6(self.v6()), self.v6_len()),
                dst: Prefix::new(Addr::V6(self.v6()), self.v6_len()),
                proto: self.proto(),
                sport: self.port(),
                dport: self.port(),
            },
            _ => Selector {
                src: Prefix::new(Addr::V4(self.v4()), self.v4_len()),
                dst: Prefix::new(Addr::V4(self.v4()), self.v4_len()),
                proto: self.proto(),
                sport: self.port(),
                dport: self.port(),
            },
        }
    }

    fn spec(&mut self) -> PolicySpec {
        let dir = self.dir();
        PolicySpec {
            sel: self.sel(),
            templates: Templates::none(),
            limits: Limits::none(),
            mark: self.mark(),
            if_id: self.if_id(),
            priority: self.roll(3),
            index: self.index(dir),
            dir,
            ptype: self.ptype(),
            action: self.action(),
        }
    }

    fn key(&mut self) -> PolicyKey {
        let dir = self.dir();
        match self.roll(3) {
            0 => PolicyKey::Index {
                dir,
                index: 8 * (1 + self.roll(40)) + dir.number(),
            },
            _ => PolicyKey::Same {
                dir,
                ptype: self.ptype(),
                sel: self.sel(),
                mark: self.mark(),
                if_id: self.if_id(),
            },
        }
    }

    /// Nothing, or one condition on what many policies share.
    fn filter(&mut self) -> PolicyFilter {
        let chosen = self.roll(6);
        let sel = self.sel();
        PolicyFilter {
            dir: if chosen == 0 { Some(self.dir()) } else { None },
            ptype: if chosen == 1 {
                Some(self.ptype())
            } else {
                None
            },
            action: if chosen == 2 {
                Some(self.action())
            } else {
                None
            },
            priority: if chosen == 3 {
                Some(self.roll(3))
            } else {
                None
            },
            index: None,
            src: if chosen == 4 { Some(sel.src) } else { None },
            dst: if chosen == 5 { Some(sel.dst) } else { None },
            proto: None,
            sport: None,
            dport: None,
        }
    }

    fn flow(&mut self) -> Flow {
        let (src, dst) = match self.roll(4) {
            0 => (Addr::V6(self.v6()), Addr::V6(self.v6())),
            _ => (Addr::V4(self.v4()), Addr::V4(self.v4())),
        };
        Flow {
            dir: self.dir(),
            src,
            dst,
            proto: self.proto(),
            sport: self.roll(2) as u16,
            dport: self.roll(2) as u16,
            mark: if self.roll(4) == 0 { 1 } else { 0 },
            if_id: self.if_id(),
        }
    }

    fn thresholds(&mut self) -> Thresholds {
        match self.roll(3) {
            0 => Thresholds {
                v4: Some((self.v4_len(), self.v4_len())),
                v6: None,
            },
            1 => Thresholds {
                v4: None,
                v6: Some((self.v6_len(), self.v6_len())),
            },
            _ => Thresholds {
                v4: Some((self.v4_len(), self.v4_len())),
                v6: Some((self.v6_len(), self.v6_len())),
            },
        }
    }

    fn rare_call(&mut self) -> Call {
        match self.roll(12) {
            0 => Call::PolicyFlush(Some(self.ptype())),
            1 => Call::PolicyDeleteAll(self.filter()),
            2 | 3 => Call::PolicyCount,
            4 | 5 | 6 => Call::PolicySet(self.thresholds()),
            _ => Call::PolicyList(self.filter()),
        }
    }

    pub fn call(&mut self) -> Call {
        match self.roll(20) {
            0..=6 => Call::PolicyAdd(self.spec()),
            7..=9 => Call::PolicyUpdate(self.spec()),
            10 | 11 => Call::PolicyDelete(self.key()),
            12 => Call::PolicyGet(self.key()),
            13..=15 => Call::Flow(self.flow()),
            16 => Call::TryFlow(self.flow()),
            _ => self.rare_call(),
        }
    }
}
