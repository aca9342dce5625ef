//! Calls on policies.
ghost use Rattle.std.specs.Prelude.{◌≤◌};

use super::dice::Dice;
use arrayvec::ArrayVec;
use xf_types::{
    Action, Addr, Call, Dir, Level, PolicyFilter, PolicyKey, PolicySpec, Prefix, Selector,
    Template, Templates, Thresholds,
};

impl Dice {
    fn v4_len(&mut self) -> u8
        ensures { result ≤ 32 }
    {
        match self.roll(5) {
            0 => 0,
            1 => 24,
            _ => 32,
        }
    }

    fn v6_len(&mut self) -> u8
        ensures { result ≤ 128 }
    {
        match self.roll(3) {
            0 => 64,
            _ => 128,
        }
    }

    fn v4(&mut self) -> Prefix {
        let number = match self.roll(3) {
            0 => 0x0a00_0101,
            _ => 0x0a00_0001,
        };
        Prefix::new(Addr::V4(number), self.v4_len())
    }

    fn v4_sel(&mut self) -> Selector {
        let (src, src_len) = (0x0a00_0001 + 256 * self.roll(2), self.v4_len());
        let (dst, dst_len) = (0x0a00_0001 + 256 * self.roll(2), self.v4_len());
        Selector {
            src: Prefix::new(Addr::V4(src), src_len),
            dst: Prefix::new(Addr::V4(dst), dst_len),
            proto: if self.roll(12) == 0 { 6 } else { 0 },
            sport: None,
            dport: if self.roll(12) == 0 { Some(1) } else { None },
        }
    }

    fn v6_sel(&mut self) -> Selector {
        let (src_len, dst_len) = (self.v6_len(), self.v6_len());
        Selector {
            src: Prefix::new(Addr::V6(0x2001_0db8 << 96), src_len),
            dst: Prefix::new(Addr::V6(0x2001_0db8 << 96), dst_len),
            proto: 0,
            sport: None,
            dport: None,
        }
    }

    pub fn sel(&mut self) -> Selector {
        match self.roll(6) {
            0 => self.v6_sel(),
            _ => self.v4_sel(),
        }
    }

    fn template(&mut self) -> Template {
        Template {
            src: self.addr(),
            dst: self.addr(),
            spi: if self.roll(4) == 0 { self.roll(5) } else { 0 },
            reqid: self.roll(2),
            proto: self.proto(),
            mode: self.mode(),
            level: if self.roll(3) == 0 {
                Level::Use
            } else {
                Level::Required
            },
        }
    }

    fn templates(&mut self) -> Templates {
        let mut items = ArrayVec::new();
        for _item in 0..self.roll(3) {
            let template = self.template();
            if !items.is_full() {
                items.push(template);
            }
        }
        Templates { items }
    }

    /// None, one that may be taken, or one that may be of another direction.
    fn index(&mut self, dir: Dir) -> u32 {
        match self.roll(8) {
            0 => 8 * (1 + self.roll(40)) + dir.number(),
            1 => 8 * (1 + self.roll(40)) + self.roll(8),
            _ => 0,
        }
    }

    fn policy(&mut self) -> PolicySpec {
        let dir = self.dir();
        PolicySpec {
            sel: self.sel(),
            templates: self.templates(),
            limits: self.limits(),
            mark: self.mark(),
            if_id: self.if_id(),
            priority: self.roll(3),
            index: self.index(dir),
            dir,
            ptype: self.ptype(),
            action: if self.roll(5) == 0 {
                Action::Block
            } else {
                Action::Allow
            },
        }
    }

    fn key(&mut self) -> PolicyKey {
        let dir = self.dir();
        match self.roll(3) {
            0 => PolicyKey::Index {
                dir,
                index: self.index(dir),
            },
            _ => PolicyKey::Same {
                dir,
                ptype: self.ptype(),
                sel: self.sel(),
                mark: self.mark(),
                if_id: self.if_id(),
            },
        }
    }

    /// One condition that few policies meet, or two.
    fn policy_filter(&mut self) -> PolicyFilter {
        let sel = self.sel();
        let src = self.v4();
        PolicyFilter {
            dir: if self.roll(2) == 0 {
                Some(self.dir())
            } else {
                None
            },
            ptype: None,
            action: None,
            priority: if self.roll(3) == 0 {
                Some(self.roll(3))
            } else {
                None
            },
            index: None,
            src: if self.roll(2) == 0 { Some(src) } else { None },
            dst: Some(sel.dst),
            proto: None,
            sport: None,
            dport: None,
        }
    }

    fn thresholds(&mut self) -> Thresholds {
        let v4 = (self.v4_len(), self.v4_len());
        let v6 = (self.v6_len(), self.v6_len());
        match self.roll(3) {
            0 => Thresholds {
                v4: Some(v4),
                v6: None,
            },
            1 => Thresholds {
                v4: None,
                v6: Some(v6),
            },
            _ => Thresholds {
                v4: Some(v4),
                v6: Some(v6),
            },
        }
    }

    fn rare_policy_call(&mut self) -> Call {
        match self.roll(16) {
            0 => Call::PolicyFlush(Some(self.ptype())),
            1 => Call::PolicyFlush(None),
            2 | 3 | 4 => Call::PolicyDeleteAll(self.policy_filter()),
            5 | 6 | 7 => Call::PolicyCount,
            8 | 9 | 10 => Call::PolicySet(self.thresholds()),
            _ => Call::PolicyList(self.policy_filter()),
        }
    }

    pub fn policy_call(&mut self) -> Call {
        match self.roll(16) {
            0..=6 => Call::PolicyAdd(self.policy()),
            7..=10 => Call::PolicyUpdate(self.policy()),
            11 | 12 => Call::PolicyDelete(self.key()),
            13 | 14 => Call::PolicyGet(self.key()),
            _ => self.rare_policy_call(),
        }
    }
}
