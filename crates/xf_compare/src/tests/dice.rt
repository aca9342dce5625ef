//! Numbers by a rule, and calls of all kinds, in which addresses, ids and numbers meet often.
ghost use Rattle.std.specs.Prelude.{◌<◌};

use xf_types::{Addr, Call, Dir, Flow, Limits, Mark, Mode, Packet, Proto, Ptype, Reply};

/// Numbers by a rule, and the last state id that a reply told.
#[derive(Drop)]
pub struct Dice {
    x: u64,
    sid: u64,
    time: u64,
}

impl Dice {
    pub fn new(seed: u64) -> Dice {
        Dice {
            x: seed,
            sid: 0,
            time: 0,
        }
    }

    pub fn roll(&mut self, sides: u32) -> u32
        requires { 0 < sides }
        ensures { result < sides }
    {
        self.x = self
            .x
            .wrapping_mul(6_364_136_223_846_793_005)
            .wrapping_add(1_442_695_040_888_963_407);
        (self.x >> 33) as u32 % sides
    }

    /// Takes notice of the state id that a reply tells.
    pub fn learn(&mut self, reply: &Reply) {
        match reply {
            Reply::DoneSid(sid) => self.sid = *sid,
            Reply::DoneSpi { spi: _, sid } => self.sid = *sid,
            _ => {}
        }
    }

    pub fn addr(&mut self) -> Addr {
        match self.roll(9) {
            0 | 1 | 2 | 3 => Addr::V4(0x0a00_0001),
            4 | 5 | 6 => Addr::V4(0x0a00_0101),
            7 => Addr::V4(0xc000_0201),
            _ => Addr::V6(0x2001_0db8 << 96),
        }
    }

    pub fn dir(&mut self) -> Dir {
        match self.roll(10) {
            0 => Dir::In,
            1 => Dir::Fwd,
            _ => Dir::Out,
        }
    }

    pub fn ptype(&mut self) -> Ptype {
        match self.roll(4) {
            0 => Ptype::Sub,
            _ => Ptype::Main,
        }
    }

    pub fn proto(&mut self) -> Proto {
        match self.roll(6) {
            0 => Proto::Ah,
            1 => Proto::Comp,
            _ => Proto::Esp,
        }
    }

    pub fn mode(&mut self) -> Mode {
        match self.roll(4) {
            0 => Mode::Tunnel,
            _ => Mode::Transport,
        }
    }

    pub fn mark(&mut self) -> Mark {
        match self.roll(12) {
            0 => Mark { value: 1, mask: 1 },
            1 => Mark { value: 2, mask: 3 },
            _ => Mark { value: 0, mask: 0 },
        }
    }

    pub fn if_id(&mut self) -> u32 {
        match self.roll(12) {
            0 => 1,
            _ => 0,
        }
    }

    fn some(&mut self, sides: u32) -> Option<u64>
        requires { 0 < sides }
    {
        match self.roll(4) {
            0 => Some(u64::from(self.roll(sides))),
            _ => None,
        }
    }

    fn few(&mut self) -> u64 {
        match self.roll(3) {
            0 => u64::from(self.roll(60)),
            _ => 0,
        }
    }

    /// Limits that are met soon, or none.
    pub fn limits(&mut self) -> Limits {
        match self.roll(3) {
            0 => Limits {
                time_soft: self.few(),
                time_hard: self.few(),
                use_soft: self.few(),
                use_hard: self.few(),
                byte_soft: self.some(2_000),
                byte_hard: self.some(4_000),
                packet_soft: self.some(10),
                packet_hard: self.some(20),
            },
            _ => Limits::none(),
        }
    }

    pub fn flow(&mut self) -> Flow {
        Flow {
            dir: self.dir(),
            src: self.addr(),
            dst: self.addr(),
            proto: if self.roll(8) == 0 { 6 } else { 0 },
            sport: self.roll(2) as u16,
            dport: self.roll(2) as u16,
            mark: self.roll(3),
            if_id: self.if_id(),
        }
    }

    /// A number of 32 bits near an end, or small.
    pub fn number(&mut self) -> u32 {
        match self.roll(4) {
            0 => u32::MAX - self.roll(3),
            _ => self.roll(40),
        }
    }

    fn packet(&mut self) -> Packet {
        let seq = u64::from(self.number());
        Packet {
            src: self.addr(),
            dst: self.addr(),
            proto: self.proto(),
            spi: self.roll(5),
            seq,
            len: self.roll(200),
            mark: self.roll(3),
            icv_ok: self.roll(8) != 0,
        }
    }

    fn output(&mut self) -> Call {
        let back = u64::from(self.roll(12));
        Call::Output {
            sid: self.sid.saturating_sub(back),
            len: self.roll(200),
        }
    }

    fn tick(&mut self) -> Call {
        let step = u64::from(self.roll(8));
        match self.roll(6) {
            0 => Call::Tick(self.time.saturating_sub(step)),
            _ => {
                self.time = self.time.saturating_add(step);
                Call::Tick(self.time)
            }
        }
    }

    pub fn call(&mut self) -> Call {
        match self.roll(20) {
            0..=5 => self.policy_call(),
            6..=11 => self.state_call(),
            12 | 13 => Call::Flow(self.flow()),
            14 => Call::TryFlow(self.flow()),
            15..=17 => Call::Packet(self.packet()),
            18 => self.output(),
            _ => self.tick(),
        }
    }
}
