//! Calls on states.
ghost use Rattle.std.specs.Prelude.{◌<◌, ◌≤◌, ◌^◌};

use super::dice::Dice;
use xf_types::{AllocSpec, Call, SaFilter, SaId, SaSpec};

impl Dice {
    fn window(&mut self) -> u32
        ensures { result ≤ 4096 }
    {
        match self.roll(6) {
            0 => 0,
            1 => 1,
            2 => 64,
            3 => 100,
            _ => 32,
        }
    }

    /// A state with numbers of 32 bits.
    fn plain_state(&mut self) -> SaSpec {
        let in_seq = u64::from(self.number());
        let out_seq = u64::from(self.number());
        SaSpec {
            src: self.addr(),
            dst: self.addr(),
            proto: self.proto(),
            spi: self.roll(5),
            mode: self.mode(),
            reqid: self.roll(2),
            seq: self.roll(4),
            mark: self.mark(),
            if_id: self.if_id(),
            sel: if self.roll(6) == 0 {
                Some(self.sel())
            } else {
                None
            },
            window: self.window(),
            in_seq,
            out_seq,
            wildrecv: self.roll(8) == 0,
            esn: false,
            limits: self.limits(),
        }
    }

    /// A state with numbers of 64 bits, near their end or near that of their low half.
    fn extended_state(&mut self) -> SaSpec {
        let near = u64::from(self.roll(4));
        let number = match self.roll(3) {
            0 => u64::MAX - near,
            _ => (1 << 32) - near,
        };
        SaSpec {
            src: self.addr(),
            dst: self.addr(),
            proto: self.proto(),
            spi: self.roll(5),
            mode: self.mode(),
            reqid: self.roll(2),
            seq: self.roll(4),
            mark: self.mark(),
            if_id: 0,
            sel: None,
            window: self.window(),
            in_seq: number,
            out_seq: number,
            wildrecv: false,
            esn: true,
            limits: self.limits(),
        }
    }

    fn state(&mut self) -> SaSpec {
        match self.roll(5) {
            0 => self.extended_state(),
            _ => self.plain_state(),
        }
    }

    fn id(&mut self) -> SaId {
        SaId {
            dst: self.addr(),
            proto: self.proto(),
            spi: self.roll(5),
            mark: self.roll(3),
        }
    }

    fn request(&mut self) -> AllocSpec {
        let min = 1 + self.roll(6);
        AllocSpec {
            src: self.addr(),
            dst: self.addr(),
            proto: self.proto(),
            mode: self.mode(),
            mark: self.mark(),
            reqid: self.roll(2),
            seq: self.roll(4),
            min,
            max: self.roll(10),
        }
    }

    fn state_filter(&mut self) -> SaFilter {
        SaFilter {
            src: if self.roll(2) == 0 {
                Some(self.addr())
            } else {
                None
            },
            dst: Some(self.addr()),
            proto: Some(self.proto()),
            spi: if self.roll(2) == 0 {
                Some(self.roll(5))
            } else {
                None
            },
            mode: None,
            reqid: if self.roll(3) == 0 {
                Some(self.roll(2))
            } else {
                None
            },
        }
    }

    fn rare_state_call(&mut self) -> Call {
        match self.roll(16) {
            0 => Call::StateFlush(Some(self.proto())),
            1 => Call::StateFlush(None),
            2..=5 => Call::StateDeleteAll(self.state_filter()),
            6..=9 => Call::StateCount,
            _ => Call::StateList(self.state_filter()),
        }
    }

    pub fn state_call(&mut self) -> Call {
        match self.roll(16) {
            0..=6 => Call::StateAdd(self.state()),
            7..=9 => Call::StateUpdate(self.state()),
            10 | 11 => Call::StateDelete(self.id()),
            12 => Call::StateGet(self.id()),
            13 | 14 => Call::AllocSpi(self.request()),
            _ => self.rare_state_call(),
        }
    }
}
