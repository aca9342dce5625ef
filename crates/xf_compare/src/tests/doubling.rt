//! States that are listed one after another while the heads of their chains are doubled.
ghost use Rattle.std.specs.Prelude.{◌≡◌};

use crate::Listed;
use std::process::Abort;
use std::test::Fail;
use xf_types::{Addr, Limits, Mark, Mode, Proto, SaId, SaSpec};

/// The state of a number: those of an even number and the next have one SPI, and the first alone asks for a mark.
fn spec(number: u32) -> SaSpec
    ensures { result.seq ≡ 0 }
{
    SaSpec {
        src: Addr::V4(1),
        dst: Addr::V4(2),
        proto: Proto::Esp,
        spi: number / 2,
        mode: Mode::Transport,
        reqid: 0,
        seq: 0,
        mark: if number % 2 == 0 {
            Mark { value: 1, mask: 1 }
        } else {
            Mark { value: 0, mask: 0 }
        },
        if_id: 0,
        sel: None,
        window: 0,
        in_seq: 0,
        out_seq: 0,
        wildrecv: false,
        esn: false,
        limits: Limits::none(),
    }
}

/// With this mark both states of an SPI are named, and the latest is found; each state's number is its state id less 1.
fn finds(rt: &impl Abort, listed: &mut Listed, count: u32) {
    for number in 0..count {
        let id = SaId {
            dst: Addr::V4(2),
            proto: Proto::Esp,
            spi: number / 2,
            mark: 1,
        };
        let last = count - 1;
        let latest = if number % 2 == 0 && number < last {
            number + 1
        } else {
            number
        };
        assert_eq!(rt;
            listed.find(&id),
            Some(u64::from(latest) + 1),
            "{number} of {count}"
        );
    }
}

#[test]
fn heads_are_doubled_one_after_another(rt: HostRuntime) -> Result<(), Fail> {
    let mut listed = Listed::new(rt.alloc(), 64)?;
    for number in 0..64 {
        assert!(rt; listed.add(&spec(number)).is_ok());
        finds(&rt, &mut listed, number + 1);
        match number + 1 {
            8 => assert_eq!(rt; listed.heads(), (8, 0)),
            9 => assert_eq!(rt; listed.heads(), (16, 7)),
            16 => assert_eq!(rt; listed.heads(), (16, 0)),
            17 => assert_eq!(rt; listed.heads(), (32, 15)),
            _ => {}
        }
    }
    Ok(())
}
