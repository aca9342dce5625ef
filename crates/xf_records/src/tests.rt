//! That records are put and got on words in memory. No clause says that the words of any record are some record's.
use super::*;
use arrayvec::ArrayVec;
use std::process::Abort;
use std::test::Fail;
use xf_cells::VecCells;
use xf_types::{
    Action, Addr, Dir, Level, Limits, Mark, Mode, Policy, PolicySpec, Prefix, Proto, Ptype, Sa,
    SaSpec, Selector, Template, Templates,
};

// A policy with two templates.
fn policy() -> Policy {
    let mut items = ArrayVec::new();
    items.push(Template::default());
    items.push(Template {
        src: Addr::V6(1),
        dst: Addr::V6(0x2001_0db8_0000_0000_0000_0000_0000_0001),
        spi: 7,
        reqid: 8,
        proto: Proto::Comp,
        mode: Mode::InTrigger,
        level: Level::Use,
    });
    let mut limits = Limits::none();
    limits.byte_hard = Some(0);
    Policy {
        number: 3,
        index: 9,
        added: 100,
        soft: false,
        spec: PolicySpec {
            sel: Selector {
                src: Prefix::new(Addr::V6(0x2001_0db8_0000_0000_0000_0000_0000_0000), 32),
                dst: Prefix::new(Addr::V6(0), 0),
                proto: 6,
                sport: None,
                dport: Some(0),
            },
            templates: Templates { items },
            limits,
            mark: Mark { value: 2, mask: 3 },
            if_id: 1,
            priority: 10,
            index: 0,
            dir: Dir::Out,
            ptype: Ptype::Sub,
            action: Action::Block,
        },
    }
}

// A state with a wide window and extended numbers.
fn state() -> Sa {
    Sa {
        sid: 4,
        added: 100,
        larval: false,
        dying: false,
        spec: SaSpec {
            src: Addr::V4(0),
            dst: Addr::V4(0xc000_0202),
            proto: Proto::Esp,
            spi: 0x1000,
            mode: Mode::Tunnel,
            reqid: 7,
            seq: 0,
            mark: Mark { value: 0, mask: 0 },
            if_id: 0,
            sel: None,
            window: 4096,
            in_seq: 0xffff_ffff_ffff_ffff,
            out_seq: 5,
            wildrecv: false,
            esn: true,
            limits: Limits::none(),
        },
    }
}

#[test]
fn policy_is_put_and_got(rt: HostRuntime) -> Result<(), Fail> {
    let mut cells = VecCells::new(rt.alloc(), 128)?;
    assert_eq!(rt; get_policy(&mut cells, 5), None);
    put_policy(&mut cells, 5, &policy());
    assert_eq!(rt; get_policy(&mut cells, 5), Some(policy()));
    put_soft(&mut cells, 5);
    let warned = Policy {
        soft: true,
        ..policy()
    };
    assert_eq!(rt; get_policy(&mut cells, 5), Some(warned));
    Ok(())
}

#[test]
fn state_is_put_and_got(rt: HostRuntime) -> Result<(), Fail> {
    let mut cells = VecCells::new(rt.alloc(), 64)?;
    assert_eq!(rt; get_state(&mut cells, 3), None);
    put_state(&mut cells, 3, &state());
    assert_eq!(rt; get_state(&mut cells, 3), Some(state()));
    put_dying(&mut cells, 3);
    let dying = Sa {
        dying: true,
        ..state()
    };
    assert_eq!(rt; get_state(&mut cells, 3), Some(dying));
    Ok(())
}
