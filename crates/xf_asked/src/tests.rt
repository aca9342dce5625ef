//! That records on words in memory are asked.
use super::*;
use std::process::Abort;
use std::test::Fail;
use xf_cells::VecCells;
use xf_records::{put_policy, put_state};
use xf_types::{
    Action, Addr, Dir, Flow, Limits, Mark, Mode, Policy, PolicySpec, Prefix, Proto, Ptype, Sa,
    SaId, SaSpec, Selector, Template, Templates,
};

fn policy() -> Policy {
    Policy {
        number: 3,
        index: 9,
        added: 100,
        soft: false,
        spec: PolicySpec {
            sel: Selector {
                src: Prefix::new(Addr::V6(0x2001_0db8_0000_0000_0000_0000_0000_0000), 32),
                dst: Prefix::new(Addr::V6(0), 0),
                proto: 6,
                sport: None,
                dport: Some(0),
            },
            templates: Templates::none(),
            limits: Limits::none(),
            mark: Mark { value: 2, mask: 3 },
            if_id: 1,
            priority: 10,
            index: 0,
            dir: Dir::Out,
            ptype: Ptype::Sub,
            action: Action::Block,
        },
    }
}

fn state() -> Sa {
    Sa {
        sid: 4,
        added: 100,
        larval: false,
        dying: true,
        spec: SaSpec {
            src: Addr::V4(0),
            dst: Addr::V4(0xc000_0202),
            proto: Proto::Esp,
            spi: 0x1000,
            mode: Mode::Tunnel,
            reqid: 7,
            seq: 0,
            mark: Mark { value: 0, mask: 0 },
            if_id: 0,
            sel: None,
            window: 0,
            in_seq: 0,
            out_seq: 0,
            wildrecv: false,
            esn: false,
            limits: Limits::none(),
        },
    }
}

#[test]
fn policy_is_asked(rt: HostRuntime) -> Result<(), Fail> {
    let mut cells = VecCells::new(rt.alloc(), 128)?;
    put_policy(&mut cells, 5, &policy());
    let flow = Flow {
        dir: Dir::Out,
        src: Addr::V6(0x2001_0db8_0000_0000_0000_0000_0000_0009),
        dst: Addr::V6(1),
        proto: 6,
        sport: 1,
        dport: 0,
        mark: 6,
        if_id: 1,
    };
    assert!(rt; applies_at(&mut cells, 5, Ptype::Sub, &flow));
    assert!(rt; !applies_at(&mut cells, 5, Ptype::Main, &flow));
    let mut sel = policy().spec.sel;
    let mark = Mark { value: 2, mask: 3 };
    assert!(rt; is_under_at(&mut cells, 5, Dir::Out, Ptype::Sub, &sel, mark, 1));
    sel.dport = None;
    assert!(rt; !is_under_at(&mut cells, 5, Dir::Out, Ptype::Sub, &sel, mark, 1));
    assert!(rt; has_index_at(&mut cells, 5, 9));
    assert_eq!(rt; priority_at(&mut cells, 5), 10);
    assert_eq!(rt; number_at(&mut cells, 5), 3);
    Ok(())
}

#[test]
fn state_is_asked(rt: HostRuntime) -> Result<(), Fail> {
    let mut cells = VecCells::new(rt.alloc(), 64)?;
    put_state(&mut cells, 0, &state());
    let id = SaId {
        dst: Addr::V4(0xc000_0202),
        proto: Proto::Esp,
        spi: 0x1000,
        mark: 9,
    };
    assert!(rt; has_id_at(&mut cells, 0, &id));
    let template = Template {
        mode: Mode::Tunnel,
        reqid: 7,
        ..Template::default()
    };
    let flow = Flow {
        dir: Dir::Out,
        src: Addr::V4(1),
        dst: Addr::V4(2),
        proto: 0,
        sport: 0,
        dport: 0,
        mark: 0,
        if_id: 0,
    };
    let (src, dst) = (Addr::V4(3), Addr::V4(0xc000_0202));
    assert!(rt; suits_at(&mut cells, 0, &template, &flow, &src, &dst));
    assert!(rt; !suits_at(&mut cells, 0, &template, &flow, &dst, &src));
    assert_eq!(rt; sid_at(&mut cells, 0), 4);
    assert_eq!(rt; added_at(&mut cells, 0), 100);
    assert!(rt; dying_at(&mut cells, 0) && !larval_at(&mut cells, 0));
    Ok(())
}
