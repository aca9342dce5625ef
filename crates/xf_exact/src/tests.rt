//! That policies come into the part, are found there and go, on words in memory.
ghost use Rattle.std.specs.Prelude.{◌≡◌, ◌<◌, ◌≤◌, true};
ghost use Rattle.xf_image.specs.Layout.{Fits};

use super::*;
use std::process::Abort;
use std::test::Fail;
use xf_cells::{Cells, Load, VecCells};
use xf_image::PolicyArea;
use xf_records::put_policy;
use xf_types::{
    Action, Addr, Dir, Flow, Limits, Mark, Policy, PolicySpec, Prefix, Ptype, Selector, Templates,
};

/// What goes out to 192.0.2.1, from prefixes of this length.
fn policy(number: u64, priority: u32, len: u8) -> Policy
    requires { len ≤ 32 }
{
    Policy {
        number,
        index: 9,
        added: 100,
        soft: false,
        spec: PolicySpec {
            sel: Selector {
                src: Prefix::new(Addr::V4(0x0a00_0001), len),
                dst: Prefix::new(Addr::V4(0xc000_0201), 32),
                proto: 0,
                sport: None,
                dport: None,
            },
            templates: Templates::none(),
            limits: Limits::none(),
            mark: Mark { value: 0, mask: 0 },
            if_id: 0,
            priority,
            index: 0,
            dir: Dir::Out,
            ptype: Ptype::Main,
            action: Action::Allow,
        },
    }
}

fn flow() -> Flow {
    Flow {
        dir: Dir::Out,
        src: Addr::V4(0x0a00_0001),
        dst: Addr::V4(0xc000_0201),
        proto: 6,
        sport: 1,
        dport: 2,
        mark: 0,
        if_id: 0,
    }
}

/// Puts a policy into a slot, but into no chain.
fn stand<C: Cells>(area: &PolicyArea, c: &mut C, slot: u32, p: &Policy)
    requires fits { Fits area.now (C.size c.old) }
    requires begun { C.begun c.old ≡ true }
    requires slot { slot < area.now.slots }
    ensures size { C.size c.new ≡ C.size c.old }
    ensures begun { C.begun c.new ≡ true }
{
    c.store(area.priority_place(slot), u64::from(p.spec.priority));
    c.store(area.number_place(slot), p.number);
    put_policy(c, area.record_place(slot), p);
}

fn slot_of(hit: Option<Hit>) -> Option<u32> {
    let hit = hit?;
    Some(hit.slot)
}

#[test]
fn the_first_is_found(rt: HostRuntime) -> Result<(), Fail> {
    let area = PolicyArea { base: 3, slots: 4 };
    let mut cells = VecCells::new(rt.alloc(), 2600)?;
    assert!(rt; cells.size() == 2600);
    let exact = Exact { area };
    let (newer, older, wide) = (policy(2, 10, 32), policy(1, 10, 32), policy(3, 5, 24));
    stand(&area, &mut cells, 0, &newer);
    stand(&area, &mut cells, 1, &older);
    stand(&area, &mut cells, 2, &wide);
    exact.insert(&mut cells, 0, &newer);
    exact.insert(&mut cells, 1, &older);
    exact.insert(&mut cells, 2, &wide);
    let first = exact.first(&mut cells, &flow(), Ptype::Main);
    assert_eq!(rt; slot_of(first), Some(1));
    let other = hit_at(&area, &mut cells, Some(2));
    assert_eq!(rt; slot_of(better(first, other)), Some(2));
    assert_eq!(rt; exact.first(&mut cells, &flow(), Ptype::Sub), None);
    exact.remove(&mut cells, 1, &older);
    let left = exact.first(&mut cells, &flow(), Ptype::Main);
    assert_eq!(rt;
        left,
        Some(Hit {
            slot: 0,
            priority: 10,
            number: 2
        })
    );
    exact.remove(&mut cells, 0, &newer);
    assert_eq!(rt; exact.first(&mut cells, &flow(), Ptype::Main), None);
    Ok(())
}

#[test]
fn policies_are_looked_up(rt: HostRuntime) -> Result<(), Fail> {
    let area = PolicyArea { base: 3, slots: 4 };
    let mut cells = VecCells::new(rt.alloc(), 2600)?;
    assert!(rt; cells.size() == 2600);
    let exact = Exact { area };
    let p = policy(1, 10, 32);
    assert!(rt; exact.takes(&p.spec, 32, 32));
    assert!(rt; !exact.takes(&policy(1, 10, 24).spec, 25, 32));
    assert_eq!(rt; place_in_order(&area, &mut cells, &p), None);
    stand(&area, &mut cells, 3, &p);
    exact.insert(&mut cells, 3, &p);
    let number = exact.key(&mut cells, Dir::Out, Ptype::Main, &p.spec.sel, 0);
    let number = number.ok_or("no chain")?;
    let chain = area.exact().chain(number, 2600);
    let query = Query::Index { index: 9 };
    assert_eq!(rt; found(&area, &mut cells, &chain, &query), Some(3));
    assert_eq!(rt;
        place_in(
            &area,
            &mut cells,
            &policy(2, 10, 32),
            &area.exact(),
            Some(number)
        ),
        Some(3)
    );
    assert_eq!(rt; before_in(&mut cells, 3, &area.exact(), Some(number)), None);
    Ok(())
}
