//! What no clause says: that the calls answer where there is memory, here on words in memory.
use crate::{Column, Family, Walk};
use std::process::Abort;
use std::test::Fail;
use xf_cells::{Cells, Load, VecCells};

#[test]
fn slots_are_put_and_taken(rt: HostRuntime) -> Result<(), Fail> {
    let family = Family {
        heads: 0,
        count: 2,
        links: 2,
        slots: 4,
    };
    let mut cells = VecCells::new(rt.alloc(), 6)?;
    let chain = family.chain(1, 6);
    cells.begin();
    family.insert(&mut cells, Some(1), None, 2);
    family.insert(&mut cells, Some(1), Some(2), 0);
    family.insert(&mut cells, Some(1), Some(2), 3);
    family.insert(&mut cells, None, None, 1);
    assert_eq!(rt; chain.first(&mut cells), Some(2));
    assert_eq!(rt; chain.next(&mut cells, 3), Some(0));
    assert_eq!(rt; chain.before(&mut cells, 0), Some(3));
    family.remove(&mut cells, Some(1), Some(2), 3);
    let mut walk = Walk::start(&chain, &mut cells);
    assert_eq!(rt; walk.step(&chain, &mut cells), Some(2));
    assert_eq!(rt; walk.step(&chain, &mut cells), Some(0));
    assert_eq!(rt; walk.step(&chain, &mut cells), None);
    family.clear(&mut cells);
    assert_eq!(rt; chain.first(&mut cells), None);
    Ok(())
}

#[test]
fn words_are_set_and_got(rt: HostRuntime) -> Result<(), Fail> {
    let column = Column { start: 1, slots: 2 };
    let mut cells = VecCells::new(rt.alloc(), 3)?;
    column.set(&mut cells, 1, 7);
    assert_eq!(rt; column.get(&mut cells, 1), 7);
    assert_eq!(rt; column.get(&mut cells, 0), 0);
    Ok(())
}
