//! What no clause says: that a database opens, answers and closes where there is memory.
use super::*;
use std::process::Abort;
use std::test::Fail;
use xf_opening::{Image, Sizes};
use xf_types::{Call, NoMemory, Place, Reply};

#[test]
fn a_count_is_answered_and_recorded(rt: HostRuntime) -> Result<(), Fail> {
    let alloc = rt.alloc();
    let image = Image::empty(
        alloc,
        Sizes {
            policies: 3,
            states: 2,
        },
    )?;
    assert!(rt; image.young());
    let room = Vec::with_capacity(alloc, 1)?;
    let Ok((db, passes)) = Xfrm::open(alloc, image, 1) else {
        return Err(Fail::from(NoMemory));
    };
    let mut passes = passes;
    let Some(pass) = passes.pop() else {
        unreachable!()
    };
    let mut pass = pass;
    let reserved = db.reserve(&mut pass, 1);
    if reserved.is_ok() {
        let answer = db.read(
            &rt,
            alloc,
            &mut pass,
            Place { line: 1, part: 0 },
            Call::StateCount,
        );
        assert!(rt; answer.is_ok());
    }
    passes.push_reserved(pass);
    let closed = db.close_with(passes, room);
    assert_eq!(rt; closed.history.len(), 1);
    assert_eq!(rt; closed.history[0].at.line, 1);
    assert!(rt; closed.history[0].reply == Reply::StateCount(0));
    assert!(rt; closed.image.young());
    Ok(())
}
