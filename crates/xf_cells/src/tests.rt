//! That there is memory for words and slots, and hashes that were reckoned apart from this code.
use super::*;
use std::process::Abort;
use std::test::Fail;

#[test]
fn words_are_zeros(rt: HostRuntime) -> Result<(), Fail> {
    let mut cells = VecCells::new(rt.alloc(), 4)?;
    assert_eq!(rt; cells.load(3), 0);
    assert_eq!(rt; cells.loads(), 1);
    Ok(())
}

#[test]
fn slots_are_taken_once(rt: HostRuntime) -> Result<(), Fail> {
    let mut free = FreePool::new(rt.alloc(), 1)?;
    assert_eq!(rt; free.take(), Some(0));
    assert_eq!(rt; free.take(), None);
    let mut one = OnePool {
        slot: Some(3),
        given: None,
        live: 0,
        waiting: 0,
        capacity: 1,
    };
    assert_eq!(rt; one.take(), Some(3));
    let mut none = OnePool {
        slot: None,
        given: None,
        live: 0,
        waiting: 1,
        capacity: 1,
    };
    assert_eq!(rt; none.take(), None);
    Ok(())
}

#[test]
fn hashes(rt: HostRuntime) {
    for (words, want) in [
        ([].as_slice(), 0x9e37_79b9_7f4a_7c15),
        (&[0], 0x2e72_b465_600b_6cb4),
        (&[1, 2], 0xac15_a979_8f1b_b236),
        (&[2, 1], 0x0f06_7d13_42fd_7aa0),
        (&[4, 0, 0xc000_0202], 0x3769_67d1_9338_e624),
        (&[6, 0x2001_0db8_0000_0000, 1], 0x67b1_085c_ff66_b907),
    ] {
        assert_eq!(rt; hash(words), want);
    }
}
