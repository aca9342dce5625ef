//! The limits of a phase, of a line and of the input.
use super::*;

const TICK: &[u8] = b"tick 1\n";

const LIST: &[u8] = b"xfrm policy list\n";

const STATES: &[u8] = b"xfrm state list\n";

const NEXT: &[u8] = b"worker 1\n";

const SYNC: &[u8] = b"sync\n";

/// Lines, each so many times.
type Lines<'a> = [(&'a [u8], usize); 4];

fn repeat(alloc: Global, lines: &Lines<'_>) -> Result<Vec<u8>, AllocError> {
    let mut bytes = Vec::new(alloc);
    for (line, count) in lines {
        for _ in 0..*count {
            bytes.extend_from_slice(line)?;
        }
    }
    Ok(bytes)
}

#[test]
fn limits_call_lines_and_lists(rt: HostRuntime) -> Result<(), Fail> {
    let none: (&[u8], usize) = (b"", 0);
    let rows: [(Lines<'_>, &str); 10] = [
        ([(TICK, 16_384), none, none, none], "[16384 lines / ]"),
        ([(TICK, 16_385), none, none, none], "bad line 16385: Phase"),
        // Over all threads.
        (
            [(TICK, 8_192), (NEXT, 1), (TICK, 8_192), none],
            "[8192 lines / 8192 lines]",
        ),
        (
            [(TICK, 8_192), (NEXT, 1), (TICK, 8_193), none],
            "bad line 16386: Phase",
        ),
        // Each phase has its own.
        (
            [(TICK, 16_384), (SYNC, 1), (TICK, 16_384), none],
            "[16384 lines / ][16384 lines / ]",
        ),
        (
            [(TICK, 9), (SYNC, 1), (TICK, 16_385), none],
            "[9 lines / ]bad line 16395: Phase",
        ),
        ([(LIST, 256), (TICK, 9), none, none], "[265 lines / ]"),
        (
            [(LIST, 256), (TICK, 9), (STATES, 1), none],
            "bad line 266: Phase",
        ),
        (
            [(LIST, 200), (NEXT, 1), (STATES, 57), none],
            "bad line 258: Phase",
        ),
        (
            [(LIST, 256), (SYNC, 1), (STATES, 256), none],
            "[256 lines / ][256 lines / ]",
        ),
    ];
    for (lines, wanted) in rows {
        let bytes = repeat(rt.alloc(), &lines)?;
        let mut src = MemSource::new(bytes, Vec::new(rt.alloc()));
        let text = read_all(rt.alloc(), &mut src, 2, 0)?;
        assert_eq!(rt; text.as_str(), wanted);
    }
    Ok(())
}

#[test]
fn limits_lines_and_the_input(rt: HostRuntime) -> Result<(), Fail> {
    const LIMIT: u64 = 1 << 32;
    let none: (&[u8], usize) = (b"", 0);
    // How many bytes the input may still have, and its further lines.
    let rows: [(u64, Lines<'_>, &str); 11] = [
        (7, [(TICK, 1), none, none, none], "[1:tick 1]"),
        (6, [(TICK, 1), none, none, none], "bad line 1: Input"),
        (0, [none, none, none, none], "[]"),
        (0, [(b"\n", 1), none, none, none], "bad line 1: Input"),
        (12, [(TICK, 1), (SYNC, 1), none, none], "[1:tick 1][]"),
        (
            12,
            [(TICK, 1), (SYNC, 1), (b"\n", 1), none],
            "[1:tick 1]bad line 3: Input",
        ),
        // No byte past the first one that is too many is looked at.
        (
            7,
            [(TICK, 1), (b"a", 5_000), none, none],
            "bad line 2: Input",
        ),
        (
            4_103,
            [(TICK, 1), (b"a", 4_096), none, none],
            "bad line 2: Word",
        ),
        (
            4_103,
            [(TICK, 1), (b"a", 4_097), none, none],
            "bad line 2: Long",
        ),
        // Joined line feeds don't count for their line.
        (
            100_000,
            [(b"tick ", 1), (b"\\\n", 9_000), (b"1\n", 1), (b"tick 2", 1)],
            "[1:tick 1, 9002:tick 2]",
        ),
        (
            100_000,
            [(b"#", 4_096), (b"\n", 1), (b"#", 4_097), none],
            "bad line 2: Long",
        ),
    ];
    for (left, lines, wanted) in rows {
        let bytes = repeat(rt.alloc(), &lines)?;
        let mut src = MemSource::new(bytes, Vec::new(rt.alloc()));
        let text = read_all(rt.alloc(), &mut src, 1, LIMIT - left.min(LIMIT))?;
        assert_eq!(rt; text.as_str(), wanted, "with {left} bytes");
    }
    Ok(())
}
