//! Lines of the large input of seed 7, worked out from its rule, beside what the reader makes of their texts.
use crate::generated::generate;
use crate::phase::Phase;
use crate::task::{Job, Task};
use std::alloc::Global;
use std::process::Abort;
use std::test::*;
use xf_read::{Item, Reader};

fn phase_of(alloc: Global, phase: u32, workers: u32) -> Result<Phase, Fail> {
    if !(1..=4).contains(&phase) || !(1..=16).contains(&workers) {
        return Err(Fail::new("no phase"));
    }
    match generate(alloc, 7, phase, workers) {
        Ok(made) => Ok(made),
        Err(_) => Err(Fail::new("no memory")),
    }
}

fn count(made: &Phase) -> usize {
    let mut count: usize = 0;
    for tasks in &made.threads {
        count = count.saturating_add(tasks.len());
    }
    count
}

/// Whether the task asks for what a line says.
fn asks(task: &Task, item: &Item) -> bool {
    match (&task.job, item) {
        (Job::One(made), Item::One(wanted)) => made == wanted,
        (
            Job::Send { flow, len },
            Item::Send {
                flow: other,
                len: wanted,
            },
        ) => flow == other && len == wanted,
        _ => false,
    }
}

fn read(alloc: Global, text: &[u8]) -> Result<Item, Fail> {
    let Ok(mut reader) = Reader::new(alloc) else {
        return Err(Fail::new("no memory"));
    };
    match reader.line(text, 1) {
        Ok(item) => Ok(item),
        Err(_) => Err(Fail::new("a bad line")),
    }
}

/// A line with its number: the place among all lines of its phase, and the thread and the place there where there are three workers.
#[derive(Clone, Copy)]
struct Row {
    place: usize,
    of_three: (usize, usize),
    line: u64,
    text: &'static [u8],
}

const fn at(place: usize, of_three: (usize, usize), line: u64, text: &'static [u8]) -> Row {
    Row {
        place,
        of_three,
        line,
        text,
    }
}

fn compare<R: Abort>(
    rt: &R,
    alloc: Global,
    made: &Phase,
    there: (usize, usize),
    row: &Row,
) -> Result<(), Fail> {
    let Some(task) = made
        .threads
        .get(there.0)
        .and_then(|tasks| tasks.get(there.1))
    else {
        return Err(Fail::new("no such line"));
    };
    let wanted = read(alloc, row.text)?;
    assert_eq!(rt; task.line, row.line);
    assert!(rt;
        asks(task, &wanted),
        "line {}: {:?} is not {wanted:?}",
        row.line,
        task.job
    );
    Ok(())
}

/// Compares the rows with the phase for one thread, and for three.
fn compare_all<R: Abort>(rt: &R, alloc: Global, phase: u32, rows: &[Row]) -> Result<(), Fail> {
    let one = phase_of(alloc, phase, 1)?;
    let three = phase_of(alloc, phase, 3)?;
    for row in rows {
        compare(rt, alloc, &one, (0, row.place), row)?;
        compare(rt, alloc, &three, row.of_three, row)?;
    }
    Ok(())
}

#[test]
fn phases_have_their_lines(rt: HostRuntime) -> Result<(), Fail> {
    for workers in [1, 3, 4, 16] {
        for (phase, lines) in [(1, 4000), (2, 6004), (3, 2000), (4, 4000)] {
            let made = phase_of(rt.alloc(), phase, workers)?;
            assert_eq!(rt; count(&made), lines, "phase {phase}");
            assert_eq!(rt; made.more(), phase != 4, "phase {phase}");
            assert_eq!(rt; made.threads.len(), workers as usize, "phase {phase}");
        }
    }
    Ok(())
}

#[test]
fn policies_and_states_are_added(rt: HostRuntime) -> Result<(), Fail> {
    let rows = [
        at(
            0,
            (0, 0),
            2,
            b"xfrm policy add src 10.0.0.0/16 dst 172.16.0.0/32 dir out priority 278 tmpl proto esp reqid 1",
        ),
        at(
            1,
            (0, 1),
            3,
            b"xfrm policy add src 10.0.0.0/16 dst 172.16.0.1/32 dir out priority 231 tmpl proto esp reqid 2",
        ),
        at(
            499,
            (0, 499),
            501,
            b"xfrm policy add src 10.0.0.0/16 dst 172.16.1.243/32 dir out priority 784 tmpl proto esp reqid 500",
        ),
        at(
            500,
            (0, 500),
            502,
            b"xfrm state add src 10.0.0.1 dst 172.16.0.0 proto esp spi 65536 reqid 1 replay-window 32",
        ),
        at(
            999,
            (0, 999),
            1001,
            b"xfrm state add src 10.0.0.1 dst 172.16.1.243 proto esp spi 66035 reqid 500 replay-window 32",
        ),
        at(
            3000,
            (0, 1000),
            3005,
            b"xfrm policy add src 10.3.0.0/16 dst 172.19.0.0/32 dir out priority 529 tmpl proto esp reqid 3001",
        ),
        at(
            3499,
            (0, 1499),
            3504,
            b"xfrm policy add src 10.3.0.0/16 dst 172.19.1.243/32 dir out priority 288 tmpl proto esp reqid 3500",
        ),
        at(
            3500,
            (0, 1500),
            3505,
            b"xfrm state add src 10.3.0.1 dst 172.19.0.0 proto esp spi 262144 reqid 3001 replay-window 32",
        ),
        at(
            3999,
            (0, 1999),
            4004,
            b"xfrm state add src 10.3.0.1 dst 172.19.1.243 proto esp spi 262643 reqid 3500 replay-window 32",
        ),
    ];
    compare_all(&rt, rt.alloc(), 1, &rows)
}

#[test]
fn packets_go_out_and_come_in(rt: HostRuntime) -> Result<(), Fail> {
    let rows = [
        at(
            0,
            (0, 0),
            4007,
            b"send src 10.0.0.1 dst 172.16.0.91 len 100",
        ),
        at(
            1,
            (0, 1),
            4008,
            b"send src 10.0.0.1 dst 172.16.1.178 len 100",
        ),
        at(
            999,
            (0, 999),
            5006,
            b"send src 10.0.0.1 dst 172.16.1.121 len 100",
        ),
        at(
            1000,
            (0, 1000),
            5007,
            b"packet src 10.0.0.1 dst 172.16.1.54 proto esp spi 65846 seq 1 len 100",
        ),
        at(
            1499,
            (0, 1499),
            5506,
            b"packet src 10.0.0.1 dst 172.16.0.58 proto esp spi 65594 seq 500 len 100",
        ),
        at(
            1500,
            (0, 1500),
            5507,
            b"packet src 10.0.0.1 dst 172.16.0.58 proto esp spi 65594 seq 500 len 100",
        ),
        at(
            3002,
            (2, 0),
            7011,
            b"send src 10.2.0.1 dst 172.18.1.208 len 100",
        ),
        at(
            5503,
            (0, 2501),
            9513,
            b"packet src 10.3.0.1 dst 172.19.0.3 proto esp spi 262147 seq 1 len 100",
        ),
        at(
            6002,
            (0, 3000),
            10012,
            b"packet src 10.3.0.1 dst 172.19.0.15 proto esp spi 262159 seq 500 len 100",
        ),
        at(
            6003,
            (0, 3001),
            10013,
            b"packet src 10.3.0.1 dst 172.19.0.15 proto esp spi 262159 seq 500 len 100",
        ),
    ];
    compare_all(&rt, rt.alloc(), 2, &rows)
}

#[test]
fn even_policies_and_states_are_deleted(rt: HostRuntime) -> Result<(), Fail> {
    let rows = [
        at(
            0,
            (0, 0),
            10016,
            b"xfrm policy delete src 10.0.0.0/16 dst 172.16.0.0/32 dir out",
        ),
        at(
            1,
            (0, 1),
            10017,
            b"xfrm state delete dst 172.16.0.0 proto esp spi 65536",
        ),
        at(
            2,
            (0, 2),
            10018,
            b"xfrm policy delete src 10.0.0.0/16 dst 172.16.0.2/32 dir out",
        ),
        at(
            499,
            (0, 499),
            10515,
            b"xfrm state delete dst 172.16.1.242 proto esp spi 66034",
        ),
        at(
            1500,
            (0, 500),
            11519,
            b"xfrm policy delete src 10.3.0.0/16 dst 172.19.0.0/32 dir out",
        ),
        at(
            1998,
            (0, 998),
            12017,
            b"xfrm policy delete src 10.3.0.0/16 dst 172.19.1.242/32 dir out",
        ),
        at(
            1999,
            (0, 999),
            12018,
            b"xfrm state delete dst 172.19.1.242 proto esp spi 262642",
        ),
    ];
    compare_all(&rt, rt.alloc(), 3, &rows)
}

#[test]
fn flows_are_looked_up(rt: HostRuntime) -> Result<(), Fail> {
    let rows = [
        at(0, (0, 0), 12021, b"flow out src 10.0.0.1 dst 172.16.0.13"),
        at(
            999,
            (0, 999),
            13020,
            b"flow out src 10.0.0.1 dst 172.16.0.12",
        ),
        at(
            1000,
            (1, 0),
            13022,
            b"flow out src 10.1.0.1 dst 172.17.1.209",
        ),
        at(
            3000,
            (0, 1000),
            15024,
            b"flow out src 10.3.0.1 dst 172.19.1.114",
        ),
        at(
            3999,
            (0, 1999),
            16023,
            b"flow out src 10.3.0.1 dst 172.19.1.113",
        ),
    ];
    compare_all(&rt, rt.alloc(), 4, &rows)
}
