//! Ends of lines, and phases read from sources over memory.
mod limits;
mod phases;

ghost use Rattle.std.specs.Prelude.{◌≡◌, ◌≤◌, length, None};
ghost use Rattle.xf_batch.specs.Batch.{limit};

use super::*;
use std::alloc::{AllocError, Global};
use std::fmt::Write;
use std::test::Fail;
use xf_io::{Failed, MemSource, Source};
use xf_read::Reader;
use xf_types::{Call, NoMemory};

/// Gives at most so many bytes at the first read, and at most so many at each further one.
#[derive(Drop)]
struct Pieces {
    bytes: Vec<u8>,
    taken: usize,
    first: usize,
    most: usize,
}

impl Source for Pieces {
    ghost left = { λ _. None };

    ghost faults = { λ _. 0 };

    fn read(&mut self, buf: &mut [u8]) -> Result<usize, Failed> {
        let rest = &self.bytes[self.taken.min(self.bytes.len())..];
        let most = if self.taken == 0 {
            self.first
        } else {
            self.most
        };
        let count = rest.len().min(most).min(buf.len());
        buf[..count].copy_from_slice(&rest[..count]);
        self.taken = self.taken.saturating_add(count);
        Ok(count)
    }
}

fn write_task(text: &mut String, task: &Task) -> Result<(), AllocError> {
    match &task.job {
        Job::One(Call::Tick(now)) => write!(text, "{}:tick {now}", task.line),
        Job::One(_) => write!(text, "{}:call", task.line),
        Job::Send { flow: _, len } => write!(text, "{}:send {len}", task.line),
    }
}

fn write_thread(text: &mut String, tasks: &[Task]) -> Result<(), AllocError> {
    if tasks.len() > 8 {
        return write!(text, "{} lines", tasks.len());
    }
    for (i, task) in tasks.iter().enumerate() {
        if i > 0 {
            text.push_str(", ")?;
        }
        write_task(text, task)?;
    }
    Ok(())
}

/// A phase in brackets: its threads, and the call lines of each by their numbers.
fn write_phase(text: &mut String, phase: &Phase, workers: u32) -> Result<(), AllocError>
    requires { length phase.now.threads.items ≡ workers }
{
    text.push('[')?;
    for thread in 0..workers {
        if thread > 0 {
            text.push_str(" / ")?;
        }
        write_thread(text, phase.tasks(thread))?;
    }
    text.push(']')
}

/// A reader before its first line, where so many bytes of the input are taken to be read already.
fn reader_behind(alloc: Global, before: u64) -> Result<Reader, NoMemory>
    requires { before ≤ limit }
{
    let Reader { lines, mut unread } = Reader::new(alloc)?;
    unread.before = before;
    Ok(Reader { lines, unread })
}

/// All phases of a source, or those before a fault, and the fault. The clock says 100 in the first phase, 101 in the next, and so on.
/// So many bytes of the input are taken to be read already.
fn read_all<S: Source>(
    alloc: Global,
    src: &mut S,
    workers: u32,
    before: u64,
) -> Result<String, Fail>
    requires some { 1 ≤ workers }
    requires few { workers ≤ 16 }
    requires before { before ≤ limit }
{
    let mut text = String::new(alloc);
    let mut reader = reader_behind(alloc, before)?;
    for now in 100..200 {
        match read_phase(alloc, reader, src, workers, now) {
            Ok((phase, next)) => {
                write_phase(&mut text, &phase, workers)?;
                if !phase.more() {
                    return Ok(text);
                }
                reader = next;
            }
            Err(fault) => {
                write!(text, "{fault}")?;
                return Ok(text);
            }
        }
    }
    Err("too many phases".into())
}

#[test]
fn finds_the_end_of_a_line(rt: HostRuntime) {
    // Of some bytes, whether they are the last ones, how many bytes and how many physical lines the first logical line has.
    let rows: [(&[u8], bool, Option<(u64, u64)>); 18] = [
        (b"a\\\nb\n", false, Some((5, 2))),
        (b"a\\\nb\n", true, Some((5, 2))),
        (b"", false, None),
        (b"", true, None),
        (b"abc", false, None),
        (b"abc", true, Some((3, 1))),
        (b"\nabc", false, Some((1, 1))),
        (b"a b\nc\n", false, Some((4, 1))),
        // A comment joins nothing.
        (b"# c\\\n", false, Some((5, 1))),
        (b"# c\\\nd", true, Some((5, 1))),
        // A quote over a joined line, and one that doesn't close.
        (b"'a\\\nb' \"c\\\n#d\"\n e", false, Some((15, 3))),
        (b"'a\nb'\n", false, Some((3, 1))),
        // A backslash before anything else joins nothing.
        (b"a\\ \nb\n", false, Some((4, 1))),
        // Joined line feeds alone.
        (b"\\\n\\\n\\\n", false, None),
        (b"\\\n\\\n\\\nb", true, Some((7, 4))),
        // A line that is cut.
        (b"a\\", false, None),
        (b"a\\", true, Some((2, 1))),
        (b"a\\\n", true, Some((3, 1))),
    ];
    for (bytes, ended, wanted) in rows {
        assert_eq!(rt;
            line_end(bytes, ended).map(|e| (e.bytes, e.lines)),
            wanted,
            "at {bytes:?} {ended}"
        );
    }
}
