//! When what was collected is handed on, and how a fault is told, over a reader and a writer that go by a script.
ghost use Rattle.std.specs.Prelude.{◌≤◌, IfOk};

use super::*;
use crate::sink::Sink;
use crate::source::Source;
use crate::std_sink::StdSink;
use crate::std_source::StdSource;
use std::cell::Cell;
use std::test::Fail;

#[derive(Clone, Copy)]
enum Turn {
    Takes(usize),
    Interrupted,
    Fails,
}

// Its calls go by the turns, and then each takes all. What is written stands in the text; what is read is x.
#[derive(Drop)]
struct Scripted<'a> {
    turns: &'a [Turn],
    calls: &'a Cell<usize>,
    text: &'a RefCell<Vec<u8>>,
}

impl Scripted<'_> {
    fn turn(&self, size: usize) -> io::Result<usize>
        ensures { IfOk result (λ count. count ≤ size) }
    {
        let call = self.calls.get();
        self.calls.set(call.saturating_add(1));
        match self.turns.get(call) {
            None => Ok(size),
            Some(Turn::Takes(most)) => Ok(size.min(*most)),
            Some(Turn::Interrupted) => Err(io::Error::from(ErrorKind::Interrupted)),
            Some(Turn::Fails) => Err(io::Error::from(ErrorKind::Other)),
        }
    }
}

impl Write for Scripted<'_> {
    fn write(&mut self, bytes: &[u8]) -> io::Result<usize> {
        let count = self.turn(bytes.len())?;
        if let Ok(mut text) = self.text.try_borrow_mut() {
            text.extend_from_slice(&bytes[..count])?;
        }
        Ok(count)
    }

    fn flush(&mut self) -> io::Result<()> {
        Ok(())
    }
}

impl Read for Scripted<'_> {
    fn read(&mut self, buf: &mut [u8]) -> io::Result<usize> {
        let count = self.turn(buf.len())?;
        buf[..count].fill(b'x');
        Ok(count)
    }
}

fn is_written(text: &RefCell<Vec<u8>>, wanted: &[u8]) -> bool {
    text.try_borrow()
        .is_ok_and(|text| text.as_slice() == wanted)
}

fn front<T>(items: &[T], count: usize) -> &[T] {
    &items[..count.min(items.len())]
}

#[test]
fn lines_are_handed_on_before_a_read_and_at_the_end(rt: HostRuntime) -> Result<(), Fail> {
    let (writes, reads) = (Cell::new(0), Cell::new(0));
    let (text, nothing) = (
        RefCell::new(Vec::new(rt.alloc())),
        RefCell::new(Vec::new(rt.alloc())),
    );
    let writer = Scripted {
        turns: &[],
        calls: &writes,
        text: &text,
    };
    let reader = Scripted {
        turns: &[Turn::Takes(2), Turn::Takes(0)],
        calls: &reads,
        text: &nothing,
    };
    let collected = Collected::new(rt.alloc(), writer)?;
    let mut source = StdSource::new(reader, &collected);
    let mut sink = StdSink::new(&collected);
    let mut buf = [0u8; 4];

    assert_eq!(rt; sink.write(b"1: ok\n"), Ok(6));
    assert_eq!(rt; sink.write(b""), Ok(0));
    assert_eq!(rt; sink.write(b"2: ok\n"), Ok(6));
    assert_eq!(rt; writes.get(), 0);

    assert_eq!(rt; source.read(&mut buf), Ok(2));
    assert_eq!(rt; buf, *b"xx\0\0");
    assert!(rt; is_written(&text, b"1: ok\n2: ok\n"));
    assert_eq!(rt; source.read(&mut buf), Ok(0));
    assert_eq!(rt; writes.get(), 1);

    assert_eq!(rt; sink.write(b"3: ok\n"), Ok(6));
    assert_eq!(rt; collected.end(), Ok(()));
    assert!(rt; is_written(&text, b"1: ok\n2: ok\n3: ok\n"));
    assert_eq!(rt; writes.get(), 2);
    assert_eq!(rt; reads.get(), 2);
    Ok(())
}

#[test]
fn what_has_no_room_goes_out(rt: HostRuntime) -> Result<(), Fail> {
    let large = vec![in rt.alloc(); b'l'; 136_000]?;
    let writes = Cell::new(0);
    let text = RefCell::new(Vec::new(rt.alloc()));
    let collected = Collected::new(
        rt.alloc(),
        Scripted {
            turns: &[],
            calls: &writes,
            text: &text,
        },
    )?;
    let mut sink = StdSink::new(&collected);

    for _ in 0..65 {
        assert_eq!(rt; sink.write(front(&large, 1_000)), Ok(1_000));
    }
    assert_eq!(rt; writes.get(), 0);
    assert_eq!(rt; sink.write(front(&large, 1_000)), Ok(1_000));
    assert_eq!(rt; writes.get(), 1);
    assert!(rt; is_written(&text, front(&large, 65_000)));
    assert_eq!(rt; sink.write(front(&large, 70_000)), Ok(70_000));
    assert!(rt; is_written(&text, &large));
    assert_eq!(rt; collected.end(), Ok(()));
    assert!(rt; is_written(&text, &large));
    Ok(())
}

#[test]
fn after_a_failed_write_all_fails(rt: HostRuntime) -> Result<(), Fail> {
    // A writer that takes nothing has failed too.
    for fault in [Turn::Fails, Turn::Takes(0)] {
        let (writes, reads) = (Cell::new(0), Cell::new(0));
        let (text, nothing) = (
            RefCell::new(Vec::new(rt.alloc())),
            RefCell::new(Vec::new(rt.alloc())),
        );
        let writer = Scripted {
            turns: &[Turn::Takes(3), fault],
            calls: &writes,
            text: &text,
        };
        let reader = Scripted {
            turns: &[],
            calls: &reads,
            text: &nothing,
        };
        let collected = Collected::new(rt.alloc(), writer)?;
        let mut source = StdSource::new(reader, &collected);
        let mut sink = StdSink::new(&collected);

        assert_eq!(rt; sink.write(b"abcdef"), Ok(6));
        assert_eq!(rt; source.read(&mut [0u8; 4]), Err(Failed));
        assert_eq!(rt; sink.write(b"g"), Err(Failed));
        assert_eq!(rt; source.read(&mut [0u8; 4]), Err(Failed));
        assert_eq!(rt; collected.end(), Err(Failed));
        assert!(rt; is_written(&text, b"abc"));
        assert_eq!(rt; writes.get(), 2);
        assert_eq!(rt; reads.get(), 0);
    }
    Ok(())
}

#[test]
fn interrupted_calls_are_made_again(rt: HostRuntime) -> Result<(), Fail> {
    let (writes, reads) = (Cell::new(0), Cell::new(0));
    let (text, nothing) = (
        RefCell::new(Vec::new(rt.alloc())),
        RefCell::new(Vec::new(rt.alloc())),
    );
    let often = vec![in rt.alloc(); Turn::Interrupted; 1_024]?;
    let turns = [Turn::Interrupted, Turn::Takes(1), Turn::Interrupted];
    let writer = Scripted {
        turns: &turns,
        calls: &writes,
        text: &text,
    };
    let reader = Scripted {
        turns: front(&often, 1_023),
        calls: &reads,
        text: &nothing,
    };
    let collected = Collected::new(rt.alloc(), writer)?;
    let mut source = StdSource::new(reader, &collected);
    let mut sink = StdSink::new(&collected);
    let mut buf = [0u8; 4];

    assert_eq!(rt; sink.write(b"abc"), Ok(3));
    assert_eq!(rt; source.read(&mut buf), Ok(4));
    assert!(rt; is_written(&text, b"abc"));

    // One interruption more in a row is a fault of the read, and none of what was written.
    reads.set(0);
    let reader = Scripted {
        turns: &often,
        calls: &reads,
        text: &nothing,
    };
    assert_eq!(rt;
        StdSource::new(reader, &collected).read(&mut buf),
        Err(Failed)
    );
    assert_eq!(rt; collected.end(), Ok(()));
    Ok(())
}
