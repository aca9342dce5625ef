//! The memory forms, call by call.
use super::*;
use std::test::Fail;

#[test]
fn source_gives_as_much_as_fits(rt: HostRuntime) -> Result<(), Fail> {
    // The second and the fifth read fail and give nothing; no read has the number 0.
    let mut source = MemSource::new(
        Vec::from_slice(rt.alloc(), b"abcdef")?,
        Vec::from_slice(rt.alloc(), &[5, 2, 0])?,
    );
    let reads: [(usize, Result<usize, Failed>, &[u8]); 7] = [
        (4, Ok(4), b"abcd"),
        (4, Err(Failed), b""),
        (0, Ok(0), b""),
        (1, Ok(1), b"e"),
        (0, Err(Failed), b""),
        (4, Ok(1), b"f"),
        (4, Ok(0), b""),
    ];
    for (size, wanted, given) in reads {
        let mut buf = [0u8; 4];
        let buf = &mut buf[..size.min(4)];
        assert_eq!(rt; source.read(buf), wanted);
        assert_eq!(rt; &buf[..given.len().min(buf.len())], given);
    }
    Ok(())
}

#[test]
fn sink_takes_whole_pieces(rt: HostRuntime) -> Result<(), Fail> {
    // The first and the third write fail, and so does a piece longer than what is left of the five bytes.
    let mut sink = MemSink::new(
        Vec::from_slice(rt.alloc(), b"-----")?,
        Vec::from_slice(rt.alloc(), &[3, 1])?,
    );
    assert_eq!(rt; sink.text(), b"".as_slice());
    let writes: [(&[u8], Result<usize, Failed>, &[u8]); 8] = [
        (b"a", Err(Failed), b""),
        (b"ab", Ok(2), b"ab"),
        (b"c", Err(Failed), b"ab"),
        (b"cdef", Err(Failed), b"ab"),
        (b"", Ok(0), b"ab"),
        (b"cde", Ok(3), b"abcde"),
        (b"f", Err(Failed), b"abcde"),
        (b"", Ok(0), b"abcde"),
    ];
    for (piece, wanted, text) in writes {
        assert_eq!(rt; sink.write(piece), wanted);
        assert_eq!(rt; sink.text(), text);
    }
    Ok(())
}

#[test]
fn clock_repeats_its_last_answer(rt: HostRuntime) -> Result<(), Fail> {
    let clocks: [(&[u64], [u64; 4]); 3] = [
        (&[], [0, 0, 0, 0]),
        (&[7], [7, 7, 7, 7]),
        (&[5, 9, 6], [5, 9, 6, 6]),
    ];
    for (answers, wanted) in clocks {
        let mut clock = ListClock::new(Vec::from_slice(rt.alloc(), answers)?);
        for answer in wanted {
            assert_eq!(rt; clock.now(), answer);
        }
    }
    Ok(())
}
