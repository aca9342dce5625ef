//! Phases, whole and in pieces.
use super::*;

/// How many workers, a batch, and the text of its phases.
type Row<'a> = (u32, &'a [u8], &'a str);

const ROWS: [Row<'static>; 16] = [
    (1, b"", "[]"),
    (2, b"\n# nothing\n \t\n", "[ / ]"),
    // Threads are workers modulo their number, and a phase begins with worker 0.
    (
        2,
        b"tick 1\nworker 1\ntick 2\nworker 3\ntick 3\nworker 2\ntick now\nsync\ntick now",
        "[1:tick 1, 7:tick 100 / 3:tick 2, 5:tick 3][9:tick 101 / ]",
    ),
    (
        3,
        b"worker 15\ntick 1\nworker 5\ntick 2\nworker 4\nxfrm policy count\n",
        "[2:tick 1 / 6:call / 4:tick 2]",
    ),
    (
        1,
        b"send src 10.1.2.3 dst 192.0.2.1 len 10\nworker 7\ntick 2 # worker 1\n",
        "[1:send 10, 3:tick 2]",
    ),
    // A further phase begins behind the line feed of a `sync`, and none where the input's end stands in its place.
    (1, b"sync", "[]"),
    (1, b"sync\n", "[][]"),
    (
        2,
        b"tick 1\nsync\nworker 1\ntick 2\n sync # x",
        "[1:tick 1 / ][ / 4:tick 2]",
    ),
    (
        1,
        b"tick now\nsync\nsync\n tick now\n",
        "[1:tick 100][][4:tick 102]",
    ),
    // Joined lines, and quotes over them.
    (1, b"tick \\\n1\\\n2\ntick 3\n", "[1:tick 12, 4:tick 3]"),
    (1, b"sy\\\nnc\ntick now\n", "[][3:tick 101]"),
    (
        1,
        b"tick '1\\\n2' # \\\n\"tick\" \"3\"",
        "[1:tick 12, 3:tick 3]",
    ),
    // Comments join nothing.
    (
        1,
        b"tick 1 # a\\\nsync # b\\\ntick now\n",
        "[1:tick 1][3:tick 101]",
    ),
    // The first bad line refuses its phase.
    (
        1,
        b"tick 1\nsync\ntick 2\nword\ntick\n",
        "[1:tick 1]bad line 4: Word",
    ),
    (1, b"sync\ntick \\\n'2\ntick 3", "[]bad line 2: Quote"),
    (1, b"tick 1\ntick 2 \\\n", "bad line 2: Cut"),
];

#[test]
fn reads_phases_in_whichever_pieces(rt: HostRuntime) -> Result<(), Fail> {
    for (workers, batch, wanted) in ROWS {
        let workers = workers.clamp(1, 16);
        let bytes = Vec::from_slice(rt.alloc(), batch)?;
        let mut whole = MemSource::new(bytes, Vec::new(rt.alloc()));
        let text = read_all(rt.alloc(), &mut whole, workers, 0)?;
        assert_eq!(rt; text.as_str(), wanted, "of {batch:?}");

        // Byte by byte, and in two pieces that meet at each place.
        for first in 1..batch.len() + 1 {
            for most in [1, 4096] {
                let mut pieces = Pieces {
                    bytes: Vec::from_slice(rt.alloc(), batch)?,
                    taken: 0,
                    first,
                    most,
                };
                let text = read_all(rt.alloc(), &mut pieces, workers, 0)?;
                assert_eq!(rt; text.as_str(), wanted, "of {batch:?} at {first}, {most}");
            }
        }
    }
    Ok(())
}

#[test]
fn reads_no_further_than_it_must(rt: HostRuntime) -> Result<(), Fail> {
    let long = [b'a'; 5000];
    // The reads that fail, a batch, and the text of its phases.
    let rows: [(u64, &[u8], &str); 7] = [
        (1, b"tick 1\n", "reading failed"),
        (2, b"tick 1\n", "reading failed"),
        // The first read brings whole phases, and what is behind them stays unread.
        (2, b"tick 1\nsync\ntick 2\n", "[1:tick 1]reading failed"),
        (
            2,
            b"tick 1\nsync\ntick now\nsync\n",
            "[1:tick 1][3:tick 101]reading failed",
        ),
        (2, b"tick 1\nsync\nword\ntick", "[1:tick 1]bad line 3: Word"),
        // A line is long as soon as it has too many bytes.
        (3, &long, "bad line 1: Long"),
        (2, &long, "reading failed"),
    ];
    for (fails, batch, wanted) in rows {
        let bytes = Vec::from_slice(rt.alloc(), batch)?;
        let mut src = MemSource::new(bytes, Vec::from_slice(rt.alloc(), &[fails])?);
        let text = read_all(rt.alloc(), &mut src, 1, 0)?;
        assert_eq!(rt; text.as_str(), wanted, "of {batch:?} at {fails}");
    }
    Ok(())
}
