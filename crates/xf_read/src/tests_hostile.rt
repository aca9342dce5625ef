//! Hostile lines, each as the only one of an input, with their reasons.

use crate::fault::ReadFault;
use crate::tests::{read_line, reader};
use std::test::*;
use xf_types::Reason;

const HOSTILE: [(&[u8], Reason); 15] = [
    (b"flow out src 10.0.0.256 dst 1.1.1.1", Reason::Address),
    (b"flow out src ::1 dst 10.0.0.1", Reason::Family),
    (b"flow out src 1.1.1.1 dst 2.2.2.2 sport 5", Reason::Ports),
    (
        b"xfrm policy add dir out priority 4294967296",
        Reason::Range,
    ),
    (b"xfrm policy add dir out priority 007", Reason::Number),
    (b"xfrm policy add src 1.1.1.1/33 dir out", Reason::Address),
    (b"xfrm policy add dir out dir in", Reason::Repeated),
    (b"xfrm policy add src 1.1.1.1", Reason::Missing),
    (b"xfrm policy get index 9 dir out ptype sub", Reason::Mixed),
    (b"xfrm state add dst 1.1.1.1 proto esp spi 0", Reason::Range),
    (
        b"xfrm state add dst 1.1.1.1 proto esp enc 'x",
        Reason::Quote,
    ),
    (
        b"xfrm policy add dir out tmpl proto esp tmpl proto esp tmpl proto esp tmpl proto esp tmpl proto esp tmpl proto esp \
tmpl proto esp",
        Reason::Templates,
    ),
    (b"xfrm policy set", Reason::Missing),
    (b"worker 16", Reason::Range),
    (b"tick 1\x80", Reason::Byte),
];

#[test]
fn hostile_lines_have_their_reason(rt: HostRuntime) -> Result<(), Fail> {
    let mut reader = reader(rt.alloc())?;
    for (line, reason) in HOSTILE {
        let fault = ReadFault::Bad { line: 1, reason };
        assert_eq!(rt; read_line(&mut reader, rt.alloc(), line, 1)?, Err(fault));
    }
    Ok(())
}
