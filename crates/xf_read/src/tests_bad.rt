//! Tables of bad lines. A table is a text: each row is the name of a reason, a blank, and a line that is bad for this reason.

use crate::fault::ReadFault;
use crate::tests::{read_line, reader};
use std::alloc::Global;
use std::process::Abort;
use std::test::*;
use xf_types::Reason;

const REASONS: [(&[u8], Reason); 15] = [
    (b"byte", Reason::Byte),
    (b"quote", Reason::Quote),
    (b"cut", Reason::Cut),
    (b"word", Reason::Word),
    (b"unsupported", Reason::Unsupported),
    (b"missing", Reason::Missing),
    (b"repeated", Reason::Repeated),
    (b"number", Reason::Number),
    (b"range", Reason::Range),
    (b"address", Reason::Address),
    (b"family", Reason::Family),
    (b"ports", Reason::Ports),
    (b"templates", Reason::Templates),
    (b"mixed", Reason::Mixed),
    (b"phase", Reason::Phase),
];

fn reason_of(name: &[u8]) -> Result<Reason, Fail> {
    for (one, reason) in REASONS {
        if one == name {
            return Ok(reason);
        }
    }
    Err(Fail::new("a row without a reason"))
}

// Each line of the tables is bad for its reason.
pub(crate) fn check_bad(rt: &impl Abort, alloc: Global, tables: &[&[u8]]) -> Result<(), Fail> {
    let mut reader = reader(alloc)?;
    for table in tables {
        for row in table.split(|b| *b == b'\n').filter(|row| !row.is_empty()) {
            let end = row.iter().position(|b| *b == b' ').unwrap_or(row.len());
            let (name, rest) = row.split_at(end);
            let Some((_, line)) = rest.split_first() else {
                return Err(Fail::new("a row without a line"));
            };
            let fault = ReadFault::Bad {
                line: 7,
                reason: reason_of(name)?,
            };
            assert_eq!(rt; read_line(&mut reader, alloc, line, 7)?, Err(fault));
        }
    }
    Ok(())
}
