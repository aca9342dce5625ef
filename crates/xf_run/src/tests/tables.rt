//! Tables of batches as texts. Of a case come the lines of its batch first, each behind `> `, then the lines that are written, and last
//! `= 0` or `= 1`, the status. Rows behind `# ` say what a case is for.
use super::{check_case, one};
use std::alloc::Global;
use std::process::Abort;
use std::sync::Wait;
use std::test::Fail;
use std::thread::Threads;
use xf_types::Status;

/// A row of a table.
#[derive(Clone, Copy)]
enum Row<'a> {
    Batch(&'a [u8]),
    Written(&'a [u8]),
    Ends(Status),
    Remark,
}

/// The line without its mark.
fn marked<'a>(row: &'a [u8], mark: &[u8]) -> Option<&'a [u8]> {
    row.strip_prefix(mark)
}

fn row_of(row: &[u8]) -> Row<'_> {
    if row.is_empty() || marked(row, b"# ").is_some() {
        return Row::Remark;
    }
    if let Some(line) = marked(row, b"> ") {
        return Row::Batch(line);
    }
    match row {
        b"= 0" => Row::Ends(Status::Done),
        b"= 1" => Row::Ends(Status::Refusals),
        line => Row::Written(line),
    }
}

fn push_line(text: &mut Vec<u8>, line: &[u8]) -> Result<(), Fail> {
    text.extend_from_slice(line)?;
    text.push(b'\n')?;
    Ok(())
}

/// Each case of the table has its text and status.
pub(super) fn check_table<R: Threads + Wait + Abort>(
    rt: &R,
    alloc: Global,
    name: &str,
    table: &[u8],
) -> Result<(), Fail> {
    let mut batch = Vec::new(alloc);
    let mut text = Vec::new(alloc);
    let mut count: usize = 0;
    for row in table.split(|b| *b == b'\n') {
        match row_of(row) {
            Row::Batch(line) => push_line(&mut batch, line)?,
            Row::Written(line) => push_line(&mut text, line)?,
            Row::Ends(status) => {
                check_case(rt, alloc, name, count, &one(&[&batch], &text, status))?;
                batch.clear();
                text.clear();
                count = count.saturating_add(1);
            }
            Row::Remark => {}
        }
    }
    Ok(())
}
