//! The next logical line, read as far as its head and its fields.
ghost use Rattle.std.specs.Prelude.{◌≡◌, ◌<◌, ◌≤◌, true, false, Err, length, take, drop, IfOk, IsErrOf, OnOk};
ghost use Rattle.xf_io.specs.Causes.{Rose};
ghost use Rattle.xf_read.specs.Items.{asked_by, fields_read, line_item};
ghost use Rattle.xf_batch.specs.Asking.{Asks, GivesJudged, Takes};
ghost use Rattle.xf_batch.specs.Batch.{judged, passes_limit};
ghost use Rattle.xf_batch.specs.Coming.{EndsLast, room_of};
ghost use Rattle.xf_batch.specs.Reading.{standing, unread_bytes};

use crate::ends::count_lines;
use crate::fault::PhaseFault;
use crate::next_line::{Next, next_line};
use crate::pieces::LIMIT;
use xf_grammar::Head;
use xf_io::Source;
use xf_lex::LineFault;
use xf_read::{LineReader, Unread};
use xf_types::Reason;

/// The head of a line, if it has words, with the number of its first physical line.
#[derive(Clone, Copy)]
pub(crate) struct Asked {
    pub line: u64,
    pub head: Option<Head>,
}

fn bad(line: u64, reason: Reason) -> PhaseFault
    ensures { result ≡ PhaseFault.Bad line reason }
{
    PhaseFault::Bad { line, reason }
}

// Why a line is bad that passes the input's limit: that it is long comes first.
#[cold]
#[inline(never)]
fn over_reason(lines: &LineReader, head: Option<Head>) -> Reason
    ensures { judged true (asked_by head (fields_read lines.now)) ≡ Err result }
{
    match head {
        None => Reason::Input,
        Some(head) => match lines.asked(head) {
            Err(Reason::Long) => Reason::Long,
            _ => Reason::Input,
        },
    }
}

// The head of a line whose fields the reader has then, or its fault. That the line is long comes before that it passes the
// input's limit.
fn judge(
    lines: &mut LineReader,
    line: &[u8],
    number: u64,
    over: bool,
) -> Result<Option<Head>, PhaseFault>
    ensures judged { GivesJudged result (fields_read lines.new) number (judged over (line_item line.now)) }
    ensures under { IfOk result (λ _. over ≡ false) }
{
    match lines.read_line(line) {
        Err(LineFault::Memory) => Err(PhaseFault::NoMemory),
        Err(LineFault::Bad(Reason::Long)) => Err(bad(number, Reason::Long)),
        Err(LineFault::Bad(_)) if over => Err(bad(number, Reason::Input)),
        Err(LineFault::Bad(reason)) => Err(bad(number, reason)),
        Ok(head) if over => Err(bad(number, over_reason(lines, head))),
        Ok(head) => Ok(head),
    }
}

// Takes so many unread bytes as a line.
fn take_line(
    lines: &mut LineReader,
    unread: &mut Unread,
    size: usize,
) -> Result<Option<Head>, PhaseFault>
    requires some { 0 < size }
    requires within { size ≤ length (unread_bytes unread.old) }
    requires seen { size ≤ room_of unread.old }
    ensures judged { let line = take size (unread_bytes unread.old) in
        GivesJudged result (fields_read lines.new) unread.old.line (judged (passes_limit (standing unread.old) line) (line_item line)) }
    ensures under { IfOk result (λ _. passes_limit (standing unread.old) (take size (unread_bytes unread.old)) ≡ false) }
    ensures taken { OnOk result (Takes unread.old unread.new size) }
{
    let line = &unread.bytes[unread.taken..unread.taken + size];
    let over = unread.before + size as u64 > LIMIT;
    let head = judge(lines, line, unread.line, over)?;
    unread.line += count_lines(line);
    unread.before += size as u64;
    unread.taken += size;
    Ok(head)
}

/// Takes the next logical line, and says what its head is; None at the end. The reader has its fields then.
pub(crate) fn next_item<S: Source>(
    lines: &mut LineReader,
    unread: &mut Unread,
    src: &mut S,
) -> Result<Option<Asked>, PhaseFault>
    requires { EndsLast unread.old }
    ensures item { Asks unread.old unread.new (S.left src.old) (S.left src.new) (S.faults src.old) (S.faults src.new) (fields_read lines.new) result }
    ensures later { S.faults src.old ≤ S.faults src.new }
    ensures cause { IsErrOf result PhaseFault.ReadFault → Rose (S.faults src.old) (S.faults src.new) }
{
    let line = unread.line;
    match next_line(unread, src)? {
        Next::Line(size) => {
            let head = take_line(lines, unread, size)?;
            Ok(Some(Asked { line, head }))
        }
        Next::End => Ok(None),
        Next::Long => Err(bad(line, Reason::Long)),
    }
}
