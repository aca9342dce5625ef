//! The next logical line, in whichever pieces the source gives it.
ghost use Rattle.std.specs.Prelude.{◌≡◌, ◌≤◌, IfErr, IfOk, IsErrOf};
ghost use Rattle.xf_io.specs.Causes.{Rose};
ghost use Rattle.xf_batch.specs.Coming.{BreaksOff, EndsLast, Finds, Grows};

use crate::fault::PhaseFault;
use crate::line_scan::{LineScan, Walked};
use crate::pieces::{fill, front, is_all};
use xf_io::Source;
use xf_read::Unread;

/// The next logical line is so many unread bytes, or there is none, or it is long.
#[derive(Clone, Copy)]
pub(crate) enum Next {
    Line(usize),
    End,
    Long,
}

/// Finds the next logical line, and reads as far as that takes. Each byte is walked over once, however many reads bring the line.
pub(crate) fn next_line<S: Source>(unread: &mut Unread, src: &mut S) -> Result<Next, PhaseFault>
    requires { EndsLast unread.old }
    ensures on { IfOk result (λ next. Grows unread.old unread.new (S.left src.old) (S.left src.new) (S.faults src.old) (S.faults src.new)) }
    ensures next { IfOk result (Finds unread.new) }
    ensures later { S.faults src.old ≤ S.faults src.new }
    ensures cause { IsErrOf result PhaseFault.ReadFault → Rose (S.faults src.old) (S.faults src.new) }
    ensures breaks { IfErr result (BreaksOff unread.old (S.left src.old) (S.left src.new)) }
{
    let mut scan = LineScan::new();
    let mut walked = 0;
    'search: loop {
        let seen = front(unread);
        match scan.walk(&seen[walked..]) {
            Walked::Ends(size) => return Ok(Next::Line(walked + size)),
            Walked::Long => return Ok(Next::Long),
            Walked::GoesOn => walked = seen.len(),
        }
        if is_all(unread) {
            return Ok(if walked > 0 {
                Next::Line(walked)
            } else {
                Next::End
            });
        }
        fill(unread, src)?;
    }
}
