//! A phase, read from a source.
ghost use Rattle.std.specs.Prelude.{◌≡◌, ◌≤◌, IfOk, IsErrOf, true};
ghost use Rattle.std.specs.Io.KnownBytes.{IsAtEnd};
ghost use Rattle.xf_io.specs.Causes.{Rose};
ghost use Rattle.xf_batch.specs.Reading.{GivesPhase, HasPassed};
ghost use Rattle.xf_batch.specs.Shown.{phase_shown};

use crate::fault::PhaseFault;
use crate::gather::Gather;
use crate::items::next_item;
use crate::phase::Phase;
use std::alloc::Global;
use xf_io::Source;
use xf_read::Reader;

/// Reads the next phase, its call lines by the threads of so many workers. `now` is what the clock says, in seconds. After a fault what
/// was taken from the source is gone.
pub fn read_phase<S: Source>(
    alloc: Global,
    r: Reader,
    src: &mut S,
    workers: u32,
    now: u64,
) -> Result<(Phase, Reader), PhaseFault>
    requires some { 1 ≤ workers }
    requires few { workers ≤ 16 }
    // The phase and what is left make up the batch of what was left before, and no byte was read that the phase didn't need.
    ensures phase { GivesPhase workers now r.unread (S.left src.old) (S.left src.new) (S.faults src.old) (S.faults src.new) result }
    ensures passed { IfOk result (λ p. HasPassed workers r.unread p.1.unread (phase_shown p.0)) }
    // The reader says rightly that nothing more is to be read, where it did so before.
    ensures end { (r.unread.ended ≡ true → IsAtEnd (S.left src.old))
        → IfOk result (λ p. p.1.unread.ended ≡ true → IsAtEnd (S.left src.new)) }
    ensures later { S.faults src.old ≤ S.faults src.new }
    ensures cause { IsErrOf result PhaseFault.ReadFault → Rose (S.faults src.old) (S.faults src.new) }
{
    let Reader {
        mut lines,
        mut unread,
    } = r;
    let mut gather = Gather::new(alloc, workers)?;
    'lines: while let Some(asked) = next_item(&mut lines, &mut unread, src)? {
        if !gather.put_asked(&lines, asked, now)? {
            // The end was read only where it ends this line too.
            let phase = gather.finish(true, !unread.ended);
            return Ok((phase, Reader { lines, unread }));
        }
    }
    let phase = gather.finish(false, false);
    Ok((phase, Reader { lines, unread }))
}
