//! The unread bytes, and one more piece of the source behind them.
ghost use Rattle.std.specs.Prelude.{◌≡◌, ℕ, ◌+◌, ◌-◌, ◌≤◌, false, length, take, drop, IfErr, OnOk, IsErrOf};
ghost use Rattle.std.specs.Io.KnownBytes.{Keeps};
ghost use Rattle.xf_io.specs.Causes.{Rose};
ghost use Rattle.xf_batch.specs.Batch.{limit};
ghost use Rattle.xf_batch.specs.Coming.{Fills, IsOutside, is_all, room_of};
ghost use Rattle.xf_batch.specs.Reading.{unread_bytes};

use crate::fault::PhaseFault;
use xf_io::Source;
use xf_read::Unread;

/// How many bytes the input may have.
pub(crate) const LIMIT: u64 = 1 << 32;

// How many of the bytes to come are looked at: those of the limit, and one that is too many.
fn room(unread: &Unread) -> usize
    ensures { result ≡ room_of unread.now }
{
    (LIMIT + 1 - unread.before) as usize
}

/// The unread bytes, as far as they are looked at.
pub(crate) fn front(unread: &Unread) -> &[u8]
    ensures { result.now ≡ take (room_of unread.now) (unread_bytes unread.now) }
{
    let bytes = &unread.bytes[unread.taken..];
    let room = room(unread);
    if room < bytes.len() {
        &bytes[..room]
    } else {
        bytes
    }
}

/// Whether no more bytes are looked at than the unread ones.
pub(crate) fn is_all(unread: &Unread) -> bool
    ensures { result ≡ is_all unread.now }
{
    unread.ended || room(unread) <= unread.bytes.len() - unread.taken
}

// Lets go of the bytes that lines have taken.
fn drop_taken(unread: &mut Unread)
    ensures bytes { unread.new.bytes.items ≡ unread_bytes unread.old }
    ensures taken { unread.new.taken ≡ 0 }
    ensures line { unread.new.line ≡ unread.old.line }
    ensures before { unread.new.before ≡ unread.old.before }
    ensures ended { unread.new.ended ≡ unread.old.ended }
{
    if unread.taken > 0 {
        let left = unread.bytes.len() - unread.taken;
        unread.bytes.copy_within(unread.taken.., 0);
        unread.bytes.truncate(left);
        unread.taken = 0;
    }
}

/// Reads one more piece of the source, or its end.
pub(crate) fn fill<S: Source>(unread: &mut Unread, src: &mut S) -> Result<(), PhaseFault>
    requires { unread.old.ended ≡ false }
    ensures filled { OnOk result (Fills unread.old unread.new (S.left src.old) (S.left src.new)) }
    ensures unread { result ≡ Err PhaseFault.ReadFault → Keeps (S.left src.old) (S.left src.new) }
    ensures later { S.faults src.old ≤ S.faults src.new }
    ensures cause { IsErrOf result PhaseFault.ReadFault → Rose (S.faults src.old) (S.faults src.new) }
    ensures outside { IfErr result IsOutside }
{
    drop_taken(unread);
    let mut buf = [0u8; 4096];
    let count = src.read(&mut buf)?;
    if count > 0 {
        unread.bytes.extend_from_slice(&buf[..count])?;
    } else {
        unread.ended = true;
    }
    Ok(())
}
