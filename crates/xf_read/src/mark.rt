//! From fields to marks.
ghost use Rattle.std.specs.Prelude.{◌≡◌};
ghost use Rattle.xf_read.specs.Marks as rule;

use xf_grammar::{Fields, Slot, u32_at};
use xf_types::Mark;

fn mark_by(value: Option<u32>, mask: Option<u32>) -> Mark
    ensures { result ≡ rule.mark_by value mask }
{
    match value {
        None => Mark { value: 0, mask: 0 },
        Some(value) => Mark {
            value,
            mask: mask.unwrap_or(u32::MAX),
        },
    }
}

/// The line's mark.
pub(crate) fn mark_of(fields: &Fields) -> Mark
    ensures { result ≡ rule.mark_of fields.now }
{
    mark_by(u32_at(fields, Slot::Mark), u32_at(fields, Slot::Mask))
}

/// The mark that a state is sought by.
pub(crate) fn sought_mark(mark: Mark) -> u32
    ensures { result ≡ rule.sought_mark mark }
{
    mark.value & mark.mask
}
