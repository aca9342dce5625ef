//! Events that are put one behind the other.
ghost use Rattle.std.specs.Prelude.{◌≡◌, ◌++◌, OnOk, option_to_list};

use xf_types::{Event, NoMemory};

/// Puts an event, if there is one, behind those so far.
pub fn push_some(events: &mut Vec<Event>, event: Option<Event>) -> Result<(), NoMemory>
    ensures { OnOk result (events.new.items ≡ events.old.items ++ option_to_list event) }
{
    if let Some(event) = event {
        if events.push(event).is_err() {
            return Err(NoMemory);
        }
    }
    Ok(())
}
