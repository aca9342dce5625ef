//! What hears the replies of a run.
ghost use Rattle.std.specs.Prelude.{◌≡◌, OnOk};
ghost use Rattle.xf_run.specs.Heard.{HasRoom, Heard, Sums, Text, hear};

use xf_print::print_answer;
use xf_tally::Tally;
use xf_types::{NoMemory, Place, Reply};

/// What hears the replies of a run, one after another.
pub trait Teller {
    /// What it has heard.
    ghost heard: { Self → Heard };

    /// Hears one reply more, of the call at this place.
    fn tell(&mut self, at: Place, reply: &Reply) -> Result<(), NoMemory>
        requires { HasRoom (heard self.old) at.line 1 }
        ensures { OnOk result (heard self.new ≡ hear (heard self.old) at reply.now) };
}

/// The lines of the replies, one after another.
impl Teller for Vec<u8> {
    ghost heard = { λ text. Text text.items };

    fn tell(&mut self, at: Place, reply: &Reply) -> Result<(), NoMemory> {
        print_answer(self, at, reply)
    }
}

/// The numbers of a summary. They take no memory.
impl Teller for Tally {
    ghost heard = { λ tally. Sums tally };

    fn tell(&mut self, at: Place, reply: &Reply) -> Result<(), NoMemory> {
        self.add(at.line, reply);
        Ok(())
    }
}
