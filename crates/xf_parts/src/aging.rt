//! The values at a later time.
ghost use Rattle.std.specs.Prelude.{◌≡◌, ℕ, ◌<◌, ◌≤◌, Bool, true, false, List, length};
ghost use Rattle.xf_rows.specs.Values.{Beside};
ghost use Rattle.xf_rows.specs.Ticks.{AreAged};
ghost use Rattle.xf_parts.specs.Aged.{aged_if_held};

use crate::parts::Parts;
use xf_cells::{Cells, Load};

/// The value of a slot at a later time, in seconds, where its turn is held.
fn age_if_held<P: Parts>(parts: &mut P, slot: u32, now: u64)
    requires slot { slot < length (P.beside parts.old).values }
    ensures size { P.size parts.new ≡ P.size parts.old }
    ensures begun { P.begun parts.new ≡ P.begun parts.old }
    ensures words { P.words parts.new ≡ P.words parts.old }
    ensures hidden { P.hidden parts.new ≡ P.hidden parts.old }
    ensures beside { P.beside parts.new ≡ aged_if_held now (P.beside parts.old) slot }
{
    if parts.holds(slot) {
        parts.age(slot, now);
    }
}

/// Every value whose slot's turn is held at a later time, in seconds.
pub fn age_all<P: Parts>(parts: &mut P, count: u32, now: u64)
    requires { count ≡ length (P.beside parts.old).values }
    ensures size { P.size parts.new ≡ P.size parts.old }
    ensures begun { P.begun parts.new ≡ P.begun parts.old }
    ensures words { P.words parts.new ≡ P.words parts.old }
    ensures hidden { P.hidden parts.new ≡ P.hidden parts.old }
    ensures beside { AreAged now (P.beside parts.old) (P.beside parts.new) }
{
    let mut slot = 0;
    'slots: while slot < count {
        age_if_held(parts, slot, now);
        slot += 1;
    }
}
