//! How many policies there are, by their places.
ghost use Rattle.std.specs.Prelude.{◌≡◌};
ghost use Rattle.xf_cells.specs.Words.{Narrows};
ghost use Rattle.xf_inexact.specs.Whole.{WholeFits};

use xf_cells::Load;
use xf_spd::Spd;
use xf_types::{Dir, Reply};

/// How many policies a direction has, by their places.
fn count_of<L: Load>(spd: &Spd, l: &mut L, dir: Dir) -> u32
    requires { WholeFits spd.now.area (L.size l.old) }
    ensures size { L.size l.new ≡ L.size l.old }
    ensures begun { L.begun l.new ≡ L.begun l.old }
    ensures rest { L.rest l.new ≡ L.rest l.old }
    ensures among { Narrows (L.agrees l.old) (L.agrees l.new) }
{
    let count = spd.count(l);
    let mut number: u32 = 0;
    for place in 0..count {
        if let Some(policy) = spd.nth(l, place) {
            if policy.spec.dir == dir {
                number = number.saturating_add(1);
            }
        }
    }
    number
}

/// How many policies each direction has.
pub fn count<L: Load>(spd: &Spd, l: &mut L) -> Reply
    requires { WholeFits spd.now.area (L.size l.old) }
    ensures size { L.size l.new ≡ L.size l.old }
    ensures begun { L.begun l.new ≡ L.begun l.old }
    ensures rest { L.rest l.new ≡ L.rest l.old }
    ensures among { Narrows (L.agrees l.old) (L.agrees l.new) }
{
    Reply::PolicyCount {
        inward: count_of(spd, l, Dir::In),
        outward: count_of(spd, l, Dir::Out),
        forward: count_of(spd, l, Dir::Fwd),
    }
}
