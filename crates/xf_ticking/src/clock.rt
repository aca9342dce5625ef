//! The word that has the time, in seconds.
ghost use Rattle.std.specs.Prelude.{◌≡◌, true, slice_index, slice_set};
ghost use Rattle.xf_rows.specs.Layouts.{Fits};

use xf_cells::{Cells, Load, read};
use xf_parts::Parts;
use xf_rows::Layout;

/// The time, in seconds.
pub(crate) fn time_here<D: Parts>(layout: &Layout, parts: &mut D) -> u64
    requires { Fits layout.now (D.size parts.old) }
    ensures size { D.size parts.new ≡ D.size parts.old }
    ensures begun { D.begun parts.new ≡ D.begun parts.old }
    ensures rest { D.rest parts.new ≡ D.rest parts.old }
    ensures words { D.words parts.new ≡ D.words parts.old }
    ensures hidden { D.hidden parts.new ≡ D.hidden parts.old }
    ensures beside { D.beside parts.new ≡ D.beside parts.old }
    ensures answer { result ≡ slice_index (D.words parts.old) layout.now.clock }
{
    read(parts, layout.clock)
}

/// Writes the time, in seconds.
pub(crate) fn set_time<D: Parts>(layout: &Layout, parts: &mut D, time: u64)
    requires { Fits layout.now (D.size parts.old) }
    ensures size { D.size parts.new ≡ D.size parts.old }
    ensures begun { D.begun parts.new ≡ true }
    ensures words { D.words parts.new ≡ slice_set (D.words parts.old) layout.now.clock time }
    ensures hidden { D.hidden parts.new ≡ D.hidden parts.old }
    ensures beside { D.beside parts.new ≡ D.beside parts.old }
{
    parts.begin();
    parts.store(layout.clock, time);
}
