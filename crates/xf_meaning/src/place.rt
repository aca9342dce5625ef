//! Where the words lie in code.
ghost use Rattle.std.specs.Prelude.{◌≡◌, ◌≤◌, ◌<◌};
ghost use Rattle.xf_rows.specs.Layouts.{Fits};
ghost use Rattle.xf_meaning.specs.Places.{layout_of, size_of};

use xf_image::PolicyArea;
use xf_rows::Layout;
use xf_sadidx::StateArea;

/// The places of the words of a database with so many slots of policies and of states, behind the statuses of its slots.
pub fn layout_of(policies: u32, states: u32) -> Layout
    requires policies { 1 ≤ policies }
    requires most_policies { policies ≤ 4096 }
    requires states { 1 ≤ states }
    requires most_states { states ≤ 8192 }
    ensures places { result ≡ layout_of policies states }
    ensures fits { Fits result (size_of policies states) }
{
    let base = policies + states;
    let first = base + 2123 + 171 * policies;
    Layout {
        policies: PolicyArea {
            base,
            slots: policies,
        },
        states: StateArea {
            base: first,
            slots: states,
        },
        clock: first + 12295 + 53 * states,
    }
}
