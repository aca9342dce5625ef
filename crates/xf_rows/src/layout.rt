ghost use Rattle.std.specs.Prelude.{◌≡◌, ℕ, ◌+◌, ◌<◌, ◌≤◌, ◌^◌};
ghost use Rattle.xf_rows.specs.Layouts.{Fits};

use xf_image::PolicyArea;
use xf_sadidx::StateArea;

/// Where the words of the policies lie, behind them those of the states, and behind these that of the time.
#[derive(Clone, Copy, Debug, PartialEq, Eq)]
pub struct Layout {
    pub policies: PolicyArea,
    pub states: StateArea,
    /// The place of the time, in seconds.
    pub clock: u32,
}

impl Layout {
    /// Words for so many policies and states, from a place on, with nothing between.
    pub fn new(base: u32, policies: u32, states: u32) -> Layout
        requires base { base < 2 ^ 23 }
        requires policies { 1 ≤ policies }
        requires most_policies { policies ≤ 4096 }
        requires states { 1 ≤ states }
        requires most_states { states ≤ 8192 }
        ensures base { result.policies.base ≡ base }
        ensures policies { result.policies.slots ≡ policies }
        ensures states { result.states.slots ≡ states }
        ensures clock { result.clock < 2 ^ 25 }
        ensures fits { (size : ℕ) → result.clock < size → size < 2 ^ 32 → Fits result size }
    {
        let first = base + 2123 + 171 * policies;
        Layout {
            policies: PolicyArea {
                base,
                slots: policies,
            },
            states: StateArea {
                base: first,
                slots: states,
            },
            clock: first + 12295 + 53 * states,
        }
    }
}
