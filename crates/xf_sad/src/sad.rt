ghost use Rattle.std.specs.Prelude.{◌≡◌, ℕ, ◌+◌, ◌<◌, ◌≤◌, ◌^◌};
ghost use Rattle.xf_sadidx.specs.Layout.{IsArea, end_of, record_place};

use xf_sadidx::StateArea;

/// The state database in the words from a place on.
#[derive(Clone, Copy, Debug, PartialEq, Eq)]
pub struct Sad {
    pub area: StateArea,
    pub ghost facts: { IsArea area },
}

impl Sad {
    /// Words for so many states, from a place on. Words that are 0 hold no state.
    pub fn new(base: u32, states: u32) -> Sad
        requires base { base < 2 ^ 24 }
        requires some { 1 ≤ states }
        requires most { states ≤ 8192 }
        ensures base { result.area.base ≡ base }
        ensures slots { result.area.slots ≡ states }
    {
        Sad {
            area: StateArea {
                base,
                slots: states,
            },
        }
    }

    /// How many words there are.
    pub fn words(&self) -> u32
        ensures { self.now.area.base + result ≡ end_of self.now.area }
    {
        self.area.end() - self.area.base
    }

    /// The place of the word with the state id of a slot. Only a call that takes this slot from its pool changes this word.
    pub fn id_place(&self, slot: u32) -> u32
        requires { slot < self.now.area.slots }
        ensures { result ≡ record_place self.now.area slot + 16 }
    {
        self.area.record_place(slot) + 16
    }
}
