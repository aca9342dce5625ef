ghost use Rattle.std.specs.Prelude.{◌≡◌, ◌+◌, ◌*◌, ◌<◌, ◌≤◌, ◌^◌};
ghost use Rattle.xf_image.specs.Layout.{IsArea};
ghost use Rattle.xf_inexact.specs.Whole.{whole_end};

use xf_image::PolicyArea;

/// The policy database in the words from a place on.
#[derive(Clone, Copy, Debug, PartialEq, Eq)]
pub struct Spd {
    pub area: PolicyArea,
    pub ghost facts: { IsArea area },
}

impl Spd {
    /// Words for so many policies, from a place on. Words that are 0 hold no policy.
    pub fn new(base: u32, policies: u32) -> Spd
        requires base { base < 2 ^ 24 }
        requires some { 1 ≤ policies }
        requires most { policies ≤ 4096 }
        ensures base { result.area.base ≡ base }
        ensures slots { result.area.slots ≡ policies }
    {
        Spd {
            area: PolicyArea {
                base,
                slots: policies,
            },
        }
    }

    /// How many words there are.
    pub fn words(&self) -> u32
        ensures { self.now.area.base + result ≡ whole_end self.now.area }
    {
        2123 + 171 * self.area.slots
    }
}
