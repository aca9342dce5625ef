ghost use Rattle.xf_image.specs.Layout.{IsArea};

use xf_image::PolicyArea;

/// The policies in the words of an area, as they are listed.
#[derive(Clone, Copy, Debug, PartialEq, Eq)]
pub struct Listing {
    pub area: PolicyArea,
    pub ghost facts: { IsArea area },
}
