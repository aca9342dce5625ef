use xf_sadidx::StateArea;

/// The states that are listed in an area of words.
#[derive(Clone, Copy, Debug, PartialEq, Eq)]
pub struct StateListing {
    pub area: StateArea,
}
