/// Why a call on states was refused.
#[derive(Clone, Copy, Debug, PartialEq, Eq)]
pub enum SadFault {
    /// The request can't be met, whatever is listed.
    Invalid,

    /// A state with this state id is listed under the same id.
    Exists { sid: u64 },

    /// There is no such state.
    NoState,

    /// Each SPI of the range is a state's.
    NoSpi,

    /// No slot can be given: so many are out, and so many wait.
    Full { live: u32, waiting: u32 },
}
