/// Why a call was refused. A refused call changes no word.
#[derive(Clone, Copy, Debug, PartialEq, Eq)]
pub enum SpdFault {
    Invalid,
    Exists { index: u32 },
    NoEntry,
    Full { live: u32, waiting: u32 },
}
