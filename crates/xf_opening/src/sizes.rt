//! How large the databases are.

/// How many policies and states there may be.
#[derive(Clone, Copy, Debug)]
pub struct Sizes {
    pub policies: u32,
    pub states: u32,
}
