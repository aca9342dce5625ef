use xf_types::Policy;

/// A slot, and the policy in it.
#[derive(Debug, PartialEq, Eq, Drop)]
pub struct Entry {
    pub slot: u32,
    pub policy: Policy,
}

/// The index of a new policy, and the word of the index counter behind it.
#[derive(Clone, Copy, Debug, PartialEq, Eq)]
pub struct Choice {
    pub index: u32,
    pub word: u32,
}
