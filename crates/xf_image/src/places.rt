/// The chains that a policy stands in, and the slot before it in each. `order` is the slot before it in the list, `back` the one
/// after it. `bucket` is its chain among those of exact match, where it is found so.
#[derive(Clone, Copy, Debug, PartialEq, Eq)]
pub struct Places {
    pub order: Option<u32>,
    pub back: Option<u32>,
    pub bucket: Option<u32>,
    pub exact: Option<u32>,
    pub row: u32,
    pub indices: Option<u32>,
}
