//! Whether an index or a key is of the direction that it is given with.
ghost use Rattle.std.specs.Prelude.{◌≡◌};
ghost use Rattle.xf_types.specs.PolicyRules.{is_index_of, is_bad_index, is_bad_key};

use xf_types::{Dir, PolicyKey, PolicySpec};

/// Whether an index belongs to a direction.
fn is_index_of(dir: Dir, index: u32) -> bool
    ensures { result ≡ is_index_of dir index }
{
    index % 8 == dir.number()
}

/// Whether an index that is given is of another direction.
pub(crate) fn is_bad_index(spec: &PolicySpec) -> bool
    ensures { result ≡ is_bad_index spec.now }
{
    spec.index != 0 && !is_index_of(spec.dir, spec.index)
}

/// Whether a key by index is of another direction.
pub(crate) fn is_bad_key(key: &PolicyKey) -> bool
    ensures { result ≡ is_bad_key key.now }
{
    match *key {
        PolicyKey::Index { dir, index } => !is_index_of(dir, index),
        PolicyKey::Same { .. } => false,
    }
}
