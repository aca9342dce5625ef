//! Runs of bytes of one kind.
ghost use Rattle.std.specs.Prelude.{◌≡◌, ◌≤◌, length};
ghost use Rattle.std.specs.List.{prefix_len};
ghost use Rattle.xf_bytes.specs.Runs.{feedless_count, mild_count, plain_count};

use crate::kinds::{Feedless, Kind, LANES, Mild, Plain};

// A slice that is shorter than a vector.
#[inline(always)]
fn count_each<K: Kind>(kind: &K, bytes: &[u8]) -> usize
    ensures count { result ≡ prefix_len (K.has kind.now) bytes.now }
    ensures within { result ≤ length bytes.now }
{
    for (i, byte) in bytes.iter().enumerate() {
        if !kind.holds(*byte) {
            return i;
        }
    }
    bytes.len()
}

// How many bytes from the first on are of the kind.
#[inline(always)]
fn count_front<K: Kind>(kind: &K, bytes: &[u8]) -> usize
    ensures count { result ≡ prefix_len (K.has kind.now) bytes.now }
    ensures within { result ≤ length bytes.now }
{
    if bytes.len() < LANES {
        return count_each(kind, bytes);
    }
    let mut seen = 0;
    while bytes.len() - seen >= LANES {
        let run = kind.run(bytes, seen);
        if run < LANES {
            return seen + run;
        }
        seen += LANES;
    }
    // The last vector begins among those that were seen.
    let last = bytes.len() - LANES;
    last + kind.run(bytes, last)
}

/// How many bytes from the first on are mild: outside quotes and comments none of them changes what stands behind it.
pub fn mild_count(bytes: &[u8]) -> usize
    ensures count { result ≡ mild_count bytes.now }
    ensures within { result ≤ length bytes.now }
{
    count_front(&Mild, bytes)
}

/// How many bytes from the first on go on with a word outside quotes.
pub fn plain_count(bytes: &[u8]) -> usize
    ensures count { result ≡ plain_count bytes.now }
    ensures within { result ≤ length bytes.now }
{
    count_front(&Plain, bytes)
}

/// How many bytes from the first on are no line feed.
pub fn feedless_count(bytes: &[u8]) -> usize
    ensures count { result ≡ feedless_count bytes.now }
    ensures within { result ≤ length bytes.now }
{
    count_front(&Feedless, bytes)
}
