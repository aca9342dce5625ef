//! A hash of words, by which records are found.
ghost use Rattle.std.specs.Prelude.{◌≡◌};
ghost use Rattle.xf_cells.specs.Hashing.{hash_from};

/// The hash of words, in their order. It spreads words over buckets and keeps no secret.
pub fn hash(words: &[u64]) -> u64
    ensures { result ≡ hash_from 0x9E3779B97F4A7C15 words.now }
{
    let mut h: u64 = 0x9E37_79B9_7F4A_7C15;
    'words: for word in words {
        h = (h ^ *word).wrapping_mul(0xFF51_AFD7_ED55_8CCD);
        h ^= h >> 32;
    }
    h
}
