//! The kinds of bytes: the test of one byte, and of 16 bytes by one vector.
ghost use Rattle.std.specs.Prelude.{◌≡◌, ℕ, ◌+◌, ◌≤◌, Bool, length};
ghost use Rattle.std.specs.List.{prefix_len};
ghost use Rattle.std.specs.Simd.Lanes.{chunk};
ghost use Rattle.xf_bytes.specs.Lanes.{first_set};
ghost use Rattle.xf_bytes.specs.Runs.{is_feedless, is_mild, is_plain};

use std::simd::prelude::*;

/// How many bytes a vector holds.
pub(crate) const LANES: usize = 16;

/// A kind of bytes.
pub(crate) trait Kind {
    ghost has: { Self → ℕ → Bool };

    fn holds(&self, byte: u8) -> bool
        ensures { result ≡ has self.now byte };

    // How many bytes of a vector, from its first on, are of the kind.
    fn run(&self, bytes: &[u8], at: usize) -> usize
        requires { at + LANES ≤ length bytes.now }
        ensures { result ≡ prefix_len (has self.now) (chunk at 16 bytes.now) };
}

/// The bytes that mean the same wherever outside quotes and comments they stand.
pub(crate) struct Mild;

/// The bytes that outside quotes go on with their word.
pub(crate) struct Plain;

/// All bytes but the line feed.
pub(crate) struct Feedless;

// The place of the lowest bit that is set, or the number of lanes.
#[inline(always)]
fn first_set(mask: u64) -> usize
    ensures { result ≡ first_set mask 16 }
{
    if mask == 0 {
        LANES
    } else {
        mask.trailing_zeros() as usize
    }
}

impl Kind for Mild {
    ghost has = { λ _. is_mild };

    #[inline(always)]
    fn holds(&self, byte: u8) -> bool {
        byte == b'\t'
            || 32 <= byte
                && byte <= 126
                && byte != b'"'
                && byte != b'#'
                && byte != b'\''
                && byte != b'\\'
    }

    #[inline(always)]
    fn run(&self, bytes: &[u8], at: usize) -> usize {
        let v = u8x16::from_slice(&bytes[at..]);
        let odd = (v - u8x16::splat(32)).simd_gt(u8x16::splat(94)) & v.simd_ne(u8x16::splat(b'\t'));
        // A double quote and a comment's beginning differ in the lowest bit alone.
        let breaks = (v | u8x16::splat(1)).simd_eq(u8x16::splat(b'#'))
            | v.simd_eq(u8x16::splat(b'\''))
            | v.simd_eq(u8x16::splat(b'\\'));
        first_set((odd | breaks).to_bitmask())
    }
}

impl Kind for Plain {
    ghost has = { λ _. is_plain };

    #[inline(always)]
    fn holds(&self, byte: u8) -> bool {
        33 <= byte && byte <= 126 && byte != b'"' && byte != b'#' && byte != b'\'' && byte != b'\\'
    }

    #[inline(always)]
    fn run(&self, bytes: &[u8], at: usize) -> usize {
        let v = u8x16::from_slice(&bytes[at..]);
        let odd = (v - u8x16::splat(33)).simd_gt(u8x16::splat(93));
        // The last test takes a double quote, too.
        let breaks = v.simd_eq(u8x16::splat(b'\''))
            | v.simd_eq(u8x16::splat(b'\\'))
            | (v | u8x16::splat(1)).simd_eq(u8x16::splat(b'#'));
        first_set((odd | breaks).to_bitmask())
    }
}

impl Kind for Feedless {
    ghost has = { λ _. is_feedless };

    #[inline(always)]
    fn holds(&self, byte: u8) -> bool {
        byte != b'\n'
    }

    #[inline(always)]
    fn run(&self, bytes: &[u8], at: usize) -> usize {
        let v = u8x16::from_slice(&bytes[at..]);
        first_set(v.simd_eq(u8x16::splat(b'\n')).to_bitmask())
    }
}
