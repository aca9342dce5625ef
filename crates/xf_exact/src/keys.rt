//! Which chain of the exact part a selector's policies stand in.
ghost use Rattle.std.specs.Prelude.{◌≡◌, ℕ, ◌+◌, ◌<◌, ◌≤◌, List, Option, None, Some, IfSome, if◌then◌else◌};
ghost use Rattle.xf_types.specs.Address as address;
ghost use Rattle.xf_types.specs.ExactPart as part;
ghost use Rattle.xf_image.specs.ExactKeys as keys;

use xf_cells::hash;
use xf_records::{dir_word, family_word, high_word, low_word, ptype_word};
use xf_types::{Addr, Dir, Ptype, Selector};

/// The address with its first bits, as many as it has at most.
#[tactic(auto, using(crate::proofs::CutLaws::cut_whole))]
fn cut(addr: &Addr, len: u8) -> Addr
    ensures { result ≡ address.cut addr.now len }
{
    match addr {
        Addr::V4(_) => addr.cut(len.min(32)),
        Addr::V6(_) => addr.cut(len.min(128)),
    }
}

/// To how many bits a destination is cut.
fn dst_len(dir: Dir, lens: (u8, u8)) -> u8
    ensures { result ≡ keys.dst_len dir lens }
{
    match dir {
        Dir::In => lens.0,
        Dir::Out => lens.1,
        Dir::Fwd => lens.0,
    }
}

/// To how many bits a source is cut.
fn src_len(dir: Dir, lens: (u8, u8)) -> u8
    ensures { result ≡ keys.src_len dir lens }
{
    match dir {
        Dir::In => lens.1,
        Dir::Out => lens.0,
        Dir::Fwd => lens.1,
    }
}

/// The words that are hashed.
fn exact_words(ptype: Ptype, dir: Dir, if_id: u32, dst: &Addr, src: &Addr) -> [u64; 9]
    ensures { result ≡ keys.exact_words ptype dir if_id dst.now src.now }
{
    [
        ptype_word(ptype),
        dir_word(dir),
        u64::from(if_id),
        family_word(dst),
        high_word(dst),
        low_word(dst),
        family_word(src),
        high_word(src),
        low_word(src),
    ]
}

/// The chain that words name.
fn words_number(words: &[u64; 9]) -> u32
    ensures number { result ≡ keys.words_number words.now }
    ensures below { result < 1024 }
{
    (hash(words) % 1024) as u32
}

/// The chain of two addresses, which are cut to the thresholds.
pub(crate) fn exact_number(
    lens: (u8, u8),
    ptype: Ptype,
    dir: Dir,
    if_id: u32,
    dst: &Addr,
    src: &Addr,
) -> u32
    ensures number { result ≡ keys.exact_number lens ptype dir if_id dst.now src.now }
    ensures below { result < 1024 }
{
    let dst = cut(dst, dst_len(dir, lens));
    let src = cut(src, src_len(dir, lens));
    words_number(&exact_words(ptype, dir, if_id, &dst, &src))
}

/// How long the local prefix is.
fn local_len(dir: Dir, sel: &Selector) -> u8
    ensures { result ≡ (part.local_prefix dir sel.now).len }
{
    match dir {
        Dir::In => sel.dst.len,
        Dir::Out => sel.src.len,
        Dir::Fwd => sel.dst.len,
    }
}

/// How long the remote prefix is.
fn remote_len(dir: Dir, sel: &Selector) -> u8
    ensures { result ≡ (part.remote_prefix dir sel.now).len }
{
    match dir {
        Dir::In => sel.src.len,
        Dir::Out => sel.dst.len,
        Dir::Fwd => sel.src.len,
    }
}

/// Whether both prefixes are at least as long as these thresholds.
pub(crate) fn is_exact_for(lens: (u8, u8), dir: Dir, sel: &Selector) -> bool
    ensures { result ≡ keys.is_exact_for lens dir sel.now }
{
    lens.0 <= local_len(dir, sel) && lens.1 <= remote_len(dir, sel)
}

/// The chain of a selector under these thresholds, where the exact part takes it.
pub(crate) fn key_for(
    lens: (u8, u8),
    dir: Dir,
    ptype: Ptype,
    if_id: u32,
    sel: &Selector,
) -> Option<u32>
    ensures key { result ≡ (if keys.is_exact_for lens dir sel.now then Some (keys.exact_number lens ptype dir if_id sel.now.dst.addr sel.now.src.addr) else None) }
    ensures below { IfSome result (λ number. number < 1024) }
{
    if is_exact_for(lens, dir, sel) {
        Some(exact_number(lens, ptype, dir, if_id, &sel.dst.addr, &sel.src.addr))
    } else {
        None
    }
}
