//! What a walk asks of a policy's record: each test loads the words that it names, in their order, and stops at the first that fails.
ghost use Rattle.std.specs.Prelude.{◌≡◌, ℕ, ◌+◌, ◌<◌, ◌≤◌, ◌^◌, List, length};
ghost use Rattle.xf_cells.specs.Words.{Narrows};
ghost use Rattle.xf_asked.specs.Asked as asked;

use crate::selectors::matches_at;
use crate::words::{has_mark_at, is_word_at};
use xf_cells::Load;
use xf_records::{dir_word, family_word, high_word, low_word, port_word, ptype_word};
use xf_types::{Dir, Flow, Mark, Ptype, Selector};

// Whether direction, ptype and interface at a place are those asked for.
#[tactic(auto, unfolding(crate::specs::Asked::is_scope_at))]
fn is_scope_at<L: Load>(l: &mut L, at: u32, ptype: Ptype, flow: &Flow) -> bool
    requires lies { at + 3 ≤ L.size l.old }
    requires fits { at + 3 < 2 ^ 32 }
    ensures size { L.size l.new ≡ L.size l.old }
    ensures begun { L.begun l.new ≡ L.begun l.old }
    ensures rest { L.rest l.new ≡ L.rest l.old }
    ensures among { Narrows (L.agrees l.old) (L.agrees l.new) }
    ensures loads { L.loads l.new ≤ L.loads l.old + 3 }
    ensures answer { (image : List ℕ) → L.agrees l.new image → result ≡ asked.is_scope_at image at ptype flow.now }
{
    l.load(at) == dir_word(flow.dir)
        && l.load(at + 1) == ptype_word(ptype)
        && l.load(at + 2) == u64::from(flow.if_id)
}

/// Whether the policy at a place applies to the flow, asked as one of this ptype.
#[tactic(auto, unfolding(crate::specs::Asked::applies_at))]
pub fn applies_at<L: Load>(l: &mut L, at: u32, ptype: Ptype, flow: &Flow) -> bool
    requires lies { at + 15 ≤ L.size l.old }
    requires fits { at + 15 < 2 ^ 32 }
    ensures size { L.size l.new ≡ L.size l.old }
    ensures begun { L.begun l.new ≡ L.begun l.old }
    ensures rest { L.rest l.new ≡ L.rest l.old }
    ensures among { Narrows (L.agrees l.old) (L.agrees l.new) }
    ensures loads { L.loads l.new ≤ L.loads l.old + 15 }
    ensures answer { (image : List ℕ) → L.agrees l.new image → result ≡ asked.applies_at image at ptype flow.now }
{
    is_scope_at(l, at, ptype, flow)
        && matches_at(l, at + 3, flow)
        && has_mark_at(l, at + 13, flow.mark)
}

// Whether these words stand at a place.
fn are_words_at<L: Load>(l: &mut L, at: u32, words: &[u64]) -> bool
    requires lies { at + length words.now ≤ L.size l.old }
    requires fits { at + length words.now < 2 ^ 32 }
    ensures size { L.size l.new ≡ L.size l.old }
    ensures begun { L.begun l.new ≡ L.begun l.old }
    ensures rest { L.rest l.new ≡ L.rest l.old }
    ensures among { Narrows (L.agrees l.old) (L.agrees l.new) }
    ensures loads { L.loads l.new ≤ L.loads l.old + length words.now }
    ensures answer { (image : List ℕ) → L.agrees l.new image → result ≡ asked.are_words_at image at words.now }
{
    let mut place = at;
    'words: for word in words {
        if *word != l.load(place) {
            return false;
        }
        place += 1;
    }
    true
}

// The words of what a policy is listed under.
#[tactic(auto, unfolding(crate::specs::Asked::under_words))]
fn under_words(dir: Dir, ptype: Ptype, sel: &Selector, mark: Mark, if_id: u32) -> [u64; 15]
    ensures { result ≡ asked.under_words dir ptype sel.now mark if_id }
{
    [
        dir_word(dir),
        ptype_word(ptype),
        u64::from(if_id),
        family_word(&sel.src.addr),
        high_word(&sel.src.addr),
        low_word(&sel.src.addr),
        u64::from(sel.src.len),
        high_word(&sel.dst.addr),
        low_word(&sel.dst.addr),
        u64::from(sel.dst.len),
        u64::from(sel.proto),
        port_word(sel.sport),
        port_word(sel.dport),
        u64::from(mark.value),
        u64::from(mark.mask),
    ]
}

/// Whether the policy at a place is listed under direction, ptype, selector, mark and interface.
#[tactic(auto, unfolding(crate::specs::Asked::is_under_at))]
pub fn is_under_at<L: Load>(
    l: &mut L,
    at: u32,
    dir: Dir,
    ptype: Ptype,
    sel: &Selector,
    mark: Mark,
    if_id: u32,
) -> bool
    requires lies { at + 15 ≤ L.size l.old }
    requires fits { at + 15 < 2 ^ 32 }
    ensures size { L.size l.new ≡ L.size l.old }
    ensures begun { L.begun l.new ≡ L.begun l.old }
    ensures rest { L.rest l.new ≡ L.rest l.old }
    ensures among { Narrows (L.agrees l.old) (L.agrees l.new) }
    ensures loads { L.loads l.new ≤ L.loads l.old + 15 }
    ensures answer { (image : List ℕ) → L.agrees l.new image → result ≡ asked.is_under_at image at dir ptype sel.now mark if_id }
{
    are_words_at(l, at, &under_words(dir, ptype, sel, mark, if_id))
}

/// Whether the policy at a place has this index.
#[tactic(auto, unfolding(crate::specs::Asked::has_index_at))]
pub fn has_index_at<L: Load>(l: &mut L, at: u32, index: u32) -> bool
    requires lies { at + 18 ≤ L.size l.old }
    requires fits { at + 18 < 2 ^ 32 }
    ensures size { L.size l.new ≡ L.size l.old }
    ensures begun { L.begun l.new ≡ L.begun l.old }
    ensures rest { L.rest l.new ≡ L.rest l.old }
    ensures among { Narrows (L.agrees l.old) (L.agrees l.new) }
    ensures loads { L.loads l.new ≤ L.loads l.old + 1 }
    ensures answer { (image : List ℕ) → L.agrees l.new image → result ≡ asked.has_index_at image at index }
{
    is_word_at(l, at + 17, index)
}
