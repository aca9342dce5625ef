//! How far the heads of chains are doubled, and the head of a hash.
ghost use Rattle.std.specs.Prelude.{◌≡◌, ℕ, ◌+◌, ◌-◌, ◌<◌, ◌≤◌, ◌^◌, min, List, Option};
ghost use Rattle.xf_cells.specs.Words.{Narrows};
ghost use Rattle.xf_doubling.specs.Heads as heads;

use xf_cells::Load;

/// How far the heads are doubled: half as many as there are, and how many of that half were split in two.
#[derive(Clone, Copy, Debug, PartialEq, Eq)]
pub struct Doubling {
    pub half: u32,
    pub moved: u32,
}

impl Doubling {
    /// The head of a hash.
    #[tactic(auto, using(crate::proofs::Numbers::head_below))]
    pub fn number(&self, hash: u64) -> u32
        requires { heads.IsDoubling self.now.half self.now.moved }
        ensures number { result ≡ heads.head_number self.now.half self.now.moved hash }
        ensures below { result < self.now.half + self.now.half }
    {
        let low = (hash % u64::from(self.half)) as u32;
        if low < self.moved {
            (hash % u64::from(self.half + self.half)) as u32
        } else {
            low
        }
    }

    /// The head of a key, where there is one.
    pub fn head(&self, key: Option<u64>) -> Option<u32>
        requires { heads.IsDoubling self.now.half self.now.moved }
        ensures { result ≡ heads.head_of self.now.half self.now.moved key }
    {
        match key {
            None => None,
            Some(hash) => Some(self.number(hash)),
        }
    }
}

/// How often the heads were doubled, at most 9 times.
fn power(word: u64) -> u32
    ensures power { result ≡ min word 9 }
    ensures most { result ≤ 9 }
{
    word.min(9) as u32
}

/// Half as many heads as a word says.
#[tactic(auto, using(crate::proofs::Halves::half_is, crate::proofs::Halves::half_most, crate::proofs::Halves::half_some))]
fn half(word: u64) -> u32
    ensures half { result ≡ heads.half_in word }
    ensures some { 0 < result }
    ensures most { result ≤ 2048 }
{
    1 << (2 + power(word))
}

/// How far the heads are doubled, as two words say it: how often, and how many of the old heads aren't split yet. Any words say some
/// doubling.
pub fn doubling_at<L: Load>(l: &mut L, at: u32) -> Doubling
    requires lies { at + 2 ≤ L.size l.old }
    requires fits { at + 2 < 2 ^ 32 }
    ensures size { L.size l.new ≡ L.size l.old }
    ensures begun { L.begun l.new ≡ L.begun l.old }
    ensures rest { L.rest l.new ≡ L.rest l.old }
    ensures among { Narrows (L.agrees l.old) (L.agrees l.new) }
    ensures loads { L.loads l.new ≤ L.loads l.old + 2 }
    ensures is { heads.IsDoubling result.half result.moved }
    ensures answer { (image : List ℕ) → L.agrees l.new image → result ≡ heads.doubling_at image at }
{
    let half = half(l.load(at));
    let pending = l.load(at + 1);
    Doubling {
        half,
        moved: u64::from(half).saturating_sub(pending) as u32,
    }
}
