//! The one walk that asks for a state.
ghost use Rattle.std.specs.Prelude.{◌≡◌, ℕ, ◌+◌, ◌*◌, ◌≤◌, List, length};
ghost use Rattle.xf_cells.specs.Words.{Narrows};
ghost use Rattle.xf_chain.specs.Chains.{Lies, Below, slots_of};
ghost use Rattle.xf_chain.specs.Families.{chain_at};
ghost use Rattle.xf_doubling.specs.Heads.{IsDoubling, head_number};
ghost use Rattle.xf_sadidx.specs.Layout.{Fits, chains_of};
ghost use Rattle.xf_sadidx.specs.Founds.{found_on, hash_chain};

use crate::area::StateArea;
use crate::kind::Kind;
use crate::query::{StateQuery, meets_in};
use xf_cells::Load;
use xf_chain::{Chain, Walk};
use xf_doubling::{Doubling, doubling_at};

/// The first slot of a chain whose state is what is asked for.
fn found<L: Load>(area: &StateArea, l: &mut L, chain: &Chain, query: &StateQuery) -> Option<u32>
    requires fits { Fits area.now (L.size l.old) }
    requires lies { Lies chain.now (L.size l.old) }
    requires slots { chain.now.slots ≡ area.now.slots }
    ensures size { L.size l.new ≡ L.size l.old }
    ensures begun { L.begun l.new ≡ L.begun l.old }
    ensures rest { L.rest l.new ≡ L.rest l.old }
    ensures among { Narrows (L.agrees l.old) (L.agrees l.new) }
    ensures most { L.loads l.new ≤ L.loads l.old + 2 + 50 * area.now.slots }
    ensures loads { (image : List ℕ) → L.agrees l.new image → L.loads l.new ≤ L.loads l.old + 2 + 50 * length (slots_of chain.now image) }
    ensures slot { Below area.now.slots result }
    ensures answer { (image : List ℕ) → L.agrees l.new image → result ≡ found_on area.now image query.now chain.now }
{
    let mut walk = Walk::start(chain, l);
    'slots: while let Some(slot) = walk.step(chain, l) {
        if meets_in(area, l, query, slot) {
            return Some(slot);
        }
    }
    None
}

/// The chain of a hash, as far as the heads are doubled.
fn chain_by(area: &StateArea, kind: Kind, d: Doubling, hash: u64, size: u32) -> Chain
    requires fits { Fits area.now size }
    requires is { IsDoubling d.half d.moved }
    ensures chain { result ≡ chain_at (chains_of area.now kind) (head_number d.half d.moved hash) }
    ensures slots { result.slots ≡ area.now.slots }
    ensures lies { Lies result size }
{
    let number = d.number(hash);
    area.chains(kind).chain(number, size)
}

/// The chain of a hash.
pub fn whole_chain<L: Load>(area: &StateArea, l: &mut L, kind: Kind, hash: u64) -> Chain
    requires fits { Fits area.now (L.size l.old) }
    ensures size { L.size l.new ≡ L.size l.old }
    ensures begun { L.begun l.new ≡ L.begun l.old }
    ensures rest { L.rest l.new ≡ L.rest l.old }
    ensures among { Narrows (L.agrees l.old) (L.agrees l.new) }
    ensures loads { L.loads l.new ≤ L.loads l.old + 2 }
    ensures slots { result.slots ≡ area.now.slots }
    ensures lies { Lies result (L.size l.new) }
    ensures answer { (image : List ℕ) → L.agrees l.new image → result ≡ hash_chain area.now image kind hash }
{
    let d = doubling_at(l, area.doubling_place());
    let size = l.size();
    chain_by(area, kind, d, hash, size)
}

/// The first slot of the chain of a hash whose state is what is asked for. It is the last state of these that was added.
pub fn latest<L: Load>(
    area: &StateArea,
    l: &mut L,
    kind: Kind,
    hash: u64,
    query: &StateQuery,
) -> Option<u32>
    requires fits { Fits area.now (L.size l.old) }
    ensures size { L.size l.new ≡ L.size l.old }
    ensures begun { L.begun l.new ≡ L.begun l.old }
    ensures rest { L.rest l.new ≡ L.rest l.old }
    ensures among { Narrows (L.agrees l.old) (L.agrees l.new) }
    ensures most { L.loads l.new ≤ L.loads l.old + 4 + 50 * area.now.slots }
    ensures loads { (image : List ℕ) → L.agrees l.new image → L.loads l.new ≤ L.loads l.old + 4 + 50 * length (slots_of (hash_chain area.now image kind hash) image) }
    ensures slot { Below area.now.slots result }
    ensures answer { (image : List ℕ) → L.agrees l.new image → result ≡ found_on area.now image query.now (hash_chain area.now image kind hash) }
{
    let chain = whole_chain(area, l, kind, hash);
    found(area, l, &chain, query)
}
