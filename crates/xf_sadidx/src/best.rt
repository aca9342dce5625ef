//! The best state of a chain.
ghost use Rattle.std.specs.Prelude.{◌≡◌, ℕ, ◌+◌, ◌*◌, ◌<◌, ◌≤◌, List, None, Some, cond, nat_lt, length};
ghost use Rattle.xf_cells.specs.Words.{Narrows};
ghost use Rattle.xf_chain.specs.Chains.{Lies, Below, slots_of};
ghost use Rattle.xf_sadidx.specs.Layout.{Fits};
ghost use Rattle.xf_sadidx.specs.Founds.{hash_chain};
ghost use Rattle.xf_sadidx.specs.Queries.{meets_in};
ghost use Rattle.xf_sadidx.specs.Bests as bests;

use crate::area::StateArea;
use crate::finding::whole_chain;
use crate::kind::Kind;
use crate::query::{StateQuery, meets_in};
use xf_asked::{added_at, dying_at};
use xf_cells::Load;
use xf_chain::{Chain, Walk};

/// A state that a walk met: its slot, and what it is chosen by.
#[derive(Clone, Copy, Debug, PartialEq, Eq)]
pub(crate) struct Seen {
    slot: u32,
    dying: bool,
    added: u64,
}

/// What the record in a slot tells.
fn seen_in<L: Load>(area: &StateArea, l: &mut L, slot: u32) -> Seen
    requires fits { Fits area.now (L.size l.old) }
    requires slot { slot < area.now.slots }
    ensures size { L.size l.new ≡ L.size l.old }
    ensures begun { L.begun l.new ≡ L.begun l.old }
    ensures rest { L.rest l.new ≡ L.rest l.old }
    ensures among { Narrows (L.agrees l.old) (L.agrees l.new) }
    ensures loads { L.loads l.new ≤ L.loads l.old + 2 }
    ensures slot { result.slot ≡ slot }
    ensures answer { (image : List ℕ) → L.agrees l.new image → result ≡ bests.seen_in area.now image slot }
{
    let at = area.record_place(slot);
    Seen {
        slot,
        dying: dying_at(l, at),
        added: added_at(l, at),
    }
}

/// Whether a state is better than a later one.
fn beats(new: &Seen, best: &Seen) -> bool
    ensures { result ≡ bests.beats_by new.now.dying best.now.dying (nat_lt best.now.added new.now.added) }
{
    let greater = best.added < new.added;
    match (new.dying, best.dying) {
        (true, false) => false,
        (false, true) => true,
        (true, true) => greater,
        (false, false) => greater,
    }
}

/// The better of the one that was met, where one was, and an earlier one.
fn better(best: Option<Seen>, new: Seen) -> Seen
    ensures { result ≡ bests.better best new }
{
    match best {
        None => new,
        Some(best) => { if beats(&new, &best) { new } else { best } }
    }
}

/// The better of the one that was met and the state in a slot, where that is what is asked for.
fn met<L: Load>(
    area: &StateArea,
    l: &mut L,
    query: &StateQuery,
    best: Option<Seen>,
    slot: u32,
) -> Option<Seen>
    requires fits { Fits area.now (L.size l.old) }
    requires slot { slot < area.now.slots }
    requires best { Below area.now.slots (bests.slot_seen best) }
    ensures size { L.size l.new ≡ L.size l.old }
    ensures begun { L.begun l.new ≡ L.begun l.old }
    ensures rest { L.rest l.new ≡ L.rest l.old }
    ensures among { Narrows (L.agrees l.old) (L.agrees l.new) }
    ensures loads { L.loads l.new ≤ L.loads l.old + 48 }
    ensures slot { Below area.now.slots (bests.slot_seen result) }
    ensures answer { (image : List ℕ) → L.agrees l.new image → result ≡ cond (meets_in area.now image query.now slot) (Some (bests.better best (bests.seen_in area.now image slot))) best }
{
    if meets_in(area, l, query, slot) {
        let new = seen_in(area, l, slot);
        Some(better(best, new))
    } else {
        best
    }
}

/// The best state of a chain that is what is asked for.
fn best_of<L: Load>(area: &StateArea, l: &mut L, chain: &Chain, query: &StateQuery) -> Option<Seen>
    requires fits { Fits area.now (L.size l.old) }
    requires lies { Lies chain.now (L.size l.old) }
    requires slots { chain.now.slots ≡ area.now.slots }
    ensures size { L.size l.new ≡ L.size l.old }
    ensures begun { L.begun l.new ≡ L.begun l.old }
    ensures rest { L.rest l.new ≡ L.rest l.old }
    ensures among { Narrows (L.agrees l.old) (L.agrees l.new) }
    ensures most { L.loads l.new ≤ L.loads l.old + 2 + 50 * area.now.slots }
    ensures loads { (image : List ℕ) → L.agrees l.new image → L.loads l.new ≤ L.loads l.old + 2 + 50 * length (slots_of chain.now image) }
    ensures slot { Below area.now.slots (bests.slot_seen result) }
    ensures answer { (image : List ℕ) → L.agrees l.new image → result ≡ bests.best_from area.now image query.now None (slots_of chain.now image) }
{
    let mut walk = Walk::start(chain, l);
    let mut best = None;
    'slots: while let Some(slot) = walk.step(chain, l) {
        best = met(area, l, query, best, slot);
    }
    best
}

/// The slot of what was met, where anything was.
fn slot_seen(best: Option<Seen>) -> Option<u32>
    ensures { result ≡ bests.slot_seen best }
{
    match best {
        None => None,
        Some(best) => Some(best.slot),
    }
}

/// The slot of the best state of the chain of a hash that is what is asked for.
pub fn best_on<L: Load>(
    area: &StateArea,
    l: &mut L,
    kind: Kind,
    hash: u64,
    query: &StateQuery,
) -> Option<u32>
    requires fits { Fits area.now (L.size l.old) }
    ensures size { L.size l.new ≡ L.size l.old }
    ensures begun { L.begun l.new ≡ L.begun l.old }
    ensures rest { L.rest l.new ≡ L.rest l.old }
    ensures among { Narrows (L.agrees l.old) (L.agrees l.new) }
    ensures most { L.loads l.new ≤ L.loads l.old + 4 + 50 * area.now.slots }
    ensures loads { (image : List ℕ) → L.agrees l.new image → L.loads l.new ≤ L.loads l.old + 4 + 50 * length (slots_of (hash_chain area.now image kind hash) image) }
    ensures slot { Below area.now.slots result }
    ensures answer { (image : List ℕ) → L.agrees l.new image → result ≡ bests.slot_seen (bests.best_from area.now image query.now None (slots_of (hash_chain area.now image kind hash) image)) }
{
    let chain = whole_chain(area, l, kind, hash);
    let best = best_of(area, l, &chain, query);
    slot_seen(best)
}
