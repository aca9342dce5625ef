//! How a state comes into its chains, and how it leaves them.
ghost use Rattle.std.specs.Prelude.{◌≡◌, ℕ, ◌+◌, ◌<◌, ◌≤◌, true, List, Option, None};
ghost use Rattle.xf_chain.specs.Chains.{Below};
ghost use Rattle.xf_chain.specs.Families.{IsOf, Lays};
ghost use Rattle.xf_doubling.specs.Heads.{IsDoubling};
ghost use Rattle.xf_image.specs.Placing.{before_in};
ghost use Rattle.xf_sadidx.specs.declared.area.StateArea.{StateArea};
ghost use Rattle.xf_sadidx.specs.Layout as layout;
ghost use Rattle.xf_sadidx.specs.Standing.{head_by};
ghost use Rattle.xf_sadidx.specs.Writes as writes;

use crate::area::StateArea;
use crate::kind::Kind;
use xf_cells::Cells;
use xf_chain::Family;
use xf_doubling::{Doubling, doubling_at};
use xf_types::Sa;

/// How far the heads of cells are doubled, whose words stay.
pub fn doubling_in<C: Cells>(area: &StateArea, c: &mut C) -> Doubling
    requires fits { layout.Fits area.now (C.size c.old) }
    ensures size { C.size c.new ≡ C.size c.old }
    ensures begun { C.begun c.new ≡ C.begun c.old }
    ensures rest { C.rest c.new ≡ C.rest c.old }
    ensures words { C.words c.new ≡ C.words c.old }
    ensures is { IsDoubling result.half result.moved }
    ensures doubling { result ≡ layout.doubling_in area.now (C.words c.old) }
{
    doubling_at(c, area.doubling_place())
}

/// The head of a state, of a kind.
fn head(d: Doubling, kind: Kind, s: &Sa) -> Option<u32>
    requires is { IsDoubling d.half d.moved }
    ensures head { result ≡ head_by d.half d.moved kind s.now }
    ensures below { (area : StateArea) → IsOf (layout.chains_of area kind) result }
{
    d.head(kind.key(s))
}

/// Puts a slot at the front of its state's chain of a kind.
fn put<C: Cells>(area: &StateArea, c: &mut C, d: Doubling, s: &Sa, slot: u32, kind: Kind)
    requires fits { layout.Fits area.now (C.size c.old) }
    requires begun { C.begun c.old ≡ true }
    requires slot { slot < area.now.slots }
    requires is { IsDoubling d.half d.moved }
    ensures size { C.size c.new ≡ C.size c.old }
    ensures begun { C.begun c.new ≡ true }
    ensures rest { C.rest c.new ≡ C.rest c.old }
    ensures words { C.words c.new ≡ writes.put_kind area.now d s.now slot kind (C.words c.old) }
{
    let number = head(d, kind, s);
    area.chains(kind).insert(c, number, None, slot);
}

/// The slot before a slot in the chain with a number, where there is one, of cells, whose words stay.
fn before<C: Cells>(c: &mut C, family: &Family, number: Option<u32>, slot: u32) -> Option<u32>
    requires lays { Lays family.now (C.size c.old) }
    requires number { IsOf family.now number }
    ensures size { C.size c.new ≡ C.size c.old }
    ensures begun { C.begun c.new ≡ C.begun c.old }
    ensures rest { C.rest c.new ≡ C.rest c.old }
    ensures words { C.words c.new ≡ C.words c.old }
    ensures below { Below family.now.slots result }
    ensures place { result ≡ before_in (C.words c.old) slot family.now number }
{
    let size = c.size();
    family.chain(number?, size).before(c, slot)
}

/// The slot before a slot in its state's chain of a kind.
fn place<C: Cells>(
    area: &StateArea,
    c: &mut C,
    d: Doubling,
    s: &Sa,
    slot: u32,
    kind: Kind,
) -> Option<u32>
    requires fits { layout.Fits area.now (C.size c.old) }
    requires is { IsDoubling d.half d.moved }
    ensures size { C.size c.new ≡ C.size c.old }
    ensures begun { C.begun c.new ≡ C.begun c.old }
    ensures rest { C.rest c.new ≡ C.rest c.old }
    ensures words { C.words c.new ≡ C.words c.old }
    ensures below { Below area.now.slots result }
    ensures place { result ≡ writes.place_in area.now d s.now slot (C.words c.old) kind }
{
    let number = head(d, kind, s);
    before(c, &area.chains(kind), number, slot)
}

/// Takes a slot, which stands after another, out of its state's chain of a kind.
fn take<C: Cells>(
    area: &StateArea,
    c: &mut C,
    d: Doubling,
    s: &Sa,
    slot: u32,
    kind: Kind,
    after: Option<u32>,
)
    requires fits { layout.Fits area.now (C.size c.old) }
    requires begun { C.begun c.old ≡ true }
    requires slot { slot < area.now.slots }
    requires is { IsDoubling d.half d.moved }
    requires after { Below area.now.slots after }
    ensures size { C.size c.new ≡ C.size c.old }
    ensures begun { C.begun c.new ≡ true }
    ensures rest { C.rest c.new ≡ C.rest c.old }
    ensures words { C.words c.new ≡ writes.take_kind area.now d s.now slot kind after (C.words c.old) }
{
    let number = head(d, kind, s);
    area.chains(kind).remove(c, number, after, slot);
}

/// Puts a slot at the front of its state's chain of each kind.
pub(crate) fn put_all<C: Cells>(area: &StateArea, c: &mut C, s: &Sa, slot: u32)
    requires fits { layout.Fits area.now (C.size c.old) }
    requires begun { C.begun c.old ≡ true }
    requires slot { slot < area.now.slots }
    ensures size { C.size c.new ≡ C.size c.old }
    ensures begun { C.begun c.new ≡ true }
    ensures rest { C.rest c.new ≡ C.rest c.old }
    ensures words { C.words c.new ≡ writes.put_all area.now (layout.doubling_in area.now (C.words c.old)) s.now slot (C.words c.old) }
{
    let d = doubling_in(area, c);
    put(area, c, d, s, slot, Kind::Spi);
    put(area, c, d, s, slot, Kind::Route);
    put(area, c, d, s, slot, Kind::Seq);
}

/// Takes a slot out of its state's chain of each kind. All places are found before the first store.
pub(crate) fn take_all<C: Cells>(area: &StateArea, c: &mut C, s: &Sa, slot: u32)
    requires fits { layout.Fits area.now (C.size c.old) }
    requires begun { C.begun c.old ≡ true }
    requires slot { slot < area.now.slots }
    ensures size { C.size c.new ≡ C.size c.old }
    ensures begun { C.begun c.new ≡ true }
    ensures rest { C.rest c.new ≡ C.rest c.old }
    ensures words { C.words c.new ≡ writes.take_all area.now (layout.doubling_in area.now (C.words c.old)) s.now slot (C.words c.old) }
{
    let d = doubling_in(area, c);
    let spi = place(area, c, d, s, slot, Kind::Spi);
    let route = place(area, c, d, s, slot, Kind::Route);
    let seq = place(area, c, d, s, slot, Kind::Seq);
    take(area, c, d, s, slot, Kind::Spi, spi);
    take(area, c, d, s, slot, Kind::Route, route);
    take(area, c, d, s, slot, Kind::Seq, seq);
}
