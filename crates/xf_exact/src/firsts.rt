//! The first policy of a chain that applies to a flow.
ghost use Rattle.std.specs.Prelude.{◌≡◌, ℕ, ◌+◌, ◌*◌, ◌<◌, ◌≤◌, List, Option, length};
ghost use Rattle.xf_cells.specs.Words.{Narrows};
ghost use Rattle.xf_chain.specs.Families.{Lays, chain_at};
ghost use Rattle.xf_chain.specs.Chains.{slots_of};
ghost use Rattle.xf_image.specs.Layout.{Fits};
ghost use Rattle.xf_exact.specs.Parts as parts;

use crate::finding::found;
use crate::hit::{Hit, hit_at};
use crate::query::Query;
use xf_cells::Load;
use xf_chain::Family;
use xf_image::PolicyArea;
use xf_types::{Flow, Ptype};

/// The first policy of a chain that applies to the flow and has this ptype.
pub fn first_on<L: Load>(
    area: &PolicyArea,
    l: &mut L,
    family: &Family,
    number: u32,
    ptype: Ptype,
    flow: &Flow,
) -> Option<Hit>
    requires fits { Fits area.now (L.size l.old) }
    requires lays { Lays family.now (L.size l.old) }
    requires slots { family.now.slots ≡ area.now.slots }
    requires number { number < family.now.count }
    ensures size { L.size l.new ≡ L.size l.old }
    ensures begun { L.begun l.new ≡ L.begun l.old }
    ensures rest { L.rest l.new ≡ L.rest l.old }
    ensures among { Narrows (L.agrees l.old) (L.agrees l.new) }
    ensures most { L.loads l.new ≤ L.loads l.old + 4 + 16 * area.now.slots }
    ensures loads { (image : List ℕ) → L.agrees l.new image → L.loads l.new ≤ L.loads l.old + 4 + 16 * length (slots_of (chain_at family.now number) image) }
    ensures answer { (image : List ℕ) → L.agrees l.new image → result ≡ parts.first_on area.now image family.now number ptype flow.now }
{
    let size = l.size();
    let chain = family.chain(number, size);
    let query = Query::Applies { ptype, flow: *flow };
    let slot = found(area, l, &chain, &query);
    hit_at(area, l, slot)
}
