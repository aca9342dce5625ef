//! What is asked of a policy.
ghost use Rattle.std.specs.Prelude.{◌≡◌, ℕ, ◌+◌, ◌<◌, ◌≤◌, ◌^◌, List, Bool};
ghost use Rattle.xf_cells.specs.Words.{Narrows};
ghost use Rattle.xf_image.specs.Layout.{Fits};
ghost use Rattle.xf_exact.specs.Queries.{meets_at, meets_in};

use xf_asked::{applies_at, has_index_at, is_under_at};
use xf_cells::Load;
use xf_image::PolicyArea;
use xf_types::{Dir, Flow, Mark, Ptype, Selector};

/// What is asked of a policy.
#[derive(Clone, Copy, Debug)]
pub enum Query {
    /// It applies to this flow, and has this ptype.
    Applies {
        ptype: Ptype,
        flow: Flow,
    },

    /// It is listed under these.
    Under {
        dir: Dir,
        ptype: Ptype,
        sel: Selector,
        mark: Mark,
        if_id: u32,
    },

    /// It has this index.
    Index {
        index: u32,
    },
}

/// Whether the policy at a place is what is asked for.
#[tactic(auto, unfolding(crate::specs::Queries::meets_at))]
fn meets_at<L: Load>(l: &mut L, at: u32, query: &Query) -> bool
    requires lies { at + 104 ≤ L.size l.old }
    requires fits { at + 104 < 2 ^ 32 }
    ensures size { L.size l.new ≡ L.size l.old }
    ensures begun { L.begun l.new ≡ L.begun l.old }
    ensures rest { L.rest l.new ≡ L.rest l.old }
    ensures among { Narrows (L.agrees l.old) (L.agrees l.new) }
    ensures loads { L.loads l.new ≤ L.loads l.old + 15 }
    ensures answer { (image : List ℕ) → L.agrees l.new image → result ≡ meets_at image at query.now }
{
    match query {
        Query::Applies { ptype, flow } => applies_at(l, at, *ptype, flow),
        Query::Under {
            dir,
            ptype,
            sel,
            mark,
            if_id,
        } => is_under_at(l, at, *dir, *ptype, sel, *mark, *if_id),
        Query::Index { index } => has_index_at(l, at, *index),
    }
}

/// Whether the policy in a slot is what is asked for.
#[tactic(auto, unfolding(crate::specs::Queries::meets_in))]
pub(crate) fn meets_in<L: Load>(area: &PolicyArea, l: &mut L, query: &Query, slot: u32) -> bool
    requires fits { Fits area.now (L.size l.old) }
    requires slot { slot < area.now.slots }
    ensures size { L.size l.new ≡ L.size l.old }
    ensures begun { L.begun l.new ≡ L.begun l.old }
    ensures rest { L.rest l.new ≡ L.rest l.old }
    ensures among { Narrows (L.agrees l.old) (L.agrees l.new) }
    ensures loads { L.loads l.new ≤ L.loads l.old + 15 }
    ensures answer { (image : List ℕ) → L.agrees l.new image → result ≡ meets_in area.now image query.now slot }
{
    meets_at(l, area.record_place(slot), query)
}
