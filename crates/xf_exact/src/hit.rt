//! What is found of a policy, and which of two hits is asked first.
ghost use Rattle.std.specs.Prelude.{◌≡◌, ℕ, ◌+◌, ◌<◌, ◌≤◌, List, Option};
ghost use Rattle.xf_cells.specs.Words.{Narrows};
ghost use Rattle.xf_chain.specs.Chains.{Below};
ghost use Rattle.xf_image.specs.Layout.{Fits};
ghost use Rattle.xf_exact.specs.Hits as hits;

use xf_cells::Load;
use xf_image::PolicyArea;

/// A policy that was found: its slot, and by what it is ordered.
#[derive(Clone, Copy, Debug, PartialEq, Eq)]
pub struct Hit {
    pub slot: u32,
    pub priority: u32,
    pub number: u64,
}

/// Whether a hit comes after another one.
fn hit_after(a: &Hit, b: &Hit) -> bool
    ensures { result ≡ hits.hit_after a.now b.now }
{
    b.priority < a.priority || (a.priority == b.priority && b.number < a.number)
}

/// Of two hits the one that comes first.
pub fn better(a: Option<Hit>, b: Option<Hit>) -> Option<Hit>
    ensures { result ≡ hits.better a b }
{
    match (a, b) {
        (None, other) => other,
        (Some(one), None) => Some(one),
        (Some(one), Some(other)) => {
            if hit_after(&other, &one) {
                Some(one)
            } else {
                Some(other)
            }
        }
    }
}

/// The hit in a slot, where there is one.
pub fn hit_at<L: Load>(area: &PolicyArea, l: &mut L, slot: Option<u32>) -> Option<Hit>
    requires fits { Fits area.now (L.size l.old) }
    requires slot { Below area.now.slots slot }
    ensures size { L.size l.new ≡ L.size l.old }
    ensures begun { L.begun l.new ≡ L.begun l.old }
    ensures rest { L.rest l.new ≡ L.rest l.old }
    ensures among { Narrows (L.agrees l.old) (L.agrees l.new) }
    ensures loads { L.loads l.new ≤ L.loads l.old + 2 }
    ensures answer { (image : List ℕ) → L.agrees l.new image → result ≡ hits.hit_at area.now image slot }
{
    let slot = slot?;
    let priority = l.load(area.priority_place(slot));
    let number = l.load(area.number_place(slot));
    Some(Hit {
        slot,
        priority: priority.min(u64::from(u32::MAX)) as u32,
        number,
    })
}
