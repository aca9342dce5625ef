//! What a call finds before it changes anything: which slots it touches.
ghost use Rattle.std.specs.Prelude.{◌≡◌, ℕ, ◌+◌, ◌*◌, ◌≤◌, Bool, List};
ghost use Rattle.xf_types.specs.declared.state.Sa.{Sa};
ghost use Rattle.xf_types.specs.Machine.{Shown};
ghost use Rattle.xf_types.specs.StateList.{has_id, last_of};
ghost use Rattle.xf_cells.specs.Words.{Narrows};
ghost use Rattle.xf_chain.specs.Chains.{Below};
ghost use Rattle.xf_index.specs.Finds.{slot_found};
ghost use Rattle.xf_sadidx.specs.Founds.{latest_in};
ghost use Rattle.xf_sadimage.specs.States.{StatesStand};
ghost use Rattle.xf_sadfind.specs.Replaced.{larval_in};
ghost use Rattle.xf_rows.specs.Layouts.{Fits};

use xf_cells::Load;
use xf_rows::Layout;
use xf_sad::Sad;
use xf_sadfind::StateFinder;
use xf_sadidx::SadIndex;
use xf_types::{Sa, SaId, SaSpec};

/// The slot of the state that an id names: the last one that was added.
pub fn state_found<L: Load>(layout: &Layout, l: &mut L, id: &SaId) -> Option<u32>
    requires { Fits layout.now (L.size l.old) }
    ensures size { L.size l.new ≡ L.size l.old }
    ensures begun { L.begun l.new ≡ L.begun l.old }
    ensures rest { L.rest l.new ≡ L.rest l.old }
    ensures among { Narrows (L.agrees l.old) (L.agrees l.new) }
    ensures most { L.loads l.new ≤ L.loads l.old + 4 + 50 * layout.now.states.slots }
    ensures slot { Below layout.now.states.slots result }
    ensures state { (image : List ℕ) (s : Shown) (entries : List (ℕ × Sa)) → L.agrees l.new image → StatesStand layout.now.states image s entries → result ≡ slot_found (latest_in (has_id id.now) entries) }
{
    (SadIndex {
        area: layout.states,
    })
    .living(l, id)
}

/// The slot of the larval state that a new one takes the place of.
pub fn state_replaced<L: Load>(layout: &Layout, l: &mut L, spec: &SaSpec) -> Option<u32>
    requires { Fits layout.now (L.size l.old) }
    ensures size { L.size l.new ≡ L.size l.old }
    ensures begun { L.begun l.new ≡ L.begun l.old }
    ensures rest { L.rest l.new ≡ L.rest l.old }
    ensures among { Narrows (L.agrees l.old) (L.agrees l.new) }
    ensures most { L.loads l.new ≤ L.loads l.old + 4 + 50 * layout.now.states.slots }
    ensures slot { Below layout.now.states.slots result }
    ensures state { (image : List ℕ) (s : Shown) (entries : List (ℕ × Sa)) → L.agrees l.new image → StatesStand layout.now.states image s entries → result ≡ slot_found (larval_in spec.now entries) }
{
    (StateFinder {
        area: layout.states,
    })
    .replaced(l, spec)
}

/// The state in the slot that a lookup found, where it found one.
pub(crate) fn state_there<L: Load>(layout: &Layout, l: &mut L, slot: Option<u32>) -> Option<Sa>
    requires fits { Fits layout.now (L.size l.old) }
    requires slot { Below layout.now.states.slots slot }
    ensures size { L.size l.new ≡ L.size l.old }
    ensures begun { L.begun l.new ≡ L.begun l.old }
    ensures rest { L.rest l.new ≡ L.rest l.old }
    ensures among { Narrows (L.agrees l.old) (L.agrees l.new) }
    ensures loads { L.loads l.new ≤ L.loads l.old + 46 }
    ensures state { (image : List ℕ) (s : Shown) (entries : List (ℕ × Sa)) (test : Sa → Bool) → L.agrees l.new image → StatesStand layout.now.states image s entries → slot ≡ slot_found (latest_in test entries) → result ≡ last_of test s.states }
{
    match slot {
        None => None,
        Some(slot) => (Sad {
            area: layout.states,
        })
        .state(l, slot),
    }
}
