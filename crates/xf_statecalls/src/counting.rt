//! How many states are listed.
ghost use Rattle.std.specs.Prelude.{◌≡◌, ℕ, ◌+◌, ◌≤◌, false, List};
ghost use Rattle.xf_types.specs.declared.state.Sa.{Sa};
ghost use Rattle.xf_types.specs.History.{is_contended};
ghost use Rattle.xf_types.specs.Machine.{Shown};
ghost use Rattle.xf_types.specs.StateRules as rule;
ghost use Rattle.xf_cells.specs.Words.{Narrows};
ghost use Rattle.xf_sadimage.specs.States.{StatesStand};
ghost use Rattle.xf_rows.specs.Layouts.{Fits};

use xf_cells::Load;
use xf_rows::Layout;
use xf_sad::Sad;
use xf_types::Reply;

/// How many states are listed.
pub fn state_count<L: Load>(layout: &Layout, l: &mut L) -> Reply
    requires { Fits layout.now (L.size l.old) }
    ensures size { L.size l.new ≡ L.size l.old }
    ensures begun { L.begun l.new ≡ L.begun l.old }
    ensures rest { L.rest l.new ≡ L.rest l.old }
    ensures among { Narrows (L.agrees l.old) (L.agrees l.new) }
    ensures loads { L.loads l.new ≤ L.loads l.old + 1 }
    ensures settled { is_contended result ≡ false }
    ensures answer { (image : List ℕ) (s : Shown) (entries : List (ℕ × Sa)) → L.agrees l.new image → StatesStand layout.now.states image s entries → result ≡ (rule.state_count s).reply }
{
    let count = (Sad {
        area: layout.states,
    })
    .count(l);
    Reply::StateCount(count)
}
