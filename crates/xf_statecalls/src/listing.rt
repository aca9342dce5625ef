//! The states that a filter admits.
ghost use Rattle.std.specs.Prelude.{◌≡◌, ◌≢◌, ℕ, ◌≤◌, ◌++◌, [], false, List, OnOk, IfOk, filter, length};
ghost use Rattle.xf_types.specs.declared.state.Sa.{Sa};
ghost use Rattle.xf_types.specs.History.{is_contended};
ghost use Rattle.xf_types.specs.Machine.{Shown};
ghost use Rattle.xf_types.specs.StateList.{state_meets};
ghost use Rattle.xf_types.specs.StateRules as rule;
ghost use Rattle.xf_cells.specs.Words.{Narrows};
ghost use Rattle.xf_sadimage.specs.States.{StatesStand};
ghost use Rattle.xf_rows.specs.Layouts.{Fits};
ghost use Rattle.xf_statecalls.specs.Sweeps.{kept};

use std::alloc::Global;
use xf_cells::{Load, NoMemory};
use xf_held::admits;
use xf_rows::Layout;
use xf_sad::Sad;
use xf_types::{Reply, Sa, SaFilter, Sas};

/// Whether a state counts: how many a filter admits of it.
fn counted(wanted: &SaFilter, state: &Option<Sa>) -> u32
    ensures few { result ≤ 1 }
    ensures is { result ≡ length (kept (state_meets wanted.now) state.now) }
{
    match state {
        None => 0,
        Some(state) => {
            if admits(wanted, state) {
                return 1;
            }
            0
        }
    }
}

/// Puts a state behind the others, where a filter admits it.
fn push_admitted(
    admitted: &mut Vec<Sa>,
    wanted: &SaFilter,
    state: Option<Sa>,
) -> Result<(), NoMemory>
    ensures { OnOk result (admitted.new.items ≡ admitted.old.items ++ kept (state_meets wanted.now) state) }
{
    let Some(state) = state else {
        return Ok(());
    };
    if !admits(wanted, &state) {
        return Ok(());
    }
    match admitted.push(state) {
        Ok(()) => Ok(()),
        Err(_) => Err(NoMemory),
    }
}

/// How many states a filter admits.
fn count_admitted<L: Load>(layout: &Layout, l: &mut L, wanted: &SaFilter) -> u32
    requires { Fits layout.now (L.size l.old) }
    ensures size { L.size l.new ≡ L.size l.old }
    ensures begun { L.begun l.new ≡ L.begun l.old }
    ensures rest { L.rest l.new ≡ L.rest l.old }
    ensures among { Narrows (L.agrees l.old) (L.agrees l.new) }
    ensures answer { (image : List ℕ) (s : Shown) (entries : List (ℕ × Sa)) → L.agrees l.new image → StatesStand layout.now.states image s entries → result ≡ length (filter (state_meets wanted.now) s.states) }
{
    let sad = Sad {
        area: layout.states,
    };
    let mut count = 0;
    let mut at = sad.first_slot(l);
    let mut left = layout.states.slots;
    'slots: while left > 0 {
        let Some(slot) = at else {
            return count;
        };
        let state = sad.state(l, slot);
        let one = counted(wanted, &state);
        count += one;
        at = sad.next_slot(l, slot);
        left -= 1;
    }
    count
}

/// The states that a filter admits, in the order of adding, behind those of an empty list.
fn collect_admitted<L: Load>(
    layout: &Layout,
    l: &mut L,
    wanted: &SaFilter,
    empty: Vec<Sa>,
) -> Result<Vec<Sa>, NoMemory>
    requires fits { Fits layout.now (L.size l.old) }
    requires empty { empty.items ≡ [] }
    ensures size { L.size l.new ≡ L.size l.old }
    ensures begun { L.begun l.new ≡ L.begun l.old }
    ensures rest { L.rest l.new ≡ L.rest l.old }
    ensures among { Narrows (L.agrees l.old) (L.agrees l.new) }
    ensures answer { (image : List ℕ) (s : Shown) (entries : List (ℕ × Sa)) → L.agrees l.new image → StatesStand layout.now.states image s entries → IfOk result (λ list. list.items ≡ filter (state_meets wanted.now) s.states) }
{
    let sad = Sad {
        area: layout.states,
    };
    let mut admitted = empty;
    let mut at = sad.first_slot(l);
    let mut left = layout.states.slots;
    'slots: while left > 0 {
        let Some(slot) = at else {
            return Ok(admitted);
        };
        let state = sad.state(l, slot);
        push_admitted(&mut admitted, wanted, state)?;
        at = sad.next_slot(l, slot);
        left -= 1;
    }
    Ok(admitted)
}

/// The states that a filter admits, in the order of adding. They are counted first, and the memory for them is taken before one is read to keep.
fn list_admitted<L: Load>(
    alloc: Global,
    layout: &Layout,
    l: &mut L,
    wanted: &SaFilter,
) -> Result<Vec<Sa>, NoMemory>
    requires { Fits layout.now (L.size l.old) }
    ensures size { L.size l.new ≡ L.size l.old }
    ensures begun { L.begun l.new ≡ L.begun l.old }
    ensures rest { L.rest l.new ≡ L.rest l.old }
    ensures among { Narrows (L.agrees l.old) (L.agrees l.new) }
    ensures answer { (image : List ℕ) (s : Shown) (entries : List (ℕ × Sa)) → L.agrees l.new image → StatesStand layout.now.states image s entries → IfOk result (λ list. list.items ≡ filter (state_meets wanted.now) s.states) }
{
    let count = count_admitted(layout, l, wanted);
    match Vec::with_capacity(alloc, count as usize) {
        Ok(empty) => collect_admitted(layout, l, wanted, empty),
        Err(_) => Err(NoMemory),
    }
}

/// The states that a filter admits, in the order of adding. NoMemory where there is no room for the list.
pub fn state_list<L: Load>(alloc: Global, layout: &Layout, l: &mut L, filter: &SaFilter) -> Reply
    requires { Fits layout.now (L.size l.old) }
    ensures size { L.size l.new ≡ L.size l.old }
    ensures begun { L.begun l.new ≡ L.begun l.old }
    ensures rest { L.rest l.new ≡ L.rest l.old }
    ensures among { Narrows (L.agrees l.old) (L.agrees l.new) }
    ensures settled { is_contended result ≡ false }
    ensures answer { (image : List ℕ) (s : Shown) (entries : List (ℕ × Sa)) → L.agrees l.new image → StatesStand layout.now.states image s entries → result ≢ Reply.NoMemory → result ≡ (rule.state_list s filter.now).reply }
{
    match list_admitted(alloc, layout, l, filter) {
        Ok(list) => Reply::StateList(Sas::new(list)),
        Err(_) => Reply::NoMemory,
    }
}
