//! The state that a template takes.
ghost use Rattle.std.specs.Prelude.{◌≡◌, ◌&&◌, ◌==◌, not, option_copied};
ghost use Rattle.std.specs.List.{list_any};
ghost use Rattle.xf_types.specs.StateList.{last_of};
ghost use Rattle.xf_paths.specs.Stage.{suits, is_candidate, is_preferred, latest_preferred, best_at, larval_at};

use crate::stage::Stage;
use xf_held::Held;
use xf_types::Sa;

/// Whether there is a candidate that isn't dying.
fn any_living(states: &[Held], stage: &Stage) -> bool
    ensures { result ≡ list_any (λ h. is_candidate stage.now h.state && not h.state.dying) states.now }
{
    states
        .iter()
        .any(|h| stage.is_candidate(h.state()) && !h.state().dying)
}

/// The greatest added time of those that are preferred.
fn latest_added(states: &[Held], stage: &Stage, living: bool) -> u64
    ensures { result ≡ latest_preferred stage.now living states.now }
{
    let mut latest = 0;
    for held in states {
        let state = held.state();
        if stage.is_preferred(living, state) {
            latest = latest.max(state.added);
        }
    }
    latest
}

/// The last one that is preferred and was added at this time.
fn last_added<'a>(states: &'a [Held], stage: &Stage, living: bool, added: u64) -> Option<&'a Held>
    ensures { option_copied result
        ≡ last_of (λ h. is_preferred stage.now living h.state && (h.state.added == added)) states.now }
{
    states.iter().rev().find(|h| stage.is_preferred(living, h.state()) && h.state().added == added)
}

/// The last larval one that suits.
fn last_larval<'a>(states: &'a [Held], stage: &Stage) -> Option<&'a Held>
    ensures { option_copied result ≡ last_of (λ h. suits stage.now h.state && h.state.larval) states.now }
{
    states
        .iter()
        .rev()
        .find(|h| stage.suits(h.state()) && h.state().larval)
}

/// The candidate that the flow goes through.
pub(crate) fn find_best<'a>(states: &'a [Held], stage: &Stage) -> Option<&'a Sa>
    ensures { option_copied result ≡ best_at stage.now states.now }
{
    let living = any_living(states, stage);
    let added = latest_added(states, stage, living);
    match last_added(states, stage, living, added) {
        None => None,
        Some(found) => Some(found.state()),
    }
}

/// The larval state that the flow waits for.
pub(crate) fn find_larval<'a>(states: &'a [Held], stage: &Stage) -> Option<&'a Sa>
    ensures { option_copied result ≡ larval_at stage.now states.now }
{
    match last_larval(states, stage) {
        None => None,
        Some(found) => Some(found.state()),
    }
}
