//! The walk over the templates.
ghost use Rattle.std.specs.Prelude.{◌≡◌, ◌≤◌, length};
ghost use Rattle.xf_types.specs.Resolution as rule;
ghost use Rattle.xf_paths.specs.Shown.{shown};
ghost use Rattle.xf_paths.specs.Stage.{states_of, larval_at};

use crate::best::{find_best, find_larval};
use crate::resolved::Resolved;
use crate::stage::Stage;
use arrayvec::ArrayVec;
use xf_held::Held;
use xf_types::{Flow, Hop, Level, Path, Sa, Template};

/// Whether a template of this level is skipped where it has no state.
fn is_optional(level: Level) -> bool
    ensures { result ≡ rule.is_optional level }
{
    level == Level::Use
}

/// The step of a path through this state.
fn hop_of(state: &Sa) -> Hop
    ensures { result ≡ rule.hop_of state.now }
{
    let spec = &state.spec;
    Hop {
        sid: state.sid,
        proto: spec.proto,
        spi: spec.spi,
        dst: spec.dst,
    }
}

/// What a required template without a candidate comes to.
fn wait_or_want(states: &[Held], stage: &Stage, place: u32) -> Resolved
    ensures { shown result
        ≡ rule.wait_or_want (larval_at stage.now states.now) stage.now.template place stage.now.src stage.now.dst }
{
    match find_larval(states, stage) {
        Some(larval) => Resolved::Waits(larval.spec.seq),
        None => Resolved::Wants {
            template: stage.template,
            place,
            src: stage.src,
            dst: stage.dst,
        },
    }
}

/// Tries the templates in order, each at the addresses that the one before left. A template that is skipped leaves the
/// addresses as they are.
pub fn resolve(states: &[Held], flow: &Flow, templates: &[Template]) -> Resolved
    requires { length templates.now ≤ 6 }
    ensures { shown result
        ≡ rule.resolution (states_of states.now) flow.now templates.now 0 flow.now.src flow.now.dst }
{
    let mut hops = ArrayVec::new();
    let mut src = flow.src;
    let mut dst = flow.dst;
    for (place, template) in templates.iter().enumerate() {
        let stage = Stage::new(template, flow, src, dst);
        match find_best(states, &stage) {
            Some(state) => {
                hops.push(hop_of(state));
                src = stage.src;
                dst = stage.dst;
            }
            None => {
                if !is_optional(template.level) {
                    return wait_or_want(states, &stage, place as u32);
                }
            }
        }
    }
    Resolved::Through(Path { items: hops })
}
