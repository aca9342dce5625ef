//! The search for a fresh SPI: one walk over the states, which sets the flags of the SPIs that they take.
ghost use Rattle.std.specs.Prelude.{◌≡◌, ◌≤◌, ◌<◌, ◌+◌, ◌-◌, ◌^◌, IfOk, IfSome, length, map, min, not, position};
ghost use Rattle.xf_states.specs.Spis.{AreFlags, IsSet, is_beside};
ghost use Rattle.xf_types.specs.StateRules.{free_spi};

use std::alloc::{AllocError, Global};
use xf_held::Held;
use xf_types::{AllocSpec, Sa, same_addr};

/// How many SPIs are asked, from the least one on: of one more than there are states one is free.
fn candidates(spec: &AllocSpec, states: usize) -> usize
    requires { spec.now.min ≤ spec.now.max }
    ensures count { result ≡ min (spec.now.max + 1 - spec.now.min) (states + 1) }
    ensures fits { spec.now.min + result ≤ 2 ^ 32 }
{
    ((spec.max - spec.min) as usize).min(states) + 1
}

/// Whether the state has the destination and the protocol that are asked for.
fn is_beside(spec: &AllocSpec, state: &Sa) -> bool
    ensures { result ≡ is_beside spec.now state.now }
{
    same_addr(&state.spec.dst, &spec.dst) && state.spec.proto == spec.proto
}

/// Sets the flag of the state's SPI, where there is one.
fn set_flag(taken: &mut [bool], spec: &AllocSpec, state: &Sa)
    ensures { IsSet spec.now state.now taken.old taken.new }
{
    if !is_beside(spec, state) || state.spec.spi < spec.min {
        return;
    }
    let place = (state.spec.spi - spec.min) as usize;
    if place < taken.len() {
        taken[place] = true;
    }
}

/// Of so many SPIs, from the least one on, whether each is taken.
fn flags(
    alloc: Global,
    held: &[Held],
    spec: &AllocSpec,
    count: usize,
) -> Result<Vec<bool>, AllocError>
    ensures count { IfOk result (λ v. length v.items ≡ count) }
    ensures flags { IfOk result (λ v. AreFlags spec.now (map (λ h. h.state) held.now) v.items) }
{
    let mut taken = vec![in alloc; false; count]?;
    for one in held {
        set_flag(&mut taken, spec, one.state());
    }
    Ok(taken)
}

/// Where the first flag stands that isn't set.
fn first_unset(taken: &[bool]) -> Option<usize>
    ensures place { result ≡ position not taken.now }
    ensures within { IfSome result (λ place. place < length taken.now) }
{
    taken.iter().position(|flag| !*flag)
}

/// The least free SPI of the range.
pub fn find_free(alloc: Global, held: &[Held], spec: &AllocSpec) -> Result<Option<u32>, AllocError>
    requires { spec.now.min ≤ spec.now.max }
    ensures { IfOk result (λ spi. spi ≡ free_spi spec.now (map (λ h. h.state) held.now)) }
{
    let taken = flags(alloc, held, spec, candidates(spec, held.len()))?;
    match first_unset(&taken) {
        None => Ok(None),
        Some(place) => Ok(Some(spec.min + place as u32)),
    }
}
