//! An image of the two databases.
ghost use Rattle.std.specs.Prelude.{◌≡◌, ◌↔◌, IfOk, IsTrue, IfSome, ◌≤◌, ◌<◌, All, length, vec_len, replicate};
ghost use Rattle.xf_types.specs.Steps.{empty};
ghost use Rattle.xf_types.specs.Standing.{Nothing};
ghost use Rattle.xf_meaning.specs.Machines.{first_ids};
ghost use Rattle.xf_opening.specs.Freed.{AreFreed};
ghost use Rattle.xf_opening.specs.Images.{AreSizes, AreYoung, ImageView, IsAtRest, StandsFor, IsYoung, homes_of, image_in};

use crate::sizes::Sizes;
use std::alloc::Global;
use std::marker::Model;
use xf_local::Local;
use xf_meaning::layout_of;
use xf_types::NoMemory;
use xf_values::StateValue;

/// The two databases at rest: no call is under way, and no slot is held back. A contract sees the machine, and how often what
/// lookups read was changed.
#[derive(Debug, Drop)]
pub struct Image {
    sizes: Sizes,
    /// A status for each slot, the words of the lists, the time, and the ids of changes.
    words: Vec<u64>,
    /// One for each slot: those of policies' slots are dead.
    values: Vec<StateValue>,
}

impl Model for Image {
    ghost use Rattle.xf_opening.specs.Images.{ImageView, IsAtRest, homes_of, image_in};

    ghost Value = { ImageView };

    ghost view = { λ i. image_in i.sizes.policies i.sizes.states i.words.items (homes_of i.values.items) };

    ghost invariant = { λ i. let homes = homes_of i.values.items in
        IsAtRest i.sizes.policies i.sizes.states i.words.items homes (image_in i.sizes.policies i.sizes.states i.words.items homes) };
}

impl Image {
    /// The empty machine with these capacities.
    pub fn empty(alloc: Global, sizes: Sizes) -> Result<Image, NoMemory>
        requires { AreSizes sizes.policies sizes.states }
        ensures { IfOk result (λ i. i ≡ record { machine = empty sizes.policies sizes.states; ids = first_ids }) }
    {
        let count = layout_of(sizes.policies, sizes.states).clock as usize + 66;
        let Ok(words) = vec![in alloc; 0; count] else {
            return Err(NoMemory);
        };
        let Some(values) = dead_values(alloc, sizes.policies + sizes.states) else {
            return Err(NoMemory);
        };
        Ok(Image {
            sizes,
            words,
            values,
        })
    }

    /// An image of words, and of a value for each slot.
    pub fn from_parts(sizes: Sizes, words: Vec<u64>, values: Vec<StateValue>) -> Image
        requires { let homes = homes_of values.items in
            IsAtRest sizes.policies sizes.states words.items homes (image_in sizes.policies sizes.states words.items homes) }
        ensures { result ≡ image_in sizes.policies sizes.states words.items (homes_of values.items) }
    {
        Image {
            sizes,
            words,
            values,
        }
    }

    /// An image of what a table leaves: slots that are retired there are free again.
    pub fn after(sizes: Sizes, words: Vec<u64>, values: Vec<StateValue>) -> Image
        requires sizes { AreSizes sizes.policies sizes.states }
        requires left { (i : ImageView) × StandsFor sizes.policies sizes.states words.items (homes_of values.items) i }
        ensures { (i : ImageView) → StandsFor sizes.policies sizes.states words.items (homes_of values.items) i → result ≡ i }
    {
        let mut words = words;
        free_retired(&mut words, sizes.policies as usize + sizes.states as usize);
        Image {
            sizes,
            words,
            values,
        }
    }

    /// Its words, and a value for each slot.
    pub fn into_parts(self) -> (Sizes, Vec<u64>, Vec<StateValue>)
        ensures { IsAtRest result.0.policies result.0.states result.1.items (homes_of result.2.items) self }
    {
        let Image {
            sizes,
            words,
            values,
        } = self;
        (sizes, words, values)
    }

    /// Whether the numbers that it has given so far are small.
    pub fn young(&self) -> bool
        ensures { IsTrue result ↔ IsYoung self.now }
    {
        let layout = layout_of(self.sizes.policies, self.sizes.states);
        let clock = layout.clock as usize;
        let number = layout.policies.base as usize + 1;
        let sid = layout.states.base as usize + 1;
        are_young(&self.words, number, sid, clock + 1, clock + 2)
    }
}

/// The greatest number that an image gave that may be opened.
const YOUNG: u64 = 1 << 62;

/// The status of a slot that is listed.
const LISTED: u64 = 1;

/// A dead value for each of so many slots.
fn dead_values(alloc: Global, count: u32) -> Option<Vec<StateValue>>
    ensures { IfSome result (λ v. homes_of v.items ≡ replicate count Nothing) }
{
    let Ok(values) = Vec::with_capacity(alloc, count as usize) else {
        return None;
    };
    let mut values = values;
    'slots: for _ in 0..count {
        values.push_reserved(StateValue {
            local: Local::dead(),
        });
    }
    Some(values)
}

/// Frees the slots of so many statuses that aren't listed.
fn free_retired(words: &mut Vec<u64>, slots: usize)
    requires { slots ≤ vec_len words.old }
    ensures { AreFreed slots words.old.items words.new.items }
{
    'slots: for slot in 0..slots {
        if words[slot] != LISTED {
            words[slot] = 0;
        }
    }
}

/// Whether the number of the next policy and the id of the next state, each less 1, and the ids of changes are those of a young image,
/// which stand at these places.
fn are_young(words: &[u64], number: usize, sid: usize, id: usize, ids: usize) -> bool
    requires places { (number < length words.now) × (sid < length words.now) × (id < length words.now) }
    requires rest { ids ≤ length words.now }
    ensures { IsTrue result ↔ AreYoung words.now number sid id ids }
{
    words[number] < YOUNG && words[sid] < YOUNG && words[id] <= YOUNG && are_few(&words[ids..])
}

/// Whether none of the words is greater than the number of a young image.
fn are_few(words: &[u64]) -> bool
    ensures { IsTrue result ↔ All (λ word. word ≤ YOUNG) words.now }
{
    words.iter().all(|word| *word <= YOUNG)
}
