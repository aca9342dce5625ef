//! Laws of retired slots, whatever image words mean.
ghost use Rattle.xf_retired.specs.RetiredLaws.{RetiredBegin, DrawKeepsRetired, LoadGenerationKeepsRetired, FullWithWaiting};

use crate::Pools;

/// At the beginning no slot is retired.
pub fn retired_begin<T: Pools>()
    ensures { RetiredBegin T.policies T.states }
{}

/// A draw keeps no more slots retired than records were removed: a move that retires a slot removes its record.
pub fn draw_keeps_retired<T: Pools>()
    ensures { DrawKeepsRetired T.bucket_of T.good T.lists T.index_at T.policies T.states }
{}

/// So does the end of a read. No other step changes the settled image or the receipts.
pub fn load_generation_keeps_retired<T: Pools>()
    ensures { LoadGenerationKeepsRetired T.bucket_of T.good T.lists T.policies T.states }
{}

/// A call may be answered that a list is full while slots wait, where each slot of the list is listed or retired.
pub fn full_with_waiting<T: Pools>()
    ensures { FullWithWaiting T.bucket_of T.good T.lists T.policies T.states }
{}
