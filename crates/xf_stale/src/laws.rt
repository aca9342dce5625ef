//! Laws of held states, whatever image words mean.
ghost use Rattle.xf_stale.specs.StaleLaws.{StaleBegins, DrawKeepsStale, LoadGenerationKeepsStale, PinKeepsStale, OthersKeepStale, StaleSays};

use crate::Shows;

/// At the beginning no seat holds a slot.
pub fn stale_begins<T: Shows>()
    ensures { StaleBegins T.lists T.id_place T.policies T.states }
{}

/// A draw keeps each held state at its slot or gone: a move gives new states new ids, and leaves those that stay in their slots.
pub fn draw_keeps_stale<T: Shows>()
    ensures { DrawKeepsStale T.bucket_of T.good T.lists T.id_place T.policies T.states }
{}

/// The end of a read keeps it: what a read that ends the same showed is listed there.
pub fn load_generation_keeps_stale<T: Shows>()
    ensures { LoadGenerationKeepsStale T.bucket_of T.good T.lists T.id_place T.policies T.states }
{}

/// A pin that is set or cleared keeps it, with nothing held.
pub fn pin_keeps_stale<T: Shows>()
    ensures { PinKeepsStale T.bucket_of T.good T.lists T.id_place T.policies T.states }
{}

/// Every other step keeps it.
pub fn others_keep_stale<T: Shows>()
    ensures { OthersKeepStale T.bucket_of T.good T.lists T.id_place T.policies T.states }
{}

/// A held state whose slot doesn't list it is gone.
pub fn stale_says<T: Shows>()
    ensures { StaleSays T.bucket_of T.good T.lists T.id_place T.policies T.states }
{}
