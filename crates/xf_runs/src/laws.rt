//! Laws of whole lists of steps, whatever image words mean.
ghost use Rattle.xf_runs.specs.Reuse.{NoReuse};
ghost use Rattle.xf_runs.specs.Runs.{TurnsStay, PartsStay, RunsAreLegal};

use xf_stale::Shows;

/// In each list of legal steps the turn part holds between any two.
pub fn turns_stay()
    ensures { TurnsStay }
{}

/// In no list of legal steps is a slot listed again that was retired while a seat was pinned, before that seat's unpin.
pub fn no_reuse()
    ensures { NoReuse }
{}

/// In each honest list of legal steps all parts hold between any two.
pub fn parts_stay<T: Shows>()
    ensures { PartsStay T.bucket_of T.good T.lists T.id_place T.index_at T.policies T.states }
{}

/// The receipts after an honest list of legal steps are a legal history of the empty machine.
pub fn legal_runs<T: Shows>()
    ensures { RunsAreLegal T.bucket_of T.good T.lists T.id_place T.index_at T.policies T.states }
{}
