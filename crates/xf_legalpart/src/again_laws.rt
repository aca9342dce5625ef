//! Laws of the part on overtaken reads: each step keeps it, and a call that was given up may say so.
ghost use Rattle.xf_legalpart.specs.AgainLaws.{AgainBegins, BeginKeepsAgain, DrawKeepsAgain, FinishKeepsAgain, LoadGenerationKeepsAgain, OthersKeepAgain, GivesUp};

use xf_invariant::Means;

/// At the beginning no read was overtaken.
pub fn again_begins()
    ensures { AgainBegins }
{}

/// An opening that begins keeps the part on overtaken reads.
pub fn begin_keeps_again<T: Means>()
    ensures { BeginKeepsAgain T.bucket_of T.good }
{}

/// A draw keeps it, each of its ways: a receipt of the seat's own ends its count.
pub fn draw_keeps_again<T: Means>()
    ensures { DrawKeepsAgain T.bucket_of T.good }
{}

/// An opening that ends keeps it.
pub fn finish_keeps_again<T: Means>()
    ensures { FinishKeepsAgain T.bucket_of T.good }
{}

/// A load of the generation keeps it: a read that began since the last receipt and was overtaken is counted.
pub fn load_generation_keeps_again<T: Means>()
    ensures { LoadGenerationKeepsAgain T.bucket_of T.good }
{}

/// Every other step keeps it.
pub fn others_keep_again<T: Means>()
    ensures { OthersKeepAgain T.bucket_of T.good }
{}

/// A call that is given up after no more tries than its seat counted may stand.
pub fn gives_up<T: Means>()
    ensures { GivesUp T.bucket_of T.good }
{}
