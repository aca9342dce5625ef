//! Laws of the history's legality, whatever image words mean.
ghost use Rattle.xf_legalpart.specs.HonestLaws.{HonestLaws};
ghost use Rattle.xf_legalpart.specs.LegalLaws.{DrawKeepsLegal, LoadGenerationKeepsLegal};

use xf_ownpart::Lists;

/// A draw keeps the receipts a legal history: one that may stand after all others, and a trial, which has none yet.
pub fn draw_keeps_legal<T: Lists>()
    ensures { DrawKeepsLegal T.bucket_of T.good T.lists }
{}

/// So does the end of a read, also where the receipt of a trial comes to stand before others.
pub fn load_generation_keeps_legal<T: Lists>()
    ensures { LoadGenerationKeepsLegal T.bucket_of T.good T.lists }
{}

/// A receipt that is honest by its way may stand where it comes to stand, and a held turn keeps the state on whose own part it rests.
pub fn honest_receipts<T: Lists>()
    ensures { HonestLaws T.bucket_of T.good T.lists }
{}
