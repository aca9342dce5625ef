//! Laws of the meaning. No code calls these functions; proofs cite the lemmas.
ghost use Rattle.xf_meaning.specs.CallLaws.{CallLaws};
ghost use Rattle.xf_meaning.specs.KeepLaws.{KeepLaws};
ghost use Rattle.xf_meaning.specs.OpenLaws.{OpenLaws};
ghost use Rattle.xf_meaning.specs.SlotLaws.{SlotLaws};
ghost use Rattle.xf_meaning.specs.StandLaws.{StandLaws};

/// What good words say of slots.
pub fn slots()
    ensures { SlotLaws }
{}

/// Zeros stand for the empty machine, and good words with the values at home tell one machine.
pub fn opening()
    ensures { OpenLaws }
{}

/// Good words and values beside them stand for machines, and words that stand are good.
pub fn standing()
    ensures { StandLaws }
{}

/// A call over words and values, by someone who has the turn, gives an honest receipt.
pub fn calls()
    ensures { CallLaws }
{}

/// Words that keep the places of states keep what the table's slots list.
pub fn places()
    ensures { KeepLaws }
{}
