//! Laws of statuses and of slots' turns. No code calls these functions; proofs cite the lemmas.
ghost use Rattle.xf_desk.specs.MarkLaws.{MarkLaws};
ghost use Rattle.xf_desk.specs.TurnLaws.{TurnLaws};

/// What statuses make of words and of pools.
#[tactic(auto, using(crate::proofs::MarkLaws::mark_laws))]
pub fn marks()
    ensures { MarkLaws }
{}

/// What a pass with slots' turns knows of their values.
#[tactic(auto, using(crate::proofs::TurnLaws::turn_laws))]
pub fn turns()
    ensures { TurnLaws }
{}
