//! Laws of the definitions. No code calls these functions; proofs cite the lemmas.
ghost use Rattle.xf_image.specs.ChangeLaws.{ChangeLaws};
ghost use Rattle.xf_image.specs.FrameLaws.{FrameLaws};
ghost use Rattle.xf_image.specs.LayoutLaws.{LayoutLaws};
ghost use Rattle.xf_image.specs.SlotLaws.{SlotLaws};
ghost use Rattle.xf_image.specs.WalkLaws.{WalkLaws};

/// The chains and the columns lie in the words.
pub fn layout()
    ensures { LayoutLaws }
{}

/// The words after a change stand for the list after it.
pub fn changes()
    ensures { ChangeLaws }
{}

/// A change writes words of its own alone.
pub fn frames()
    ensures { FrameLaws }
{}

/// The slots of the policies.
pub fn slots()
    ensures { SlotLaws }
{}

/// What the walk of a change of the thresholds passes while it writes.
pub fn set_walk()
    ensures { WalkLaws }
{}
