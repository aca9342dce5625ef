//! Laws of indexes.
ghost use Rattle.xf_index.specs.AllLaws.{AllLaws};
ghost use Rattle.xf_index.specs.ChangeLaws.{ChangeLaws, FrameLaws};
ghost use Rattle.xf_index.specs.FindLaws.{FindLaws};
ghost use Rattle.xf_index.specs.LastFirstLaws.{LastFirstLaws};
ghost use Rattle.xf_index.specs.ListLaws.{HoldsLaws, ListLaws};
ghost use Rattle.xf_index.specs.WalkLaws.{NeighbourLaws, WalkLaws};

/// An entry more, one less, or one replaced changes one chain of an index at one place.
pub fn changes<A>()
    ensures { ChangeLaws A }
{}

/// A change of a family writes its own words alone.
pub fn frame()
    ensures { FrameLaws }
{}

/// The same changes where each chain has the last entry first.
pub fn last_first<A>()
    ensures { LastFirstLaws A }
{}

/// What comes next to a slot is one load.
pub fn next_slots<A>()
    ensures { NeighbourLaws A }
{}

/// Where walks end.
pub fn walks<A>()
    ensures { WalkLaws A }
{}

/// What a lookup along a chain finds.
pub fn lookups<A>()
    ensures { FindLaws A }
{}

/// The chain of all.
pub fn whole_chain<A>()
    ensures { AllLaws A }
{}

/// Where a record stands in a list that is sorted.
pub fn parting<A>()
    ensures { ListLaws A }
{}

/// What stands in the slots of a list of entries.
pub fn standing<A>()
    ensures { HoldsLaws A }
{}
