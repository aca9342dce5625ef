//! Laws of the machine.
ghost use Rattle.xf_laws.specs.AcceptLaws.{AcceptLaws};
ghost use Rattle.xf_laws.specs.ChangeLaws.{ChangeLaws};
ghost use Rattle.xf_laws.specs.FirstPolicyLaws.{FirstPolicyLaws};
ghost use Rattle.xf_laws.specs.FreeLaws.{FreeLaws};
ghost use Rattle.xf_laws.specs.IdLaws.{IdLaws};
ghost use Rattle.xf_laws.specs.LaterLaws.{LaterLaws};
ghost use Rattle.xf_laws.specs.LeaveLaws.{LeaveLaws};
ghost use Rattle.xf_laws.specs.LookupLaws.{LookupLaws};
ghost use Rattle.xf_laws.specs.MachineLaws.{MachineLaws};
ghost use Rattle.xf_laws.specs.MoveLaws.{MoveLaws};
ghost use Rattle.xf_laws.specs.NewLaws.{NewLaws};
ghost use Rattle.xf_laws.specs.OwnLaws.{OwnLaws};
ghost use Rattle.xf_laws.specs.ReadLaws.{ReadLaws};
ghost use Rattle.xf_laws.specs.RemovalLaws.{RemovalLaws};
ghost use Rattle.xf_laws.specs.SpentLaws.{SpentLaws};
ghost use Rattle.xf_laws.specs.StepLaws.{OneStateLaws, ShownLaws, StepLaws};
ghost use Rattle.xf_laws.specs.TestLaws.{EqualityLaws, TestLaws};
ghost use Rattle.xf_laws.specs.TrafficLaws.{TrafficLaws};
ghost use Rattle.xf_laws.specs.UpdateLaws.{UpdateLaws};

/// A rule of one state reads the shown part and one own part, and where it doesn't end the state it changes no other own part.
pub fn one_state()
    ensures { OneStateLaws }
{}

/// A call reads what is shown, the own part of the state that it is for, and where time passes the first uses alone.
pub fn reads()
    ensures { ReadLaws }
{}

/// A call whose reply doesn't move leaves all but the own part of the state that it is for; one that moves leaves the own part of
/// each other state that stays.
pub fn leaves()
    ensures { LeaveLaws }
{}

/// A packet or an output reads one record, its own part and the time.
pub fn traffic()
    ensures { TrafficLaws }
{}

/// A reply that doesn't move removes no record.
pub fn removals()
    ensures { RemovalLaws }
{}

/// What a call lists anew has the next number, is as a new record begins, and has its own part.
pub fn listed_anew()
    ensures { NewLaws }
{}

/// A state id or a policy's number that was given and isn't listed is never listed again.
pub fn spent_numbers()
    ensures { SpentLaws }
{}

/// An answer by the shown part asks no own part.
pub fn shown_answers()
    ensures { ShownLaws }
{}

/// A refused call changes nothing, a reply that doesn't move leaves what is shown, and the moves say what the others do.
pub fn steps()
    ensures { StepLaws }
{}

/// Own parts follow their states.
pub fn own_parts()
    ensures { OwnLaws }
{}

/// A number that is given is free.
pub fn free_numbers()
    ensures { FreeLaws }
{}

/// An update takes one policy away and no other, and a given index or a fresh one is no other's.
pub fn updates()
    ensures { UpdateLaws }
{}

/// What holds of every machine holds of the empty one, with capacities in their bounds, and each step keeps it.
pub fn machines()
    ensures { MachineLaws }
{}

/// The first policy of a flow applies, and none before it does.
pub fn first_policies()
    ensures { FirstPolicyLaws }
{}

/// The tests of equality are true exactly where the two values are equal.
pub fn equalities()
    ensures { EqualityLaws }
{}

/// The other tests are true exactly where their facts hold.
pub fn tests()
    ensures { TestLaws }
{}

/// Capacities stay, time never goes back, and a step uses at most one of the numbers that are given.
pub fn later()
    ensures { LaterLaws }
{}

/// The moves say what is shown after each call and after each legal history.
pub fn moves()
    ensures { MoveLaws }
{}

/// A move leaves the time, the policies and each state's record where it isn't counted as a change of them.
pub fn changes()
    ensures { ChangeLaws }
{}

/// Equal change ids at two moments of a legal history mean that nothing that they count was changed between them.
pub fn change_ids()
    ensures { IdLaws }
{}

/// The latest match and the best state of a list are those that their names say.
pub fn lookups()
    ensures { LookupLaws }
{}

/// No state with a replay window accepts a number twice.
pub fn acceptances()
    ensures { AcceptLaws }
{}
