//! Laws of the other parts when seats are split off and taken in, whatever image words mean.
ghost use Rattle.xf_seats.specs.FirstSeat.{OneSeatImage, OneSeatOwn};
ghost use Rattle.xf_seats.specs.Joins.{JoinKeepsImage, JoinKeepsOwn, JoinKeepsPins, JoinKeepsAgain, JoinKeepsStale};
ghost use Rattle.xf_seats.specs.Splits.{SplitKeepsImage, SplitKeepsOwn, SplitKeepsPins, SplitKeepsAgain, SplitKeepsStale};

use xf_ownpart::Lists;
use xf_stale::Shows;

/// For one seat the image part holds, with the image words that are there at the beginning.
pub fn one_seat_image<T: Lists>()
    ensures { OneSeatImage T.bucket_of T.good }
{}

/// For one seat the own part holds, where each value stands for what its slot lists.
pub fn one_seat_own<T: Lists>()
    ensures { OneSeatOwn T.lists }
{}

/// A seat that splits off another one keeps the image part.
pub fn split_keeps_image<T: Lists>()
    ensures { SplitKeepsImage T.bucket_of T.good }
{}

/// It keeps the own part.
pub fn split_keeps_own<T: Lists>()
    ensures { SplitKeepsOwn T.lists }
{}

/// A seat that takes in another one keeps the image part.
pub fn join_keeps_image<T: Lists>()
    ensures { JoinKeepsImage T.bucket_of T.good }
{}

/// It keeps the own part.
pub fn join_keeps_own<T: Lists>()
    ensures { JoinKeepsOwn T.lists }
{}

/// A seat that splits off another one, whose pin word is 0, keeps the part on pins.
pub fn split_keeps_pins<T: Shows>()
    ensures { SplitKeepsPins T.id_place }
{}

/// A seat that takes in another one keeps it.
pub fn join_keeps_pins<T: Shows>()
    ensures { JoinKeepsPins T.id_place }
{}

/// A seat that splits off another one keeps the part on overtaken reads.
pub fn split_keeps_again()
    ensures { SplitKeepsAgain }
{}

/// A seat that takes in another one keeps it.
pub fn join_keeps_again()
    ensures { JoinKeepsAgain }
{}

/// A seat that splits off another one keeps the part on held states.
pub fn split_keeps_stale<T: Shows>()
    ensures { SplitKeepsStale T.lists T.id_place }
{}

/// A seat that takes in another one keeps it.
pub fn join_keeps_stale<T: Shows>()
    ensures { JoinKeepsStale T.lists T.id_place }
{}
