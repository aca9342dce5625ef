//! The value of a slot.
use xf_local::Local;
use xf_seats::Meaning;
use xf_types::Stands;

/// The value of a slot: that of a state, or a dead one where no state is listed. A policy's slot has a dead one for good.
#[derive(Debug, Drop)]
pub struct StateValue {
    pub local: Local,
}

impl Stands for StateValue {
    ghost use Rattle.xf_local.specs.View.{standing_of};

    ghost standing = { λ v. standing_of v.local };
}

impl Meaning for StateValue {
    ghost use Rattle.xf_meaning.specs.Places.{id_place};
    ghost use Rattle.xf_meaning.specs.Marks.{bucket_of};
    ghost use Rattle.xf_meaning.specs.Good.{Good};
    ghost use Rattle.xf_meaning.specs.Tells.{lists, index_at};
    ghost use Rattle.xf_meaning.specs.Machines.{machine};
    ghost use Rattle.xf_meaning.proofs.Listing.{listing, pools, shows};
    ghost use Rattle.xf_meaning.proofs.GoodWords.{certain};

    ghost bucket_of = { bucket_of };

    ghost good = { Good };

    ghost lists = { lists };

    ghost index_at = { index_at };

    ghost id_place = { id_place };

    ghost machine = { machine };

    ghost listing = { listing };

    ghost pools = { pools };

    ghost shows = { shows };

    ghost certain = { certain };
}
