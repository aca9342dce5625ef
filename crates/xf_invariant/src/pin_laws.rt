//! Laws of the pin part: what it says, and that each step keeps it, whatever image words mean.
ghost use Rattle.xf_invariant.specs.Begins.{PinsBegin};
ghost use Rattle.xf_invariant.specs.PinLaws.{TicketKeepsPins, ServingKeepsPins, BeginKeepsPins, StoreKeepsPins, DrawKeepsPins, FinishKeepsPins, LeaveKeepsPins, LoadGenerationKeepsPins, LoadWordKeepsPins, PinKeepsPins, UnpinKeepsPins, LoadPinKeepsPins, TakeTurnKeepsPins, GiveTurnKeepsPins, PinsSay};

use crate::Means;

/// At the beginning the pin part holds, where no slot is retired.
pub fn pins_begin<T: Means>()
    ensures { PinsBegin T.id_place }
{}

/// What is held isn't listed anew, and what is clear isn't held.
pub fn pins_say<T: Means>()
    ensures { PinsSay T.bucket_of T.good T.id_place }
{}

/// A ticket that is drawn keeps the pin part.
pub fn ticket_keeps_pins<T: Means>()
    ensures { TicketKeepsPins T.bucket_of T.good T.id_place }
{}

/// A load of the ticket that is served keeps it: in a turn that begins no pin word was loaded yet.
pub fn serving_keeps_pins<T: Means>()
    ensures { ServingKeepsPins T.bucket_of T.good T.id_place }
{}

/// An opening that begins keeps it.
pub fn begin_keeps_pins<T: Means>()
    ensures { BeginKeepsPins T.bucket_of T.good T.id_place }
{}

/// A store keeps it: of a status by its rule, and of another word.
pub fn store_keeps_pins<T: Means>()
    ensures { StoreKeepsPins T.bucket_of T.good T.id_place }
{}

/// A draw keeps it, each of its ways.
pub fn draw_keeps_pins<T: Means>()
    ensures { DrawKeepsPins T.bucket_of T.good T.id_place }
{}

/// An opening that ends keeps it.
pub fn finish_keeps_pins<T: Means>()
    ensures { FinishKeepsPins T.bucket_of T.good T.id_place }
{}

/// A turn that is given back keeps it.
pub fn leave_keeps_pins<T: Means>()
    ensures { LeaveKeepsPins T.bucket_of T.good T.id_place }
{}

/// A load of the generation keeps it: what a read that ends the same showed is held.
pub fn load_generation_keeps_pins<T: Means>()
    ensures { LoadGenerationKeepsPins T.bucket_of T.good T.id_place }
{}

/// A load of an image word keeps it.
pub fn load_word_keeps_pins<T: Means>()
    ensures { LoadWordKeepsPins T.bucket_of T.good T.id_place }
{}

/// A pin that is set keeps it, with nothing held.
pub fn pin_keeps_pins<T: Means>()
    ensures { PinKeepsPins T.bucket_of T.good T.id_place }
{}

/// A pin that is cleared keeps it, with nothing held.
pub fn unpin_keeps_pins<T: Means>()
    ensures { UnpinKeepsPins T.bucket_of T.good T.id_place }
{}

/// A load of a pin word keeps it.
pub fn load_pin_keeps_pins<T: Means>()
    ensures { LoadPinKeepsPins T.bucket_of T.good T.id_place }
{}

/// A slot's turn that is asked for keeps it, taken or not.
pub fn take_turn_keeps_pins<T: Means>()
    ensures { TakeTurnKeepsPins T.bucket_of T.good T.id_place }
{}

/// A slot's turn that is given back keeps it.
pub fn give_turn_keeps_pins<T: Means>()
    ensures { GiveTurnKeepsPins T.bucket_of T.good T.id_place }
{}
