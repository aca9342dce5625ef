//! Laws of the image part: what it says, and that each step keeps it, whatever image words mean.
ghost use Rattle.xf_invariant.specs.ImageLaws.{TicketKeepsImage, ServingKeepsImage, BeginKeepsImage, StoreKeepsImage, DrawKeepsImage, FinishKeepsImage, LeaveKeepsImage, LoadGenerationKeepsImage, LoadWordKeepsImage, PinKeepsImage, UnpinKeepsImage, LoadPinKeepsImage, TakeTurnKeepsImage, GiveTurnKeepsImage};
ghost use Rattle.xf_invariant.specs.Begins.{ImageBegins};
ghost use Rattle.xf_invariant.specs.ImageSays.{ImageSays};

use crate::Means;

/// At the beginning the image part holds.
pub fn image_begins<T: Means>()
    ensures { ImageBegins T.bucket_of T.good }
{}

/// What the image part says of a seat, and of a read that ends the same.
pub fn image_says<T: Means>()
    ensures { ImageSays T.bucket_of T.good }
{}

/// A ticket that is drawn keeps the image part.
pub fn ticket_keeps_image<T: Means>()
    ensures { TicketKeepsImage T.bucket_of T.good }
{}

/// A load of the ticket that is served keeps it: a seat that gets the turn knows the image.
pub fn serving_keeps_image<T: Means>()
    ensures { ServingKeepsImage T.bucket_of T.good }
{}

/// An opening that begins keeps it: the image as it is then stays the settled one.
pub fn begin_keeps_image<T: Means>()
    ensures { BeginKeepsImage T.bucket_of T.good }
{}

/// A store keeps it: the settled image stays.
pub fn store_keeps_image<T: Means>()
    ensures { StoreKeepsImage T.bucket_of T.good }
{}

/// A draw keeps it, each of its ways: by a move, the image is the settled one.
pub fn draw_keeps_image<T: Means>()
    ensures { DrawKeepsImage T.bucket_of T.good }
{}

/// An opening that ends keeps it: the image is settled.
pub fn finish_keeps_image<T: Means>()
    ensures { FinishKeepsImage T.bucket_of T.good }
{}

/// A turn that is given back keeps it.
pub fn leave_keeps_image<T: Means>()
    ensures { LeaveKeepsImage T.bucket_of T.good }
{}

/// A load of the generation keeps it, also where the receipt of a trial comes to stand.
pub fn load_generation_keeps_image<T: Means>()
    ensures { LoadGenerationKeepsImage T.bucket_of T.good }
{}

/// A load of an image word keeps it.
pub fn load_word_keeps_image<T: Means>()
    ensures { LoadWordKeepsImage T.bucket_of T.good }
{}

/// A pin that is set keeps it.
pub fn pin_keeps_image<T: Means>()
    ensures { PinKeepsImage T.bucket_of T.good }
{}

/// A pin that is cleared keeps it.
pub fn unpin_keeps_image<T: Means>()
    ensures { UnpinKeepsImage T.bucket_of T.good }
{}

/// A load of a pin word keeps it.
pub fn load_pin_keeps_image<T: Means>()
    ensures { LoadPinKeepsImage T.bucket_of T.good }
{}

/// A slot's turn that is asked for keeps it, taken or not.
pub fn take_turn_keeps_image<T: Means>()
    ensures { TakeTurnKeepsImage T.bucket_of T.good }
{}

/// A slot's turn that is given back keeps it.
pub fn give_turn_keeps_image<T: Means>()
    ensures { GiveTurnKeepsImage T.bucket_of T.good }
{}
