//! A database is opened.
ghost use Rattle.std.specs.Prelude.{◌≡◌, ◌≤◌, IfOk, IfErr};
ghost use Rattle.xf_opening.specs.Images.{IsYoung};
ghost use Rattle.xf_db.specs.Passes.{IsOpened};

use crate::database::Xfrm;
use crate::pass::Pass;
use crate::rows::dress;
use std::alloc::Global;
use xf_live::{Live, NotMade};
use xf_opening::Image;

/// What is handed back where memory ran out.
#[derive(Drop)]
pub struct Returned {
    pub image: Image,
}

impl Xfrm {
    /// Opens a database over the image, with so many passes: the one at place k has the number k.
    pub fn open(alloc: Global, image: Image, seats: u32) -> Result<(Xfrm, Vec<Pass>), Returned>
        requires young { IsYoung image }
        requires some { 1 ≤ seats }
        requires few { seats ≤ 16 }
        ensures opened { IfOk result (λ p. IsOpened image seats p.0 p.1.items) }
        ensures back { IfErr result (λ r. r.image ≡ image) }
    {
        let Ok(room) = Vec::with_capacity(alloc, seats as usize) else {
            return Err(Returned { image });
        };
        let (sizes, words, values) = image.into_parts();
        match Live::new(alloc, seats, words, values, sizes.policies) {
            Ok((live, passes)) => {
                let (passes, room) = dress(passes, room);
                Ok((Xfrm { live, sizes, room }, passes))
            }
            Err(NotMade { words, values }) => Err(Returned {
                image: Image::from_parts(sizes, words, values),
            }),
        }
    }
}
