//! A database is closed.
ghost use Rattle.std.specs.Prelude.{◌≡◌, ◌≤◌, [], vec_capacity, IfOk, IfErr};
ghost use Rattle.xf_db.specs.Closing.{AreAll, Closes, total};

use crate::database::Xfrm;
use crate::pass::Pass;
use crate::rows::{count_receipts, undress};
use std::alloc::Global;
use xf_opening::Image;
use xf_types::Receipt;

/// One history of all that the passes recorded, and the image behind it.
#[derive(Drop)]
pub struct Closed {
    pub history: Vec<Receipt>,
    pub image: Image,
}

/// What is handed back where memory ran out.
pub struct NotClosed {
    pub db: Xfrm,
    pub passes: Vec<Pass>,
}

impl Xfrm {
    /// Closes the database, in a room for all receipts. All of its passes are given, the one with number k at place k. Takes no memory.
    pub fn close_with(self, passes: Vec<Pass>, room: Vec<Receipt>) -> Closed
        requires all { AreAll self passes.items }
        requires empty { room.items ≡ [] }
        requires fits { total passes.items ≤ vec_capacity room }
        ensures { Closes self.start passes.items result.history.items result.image }
    {
        let Xfrm {
            live,
            sizes,
            room: seats,
        } = self;
        let seats = undress(passes, seats);
        let closed = live.close(seats);
        let history = xf_hist::merge(closed.receipts, room);
        Closed {
            history,
            image: Image::after(sizes, closed.words, closed.values),
        }
    }

    /// Closes the database, and hands all back where there is no memory for its history.
    pub fn close(self, alloc: Global, passes: Vec<Pass>) -> Result<Closed, NotClosed>
        requires all { AreAll self passes.items }
        ensures closed { IfOk result (λ c. Closes self.start passes.items c.history.items c.image) }
        ensures back { IfErr result (λ b. (b.db ≡ self) × (b.passes.items ≡ passes.items)) }
    {
        let Some(count) = count_receipts(passes.as_slice()) else {
            return Err(NotClosed { db: self, passes });
        };
        let Ok(room) = Vec::with_capacity(alloc, count) else {
            return Err(NotClosed { db: self, passes });
        };
        Ok(self.close_with(passes, room))
    }
}
