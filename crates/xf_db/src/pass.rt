//! The passes by which threads call a database.
ghost use Rattle.std.specs.Prelude.{◌≡◌, ◌-◌, ◌^◌, min};
ghost use Rattle.xf_db.specs.Passes.{pass_over};

use std::marker::Model;
use xf_types::Receipt;
use xf_values::StateValue;

/// One caller's token. Between its calls it has no turn.
#[derive(Drop)]
pub struct Pass {
    // That of the table. A call has it for a while.
    pub(crate) seat: Option<xf_live::Pass<StateValue>>,
}

impl Model for Pass {
    ghost use Rattle.std.specs.Prelude.{IsSome};
    ghost use Rattle.xf_db.specs.Passes.{IsResting, PassView, pass_over, seat_of};

    ghost Value = { PassView };

    ghost view = { λ p. pass_over (seat_of p.seat) };

    ghost invariant = { λ p. IsSome p.seat × IsResting (seat_of p.seat) };
}

impl Pass {
    /// The pass of the table.
    fn seat(&self) -> &xf_live::Pass<StateValue>
        ensures { pass_over result.now ≡ self.now }
    {
        match &self.seat {
            Some(seat) => seat,
            None => unreachable!(),
        }
    }

    /// The number of the pass, which its receipts have.
    pub fn number(&self) -> u32
        ensures { result ≡ self.now.number }
    {
        self.seat().number()
    }

    /// For how many receipts there is room, as far as a `u32` goes.
    pub fn spare(&self) -> u32
        ensures { result ≡ min self.now.spare (2 ^ 32 - 1) }
    {
        self.seat().spare()
    }

    /// How often the pass drew a number or a ticket.
    pub fn drawn(&self) -> u64
        ensures { result ≡ self.now.drawn }
    {
        self.seat().drawn()
    }

    /// How many words the pass loaded so far.
    pub fn loads(&self) -> u64 {
        self.seat().loads()
    }

    /// What the pass recorded, in order.
    pub fn receipts(&self) -> &[Receipt]
        ensures { result.now ≡ self.now.receipts }
    {
        self.seat().receipts()
    }
}
