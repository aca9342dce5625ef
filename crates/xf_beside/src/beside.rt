//! The database in words of its own, driven by calls at time 0.
ghost use Rattle.std.specs.Prelude.{◌≡◌, ◌≤◌};

use crate::answering::answer;
use crate::sparing::spare;
use std::alloc::Global;
use std::marker::Model;
use xf_cells::{Cells, FreePool, Load, NoMemory, Pool, VecCells};
use xf_spd::Spd;
use xf_types::{Call, Reply};

/// Words in memory that stand for the policies of a machine, and the slots that are free.
#[derive(Drop)]
pub struct Beside {
    spd: Spd,
    cells: VecCells,
    pool: FreePool,
}

impl Model for Beside {
    ghost use Rattle.std.specs.Prelude.{ℕ, List};
    ghost use Rattle.xf_beside.specs.Standing.{IsBeside};

    ghost Value = { List ℕ };

    ghost view = { λ b. ⟦<VecCells as Cells>⟧.words b.cells };

    ghost invariant = { λ b. IsBeside b.spd.area (⟦<VecCells as Load>⟧.size b.cells) (⟦<VecCells as Cells>⟧.words b.cells) (⟦<FreePool as Pool>⟧.capacity b.pool) (⟦<FreePool as Pool>⟧.taken b.pool) (⟦<FreePool as Pool>⟧.gives b.pool) (⟦<FreePool as Pool>⟧.takes b.pool) };
}

impl Beside {
    /// Room for so many policies, of which there is none.
    pub fn new(alloc: Global, policies: u32) -> Result<Beside, NoMemory>
        requires some { 1 ≤ policies }
        requires most { policies ≤ 4096 }
    {
        let spd = Spd::new(0, policies);
        let cells = VecCells::new(alloc, spd.words())?;
        let pool = FreePool::new(alloc, policies)?;
        Ok(Beside { spd, cells, pool })
    }

    /// Answers a call. None where it is none of those that `answer` answers.
    pub fn answer(&mut self, alloc: Global, call: &Call) -> Option<Reply> {
        answer(alloc, &self.spd, &mut self.cells, &mut self.pool, call, 0)
    }

    /// How many nodes of the trees are free.
    pub fn spare(&mut self) -> u32 {
        spare(&self.spd, &mut self.cells)
    }

    /// How many words were loaded so far.
    pub fn loads(&self) -> u64 {
        self.cells.loads()
    }
}
