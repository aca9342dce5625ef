//! States in words and slots of their own.
ghost use Rattle.std.specs.Prelude.{◌≡◌, ◌≤◌};

use std::alloc::Global;
use std::marker::Model;
use xf_cells::{FreePool, Load, NoMemory, Pool, VecCells};
use xf_sad::{Sad, SadFault};
use xf_types::{SaId, SaSpec};

/// A state database in memory, whose states carry nothing.
#[derive(Drop)]
pub struct Listed {
    sad: Sad,
    cells: VecCells,
    pool: FreePool,
}

impl Model for Listed {
    ghost use Rattle.std.specs.Prelude.{ℕ};
    ghost use Rattle.xf_compare.specs.Rooms.{HasRoom};

    ghost Value = { ℕ };

    ghost view = { λ l. ⟦<FreePool as Pool>⟧.taken l.pool };

    ghost invariant = { λ l. HasRoom l.sad.area (⟦<VecCells as Load>⟧.size l.cells) (⟦<FreePool as Pool>⟧.capacity l.pool) };
}

impl Listed {
    /// Room for so many states, of which there is none.
    pub fn new(alloc: Global, states: u32) -> Result<Listed, NoMemory>
        requires some { 1 ≤ states }
        requires most { states ≤ 8192 }
    {
        let sad = Sad::new(0, states);
        let cells = VecCells::new(alloc, sad.words())?;
        let pool = FreePool::new(alloc, states)?;
        Ok(Listed { sad, cells, pool })
    }

    /// Lists a state at time 0, and answers its slot.
    pub fn add(&mut self, spec: &SaSpec) -> Result<u32, SadFault>
        requires { spec.now.seq ≡ 0 }
    {
        self.sad.add(&mut self.cells, &mut self.pool, spec, 0)
    }

    /// The state id of the last state that an id names.
    pub fn find(&mut self, id: &SaId) -> Option<u64> {
        let slot = self.sad.find(&mut self.cells, id).ok()?;
        if slot < self.sad.area.slots {
            let state = self.sad.state(&mut self.cells, slot)?;
            Some(state.sid)
        } else {
            None
        }
    }

    /// How many heads the chains of each hash have, and how many old ones aren't split yet.
    pub fn heads(&mut self) -> (u32, u32) {
        let buckets = self.sad.buckets(&mut self.cells);
        (buckets, self.sad.pending(&mut self.cells))
    }
}
