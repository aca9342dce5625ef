//! Words in memory, on one thread.
ghost use Rattle.std.specs.Prelude.{◌≡◌, ℕ, ◌<◌, ◌^◌, ⊤, Bool, true, List, length, vec_len, refl, IfOk};
ghost use Rattle.xf_cells.specs.Words.{next_count, zeros};

use crate::cells::{Cells, Load};
use std::alloc::Global;

/// Memory ran out.
#[derive(Clone, Copy, Debug, PartialEq, Eq)]
pub struct NoMemory;

/// Words in memory. Storing is always allowed.
#[derive(Drop)]
pub struct VecCells {
    items: Vec<u64>,
    count: u64,
    ghost fits: { vec_len items < 2 ^ 32 },
}

impl Load for VecCells {
    ghost size = { λ c. length c.items.items };

    ghost loads = { λ c. c.count };

    ghost begun = { λ c. true };

    ghost Rest = { ⊤ };

    ghost rest = { λ c. tt };

    ghost agrees = { λ c image. image ≡ c.items.items };

    fn size(&self) -> u32 {
        self.items.len() as u32
    }

    fn load(&mut self, place: u32) -> u64 {
        self.count = self.count.saturating_add(1);
        self.items[place as usize]
    }
}

impl Cells for VecCells {
    ghost words = { λ c. c.items.items };

    fn begin(&mut self) {}

    fn store(&mut self, place: u32, value: u64) {
        self.items[place as usize] = value;
    }

    ghost own = { λ c. refl };

    ghost only = { λ c image is. is };

    ghost all = { λ c. refl };
}

impl VecCells {
    /// As many words, each 0.
    pub fn new(alloc: Global, size: u32) -> Result<VecCells, NoMemory>
        ensures words { IfOk result (λ c. ⟦<VecCells as Cells>⟧.words c ≡ zeros size) }
        ensures loads { IfOk result (λ c. ⟦<VecCells as Load>⟧.loads c ≡ 0) }
    {
        match vec![in alloc; 0; size as usize] {
            Ok(items) => Ok(VecCells { items, count: 0 }),
            Err(_) => Err(NoMemory),
        }
    }

    /// How often a word was loaded. The count stops at the end of its type.
    pub fn loads(&self) -> u64
        ensures { result ≡ ⟦<VecCells as Load>⟧.loads self.now }
    {
        self.count
    }
}
