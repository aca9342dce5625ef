//! Words and values in memory, on one thread.
ghost use Rattle.std.specs.Prelude.{◌≡◌, ℕ, ◌+◌, ◌≤◌, Bool, true, false, List, length, IfOk};
ghost use Rattle.std.proofs.Common.{ap, refl};
ghost use Rattle.xf_types.specs.Steps.{empty};
ghost use Rattle.xf_local.specs.View.{LocalView};
ghost use Rattle.xf_rows.specs.Layouts.{Fits};
ghost use Rattle.xf_rows.specs.Stands.{Stands};
ghost use Rattle.xf_rows.specs.Values.{Beside};
ghost use Rattle.xf_parts.specs.Held.{all_held, all_dead};

use crate::parts::Parts;
use std::alloc::Global;
use std::mem;
use xf_cells::{Cells, Load, NoMemory, VecCells};
use xf_local::{Inbound, Local, Outbound};
use xf_rows::Layout;
use xf_types::{Event, Packet};

/// Words in memory, and a value for each slot of the states. All turns are held, and storing is always allowed.
#[derive(Drop)]
pub struct Memory {
    cells: VecCells,
    values: Vec<Local>,
}

impl Load for Memory {
    ghost size = { λ d. ⟦<VecCells as Load>⟧.size d.cells };

    ghost loads = { λ d. ⟦<VecCells as Load>⟧.loads d.cells };

    ghost begun = { λ d. ⟦<VecCells as Load>⟧.begun d.cells };

    ghost Rest = { List LocalView };

    ghost rest = { λ d. d.values.items };

    ghost agrees = { λ d image. ⟦<VecCells as Load>⟧.agrees d.cells image };

    fn size(&self) -> u32 {
        self.cells.size()
    }

    fn load(&mut self, place: u32) -> u64 {
        self.cells.load(place)
    }
}

impl Cells for Memory {
    ghost words = { λ d. ⟦<VecCells as Cells>⟧.words d.cells };

    fn begin(&mut self) {
        self.cells.begin()
    }

    fn store(&mut self, place: u32, value: u64) {
        self.cells.store(place, value)
    }

    ghost own = { λ d. refl };

    ghost only = { λ d image is. is };

    ghost all = { λ d. refl };
}

impl Parts for Memory {
    ghost beside = { λ d. all_held d.values.items };

    ghost hidden = { λ d. 0 };

    fn holds(&self, _slot: u32) -> bool {
        true
    }

    fn enter(&mut self, _slot: u32) {}

    fn take(&mut self, slot: u32) -> Local {
        mem::replace(&mut self.values[slot as usize], Local::dead())
    }

    fn put(&mut self, slot: u32, value: Local) {
        self.values[slot as usize] = value;
    }

    fn receive(&mut self, slot: u32, packet: &Packet) -> Inbound {
        self.values[slot as usize].inbound_settled(packet)
    }

    fn send(&mut self, slot: u32, len: u32) -> Outbound {
        self.values[slot as usize].outbound_settled(len)
    }

    fn event(&mut self, slot: u32, now: u64) -> Option<Event> {
        self.values[slot as usize].event(now)
    }

    fn age(&mut self, slot: u32, now: u64) {
        self.values[slot as usize].age(now);
    }

    fn state_freed(&mut self, _slot: u32) {}

    ghost kept = { λ x y e. ap all_held e };

    ghost kept_hidden = { λ x y e. refl };
}

/// So many dead values.
#[tactic(auto, using(crate::proofs::DeadLemmas::one_more))]
fn dead_values(alloc: Global, count: u32) -> Result<Vec<Local>, NoMemory>
    ensures { IfOk result (λ values. values.items ≡ all_dead count) }
{
    let Ok(mut values) = Vec::with_capacity(alloc, count as usize) else {
        return Err(NoMemory);
    };
    'slots: for _slot in 0..count {
        if values.push(Local::dead()).is_err() {
            return Err(NoMemory);
        }
    }
    Ok(values)
}

impl Memory {
    /// Words that are 0 and values that are dead. They stand for the empty machine.
    pub fn new(alloc: Global, layout: &Layout) -> Result<Memory, NoMemory>
        requires { Fits layout.now (layout.now.clock + 1) }
        ensures size { IfOk result (λ memory. ⟦<Memory as Load>⟧.size memory ≡ layout.now.clock + 1) }
        ensures held { IfOk result (λ memory. (slot : ℕ) → (⟦<Memory as Parts>⟧.beside memory).held slot ≡ true) }
        ensures stands { IfOk result (λ memory. Stands layout.now (⟦<Memory as Cells>⟧.words memory) (⟦<Memory as Parts>⟧.beside memory) (empty layout.now.policies.slots layout.now.states.slots)) }
    {
        let cells = VecCells::new(alloc, layout.clock + 1)?;
        let values = dead_values(alloc, layout.states.slots)?;
        Ok(Memory { cells, values })
    }
}
