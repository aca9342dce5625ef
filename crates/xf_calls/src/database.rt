//! The machine over words and values, and its steps.
ghost use Rattle.std.specs.Prelude.{◌≡◌, ◌≤◌, IfOk};

mod policies;
mod states;
mod stepping;
mod time;
mod traffic;

use crate::desk::Desk;
use crate::guesses::Guesses;
use std::alloc::Global;
use std::marker::Model;
use xf_cells::{Cells, FreePool, Load, Pool};
use xf_parts::{Memory, Parts};
use xf_rows::Layout;
use xf_types::NoMemory;

/// The two databases in words and values in memory. A contract sees it as the machine.
#[derive(Drop)]
pub struct Database {
    /// Where the words lie.
    layout: Layout,
    desk: Desk,
    /// The slots that no policy has.
    policy_pool: FreePool,
    /// The slots that no state has.
    state_pool: FreePool,
    guesses: Guesses,
    /// Where calls take memory, for windows and for what they list.
    alloc: Global,
}

impl Model for Database {
    ghost use Rattle.xf_types.specs.Machine.{Machine};
    ghost use Rattle.xf_rows.specs.Readings.{machine_in};
    ghost use Rattle.xf_calls.specs.Whole.{IsWhole};

    ghost Value = { Machine };

    ghost view = { λ d. machine_in d.layout (⟦<Desk as Cells>⟧.words d.desk) (⟦<Desk as Parts>⟧.beside d.desk).values };

    ghost invariant = { λ d. IsWhole d.layout (⟦<Desk as Cells>⟧.words d.desk) (⟦<Desk as Parts>⟧.beside d.desk)
        (⟦<FreePool as Pool>⟧.capacity d.policy_pool) (⟦<FreePool as Pool>⟧.taken d.policy_pool)
        (⟦<FreePool as Pool>⟧.gives d.policy_pool) (⟦<FreePool as Pool>⟧.takes d.policy_pool)
        (⟦<FreePool as Pool>⟧.capacity d.state_pool) (⟦<FreePool as Pool>⟧.taken d.state_pool)
        (⟦<FreePool as Pool>⟧.gives d.state_pool) (⟦<FreePool as Pool>⟧.takes d.state_pool) };
}

impl Database {
    ghost use Rattle.xf_types.specs.Steps.{empty};

    /// The empty machine with the usual capacities: 4,096 policies and 8,192 states.
    pub fn new(alloc: Global) -> Result<Database, NoMemory>
        ensures { IfOk result (λ database. database ≡ empty 4096 8192) }
    {
        Database::sized(alloc, 4096, 8192)
    }

    /// The empty machine with these capacities. The words of the policies come first, behind them those of the states, and
    /// last that of the time.
    pub fn sized(alloc: Global, policies: u32, states: u32) -> Result<Database, NoMemory>
        requires some_policies { 1 ≤ policies }
        requires few_policies { policies ≤ 4096 }
        requires some_states { 1 ≤ states }
        requires few_states { states ≤ 8192 }
        ensures { IfOk result (λ database. database ≡ empty policies states) }
    {
        let layout = Layout::new(0, policies, states);
        let Ok(memory) = Memory::new(alloc, &layout) else {
            return Err(NoMemory);
        };
        let Ok(policy_pool) = FreePool::new(alloc, policies) else {
            return Err(NoMemory);
        };
        let Ok(state_pool) = FreePool::new(alloc, states) else {
            return Err(NoMemory);
        };
        Ok(Database {
            layout,
            desk: Desk { memory },
            policy_pool,
            state_pool,
            guesses: Guesses::none(),
            alloc,
        })
    }
}
