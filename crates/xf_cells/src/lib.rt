//! Words at places, which can be loaded, or stored as well; slots that are taken and given back; and a hash of words.
#![tactic(auto)]

mod cells;
mod free_pool;
mod hashing;
mod one_pool;
mod pool;
mod vec_cells;

pub use cells::{Cells, Load, read};
pub use free_pool::FreePool;
pub use hashing::hash;
pub use one_pool::OnePool;
pub use pool::Pool;
pub use vec_cells::{NoMemory, VecCells};

#[cfg(test)]
mod tests;
