//! States that wait for the one that is negotiated.
ghost use Rattle.std.specs.Prelude.{◌≡◌, IfOk};
ghost use Rattle.xf_held.specs.View.{new_larval};

use crate::held::Held;
use std::alloc::Global;
use xf_types::{NoMemory, SaSpec};

impl Held {
    /// A new larval state, which no flow goes through.
    pub fn new_larval(alloc: Global, sid: u64, added: u64, spec: &SaSpec) -> Result<Held, NoMemory>
        ensures { IfOk result (λ h. h ≡ new_larval sid added spec.now) }
    {
        let mut held = Held::new(alloc, sid, added, spec)?;
        held.state.larval = true;
        Ok(held)
    }
}
