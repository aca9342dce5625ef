//! The window that a new state begins with.
ghost use Rattle.std.specs.Prelude.{◌≡◌, IfOk};
ghost use Rattle.xf_statecalls.specs.Windows.{IsWindowOf};

use std::alloc::Global;
use xf_replay::{NoMemory, Window};
use xf_types::SaSpec;

/// The window of a state in use. It takes no memory where the request's window is 0.
pub fn window_for(alloc: Global, spec: &SaSpec) -> Result<Window, NoMemory>
    ensures { IfOk result (λ window. IsWindowOf window spec.now) }
{
    Window::new(alloc, spec.window, spec.in_seq)
}

/// The window of a larval state of which nothing but its SPI is known.
pub(crate) fn larval_window(alloc: Global, spec: &SaSpec) -> Window
    requires window { spec.now.window ≡ 0 }
    requires start { spec.now.in_seq ≡ 0 }
    ensures { IsWindowOf result spec.now }
{
    match Window::new(alloc, spec.window, spec.in_seq) {
        Ok(window) => window,
        Err(_) => unreachable!(),
    }
}
