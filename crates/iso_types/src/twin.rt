ghost use Rattle.std.specs.Prelude.{◌≡◌, IfOk};

use crate::items::Memory;
use std::alloc::Global;

/// A value of which an equal one can be made, in memory of its own.
pub trait Twin: Sized + Drop {
    /// A value equal to this one; `Memory` where there is none.
    fn twin(&self, alloc: Global) -> Result<Self, Memory>
        ensures { IfOk result (λ twin. twin ≡ self.now) };
}
