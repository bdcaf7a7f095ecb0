//! What those who copy and compare engines ask of them.

use ob_interface::NoMemory;
use std::alloc::Global;
use wf_object::Engine;

/// An engine that runs some code: a datum by which it can be copied and compared, and on which all that it does depends.
pub trait CodedEngine: Engine {
    ghost use Rattle.std.specs.Prelude.{◌≡◌, ◌↔◌, IfOk, IsTrue};
    ghost use Rattle.wf_theorems.specs.Coded.{DoSameByCode};

    // The code that an engine runs.
    ghost Code: { Type 0 };

    ghost code: { Self → Code };

    /// An engine of the same code.
    fn copy(&self, alloc: Global) -> Result<Self, NoMemory>
        ensures { IfOk result (λ e. code e ≡ code self.now) };

    /// Whether the other runs the same code.
    fn is_same(&self, other: &Self) -> bool
        ensures { IsTrue result ↔ (code self.now ≡ code other.now) };

    /// Engines of the same code take the same blocks, calls and runs, and do the same with them.
    ghost same: { DoSameByCode code Self.meaning Self.lawful Self.fits Self.ready Self.effect };
}
