//! The engine over compiled code, copied and compared.

use crate::engine::CodeEngine;
use ob_interface::NoMemory;
use std::alloc::Global;
use wf_theorems::CodedEngine;

impl CodedEngine for CodeEngine {
    ghost use Rattle.ob_code_engine.specs.SameCode.{does_the_same};
    ghost use Rattle.ob_code_correct.specs.CodeMeaning.{EngineParts};

    ghost Code = { EngineParts };

    ghost code = { λ e. e.parts };

    fn copy(&self, alloc: Global) -> Result<CodeEngine, NoMemory> {
        self.copy(alloc)
    }

    fn is_same(&self, other: &CodeEngine) -> bool {
        self.is_same(other)
    }

    ghost same = { does_the_same };
}
