//! The code of a checked program.

ghost use Rattle.std.specs.Prelude.{◌≡◌, ◌<◌, ◌≤◌, ◌↔◌, Err, IfOk, IsFalse, IsTrue, OnOk, length, map};
ghost use Rattle.ob_code_scheme.specs.Scheme as Scheme;
ghost use Rattle.ob_code_scheme.specs.Types as Sizes;
ghost use Rattle.ob_checked.specs.CheckedModule.{program_in};
ghost use Rattle.ob_checked.specs.View.{program_of};
ghost use Rattle.ob_layout.specs.Layout.{parts_of, layout_of, block_in};
ghost use Rattle.ob_code.specs.Behind.{procedure_behind};
ghost use Rattle.ob_code.specs.Entering.{code_by, entry_in, procedures_size};
ghost use Rattle.ob_code.specs.Limits.{IsWithinLimits};

use crate::entries::Entries;
use crate::growth::{begin_procedure, push};
use crate::scopes::Scopes;
use crate::sizes::statements_size;
use crate::statements::put_statements;
use ob_checked::checked::Checked;
use ob_checked::program::{Procedure, Program};
use ob_code_correct::well_formed_laws::checked_is_well_formed;
use ob_code_machine::{Code, CodeFault, Instr};
use ob_layout::Layout;
use std::alloc::{AllocError, Global};

/// A procedure behind the code before it: FRAME, its statements, RET.
fn put_procedure(
    scopes: &Scopes<'_>,
    entries: &Entries,
    code: &mut Code,
    procedure: &Procedure,
) -> Result<(), AllocError>
    requires { IsWithinLimits (procedure_behind scopes.now entries.now code.old procedure.now) }
    ensures { OnOk result (code.new ≡ procedure_behind scopes.now entries.now code.old procedure.now) }
{
    let parameters = procedure.parameters.len();
    let words = scopes.layout.words_from(scopes.procedure, parameters) as u16;
    begin_procedure(code)?;
    push(code, Instr::Frame { words })?;
    put_statements(scopes, entries, code, procedure.body.as_slice())?;
    push(code, Instr::Return)
}

/// The procedures of a program, one behind the other.
fn put_procedures(
    alloc: Global,
    program: &Program,
    layout: &Layout,
    entries: &Entries,
) -> Result<Code, AllocError>
    requires frames { (parts_of layout.now).frames ≡ map Sizes.frame_scope (program_of program.now).procedures }
    requires limits { IsWithinLimits (code_by (block_in layout.now) (entry_in entries.now) (program_of program.now).procedures) }
    ensures instructions { IfOk result (λ c. c.instructions ≡ Scheme.procedures_at (block_in layout.now) (entry_in entries.now) 0 (program_of program.now).procedures) }
    ensures entries { IfOk result (λ c. c.entries ≡ Scheme.entries_from 0 (program_of program.now).procedures) }
{
    let mut code = Code::new(alloc);
    for (number, procedure) in program.procedures.iter().enumerate() {
        let scopes = Scopes {
            layout,
            procedure: number,
        };
        put_procedure(&scopes, entries, &mut code, procedure)?;
    }
    Ok(code)
}

/// Whether there are more instructions than code can have. That takes no memory.
fn is_too_long(program: &Program, layout: &Layout) -> bool
    requires { (parts_of layout.now).frames ≡ map Sizes.frame_scope (program_of program.now).procedures }
    ensures yes { IsTrue result → 65535 < length (Scheme.code_of (program_of program.now)).instructions }
    ensures no { IsFalse result → length (Scheme.code_of (program_of program.now)).instructions ≤ 65535 }
{
    let mut end: usize = 0;
    for (number, procedure) in program.procedures.iter().enumerate() {
        let scopes = Scopes {
            layout,
            procedure: number,
        };
        let inside = statements_size(&scopes, procedure.body.as_slice());
        end = inside.saturating_add(end + 2);
        if end > Code::LIMIT {
            return true;
        }
    }
    false
}

/// Where the procedures begin: behind those before them.
fn entries_of(alloc: Global, program: &Program, layout: &Layout) -> Result<Entries, AllocError>
    requires frames { (parts_of layout.now).frames ≡ map Sizes.frame_scope (program_of program.now).procedures }
    requires fits { length (Scheme.code_of (program_of program.now)).instructions ≤ 65535 }
    ensures places { IfOk result (λ e. e.places.items ≡ Scheme.entries_from 0 (program_of program.now).procedures) }
    ensures end { IfOk result (λ e. e.end ≡ procedures_size (program_of program.now).procedures) }
{
    let mut places = Vec::new(alloc);
    let mut end: usize = 0;
    for (number, procedure) in program.procedures.iter().enumerate() {
        let scopes = Scopes {
            layout,
            procedure: number,
        };
        places.push(end)?;
        let inside = statements_size(&scopes, procedure.body.as_slice());
        end = inside.saturating_add(end + 2);
    }
    Ok(Entries { places, end })
}

/// The code of a program's procedures, by the layout of the program. The module's body is none of it. Sizes come first: so
/// nothing is built where there are too many instructions, and calls know where their procedures begin.
pub fn generate(alloc: Global, checked: &Checked, layout: &Layout) -> Result<Code, CodeFault>
    requires { parts_of layout.now ≡ layout_of (program_in checked.now) }
    ensures code { IfOk result (λ c. c ≡ Scheme.code_of (program_in checked.now)) }
    ensures fits { OnOk result (length (Scheme.code_of (program_in checked.now)).instructions ≤ 65535) }
    // G1 comes exactly where there are more instructions than code can have; so memory wants only where there are not.
    ensures too_long { (result ≡ Err CodeFault.TooLong) ↔ (65535 < length (Scheme.code_of (program_in checked.now)).instructions) }
{
    checked_is_well_formed(checked);
    let program = checked.program();
    if is_too_long(program, layout) {
        return Err(CodeFault::TooLong);
    }
    let entries = entries_of(alloc, program, layout)?;
    Ok(put_procedures(alloc, program, layout, &entries)?)
}
