//! The names that declarations of a module declare, as far as they are known at a place.

ghost use Rattle.std.specs.Prelude.{◌≡◌, [], ◌∷◌, ◌++◌, length, map, option_map, IfOk, OnOk};
ghost use Rattle.ob_grammar.specs.View.{name_of, section_of, heading_of, constants_of, types_of, variables_of, declarations_of, procedures_in};
ghost use Rattle.ob_explain_names.specs.Known.{known_as, known_constants, known_heading, known_in, known_parameters, known_procedures, known_types};
ghost use Rattle.ob_explain_names.specs.Known.{known_variables};

use crate::known::{Known, Sort};
use ob_grammar::tree::{Constants, Declarations, Name, Procedure, Section, Types, Variables};
use std::alloc::{AllocError, Global};

/// Appends the names that declarations declare, and of each procedure that ends behind a place those that it declares itself.
#[cycle(declarations)]
pub fn push_declarations(
    known: &mut Vec<Known>,
    alloc: Global,
    declarations: &Declarations,
    at: usize,
) -> Result<(), AllocError>
    ensures { OnOk result (known.new.items ≡ known.old.items ++ known_in at (declarations_of declarations.now)) }
{
    push_constants(known, &declarations.constants)?;
    push_types(known, &declarations.types)?;
    push_variables(known, &declarations.variables)?;
    push_procedures(known, alloc, &declarations.procedures, at)
}

/// Appends the names of procedures, and those that are declared in them.
#[cycle(declarations)]
fn push_procedures(
    known: &mut Vec<Known>,
    alloc: Global,
    procedures: &[Procedure],
    at: usize,
) -> Result<(), AllocError>
    ensures { OnOk result (known.new.items ≡ known.old.items ++ known_procedures at (procedures_in procedures.now)) }
{
    for procedure in procedures {
        push_procedure(known, alloc, procedure, at)?;
    }
    Ok(())
}

/// Appends the name of a procedure, and those that are declared in it.
#[cycle(declarations)]
fn push_procedure(
    known: &mut Vec<Known>,
    alloc: Global,
    procedure: &Procedure,
    at: usize,
) -> Result<(), AllocError>
    ensures { OnOk result (known.new.items ≡ known.old.items ++ known_procedures at (procedures_in (procedure.now ∷ []))) }
{
    push_heading(known, alloc, procedure)?;
    if procedure.end_name.place < at {
        return Ok(());
    }
    push_parameters(known, &procedure.parameters)?;
    push_declarations(known, alloc, &procedure.declarations, at)
}

/// Appends the name of a procedure.
fn push_heading(
    known: &mut Vec<Known>,
    alloc: Global,
    procedure: &Procedure,
) -> Result<(), AllocError>
    ensures { OnOk result (known.new.items ≡ known.old.items ++ known_heading (heading_of procedure.now) ∷ []) }
{
    let parameters = parameter_count(alloc, &procedure.parameters)?;
    known.push(Known {
        place: procedure.name.place,
        sort: Sort::Procedure(parameters),
    })?;
    Ok(())
}

/// How many parameters a procedure has.
fn parameter_count(alloc: Global, parameters: &Option<Vec<Section>>) -> Result<usize, AllocError>
    ensures { IfOk result (λ count. count ≡ length (known_parameters (option_map (λ ss. map section_of ss.items) parameters.now))) }
{
    let mut known = Vec::new(alloc);
    push_parameters(&mut known, parameters)?;
    Ok(known.len())
}

/// Appends the names of parameters.
fn push_parameters(
    known: &mut Vec<Known>,
    parameters: &Option<Vec<Section>>,
) -> Result<(), AllocError>
    ensures { OnOk result (known.new.items ≡ known.old.items ++ known_parameters (option_map (λ ss. map section_of ss.items) parameters.now)) }
{
    let Some(sections) = parameters else {
        return Ok(());
    };
    for section in sections {
        push_variable_names(known, &section.names)?;
    }
    Ok(())
}

/// Appends the names of constants.
fn push_constants(known: &mut Vec<Known>, constants: &Option<Constants>) -> Result<(), AllocError>
    ensures { OnOk result (known.new.items ≡ known.old.items ++ known_constants (option_map constants_of constants.now)) }
{
    let Some(part) = constants else {
        return Ok(());
    };
    for constant in &part.declared {
        known.push(Known {
            place: constant.name.place,
            sort: Sort::Constant,
        })?;
    }
    Ok(())
}

/// Appends the names of types.
fn push_types(known: &mut Vec<Known>, types: &Option<Types>) -> Result<(), AllocError>
    ensures { OnOk result (known.new.items ≡ known.old.items ++ known_types (option_map types_of types.now)) }
{
    let Some(part) = types else {
        return Ok(());
    };
    for declaration in &part.declared {
        known.push(Known {
            place: declaration.name.place,
            sort: Sort::TypeName,
        })?;
    }
    Ok(())
}

/// Appends the names of variables.
fn push_variables(known: &mut Vec<Known>, variables: &Option<Variables>) -> Result<(), AllocError>
    ensures { OnOk result (known.new.items ≡ known.old.items ++ known_variables (option_map variables_of variables.now)) }
{
    let Some(part) = variables else {
        return Ok(());
    };
    for declaration in &part.declared {
        push_variable_names(known, &declaration.names)?;
    }
    Ok(())
}

/// Appends names of variables or parameters.
fn push_variable_names(known: &mut Vec<Known>, names: &[Name]) -> Result<(), AllocError>
    ensures { OnOk result (known.new.items ≡ known.old.items ++ map (known_as Sort.Variable) (map name_of names.now)) }
{
    for name in names {
        known.push(Known {
            place: name.place,
            sort: Sort::Variable,
        })?;
    }
    Ok(())
}
