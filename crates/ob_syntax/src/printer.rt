//! The printed text of a module: all its tokens, numbers without leading zeros, one space between two, and a line feed
//! at the end.

ghost use Rattle.std.specs.Prelude.{◌≡◌, [], ◌∷◌, ◌++◌, map, option_map, string_bytes, if◌then◌else◌, IfOk, OnOk};
ghost use Rattle.ob_scan.specs.declared.token.Kind.{Kind};
ghost use Rattle.ob_grammar.specs.View.{name_of, section_of, heading_of, constants_of, types_of, variables_of, declarations_of, procedures_in, module_of};
ghost use Rattle.ob_syntax.specs.Printing.{ident, name_words, spaced, section_words, heading_words, perhaps};
ghost use Rattle.ob_syntax.specs.Printing.{parameter_words, part_words, const_words, type_decl_words, var_decl_words, declaration_words, procedure_words, printed};
ghost use Rattle.ob_syntax.specs.PrintedAgain.{LeadsTo};

mod expressions;
mod statements;
mod types;

use ob_grammar::module::Module;
use ob_grammar::tree::{Constants, Declarations, Name, Procedure, Section, Types, Variables};
use ob_interface::NoMemory;
use std::alloc::Global;

/// The text of a module: all its tokens, numbers without leading zeros, one space between two, and a line feed at the
/// end.
pub fn print(alloc: Global, module: &Module) -> Result<String, NoMemory>
    ensures text { IfOk result (λ text. string_bytes text ≡ printed (module_of «module».now)) }

    // The text leads to the same module but for places.
    ensures again { IfOk result (λ text. LeadsTo (string_bytes text) (module_of «module».now)) }
{
    let tree = module.tree();
    let mut text = String::from_str(alloc, "MODULE")?;
    push_name(&mut text, &tree.name)?;
    push_word(&mut text, ";")?;
    push_declarations(&mut text, &tree.declarations)?;
    statements::push_body(&mut text, &tree.body)?;
    push_word(&mut text, "END")?;
    push_name(&mut text, &tree.end_name)?;
    push_word(&mut text, ".")?;
    text.push('\n')?;
    Ok(text)
}

/// Appends a space and a word.
fn push_word(text: &mut String, word: &str) -> Result<(), NoMemory>
    ensures { OnOk result (string_bytes text.new ≡ string_bytes text.old ++ 32 ∷ word.now) }
{
    text.push(' ')?;
    text.push_str(word)?;
    Ok(())
}

/// Appends what stands between two parts, where this is not the first.
fn push_separator(text: &mut String, is_first: bool, separator: &str) -> Result<(), NoMemory>
    ensures { OnOk result (string_bytes text.new ≡ string_bytes text.old ++ (if is_first then [] else (32 ∷ separator.now))) }
{
    if is_first {
        Ok(())
    } else {
        push_word(text, separator)
    }
}

/// Appends a name.
fn push_name(text: &mut String, name: &Name) -> Result<(), NoMemory>
    ensures { OnOk result (string_bytes text.new ≡ string_bytes text.old ++ spaced (ident (name_of name.now) ∷ [])) }
{
    push_word(text, &name.text)
}

/// Appends names with commas between them.
fn push_names(text: &mut String, names: &[Name]) -> Result<(), NoMemory>
    ensures { OnOk result (string_bytes text.new ≡ string_bytes text.old ++ spaced (name_words (map name_of names.now))) }
{
    let mut is_first = true;
    for name in names {
        push_separator(text, is_first, ",")?;
        push_name(text, name)?;
        is_first = false;
    }
    Ok(())
}

/// Appends `CONST` and each constant, where it stands.
fn push_constants(text: &mut String, constants: &Option<Constants>) -> Result<(), NoMemory>
    ensures { OnOk result (string_bytes text.new ≡ string_bytes text.old ++ spaced (part_words Kind.Const const_words (option_map constants_of constants.now))) }
{
    let Some(part) = constants else {
        return Ok(());
    };
    push_word(text, "CONST")?;
    for constant in &part.declared {
        push_name(text, &constant.name)?;
        push_word(text, "=")?;
        expressions::push_expr(text, &constant.value)?;
        push_word(text, ";")?;
    }
    Ok(())
}

/// Appends `TYPE` and each type, where it stands.
fn push_types(text: &mut String, types: &Option<Types>) -> Result<(), NoMemory>
    ensures { OnOk result (string_bytes text.new ≡ string_bytes text.old ++ spaced (part_words Kind.«Type» type_decl_words (option_map types_of types.now))) }
{
    let Some(part) = types else {
        return Ok(());
    };
    push_word(text, "TYPE")?;
    for declaration in &part.declared {
        push_name(text, &declaration.name)?;
        push_word(text, "=")?;
        types::push_type(text, &declaration.definition)?;
        push_word(text, ";")?;
    }
    Ok(())
}

/// Appends `VAR` and each declaration of variables, where it stands.
fn push_variables(text: &mut String, variables: &Option<Variables>) -> Result<(), NoMemory>
    ensures { OnOk result (string_bytes text.new ≡ string_bytes text.old ++ spaced (part_words Kind.Var var_decl_words (option_map variables_of variables.now))) }
{
    let Some(part) = variables else {
        return Ok(());
    };
    push_word(text, "VAR")?;
    for declaration in &part.declared {
        push_names(text, &declaration.names)?;
        push_word(text, ":")?;
        types::push_type(text, &declaration.of_type)?;
        push_word(text, ";")?;
    }
    Ok(())
}

/// Appends formal parameters of one mode and type.
fn push_section(text: &mut String, section: &Section) -> Result<(), NoMemory>
    ensures { OnOk result (string_bytes text.new ≡ string_bytes text.old ++ spaced (section_words (section_of section.now))) }
{
    if section.is_var {
        push_word(text, "VAR")?;
    }
    push_names(text, &section.names)?;
    push_word(text, ":")?;
    types::push_type(text, &section.of_type)
}

/// Appends formal parameters in parentheses, where they stand.
fn push_parameters(text: &mut String, parameters: &Option<Vec<Section>>) -> Result<(), NoMemory>
    ensures { OnOk result (string_bytes text.new ≡ string_bytes text.old ++ spaced (perhaps parameter_words (option_map (λ ss. map section_of ss.items) parameters.now))) }
{
    let Some(sections) = parameters else {
        return Ok(());
    };
    push_word(text, "(")?;
    let mut is_first = true;
    for section in sections {
        push_separator(text, is_first, ";")?;
        push_section(text, section)?;
        is_first = false;
    }
    push_word(text, ")")
}

/// Appends the heading of a procedure.
fn push_heading(text: &mut String, procedure: &Procedure) -> Result<(), NoMemory>
    ensures { OnOk result (string_bytes text.new ≡ string_bytes text.old ++ spaced (heading_words (heading_of procedure.now))) }
{
    push_word(text, "PROCEDURE")?;
    push_name(text, &procedure.name)?;
    if procedure.is_exported {
        push_word(text, "*")?;
    }
    push_parameters(text, &procedure.parameters)
}

/// Appends declarations.
#[cycle(declarations)]
fn push_declarations(text: &mut String, declarations: &Declarations) -> Result<(), NoMemory>
    ensures { OnOk result (string_bytes text.new ≡ string_bytes text.old ++ spaced (declaration_words (declarations_of declarations.now))) }
{
    push_constants(text, &declarations.constants)?;
    push_types(text, &declarations.types)?;
    push_variables(text, &declarations.variables)?;
    push_procedures(text, &declarations.procedures)
}

/// Appends procedures.
#[cycle(declarations)]
fn push_procedures(text: &mut String, procedures: &[Procedure]) -> Result<(), NoMemory>
    ensures { OnOk result (string_bytes text.new ≡ string_bytes text.old ++ spaced (procedure_words (procedures_in procedures.now))) }
{
    for procedure in procedures {
        push_procedure(text, procedure)?;
    }
    Ok(())
}

/// Appends a procedure with a semicolon behind it.
#[cycle(declarations)]
fn push_procedure(text: &mut String, procedure: &Procedure) -> Result<(), NoMemory>
    ensures { OnOk result (string_bytes text.new ≡ string_bytes text.old ++ spaced (procedure_words (procedures_in (procedure.now ∷ [])))) }
{
    push_heading(text, procedure)?;
    push_word(text, ";")?;
    push_declarations(text, &procedure.declarations)?;
    statements::push_body(text, &procedure.body)?;
    push_word(text, "END")?;
    push_name(text, &procedure.end_name)?;
    push_word(text, ";")
}
