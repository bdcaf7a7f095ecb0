//! Parts of declarations that may not stand in the text.

ghost use Rattle.std.specs.Prelude.{◌≡◌, map, option_map};
ghost use Rattle.ob_grammar.specs.View.{const_decl_of, type_decl_of, var_decl_of, section_of, constants_of, types_of, variables_of};
ghost use Rattle.ob_typing.specs.Declarations.{declared_by};
ghost use Rattle.ob_typing.specs.Statements.{listed};

use ob_grammar::tree::{ConstDecl, Constants, Section, TypeDecl, Types, VarDecl, Variables};

/// The constants that stand behind CONST.
pub fn constants_in(part: &Option<Constants>) -> &[ConstDecl]
    ensures { map const_decl_of result.now ≡ declared_by (option_map constants_of part.now) }
{
    match part {
        Some(part) => &part.declared,
        None => &[],
    }
}

/// The types that stand behind TYPE.
pub fn types_in(part: &Option<Types>) -> &[TypeDecl]
    ensures { map type_decl_of result.now ≡ declared_by (option_map types_of part.now) }
{
    match part {
        Some(part) => &part.declared,
        None => &[],
    }
}

/// The variables that stand behind VAR.
pub fn variables_in(part: &Option<Variables>) -> &[VarDecl]
    ensures { map var_decl_of result.now ≡ declared_by (option_map variables_of part.now) }
{
    match part {
        Some(part) => &part.declared,
        None => &[],
    }
}

/// The sections of formal parameters.
pub fn sections_in(parameters: &Option<Vec<Section>>) -> &[Section]
    ensures { map section_of result.now ≡ listed (option_map (λ ss. map section_of ss.items) parameters.now) }
{
    match parameters {
        Some(sections) => sections,
        None => &[],
    }
}
