//! Groups of kinds of token that are told by one name.

ghost use Rattle.std.specs.Prelude.{◌≡◌, IfOk};
ghost use Rattle.ob_explain_sentences.specs.Groups.{group_kinds, group_name, has, has_all, without};

use ob_scan::Kind;
use std::alloc::{AllocError, Global};

/// A group of kinds of token.
#[derive(Clone, Copy)]
pub enum Group {
    Statement,
    Expression,
    Operand,
    TypeName,
    Operator,
    Relation,
    Adding,
    Multiplying,
}

/// All groups, the larger ones before those that are parts of them.
pub const GROUPS: [Group; 8] = [
    Group::Statement,
    Group::Expression,
    Group::Operand,
    Group::TypeName,
    Group::Operator,
    Group::Relation,
    Group::Adding,
    Group::Multiplying,
];

/// What is told of expected kinds: a group that is whole, or a single kind.
#[derive(Clone, Copy)]
pub enum Phrase {
    Whole(Group),
    Single(Kind),
}

/// How a group is told.
pub fn group_name(group: Group) -> &'static str
    ensures { result.now ≡ group_name group }
{
    match group {
        Group::Statement => "a statement",
        Group::Expression => "an expression",
        Group::Operand => "an operand",
        Group::TypeName => "a type",
        Group::Operator => "an operator",
        Group::Relation => "a relation",
        Group::Adding => "an adding operator",
        Group::Multiplying => "a multiplying operator",
    }
}

/// The kinds of a group.
pub fn group_kinds(group: Group) -> &'static [Kind]
    ensures { result.now ≡ group_kinds group }
{
    match group {
        Group::Statement => &[Kind::Ident, Kind::If, Kind::While, Kind::Repeat],
        Group::Expression => &[
            Kind::Ident,
            Kind::Number,
            Kind::LeftParen,
            Kind::Not,
            Kind::Plus,
            Kind::Minus,
        ],
        Group::Operand => &[Kind::Ident, Kind::Number, Kind::LeftParen, Kind::Not],
        Group::TypeName => &[Kind::Ident, Kind::Array, Kind::Record],
        Group::Operator => &[
            Kind::Equal,
            Kind::NotEqual,
            Kind::Less,
            Kind::LessOrEqual,
            Kind::Greater,
            Kind::GreaterOrEqual,
            Kind::Plus,
            Kind::Minus,
            Kind::Or,
            Kind::Times,
            Kind::Div,
            Kind::Mod,
            Kind::And,
        ],
        Group::Relation => &[
            Kind::Equal,
            Kind::NotEqual,
            Kind::Less,
            Kind::LessOrEqual,
            Kind::Greater,
            Kind::GreaterOrEqual,
        ],
        Group::Adding => &[Kind::Plus, Kind::Minus, Kind::Or],
        Group::Multiplying => &[Kind::Times, Kind::Div, Kind::Mod, Kind::And],
    }
}

/// Whether all kinds of a group are among these.
pub fn has_all(kinds: &[Kind], group: Group) -> bool
    ensures { result ≡ has_all kinds.now group }
{
    group_kinds(group).iter().all(|kind| has(kinds, *kind))
}

/// The kinds that are not of a group.
pub fn without(alloc: Global, group: Group, kinds: &[Kind]) -> Result<Vec<Kind>, AllocError>
    ensures { IfOk result (λ left. left.items ≡ without group kinds.now) }
{
    let members = group_kinds(group);
    kinds
        .iter()
        .copied()
        .filter(|kind| !has(members, *kind))
        .collect(alloc)
}

/// Whether a kind is among these.
fn has(kinds: &[Kind], kind: Kind) -> bool
    ensures { result ≡ has kinds.now kind }
{
    kinds.contains(&kind)
}
