//! What a name stands for, against what is needed of it.

ghost use Rattle.std.specs.Prelude.{◌≡◌, ℕ, List, Some, None, IfOk, IfErr};
ghost use Rattle.ob_typing.specs.ExpressionFaults.{value_broken};
ghost use Rattle.ob_checked.specs.Types.{Entry};
ghost use Rattle.ob_scopes.specs.Usages.{use_of};
ghost use Rattle.ob_scopes.specs.Names.{meant_of, value_of};

use crate::constants::Usage;
use crate::scopes::{Meant, Value};
use ob_typing::rule::Rule;

/// The value that a name stands for, or the rule that it breaks where a value is needed.
pub fn value_meant(meant: &Meant<'_>, usage: Usage) -> Result<Value, Rule>
    ensures value { IfOk result (λ v. (types : List Entry) (name : List ℕ) → meant_of types name meant.now ≡ value_of types name v) }
    ensures unbroken { IfOk result (λ v. (types : List Entry) (name : List ℕ) → value_broken (use_of usage) (meant_of types name meant.now) ≡ None) }
    ensures broken { IfErr result (λ r. (types : List Entry) (name : List ℕ) → value_broken (use_of usage) (meant_of types name meant.now) ≡ Some r) }
{
    match meant {
        Meant::Nothing => Err(Rule::UnknownName),
        Meant::Constant(value) => Ok(Value::Constant(*value)),
        Meant::TypeName(_) | Meant::Procedure { .. } => Err(Rule::WrongKind),
        Meant::Variable {
            owner,
            position,
            data_type,
        } => match usage {
            Usage::InStatement => Ok(Value::Variable {
                owner: *owner,
                position: *position,
                data_type: *data_type,
            }),
            Usage::InConstant | Usage::NotComputed => Err(Rule::BadConstant),
        },
        Meant::FarVariable => match usage {
            Usage::InStatement => Err(Rule::WrongLevel),
            Usage::InConstant | Usage::NotComputed => Err(Rule::BadConstant),
        },
    }
}
