//! Names that are taken, in a scope or in a record.

ghost use Rattle.std.specs.Prelude.{◌≡◌, option_map, map, IfOk, IfErr};
ghost use Rattle.ob_grammar.specs.View.{name_of};
ghost use Rattle.ob_typing.specs.Types.{second};
ghost use Rattle.ob_scopes.specs.TakenNames.{taken_in};

use crate::fault::CheckFault;
use ob_grammar::tree::Name;
use std::alloc::Global;
use std::collections::BTreeMap;

/// The first of the names that is taken, or stands before in the list.
pub fn second<'n, V: Drop>(
    alloc: Global,
    taken: &BTreeMap<String, V>,
    names: &'n [Name],
) -> Result<Option<&'n Name>, CheckFault>
    ensures second { IfOk result (λ r. option_map (λ n. name_of n.now) r ≡ second (taken_in taken.now) (map name_of names.now)) }
    ensures fault { IfErr result (λ f. f ≡ CheckFault.NoMemory) }
{
    let mut before = BTreeMap::new(alloc);
    for name in names {
        if taken.contains_key(&name.text) || before.contains_key(&name.text) {
            return Ok(Some(name));
        }
        let text = name.text.clone()?;
        before.insert(text, ())?;
    }
    Ok(None)
}
