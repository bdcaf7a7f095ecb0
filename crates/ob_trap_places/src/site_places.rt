//! The place of a site in the text of a module.

ghost use Rattle.std.specs.Prelude.{◌≡◌};
ghost use Rattle.ob_grammar.specs.View.{module_of};
ghost use Rattle.ob_trap_places.specs.Places.{places_in_module};

use crate::procedure_bodies::body_at;
use crate::statement_places::in_body;
use ob_grammar::tree::ModuleTree;

/// The place of the operation that a path leads to from the statements of the procedure of a number, or of the module's
/// own body: the byte at which its operator, bracket, name or word begins.
pub fn place_of(tree: &ModuleTree, procedure: Option<usize>, path: &[usize]) -> Option<usize>
    ensures { result ≡ places_in_module (module_of tree.now) procedure path.now }
{
    let body = match procedure {
        None => &tree.body,
        Some(number) => match body_at(&tree.declarations, number) {
            Ok(body) => body,
            Err(_) => return None,
        },
    };
    match body {
        Some(statements) => in_body(statements.as_slice(), path),
        None => None,
    }
}
