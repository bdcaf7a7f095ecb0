//! What is known where a type stands.

use crate::named_types::NamedType;
use ob_explain_names::known::Known;
use ob_scan::Token;

/// A text with its tokens, the names that are declared before the type, and those of them that are types.
#[derive(Clone, Copy)]
pub(crate) struct Scope<'a> {
    pub(crate) text: &'a [u8],
    pub(crate) tokens: &'a [Token],
    pub(crate) known: &'a [Known],
    pub(crate) types: &'a [NamedType],
}
