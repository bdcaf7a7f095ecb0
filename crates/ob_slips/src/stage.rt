//! A module's own text, with the mendings so far.

use ob_mendings::origin::Move;

/// A module's own text, of a file of this name, and the text with mendings, which move its places so, the last one first.
#[derive(Clone, Copy)]
pub struct Stage<'a> {
    pub name: &'a str,
    pub own: &'a [u8],
    pub text: &'a [u8],
    pub moves: &'a [Move],
}
