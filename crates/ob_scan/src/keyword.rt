//! Keywords.

ghost use Rattle.std.specs.Prelude.{◌≡◌, ◌≢◌, ◌<◌, length, slice_index, IsTrue, Some, IfSome, IfNone};
ghost use Rattle.std.specs.Char.{is_ascii_alphabetic};
ghost use Rattle.ob_scan.specs.declared.token.Kind.{Kind};
ghost use Rattle.ob_scan.specs.Spelling.{fixed_spelling};

use crate::token::Kind;

/// The keyword that a word is, of bytes whose first one is a letter.
pub fn keyword(word: &[u8]) -> Option<Kind>
    requires filled { 0 < length word.now }
    requires letter { IsTrue (is_ascii_alphabetic (slice_index word.now 0)) }
    ensures is { IfSome result (λ kind. fixed_spelling kind ≡ Some word.now) }
    ensures none { IfNone result ((kind : Kind) → fixed_spelling kind ≢ Some word.now) }
{
    match word {
        b"MODULE" => Some(Kind::Module),
        b"BEGIN" => Some(Kind::Begin),
        b"END" => Some(Kind::End),
        b"CONST" => Some(Kind::Const),
        b"TYPE" => Some(Kind::Type),
        b"VAR" => Some(Kind::Var),
        b"PROCEDURE" => Some(Kind::Procedure),
        b"ARRAY" => Some(Kind::Array),
        b"OF" => Some(Kind::Of),
        b"RECORD" => Some(Kind::Record),
        b"IF" => Some(Kind::If),
        b"THEN" => Some(Kind::Then),
        b"ELSIF" => Some(Kind::Elsif),
        b"ELSE" => Some(Kind::Else),
        b"WHILE" => Some(Kind::While),
        b"DO" => Some(Kind::Do),
        b"REPEAT" => Some(Kind::Repeat),
        b"UNTIL" => Some(Kind::Until),
        b"DIV" => Some(Kind::Div),
        b"MOD" => Some(Kind::Mod),
        b"OR" => Some(Kind::Or),
        _ => None,
    }
}
