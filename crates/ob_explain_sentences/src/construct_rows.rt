//! Hints on constructs that are open or closed at a place, on two tokens that stand for one, and on what may be missing.

use crate::table_rows::WhenOf::{Could, Here, Is, Last, Next, Not};
use crate::table_rows::{Fact, Piece, PieceOf, Row};
use crate::word_rows::{END_ALONE, NO_SHIFT, NOT_EQUAL};
use ob_scan::Kind;

/// A table: in each row conditions, and what is said.
macro_rules! rows {
    ($([$($when:expr),*] => $said:expr;)*) => {
        &[$(Row { when: &[$($when),*], said: $said }),*]
    };
}

const REPEAT_END: &[Piece] = &[PieceOf::Text(
    "a REPEAT ends with UNTIL and its condition, without an END",
)];

const SHIFT: &[Piece] = &[PieceOf::Text(NO_SHIFT)];

/// On a `#` behind which words of a comment stand.
pub const HASH_COMMENT: &[Piece] = &[PieceOf::Text(
    "a comment is written (* .. *), and # means not equal",
)];

const NO_COMMA: &[Piece] = &[PieceOf::Text("is a , missing before it?")];

const THE: Piece = PieceOf::Text("the ");

const OF_LINE: Piece = PieceOf::Text(" of line ");

const OPEN: Piece = PieceOf::Text(" is still open; is its END missing?");

const OPEN_REPEAT: Piece = PieceOf::Text(
    " is still open; is its UNTIL missing? A REPEAT has no END",
);

const HAS_ELSE: Piece = PieceOf::Text(
    " has an ELSE, behind which no other case of it stands; is its END missing?",
);

const END_CLOSES: Piece = PieceOf::Text("the END before it closes the ");

const NO_END: Piece = PieceOf::Text("; is an END missing before that one?");

const STILL_OPEN: Piece = PieceOf::Text(" is still open");

const IS_LONE: Piece = PieceOf::Text("; is `");

const IN_LINE: Piece = PieceOf::Text("` in line ");

const MEANT: Piece = PieceOf::Text(" meant to be END?");

const ELSE_IF: Piece = PieceOf::Text(" The ELSE IF of line ");

const OTHER_IF: Piece = PieceOf::Text(
    " opens another IF, which needs an END of its own; the next case of the same IF is written ELSIF",
);

/// An END that is missing or one too many, a `]` or a `)`, and pairs of tokens.
pub const CONSTRUCT_ROWS: &[Row] = rows! {
    [Is(Fact::Renamed)] => &[PieceOf::Text("this name stands elsewhere too, and that of the heading nowhere else; is the heading meant to have it?")];
    [Is(Fact::UntilBefore)] => REPEAT_END;
    [Is(Fact::UnitEnded)] => &[
        END_CLOSES, PieceOf::Opening, OF_LINE, PieceOf::Line,
        PieceOf::Text(", whose name stands behind it; or is there one END too many?")
    ];
    [Is(Fact::OuterName), Is(Fact::Lone)] =>
        &[END_CLOSES, PieceOf::Opening, OF_LINE, PieceOf::Line, IS_LONE, PieceOf::Lone, IN_LINE, PieceOf::LoneLine, MEANT];
    [Is(Fact::OuterName), Is(Fact::InnerIf)] =>
        &[END_CLOSES, PieceOf::Opening, OF_LINE, PieceOf::Line, NO_END, ELSE_IF, PieceOf::OtherLine, OTHER_IF];
    [Is(Fact::OuterName)] => &[END_CLOSES, PieceOf::Opening, OF_LINE, PieceOf::Line, NO_END];
    [Is(Fact::Repeated)] => &[PieceOf::Text(END_ALONE)];
    [Is(Fact::StillOpen), Is(Fact::Lone), Not(Fact::OpenRepeat)] =>
        &[THE, PieceOf::Opening, OF_LINE, PieceOf::Line, STILL_OPEN, IS_LONE, PieceOf::Lone, IN_LINE, PieceOf::LoneLine, MEANT];
    [Is(Fact::StillOpen), Is(Fact::OpenRepeat), Is(Fact::InnerIf)] =>
        &[THE, PieceOf::Opening, OF_LINE, PieceOf::Line, OPEN_REPEAT, ELSE_IF, PieceOf::OtherLine, OTHER_IF];
    [Is(Fact::StillOpen), Is(Fact::OpenRepeat)] => &[THE, PieceOf::Opening, OF_LINE, PieceOf::Line, OPEN_REPEAT];
    [Is(Fact::StillOpen), Is(Fact::InnerIf)] =>
        &[THE, PieceOf::Opening, OF_LINE, PieceOf::Line, OPEN, ELSE_IF, PieceOf::OtherLine, OTHER_IF];
    [Is(Fact::StillOpen), Is(Fact::BehindElse)] => &[THE, PieceOf::Opening, OF_LINE, PieceOf::Line, HAS_ELSE];
    [Is(Fact::StillOpen)] => &[THE, PieceOf::Opening, OF_LINE, PieceOf::Line, OPEN];
    [Is(Fact::NoIf)] => &[PieceOf::Text("no IF is open here; is one END too many before it?")];
    [Is(Fact::NoBracket)] => &[PieceOf::Text("is a ] missing before it?")];
    [Is(Fact::NoParen)] => &[PieceOf::Text("is a ) missing before it?")];
    [Last(&[Kind::Less]), Here(&[Kind::Greater, Kind::GreaterOrEqual]), Is(Fact::Touching)] =>
        &[PieceOf::Text(NOT_EQUAL)];
    [Last(&[Kind::Less]), Here(&[Kind::Less, Kind::LessOrEqual]), Is(Fact::Touching)] => SHIFT;
    [Last(&[Kind::Greater]), Here(&[Kind::Greater, Kind::GreaterOrEqual]), Is(Fact::Touching)] => SHIFT;
    [
        Last(&[Kind::Equal, Kind::Assign, Kind::LessOrEqual, Kind::GreaterOrEqual]),
        Here(&[Kind::Greater, Kind::GreaterOrEqual]),
        Is(Fact::Touching)
    ] => &[PieceOf::Text("greater or equal is written >=")];
    [
        Last(&[Kind::Equal, Kind::Assign, Kind::LessOrEqual, Kind::GreaterOrEqual]),
        Here(&[Kind::Less, Kind::LessOrEqual]),
        Is(Fact::Touching)
    ] => &[PieceOf::Text("less or equal is written <=")];
    [
        Last(&[Kind::Equal, Kind::Assign, Kind::LessOrEqual, Kind::GreaterOrEqual]),
        Here(&[Kind::Equal]),
        Is(Fact::Touching)
    ] => &[PieceOf::Text("equal is written with one =")];
    [Last(&[Kind::And]), Here(&[Kind::And]), Is(Fact::Touching)] => &[PieceOf::Text("and is written with one &")];
    [Here(&[Kind::Assign])] => &[PieceOf::Text(
        ":= assigns, in a statement of its own; = compares, and stands in declarations of constants and types",
    )];
    [Here(&[Kind::Equal])] => &[PieceOf::Text(
        "= compares, and := assigns; beside & or OR a comparison stands in parentheses: (a = 1) & (b = 2)",
    )];
};

/// The end of a loop, and what else may be missing, up to the module; not behind a call of a name that no procedure has.
pub const MISSING_ROWS: &[Row] = rows! {
    [Is(Fact::RepeatEnd)] => REPEAT_END;
    [Is(Fact::NoLeftParen)] => &[PieceOf::Text("is a ( missing before it?")];
    [Is(Fact::NoEnd)] => &[PieceOf::Text("is END missing before it? The name of what ends stands behind its END")];
    [Is(Fact::CommentThere)] => HASH_COMMENT;
    [Not(Fact::UndeclaredCall), Is(Fact::NoOperator)] => &[PieceOf::Text("is an operator missing before it, as + or *?")];
    [Not(Fact::UndeclaredCall), Is(Fact::NoThen)] => &[PieceOf::Text("is THEN missing before it?")];
    [Not(Fact::UndeclaredCall), Is(Fact::NoDo)] => &[PieceOf::Text("is DO missing before it?")];
    [Not(Fact::UndeclaredCall), Is(Fact::NoSemicolon)] => &[PieceOf::Text("is a ; missing before it?")];
    [Is(Fact::NoComma), Could(&[Kind::RightParen]), Is(Fact::ClosedBehind)] => NO_COMMA;
    [Is(Fact::NoComma), Could(&[Kind::Colon]), Next(&[Kind::Colon, Kind::Comma])] => NO_COMMA;
    [Could(&[Kind::Module])] => &[PieceOf::Text("a text is one module: MODULE M; .. END M.")];
};
