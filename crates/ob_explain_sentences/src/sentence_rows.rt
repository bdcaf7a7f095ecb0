//! The sentences, of each fault the first that holds, and their ends: of S1 to C3 in `SENTENCE_ROWS`, of C4 in `TYPE_ROWS`, of C5 to C10 in
//! `LIMIT_ROWS`, and the ends of all of them in `END_ROWS`.

use crate::table_rows::WhenOf::{Here, Is, Last, Never, Next, On, Word};
use crate::table_rows::{Fact, Number, Piece, PieceOf, Row};
use crate::word_rows::{FUNCTION_WORDS, PROCEDURE_WORDS};
use ob_scan::Kind;

/// A table: in each row conditions, and what is said.
macro_rules! rows {
    ($([$($when:expr),*] => $($said:expr),+;)*) => {
        &[$(Row { when: &[$($when),*], said: &[$($said),+] }),*]
    };
}

const NO_NUMBERS: Piece = PieceOf::Text("this operator takes INTEGERs");

const BEHIND: Piece = PieceOf::Text(" behind the name `");

const BEHIND_WORD: Piece = PieceOf::Text(" behind `");

const QUOTE: Piece = PieceOf::Text("`");

const ANOTHER_TYPE: Piece = PieceOf::Text(
    "this is of another type than the one that is needed here",
);

// These are of S1 to C3. Those of C4 stand in `TYPE_ROWS`, those of C5 to C10 in `LIMIT_ROWS`, and ends of all of them in `END_ROWS`.
/// What the rule asks, and what stands there.
pub const SENTENCE_ROWS: &[Row] = rows! {
    [On(Number::S1)] => PieceOf::Text("no word, number or sign of the language begins with this character");
    [On(Number::S2)] => PieceOf::Text("a number is at most 2147483647");
    [On(Number::S3)] => PieceOf::Text("this comment has no end; comments nest, and each (* has its own *)");
    [On(Number::S4)] => PieceOf::Text("a name has at most 64 characters");
    [On(Number::S5)] => PieceOf::Text("a module has at most 65536 bytes");
    [On(Number::P1), Is(Fact::ModuleEnded)] => PieceOf::Text("the module ends with the . before it, and only comments stand behind that");
    [On(Number::P1), Is(Fact::Expected)] => PieceOf::Text("expected "), PieceOf::Could;
    [On(Number::P1)] => PieceOf::Text("the module can't go on like this; look here, and at what stands just before it");
    [On(Number::P2)] => PieceOf::Text("this stands within 100 other constructs, and no more nest");
    [On(Number::P3), Is(Fact::Named)] =>
        PieceOf::Text("behind END stands the name of the module or of the procedure that ends, which is `"), PieceOf::Name, PieceOf::Text("`");
    [On(Number::P3)] => PieceOf::Text("behind END stands the name of the module or of the procedure that ends");
    [On(Number::C1), Last(&[Kind::Dot])] => PieceOf::Text("the record has no field of this name");
    [On(Number::C1)] => PieceOf::Text("a name is declared before it is used, and none of this name is visible here");
    [On(Number::C2), Is(Fact::InRecord)] => PieceOf::Text("a field stands once in a record, and this name stands in it before");
    [On(Number::C2), Is(Fact::Before)] =>
        PieceOf::Text("a name is declared once in a scope, and this one is declared before, in line "), PieceOf::Line;
    [On(Number::C2)] => PieceOf::Text("a name is declared once in a scope");
    [On(Number::C3), Here(&[Kind::LeftBracket]), Is(Fact::RecordBefore)] =>
        PieceOf::Text("an index stands only behind an array, and what stands before it is a whole record");
    [On(Number::C3), Here(&[Kind::LeftBracket])] => PieceOf::Text("an index stands only behind an array, and this is none");
    [On(Number::C3), Here(&[Kind::Dot]), Is(Fact::ArrayBefore)] =>
        PieceOf::Text("a field stands only behind a record, and what stands before it is a whole array");
    [On(Number::C3), Here(&[Kind::Dot])] => PieceOf::Text("a field stands only behind a record, and this is none");
    [On(Number::C3), Here(&[Kind::Array, Kind::Record])] => PieceOf::Text("the type of a parameter is told by its name; declare it behind TYPE");
    [On(Number::C3), Is(Fact::Constant)] => PieceOf::Text("this is a constant");
    [On(Number::C3), Is(Fact::TypeName)] => PieceOf::Text("this is a type");
    [On(Number::C3), Is(Fact::Variable)] => PieceOf::Text("this is a variable");
    [On(Number::C3), Is(Fact::Procedure)] => PieceOf::Text("this is a procedure");
    [On(Number::C3)] => PieceOf::Text("this name stands for another kind of thing than is needed here");
};

/// The same of C5 to C10.
pub const LIMIT_ROWS: &[Row] = rows! {
    [On(Number::C5), Here(&[Kind::Div, Kind::Mod]), Is(Fact::Second)] =>
        PieceOf::Text("a divisor is 1 or more, and this one is "), PieceOf::Second, PieceOf::Text(", so there is no constant");
    [On(Number::C5), Here(&[Kind::Div, Kind::Mod])] => PieceOf::Text("a divisor is 1 or more, and this one is not, so there is no constant");
    [On(Number::C5), Here(&[Kind::Plus, Kind::Minus, Kind::Times]), Is(Fact::First), Is(Fact::Second)] =>
        PieceOf::First, PieceOf::Text(" "), PieceOf::Opening, PieceOf::Text(" "), PieceOf::Second;
    [On(Number::C5), Here(&[Kind::Plus, Kind::Minus, Kind::Times])] => PieceOf::Text("the result");
    [On(Number::C5), Last(&[Kind::Array])] => PieceOf::Text("the length of an array is a constant, as n of CONST n = 4, and has no variables in it");
    [On(Number::C5)] => PieceOf::Text("a constant has no variables in it");
    [On(Number::C6), Is(Fact::First)] => PieceOf::Text("an array has 1 to 4096 elements, and the length of this one is "), PieceOf::First;
    [On(Number::C6)] => PieceOf::Text("an array has 1 to 4096 elements");
    [On(Number::C7), Last(&[Kind::LeftParen, Kind::Comma]), Is(Fact::Variable)] =>
        PieceOf::Text("a parameter with VAR takes a variable alone, and this one begins an expression");
    [On(Number::C7), Last(&[Kind::LeftParen, Kind::Comma]), Is(Fact::Constant)] =>
        PieceOf::Text("a parameter with VAR takes a variable, and this is a constant");
    [On(Number::C7), Last(&[Kind::LeftParen, Kind::Comma])] => PieceOf::Text("a parameter with VAR takes a variable, and nothing else");
    [On(Number::C7), Is(Fact::Procedure)] =>
        PieceOf::Text("this call has "), PieceOf::Count, PieceOf::Text(" argument"), PieceOf::CountEnd,
        PieceOf::Text(", and the procedure of line "), PieceOf::Line, PieceOf::Text(" has "), PieceOf::Most,
        PieceOf::Text(" parameter"), PieceOf::MostEnd;
    [On(Number::C7)] => PieceOf::Text("this call has more or fewer arguments than the procedure has parameters");
    [On(Number::C8)] => PieceOf::Text(
        "a procedure sees its own variables and those of the module, and none of a procedure around it; hand it over as a parameter, with VAR where it is changed",
    );
    [On(Number::C9), Here(&[Kind::Array, Kind::Record]), Is(Fact::Words)] =>
        PieceOf::Text("a type has at most 4096 words, and this one has "), PieceOf::Count;
    [On(Number::C9), Here(&[Kind::Array, Kind::Record])] => PieceOf::Text("a type has at most 4096 words, and is at most 100 deep");
    [On(Number::C9), Last(&[Kind::Procedure])] => PieceOf::Text("a module has at most 64 exports, and this is the 65th");
    [On(Number::C9), Is(Fact::InParens)] => PieceOf::Text("a procedure has at most 8 parameters, and this is the ninth");
    [On(Number::C9), Is(Fact::InProcedure)] => PieceOf::Text(
        "the variables of a procedure, with its parameters, have at most 1024 words, and with this one there are ",
    );
    [On(Number::C9)] => PieceOf::Text("the variables of a module have at most 4096 words, and with this one there are ");
    [On(Number::C10), Is(Fact::InProcedure)] =>
        PieceOf::Text("exports are procedures of the module itself, and this one stands within another procedure");
    [On(Number::C10)] => PieceOf::Text("the parameters of an export are INTEGERs and BOOLEANs, and one of these is an array or a record");
};

/// Where a type differs (C4).
pub const TYPE_ROWS: &[Row] = rows! {
    [Here(&[Kind::Times, Kind::Less, Kind::LessOrEqual, Kind::Greater, Kind::GreaterOrEqual, Kind::Div, Kind::Mod])] => NO_NUMBERS;
    [Here(&[Kind::Plus, Kind::Minus]), Last(&[Kind::Ident, Kind::Number, Kind::RightParen, Kind::RightBracket])] => NO_NUMBERS;
    [Here(&[Kind::And, Kind::Or])] => PieceOf::Text("this operator takes BOOLEANs");
    [Here(&[Kind::Equal, Kind::NotEqual])] => PieceOf::Text("this compares two INTEGERs or two BOOLEANs");
    [Here(&[Kind::Not]), Is(Fact::WrongSigned)] => PieceOf::Text("~ takes a BOOLEAN, and what stands behind it is an INTEGER");
    [Is(Fact::WrongSigned)] => PieceOf::Text("a sign takes an INTEGER, and what stands behind it is a BOOLEAN");
    [Is(Fact::UnknownSigned)] => ANOTHER_TYPE;
    [Is(Fact::WholeCompared), Is(Fact::ArrayBeside)] => PieceOf::Text("this is a whole array, and it is compared with a single value");
    [Is(Fact::WholeCompared), Is(Fact::RecordBeside)] => PieceOf::Text("this is a whole record, and it is compared with a single value");
    [Is(Fact::WholeCompared)] => PieceOf::Text("arrays and records are not compared; compare element by element, or field by field");
    [Is(Fact::ArrayAssigned)] => PieceOf::Text("the variable before it is a whole array; assign element by element");
    [Is(Fact::RecordAssigned)] => PieceOf::Text("the variable before it is a whole record; assign field by field");
    [Is(Fact::TwoArrays)] => PieceOf::Text("this and the parameter are both arrays, but of two types");
    [Is(Fact::TwoRecords)] => PieceOf::Text("this and the parameter are both records, but of two types");
    [Is(Fact::OtherSingle)] => PieceOf::Text("the expression that begins here is "), PieceOf::Found;
    [Is(Fact::OtherWhole)] => PieceOf::Text("the expression that begins here is "), PieceOf::Found;
    [Is(Fact::OtherUnknown)] =>
        PieceOf::Text("the expression that begins here is "), PieceOf::Found, PieceOf::Text(", or a whole array or record");
    [Is(Fact::ArrayThere)] => PieceOf::Text("a whole array stands in no expression; take an element");
    [Is(Fact::RecordThere)] => PieceOf::Text("a whole record stands in no expression; take a field");
    [Here(&[Kind::Plus, Kind::Minus, Kind::Not])] => ANOTHER_TYPE;
    [Last(&[Kind::Colon])] => PieceOf::Text("a parameter without VAR is an INTEGER or a BOOLEAN, and this type is an array or a record");
    [Last(&[Kind::Assign])] => PieceOf::Text(
        "the expression that begins here is of another type than the variable before it, or a whole array or record; assign element by element",
    );
    [Last(&[Kind::LeftParen, Kind::Comma])] => PieceOf::Text(
        "the expression that begins here is of another type than the parameter, or a whole array or record, which stands in no expression",
    );
    [Last(&[
        Kind::Plus, Kind::Minus, Kind::Times, Kind::And, Kind::Not, Kind::Less, Kind::Greater, Kind::NotEqual, Kind::Equal,
        Kind::LessOrEqual, Kind::GreaterOrEqual, Kind::Div, Kind::Mod, Kind::Or
    ])] => PieceOf::Text("a whole array or record stands in no expression; take an element or a field");
    [] => ANOTHER_TYPE;
};

/// Ends of sentences.
pub const END_ROWS: &[Row] = rows! {
    [On(Number::P1), Is(Fact::Expected), Last(&[Kind::Ident]), Is(Fact::Foreign)] => BEHIND_WORD, PieceOf::Name, QUOTE;
    [On(Number::P1), Is(Fact::Expected), Last(&[Kind::Ident]), Here(&[Kind::Ident]), Never(&[Kind::And]), Is(Fact::TypeBefore)] =>
        BEHIND_WORD, PieceOf::Name, QUOTE;
    [On(Number::P1), Is(Fact::Expected), Last(&[Kind::Ident]), Here(&[Kind::Ident]), Never(&[Kind::And]), Word(FUNCTION_WORDS)] =>
        BEHIND_WORD, PieceOf::Name, QUOTE;
    [On(Number::P1), Is(Fact::Expected), Last(&[Kind::Ident]), Here(&[Kind::Ident]), Never(&[Kind::And]), Word(PROCEDURE_WORDS)] =>
        BEHIND_WORD, PieceOf::Name, QUOTE;
    [On(Number::P1), Is(Fact::Expected), Last(&[Kind::Ident]), Here(&[Kind::Ident]), Never(&[Kind::And])] => BEHIND, PieceOf::Name, QUOTE;
    [On(Number::P1), Is(Fact::Expected), Last(&[Kind::Ident]), Is(Fact::KeywordBefore)] => BEHIND, PieceOf::Name, QUOTE;
    [On(Number::P1), Is(Fact::Expected), Last(&[Kind::RightParen]), Never(&[Kind::And]), Is(Fact::UndeclaredCall), Word(&["RETURN"])] =>
        PieceOf::Text(" behind RETURN (..), which is read as a call");
    [On(Number::C1), Is(Fact::Near)] => PieceOf::Text("; did you mean `"), PieceOf::Name, PieceOf::Text("`?");
    [On(Number::C1), Last(&[Kind::Dot]), Is(Fact::First)] => PieceOf::Text("; it has `"), PieceOf::First, QUOTE;
    [On(Number::C3), Is(Fact::Named), Last(&[Kind::Colon, Kind::Of])] => PieceOf::Text(", and the name of a type is needed here");
    [
        On(Number::C3), Is(Fact::Named),
        Last(&[Kind::Semicolon, Kind::Begin, Kind::Then, Kind::Else, Kind::Do, Kind::Repeat]),
        Next(&[Kind::Assign, Kind::LeftBracket, Kind::Dot])
    ] => PieceOf::Text(", and a variable is needed here");
    [
        On(Number::C3), Is(Fact::Named),
        Last(&[Kind::Semicolon, Kind::Begin, Kind::Then, Kind::Else, Kind::Do, Kind::Repeat]),
        Next(&[Kind::LeftParen, Kind::Semicolon, Kind::End, Kind::Else, Kind::Elsif, Kind::Until])
    ] => PieceOf::Text(", and a procedure is needed here");
    [
        On(Number::C3), Is(Fact::Named),
        Last(&[
            Kind::LeftParen, Kind::LeftBracket, Kind::Comma, Kind::Plus, Kind::Minus, Kind::Times, Kind::And, Kind::Not, Kind::Less,
            Kind::Greater, Kind::NotEqual, Kind::Assign, Kind::LessOrEqual, Kind::GreaterOrEqual, Kind::If, Kind::Elsif, Kind::While,
            Kind::Until, Kind::Array, Kind::Div, Kind::Mod, Kind::Or
        ])
    ] => PieceOf::Text(", and a constant or a variable is needed here");
    [On(Number::C3), Is(Fact::Named)] => PieceOf::Text(", which can't stand here");
    [On(Number::C4), Is(Fact::WrongBefore)] => PieceOf::Text(", and what stands before it is "), PieceOf::Found;
    [On(Number::C4), Is(Fact::WrongBehind)] => PieceOf::Text(", and what stands behind it is "), PieceOf::Found;
    [On(Number::C4), Is(Fact::WrongSide)] => PieceOf::Text(", and one of its operands is none");
    [On(Number::C4), Is(Fact::IntegerFirst)] => PieceOf::Text(", and before it stands an INTEGER, behind it a BOOLEAN");
    [On(Number::C4), Is(Fact::BooleanFirst)] => PieceOf::Text(", and before it stands a BOOLEAN, behind it an INTEGER");
    [On(Number::C4), Is(Fact::NoPair)] => PieceOf::Text(", and its operands are no such pair");
    [On(Number::C4), Is(Fact::TwoArrays)] => PieceOf::Text("; two types are the same only where one name declares them");
    [On(Number::C4), Is(Fact::TwoRecords)] => PieceOf::Text("; two types are the same only where one name declares them");
    [On(Number::C4), Is(Fact::Other), Last(&[Kind::Assign])] => PieceOf::Text(", and the variable before it is "), PieceOf::Wanted;
    [On(Number::C4), Is(Fact::Other), Last(&[Kind::LeftParen, Kind::Comma])] => 
        PieceOf::Text(", and the parameter in the heading of line "), PieceOf::Line, PieceOf::Text(" is "), PieceOf::Wanted;
    [On(Number::C4), Is(Fact::Other), Last(&[Kind::Array])] => PieceOf::Text(", and the length of an array is "), PieceOf::Wanted;
    [On(Number::C4), Is(Fact::Other), Last(&[Kind::LeftBracket])] => PieceOf::Text(", and an index is "), PieceOf::Wanted;
    [On(Number::C4), Is(Fact::Other)] => PieceOf::Text(", and a condition is "), PieceOf::Wanted;
    [On(Number::C5), Here(&[Kind::Plus, Kind::Minus, Kind::Times])] =>
        PieceOf::Text(" is outside -2147483648 to 2147483647, so there is no constant");
    [On(Number::C7), Last(&[Kind::LeftParen, Kind::Comma]), Is(Fact::Before)] =>
        PieceOf::Text("; the heading of the procedure stands in line "), PieceOf::OtherLine;
    [On(Number::C9), Is(Fact::Counted), Is(Fact::Words)] => PieceOf::Count;
    [On(Number::C9), Is(Fact::Counted)] => PieceOf::Text("more");
};
