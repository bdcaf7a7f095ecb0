//! Hints on bytes that begin no token, and on words of other languages.

use crate::table_rows::WhenOf::{Could, Here, Is, Last, Never, Next, Not, On, Second, Sign, Word};
use crate::table_rows::{Fact, Number, PieceOf, Row};
use ob_scan::Kind;

/// A table: in each row conditions, and what is said: a text, and what else follows it.
macro_rules! rows {
    ($([$($when:expr),*] => $said:expr $(, $more:expr)*;)*) => {
        &[$(Row { when: &[$($when),*], said: &[PieceOf::Text($said) $(, $more)*] }),*]
    };
}

/// On real numbers, as a type or as they are written.
pub const NO_REAL: &str =
    "there are no real numbers; the types of single values are INTEGER and BOOLEAN";

/// On bits that are moved.
pub const NO_SHIFT: &str =
    "there are no shifts; a number is doubled by x * 2, and halved by x DIV 2";

/// On loops that count.
pub const NO_FOR: &str =
    "there is no FOR; count in a WHILE: i := 0; WHILE i < n DO ..; i := i + 1 END";

/// On keywords in small letters.
pub const IN_CAPITALS: &str = "keywords are written in capitals";

/// The same, where the keyword begins declarations and can't stand there in capitals either.
const ORDER_IN_CAPITALS: &str =
    "keywords are written in capitals, and declarations stand before BEGIN, in this order, each word once: CONST, TYPE, VAR, and then procedures";

/// On an END with a word of the construct behind it.
pub const END_ALONE: &str = "an IF or a WHILE ends with END alone";

pub const NOT_EQUAL: &str = "not equal is written #";

const NO_STRING: &str = "there are no strings; a value is a number, TRUE or FALSE";

/// On choices among several cases.
pub const NO_CASE: &str = "there is no CASE; write IF k = 1 THEN .. ELSIF k = 2 THEN .. END";

/// On pointers.
pub const NO_POINTER: &str =
    "there are no pointers; write an array of records, and an index in place of a pointer";

/// On PROCEDURE in small letters.
pub const PROCEDURE_FORM: &str =
    "a procedure begins with PROCEDURE, in capitals: PROCEDURE P(k: INTEGER); BEGIN .. END P;";

/// On procedures of other languages, and the words with which they begin.
pub const NO_OTHER_WORD: &str =
    "a procedure begins with PROCEDURE: PROCEDURE P(k: INTEGER); BEGIN .. END P;";

pub const PROCEDURE_WORDS: &[&str] = &["VOID", "PROC", "SUB", "METHOD"];

/// The same of functions.
pub const NO_FUNCTION_WORD: &str =
    "a procedure begins with PROCEDURE; there are no functions: it gives its results by VAR parameters";

pub const FUNCTION_WORDS: &[&str] = &["FUNCTION", "FUNC", "FUN", "DEF", "FN"];

const RECORD_FORM: &str =
    "a record type is declared behind TYPE: TYPE R = RECORD x, y: INTEGER END;";

const RECORD_WORDS: &[&str] = &["STRUCT", "CLASS", "OBJECT", "UNION"];

const DECLARATIONS: &str =
    "a variable is declared behind VAR, as x: INTEGER; a constant behind CONST, as n = 4";

const NO_EXCEPTION: &str =
    "there are no exceptions; a procedure tells by a BOOLEAN among its VAR parameters what went wrong";

const OTHER_NUMBERS: &str =
    "the type of numbers is INTEGER, from -2147483648 to 2147483647, and there is no other";

const NO_INC: &str = "there is no INC; write x := x + 1";

const NO_DEC: &str = "there is no DEC; write x := x - 1";

const NO_NEW: &str =
    "there is no NEW and there are no pointers; write an array of records, and an index in place of a pointer";

const NO_DISPOSE: &str = "there is no DISPOSE and there are no pointers";

const NO_ASSERT: &str =
    "there is no ASSERT; have an export give a BOOLEAN by its VAR parameter, and ask `outcomes --always` for it";

const NO_HALT: &str = "there is no HALT; a procedure ends at its END";

const NO_PRINT: &str =
    "a module prints nothing; a procedure gives values by its VAR parameters, and `seq` prints them";

const NO_READ: &str = "a module reads nothing; a value comes by a parameter of an export";

/// Procedures of other languages that print, and those that read.
const PRINTING_WORDS: &[&str] = &[
    "PRINT", "PRINTLN", "PRINTF", "WRITE", "WRITELN", "WRITEINT", "ECHO", "PUTS",
];

const READING_WORDS: &[&str] = &["READ", "READLN", "READINT", "INPUT", "SCANF"];

/// On the modules of other languages that do both.
pub const NO_INPUT_OUTPUT: &str =
    "a module reads and prints nothing; a procedure takes values by its parameters, and gives them by its VAR parameters";

const EXPORTED: &str = "a procedure that is exported has a * behind its name: PROCEDURE Get*";

const NOT_EXPORTED: &str = "a procedure without a * behind its name is known in this module alone";

const COMMENT: &str = "a comment is written (* .. *)";

const QUOTIENT: &str = "a quotient is written with DIV";

const NO_EMPTY_VALUE: &str =
    "there are no pointers and no empty values; keep a BOOLEAN or a number that says so";

const ZERO_MEANT: &str = "is the number 0 meant?";

const ONE_MEANT: &str = "is the number 1 meant?";

/// Tokens behind which a value stands.
const LEAD_TO_VALUES: &[Kind] = &[
    Kind::Assign,
    Kind::LeftParen,
    Kind::LeftBracket,
    Kind::Comma,
    Kind::Equal,
    Kind::NotEqual,
    Kind::Less,
    Kind::LessOrEqual,
    Kind::Greater,
    Kind::GreaterOrEqual,
    Kind::Plus,
    Kind::Minus,
    Kind::Times,
    Kind::Div,
    Kind::Mod,
    Kind::Array,
];

const NO_SET: &str =
    "there are no sets; write an array of BOOLEANs, with an element for each number";

/// On characters, as a type or as they are made.
pub const NO_CHARACTER: &str =
    "there are no characters; the types of single values are INTEGER and BOOLEAN";

const GIVEN: &str = "a parameter that gives a value stands behind VAR: VAR x: INTEGER";

/// Bytes that begin no token, and numbers that are too large.
pub const BYTE_ROWS: &[Row] = rows! {
    [Sign("_"), Is(Fact::BehindDigits)] => "a number has digits alone, and no underscores";
    [Sign("_")] => "a name has letters and digits, and no underscores";
    [Sign("\"")] => NO_STRING;
    [Sign("'"), Is(Fact::TextThere)] => NO_STRING;
    [Sign("'")] => "there are no characters; a value is a number, TRUE or FALSE";
    [Sign("{"), Is(Fact::CommentThere)] => COMMENT;
    [Sign("{"), Is(Fact::ThenMeant)] => "there are no blocks in braces: THEN stands for {, and END for }";
    [Sign("{"), Is(Fact::DoMeant)] => "there are no blocks in braces: DO stands for {, and END for }";
    [Sign("{"), Is(Fact::BeginMeant)] => "there are no blocks in braces: BEGIN stands for {, and END for }";
    [Sign("{"), Is(Fact::NothingMeant)] => "there are no blocks in braces: nothing stands for {, and END for }";
    [Sign("{")] => "a comment is written (* .. *); there are no blocks in braces: statements stand between THEN, DO or BEGIN and END";
    [Sign("}")] => "there are no blocks in braces; IF, WHILE, a procedure and the module end with END";
    [Sign("!=")] => NOT_EQUAL;
    [Sign("!")] => "not is written ~";
    [Sign("//"), Is(Fact::CommentThere)] => COMMENT;
    [Sign("//"), Is(Fact::QuotientThere)] => QUOTIENT;
    [Sign("//")] => "a comment is written (* .. *), and a quotient with DIV";
    [Sign("/*")] => COMMENT;
    [Sign("/="), Is(Fact::ComparisonThere)] => NOT_EQUAL;
    [Sign("/=")] => "not equal is written #; a variable is divided by x := x DIV y";
    [Sign("/")] => QUOTIENT;
    [Sign("||")] => "or is written OR";
    [Sign("|"), Is(Fact::BehindCase)] => NO_CASE;
    [Sign("|")] => "of two BOOLEANs or is written OR; there are no operations on the bits of a number, and there is no CASE";
    [Sign("%")] => "a remainder is written with MOD";
    [Sign("?")] => "there is no ? :; write IF, and an assignment behind THEN and behind ELSE";
    [Sign("^"), Is(Fact::TypeAwaited)] => NO_POINTER;
    [Sign("^.")] => "there are no pointers; a field is written behind its record, as r.f";
    [Sign("^")] => "there are no powers, no pointers and no forward declarations; a product is written x * x";
    [Sign("\u{feff}")] => "a byte order mark stands there, which no editor shows; save the file without it";
    [Is(Fact::NotAscii)] => "outside comments all is ASCII: no letters with accents, no typographic quotes or dashes, no special blanks";
    [Sign("2147483648"), Is(Fact::BehindMinus)] => "the smallest INTEGER is written -2147483647 - 1";
    [On(Number::S2)] => "count in a larger unit, as in thousands, or in two INTEGERs";
};

/// The keywords. A name that is one but for small letters is meant to be it.
const KEYWORDS: &[&str] = &[
    "MODULE",
    "CONST",
    "TYPE",
    "VAR",
    "PROCEDURE",
    "BEGIN",
    "END",
    "ARRAY",
    "OF",
    "RECORD",
    "IF",
    "THEN",
    "ELSIF",
    "ELSE",
    "WHILE",
    "DO",
    "REPEAT",
    "UNTIL",
    "OR",
    "DIV",
    "MOD",
];

/// Words that other languages have.
pub const WORD_ROWS: &[Row] = rows! {
    [Word(&["FOR"])] => NO_FOR;
    [Word(&["CASE"])] => NO_CASE;
    [On(Number::C1), Word(&["RETURN"]), Next(&[Kind::Semicolon, Kind::End, Kind::Elsif, Kind::Else, Kind::Until])] =>
        "there is no RETURN; a procedure ends at its END, so put what is left of it into an IF";
    [Word(&["RETURN"])] => "there is no RETURN; a procedure gives values by its VAR parameters, to which it assigns them: v := x";
    [Word(&["IMPORT"])] => "there is no IMPORT; a module stands alone";
    [Word(&["EXIT"])] => "there is no EXIT; a loop ends by its condition, as in WHILE (i < n) & ~found DO";
    [Word(&["LOOP"])] => "there is no LOOP; write WHILE i < n DO .. END or REPEAT .. UNTIL i = n";
    [Word(&["POINTER"])] => NO_POINTER;
    [Word(&["NIL", "NULL"])] => NO_EMPTY_VALUE;
    [Word(&["AND"])] => "and is written &";
    [Word(&["NOT"])] => "not is written ~";
    [Word(&["ELSEIF", "ELIF"])] => "another case is written ELSIF";
    [Word(&["ENDIF"])] => "an IF ends with END";
    [Word(&["BREAK"])] => "there is no BREAK; a loop ends by its condition, as in WHILE (i < n) & ~found DO";
    [Word(&["CONTINUE"])] => "there is no CONTINUE; put what is left of the turn into an IF";
    [Word(&["FUNCTION"])] => "there are no functions; a procedure gives its results by VAR parameters";
    [Word(&["WITH"])] => "there is no WITH; each field is written behind its record, as r.f";
    [Word(&["SWITCH"])] => "there is no SWITCH; write IF k = 1 THEN .. ELSIF k = 2 THEN .. END";
    [Word(&["FOREACH"])] => "there is no FOREACH; count in a WHILE: i := 0; WHILE i < n DO ..; i := i + 1 END";
    [Word(&["SHL", "SHR"])] => NO_SHIFT;
    [Word(&["GOTO"])] => "there is no GOTO; use IF, WHILE, REPEAT or a call";
    [Word(KEYWORDS)] => IN_CAPITALS;
};

/// Words that other languages have, where it is the tokens around them that tell.
pub const PLACED_WORD_ROWS: &[Row] = rows! {
    [Word(&["CONST", "TYPE", "VAR"]), Here(&[Kind::Ident]), Last(&[Kind::Ident]), Second(&[Kind::Semicolon]), Could(&[Kind::Colon]), Not(Fact::InParens)] =>
        ORDER_IN_CAPITALS;
    [Word(&["CONST"]), Here(&[Kind::Ident]), Last(&[Kind::Ident]), Second(&[Kind::Semicolon]), Could(&[Kind::Equal]), Never(&[Kind::Less])] =>
        ORDER_IN_CAPITALS;
    [Word(&["CONST", "TYPE", "VAR"]), Here(&[Kind::Ident]), Last(&[Kind::Ident]), Could(&[Kind::Assign])] => ORDER_IN_CAPITALS;
    [Word(&["CONST"]), Here(&[Kind::Ident]), Could(&[Kind::Procedure]), Never(&[Kind::Const])] => ORDER_IN_CAPITALS;
    [Word(&["TYPE"]), Here(&[Kind::Ident]), Could(&[Kind::Procedure]), Never(&[Kind::Type])] => ORDER_IN_CAPITALS;
    [Word(&["VAR"]), Here(&[Kind::Ident]), Could(&[Kind::Procedure]), Never(&[Kind::Var])] => ORDER_IN_CAPITALS;
    [Word(&["DECLARE"]), Could(&[Kind::Var])] => "variables are declared behind VAR: VAR x, y: INTEGER";
    [Word(&["IS", "AS"]), Is(Fact::Heading)] => "behind the heading of a procedure stands ;, and then its declarations";
    [Word(&["OD", "WEND", "ENDWHILE"]), Could(&[Kind::End])] => "a WHILE ends with END";
    [Word(&["LOOP"]), Here(&[Kind::Ident]), Last(&[Kind::End])] => END_ALONE;
    [Word(&["FI"]), Could(&[Kind::End])] => "an IF ends with END";
    [Word(&["USE", "USING", "FROM", "INCLUDE", "REQUIRE", "PACKAGE"]), Could(&[Kind::Const])] => "there is no IMPORT; a module stands alone";
    [Word(&["OUT", "INOUT", "REF", "BYREF"]), Last(&[Kind::Ident]), Is(Fact::InParens), Could(&[Kind::Colon])] => GIVEN;
    [Word(&["OUT", "INOUT", "REF", "BYREF"]), Here(&[Kind::Ident]), Second(&[Kind::Colon]), Is(Fact::InParens)] => GIVEN;
    [Word(&["CONST", "IN", "VAL", "BYVAL"]), Last(&[Kind::Ident]), Is(Fact::InParens), Could(&[Kind::Colon])] =>
        "a parameter without VAR has its name and its type alone, as x: INTEGER; what is handed over is copied";
    [Word(&["PROCEDURE"]), Here(&[Kind::Ident]), Next(&[Kind::Ident]), Could(&[Kind::Procedure])] => PROCEDURE_FORM;
    [Word(FUNCTION_WORDS), Here(&[Kind::Ident]), Next(&[Kind::Ident]), Could(&[Kind::Procedure])] => NO_FUNCTION_WORD;
    [Word(PROCEDURE_WORDS), Here(&[Kind::Ident]), Next(&[Kind::Ident]), Could(&[Kind::Procedure])] => NO_OTHER_WORD;
    [Word(&["PROCEDURE"]), Here(&[Kind::Ident]), Last(&[Kind::Ident]), Second(&[Kind::Semicolon]), Could(&[Kind::Colon])] =>
        PROCEDURE_FORM;
    [Word(FUNCTION_WORDS), Here(&[Kind::Ident]), Last(&[Kind::Ident]), Second(&[Kind::Semicolon]), Could(&[Kind::Colon])] =>
        NO_FUNCTION_WORD;
    [Word(PROCEDURE_WORDS), Here(&[Kind::Ident]), Last(&[Kind::Ident]), Second(&[Kind::Semicolon]), Could(&[Kind::Colon])] =>
        NO_OTHER_WORD;
    [Word(&["PROCEDURE"]), Here(&[Kind::Ident]), Last(&[Kind::Ident]), Second(&[Kind::Semicolon]), Could(&[Kind::Equal])] =>
        PROCEDURE_FORM;
    [Word(FUNCTION_WORDS), Here(&[Kind::Ident]), Last(&[Kind::Ident]), Second(&[Kind::Semicolon]), Could(&[Kind::Equal])] =>
        NO_FUNCTION_WORD;
    [Word(PROCEDURE_WORDS), Here(&[Kind::Ident]), Last(&[Kind::Ident]), Second(&[Kind::Semicolon]), Could(&[Kind::Equal])] =>
        NO_OTHER_WORD;
    [Word(&["EXPORT", "PUBLIC"]), Could(&[Kind::Procedure])] => EXPORTED;
    [Word(&["EXPORT", "PUBLIC"]), Here(&[Kind::Procedure]), Last(&[Kind::Ident])] => EXPORTED;
    [Word(&["PRIVATE"]), Here(&[Kind::Procedure]), Last(&[Kind::Ident])] => NOT_EXPORTED;
    [Word(&["PRIVATE"]), Could(&[Kind::Procedure])] => NOT_EXPORTED;
    [Word(&["LET", "DIM", "VAL"]), Could(&[Kind::Procedure])] => DECLARATIONS;
    [Word(&["LET", "DIM", "VAL"]), Last(&[Kind::Ident]), Second(&[Kind::Semicolon]), Could(&[Kind::Colon])] => DECLARATIONS;
    [Word(&["LET", "DIM", "VAL"]), Last(&[Kind::Ident]), Could(&[Kind::Assign])] => DECLARATIONS;
};

/// The same of types, calls and statements.
pub const STATEMENT_WORD_ROWS: &[Row] = rows! {
    [Word(RECORD_WORDS), Could(&[Kind::Procedure])] => RECORD_FORM;
    [Word(RECORD_WORDS), Last(&[Kind::Ident]), Second(&[Kind::Equal, Kind::Colon, Kind::Of])] => RECORD_FORM;
    [Word(RECORD_WORDS), Here(&[Kind::Ident]), Last(&[Kind::Ident]), Could(&[Kind::Equal])] => RECORD_FORM;
    [Word(&["SET"]), Here(&[Kind::Of])] => NO_SET;
    [Word(&["SET"]), Last(&[Kind::Ident]), Could(&[Kind::Assign])] => "no word stands before an assignment: x := x + 1";
    [Word(&["CALL"]), Last(&[Kind::Ident]), Could(&[Kind::Assign])] => "a procedure is called by its name alone, as P(a, 1)";
    [Word(&["TRY", "THROW", "RAISE", "CATCH"]), Last(&[Kind::Ident]), Could(&[Kind::Assign])] => NO_EXCEPTION;
    [Word(&["INC"]), Last(&[Kind::Ident]), Could(&[Kind::Assign])] => NO_INC;
    [Word(&["DEC"]), Last(&[Kind::Ident]), Could(&[Kind::Assign])] => NO_DEC;
    [Word(&["NEW"]), Last(&[Kind::Ident]), Could(&[Kind::Assign])] => NO_NEW;
    [Word(&["DISPOSE"]), Last(&[Kind::Ident]), Could(&[Kind::Assign])] => NO_DISPOSE;
    [Word(&["ASSERT"]), Last(&[Kind::Ident]), Could(&[Kind::Assign])] => NO_ASSERT;
    [Word(&["HALT"]), Last(&[Kind::Ident]), Could(&[Kind::Assign])] => NO_HALT;
    [Word(PRINTING_WORDS), Last(&[Kind::Ident]), Could(&[Kind::Assign])] => NO_PRINT;
    [Word(READING_WORDS), Last(&[Kind::Ident]), Could(&[Kind::Assign])] => NO_READ;
    [Word(&["GLOBAL", "NONLOCAL"]), Last(&[Kind::Ident]), Could(&[Kind::Assign])] =>
        "a procedure sees the variables of the module without a word of its own for that";
    [Word(&["LAMBDA"]), Could(&[Kind::And])] =>
        "there are no functions; a procedure gives its results by VAR parameters, and a call of it is a statement";
    [Word(&["FORWARD", "EXTERNAL"]), Could(&[Kind::Procedure])] =>
        "there is no FORWARD; a procedure is declared before those that call it, and may call itself";
};

/// Names that other languages have.
pub const NAME_ROWS: &[Row] = rows! {
    [Is(Fact::FurtherDown)] =>
        "this name is declared further down, in line ", PieceOf::Line, PieceOf::Text("; it is known only behind its declaration, so move that up");
    [Is(Fact::OwnType)] =>
        "no type has a part of its own type, and there are no pointers; write an array of records, and an index in place of a pointer";
    [Is(Fact::OwnName)] => "this name is the one that is being declared, and it is known only behind its declaration";
    [Is(Fact::Field)] => "a field has this name, and a field is written behind its record, as r.f";
    [Is(Fact::Elsewhere)] => "a procedure before has a variable of this name, which is known only in that procedure";
    [Word(&["O"]), Last(LEAD_TO_VALUES), Not(Fact::Near)] => ZERO_MEANT;
    [Word(&["L"]), Sign("l"), Last(LEAD_TO_VALUES), Not(Fact::Near)] => ONE_MEANT;
    [Word(&["I"]), Sign("I"), Last(LEAD_TO_VALUES), Not(Fact::Near)] => ONE_MEANT;
    [Word(&["NONE", "UNDEFINED"])] => NO_EMPTY_VALUE;
    [Word(&["INC"])] => NO_INC;
    [Word(&["DEC"])] => NO_DEC;
    [Word(&["BOOL"])] => "the type of TRUE and FALSE is BOOLEAN";
    [Word(&["INT", "BYTE"])] => "the type of numbers is INTEGER";
    [Word(&["REAL", "LONGREAL", "FLOAT", "DOUBLE", "F32", "F64"])] => NO_REAL;
    [Word(&["CHAR"])] => NO_CHARACTER;
    [Word(&["STRING"])] => "there are no strings; the types of single values are INTEGER and BOOLEAN";
    [Word(&["NEW"])] => NO_NEW;
    [Word(&["DISPOSE"])] => NO_DISPOSE;
    [Word(&["SET", "INCL", "EXCL"])] => NO_SET;
    [Word(&["COPY"])] => "there is no COPY; assign element by element";
    [Word(&["ASSERT"])] => NO_ASSERT;
    [Word(&["HALT"])] => NO_HALT;
    [Word(PRINTING_WORDS)] => NO_PRINT;
    [Word(READING_WORDS)] => NO_READ;
    [Word(&["SELF", "THIS"])] => "there are no methods; a variable of the module is written by its name alone";
    [Word(&["PASS", "SKIP"])] => "where nothing is to be done stands no statement, as in IF b THEN END";
    [Word(&["THROW", "RAISE", "PANIC"])] => NO_EXCEPTION;
    [Is(Fact::NumberType)] => OTHER_NUMBERS;
    [Word(&["LONG", "SHORT", "UNSIGNED", "I8", "I16", "I32", "I64", "U8", "U16", "U32", "U64"]), Last(&[Kind::Colon, Kind::Of])] => OTHER_NUMBERS;
};
