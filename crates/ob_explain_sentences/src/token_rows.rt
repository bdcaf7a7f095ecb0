//! Hints on tokens that can't stand where they do, by the tokens around the place and by what could stand there.

use crate::construct_rows::HASH_COMMENT;
use crate::table_rows::WhenOf::{Could, Here, Is, Last, Never, Next, Not, On, Second, Sign, Word};
use crate::table_rows::{Fact, Number, Piece, PieceOf, Row};
use crate::word_rows::{
    FUNCTION_WORDS, IN_CAPITALS, NO_CASE, NO_FOR, NO_FUNCTION_WORD, NO_INPUT_OUTPUT, NO_OTHER_WORD,
    NO_POINTER, NO_REAL, NO_SHIFT, PROCEDURE_FORM, PROCEDURE_WORDS,
};
use ob_scan::Kind;

/// A table: in each row conditions, and what is said.
macro_rules! rows {
    ($([$($when:expr),*] => $said:expr;)*) => {
        &[$(Row { when: &[$($when),*], said: $said }),*]
    };
}

const NO_RESULT: Piece = PieceOf::Text(
    "there are no functions; a procedure gives its results by VAR parameters, and a call of it is a statement",
);

const NO_FUNCTION: &[Piece] = &[NO_RESULT];

const INDEX: &[Piece] = &[PieceOf::Text("an element of an array is written a[i]")];

const CHANGE: &[Piece] = &[PieceOf::Text("a variable is changed by an assignment: x := x + 1")];

const CHANGE_DOWN: &[Piece] = &[PieceOf::Text(
    "a variable is changed by an assignment: x := x - 1",
)];

const CHANGE_TIMES: &[Piece] = &[PieceOf::Text(
    "a variable is changed by an assignment: x := x * 2",
)];

const NO_BITS: &[Piece] = &[PieceOf::Text(
    "& is the and of two BOOLEANs; there are no operations on the bits of a number",
)];

const NO_COMMENT: &[Piece] = &[PieceOf::Text(
    "no comment is open here; comments nest, and each (* has its own *)",
)];

/// Operators between operands.
const OPERATORS: &[Kind] = &[
    Kind::Plus,
    Kind::Minus,
    Kind::Times,
    Kind::Div,
    Kind::Mod,
    Kind::And,
    Kind::Or,
    Kind::NotEqual,
    Kind::Less,
    Kind::LessOrEqual,
    Kind::Greater,
    Kind::GreaterOrEqual,
];

/// Tokens with which no operand begins, and behind an operator nothing else may be meant.
const BEGIN_NO_OPERAND: &[Kind] = &[
    Kind::Semicolon,
    Kind::End,
    Kind::Else,
    Kind::Elsif,
    Kind::Until,
    Kind::Then,
    Kind::Do,
    Kind::Of,
    Kind::While,
    Kind::Repeat,
    Kind::RightParen,
    Kind::RightBracket,
    Kind::Comma,
];

const COMPARISON: &[Piece] = &[PieceOf::Text(
    "a comparison beside another one, or beside & or OR, stands in parentheses: (a > 0) & (b < 5)",
)];

const CHAINED: &[Piece] = &[PieceOf::Text(
    "there is one comparison in an expression: 0 <= x < n is written (0 <= x) & (x < n)",
)];

/// Signs that compare.
const RELATIONS: &[Kind] = &[
    Kind::Equal,
    Kind::NotEqual,
    Kind::Less,
    Kind::LessOrEqual,
    Kind::Greater,
    Kind::GreaterOrEqual,
];

const CONDITION: &[Piece] = &[PieceOf::Text(
    "a BOOLEAN is a condition by itself, as in IF b THEN and in IF ~b THEN",
)];

const NO_TRUTH: &[Piece] = &[PieceOf::Text(
    "write 1 for TRUE and 0 for FALSE, or declare the variable BOOLEAN",
)];

const LEADER: &[Piece] = &[PieceOf::Text(
    "behind the condition of IF and ELSIF stands THEN, behind that of WHILE stands DO",
)];

const ORDER: &[Piece] = &[PieceOf::Text(
    "declarations stand before BEGIN, in this order, each word once: CONST, TYPE, VAR, and then procedures",
)];

const TYPE_FORM: &[Piece] = &[PieceOf::Text(
    "the name of a type stands before its =, as in TYPE T = ARRAY 4 OF INTEGER",
)];

const NO_NAME: &[Piece] = &[PieceOf::Text("a name is missing before the :, as in x: INTEGER")];

const FIELD: &[Piece] = &[PieceOf::Text("the type of a field stands behind a colon: a: INTEGER")];

const NO_FIELD_VALUE: &[Piece] = &[PieceOf::Text(
    "a field is declared without a value, as a: INTEGER",
)];

const NO_FIELD_VAR: &[Piece] = &[PieceOf::Text(
    "no VAR stands before a field; it has its name and its type alone, as a: INTEGER",
)];

const NO_TYPE_VAR: &[Piece] = &[PieceOf::Text(
    "no VAR stands before a type; it stands once, before the names of the variables: VAR x, y: INTEGER",
)];

const NO_PARAMETER_VALUE: &[Piece] = &[PieceOf::Text(
    "a parameter has no value of its own; each call has an argument for each parameter",
)];

const COPIED: &[Piece] = &[PieceOf::Text(
    "a parameter without VAR has its name and its type alone, as x: INTEGER; what is handed over is copied",
)];

const NO_OPERAND: &[Piece] = &[PieceOf::Text(
    "the line before ends with an operator; is an operand missing behind it?",
)];

const NO_ASSIGNED: &[Piece] = &[PieceOf::Text(
    "a line ends behind the := before it; is a value missing there?",
)];

const SAID_OF_CASES: &[Piece] = &[PieceOf::Text(NO_CASE)];

const NO_SEMICOLON: &[Piece] = &[PieceOf::Text(
    "no ; stands between a condition and its THEN or DO",
)];

const ARRAY_TYPE: &[Piece] = &[PieceOf::Text(
    "an array type is written ARRAY 4 OF INTEGER; its indices are 0 to 3",
)];

const NO_OF: &[Piece] = &[PieceOf::Text("is OF missing before it?")];

const ARRAY_LENGTH: &[Piece] = &[PieceOf::Text(
    "the length of an array is one number; ARRAY 10 OF INTEGER has the elements 0 to 9",
)];

const NO_ARRAY_VALUE: &[Piece] = &[PieceOf::Text(
    "there are no values of whole arrays; assign element by element, as a[0] := 1; a[1] := 2",
)];

const NO_VALUE: &[Piece] = &[PieceOf::Text(
    "a variable is declared without a value, as x: INTEGER; what assigns one is a statement, and stands behind BEGIN",
)];

const NO_EXPORT: &[Piece] = &[PieceOf::Text(
    "only procedures are exported; no * stands behind other names",
)];

const NO_TYPE: &[Piece] = &[PieceOf::Text("behind names stand : and their type, as k: INTEGER")];

const NO_LIST: &[Piece] = &[PieceOf::Text(
    "behind names stand : and their type, and names of one type are separated by commas: j, k: INTEGER",
)];

const PROCEDURE: &[Piece] = &[PieceOf::Text(PROCEDURE_FORM)];

const FUNCTION: &[Piece] = &[PieceOf::Text(NO_FUNCTION_WORD)];

const OTHER_PROCEDURE: &[Piece] = &[PieceOf::Text(NO_OTHER_WORD)];

const NO_PROCEDURE: &[Piece] = &[PieceOf::Text(
    "is PROCEDURE missing before the name? An export is written PROCEDURE Get*(VAR v: INTEGER);",
)];

const NO_BEGIN: &[Piece] = &[PieceOf::Text(
    "statements stand behind BEGIN; is it missing before this one?",
)];

const ACTUALS: &[Piece] = &[PieceOf::Text(
    "the arguments of a call stand in parentheses, as P(a, 1)",
)];

const POINTER: &[Piece] = &[PieceOf::Text(NO_POINTER)];

const VARIABLES: &[Piece] = &[PieceOf::Text(
    "variables are declared behind VAR: VAR x, y: INTEGER",
)];

const NO_IN: &[Piece] = &[PieceOf::Text(
    "there are no sets and no IN; compare with each value, or ask an array of BOOLEANs",
)];

const TYPES: &[Piece] = &[PieceOf::Text(
    "types are declared behind TYPE, which stands before VAR: TYPE T = ARRAY 4 OF INTEGER;",
)];

const CONSTANTS: &[Piece] = &[PieceOf::Text(
    "constants are declared behind CONST, which stands before TYPE and VAR: CONST n = 4;",
)];

const ENDED_BY_DOT: &[Piece] = &[PieceOf::Text(
    "a . stands before a field and at the end of the module; statements are separated by ;, and declarations end with it",
)];

const NO_BLOCK: &[Piece] = &[PieceOf::Text(
    "there are no blocks: in a body, and behind THEN, ELSE, DO and REPEAT, statements stand without a BEGIN of their own",
)];

const NAME: &[Piece] = &[PieceOf::Text("a keyword is no name; take another one")];

const RANGE: &[Piece] = &[PieceOf::Text(
    "there are no ranges and no slices; one element is written a[i], and several are taken in a WHILE",
)];

const NO_RANGE: &[Piece] = &[PieceOf::Text("there are no ranges; the type of numbers is INTEGER")];

const HANDED: &[Piece] = &[PieceOf::Text(
    "a variable is handed over by its name alone, as P(x); the VAR stands in the heading of P",
)];

const IN_BODY: &[Piece] = &[PieceOf::Text(
    "variables are declared before BEGIN, behind VAR, the name before its type: VAR x: INTEGER;",
)];

const SEPARATED: &[Piece] = &[PieceOf::Text(
    "statements are separated by ;, and each assigns one variable: x := 1; y := 2",
)];

const FOREIGN_CALL: &[Piece] = &[PieceOf::Text(
    "there are no methods and no other modules; a call begins with the name of a procedure of this module, as P(a, 1)",
)];

const INPUT_OUTPUT: &[Piece] = &[PieceOf::Text(NO_INPUT_OUTPUT)];

/// Procedures by which modules of other languages read and print.
const OUTPUT_WORDS: &[&str] = &[
    "INT",
    "LN",
    "CHAR",
    "STRING",
    "REAL",
    "PRINT",
    "PRINTLN",
    "PRINTF",
    "WRITE",
    "WRITELN",
    "WRITELINE",
    "READ",
    "READLN",
    "READLINE",
];

/// Tokens that end a statement.
const END_STATEMENT: &[Kind] = &[
    Kind::Semicolon,
    Kind::End,
    Kind::Elsif,
    Kind::Else,
    Kind::Until,
];

/// Names that are meant to be keywords, calls, and what stands behind a heading.
pub const SIGN_ROWS: &[Row] = rows! {
    [Is(Fact::Keyword), Word(&["XOR"])] => &[PieceOf::Text("there is no XOR; of two BOOLEANs a # b says that one is TRUE and one is not")];
    [Is(Fact::KeywordFirst)] =>
        &[PieceOf::Text("is the name with which this statement begins meant to be "), PieceOf::Keyword, PieceOf::Text("?")];
    [Is(Fact::Keyword)] => &[PieceOf::Text("did you mean "), PieceOf::Keyword, PieceOf::Text("?")];
    [Is(Fact::SmallBeforeColon)] => &[PieceOf::Text("keywords are written in capitals, and no : stands behind them")];
    [Here(&[Kind::Comma]), Could(&[Kind::RightBracket]), Is(Fact::CallBracket)] => ACTUALS;
    [Last(&[Kind::RightBracket]), Could(&[Kind::Assign]), Is(Fact::CallBracket)] => ACTUALS;
    [Here(&[Kind::Semicolon]), Could(&[Kind::RightParen]), Word(&["FOR", "FOREACH"])] => &[PieceOf::Text(NO_FOR)];
    [Here(&[Kind::Assign, Kind::LeftParen]), Last(&[Kind::Ident]), Second(&[Kind::Dot]), Is(Fact::LineEnded)] => ENDED_BY_DOT;
    [Here(&[Kind::LeftParen]), Is(Fact::Unassigned), Is(Fact::BehindCall)] => NO_ASSIGNED;
    [Here(&[Kind::LeftParen]), Is(Fact::PartOfProcedure), Never(&[Kind::Assign])] => NO_FUNCTION;
    [Here(&[Kind::LeftParen]), Last(&[Kind::Ident]), Second(&[Kind::Dot]), Is(Fact::NoArray), Word(OUTPUT_WORDS)] => INPUT_OUTPUT;
    [Here(&[Kind::LeftParen]), Last(&[Kind::Ident]), Second(&[Kind::Dot]), Is(Fact::NoArray)] => FOREIGN_CALL;
    [Here(END_STATEMENT), Last(&[Kind::Ident]), Second(&[Kind::Dot]), Could(&[Kind::Assign]), Is(Fact::LineEnded)] => ENDED_BY_DOT;
    [Here(END_STATEMENT), Last(&[Kind::Ident]), Second(&[Kind::Dot]), Could(&[Kind::Assign]), Is(Fact::NoArray), Word(OUTPUT_WORDS)] =>
        INPUT_OUTPUT;
    [Here(END_STATEMENT), Last(&[Kind::Ident]), Second(&[Kind::Dot]), Could(&[Kind::Assign]), Is(Fact::NoArray)] => FOREIGN_CALL;
    [Here(END_STATEMENT), Last(&[Kind::Ident, Kind::RightBracket]), Could(&[Kind::Assign]), Never(&[Kind::LeftParen])] =>
        &[PieceOf::Text("a variable alone is no statement; an assignment changes it: x := x + 1")];
    [Here(&[Kind::LeftParen]), Could(&[Kind::LeftBracket]), Word(&["INTEGER", "BOOLEAN", "INT", "BOOL"])] => &[PieceOf::Text(
        "no type is made into another one; a BOOLEAN gives a number by IF b THEN x := 1 ELSE x := 0 END",
    )];
    [Here(&[Kind::LeftParen]), Could(&[Kind::LeftBracket]), Is(Fact::CallMeant)] =>
        &[NO_RESULT, PieceOf::Text(": "), PieceOf::First];
    [Here(&[Kind::LeftParen]), Could(&[Kind::LeftBracket]), Not(Fact::Foreign), Is(Fact::NoArray)] => NO_FUNCTION;
    [Here(&[Kind::LeftParen]), Could(&[Kind::LeftBracket]), Not(Fact::Foreign)] => INDEX;
    [Here(&[Kind::Colon]), Next(&[Kind::Ident, Kind::Array, Kind::Record]), Is(Fact::Heading)] => NO_FUNCTION;
    [Here(&[Kind::Ident]), Is(Fact::TypeThere), Is(Fact::Heading)] => NO_FUNCTION;
    [Sign("->"), Is(Fact::Heading)] => NO_FUNCTION;
    [Here(&[Kind::Ident]), Word(&["RETURNS"]), Is(Fact::Heading)] => NO_FUNCTION;
    [Here(&[Kind::Times]), Last(&[Kind::RightParen]), Is(Fact::Heading)] =>
        &[PieceOf::Text("the * of an export stands behind the name: PROCEDURE Get*(VAR v: INTEGER);")];
    [Here(&[Kind::Colon, Kind::Equal]), Is(Fact::Heading)] =>
        &[PieceOf::Text("the heading of a procedure ends with ;, as PROCEDURE P(k: INTEGER);")];
};

/// Signs in the place of an assignment, of a comparison or of a comment.
pub const SYMBOL_ROWS: &[Row] = rows! {
    [Is(Fact::Unfinished), Here(&[Kind::Assign])] => NO_OPERAND;
    [Is(Fact::Unfinished), Here(&[Kind::If, Kind::Procedure, Kind::Begin]), Could(&[Kind::Number])] => NO_OPERAND;
    [Is(Fact::Unfinished), Here(BEGIN_NO_OPERAND), Could(&[Kind::Number])] => NO_OPERAND;
    [Is(Fact::Unassigned), Here(&[Kind::Assign, Kind::If, Kind::While, Kind::Repeat])] => NO_ASSIGNED;
    [Here(&[Kind::Assign]), Last(&[Kind::Ident]), Second(&[Kind::Assign]), Is(Fact::LineEnded)] => NO_ASSIGNED;
    [Here(&[Kind::Equal]), Last(&[Kind::Assign])] => &[PieceOf::Text("is one = too many?")];
    [Here(&[Kind::Equal]), Last(&[Kind::Equal]), Not(Fact::Touching)] => &[PieceOf::Text("is one = too many?")];
    [Here(&[Kind::Assign]), Last(&[Kind::Assign, Kind::Equal])] => &[PieceOf::Text("is one := too many?")];
    [Here(&[Kind::Assign]), Last(&[Kind::RightParen]), Never(&[Kind::And])] => INDEX;
    [Here(&[Kind::Assign]), Could(&[Kind::Semicolon]), Is(Fact::BehindAssign)] => SEPARATED;
    [Sign("=:"), Could(&[Kind::Assign])] => &[PieceOf::Text("an assignment is written with :=")];
    [Here(&[Kind::Equal]), Could(&[Kind::Assign])] => &[PieceOf::Text("= compares, and := assigns")];
    [Sign("<-"), Could(&[Kind::Assign])] => &[PieceOf::Text("an assignment is written with :=")];
    [Sign("++"), Could(&[Kind::Assign])] => CHANGE;
    [Sign("--"), Could(&[Kind::Assign])] => CHANGE_DOWN;
    [Sign("+="), Could(&[Kind::Assign])] => CHANGE;
    [Sign("-="), Could(&[Kind::Assign])] => CHANGE_DOWN;
    [Sign("*="), Could(&[Kind::Assign])] => CHANGE_TIMES;
    [Sign("->"), Could(&[Kind::Assign])] => &[PieceOf::Text("there are no pointers; a field is written behind its record, as r.f")];
    [Here(&[Kind::Greater]), Last(&[Kind::Minus]), Is(Fact::Touching)] =>
        &[PieceOf::Text("there are no pointers; a field is written behind its record, as r.f")];
    [Sign("<<="), Could(&[Kind::Assign])] => &[PieceOf::Text(NO_SHIFT)];
    [Sign(">>="), Could(&[Kind::Assign])] => &[PieceOf::Text(NO_SHIFT)];
    [Here(RELATIONS), Could(&[Kind::And]), Never(&[Kind::Equal]), Is(Fact::Chained)] => CHAINED;
    [Here(RELATIONS), Could(&[Kind::And]), Never(&[Kind::Equal])] => COMPARISON;
    [
        Here(&[Kind::Plus]), Last(&[Kind::Plus]), Is(Fact::Touching),
        Next(&[Kind::RightBracket, Kind::RightParen, Kind::Semicolon, Kind::End, Kind::Comma, Kind::Then, Kind::Do, Kind::Assign])
    ] => CHANGE;
    [
        Here(&[Kind::Minus]), Last(&[Kind::Minus]), Is(Fact::Touching),
        Next(&[Kind::RightBracket, Kind::RightParen, Kind::Semicolon, Kind::End, Kind::Comma, Kind::Then, Kind::Do, Kind::Assign])
    ] => CHANGE_DOWN;
    [Here(&[Kind::Minus]), Last(&[Kind::Minus]), Is(Fact::Touching), Could(&[Kind::Number]), Never(&[Kind::Minus])] =>
        &[PieceOf::Text("a comment is written (* .. *); a sign behind an operator stands in parentheses, as 3 - (-k)")];
    [Here(&[Kind::Plus, Kind::Minus]), Could(&[Kind::Number]), Never(&[Kind::Minus])] => &[PieceOf::Text(
        "a sign stands only before the first operand of a sum; behind an operator it stands in parentheses, as 3 * (-k)",
    )];
    [Here(&[Kind::Times]), Last(&[Kind::Times]), Is(Fact::Touching), Could(&[Kind::Number])] =>
        &[PieceOf::Text("there are no powers; write a product, as x * x")];
    [Sign("--"), Never(&[Kind::Number, Kind::And, Kind::Assign])] =>
        &[PieceOf::Text("a comment is written (* .. *), and a variable is counted down by x := x - 1")];
    [Sign("++"), Never(&[Kind::Number, Kind::And, Kind::Assign])] => CHANGE;
    [Sign("#include")] => &[PieceOf::Text("there is no IMPORT; a module stands alone")];
    [Sign("#define")] => CONSTANTS;
    [Here(&[Kind::NotEqual]), Never(&[Kind::Number, Kind::And, Kind::Assign])] => HASH_COMMENT;
};

/// Keywords as names, blocks, and tokens among statements.
pub const STATEMENT_ROWS: &[Row] = rows! {
    [Is(Fact::ModuleEnded), Here(&[Kind::Module])] => &[PieceOf::Text("a file has one module")];
    [Is(Fact::KeywordThere), Last(&[Kind::Procedure, Kind::Module]), Could(&[Kind::Ident])] => NAME;
    [
        Is(Fact::KeywordThere),
        Next(&[Kind::Colon, Kind::Comma, Kind::Equal, Kind::Assign]),
        Could(&[Kind::Ident]),
        Never(&[Kind::Number])
    ] => NAME;
    [Here(&[Kind::Colon, Kind::Equal, Kind::Assign]), Is(Fact::InRecord), Could(&[Kind::Ident]), Never(&[Kind::Number, Kind::Array])] =>
        &[PieceOf::Text("the name of a field stands before its :, as in RECORD a: INTEGER END")];
    [Here(&[Kind::Equal, Kind::Assign]), Could(&[Kind::Ident, Kind::Type]), Never(&[Kind::While])] =>
        &[PieceOf::Text("the name of a constant stands before its =, as in CONST n = 4")];
    [Here(&[Kind::Equal, Kind::Assign]), Could(&[Kind::Ident, Kind::Var, Kind::Procedure]), Never(&[Kind::Type])] => TYPE_FORM;
    [Here(&[Kind::Equal, Kind::Assign]), Could(&[Kind::Ident, Kind::Procedure]), Never(&[Kind::Type, Kind::Var])] =>
        &[PieceOf::Text("a variable is declared by its name, a : and its type, as in VAR x: INTEGER")];
    [Here(&[Kind::Colon]), Could(&[Kind::Ident]), Never(&[Kind::Number, Kind::Array]), Is(Fact::InParens), Is(Fact::TypeNext)] => NO_NAME;
    [
        Here(&[Kind::Colon]), Could(&[Kind::Ident]), Never(&[Kind::Number, Kind::While, Kind::Var]),
        Last(&[Kind::Var, Kind::Comma, Kind::Semicolon]), Is(Fact::TypeNext)
    ] => NO_NAME;
    [
        Here(&[Kind::Colon]), Could(&[Kind::Ident]), Never(&[Kind::Number, Kind::While, Kind::Var]),
        Last(&[Kind::Var, Kind::Comma, Kind::Semicolon]), Next(&[Kind::Array, Kind::Record])
    ] => NO_NAME;
    [
        Here(&[Kind::Colon]), Last(&[Kind::Begin, Kind::End]), Not(Fact::TypeNext),
        Next(&[Kind::Ident, Kind::If, Kind::While, Kind::Repeat, Kind::End, Kind::Semicolon])
    ] => &[PieceOf::Text("no : stands behind BEGIN and END")];
    [Here(&[Kind::Colon]), Last(&[Kind::Const, Kind::Type, Kind::Var])] =>
        &[PieceOf::Text("no : stands behind CONST, TYPE and VAR; a variable is declared as in VAR x: INTEGER")];
    [Here(&[Kind::Colon, Kind::Equal]), Last(&[Kind::Begin, Kind::End, Kind::Procedure])] =>
        &[PieceOf::Text("the keyword before it is no name; take another one")];
    [Here(&[Kind::Begin]), Last(&[Kind::Then, Kind::Else, Kind::Do, Kind::Repeat])] => NO_BLOCK;
    [Here(&[Kind::Begin]), Could(&[Kind::While]), Is(Fact::Block)] => NO_BLOCK;
    [Here(&[Kind::Begin]), Could(&[Kind::While]), Not(Fact::StillOpen)] => NO_BLOCK;
    [Here(&[Kind::Then]), Last(&[Kind::Else])] =>
        &[PieceOf::Text("no THEN stands behind ELSE; a further case has a condition, and is written ELSIF b THEN")];
    [Here(&[Kind::Do]), Could(&[Kind::While])] =>
        &[PieceOf::Text("a loop whose condition stands behind it is written REPEAT .. UNTIL x = 3, and ends when that holds")];
    [Here(&[Kind::Colon]), Last(&[Kind::Then, Kind::Else, Kind::Do, Kind::Repeat])] =>
        &[PieceOf::Text("no : stands behind THEN, ELSE, DO and REPEAT")];
    [Here(&[Kind::Colon, Kind::Begin]), Could(&[Kind::Then])] => LEADER;
    [Here(&[Kind::Colon, Kind::Begin]), Could(&[Kind::Do])] => LEADER;
    [Here(&[Kind::If]), Could(&[Kind::Number])] =>
        &[PieceOf::Text("IF stands in no expression; write IF b THEN x := 1 ELSE x := 2 END")];
    [Here(&[Kind::Semicolon]), Could(&[Kind::Dot]), Never(&[Kind::LeftBracket])] =>
        &[PieceOf::Text("a . ends the module; a ; stands behind the name of a procedure that ends")];
    [Here(&[Kind::Semicolon, Kind::Dot]), Last(&[Kind::Module])] => &[PieceOf::Text("a module has a name: MODULE M; .. END M.")];
    [Here(&[Kind::Semicolon]), Last(&[Kind::Procedure])] =>
        &[PieceOf::Text("the name of a procedure stands behind PROCEDURE: PROCEDURE Get*(VAR v: INTEGER);")];
    [Here(&[Kind::LeftParen]), Last(&[Kind::Ident]), Second(&[Kind::Module])] =>
        &[PieceOf::Text("a module has no parameters; its procedures have them")];
    [Here(&[Kind::Until]), Could(&[Kind::End]), Not(Fact::StillOpen)] =>
        &[PieceOf::Text("no REPEAT is open here; each UNTIL ends one REPEAT")];
    [Here(&[Kind::Number]), Next(&[Kind::Colon, Kind::Comma]), Could(&[Kind::While])] => SAID_OF_CASES;
    [Here(&[Kind::Number, Kind::Not, Kind::LeftParen]), Could(&[Kind::While]), Not(Fact::StillOpen)] =>
        &[PieceOf::Text("an expression is no statement; an assignment keeps its value: x := x + 1")];
    [Here(&[Kind::Semicolon]), Last(&[Kind::Semicolon])] => &[PieceOf::Text("one ; is enough behind a declaration")];
    [Here(&[Kind::Then]), Could(&[Kind::Do])] => LEADER;
    [Here(&[Kind::Do]), Could(&[Kind::Then])] => LEADER;
    [Here(&[Kind::Procedure]), Could(&[Kind::While]), Is(Fact::InModule)] => ORDER;
    [Here(&[Kind::Semicolon]), Next(&[Kind::Then]), Could(&[Kind::Then])] => NO_SEMICOLON;
    [Here(&[Kind::Semicolon]), Next(&[Kind::Do]), Could(&[Kind::Do])] => NO_SEMICOLON;
    [Here(&[Kind::Colon]), Next(&[Kind::Equal]), Could(&[Kind::Assign])] =>
        &[PieceOf::Text(":= is one symbol, with no blank in it")];
    [Here(&[Kind::Dot]), Last(&[Kind::Number]), Next(&[Kind::Number])] =>
        &[PieceOf::Text(NO_REAL)];
    [
        Here(&[Kind::End, Kind::If, Kind::While, Kind::Repeat, Kind::Until, Kind::Else, Kind::Elsif]),
        Last(&[Kind::Dot]),
        Could(&[Kind::Ident])
    ] => ENDED_BY_DOT;
    [Sign(".\n"), Could(&[Kind::Semicolon])] => ENDED_BY_DOT;
    [Sign(".\r"), Could(&[Kind::Semicolon])] => ENDED_BY_DOT;
};

/// What separates statements and actuals, expressions as statements, parentheses, and words that stand between operands.
pub const SEPARATOR_ROWS: &[Row] = rows! {
    [Here(&[Kind::Colon]), Could(&[Kind::Assign]), Is(Fact::TypeNext)] => IN_BODY;
    [Here(&[Kind::Colon]), Could(&[Kind::Assign]), Next(&[Kind::Array, Kind::Record])] => IN_BODY;
    [Here(&[Kind::Colon]), Could(&[Kind::Assign]), Not(Fact::Actual)] =>
        &[PieceOf::Text("a : stands in declarations alone: there are no labels, and an assignment is written with :=")];
    [Here(&[Kind::Colon]), Could(&[Kind::Assign])] => &[PieceOf::Text("an assignment is written with :=")];
    [Here(&[Kind::Ident]), Could(&[Kind::Assign]), Is(Fact::TypeBefore)] => IN_BODY;
    [Here(&[Kind::Comma]), Could(&[Kind::Assign])] => SEPARATED;
    [Here(&[Kind::Comma, Kind::Colon]), Could(&[Kind::Semicolon, Kind::And, Kind::End])] => SEPARATED;
    [Here(&[Kind::Comma, Kind::Colon]), Could(&[Kind::Semicolon, Kind::And, Kind::Until])] => SEPARATED;
    [Here(&[Kind::Comma]), Could(&[Kind::Semicolon, Kind::And])] =>
        &[PieceOf::Text("behind a constant stands ;, and then the next one: a = 1; b = 2")];
    [Here(&[Kind::Semicolon]), Could(&[Kind::RightParen, Kind::Comma]), Is(Fact::ClosedBehind)] =>
        &[PieceOf::Text("the arguments of a call are separated by commas, as P(a, 1)")];
    [Here(&[Kind::And, Kind::Var]), Last(&[Kind::LeftParen, Kind::Comma]), Could(&[Kind::Number])] => HANDED;
    [Sign("*)")] => NO_COMMENT;
    [Here(&[Kind::RightParen]), Last(&[Kind::Times]), Is(Fact::Touching)] => NO_COMMENT;
    [Here(&[Kind::Times]), Could(&[Kind::While])] => POINTER;
    [Here(OPERATORS), Could(&[Kind::Assign]), Never(&[Kind::And])] =>
        &[PieceOf::Text("an expression is no statement; an assignment keeps its value: x := x + 1")];
    [Here(&[Kind::RightParen]), Is(Fact::Expected), Never(&[Kind::RightParen, Kind::Number, Kind::Colon, Kind::Ident])] =>
        &[PieceOf::Text("is a ( missing before it, or is it one ) too many?")];
    [Here(&[Kind::RightBracket]), Is(Fact::Expected), Never(&[Kind::RightBracket, Kind::Number, Kind::Ident])] =>
        &[PieceOf::Text("is a [ missing before it, or is it one ] too many?")];
    [Sign("IN "), Could(&[Kind::And])] => NO_IN;
    [Sign("in "), Word(&["IN"]), Could(&[Kind::And])] => NO_IN;
    [Sign("IS "), Could(&[Kind::And])] => &[PieceOf::Text("there is no IS; a variable has the one type of its declaration")];
    [Sign("is "), Word(&["IS"]), Could(&[Kind::And])] => &[PieceOf::Text("there is no IS; = compares two values, and # says that they differ")];
    [Here(&[Kind::Ident]), Last(&[Kind::Number]), Is(Fact::Touching)] => &[PieceOf::Text(
        "a number has the digits 0 to 9 alone, without hexadecimal digits or exponents; a name begins with a letter",
    )];
    [Last(OPERATORS), Here(BEGIN_NO_OPERAND), Could(&[Kind::Number])] =>
        &[PieceOf::Text("is an operand missing behind the operator before it, or is it one operator too many?")];
    [Last(&[Kind::Equal, Kind::Not]), Here(BEGIN_NO_OPERAND), Could(&[Kind::Number])] =>
        &[PieceOf::Text("is a value missing before it?")];
    [Last(&[Kind::Assign]), Here(BEGIN_NO_OPERAND), Could(&[Kind::Number])] => &[PieceOf::Text("is a value missing behind the :=?")];
    [Last(&[Kind::If, Kind::Elsif, Kind::While, Kind::Until]), Here(BEGIN_NO_OPERAND), Could(&[Kind::Number])] =>
        &[PieceOf::Text("is a condition missing before it?")];
    [Last(&[Kind::Assign, Kind::Equal, Kind::LeftParen, Kind::Comma]), Here(&[Kind::LeftBracket]), Could(&[Kind::Number])] => NO_ARRAY_VALUE;
    [Last(&[Kind::LeftBracket]), Here(&[Kind::RightBracket]), Could(&[Kind::Number])] =>
        &[PieceOf::Text("an index stands between [ and ]: a[i]")];
    [Last(&[Kind::LeftParen]), Here(&[Kind::RightParen]), Could(&[Kind::Number])] =>
        &[PieceOf::Text("an expression stands between ( and )")];
    [Last(&[Kind::Comma, Kind::LeftParen]), Here(&[Kind::RightParen, Kind::Comma]), Could(&[Kind::Number])] =>
        &[PieceOf::Text("is an argument missing before it? A comma stands between two arguments, as in P(a, 1)")];
};

/// Parameters, types, and ranges.
pub const TYPE_TOKEN_ROWS: &[Row] = rows! {
    [Here(&[Kind::Comma]), Last(&[Kind::Ident]), Second(&[Kind::Colon, Kind::Of])] =>
        &[PieceOf::Text("behind a type stands ;, and then the next names: a: INTEGER; b: BOOLEAN")];
    [Here(&[Kind::Comma]), Could(&[Kind::RightBracket])] =>
        &[PieceOf::Text("a further index stands in brackets of its own: a[i][j]")];
    [Here(&[Kind::Comma]), Could(&[Kind::Of])] =>
        &[PieceOf::Text("an array of arrays is written ARRAY 2 OF ARRAY 3 OF INTEGER")];
    [Here(&[Kind::Const]), Is(Fact::InParens), Could(&[Kind::Var])] => COPIED;
    [Here(&[Kind::Const]), Is(Fact::InParens), Could(&[Kind::Array])] => COPIED;
    [Here(&[Kind::Const]), Could(&[Kind::Array]), Is(Fact::TypeNext)] =>
        &[PieceOf::Text("no CONST stands before a type; a constant is declared behind CONST by its value alone: CONST n = 4")];
    [Here(&[Kind::Var]), Last(&[Kind::Colon]), Is(Fact::InParens)] =>
        &[PieceOf::Text("VAR stands before the name of the parameter: VAR x: INTEGER")];
    [Here(&[Kind::Var]), Last(&[Kind::Record])] => NO_FIELD_VAR;
    [Here(&[Kind::Var]), Last(&[Kind::Comma]), Is(Fact::InRecord)] => NO_FIELD_VAR;
    [Here(&[Kind::Var]), Could(&[Kind::Array]), Is(Fact::InRecord), Is(Fact::TypeNext)] => NO_FIELD_VAR;
    [Here(&[Kind::Var]), Last(&[Kind::Comma]), Never(&[Kind::Number])] =>
        &[PieceOf::Text("VAR stands once before the names of one type: VAR x, y: INTEGER")];
    [Here(&[Kind::Var]), Could(&[Kind::Array]), Is(Fact::TypeNext)] => NO_TYPE_VAR;
    [Here(&[Kind::Var]), Could(&[Kind::Array]), Next(&[Kind::Array, Kind::Record])] => NO_TYPE_VAR;
    [Here(&[Kind::RightParen]), Last(&[Kind::Semicolon]), Could(&[Kind::Var])] => &[PieceOf::Text("no ; stands before the ) of a heading")];
    [
        Here(&[Kind::Begin, Kind::Const, Kind::Type, Kind::Procedure, Kind::End]),
        Last(&[Kind::Semicolon]),
        Is(Fact::InParens),
        Could(&[Kind::Var])
    ] => &[PieceOf::Text("is a ) missing before the ; of the heading?")];
    [Here(&[Kind::LeftParen]), Last(&[Kind::Procedure])] =>
        &[PieceOf::Text("there are no methods; a record is handed over by a VAR parameter: PROCEDURE P(VAR r: R)")];
    [Here(&[Kind::LeftParen]), Last(&[Kind::Record])] => &[PieceOf::Text("no record extends another one; it has its own fields alone")];
    [Here(&[Kind::LeftParen]), Could(&[Kind::Array])] =>
        &[PieceOf::Text("there are no enumerations; declare constants, as CONST red = 0; green = 1, and the variable as an INTEGER")];
    [Here(&[Kind::Number]), Next(&[Kind::Dot]), Could(&[Kind::Array])] => NO_RANGE;
    [Here(&[Kind::Number, Kind::Minus]), Last(&[Kind::Equal]), Could(&[Kind::Array])] => CONSTANTS;
    [Here(&[Kind::Array, Kind::Record]), Last(&[Kind::Equal]), Could(&[Kind::Number])] => TYPES;
    [Here(&[Kind::Number]), Could(&[Kind::Array])] => NO_RANGE;
    [Here(&[Kind::Times, Kind::And]), Could(&[Kind::Array])] => POINTER;
    [Here(&[Kind::Semicolon, Kind::RightParen, Kind::End]), Could(&[Kind::Array])] => &[PieceOf::Text("is a type missing before it?")];
    [Here(&[Kind::LeftBracket]), Could(&[Kind::Array])] => ARRAY_TYPE;
    [Here(&[Kind::Of]), Last(&[Kind::Array]), Is(Fact::InParens)] =>
        &[PieceOf::Text("there are no open arrays; declare the type, as TYPE A = ARRAY 4 OF INTEGER, and the parameter as VAR v: A")];
    [Here(&[Kind::Dot]), Next(&[Kind::Dot]), Could(&[Kind::RightBracket])] => RANGE;
    [Here(&[Kind::Dot]), Last(&[Kind::Dot]), Is(Fact::Touching), Is(Fact::Expected)] => RANGE;
    [Here(&[Kind::Colon]), Could(&[Kind::RightBracket])] => RANGE;
    [Here(&[Kind::Equal, Kind::Assign]), Is(Fact::InParens), Last(&[Kind::Ident]), Second(&[Kind::Colon])] => NO_PARAMETER_VALUE;
};

/// Tokens in declarations.
pub const DECLARATION_ROWS: &[Row] = rows! {
    [Here(&[Kind::LeftBracket]), Could(&[Kind::Colon]), Is(Fact::TypeBehind)] => ARRAY_TYPE;
    [Here(&[Kind::Assign, Kind::LeftParen, Kind::LeftBracket, Kind::Dot]), Could(&[Kind::Colon]), Is(Fact::DeclaredBefore)] => NO_BEGIN;
    [
        Here(&[Kind::Assign, Kind::LeftParen, Kind::LeftBracket, Kind::Dot]),
        Could(&[Kind::Equal]),
        Never(&[Kind::Less]),
        Is(Fact::DeclaredBefore)
    ] => NO_BEGIN;
    [Here(&[Kind::Semicolon, Kind::End]), Could(&[Kind::Colon]), Is(Fact::BehindCall)] => NO_BEGIN;
    [Here(&[Kind::Equal]), Could(&[Kind::Colon]), Next(&[Kind::Array, Kind::Record]), Not(Fact::StillOpen)] => TYPES;
    [Here(&[Kind::Equal, Kind::Assign]), Could(&[Kind::Colon]), Is(Fact::InRecord), Is(Fact::TypeNext)] => FIELD;
    [
        Here(&[Kind::Equal, Kind::Assign]), Could(&[Kind::Colon]), Is(Fact::InRecord), Second(&[Kind::Record]),
        Next(&[Kind::Array, Kind::Record])
    ] => FIELD;
    [Here(&[Kind::Equal, Kind::Assign]), Could(&[Kind::Colon]), Is(Fact::InRecord), Not(Fact::StillOpen)] => NO_FIELD_VALUE;
    [Here(&[Kind::Equal, Kind::Assign]), Last(&[Kind::Ident]), Second(&[Kind::Colon, Kind::Of]), Is(Fact::InRecord)] => NO_FIELD_VALUE;
    [Here(&[Kind::Equal, Kind::Assign]), Could(&[Kind::Colon]), Is(Fact::TypeNext)] => NO_TYPE;
    [Here(&[Kind::Equal, Kind::Assign]), Could(&[Kind::Colon]), Is(Fact::InParens)] => NO_PARAMETER_VALUE;
    [Here(&[Kind::LeftBracket]), Could(&[Kind::Colon])] => ARRAY_TYPE;
    [Here(&[Kind::LeftBracket]), Last(&[Kind::Ident]), Second(&[Kind::Colon, Kind::Of])] => ARRAY_TYPE;
    [Here(&[Kind::LeftBracket]), Last(&[Kind::Array])] => ARRAY_LENGTH;
    [Here(&[Kind::Of]), Last(&[Kind::Array])] => ARRAY_TYPE;
    [Here(&[Kind::Dot]), Could(&[Kind::Of]), Next(&[Kind::Dot])] => ARRAY_LENGTH;
    [Here(&[Kind::Colon]), Could(&[Kind::Of])] => ARRAY_LENGTH;
    [Here(&[Kind::Equal, Kind::Assign]), Could(&[Kind::Colon]), Not(Fact::StillOpen)] => NO_VALUE;
    [Here(&[Kind::Equal, Kind::Assign]), Last(&[Kind::Ident]), Second(&[Kind::Colon, Kind::Of])] => NO_VALUE;
    [Here(&[Kind::Comma]), Second(&[Kind::Semicolon]), Could(&[Kind::Equal]), Never(&[Kind::Less])] => VARIABLES;
    [Here(&[Kind::Colon]), Second(&[Kind::Semicolon]), Could(&[Kind::Equal]), Never(&[Kind::Less])] => &[PieceOf::Text(
        "behind the name of a constant or of a type stands =; variables are declared behind VAR: VAR x, y: INTEGER",
    )];
    [Here(&[Kind::Colon, Kind::Array, Kind::Record, Kind::Number, Kind::Minus]), Could(&[Kind::Equal]), Never(&[Kind::Less])] =>
        &[PieceOf::Text("behind the name of a constant or of a type stands =")];
    [Here(&[Kind::Times]), Last(&[Kind::Procedure])] =>
        &[PieceOf::Text("the * of an export stands behind the name: PROCEDURE Get*")];
    [Here(&[Kind::Times]), Next(&[Kind::LeftParen, Kind::Semicolon]), Could(&[Kind::Colon])] => NO_PROCEDURE;
    [Here(&[Kind::Ident]), Next(&[Kind::Times]), Could(&[Kind::Procedure])] => NO_PROCEDURE;
    [Here(&[Kind::Times]), Could(&[Kind::Colon])] => NO_EXPORT;
    [Here(&[Kind::Times]), Could(&[Kind::Equal]), Never(&[Kind::Less])] => NO_EXPORT;
    [Here(&[Kind::Semicolon]), Next(&[Kind::Ident]), Could(&[Kind::Colon])] => NO_LIST;
    [Here(&[Kind::Semicolon, Kind::RightParen, Kind::Array, Kind::Record]), Could(&[Kind::Colon])] => NO_TYPE;
    [Here(&[Kind::Ident]), Could(&[Kind::Of]), Sign("of"), Word(&["OF"])] => &[PieceOf::Text(IN_CAPITALS)];
    [Here(&[Kind::Ident]), Could(&[Kind::Of]), Is(Fact::TypeThere)] => NO_OF;
    [Here(&[Kind::Array, Kind::Record]), Could(&[Kind::Of])] => NO_OF;
    [Here(&[Kind::Ident]), Could(&[Kind::Of])] => ARRAY_TYPE;
};

/// Tokens where other sections or statements may begin, and actuals without parentheses.
pub const SECTION_ROWS: &[Row] = rows! {
    [Word(&["PROCEDURE"]), Here(&[Kind::Ident]), Last(&[Kind::Ident]), Second(&[Kind::Semicolon]), Could(&[Kind::Colon])] => PROCEDURE;
    [Word(&["FUNCTION"]), Here(&[Kind::Ident]), Last(&[Kind::Ident]), Second(&[Kind::Semicolon]), Could(&[Kind::Colon])] => FUNCTION;
    [
        Word(FUNCTION_WORDS), Here(&[Kind::Ident]), Last(&[Kind::Ident]), Second(&[Kind::Semicolon]), Could(&[Kind::Colon]),
        Next(&[Kind::Times, Kind::LeftParen])
    ] => FUNCTION;
    [
        Word(PROCEDURE_WORDS), Here(&[Kind::Ident]), Last(&[Kind::Ident]), Second(&[Kind::Semicolon]), Could(&[Kind::Colon]),
        Next(&[Kind::Times, Kind::LeftParen])
    ] => OTHER_PROCEDURE;
    [Here(&[Kind::Ident]), Could(&[Kind::Colon]), Is(Fact::TypeBefore)] =>
        &[PieceOf::Text("a name stands before its type: x: INTEGER")];
    [Here(&[Kind::Ident]), Could(&[Kind::Colon]), Is(Fact::TypeThere)] => NO_TYPE;
    [Here(&[Kind::Ident]), Could(&[Kind::Var]), Next(&[Kind::Colon, Kind::Comma])] => VARIABLES;
    [Is(Fact::BeginsType), Could(&[Kind::Type])] => TYPES;
    [Is(Fact::BeginsConstant), Could(&[Kind::Const])] => CONSTANTS;
    [Here(&[Kind::Ident]), Could(&[Kind::Var]), Is(Fact::TypeThere)] =>
        &[PieceOf::Text("a variable is declared behind VAR, its name before its type: VAR x: INTEGER")];
    [
        Here(&[Kind::Ident]),
        Could(&[Kind::Begin]),
        Next(&[Kind::Assign, Kind::LeftParen, Kind::LeftBracket, Kind::Dot])
    ] => NO_BEGIN;
    [Here(&[Kind::Ident]), Could(&[Kind::Begin]), Next(&[Kind::Semicolon, Kind::End]), Not(Fact::Actual)] => NO_BEGIN;
    [Here(&[Kind::Ident]), Could(&[Kind::Begin]), Next(&[Kind::Colon, Kind::Comma])] => ORDER;
    [Is(Fact::BeginsType), Could(&[Kind::Begin])] => ORDER;
    [Is(Fact::BeginsConstant), Could(&[Kind::Begin])] => ORDER;
    [Here(&[Kind::Ident]), Could(&[Kind::Begin]), Next(&[Kind::Equal])] => NO_BEGIN;
    [Here(&[Kind::Const, Kind::Type, Kind::Var]), Could(&[Kind::Begin])] => ORDER;
    [Here(&[Kind::Const, Kind::Type, Kind::Var]), Could(&[Kind::While])] => ORDER;
    [Here(&[Kind::If, Kind::While, Kind::Repeat]), Could(&[Kind::Begin])] => NO_BEGIN;
    [Here(&[Kind::Number, Kind::Not]), Could(&[Kind::LeftParen, Kind::Assign]), Is(Fact::BehindCall)] => ACTUALS;
    [
        Here(&[Kind::Ident]),
        Could(&[Kind::LeftParen, Kind::Assign]),
        Is(Fact::BehindCall),
        Is(Fact::Actual)
    ] => ACTUALS;
    [Here(&[Kind::Ident]), Word(&["LOOP"]), Could(&[Kind::Do])] => LEADER;
};

/// Of a rule that is broken: a procedure in an expression, operators on comparisons, values of the other type, and parameters of exports and
/// with VAR.
pub const RULE_ROWS: &[Row] = rows! {
    [On(Number::C10), Not(Fact::InProcedure)] => &[PieceOf::Text(
        "keep the array or record in a variable of the module, and hand over single values, as in PROCEDURE Set*(i, value: INTEGER)",
    )];
    [
        On(Number::C3),
        Is(Fact::Procedure),
        Last(&[
            Kind::LeftParen, Kind::LeftBracket, Kind::Comma, Kind::Plus, Kind::Minus, Kind::Times, Kind::And, Kind::Not, Kind::Less,
            Kind::Greater, Kind::NotEqual, Kind::Assign, Kind::LessOrEqual, Kind::GreaterOrEqual, Kind::If, Kind::Elsif, Kind::While,
            Kind::Until, Kind::Array, Kind::Div, Kind::Mod, Kind::Or
        ])
    ] => NO_FUNCTION;
    [On(Number::C3), Is(Fact::Procedure), Next(&[Kind::Assign])] =>
        &[PieceOf::Text("there are no functions; a procedure gives its result by a VAR parameter: assign to that")];
    [On(Number::C3), Is(Fact::Constant), Next(&[Kind::Assign])] =>
        &[PieceOf::Text("a constant is never changed; what changes is declared in VAR")];
    [On(Number::C3), Sign(".\n")] => ENDED_BY_DOT;
    [On(Number::C3), Sign(".\r")] => ENDED_BY_DOT;
    [On(Number::C3), Here(&[Kind::LeftBracket]), Is(Fact::RecordBefore)] => &[PieceOf::Text("a field is written r.f")];
    [On(Number::C3), Here(&[Kind::LeftBracket]), Last(&[Kind::RightBracket])] => &[PieceOf::Text(
        "a further index stands behind an array of arrays, as of ARRAY 2 OF ARRAY 3 OF INTEGER",
    )];
    [On(Number::C3), Here(&[Kind::Dot]), Is(Fact::ArrayBefore), Word(&["LENGTH", "LEN", "SIZE", "COUNT"])] => &[PieceOf::Text(
        "the length of an array is the number in its type; declare it as CONST n = 4, and the type as ARRAY n OF INTEGER",
    )];
    [On(Number::C3), Here(&[Kind::Dot]), Is(Fact::ArrayBefore)] =>
        &[PieceOf::Text("an element is written a[i], and a field of it a[i].f")];
    [On(Number::C4), Here(&[Kind::Not]), Is(Fact::Compared)] =>
        &[PieceOf::Text("~ takes the one operand behind it; that a comparison does not hold is written ~(a = b), or a # b")];
    [On(Number::C4), Here(&[Kind::And, Kind::Or]), Is(Fact::Compared)] => COMPARISON;
    [On(Number::C4), Here(&[Kind::And]), Is(Fact::WrongBefore)] => NO_BITS;
    [On(Number::C4), Is(Fact::ArrayAssigned), Is(Fact::OtherSingle)] =>
        &[PieceOf::Text("is an element of the array meant before the :=, as a[i]?")];
    [On(Number::C4), Is(Fact::RecordAssigned), Is(Fact::OtherSingle)] =>
        &[PieceOf::Text("is a field of the record meant before the :=, as r.f?")];
    [On(Number::C4), Is(Fact::ArrayAssigned)] => &[PieceOf::Text("a loop does that: i := 0; WHILE i < n DO a[i] := b[i]; i := i + 1 END")];
    [On(Number::C4), Is(Fact::RecordAssigned)] => &[PieceOf::Text("that is done by r.f := s.f for each field f")];
    [
        On(Number::C4), Last(&[Kind::Assign, Kind::If, Kind::Elsif, Kind::While, Kind::Until, Kind::LeftBracket]), Is(Fact::OtherWhole),
        Is(Fact::ArrayBeside)
    ] => &[PieceOf::Text("take an element of it, as a[i]")];
    [
        On(Number::C4), Last(&[Kind::Assign, Kind::If, Kind::Elsif, Kind::While, Kind::Until, Kind::LeftBracket]), Is(Fact::OtherWhole),
        Is(Fact::RecordBeside)
    ] => &[PieceOf::Text("take a field of it, as r.f")];
    [On(Number::C4), Last(&[Kind::If, Kind::Elsif, Kind::While, Kind::Until]), Is(Fact::OtherSingle)] =>
        &[PieceOf::Text("a number is no condition; write a comparison, as x # 0")];
    [
        On(Number::C4), Last(&[Kind::Assign]), Here(&[Kind::Number]), Is(Fact::OtherSingle),
        Next(&[Kind::Semicolon, Kind::End, Kind::Elsif, Kind::Else, Kind::Until])
    ] => &[PieceOf::Text("a BOOLEAN is TRUE or FALSE")];
    [On(Number::C4), Last(&[Kind::Assign]), Word(&["TRUE", "FALSE"]), Is(Fact::OtherSingle), Next(END_STATEMENT)] => NO_TRUTH;
    [On(Number::C4), Last(&[Kind::Assign]), Is(Fact::OtherSingle)] => &[PieceOf::Made];
    [On(Number::C4), Is(Fact::WholeCompared), Is(Fact::ArrayBeside)] => &[PieceOf::Text("is an element of the array meant, as a[i]?")];
    [On(Number::C4), Is(Fact::WholeCompared), Is(Fact::RecordBeside)] => &[PieceOf::Text("is a field of the record meant, as r.f?")];
    [On(Number::C4), Last(&[Kind::Colon]), Is(Fact::InExport)] => &[PieceOf::Text(
        "parameters of an export are INTEGERs and BOOLEANs; hand over the parts one by one, each as a parameter",
    )];
    [On(Number::C4), Is(Fact::BooleanFirst)] => CONDITION;
    [On(Number::C4), Is(Fact::IntegerFirst)] => CONDITION;
    [On(Number::C7), Last(&[Kind::LeftParen, Kind::Comma])] => &[PieceOf::Text("put the value into a variable first, and hand that over")];
};
