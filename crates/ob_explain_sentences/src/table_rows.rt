//! What a row of the tables is made of. A row says where it is given and what it says; a new sentence is a new row, and nothing else.

use ob_scan::Kind;

/// A fault of a module's text, by its number.
#[derive(Clone, Copy, PartialEq, Eq)]
pub enum Number {
    S1,
    S2,
    S3,
    S4,
    S5,
    P1,
    P2,
    P3,
    C1,
    C2,
    C3,
    C4,
    C5,
    C6,
    C7,
    C8,
    C9,
    C10,
}

/// What may be seen at a place, beside its tokens.
#[derive(Clone, Copy, PartialEq, Eq)]
pub enum Fact {
    /// The byte there is no ASCII.
    NotAscii,
    /// A number ends before it, or a minus.
    BehindDigits,
    BehindMinus,
    /// A `:`, a `=` or an OF stands before it.
    TypeAwaited,
    /// A word CASE stands before it.
    BehindCase,
    /// A comment of another language begins there, a quotient between two operands, a comparison, or a text of several letters.
    CommentThere,
    QuotientThere,
    ComparisonThere,
    TextThere,
    /// A brace stands there for this keyword, or for none.
    ThenMeant,
    DoMeant,
    BeginMeant,
    NothingMeant,
    /// Some token could stand there.
    Expected,
    /// A keyword stands there.
    KeywordThere,
    /// It stands behind the END, the name and the `.` of the module.
    ModuleEnded,
    /// A name is meant to be a keyword, and it is the one before.
    Keyword,
    KeywordBefore,
    /// The name with which the statement begins is meant to be a keyword.
    KeywordFirst,
    /// The last token and the one there touch.
    Touching,
    /// The word before is one of another language; it names no array; it names a procedure; the text declares it.
    Foreign,
    NoArray,
    BehindCall,
    DeclaredBefore,
    /// The call is meant to hand over the variable before it too; the length of the array in its parentheses is known.
    CallMeant,
    LengthTold,
    /// Brackets begin there, and behind them a type.
    TypeBehind,
    /// The statement begins with the name of a procedure and a `[`.
    CallBracket,
    /// What stands there is an actual and begins no statement.
    Actual,
    /// The name there, or before it, or before the `:` behind which a name stands before it, is a keyword but for small letters, with a
    /// `:` behind it, and no type behind that.
    SmallBeforeColon,
    /// Before it stand the name of a procedure, a `.` and a name.
    PartOfProcedure,
    /// The line before ends with an operator, and the token there begins its own line, or is a `:=` behind what may be assigned.
    Unfinished,
    /// The line before ends with a `:=`, and the token there begins its own line, or stands behind what begins a statement of its own.
    Unassigned,
    /// A `:=` stands before it in its statement.
    BehindAssign,
    /// Before it stands one comparison, without & and OR behind it.
    Chained,
    /// The heading of a procedure could end there.
    Heading,
    /// It stands in no procedure and no statement.
    InModule,
    /// A name stands there, behind it a `=`, and behind that a type; or what is no type, and the text does not declare the name.
    BeginsType,
    BeginsConstant,
    /// A line ends behind the last but one token before it.
    LineEnded,
    /// A `)` behind it closes what is open there.
    ClosedBehind,
    /// A BEGIN stands there, and the END that closes it has no name behind it.
    Block,
    /// The word before is the name of a type; the one there is; the next one is.
    TypeBefore,
    TypeThere,
    TypeNext,
    /// The END before closes a module or a procedure; an UNTIL ended the last statement in it.
    UnitEnded,
    UntilBefore,
    /// The name there is that of a procedure or module around what ends.
    OuterName,
    /// The name there stands elsewhere too, in no heading, and that of the heading of what ends nowhere else.
    Renamed,
    /// An IF or WHILE stands there without a condition.
    Repeated,
    /// A construct is still open, and it is a REPEAT.
    StillOpen,
    OpenRepeat,
    /// An IF behind an ELSE stands in it; it has its own ELSE before.
    InnerIf,
    BehindElse,
    /// A name stands in it as a whole statement that is meant to be END.
    Lone,
    /// No IF is open.
    NoIf,
    /// A REPEAT is to end there.
    RepeatEnd,
    /// This token is missing before it.
    NoThen,
    NoDo,
    NoSemicolon,
    NoBracket,
    NoParen,
    NoComma,
    NoLeftParen,
    NoOperator,
    /// An END is missing before it, and the name of what ends stands there.
    NoEnd,
    /// A call ends there whose name no procedure has.
    UndeclaredCall,
    /// A name that is near, that is needed, or that stands for this.
    Near,
    Named,
    /// A constant, a type or a procedure of this name is declared further down.
    FurtherDown,
    /// A field has this name; a variable of a procedure that has ended has it; the type has it in whose declaration it stands, or
    /// something else has it in whose declaration it stands.
    Field,
    Elsewhere,
    OwnType,
    OwnName,
    /// The word is a type of numbers of another language.
    NumberType,
    /// It stands in a record; the name is declared before.
    InRecord,
    Before,
    /// What the name stands for.
    Constant,
    TypeName,
    Variable,
    Procedure,
    /// What stands before it is a whole array, or a whole record.
    ArrayBefore,
    RecordBefore,
    /// The operand of another type stands before the operator, behind it, or on a side that is not known.
    WrongBefore,
    WrongBehind,
    WrongSide,
    /// Beside an operator on BOOLEANs stands a comparison.
    Compared,
    /// What is compared: an INTEGER with a BOOLEAN, the other way round, or what is not known.
    IntegerFirst,
    BooleanFirst,
    NoPair,
    /// Behind the sign stands what it does not take, or what is not known.
    WrongSigned,
    UnknownSigned,
    /// Whole arrays or records are compared; a whole array stands where a single value is meant, or a whole record.
    WholeCompared,
    ArrayBeside,
    RecordBeside,
    /// An expression is of another type than is wanted: a single value, a whole array or record, or what is not known.
    Other,
    OtherSingle,
    OtherWhole,
    OtherUnknown,
    /// A whole array is assigned to, or a whole record.
    ArrayAssigned,
    RecordAssigned,
    /// Two arrays, or two records, are of two types.
    TwoArrays,
    TwoRecords,
    /// A whole array stands in an expression, or a whole record.
    ArrayThere,
    RecordThere,
    /// The first operand, or the fields, and the second operand are known.
    First,
    Second,
    /// It stands in parentheses; in a procedure; in the heading of an export.
    InParens,
    InProcedure,
    InExport,
    /// Words of variables are counted; how many words there are is known.
    Counted,
    Words,
}

/// A type, as it is told.
#[derive(Clone, Copy, PartialEq, Eq)]
pub enum Type {
    Integer,
    Boolean,
    /// An INTEGER or a BOOLEAN.
    Single,
    Array,
    Record,
    Unknown,
}

/// A condition on a place. (A clause can name a table only if no type in it declares a reference, so texts and lists are parameters,
/// here and below.)
#[derive(Clone, Copy)]
pub enum WhenOf<Text, Texts, Kinds> {
    /// The fault has this number.
    On(Number),
    /// One of these tokens stands there, before it, as the last but one before it, or next behind it.
    Here(Kinds),
    Last(Kinds),
    Second(Kinds),
    Next(Kinds),
    /// Each of these could stand there; none of these could.
    Could(Kinds),
    Never(Kinds),
    /// The bytes from there on begin so.
    Sign(Text),
    /// One of these words stands there, or before it, in small letters or large, and is no name that the text declares.
    Word(Texts),
    /// This is seen, or it is not.
    Is(Fact),
    Not(Fact),
}

/// A part of a sentence: its own text, or a slot for what is known of the fault.
#[derive(Clone, Copy)]
pub enum PieceOf<Text> {
    Text(Text),
    /// A name as it is written.
    Name,
    /// Two numbers as they are written; the first is a list of fields or a call too, the second the length of an array.
    First,
    Second,
    /// What could stand there.
    Could,
    /// A keyword or an operator as it is spelled; how a keyword is told.
    Opening,
    Keyword,
    /// The number of a line, and of another one.
    Line,
    OtherLine,
    /// A name that stands as a whole statement, and the number of its line.
    Lone,
    LoneLine,
    /// How many there are, and an `s` unless it is one; and how many there should be.
    Count,
    CountEnd,
    Most,
    MostEnd,
    /// The type that is wanted, and the one that stands there; how a value of the wanted type is made of one of the other type.
    Wanted,
    Found,
    Made,
}

/// A sentence or a hint, or an end of one: it is given where all its conditions hold.
#[derive(Clone, Copy)]
pub struct RowOf<Conditions, Pieces> {
    pub when: Conditions,
    pub said: Pieces,
}

pub type When = WhenOf<&'static str, &'static [&'static str], &'static [Kind]>;

pub type Piece = PieceOf<&'static str>;

pub type Row = RowOf<&'static [When], &'static [Piece]>;
