//! Which mending is chosen, by what stands at a fault of a text: the first one with which the text has no fault, or one further on. Which sorts
//! are tried, and in which order, is a matter of taste: rows of the tests show it.

use crate::declarations::{prefix_mending, swapped_mending};
use crate::ends::{
    import_mending, inner_end, missing_dot, missing_end, nameless_end, unended_mending,
};
use crate::marks::{mark_mending, semicolon_behind};
use crate::names::{end_mending, near_mending};
use crate::numbers::hexadecimal_mending;
use crate::operands::{call_mending, index_mending, size_mending};
use crate::words::{
    alone_before, alone_there, colon_mending, keyword_mending, misspelt_before, misspelt_first,
    misspelt_there, pointer_mending, record_mending, type_mending,
};
use ob_check::TextFault;
use ob_evidence::small_keywords::first_of_statement;
use ob_evidence::text_site::{Site, is_kind, kind_or_name, look_around};
use ob_explain_names::expected::expected_kinds;
use ob_explain_sentences::first_word::word_at;
use ob_explain_sentences::place::halves;
use ob_mendings::comments::{comment_mending, line_mending, word_mending, words_mending};
use ob_mendings::fix::{SEMICOLON_THERE, fixed};
use ob_mendings::mending::{Mending, Told, mended};
use ob_mendings::origin::{Move, origin};
use ob_mendings::part::{is_in_body, part_mending};
use ob_mendings::rewritten::{count_mending, for_mending, paren_mending};
use ob_mendings::sections::order_mending;
use ob_mendings::signs::{assign_mending, byte_mending, number_mending, sign_mending};
use ob_mendings::tokens::{ends_line, length_of};
use ob_mendings::verdict::verdict;
use ob_parser::parser::ParseFault;
use ob_part_mendings::constructs::{
    bar_mending, block_mending, body_mending, choice_mending, empty_mending, level_mending,
    loop_mending, whole_mending,
};
use ob_part_mendings::declarations::{
    declared_mending, headed_mending, initial_mending, late_mending, listed_mending, local_mending,
    moved_mending, parameter_mending, twice_mending,
};
use ob_part_mendings::headings::{
    export_mending, heading_mending, late_star_mending, star_mending,
};
use ob_part_mendings::values::{
    length_mending, not_mending, out_mending, range_mending, result_mending, truth_mending,
    typed_mending, value_mending, var_mending,
};
use ob_scan::{Kind, ScanFault};
use ob_scopes::fault::CheckFault;
use ob_typing::rule::Rule;
use std::alloc::{AllocError, Global};

/// A sort of mendings.
#[derive(Clone, Copy)]
enum Sort {
    /// A byte that begins no token, and a number that is too large.
    Byte,
    Number,
    /// A hexadecimal number, a sign of another language, and an `=` that is meant to assign.
    Hexadecimal,
    Sign,
    Assign,
    /// A keyword in small letters, or a word of another language: there, before it, or where the statement begins.
    WordThere,
    WordBefore,
    WordFirst,
    /// A keyword that is misspelt.
    MisspeltThere,
    MisspeltBefore,
    MisspeltFirst,
    /// The word before a name that is declared.
    Prefix,
    /// A type before its name, POINTER TO before one, and a word for RECORD.
    Swapped,
    Pointer,
    Record,
    /// An index between parentheses, a call in an assignment, and the length of an array.
    Index,
    Call,
    Size,
    /// By the tokens around the place.
    Mark,
    /// A keyword in small letters before a `:`; one that stands alone, before the place or there.
    Colon,
    AloneBefore,
    AloneThere,
    /// An IMPORT; the `.` at the end; an END without its name.
    Import,
    Dot,
    Nameless,
    /// A line that begins with `#`, words and a word behind a `#`, a comment that is open at the end, the `*` of an export.
    Line,
    Words,
    Word,
    Comment,
    Export,
    /// An END or a `;` that is missing.
    End,
    Semicolon,
    /// A second VAR where a line ends without a `;`.
    SecondVar,
    /// A type of another language, a near name, one that is declared twice, and one behind an END.
    Type,
    Near,
    Twice,
    EndName,
    /// A section that stands behind what belongs behind it.
    Order,
    /// A variable that is counted up, a FOR, and comparisons without parentheses.
    Count,
    For,
    Paren,
    /// The statement or the condition; a value, a length or a type; the type of a result.
    Part,
    Value,
    Result,
    /// A VAR before a type, and a length that is written as two indices.
    Var,
    Range,
    /// A type of a constant, a parameter with OUT behind its name, a length behind a type, a `*` before the name of a procedure, and a procedure without its END.
    Typed,
    Out,
    Length,
    Star,
    Unended,
    /// A `~` before a comparison, a 0 or a 1 for FALSE or TRUE, and an END that is missing before another one.
    Not,
    Truth,
    Inner,
    /// A name of another level. A block that ends before an ELSE, a CASE, there or at a `|` in it, a `? :`, a FOR of another form, a variable
    /// declared where it is assigned first, a VAR in a body, an assignment of nothing, and the whole body.
    Block,
    Whole,
    Bar,
    Choice,
    Loop,
    Local,
    Late,
    Empty,
    Level,
    Body,
    /// A procedure that is declared further down, the whole or its heading alone, a name that is not declared, a type that lists names, a variable declared with a value, a
    /// parameter without VAR, the name in a heading, and a `*` behind one.
    Moved,
    Headed,
    Declared,
    Listed,
    Initial,
    Parameter,
    Heading,
    LateStar,
}

/// The sorts that are tried where a token can't stand.
const OF_TOKENS: &[Sort] = &[
    Sort::Count,
    Sort::Block,
    Sort::Whole,
    Sort::Local,
    Sort::Late,
    Sort::Line,
    Sort::Import,
    Sort::Dot,
    Sort::Nameless,
    Sort::Hexadecimal,
    Sort::Sign,
    Sort::Assign,
    Sort::WordThere,
    Sort::WordBefore,
    Sort::WordFirst,
    Sort::MisspeltThere,
    Sort::MisspeltBefore,
    Sort::MisspeltFirst,
    Sort::Out,
    Sort::Record,
    Sort::Length,
    Sort::Prefix,
    Sort::Swapped,
    Sort::Pointer,
    Sort::Index,
    Sort::Call,
    Sort::Size,
    Sort::For,
    Sort::Loop,
    Sort::Paren,
    Sort::Star,
    Sort::LateStar,
    Sort::Typed,
    Sort::Listed,
    Sort::Initial,
    Sort::Empty,
    Sort::Unended,
    Sort::Mark,
    Sort::Order,
    Sort::Colon,
    Sort::AloneBefore,
    Sort::End,
    Sort::Words,
    Sort::Semicolon,
    Sort::SecondVar,
    Sort::Part,
    Sort::Result,
    Sort::Var,
    Sort::Range,
    Sort::Value,
    Sort::Body,
];

/// Those where none of a name is visible.
const OF_NAMES: &[Sort] = &[
    Sort::AloneThere,
    Sort::Word,
    Sort::Type,
    Sort::Near,
    Sort::Count,
    Sort::Moved,
    Sort::Headed,
    Sort::Declared,
    Sort::Part,
    Sort::Value,
    Sort::Body,
];

/// A mending of the text of a fault, where one is known.
pub(crate) fn slip_mending(
    alloc: Global,
    text: &[u8],
    fault: TextFault,
) -> Result<Option<Mending>, AllocError> {
    let Some(place) = place_of(fault) else {
        return Ok(None);
    };
    let found = look_around(alloc, text, place)?;
    let site = found.site(text, place);
    for sort in sorts_of(fault) {
        if let Some(mending) = mending_of(alloc, &site, *sort)?
            && helps(alloc, &site, fault, &mending)?
        {
            return Ok(Some(mending));
        }
    }
    Ok(None)
}

/// The sorts that are tried at a fault, in this order.
fn sorts_of(fault: TextFault) -> &'static [Sort] {
    match fault {
        TextFault::Scan(ScanFault::StrayByte(_)) => &[Sort::Bar, Sort::Choice, Sort::Byte],
        TextFault::Scan(ScanFault::NumberTooLarge(_)) => &[Sort::Number],
        TextFault::Scan(ScanFault::OpenComment(_)) => &[Sort::Comment],
        TextFault::Parse(ParseFault::Unexpected(_)) => OF_TOKENS,
        TextFault::Parse(ParseFault::NameDiffers(_)) => {
            &[Sort::Heading, Sort::EndName, Sort::Inner, Sort::Body]
        }
        TextFault::Check(CheckFault::Broken(broken)) => match broken.rule {
            Rule::UnknownName => OF_NAMES,
            Rule::DeclaredTwice => &[Sort::Twice],
            Rule::BadExport => &[Sort::Export],
            Rule::WrongLevel => &[Sort::Level, Sort::Part, Sort::Body],
            _ => &[
                Sort::Size,
                Sort::Not,
                Sort::Truth,
                Sort::Paren,
                Sort::Part,
                Sort::Parameter,
                Sort::Value,
                Sort::Body,
            ],
        },
        _ => &[],
    }
}

/// The mending of a sort at a place, if there is one.
fn mending_of(
    alloc: Global,
    site: &Site<'_, '_>,
    sort: Sort,
) -> Result<Option<Mending>, AllocError> {
    match sort {
        Sort::Byte => byte_mending(alloc, site.text, site.place),
        Sort::Number => number_mending(alloc, site.text, site.place),
        Sort::Hexadecimal => hexadecimal_mending(alloc, site),
        Sort::Sign => sign_mending(alloc, site.text, site.place),
        Sort::Assign => assign_mending(alloc, site),
        Sort::WordThere => keyword_mending(alloc, site, site.here()),
        Sort::WordBefore => keyword_mending(alloc, site, site.last()),
        Sort::WordFirst => keyword_mending(alloc, site, first_of_statement(site)),
        Sort::MisspeltThere => misspelt_there(alloc, site),
        Sort::MisspeltBefore => misspelt_before(alloc, site),
        Sort::MisspeltFirst => misspelt_first(alloc, site),
        Sort::Prefix => prefix_mending(alloc, site),
        Sort::Swapped => swapped_mending(alloc, site),
        Sort::Mark => mark_mending(alloc, site),
        Sort::Colon => colon_mending(alloc, site),
        Sort::AloneBefore => alone_before(alloc, site),
        Sort::AloneThere => alone_there(alloc, site),
        Sort::Line => line_mending(alloc, site),
        Sort::Comment => comment_mending(alloc, site.text, site.place),
        Sort::Export => export_mending(alloc, site),
        Sort::Words => words_mending(alloc, site),
        Sort::Word => word_mending(alloc, site),
        Sort::Order => order_mending(alloc, site),
        Sort::Count => count_mending(alloc, site),
        Sort::For => for_mending(alloc, site),
        Sort::Paren => paren_mending(alloc, site),
        Sort::Import => import_mending(alloc, site),
        Sort::Dot => missing_dot(alloc, site),
        Sort::Nameless => nameless_end(alloc, site),
        Sort::End => missing_end(alloc, site),
        Sort::Semicolon => missing_semicolon(alloc, site),
        Sort::SecondVar => second_var(alloc, site),
        Sort::Type => type_mending(alloc, site),
        Sort::Near => near_mending(alloc, site),
        Sort::Twice => twice_mending(alloc, site),
        Sort::EndName => end_mending(alloc, site),
        Sort::Part => part_mending(alloc, site),
        Sort::Value => value_mending(alloc, site),
        Sort::Index => index_mending(alloc, site),
        Sort::Call => call_mending(alloc, site),
        Sort::Size => size_mending(alloc, site),
        Sort::Pointer => pointer_mending(alloc, site),
        Sort::Record => record_mending(alloc, site),
        Sort::Typed => typed_mending(alloc, site),
        Sort::Out => out_mending(alloc, site),
        Sort::Length => length_mending(alloc, site),
        Sort::Star => star_mending(alloc, site),
        Sort::Unended => unended_mending(alloc, site),
        Sort::Var => var_mending(alloc, site),
        Sort::Not => not_mending(alloc, site),
        Sort::Truth => truth_mending(alloc, site),
        Sort::Inner => inner_end(alloc, site),
        Sort::Range => range_mending(alloc, site),
        Sort::Result => result_mending(alloc, site),
        Sort::Block => block_mending(alloc, site),
        Sort::Listed => listed_mending(alloc, site),
        Sort::Whole => whole_mending(alloc, site),
        Sort::Bar => bar_mending(alloc, site.text, site.place),
        Sort::Choice => choice_mending(alloc, site.text, site.place),
        Sort::Loop => loop_mending(alloc, site),
        Sort::Local => local_mending(alloc, site),
        Sort::Late => late_mending(alloc, site),
        Sort::Empty => empty_mending(alloc, site),
        Sort::Level => level_mending(alloc, site),
        Sort::Body => body_mending(alloc, site),
        Sort::Moved => moved_mending(alloc, site),
        Sort::Headed => headed_mending(alloc, site),
        Sort::Declared => declared_mending(alloc, site),
        Sort::Initial => initial_mending(alloc, site),
        Sort::Parameter => parameter_mending(alloc, site),
        Sort::Heading => heading_mending(alloc, site),
        Sort::LateStar => late_star_mending(alloc, site),
    }
}

/// The mending that puts a `;` before the place, where a line ends.
fn missing_semicolon(alloc: Global, site: &Site<'_, '_>) -> Result<Option<Mending>, AllocError> {
    let (before, _) = halves(site.text, site.place);
    let could = expected_kinds(alloc, site.text, site.place)?;
    if ends_line(before) && could.contains(&Kind::Semicolon) {
        semicolon_behind(alloc, site)
    } else {
        Ok(None)
    }
}

/// The mending that puts a `;` in place of a second VAR, where a line ends.
fn second_var(alloc: Global, site: &Site<'_, '_>) -> Result<Option<Mending>, AllocError> {
    let (before, _) = halves(site.text, site.place);
    if is_kind(site.here(), Kind::Var) && ends_line(before) {
        fixed(alloc, site.place, length_of(site.here()), SEMICOLON_THERE)
    } else {
        Ok(None)
    }
}

/// Whether a text has no fault with a mending, or one further on.
fn helps(
    alloc: Global,
    site: &Site<'_, '_>,
    fault: TextFault,
    mending: &Mending,
) -> Result<bool, AllocError> {
    let whole = mended(alloc, site.text, mending)?;
    match verdict(alloc, &whole)? {
        Some(next) => Ok(
            (is_further(mending.moves(), fault, next) || ends_section(site, mending, next))
                && is_shown(site.text, &whole, mending, next),
        ),
        None => Ok(true),
    }
}

/// Whether a mending puts the `;` that is missing among declarations before a section which stands too late: the fault behind it is that.
fn ends_section(site: &Site<'_, '_>, mending: &Mending, next: TextFault) -> bool {
    let is_section = matches!(
        kind_or_name(site.here()),
        Kind::Const | Kind::Type | Kind::Var
    );
    match (place_of(next), mending.put.as_slice()) {
        (Some(place), [b';']) => {
            is_section
                && mending.taken == 0
                && !is_kind(site.last(), Kind::Semicolon)
                && !is_in_body(site.before)
                && origin(mending.moves(), place) == site.place
        }
        _ => false,
    }
}

/// Whether the place at which a fault of the text with a mending is shown in the text is its own: not in what the mending moved, and in what it
/// writes anew only at the first byte, or at the word that stood there.
fn is_shown(text: &[u8], whole: &[u8], mending: &Mending, fault: TextFault) -> bool {
    let Some(place) = place_of(fault) else {
        return false;
    };
    if origin(mending.moves(), place) != mending.place {
        return true;
    }
    let word = word_at(halves(whole, place).1);
    let own = word_at(halves(text, mending.place).1);
    match mending.told {
        Told::Line(_, _) => false,
        Told::Put(_) => place == mending.place || !word.is_empty() && word == own,
        Told::Words(_) => true,
    }
}

/// Whether a fault of the text with a mending stands further on than that which was to be mended: bytes are looked at before tokens, and tokens
/// before rules, each in the order of the text but the rules.
fn is_further(moved: Move, before: TextFault, fault: TextFault) -> bool {
    let (Some(place), Some(last)) = (place_of(fault), place_of(before)) else {
        return false;
    };
    let own = origin(moved, place);
    if stage_of(fault) != stage_of(before) {
        stage_of(before) < stage_of(fault)
    } else if stage_of(fault) == RULES {
        own != last
    } else {
        last < own
    }
}

/// Rules are looked at last.
const RULES: usize = 2;

/// When a fault is looked for.
fn stage_of(fault: TextFault) -> usize {
    match fault {
        TextFault::Scan(_) => 0,
        TextFault::Parse(_) => 1,
        _ => RULES,
    }
}

/// Where a fault stands, if it has a place.
fn place_of(fault: TextFault) -> Option<usize> {
    match fault {
        TextFault::Scan(
            ScanFault::StrayByte(place)
            | ScanFault::NumberTooLarge(place)
            | ScanFault::OpenComment(place)
            | ScanFault::NameTooLong(place),
        ) => Some(place),
        TextFault::Parse(
            ParseFault::Unexpected(place)
            | ParseFault::TooDeep(place)
            | ParseFault::NameDiffers(place),
        ) => Some(place),
        TextFault::Check(CheckFault::Broken(broken)) => Some(broken.place),
        _ => None,
    }
}
