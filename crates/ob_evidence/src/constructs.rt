//! The constructs that are open at a place, and what an END before it closes.

ghost use Rattle.std.specs.Prelude.{◌≡◌, None, Some};
ghost use Rattle.ob_explain_tokens.specs.Open.{IsOpenConstruct};
ghost use Rattle.ob_evidence.specs.Constructs.{AreOpen, AreShown, IsInner, IsOpen, inner_of, opening_of};
ghost use Rattle.ob_evidence.specs.Sites.{rest_of, scene_of};

use crate::text_site::{Site, is_kind, kind_of, rest_of};
use ob_explain_sentences::table_rows::Fact;
use ob_explain_tokens::actuals::ends_call;
use ob_explain_tokens::open::{else_if, is_unit, open_construct};
use ob_scan::{Kind, Token};

/// What constructs show at a place: a fact, the token that opens the construct, and an IF behind an ELSE in it.
#[derive(Clone, Copy)]
pub struct Shown {
    pub fact: Fact,
    pub opening: Option<Token>,
    pub inner: Option<Token>,
}

/// What the constructs around a place show, where tokens of these kinds could stand.
pub fn shown_there(site: &Site<'_, '_>, could: &[Kind]) -> Option<Shown>
    ensures { AreShown (scene_of site.now) result }
{
    match behind_end(site) {
        Some(shown) => Some(shown),
        None => of_open(site, could),
    }
}

/// What the END before a place shows.
fn behind_end(site: &Site<'_, '_>) -> Option<Shown>
    ensures { AreOpen (rest_of site.now.before.now) result }
{
    if is_kind(site.last(), Kind::End) {
        of_end(site, rest_of(site.before))
    } else {
        None
    }
}

/// What an END shows behind these tokens.
fn of_end(site: &Site<'_, '_>, before: &[Token]) -> Option<Shown>
    ensures { AreOpen before.now result }
{
    match open_construct(before) {
        Some(opening) => of_closed(site, before, opening),
        None => None,
    }
}

/// What the END shows that closes what this token opens, behind these tokens.
fn of_closed(site: &Site<'_, '_>, before: &[Token], opening: Token) -> Option<Shown>
    requires { IsOpenConstruct before.now (Some opening) }
    ensures { AreOpen before.now result }
{
    if is_unit(opening.kind) {
        let fact = if is_behind_until(before) {
            Fact::UntilBefore
        } else {
            Fact::UnitEnded
        };
        Some(Shown {
            fact,
            opening: Some(opening),
            inner: None,
        })
    } else if is_open_name(site, before) {
        Some(Shown {
            fact: Fact::OuterName,
            opening: Some(opening),
            inner: inner_if(before, opening),
        })
    } else if is_repeated(site) {
        Some(Shown {
            fact: Fact::Repeated,
            opening: None,
            inner: None,
        })
    } else {
        None
    }
}

/// What is still open behind the END before a name, where that name is the one of a module or procedure around it.
pub fn open_around(site: &Site<'_, '_>) -> Option<Token>
    ensures { IsOpen (rest_of site.now.before.now) result None }
{
    let before = rest_of(site.before);
    if is_open_name(site, before) {
        open_construct(before)
    } else {
        None
    }
}

/// What the construct shows that is open at the place and could be closed there, or is a record before the declaration of a type.
fn of_open(site: &Site<'_, '_>, could: &[Kind]) -> Option<Shown>
    ensures { AreOpen site.now.before.now result }
{
    match open_construct(site.before) {
        Some(opening) if opening.kind == Kind::Record && begins_type(site) => Some(Shown {
            fact: Fact::StillOpen,
            opening: Some(opening),
            inner: None,
        }),
        Some(opening) if could.contains(&closing(opening.kind)) => of_opening(site, opening),
        _ => None,
    }
}

/// Whether a `=` stands there, and behind it the type of arrays or records.
fn begins_type(site: &Site<'_, '_>) -> bool {
    is_kind(site.here(), Kind::Equal)
        && (is_kind(site.next(), Kind::Array) || is_kind(site.next(), Kind::Record))
}

/// What the construct shows that this token opens.
fn of_opening(site: &Site<'_, '_>, opening: Token) -> Option<Shown>
    requires { IsOpenConstruct site.now.before.now (Some opening) }
    ensures { AreOpen site.now.before.now result }
{
    if is_outside(opening.kind, kind_of(site.here())) {
        Some(Shown {
            fact: Fact::StillOpen,
            opening: Some(opening),
            inner: inner_if(site.before, opening),
        })
    } else if is_no_if(site, opening.kind) {
        Some(Shown {
            fact: Fact::NoIf,
            opening: None,
            inner: None,
        })
    } else {
        None
    }
}

/// The first IF behind an ELSE in what a token opens, of tokens that go back; none in a module or a procedure.
fn inner_if(before: &[Token], opening: Token) -> Option<Token>
    ensures { IsInner before.now opening result }
{
    if is_unit(opening.kind) {
        None
    } else {
        else_if(before, opening.start)
    }
}

/// Whether an ELSE or ELSIF stands there, and no IF is open.
fn is_no_if(site: &Site<'_, '_>, opening: Kind) -> bool {
    is_unit(opening) && (is_kind(site.here(), Kind::Else) || is_kind(site.here(), Kind::Elsif))
}

/// The token that opens the construct that is shown.
pub fn opening_of(shown: Option<Shown>) -> Option<Token>
    ensures { result ≡ opening_of shown }
{
    match shown {
        Some(shown) => shown.opening,
        None => None,
    }
}

/// The IF that is shown in it.
pub fn inner_of(shown: Option<Shown>) -> Option<Token>
    ensures { result ≡ inner_of shown }
{
    match shown {
        Some(shown) => shown.inner,
        None => None,
    }
}

/// Whether the name at a place is that of a module or procedure that is open behind tokens that go back.
fn is_open_name(site: &Site<'_, '_>, before: &[Token]) -> bool {
    let word = site.word();
    let mut around = before;
    let mut behind: Option<Token> = None;
    for _ in 0..before.len() {
        let Some(opening) = open_construct(around) else {
            return false;
        };
        let (inside, from) = parted_at(around, opening);
        let name = inside.last().copied().or(behind);
        if is_unit(opening.kind) && site.word_of(name) == word {
            return true;
        }
        behind = Some(opening);
        around = rest_of(from);
    }
    false
}

/// Tokens up to one of them, and those from this one on.
fn parted_at(tokens: &[Token], token: Token) -> (&[Token], &[Token]) {
    let place = token.start;
    let count = tokens
        .iter()
        .take_while(|other| other.start != place)
        .count();
    tokens.split_at(count.min(tokens.len()))
}

/// Whether the last of these tokens that ends statements is an UNTIL.
fn is_behind_until(before: &[Token]) -> bool {
    is_kind(
        before.iter().copied().find(|token| ends_call(token.kind)),
        Kind::Until,
    )
}

/// Whether an IF or WHILE stands there without a condition.
fn is_repeated(site: &Site<'_, '_>) -> bool {
    let begins = is_kind(site.here(), Kind::If) || is_kind(site.here(), Kind::While);
    match site.next() {
        Some(token) => begins && ends_call(token.kind),
        None => begins,
    }
}

/// Whether a token, or the end of the text, stands in no such construct.
fn is_outside(opening: Kind, here: Option<Kind>) -> bool {
    let Some(here) = here else {
        return true;
    };
    let is_further = matches!(here, Kind::Procedure | Kind::Begin);
    match opening {
        Kind::Module => false,
        Kind::Procedure => is_further,
        Kind::Record => is_further || matches!(here, Kind::Const | Kind::Type | Kind::Var),
        _ => is_further || matches!(here, Kind::End | Kind::Until | Kind::Else | Kind::Elsif),
    }
}

/// What closes a construct.
fn closing(opening: Kind) -> Kind {
    if opening == Kind::Repeat {
        Kind::Until
    } else {
        Kind::End
    }
}
