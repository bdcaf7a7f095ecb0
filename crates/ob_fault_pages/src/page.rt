//! The page of a fault, by its name.

ghost use Rattle.std.specs.Prelude.{◌≡◌, map, option_map};
ghost use Rattle.ob_fault_pages.specs.Pages.{script_rows, either, object_rows, page_in, page_of, record_rows, row_of, rule_rows, run_rows, text_rows, trap_rows};
ghost use Rattle.ob_fault_pages.specs.Pages.{module_page, page_text, texts_page};

use crate::object_rows::OBJECT_ROWS;
use crate::record_rows::RECORD_ROWS;
use crate::rule_rows::RULE_ROWS;
use crate::run_rows::RUN_ROWS;
use crate::script_rows::SCRIPT_ROWS;
use crate::text_rows::TEXT_ROWS;
use crate::trap_rows::TRAP_ROWS;

/// The name of a fault, and what is said of it. (A clause can name a table only if no type in it declares a reference, so the texts are a
/// parameter.)
#[derive(Clone, Copy)]
pub struct PageOf<Text> {
    pub name: Text,
    pub text: Text,
}

pub type Page = PageOf<&'static str>;

/// The page of the fault of a name, where there is one.
pub fn page_of(name: &str) -> Option<&'static str>
    ensures { option_map (λ text. text.now) result ≡ page_of name.now }
{
    either(module_page(name), texts_page(name))
}

/// What is said of a name: its page, and nothing where there is none.
pub fn page_text(name: &str) -> &'static str
    ensures { result.now ≡ page_text name.now }
{
    page_of(name).unwrap_or("")
}

/// The page of a trap, or of a fault of a module or its object.
fn module_page(name: &str) -> Option<&'static str>
    ensures { option_map (λ text. text.now) result ≡ module_page name.now }
{
    let of_text = either(page_in(trap_rows(), name), page_in(text_rows(), name));
    let of_rule = either(page_in(rule_rows(), name), page_in(object_rows(), name));
    either(of_text, of_rule)
}

/// The same of a fault of the other texts, and of what is made of them.
fn texts_page(name: &str) -> Option<&'static str>
    ensures { option_map (λ text. text.now) result ≡ texts_page name.now }
{
    let of_run = either(page_in(script_rows(), name), page_in(run_rows(), name));
    either(of_run, page_in(record_rows(), name))
}

/// The first of two pages.
fn either(first: Option<&'static str>, second: Option<&'static str>) -> Option<&'static str>
    ensures { option_map (λ text. text.now) result ≡ either (option_map (λ text. text.now) first.entry) (option_map (λ text. text.now) second.entry) }
{
    match first {
        Some(text) => Some(text),
        None => second,
    }
}

/// The page of a name in a table: that of its first row with this name.
fn page_in(mut rows: &[Page], name: &str) -> Option<&'static str>
    ensures { option_map (λ text. text.now) result ≡ page_in (map row_of rows.entry.now) name.now }
{
    while let [row, rest @ ..] = rows {
        if row.name == name {
            return Some(row.text);
        }
        rows = rest;
    }
    None
}

#[tactic(auto, unfolding(crate::specs::Pages::trap_rows))]
fn trap_rows() -> &'static [Page]
    ensures { map row_of result.now ≡ trap_rows }
{
    TRAP_ROWS
}

#[tactic(auto, unfolding(crate::specs::Pages::text_rows))]
fn text_rows() -> &'static [Page]
    ensures { map row_of result.now ≡ text_rows }
{
    TEXT_ROWS
}

#[tactic(auto, unfolding(crate::specs::Pages::rule_rows))]
fn rule_rows() -> &'static [Page]
    ensures { map row_of result.now ≡ rule_rows }
{
    RULE_ROWS
}

#[tactic(auto, unfolding(crate::specs::Pages::object_rows))]
fn object_rows() -> &'static [Page]
    ensures { map row_of result.now ≡ object_rows }
{
    OBJECT_ROWS
}

#[tactic(auto, unfolding(crate::specs::Pages::script_rows))]
fn script_rows() -> &'static [Page]
    ensures { map row_of result.now ≡ script_rows }
{
    SCRIPT_ROWS
}

#[tactic(auto, unfolding(crate::specs::Pages::run_rows))]
fn run_rows() -> &'static [Page]
    ensures { map row_of result.now ≡ run_rows }
{
    RUN_ROWS
}

#[tactic(auto, unfolding(crate::specs::Pages::record_rows))]
fn record_rows() -> &'static [Page]
    ensures { map row_of result.now ≡ record_rows }
{
    RECORD_ROWS
}
