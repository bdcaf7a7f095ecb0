//! The lines that tell of the traps of calls.

ghost use Rattle.std.specs.Prelude.{◌≡◌, ◌++◌, ◌<◌, IfOk, OnOk, length, map, option_map, string_bytes};
ghost use Rattle.ob_explained_traps.specs.NamedCalls.{AreSoMany, HasCall, calls_of};
ghost use Rattle.ob_explained_traps.specs.TrapLines.{count_lines, count_text, heading, lines_if_first, setting_of, site_lines, site_place_lines, trap_text};
ghost use Rattle.ob_explained_traps.specs.TrapLines.{or_none, traps_lines};
ghost use Rattle.ob_trap_places.specs.Reaching.{site_of};

use crate::spots::{Spot, count_at, is_first, spots_of};
use crate::told_calls::{Calls, push_name};
use ob_explain_sentences::explanation::explanation;
use ob_explain_sentences::remark::Remark;
use ob_explained::Source;
use ob_explained::cause::{Runner, cause_sentence};
use ob_grammar::tree::ModuleTree;
use ob_text_words::numbers::push_number;
use ob_trap_places::site::Site;
use ob_trap_places::site_places::place_of;
use std::alloc::{AllocError, Global};

/// What traps are told of: the text of the module with its tree, the calls, and the budget of each.
#[derive(Clone, Copy)]
pub(crate) struct Setting<'a> {
    pub(crate) object: Source<'a>,
    pub(crate) tree: &'a ModuleTree,
    pub(crate) calls: Calls<'a>,
    pub(crate) budget: u64,
}

/// A call that was made: its position among all, and where its trap comes from, if it traps.
#[derive(Clone, Copy)]
struct Made<'a> {
    position: usize,
    site: &'a Option<Site>,
}

/// What is told of calls whose traps come from these sites: each place at which calls trap once, with the first call there, and how many
/// there are; or that none traps.
pub(crate) fn traps_told(
    alloc: Global,
    setting: Setting<'_>,
    sites: &[Option<Site>],
) -> Result<String, AllocError>
    requires { AreSoMany (calls_of setting.calls) (length sites.now) }
    ensures { IfOk result (λ told. string_bytes told ≡ or_none (traps_lines (setting_of setting.entry) (map (option_map site_of) sites.now))) }
{
    let told = each_place(alloc, setting, sites)?;
    or_none(alloc, told)
}

/// The same, and nothing where none traps.
fn each_place(
    alloc: Global,
    setting: Setting<'_>,
    sites: &[Option<Site>],
) -> Result<String, AllocError>
    requires { AreSoMany (calls_of setting.calls) (length sites.now) }
    ensures { IfOk result (λ told. string_bytes told ≡ traps_lines (setting_of setting.entry) (map (option_map site_of) sites.now)) }
{
    let spots = spots_of(alloc, setting.tree, sites)?;
    let mut told = String::new(alloc);
    for (position, site) in sites.iter().enumerate() {
        let made = Made { position, site };
        push_if_first(alloc, &mut told, setting, &spots, made)?;
    }
    Ok(told)
}

/// What is told, or that there is nothing to tell of.
fn or_none(alloc: Global, told: String) -> Result<String, AllocError>
    ensures { IfOk result (λ text. string_bytes text ≡ or_none (string_bytes told)) }
{
    if told.is_empty() {
        String::from_str(alloc, "no call traps\n")
    } else {
        Ok(told)
    }
}

/// Appends what is told of a call, if it is the first that traps at its place.
fn push_if_first(
    alloc: Global,
    told: &mut String,
    setting: Setting<'_>,
    spots: &[Option<Spot>],
    made: Made<'_>,
) -> Result<(), AllocError>
    requires placed { made.position < length spots.now }
    requires named { HasCall (calls_of setting.calls) made.position }
    ensures { OnOk result (string_bytes told.new ≡ string_bytes told.old
        ++ lines_if_first (setting_of setting.entry) spots.now made.entry.position (option_map site_of made.entry.site.now)) }
{
    if is_first(spots, made.position) {
        push_site(alloc, told, setting, made)?;
        push_count(told, count_at(spots, made.position))
    } else {
        Ok(())
    }
}

/// Appends what is told of a call, if it traps.
fn push_site(
    alloc: Global,
    told: &mut String,
    setting: Setting<'_>,
    made: Made<'_>,
) -> Result<(), AllocError>
    requires { HasCall (calls_of setting.calls) made.position }
    ensures { OnOk result (string_bytes told.new ≡ string_bytes told.old
        ++ site_lines (setting_of setting.entry) made.entry.position (option_map site_of made.entry.site.now)) }
{
    match made.site {
        Some(site) => {
            push_heading(told, setting.calls, made.position, site.number)?;
            push_place(alloc, told, setting, site)
        }
        None => Ok(()),
    }
}

/// Appends how many calls trap at a place, where there are several.
fn push_count(told: &mut String, count: usize) -> Result<(), AllocError>
    ensures { OnOk result (string_bytes told.new ≡ string_bytes told.old ++ count_lines count) }
{
    if count > 1 {
        push_several(told, count)
    } else {
        Ok(())
    }
}

/// Appends that so many calls trap at a place.
#[tactic(auto, unfolding(crate::specs::TrapLines::count_text))]
fn push_several(told: &mut String, count: usize) -> Result<(), AllocError>
    ensures { OnOk result (string_bytes told.new ≡ string_bytes told.old ++ count_text count) }
{
    push_number(told, count)?;
    told.push_str(" calls trap here, of which this is the first\n")
}

/// Appends which call it is, and the number of its trap.
fn push_heading(
    told: &mut String,
    calls: Calls<'_>,
    position: usize,
    trap: u8,
) -> Result<(), AllocError>
    requires { HasCall (calls_of calls) position }
    ensures { OnOk result (string_bytes told.new ≡ string_bytes told.old ++ heading (calls_of calls.entry) position trap) }
{
    push_name(told, calls, position)?;
    push_trap(told, trap)
}

/// Appends the number of a trap.
#[tactic(auto, unfolding(crate::specs::TrapLines::trap_text))]
fn push_trap(told: &mut String, trap: u8) -> Result<(), AllocError>
    ensures { OnOk result (string_bytes told.new ≡ string_bytes told.old ++ trap_text trap) }
{
    told.push_str(": trap ")?;
    push_number(told, trap)?;
    told.push_str("\n")
}

/// Appends the place of the operation that traps, and what could not be done.
fn push_place(
    alloc: Global,
    told: &mut String,
    setting: Setting<'_>,
    site: &Site,
) -> Result<(), AllocError>
    ensures { OnOk result (string_bytes told.new ≡ string_bytes told.old ++ site_place_lines (setting_of setting.entry) (site_of site.now)) }
{
    match place_of(setting.tree, site.procedure, site.path.as_slice()) {
        Some(place) => {
            let remark = Remark {
                place,
                sentence: cause_sentence(alloc, Runner::Call(setting.budget), site.cause)?,
                hint: None,
            };
            let source = setting.object;
            let shown = explanation(alloc, source.name, source.text, &remark)?;
            told.push_str(&shown)
        }
        None => Ok(()),
    }
}
