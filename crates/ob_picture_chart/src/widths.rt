//! How wide columns have to be for the words of calls.

ghost use Rattle.std.specs.Prelude.{◌≡◌, ◌++◌, IfOk, OnOk, map, option_map, string_bytes};
ghost use Rattle.ob_interface.specs.View.{signature_of};
ghost use Rattle.ob_picture_chart.specs.ChartView.{sight_of};
ghost use Rattle.ob_picture_chart.specs.LabelsView.{bar_in};
ghost use Rattle.ob_picture_chart.specs.Widths.{most_letters, wanted, width_at, width_for, words_below};
ghost use Rattle.wf_history.specs.View.{seen_reply};

use crate::bar::{Bar, bar_of};
use crate::labels::{push_answer_words, push_call};
use crate::{Happening, Sight};
use ob_interface::export::Export;
use std::alloc::{AllocError, Global};
use wf_history::SeenReply;

/// The width of a letter.
pub const LETTER: u128 = 7;

/// How wide columns have to be for the words of all calls.
pub fn wanted(
    alloc: Global,
    exports: &[Export],
    columns: usize,
    sights: &[Sight],
) -> Result<u128, AllocError>
    ensures { IfOk result (λ width. width ≡ wanted (map signature_of exports.now) columns (map sight_of sights.now)) }
{
    let mut widest = 0;
    for (index, sight) in sights.iter().enumerate() {
        let width = width_at(alloc, exports, columns, sight, &sights[index + 1..])?;
        widest = width.max(widest);
    }
    Ok(widest)
}

/// The same for the words of a call, where it begins.
fn width_at(
    alloc: Global,
    exports: &[Export],
    columns: usize,
    sight: &Sight,
    behind: &[Sight],
) -> Result<u128, AllocError>
    ensures { IfOk result (λ width. width
        ≡ width_at (map signature_of exports.now) columns (sight_of sight.now) (sight_of sight.now).happening (map sight_of behind.now)) }
{
    match sight.happening {
        Happening::Begun(call) => {
            let bar = bar_of(sight, call, behind, columns);
            width_for(alloc, exports, columns, &bar)
        }
        _ => Ok(0),
    }
}

/// The same for the words of a call whose process begins another one.
#[tactic(auto, unfolding(crate::specs::Widths::width_for))]
fn width_for(
    alloc: Global,
    exports: &[Export],
    columns: usize,
    bar: &Bar,
) -> Result<u128, AllocError>
    ensures { IfOk result (λ width. width ≡ width_for (map signature_of exports.now) columns (bar_in bar.now)) }
{
    if bar.next >= columns {
        return Ok(0);
    }
    let room = LETTER * (most_letters(alloc, exports, bar)? as u128 + 1);
    let span = bar.next.saturating_sub(bar.begin).max(1);
    Ok(room / span as u128 + 1)
}

/// For how many letters there has to be room: for the words above a bar and for those below it.
#[tactic(auto, unfolding(crate::specs::Widths::most_letters))]
pub fn most_letters(alloc: Global, exports: &[Export], bar: &Bar) -> Result<usize, AllocError>
    ensures { IfOk result (λ count. count ≡ most_letters (map signature_of exports.now) (bar_in bar.now)) }
{
    let mut above = String::new(alloc);
    push_call(&mut above, exports, bar.id, bar.call)?;
    let mut below = String::new(alloc);
    push_words_below(&mut below, bar.reply)?;
    Ok(above.as_str().len().max(below.as_str().len()))
}

/// The words below a bar: none without a reply.
fn push_words_below(text: &mut String, reply: Option<SeenReply>) -> Result<(), AllocError>
    ensures { OnOk result (string_bytes text.new ≡ string_bytes text.old ++ words_below (option_map seen_reply reply.entry)) }
{
    match reply {
        Some(reply) => push_answer_words(text, reply),
        None => Ok(()),
    }
}
