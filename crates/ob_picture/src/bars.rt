//! The bars of calls.

ghost use Rattle.std.specs.Prelude.{◌≡◌, ◌++◌, ◌≤◌, OnOk, ◌+◌, ◌<◌, ◌^◌, codes, map, option_map, string_bytes};
ghost use Rattle.ob_interface.specs.View.{signature_of};
ghost use Rattle.ob_picture.specs.Shapes as Shapes;
ghost use Rattle.ob_picture.specs.Shapes.{bar_class, class_of, cross, ending, fade_before, fade_behind, goes_on, is_last, is_seen, label_words, left};
ghost use Rattle.ob_picture.specs.Shapes.{letters, reply_behind, reply_class, right};
ghost use Rattle.ob_picture.specs.View.{band_in};
ghost use Rattle.ob_picture_chart.specs.LabelsView.{bar_in};
ghost use Rattle.ob_picture_chart.specs.Svg.{EndGroup, Group, shape_text, shapes_text};
ghost use Rattle.wf_history.specs.View.{seen_reply};

use crate::pixels::{BEYOND, Band, Frame};
use ob_interface::export::Export;
use ob_picture_chart::{
    Bar, LETTER, Point, close_words, open_words, push_box, push_call, push_line, push_reply,
    push_short_again, push_short_answer, push_short_call,
};
use std::alloc::{AllocError, Global};
use wf_history::SeenReply;

/// The bar of a call in a band, with the call above it.
#[tactic(auto, unfolding(crate::specs::Shapes::bar))]
pub(crate) fn push_bar(
    alloc: Global,
    text: &mut String,
    exports: &[Export],
    band: &Band,
    bar: &Bar,
) -> Result<(), AllocError>
    requires { band.now.top < 2 ^ 77 }
    ensures { OnOk result (string_bytes text.new
        ≡ string_bytes text.old ++ shapes_text (Shapes.bar (map signature_of exports.now) (band_in band.now) (bar_in bar.now))) }
{
    if !is_seen(band.frame, band.number, bar) {
        return Ok(());
    }
    let x = left(band.frame, band.number, bar);
    let corner = Point {
        x,
        y: band.y(bar.id.process) - 10,
    };
    let size = Point {
        x: right(band.frame, band.number, bar).saturating_sub(x),
        y: 20,
    };
    push_title(text, exports, bar)?;
    push_box(text, bar_class(band.marks(bar.id), bar.reply), corner, size)?;
    push_fade_before(text, band, bar)?;
    push_fade_behind(text, band, bar)?;
    push_label(alloc, text, exports, band, bar)?;
    push_ending(alloc, text, band, bar)?;
    end_group(text)
}

/// Where a call comes from the band before, its bar fades.
#[tactic(auto, unfolding(crate::specs::Shapes::fade_before))]
fn push_fade_before(text: &mut String, band: &Band, bar: &Bar) -> Result<(), AllocError>
    requires { band.now.top < 2 ^ 77 }
    ensures { OnOk result (string_bytes text.new ≡ string_bytes text.old ++ shapes_text (fade_before (band_in band.now) (bar_in bar.now))) }
{
    if band.frame.first(band.number) <= bar.begin as u128 {
        return Ok(());
    }
    let corner = Point {
        x: 100,
        y: band.y(bar.id.process) - 11,
    };
    push_box(text, "before", corner, Point { x: 28, y: 22 })
}

/// Where a call goes on in the next band, its bar fades.
#[tactic(auto, unfolding(crate::specs::Shapes::fade_behind))]
fn push_fade_behind(text: &mut String, band: &Band, bar: &Bar) -> Result<(), AllocError>
    requires { band.now.top < 2 ^ 77 }
    ensures { OnOk result (string_bytes text.new ≡ string_bytes text.old ++ shapes_text (fade_behind (band_in band.now) (bar_in bar.now))) }
{
    if !goes_on(band.frame, band.number, bar) {
        return Ok(());
    }
    let corner = Point {
        x: right(band.frame, band.number, bar) - 24,
        y: band.y(bar.id.process) - 11,
    };
    push_box(text, "behind", corner, Point { x: 25, y: 22 })
}

/// Whether a call is seen in a band.
#[tactic(auto, unfolding(crate::specs::Shapes::is_seen))]
pub(crate) fn is_seen(frame: Frame, band: usize, bar: &Bar) -> bool
    ensures { result ≡ is_seen frame band (bar_in bar.now) }
{
    let first = frame.first(band);
    (bar.begin as u128) < first + frame.columns_in(band) as u128 && first <= bar.end as u128
}

/// Where a bar begins in a band, or goes on.
#[tactic(auto, unfolding(crate::specs::Shapes::left))]
pub(crate) fn left(frame: Frame, band: usize, bar: &Bar) -> u128
    ensures value { result ≡ left frame band (bar_in bar.now) }
    ensures largest { result < 2 ^ 76 }
{
    if frame.first(band) <= bar.begin as u128 {
        frame.x(band, bar.begin as u128)
    } else {
        104
    }
}

/// Whether a call goes on in the next band.
#[tactic(auto, unfolding(crate::specs::Shapes::goes_on))]
fn goes_on(frame: Frame, band: usize, bar: &Bar) -> bool
    ensures { result ≡ goes_on frame band (bar_in bar.now) }
{
    let behind = frame.first(band) + frame.columns_in(band) as u128;
    behind <= bar.end as u128 && !is_last(frame, band)
}

/// Where a bar ends in a band, or a little behind it, where it goes on in the next one.
#[tactic(auto, unfolding(crate::specs::Shapes::right))]
fn right(frame: Frame, band: usize, bar: &Bar) -> u128
    ensures value { result ≡ right frame band (bar_in bar.now) }
    ensures least { 130 ≤ result }
{
    let more = if goes_on(frame, band, bar) { 16 } else { 0 };
    frame.x(band, bar.end as u128) + more
}

/// For how many letters there is room: up to the next call, or beyond the end of the band where that doesn't begin in it.
#[tactic(auto, unfolding(crate::specs::Shapes::letters))]
pub(crate) fn letters(frame: Frame, band: usize, bar: &Bar) -> u128
    ensures { result ≡ letters frame band (bar_in bar.now) }
{
    let beyond = if frame.is_in(band, bar.next) {
        0
    } else {
        BEYOND
    };
    let end = frame.x(band, bar.next as u128) + beyond;
    let room = end.saturating_sub(left(frame, band, bar));
    (room / LETTER).saturating_sub(1)
}

/// What a browser shows of a call: it, and its reply.
#[tactic(auto, unfolding(ob_picture_chart::specs::Svg::shape_text))]
fn push_title(text: &mut String, exports: &[Export], bar: &Bar) -> Result<(), AllocError>
    ensures { OnOk result (string_bytes text.new ≡ string_bytes text.old ++ shape_text (Group (Shapes.title (map signature_of exports.now) (bar_in bar.now)))) }
{
    text.push_str("<g><title>")?;
    push_call(text, exports, bar.id, bar.call)?;
    push_reply_behind(text, bar.reply)?;
    text.push_str("</title>\n")
}

fn push_reply_behind(text: &mut String, reply: Option<SeenReply>) -> Result<(), AllocError>
    ensures { OnOk result (string_bytes text.new ≡ string_bytes text.old ++ reply_behind (option_map seen_reply reply.entry)) }
{
    match reply {
        Some(reply) => {
            text.push_str(": ")?;
            push_reply(text, reply)
        }
        None => Ok(()),
    }
}

#[tactic(auto, unfolding(ob_picture_chart::specs::Svg::shape_text))]
fn end_group(text: &mut String) -> Result<(), AllocError>
    ensures { OnOk result (string_bytes text.new ≡ string_bytes text.old ++ shape_text EndGroup) }
{
    text.push_str("</g>\n")
}

fn bar_class(marked: bool, reply: Option<SeenReply>) -> &'static str
    ensures { result.now ≡ class_of marked (bar_class (option_map seen_reply reply.entry)) }
{
    match (marked, reply) {
        (false, Some(SeenReply::Done(_))) => "done",
        (false, Some(SeenReply::Trap(_))) => "trap",
        (false, None) => "open",
        (true, Some(SeenReply::Done(_))) => "done marked",
        (true, Some(SeenReply::Trap(_))) => "trap marked",
        (true, None) => "open marked",
    }
}

fn reply_class(marked: bool, reply: SeenReply) -> &'static str
    ensures { result.now ≡ class_of marked (reply_class (seen_reply reply.entry)) }
{
    match (marked, reply) {
        (false, SeenReply::Done(_)) => "reply",
        (false, SeenReply::Trap(_)) => "trapped",
        (true, SeenReply::Done(_)) => "reply marked",
        (true, SeenReply::Trap(_)) => "trapped marked",
    }
}

fn label_class(marked: bool) -> &'static str
    ensures { result.now ≡ class_of marked (codes "label") }
{
    if marked { "label marked" } else { "label" }
}

/// The words above a bar: the call, which stands again in a band to which it goes on.
#[tactic(auto, unfolding(crate::specs::Shapes::label_words))]
fn push_label_words(
    alloc: Global,
    text: &mut String,
    exports: &[Export],
    frame: Frame,
    band: usize,
    bar: &Bar,
) -> Result<(), AllocError>
    ensures { OnOk result (string_bytes text.new ≡ string_bytes text.old ++ label_words (map signature_of exports.now) frame band (bar_in bar.now)) }
{
    let room = letters(frame, band, bar);
    if frame.first(band) <= bar.begin as u128 {
        push_short_call(alloc, text, exports, bar.id, bar.call, room)
    } else {
        push_short_again(alloc, text, exports, bar.id, bar.call, room)
    }
}

/// The words above a bar, at their place.
#[tactic(auto, unfolding(ob_picture_chart::specs::Svg::shape_text))]
fn push_label(
    alloc: Global,
    text: &mut String,
    exports: &[Export],
    band: &Band,
    bar: &Bar,
) -> Result<(), AllocError>
    requires { band.now.top < 2 ^ 77 }
    ensures { OnOk result (string_bytes text.new
        ≡ string_bytes text.old ++ shape_text (Shapes.label (map signature_of exports.now) (band_in band.now) (bar_in bar.now))) }
{
    let at = Point {
        x: left(band.frame, band.number, bar),
        y: band.y(bar.id.process) - 15,
    };
    open_words(text, label_class(band.marks(bar.id)), at)?;
    push_label_words(alloc, text, exports, band.frame, band.number, bar)?;
    close_words(text)
}

/// What stands at the end of a bar: the reply below it, in the band of the end, or a cross at the end of the picture.
#[tactic(auto, unfolding(crate::specs::Shapes::ending))]
fn push_ending(alloc: Global, text: &mut String, band: &Band, bar: &Bar) -> Result<(), AllocError>
    requires { band.now.top < 2 ^ 77 }
    ensures { OnOk result (string_bytes text.new ≡ string_bytes text.old ++ shapes_text (ending (band_in band.now) (bar_in bar.now))) }
{
    match bar.reply {
        Some(reply) if band.is_in(bar.end) => push_answer(alloc, text, band, bar, reply),
        None if is_last(band.frame, band.number) => {
            let x = band.x(bar.end as u128);
            push_cross(text, x, band.y(bar.id.process))
        }
        _ => Ok(()),
    }
}

/// Whether a band has the last column.
fn is_last(frame: Frame, band: usize) -> bool
    ensures { result ≡ is_last frame band }
{
    frame.columns as u128 <= frame.first(band) + frame.columns_in(band) as u128
}

/// The reply, below its bar.
#[tactic(auto, unfolding(ob_picture_chart::specs::Svg::shape_text))]
fn push_answer(
    alloc: Global,
    text: &mut String,
    band: &Band,
    bar: &Bar,
    reply: SeenReply,
) -> Result<(), AllocError>
    requires { band.now.top < 2 ^ 77 }
    ensures { OnOk result (string_bytes text.new
        ≡ string_bytes text.old ++ shape_text (Shapes.answer (band_in band.now) (bar_in bar.now) (seen_reply reply.entry))) }
{
    let at = Point {
        x: left(band.frame, band.number, bar),
        y: band.y(bar.id.process) + 22,
    };
    let room = letters(band.frame, band.number, bar);
    open_words(text, reply_class(band.marks(bar.id), reply), at)?;
    push_short_answer(alloc, text, reply, room)?;
    close_words(text)
}

/// The cross at the end of a bar.
#[tactic(auto, unfolding(crate::specs::Shapes::cross))]
pub(crate) fn push_cross(text: &mut String, x: u128, y: u128) -> Result<(), AllocError>
    requires left { 8 ≤ x }
    requires right { x + 8 < 2 ^ 128 }
    requires top { 8 ≤ y }
    requires bottom { y + 8 < 2 ^ 128 }
    ensures { OnOk result (string_bytes text.new ≡ string_bytes text.old ++ shapes_text (cross x y)) }
{
    let (left, right, top, bottom) = (x - 8, x + 8, y - 8, y + 8);
    push_line(
        text,
        "cross",
        Point { x: left, y: top },
        Point {
            x: right,
            y: bottom,
        },
    )?;
    push_line(
        text,
        "cross",
        Point { x: left, y: bottom },
        Point { x: right, y: top },
    )
}
