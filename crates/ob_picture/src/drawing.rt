//! A run as a picture that a browser shows.

ghost use Rattle.std.specs.Prelude.{◌≡◌, ◌+◌, ◌++◌, ◌<◌, ◌≤◌, ◌^◌, IfErr, IfOk, OnOk, codes, length, map, option_map, string_bytes};
ghost use Rattle.ob_interface.specs.View.{signature_of};
ghost use Rattle.ob_picture.specs.Shapes.{band_shapes, below_bands, calls_words, frame_of, head_shapes, heading_words, mark_words, picture_text, shapes_of_bands, top_of};
ghost use Rattle.ob_picture.specs.Places.{at};
ghost use Rattle.ob_picture_chart.specs.Charts.{begun, chart_of_calls};
ghost use Rattle.ob_picture_chart.specs.Faults.{IsRangeFault, MayBeShown};
ghost use Rattle.ob_picture_chart.specs.ChartView.{chart_in, mark_of, moment_of};
ghost use Rattle.ob_picture_chart.specs.Svg.{Words, shape_text, shapes_text};

use crate::band_rows::rows_of;
use crate::bands::push_band;
use crate::legend::{push_call_keys, push_mark_keys, push_text_keys};
use crate::order_row::push_order;
use crate::pixels::{Band, Frame, TOP};
use crate::spill::spill_of;
use ob_interface::MOST_PROCESSES;
use ob_interface::export::Export;
use ob_picture_chart::{
    CallRange, Chart, Mark, Moment, PictureFault, Point, chart_of, close_words, open_picture,
    open_words, push_box, push_words, wanted,
};
use ob_text_words::numbers::push_number;
use std::alloc::{AllocError, Global};
use wf_history::CallId;

/// The picture of the calls of a range, or of all, in SVG.
pub fn draw(
    alloc: Global,
    exports: &[Export],
    processes: usize,
    moments: &[Moment],
    order: &[CallId],
    calls: Option<CallRange>,
) -> Result<String, PictureFault>
    requires { processes ≤ MOST_PROCESSES }
    ensures picture { IfOk result (λ text. string_bytes text
        ≡ picture_text (map signature_of exports.now) (chart_of_calls processes (map moment_of moments.now) order.now calls)) }
    ensures fault { IfErr result (IsRangeFault (length (begun (map moment_of moments.now))) calls) }
    ensures shown { OnOk result (MayBeShown (length (begun (map moment_of moments.now))) calls) }
{
    let chart = chart_of(alloc, processes, moments, order, calls)?;
    Ok(picture(alloc, exports, &chart)?)
}

/// The picture of a chart, in SVG.
pub fn picture(alloc: Global, exports: &[Export], chart: &Chart) -> Result<String, AllocError>
    requires { chart.now.processes ≤ MOST_PROCESSES }
    ensures { IfOk result (λ text. string_bytes text ≡ picture_text (map signature_of exports.now) (chart_in chart.now)) }
{
    let frame = frame_of(alloc, exports, chart)?;
    let mut bands = String::new(alloc);
    let below = push_bands(alloc, &mut bands, exports, frame, chart)?;
    let size = Point {
        x: frame.width(),
        y: frame.height(below, chart.order.as_slice().len()),
    };
    let mut text = String::new(alloc);
    open_picture(&mut text, size)?;
    push_head(&mut text, chart, size)?;
    text.push_str(bands.as_str())?;
    push_order(&mut text, frame, below, &chart.order)?;
    text.push_str("</svg>\n")?;
    Ok(text)
}

/// The sizes of a chart's picture.
fn frame_of(alloc: Global, exports: &[Export], chart: &Chart) -> Result<Frame, AllocError>
    ensures { IfOk result (λ frame. frame ≡ frame_of (map signature_of exports.now) (chart_in chart.now)) }
{
    let columns = chart.times.as_slice().len();
    Ok(Frame {
        columns,
        wanted: wanted(alloc, exports, columns, &chart.sights)?,
    })
}

/// The ground, and what stands above the bands.
#[tactic(auto, unfolding(crate::specs::Shapes::head_shapes))]
fn push_head(text: &mut String, chart: &Chart, size: Point) -> Result<(), AllocError>
    ensures { OnOk result (string_bytes text.new ≡ string_bytes text.old ++ shapes_text (head_shapes (chart_in chart.now) size)) }
{
    push_box(text, "ground", Point { x: 0, y: 0 }, size)?;
    push_heading(text, chart)?;
    push_call_keys(text)?;
    push_mark_keys(text)?;
    push_text_keys(text)?;
    push_mark_words(text, chart.mark)
}

/// Why a call is marked, if one is.
fn push_mark_words(text: &mut String, mark: Option<Mark>) -> Result<(), AllocError>
    ensures { OnOk result (string_bytes text.new ≡ string_bytes text.old ++ shapes_text (mark_words (option_map mark_of mark.entry))) }
{
    match mark {
        Some(mark) => push_words(text, "bold marked", Point { x: 12, y: 208 }, mark.words),
        None => Ok(()),
    }
}

/// How many processes there are, and which calls are shown.
#[tactic(auto, unfolding(ob_picture_chart::specs::Svg::shape_text))]
fn push_heading(text: &mut String, chart: &Chart) -> Result<(), AllocError>
    ensures { OnOk result (string_bytes text.new ≡ string_bytes text.old ++ shape_text (Words (codes "head") (at 12 22) (heading_words (chart_in chart.now)))) }
{
    open_words(text, "head", Point { x: 12, y: 22 })?;
    push_heading_words(text, chart)?;
    close_words(text)
}

#[tactic(auto, unfolding(crate::specs::Shapes::heading_words))]
fn push_heading_words(text: &mut String, chart: &Chart) -> Result<(), AllocError>
    ensures { OnOk result (string_bytes text.new ≡ string_bytes text.old ++ heading_words (chart_in chart.now)) }
{
    text.push_str("processes: ")?;
    push_number(text, chart.processes)?;
    text.push_str(", calls: ")?;
    push_calls(text, chart.total, chart.range)?;
    Ok(())
}

/// Which calls are shown, of how many.
fn push_calls(text: &mut String, total: usize, range: CallRange) -> Result<(), AllocError>
    ensures { OnOk result (string_bytes text.new ≡ string_bytes text.old ++ calls_words total range) }
{
    if total == 0 {
        return text.push_str("none");
    }
    push_number(text, range.from)?;
    text.push_str(" to ")?;
    push_number(text, range.to)?;
    text.push_str(" of ")?;
    push_number(text, total)
}

/// The bands, one below the other; tells where they end.
#[tactic(auto, using(crate::proofs::Each::each_more))]
fn push_bands(
    alloc: Global,
    text: &mut String,
    exports: &[Export],
    frame: Frame,
    chart: &Chart,
) -> Result<u128, AllocError>
    requires { chart.now.processes ≤ MOST_PROCESSES }
    ensures text { OnOk result (string_bytes text.new
        ≡ string_bytes text.old ++ shapes_text (shapes_of_bands (map signature_of exports.now) frame (chart_in chart.now))) }
    ensures below { IfOk result (λ below. below ≡ below_bands frame (chart_in chart.now)) }
    ensures small { IfOk result (λ below. below < 2 ^ 77) }
{
    let mut top = TOP;
    for band in 0..frame.bands() {
        top = push_band_at(alloc, text, exports, frame, chart, band, top)?;
    }
    Ok(top)
}

/// The band of a number, from a height on; tells where it ends.
#[tactic(auto, using(crate::proofs::Tops::top_more), unfolding(crate::specs::Places::below))]
fn push_band_at(
    alloc: Global,
    text: &mut String,
    exports: &[Export],
    frame: Frame,
    chart: &Chart,
    number: usize,
    top: u128,
) -> Result<u128, AllocError>
    requires few { chart.now.processes ≤ MOST_PROCESSES }
    requires small { top < 2 ^ 77 }
    requires here { top ≡ top_of frame (chart_in chart.now) number }
    ensures text { OnOk result (string_bytes text.new
        ≡ string_bytes text.old ++ shapes_text (band_shapes (map signature_of exports.now) frame (chart_in chart.now) number)) }
    ensures below { IfOk result (λ below. below ≡ top_of frame (chart_in chart.now) (number + 1)) }
    ensures small { IfOk result (λ below. below ≤ top + 1000) }
{
    let sights = chart.sights.as_slice();
    let rows = rows_of(alloc, frame, number, sights, chart.processes)?;
    let spill = spill_of(alloc, exports, frame, number, sights)?;
    let band = Band {
        frame,
        number,
        top,
        rows: rows.as_slice(),
        spill,
        marked: chart.mark.map(|mark| mark.id),
    };
    push_band(alloc, text, exports, &band, chart)?;
    Ok(band.below())
}
