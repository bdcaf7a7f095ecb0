//! What stands in a band of a picture: the events, the processes, and what is seen.

ghost use Rattle.std.specs.Prelude.{◌≡◌, ◌++◌, ◌<◌, ◌^◌, OnOk, codes, map, string_bytes};
ghost use Rattle.std.specs.List.{flat_map};
ghost use Rattle.ob_interface.specs.View.{signature_of};
ghost use Rattle.ob_picture.specs.Places.{columns_in};
ghost use Rattle.ob_picture.specs.Shapes.{bars, help, mark, row, shapes_in, tick, ticks, time_of};
ghost use Rattle.ob_picture.specs.Shapes as Shapes;
ghost use Rattle.ob_picture.specs.View.{band_in, bar_begun};
ghost use Rattle.ob_picture_chart.specs.ChartView.{chart_in, sight_of};
ghost use Rattle.ob_picture_chart.specs.Svg.{Words, shape_text, shapes_text};

use crate::bars::push_bar;
use crate::marks::{push_help, push_mark};
use crate::pixels::Band;
use ob_interface::export::Export;
use ob_picture_chart::{
    Chart, Happening, Point, Sight, bar_of, close_words, open_words, push_line, push_numeral,
    push_words,
};
use ob_text_words::numbers::push_number;
use std::alloc::{AllocError, Global};

/// What stands in a band, the bars above the lines and the marks above the bars.
#[tactic(auto, unfolding(crate::specs::Shapes::shapes_in))]
pub(crate) fn push_band(
    alloc: Global,
    text: &mut String,
    exports: &[Export],
    band: &Band,
    chart: &Chart,
) -> Result<(), AllocError>
    requires top { band.now.top < 2 ^ 77 }
    requires spill { band.now.spill < 2 ^ 77 }
    ensures { OnOk result (string_bytes text.new
        ≡ string_bytes text.old ++ shapes_text (shapes_in (map signature_of exports.now) (chart_in chart.now) (band_in band.now))) }
{
    let sights = chart.sights.as_slice();
    push_ticks(text, &chart.times, band)?;
    push_rows(text, band)?;
    push_helps(text, band, sights)?;
    push_bars(alloc, text, exports, band, sights)?;
    push_marks(text, band, sights)
}

/// The numbers of the events, above their columns.
#[tactic(auto, using(crate::proofs::Each::each_more), unfolding(crate::specs::Shapes::ticks))]
fn push_ticks(text: &mut String, times: &[usize], band: &Band) -> Result<(), AllocError>
    requires { band.now.top < 2 ^ 77 }
    ensures { OnOk result (string_bytes text.new ≡ string_bytes text.old ++ shapes_text (ticks times.now (band_in band.now))) }
{
    let at = Point {
        x: 12,
        y: band.top + 14,
    };
    push_words(text, "faint", at, "event")?;
    for index in 0..band.frame.columns_in(band.number) {
        push_tick(text, times, band, index)?;
    }
    Ok(())
}

/// The number of the event of a column of a band, with a line, for the first one and each fifth of the picture.
#[tactic(auto, unfolding(crate::specs::Shapes::tick, crate::specs::Places::columns_in))]
fn push_tick(
    text: &mut String,
    times: &[usize],
    band: &Band,
    index: usize,
) -> Result<(), AllocError>
    requires small { band.now.top < 2 ^ 77 }
    requires here { index < columns_in band.now.frame band.now.number }
    ensures { OnOk result (string_bytes text.new ≡ string_bytes text.old ++ shapes_text (tick times.now (band_in band.now) index)) }
{
    let column = band.frame.first(band.number) + index as u128;
    let place = column + 1;
    if place != 1 && place % 5 != 0 {
        return Ok(());
    }
    let x = band.x(column);
    let from = Point {
        x,
        y: band.top + 20,
    };
    let to = Point {
        x,
        y: band.below() - 14,
    };
    push_line(text, "tick", from, to)?;
    let above = Point {
        x,
        y: band.top + 14,
    };
    push_numeral(text, "faint middle", above, time_of(times, column) as u128)
}

/// The number of the event of a column.
fn time_of(times: &[usize], column: u128) -> usize
    requires { column < 2 ^ 64 }
    ensures { result ≡ time_of times.now column }
{
    times.get(column as usize).copied().unwrap_or(0)
}

/// The lines and the names of the processes.
fn push_rows(text: &mut String, band: &Band) -> Result<(), AllocError>
    requires top { band.now.top < 2 ^ 77 }
    requires spill { band.now.spill < 2 ^ 77 }
    ensures { OnOk result (string_bytes text.new ≡ string_bytes text.old ++ shapes_text (flat_map (row (band_in band.now)) band.now.rows.now)) }
{
    for process in band.rows {
        push_row(text, band, *process)?;
    }
    Ok(())
}

/// The line of a process, with its name at both ends.
#[tactic(auto, unfolding(crate::specs::Shapes::row))]
fn push_row(text: &mut String, band: &Band, process: usize) -> Result<(), AllocError>
    requires top { band.now.top < 2 ^ 77 }
    requires spill { band.now.spill < 2 ^ 77 }
    ensures { OnOk result (string_bytes text.new ≡ string_bytes text.old ++ shapes_text (row (band_in band.now) process)) }
{
    let y = band.y(process);
    let end = band.x(band.frame.columns as u128);
    push_name(text, Point { x: 12, y: y + 4 }, process)?;
    push_line(text, "row", Point { x: 100, y }, Point { x: end, y })?;
    let behind = end + band.spill;
    let before_name = Point { x: behind + 14, y };
    push_line(text, "tick", Point { x: end, y }, before_name)?;
    let at = Point {
        x: behind + 20,
        y: y + 4,
    };
    push_name(text, at, process)
}

#[tactic(auto, unfolding(ob_picture_chart::specs::Svg::shape_text))]
fn push_name(text: &mut String, at: Point, process: usize) -> Result<(), AllocError>
    ensures { OnOk result (string_bytes text.new ≡ string_bytes text.old ++ shape_text (Words (codes "bold") at (Shapes.name process))) }
{
    open_words(text, "bold", at)?;
    text.push_str("process ")?;
    push_number(text, process)?;
    close_words(text)
}

/// The lines to calls that another process makes.
fn push_helps(text: &mut String, band: &Band, sights: &[Sight]) -> Result<(), AllocError>
    requires { band.now.top < 2 ^ 77 }
    ensures { OnOk result (string_bytes text.new ≡ string_bytes text.old ++ shapes_text (flat_map (help (band_in band.now)) (map sight_of sights.now))) }
{
    for sight in sights {
        push_help(text, band, sight)?;
    }
    Ok(())
}

/// The bars of calls.
fn push_bars(
    alloc: Global,
    text: &mut String,
    exports: &[Export],
    band: &Band,
    sights: &[Sight],
) -> Result<(), AllocError>
    requires { band.now.top < 2 ^ 77 }
    ensures { OnOk result (string_bytes text.new
        ≡ string_bytes text.old ++ shapes_text (bars (map signature_of exports.now) (band_in band.now) (map sight_of sights.now))) }
{
    for (index, sight) in sights.iter().enumerate() {
        push_bar_at(alloc, text, exports, band, sight, &sights[index + 1..])?;
    }
    Ok(())
}

/// The bar of a call, where it begins.
fn push_bar_at(
    alloc: Global,
    text: &mut String,
    exports: &[Export],
    band: &Band,
    sight: &Sight,
    behind: &[Sight],
) -> Result<(), AllocError>
    requires { band.now.top < 2 ^ 77 }
    ensures { OnOk result (string_bytes text.new ≡ string_bytes text.old ++ shapes_text (bar_begun exports.now band.now sight.now behind.now)) }
{
    match sight.happening {
        Happening::Begun(call) => {
            let bar = bar_of(sight, call, behind, band.frame.columns);
            push_bar(alloc, text, exports, band, &bar)
        }
        _ => Ok(()),
    }
}

/// The marks of calls that take effect.
fn push_marks(text: &mut String, band: &Band, sights: &[Sight]) -> Result<(), AllocError>
    requires { band.now.top < 2 ^ 77 }
    ensures { OnOk result (string_bytes text.new ≡ string_bytes text.old ++ shapes_text (flat_map (mark (band_in band.now)) (map sight_of sights.now))) }
{
    for sight in sights {
        push_mark(text, band, sight)?;
    }
    Ok(())
}
