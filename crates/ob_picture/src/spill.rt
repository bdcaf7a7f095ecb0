//! How far words go on behind the end of a band.

ghost use Rattle.std.specs.Prelude.{◌≡◌, ◌<◌, ◌^◌, IfOk, map};
ghost use Rattle.ob_interface.specs.View.{signature_of};
ghost use Rattle.ob_picture.specs.Shapes.{overhang, overhang_of, spill};
ghost use Rattle.ob_picture_chart.specs.ChartView.{sight_of};
ghost use Rattle.ob_picture_chart.specs.LabelsView.{bar_in};

use crate::bars::{is_seen, left, letters};
use crate::pixels::Frame;
use ob_interface::export::Export;
use ob_picture_chart::{Bar, Happening, LETTER, Sight, bar_of, most_letters};
use std::alloc::{AllocError, Global};

/// How far the words of calls go on behind the end of a band.
pub(crate) fn spill_of(
    alloc: Global,
    exports: &[Export],
    frame: Frame,
    band: usize,
    sights: &[Sight],
) -> Result<u128, AllocError>
    ensures value { IfOk result (λ most. most ≡ spill (map signature_of exports.now) frame band (map sight_of sights.now)) }
    ensures small { IfOk result (λ most. most < 2 ^ 77) }
{
    let mut most = 0;
    for (index, sight) in sights.iter().enumerate() {
        let behind = &sights[index + 1..];
        let overhang = overhang_at(alloc, exports, frame, band, sight, behind)?;
        most = overhang.max(most);
    }
    Ok(most)
}

/// How far the words of a call do, where it begins.
fn overhang_at(
    alloc: Global,
    exports: &[Export],
    frame: Frame,
    band: usize,
    sight: &Sight,
    behind: &[Sight],
) -> Result<u128, AllocError>
    ensures value { IfOk result (λ width. width ≡ overhang_of (map signature_of exports.now) frame band (sight_of sight.now) (map sight_of behind.now)) }
    ensures small { IfOk result (λ width. width < 2 ^ 77) }
{
    match sight.happening {
        Happening::Begun(call) => {
            let bar = bar_of(sight, call, behind, frame.columns);
            overhang(alloc, exports, frame, band, &bar)
        }
        _ => Ok(0),
    }
}

/// How far the words of a call do: at most as many letters as have room there.
#[tactic(auto, unfolding(crate::specs::Shapes::overhang))]
fn overhang(
    alloc: Global,
    exports: &[Export],
    frame: Frame,
    band: usize,
    bar: &Bar,
) -> Result<u128, AllocError>
    ensures value { IfOk result (λ width. width ≡ overhang (map signature_of exports.now) frame band (bar_in bar.now)) }
    ensures small { IfOk result (λ width. width < 2 ^ 77) }
{
    if !is_seen(frame, band, bar) || frame.is_in(band, bar.next) {
        return Ok(0);
    }
    let most = most_letters(alloc, exports, bar)? as u128;
    let count = letters(frame, band, bar).min(most);
    let end = left(frame, band, bar) + LETTER * count;
    Ok(end.saturating_sub(frame.x(band, frame.columns as u128)))
}
