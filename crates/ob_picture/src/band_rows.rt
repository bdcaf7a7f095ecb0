//! Which processes have a row in a band.

ghost use Rattle.std.specs.Prelude.{◌≡◌, ◌≤◌, IfOk, length, map};
ghost use Rattle.ob_picture.specs.Shapes.{is_busy, is_busy_at, is_maker, rows};
ghost use Rattle.ob_picture_chart.specs.ChartView.{sight_of};

use crate::bars::is_seen;
use crate::pixels::Frame;
use ob_picture_chart::{Happening, Sight, bar_of};
use std::alloc::{AllocError, Global};

/// Of the first processes, so many, those that have something in a band.
pub(crate) fn rows_of(
    alloc: Global,
    frame: Frame,
    band: usize,
    sights: &[Sight],
    processes: usize,
) -> Result<Vec<usize>, AllocError>
    ensures rows { IfOk result (λ busy. busy.items ≡ rows frame band (map sight_of sights.now) processes) }
    ensures few { IfOk result (λ busy. length busy.items ≤ processes) }
{
    let mut busy = Vec::new(alloc);
    for process in 0..processes {
        if is_busy(frame, band, process, sights) {
            busy.push(process)?;
        }
    }
    Ok(busy)
}

/// Whether a process has something in a band.
fn is_busy(frame: Frame, band: usize, process: usize, sights: &[Sight]) -> bool
    ensures { result ≡ is_busy frame band process (map sight_of sights.now) }
{
    for (index, sight) in sights.iter().enumerate() {
        if is_busy_at(frame, band, process, sight, &sights[index + 1..]) {
            return true;
        }
    }
    false
}

/// Whether it has what is seen: a call that is seen in the band or takes effect there, or the step by which one does.
fn is_busy_at(frame: Frame, band: usize, process: usize, sight: &Sight, behind: &[Sight]) -> bool
    ensures { result ≡ is_busy_at frame band process (sight_of sight.now) (sight_of sight.now).happening (map sight_of behind.now) }
{
    match sight.happening {
        Happening::Begun(call) => {
            sight.id.process == process
                && is_seen(frame, band, &bar_of(sight, call, behind, frame.columns))
        }
        Happening::Taken(_, maker) => {
            frame.is_in(band, sight.column)
                && (sight.id.process == process || is_maker(process, maker))
        }
        Happening::Ended(_) => false,
    }
}

/// Whether the step is of this process.
fn is_maker(process: usize, maker: Option<usize>) -> bool
    ensures { result ≡ is_maker process maker }
{
    match maker {
        Some(maker) => maker == process,
        None => false,
    }
}
