//! The marks of calls that take effect.

ghost use Rattle.std.specs.Prelude.{◌≡◌, ◌++◌, ◌<◌, ◌^◌, OnOk, string_bytes};
ghost use Rattle.ob_picture.specs.Shapes.{help, is_helped, mark};
ghost use Rattle.ob_picture.specs.View.{band_in};
ghost use Rattle.ob_picture_chart.specs.ChartView.{sight_of};
ghost use Rattle.ob_picture_chart.specs.Svg.{shapes_text};

use crate::pixels::Band;
use ob_picture_chart::{Happening, Point, Sight, push_circle, push_line, push_numeral};
use std::alloc::AllocError;
use wf_history::CallId;

/// The line from the process whose step makes a call to the call, where that is of another process.
#[tactic(auto, unfolding(crate::specs::Shapes::help))]
pub(crate) fn push_help(text: &mut String, band: &Band, sight: &Sight) -> Result<(), AllocError>
    requires { band.now.top < 2 ^ 77 }
    ensures { OnOk result (string_bytes text.new ≡ string_bytes text.old ++ shapes_text (help (band_in band.now) (sight_of sight.now))) }
{
    let Happening::Taken(_, Some(maker)) = sight.happening else {
        return Ok(());
    };
    if !band.is_in(sight.column) || maker == sight.id.process {
        return Ok(());
    }
    let x = band.x(sight.column as u128);
    let from = Point {
        x,
        y: band.y(maker),
    };
    let to = Point {
        x,
        y: band.y(sight.id.process),
    };
    push_line(text, "help", from, to)?;
    push_circle(text, "step", from, 3)
}

/// The number of a call in the order, where it takes effect.
#[tactic(auto, unfolding(crate::specs::Shapes::mark))]
pub(crate) fn push_mark(text: &mut String, band: &Band, sight: &Sight) -> Result<(), AllocError>
    requires { band.now.top < 2 ^ 77 }
    ensures { OnOk result (string_bytes text.new ≡ string_bytes text.old ++ shapes_text (mark (band_in band.now) (sight_of sight.now))) }
{
    let Happening::Taken(number, maker) = sight.happening else {
        return Ok(());
    };
    if !band.is_in(sight.column) {
        return Ok(());
    }
    let x = band.x(sight.column as u128);
    let y = band.y(sight.id.process);
    let (circle, words) = if is_helped(sight.id, maker) {
        ("helped", "number light")
    } else {
        ("own", "number")
    };
    push_circle(text, circle, Point { x, y }, 9)?;
    push_numeral(text, words, Point { x, y: y + 3 }, number as u128)
}

/// Whether another process makes a call.
fn is_helped(id: CallId, maker: Option<usize>) -> bool
    ensures { result ≡ is_helped id maker }
{
    match maker {
        Some(maker) => maker != id.process,
        None => false,
    }
}
