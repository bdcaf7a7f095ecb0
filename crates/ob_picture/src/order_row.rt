//! The order, below the bands.

ghost use Rattle.std.specs.Prelude.{◌≡◌, ◌++◌, ◌<◌, ◌^◌, OnOk, codes, string_bytes};
ghost use Rattle.ob_picture.specs.Places.{cell};
ghost use Rattle.ob_picture.specs.Shapes.{cell_words, order_shapes};
ghost use Rattle.ob_picture_chart.specs.Svg.{Words, shape_text, shapes_text};

use crate::pixels::Frame;
use ob_picture_chart::{Placed, Point, close_words, open_words, push_id, push_words};
use ob_text_words::numbers::push_number;
use std::alloc::AllocError;

/// The calls that took effect, in their order.
#[tactic(auto, unfolding(crate::specs::Shapes::order_shapes))]
pub(crate) fn push_order(
    text: &mut String,
    frame: Frame,
    below: u128,
    order: &[Placed],
) -> Result<(), AllocError>
    requires { below < 2 ^ 77 }
    ensures { OnOk result (string_bytes text.new ≡ string_bytes text.old ++ shapes_text (order_shapes frame below order.now)) }
{
    let at = Point {
        x: 12,
        y: frame.cell(below, 0).y,
    };
    push_words(text, "bold", at, "order")?;
    for (place, placed) in order.iter().enumerate() {
        push_cell(text, frame.cell(below, place), *placed)?;
    }
    Ok(())
}

/// A call of the order, with its number.
#[tactic(auto, unfolding(crate::specs::Shapes::cell_words, ob_picture_chart::specs::Svg::shape_text))]
fn push_cell(text: &mut String, at: Point, placed: Placed) -> Result<(), AllocError>
    ensures { OnOk result (string_bytes text.new ≡ string_bytes text.old ++ shape_text (Words (codes "cell") at (cell_words placed))) }
{
    open_words(text, "cell", at)?;
    push_number(text, placed.number)?;
    text.push_str(": ")?;
    push_id(text, placed.id)?;
    close_words(text)
}
