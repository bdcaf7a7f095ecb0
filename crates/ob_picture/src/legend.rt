//! What the shapes of a picture stand for.

ghost use Rattle.std.specs.Prelude.{◌≡◌, ◌+◌, ◌++◌, ◌<◌, OnOk, string_bytes};
ghost use Rattle.ob_picture.specs.Places as Places;
ghost use Rattle.ob_picture.specs.Shapes.{bar_key, bar_keys, call_keys, event_keys, fade_keys, helped_keys, mark_key, mark_keys, text_keys, word_keys};
ghost use Rattle.ob_picture_chart.specs.Svg.{shapes_text};

use crate::bars::push_cross;
use ob_picture_chart::{Point, push_box, push_circle, push_line, push_numeral, push_words};
use std::alloc::AllocError;

fn at(x: u128, y: u128) -> Point
    ensures { result ≡ Places.at x y }
{
    Point { x, y }
}

/// What is seen of calls.
#[tactic(auto, unfolding(crate::specs::Shapes::call_keys))]
pub(crate) fn push_call_keys(text: &mut String) -> Result<(), AllocError>
    ensures { OnOk result (string_bytes text.new ≡ string_bytes text.old ++ shapes_text call_keys) }
{
    push_bar_keys(text)?;
    push_fade_keys(text)
}

/// What the words of a picture are.
#[tactic(auto, unfolding(crate::specs::Shapes::text_keys))]
pub(crate) fn push_text_keys(text: &mut String) -> Result<(), AllocError>
    ensures { OnOk result (string_bytes text.new ≡ string_bytes text.old ++ shapes_text text_keys) }
{
    push_word_keys(text)?;
    push_event_keys(text)
}

/// What the bars are.
#[tactic(auto, unfolding(crate::specs::Shapes::bar_keys))]
fn push_bar_keys(text: &mut String) -> Result<(), AllocError>
    ensures { OnOk result (string_bytes text.new ≡ string_bytes text.old ++ shapes_text bar_keys) }
{
    push_bar_key(text, "done", 36, "a call, from its begin to its end")?;
    push_bar_key(text, "trap", 64, "a call that trapped")?;
    push_bar_key(text, "open", 92, "a call that does not end here")?;
    push_cross(text, 46, 102)
}

/// What the bar of a call is that has no room for its end.
#[tactic(auto, unfolding(crate::specs::Shapes::fade_keys))]
fn push_fade_keys(text: &mut String) -> Result<(), AllocError>
    ensures { OnOk result (string_bytes text.new ≡ string_bytes text.old ++ shapes_text fade_keys) }
{
    push_bar_key(text, "done", 120, "a call that goes on in the next band")?;
    push_box(text, "behind", at(24, 119), at(25, 22))
}

#[tactic(auto, unfolding(crate::specs::Shapes::bar_key))]
fn push_bar_key(text: &mut String, class: &str, y: u128, words: &str) -> Result<(), AllocError>
    requires { y < 200 }
    ensures { OnOk result (string_bytes text.new ≡ string_bytes text.old ++ shapes_text (bar_key class.now y words.now)) }
{
    push_box(text, class, at(12, y), at(34, 20))?;
    push_words(text, "key", at(64, y + 14), words)
}

/// What the marks are.
#[tactic(auto, unfolding(crate::specs::Shapes::mark_keys))]
pub(crate) fn push_mark_keys(text: &mut String) -> Result<(), AllocError>
    ensures { OnOk result (string_bytes text.new ≡ string_bytes text.old ++ shapes_text mark_keys) }
{
    let own = "took effect, as number 1 of the order";
    push_mark_key(text, "own", "number", 46, 1, own)?;
    push_helped_keys(text)
}

#[tactic(auto, unfolding(crate::specs::Shapes::helped_keys))]
fn push_helped_keys(text: &mut String) -> Result<(), AllocError>
    ensures { OnOk result (string_bytes text.new ≡ string_bytes text.old ++ shapes_text helped_keys) }
{
    let helped = "took effect by a step of another process,";
    let behind = "the one at the other end of the line";
    let from = Point { x: 400, y: 74 };
    let to = Point { x: 400, y: 106 };
    push_line(text, "help", from, to)?;
    push_circle(text, "step", to, 3)?;
    push_words(text, "key", Point { x: 418, y: 94 }, behind)?;
    push_mark_key(text, "helped", "number light", 74, 2, helped)?;
    Ok(())
}

/// A mark, by the classes of its circle and of its numeral.
#[tactic(auto, unfolding(crate::specs::Shapes::mark_key))]
fn push_mark_key(
    text: &mut String,
    circle: &str,
    numeral: &str,
    y: u128,
    number: u128,
    words: &str,
) -> Result<(), AllocError>
    requires { y < 200 }
    ensures { OnOk result (string_bytes text.new ≡ string_bytes text.old ++ shapes_text (mark_key circle.now numeral.now y number words.now)) }
{
    push_circle(text, circle, at(400, y), 9)?;
    push_numeral(text, numeral, at(400, y + 3), number)?;
    push_words(text, "key", at(418, y + 4), words)
}

/// What words below a bar are, and what dots stand for.
#[tactic(auto, unfolding(crate::specs::Shapes::word_keys))]
fn push_word_keys(text: &mut String) -> Result<(), AllocError>
    ensures { OnOk result (string_bytes text.new ≡ string_bytes text.old ++ shapes_text word_keys) }
{
    let values = "below it the values of its reply, or done";
    let rest = "cut here; whole in the SVG, as the bar's title";
    push_words(text, "reply", Point { x: 12, y: 162 }, "= 7")?;
    push_words(text, "key", Point { x: 64, y: 162 }, values)?;
    push_words(text, "label", Point { x: 396, y: 162 }, "\u{2026}")?;
    push_words(text, "key", Point { x: 418, y: 162 }, rest)?;
    Ok(())
}

/// What the numbers above the columns are, and which processes have a row.
#[tactic(auto, unfolding(crate::specs::Shapes::event_keys))]
fn push_event_keys(text: &mut String) -> Result<(), AllocError>
    ensures { OnOk result (string_bytes text.new ≡ string_bytes text.old ++ shapes_text event_keys) }
{
    let event = "each column is one event of the run, here event 5";
    let row =
        "A process has a row in those bands alone in which it has a call, or makes one of another process.";
    push_words(text, "faint middle", Point { x: 400, y: 134 }, "5")?;
    push_words(text, "key", Point { x: 418, y: 134 }, event)?;
    push_words(text, "key", Point { x: 12, y: 190 }, row)?;
    Ok(())
}
