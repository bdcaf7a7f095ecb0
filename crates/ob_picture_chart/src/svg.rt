//! The elements of a picture in SVG.

ghost use Rattle.std.specs.Prelude.{◌≡◌, ◌++◌, OnOk, decimal, string_bytes};
ghost use Rattle.ob_picture_chart.specs.Style.{style_text};
ghost use Rattle.ob_picture_chart.specs.Svg.{Line, Box, Circle, Words, attribute, attributes, element, open_text, close_text, opening_text};
ghost use Rattle.ob_picture_chart.specs.Svg.{shape_text, view_box};

use ob_text_words::numbers::push_number;
use std::alloc::AllocError;

/// A place, from the left and from the top.
#[derive(Clone, Copy)]
pub struct Point {
    pub x: u128,
    pub y: u128,
}

/// How the classes of elements look.
const STYLE: &str =
    "<style>text{font:11px Menlo,Consolas,'DejaVu Sans Mono',monospace;fill:#1b1b1b;stroke:#fff;stroke-width:4px;stroke-linejoin:round;paint-order:stroke}\
    .ground{fill:#fff}.head{font-size:13px;font-weight:bold}.bold{font-weight:bold}.faint{fill:#777}.middle{text-anchor:middle}.row{stroke:#bbb}\
    .tick{stroke:#eee}.done{fill:#d3e6f8;stroke:#3d77ab}.trap{fill:#fbd9b5;stroke:#b3570b}.open{fill:#e9e9e9;stroke:#777}.trapped{fill:#a34a00}\
    .help{stroke:#999;stroke-dasharray:4 3;shape-rendering:crispEdges}.step{fill:#444}.own{fill:#fff;stroke:#222}.helped{fill:#222;stroke:#222}\
    .number{font-size:9px;text-anchor:middle;stroke:none}.light{fill:#fff}.before{fill:url(#before)}.behind{fill:url(#behind)}stop{stop-color:#fff}\
    .clear{stop-opacity:0}.cross{stroke:#c21f1f;stroke-width:3}.marked{fill:#f8c4c4;stroke:#c21f1f}text.marked{fill:#b01010;stroke:#fff}</style>\n";

/// White that goes over into nothing.
const BEFORE: &str =
    "<linearGradient id=\"before\"><stop offset=\"0.2\"/><stop class=\"clear\" offset=\"1\"/></linearGradient>\n";

/// Nothing that goes over into white.
const BEHIND: &str =
    "<linearGradient id=\"behind\"><stop class=\"clear\" offset=\"0\"/><stop offset=\"0.9\"/></linearGradient>\n";

/// Begins a picture of this size.
#[tactic(auto, unfolding(crate::specs::Svg::opening_text))]
pub fn open_picture(text: &mut String, size: Point) -> Result<(), AllocError>
    ensures { OnOk result (string_bytes text.new ≡ string_bytes text.old ++ opening_text size) }
{
    text.push_str("<svg xmlns=\"http://www.w3.org/2000/svg\"")?;
    push_view_box(text, size)?;
    push_size(text, "width", "height", size)?;
    text.push_str(">\n")?;
    push_style(text)?;
    Ok(())
}

#[tactic(auto, unfolding(crate::specs::Svg::view_box))]
fn push_view_box(text: &mut String, size: Point) -> Result<(), AllocError>
    ensures { OnOk result (string_bytes text.new ≡ string_bytes text.old ++ view_box size) }
{
    text.push_str(" viewBox=\"0 0 ")?;
    push_number(text, size.x)?;
    text.push_str(" ")?;
    push_number(text, size.y)?;
    text.push_str("\"")?;
    Ok(())
}

#[tactic(auto, unfolding(crate::specs::Style::style_text))]
fn push_style(text: &mut String) -> Result<(), AllocError>
    ensures { OnOk result (string_bytes text.new ≡ string_bytes text.old ++ style_text) }
{
    text.push_str(STYLE)?;
    text.push_str(BEFORE)?;
    text.push_str(BEHIND)
}

/// A line from one place to another.
#[tactic(auto, unfolding(crate::specs::Svg::shape_text))]
pub fn push_line(text: &mut String, class: &str, from: Point, to: Point) -> Result<(), AllocError>
    ensures { OnOk result (string_bytes text.new ≡ string_bytes text.old ++ shape_text (Line class.now from to)) }
{
    open_element(text, "line", class)?;
    push_size(text, "x1", "y1", from)?;
    push_size(text, "x2", "y2", to)?;
    text.push_str("/>\n")
}

/// A box, by its upper left corner and its size.
#[tactic(auto, unfolding(crate::specs::Svg::shape_text))]
pub fn push_box(
    text: &mut String,
    class: &str,
    corner: Point,
    size: Point,
) -> Result<(), AllocError>
    ensures { OnOk result (string_bytes text.new ≡ string_bytes text.old ++ shape_text (Box class.now corner size)) }
{
    open_element(text, "rect", class)?;
    push_size(text, "x", "y", corner)?;
    push_size(text, "width", "height", size)?;
    text.push_str("/>\n")
}

/// A circle around a place.
#[tactic(auto, unfolding(crate::specs::Svg::shape_text))]
pub fn push_circle(
    text: &mut String,
    class: &str,
    center: Point,
    radius: u128,
) -> Result<(), AllocError>
    ensures { OnOk result (string_bytes text.new ≡ string_bytes text.old ++ shape_text (Circle class.now center radius)) }
{
    open_element(text, "circle", class)?;
    push_size(text, "cx", "cy", center)?;
    push_attribute(text, "r", radius)?;
    text.push_str("/>\n")
}

/// Words that stand at a place.
#[tactic(auto, unfolding(crate::specs::Svg::shape_text))]
pub fn push_words(text: &mut String, class: &str, at: Point, words: &str) -> Result<(), AllocError>
    ensures { OnOk result (string_bytes text.new ≡ string_bytes text.old ++ shape_text (Words class.now at words.now)) }
{
    open_words(text, class, at)?;
    text.push_str(words)?;
    close_words(text)
}

/// A number that stands at a place.
#[tactic(auto, unfolding(crate::specs::Svg::shape_text))]
pub fn push_numeral(
    text: &mut String,
    class: &str,
    at: Point,
    number: u128,
) -> Result<(), AllocError>
    ensures { OnOk result (string_bytes text.new ≡ string_bytes text.old ++ shape_text (Words class.now at (decimal number))) }
{
    open_words(text, class, at)?;
    push_number(text, number)?;
    close_words(text)
}

/// Begins words that stand at a place.
pub fn open_words(text: &mut String, class: &str, at: Point) -> Result<(), AllocError>
    ensures { OnOk result (string_bytes text.new ≡ string_bytes text.old ++ open_text class.now at) }
{
    open_element(text, "text", class)?;
    push_size(text, "x", "y", at)?;
    text.push_str(">")
}

/// Ends words that were begun so, with a line feed behind them.
pub fn close_words(text: &mut String) -> Result<(), AllocError>
    ensures { OnOk result (string_bytes text.new ≡ string_bytes text.old ++ close_text) }
{
    text.push_str("</text>\n")
}

fn open_element(text: &mut String, name: &str, class: &str) -> Result<(), AllocError>
    ensures { OnOk result (string_bytes text.new ≡ string_bytes text.old ++ element name.now class.now) }
{
    text.push_str("<")?;
    text.push_str(name)?;
    text.push_str(" class=\"")?;
    text.push_str(class)?;
    text.push_str("\"")
}

/// Two attributes with the numbers of a place or a size.
fn push_size(text: &mut String, across: &str, down: &str, size: Point) -> Result<(), AllocError>
    ensures { OnOk result (string_bytes text.new ≡ string_bytes text.old ++ attributes across.now down.now size) }
{
    push_attribute(text, across, size.x)?;
    push_attribute(text, down, size.y)
}

fn push_attribute(text: &mut String, name: &str, number: u128) -> Result<(), AllocError>
    ensures { OnOk result (string_bytes text.new ≡ string_bytes text.old ++ attribute name.now number) }
{
    text.push_str(" ")?;
    text.push_str(name)?;
    text.push_str("=\"")?;
    push_number(text, number)?;
    text.push_str("\"")
}
