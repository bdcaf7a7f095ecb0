//! What pictures of runs show: which calls, in which column each thing that happens to them stands, what is written at them, and the elements
//! of SVG.
//!
//! One may rely on the clauses of the public functions. Sizes, colours and words may change without asking.
#![tactic(auto)]

pub mod bar;
pub mod charts;
pub mod fault;
pub mod labels;
pub mod moments;
mod order;
mod order_places;
mod row;
pub mod svg;
pub mod widths;

pub use bar::{Bar, bar_of};
pub use charts::{CallRange, Chart, Happening, MOST_CALLS, Mark, Placed, Sight, chart_of};
pub use fault::PictureFault;
pub use labels::{
    push_call, push_id, push_reply, push_short_again, push_short_answer, push_short_call,
};
pub use moments::{Moment, placed_moments, seen_moments};
pub use svg::{
    Point, close_words, open_picture, open_words, push_box, push_circle, push_line, push_numeral,
    push_words,
};
pub use widths::{LETTER, most_letters, wanted};
