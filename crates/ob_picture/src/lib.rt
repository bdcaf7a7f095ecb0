//! Pictures of runs.
#![tactic(auto)]

mod band_rows;
mod bands;
mod bars;
pub mod drawing;
mod legend;
mod marks;
mod order_row;
mod pixels;
mod spill;

pub use drawing::{draw, picture};
