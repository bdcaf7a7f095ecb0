//! How the calls of a history are kept: in rows, one for each process.

ghost use Rattle.std.specs.Prelude.{map};
ghost use Rattle.wf_order.specs.Rising.{EachRises};

use crate::rows::{Begun, Ended};

/// Of each process the calls that it began and the replies that it got, in order; and the number of events.
#[derive(Drop)]
pub struct KeptRows<'a> {
    pub(crate) begun: Vec<Vec<Begun<'a>>>,
    pub(crate) ended: Vec<Vec<Ended<'a>>>,
    pub(crate) events: usize,
    ghost begun_rise: { EachRises (λ b. b.place) (map (λ row. row.items) begun.items) },
    ghost ended_rise: { EachRises (λ e. e.place) (map (λ row. row.items) ended.items) },
}

/// The same, as far as the first events go, so many: what stands in a row behind them is not looked at.
#[derive(Drop)]
pub struct Rows<'r, 'a> {
    pub begun: &'r [Vec<Begun<'a>>],
    pub ended: &'r [Vec<Ended<'a>>],
    pub events: usize,
    ghost begun_rise: { EachRises (λ b. b.place) (map (λ row. row.items) begun.now) },
    ghost ended_rise: { EachRises (λ e. e.place) (map (λ row. row.items) ended.now) },
}
