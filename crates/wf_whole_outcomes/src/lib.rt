//! All whole outcomes of the merges of scripts: all replies and the last state together, each once, with the first order that gives it.
//!
//! What an exploration has found is a graph. `search_all` goes over it layer by layer, and keeps of each way only where it leads and what was
//! said on it. The last layer tells the outcomes: the lists of replies of its nodes, and the ways there. One may rely on the clauses of
//! `search_all`, `way_back`, `wholes_told` and `ToldWholes`.
#![tactic(auto)]

pub mod edges;
mod graph;
pub mod growing;
pub mod layers;
pub mod leaves;
pub mod nodes;
pub mod ways;
pub mod wholes;

pub use edges::Edge;
pub use growing::{Came, Ground};
pub use layers::{Front, LayersFault, search_all};
pub use leaves::OrderRoom;
pub use nodes::{Layer, Link, Lists, Node, Told};
pub use ways::way_back;
pub use wholes::{ToldWholes, wholes_told};
