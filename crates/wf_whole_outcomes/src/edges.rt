//! The edges of a graph.

ghost use Rattle.std.specs.Prelude.{◌≡◌};
ghost use Rattle.wf_whole_outcomes.specs.Graph.{edge_from, rows_in};

/// To which place a call leads, and the number of its reply.
#[derive(Clone, Copy)]
pub struct Edge {
    pub to: usize,
    pub reply: usize,
}

/// What the next call of a process leads to from a place, if it is known.
pub(crate) fn known_edge(rows: &[Vec<Option<Edge>>], place: usize, process: usize) -> Option<Edge>
    ensures { result ≡ edge_from (rows_in rows.now) place process }
{
    *rows.get(place)?.get(process)?
}
