//! Where the places of a mended text stand in the module's own text.

ghost use Rattle.std.specs.Prelude.{◌≡◌};
ghost use Rattle.ob_mendings.specs.Mendings.{origin, origin_in};

/// How a mending moves what stands behind it: at a place so many bytes are taken out, and no fewer put there.
#[derive(Clone, Copy)]
pub struct Move {
    pub place: usize,
    pub taken: usize,
    pub put: usize,
}

/// Where a place of the text with these mendings, the last one first, stands in the text.
pub fn origin_in(moves: &[Move], at: usize) -> usize
    ensures { result ≡ origin_in moves.now at }
{
    let mut place = at;
    for moved in moves {
        place = origin(*moved, place);
    }
    place
}

/// Where a place of the text with a mending stands in the text.
pub fn origin(moved: Move, at: usize) -> usize
    ensures { result ≡ origin moved at }
{
    if at < moved.place {
        at
    } else if at - moved.place < moved.put {
        moved.place
    } else {
        at - moved.put.saturating_sub(moved.taken)
    }
}
