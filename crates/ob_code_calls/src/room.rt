//! What calls work in.

ghost use Rattle.std.specs.Prelude.{◌≡◌};

use ob_code_machine::Body;

/// What calls work in: a body with its stack, and room for the words of a call and of its results. It is made once, and serves each call
/// that follows.
pub struct Room {
    pub(crate) run: Body,
    pub(crate) reserve: usize,
    pub(crate) call: Vec<i64>,
    pub(crate) results: Vec<i64>,
    ghost same_reserve: { reserve ≡ run.reserve },
}

/// Written here, so that it is proved here once, and not in each crate that lets one go.
impl Drop for Room {
    fn drop(self) {
        let Room {
            run: _,
            reserve: _,
            call: _,
            results: _,
        } = self;
    }
}
