//! What there is of calls that are made as they come.

ghost use Rattle.std.specs.Prelude.{◌≡◌, vec_len};

use ob_checked::checked::Checked;
use ob_store::state::State;
use ob_text_scripts::ScriptFault;

/// What calls are made on: a checked module, by so many processes, with a budget of turns for each call, from a state, which was carried over
/// or not.
#[derive(Drop)]
pub struct Ground {
    pub checked: Checked,
    pub processes: usize,
    pub budget: u64,
    pub opening: State,
    pub carried: bool,
}

/// The state behind the calls that were made so far, how many each process has made, and the lines and the names that tell them in a record.
#[derive(Drop)]
pub struct Live {
    pub(crate) ground: Ground,
    pub(crate) state: State,
    pub(crate) made: Vec<u64>,
    pub(crate) events: String,
    pub(crate) order: String,
    ghost each: { vec_len made ≡ ground.processes },
}

/// What is told of a text of calls: the lines of their replies, or why the text is no script. Then none of its calls was made.
#[derive(Drop)]
pub enum Told {
    Lines(String),
    Fault(ScriptFault),
}
