//! What is printed of runs and of calls.

use ob_object_calls::Details;
use ob_picture_chart::CallRange;

/// What is printed of a run: the text of its record, by the code or by the tree of the module, or with the own steps of its calls;
/// the state behind it; or a picture of some calls or of all; or what is wrong with its texts.
#[derive(Clone, Copy, PartialEq, Eq)]
pub enum Product {
    Record,
    TreeRecord,
    RecordWithSteps,
    State,
    Picture(Option<CallRange>),
    Explanation,
}

/// What is printed of the calls of a script: their replies, made one at a time, or these with what is told beside them; what is wrong with
/// the texts; or where the calls trap.
#[derive(Clone, Copy, PartialEq, Eq)]
pub enum CallsProduct {
    Replies,
    Told(Details),
    Explanation,
    Traps,
}
