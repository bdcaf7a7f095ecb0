//! The first line of a record.

ghost use Rattle.std.specs.Prelude.{◌≡◌};
ghost use Rattle.ob_explain_arguments.specs.Records.{title_sentence};

use crate::other_lines::{ORDER_MARK, begins_order_mark};

/// What is said of the first line of a record that is not the one that a record has, by what it has from its first word on.
pub fn title_sentence(from: &[u8]) -> &'static str
    ensures { result.now ≡ title_sentence from.now }
{
    if begins_order_mark(from) {
        ORDER_MARK
    } else {
        "the first line of a record is obl0 record 2, or obl0 record 1, which has no budget, or obl0 record 3, which has I lines"
    }
}
