//! Lines of a script that are no calls.

ghost use Rattle.std.specs.Prelude.{◌≡◌, bytes_eq, codes};
ghost use Rattle.ob_explain_arguments.specs.Marks.{begins, begins_comment, byte_order_mark};
ghost use Rattle.ob_explain_arguments.specs.ScriptLines.{name_sentence, process_sentence};

/// The bytes of a byte order mark.
const BYTE_ORDER_MARK: &[u8] = &[0xef, 0xbb, 0xbf];

/// The word that a record begins with.
const RECORD: &[u8] = b"obl0";

/// What is said of a byte order mark.
pub(crate) const ORDER_MARK: &str =
    "a byte order mark stands here, which no editor shows; save the file without it";

/// What is said of a word where a line has no process.
pub fn process_sentence(word: &[u8]) -> &'static str
    ensures { result.now ≡ process_sentence word.now }
{
    if begins_order_mark(word) {
        ORDER_MARK
    } else if begins_comment(word) {
        "a remark is a line of its own that begins with #"
    } else if begins_record(word) {
        "a script has calls alone, as 0 Push 1; where this is a record, write --record before its name"
    } else {
        "a line is a call, and begins with its process, of one to nine digits, as 0 Push 1"
    }
}

/// Whether a word begins with a byte order mark.
pub(crate) fn begins_order_mark(word: &[u8]) -> bool
    ensures { result ≡ begins byte_order_mark word.now }
{
    word.starts_with(BYTE_ORDER_MARK)
}

/// Whether this is the word that a record begins with.
fn begins_record(word: &[u8]) -> bool
    ensures { result ≡ bytes_eq word.now (codes "obl0") }
{
    word == RECORD
}

/// Whether a word begins a comment as other languages have them, or as modules have.
pub(crate) fn begins_comment(word: &[u8]) -> bool
    ensures { result ≡ begins_comment word.now }
{
    word.starts_with(b"//") || word.starts_with(b"(*") || word.starts_with(b"--")
}

/// What is said of a word where a line has no name of a procedure.
pub fn name_sentence(word: &[u8]) -> &'static str
    ensures { result.now ≡ name_sentence word.now }
{
    if word.is_empty() {
        "behind its process a call has the name of a procedure, as 0 Push 1"
    } else if begins_comment(word) {
        "a remark is a line of its own that begins with #"
    } else if word.contains(&b';') {
        "a call ends with its line, and no ; stands behind it, as 0 Push 1"
    } else if word.contains(&b'(') {
        "values stand behind the name with blanks between, and with no parentheses, as 0 Push 1"
    } else {
        "behind its process a call has the name of a procedure, which has letters and digits and is no keyword, and then its values, as 0 Push 1"
    }
}
