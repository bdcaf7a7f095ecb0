//! Comments, which nest.

ghost use Rattle.std.specs.Prelude.{◌+◌, ◌<◌, ◌≤◌, ◌↔◌, IsTrue, length, drop, IfOk, IfErr};
ghost use Rattle.ob_scan.specs.Tokens.{OpensComment, ClosesComment, CommentEnds};
ghost use Rattle.ob_scan.specs.Scanning.{StandsFault};

use crate::fault::ScanFault;

/// Whether `(*` stands in front.
pub(crate) fn opens_comment(bytes: &[u8]) -> bool
    ensures { IsTrue result ↔ OpensComment bytes.now }
{
    bytes.starts_with(b"(*")
}

/// Whether `*)` stands in front.
fn closes_comment(bytes: &[u8]) -> bool
    ensures { IsTrue result ↔ ClosesComment bytes.now }
{
    bytes.starts_with(b"*)")
}

/// Where the comment that begins at `start` ends, behind its `*)`.
pub(crate) fn comment_end(text: &[u8], start: usize) -> Result<usize, ScanFault>
    requires { OpensComment (drop start text.now) }
    ensures within { IfOk result (λ end. (start < end) × (end ≤ length text.now)) }
    ensures ends { IfOk result (λ end. CommentEnds (drop (start + 2) text.now) (drop end text.now)) }
    ensures fault { IfErr result (λ e. StandsFault text.now start e) }
{
    // how many comments are open here
    let mut depth: usize = 1;
    let mut at = start + 2;
    while at < text.len() {
        let left = &text[at..];
        if closes_comment(left) {
            at += 2;
            depth -= 1;
            if depth == 0 {
                return Ok(at);
            }
        } else if opens_comment(left) {
            at += 2;
            depth += 1;
        } else {
            at += 1;
        }
    }
    Err(ScanFault::OpenComment(start))
}
