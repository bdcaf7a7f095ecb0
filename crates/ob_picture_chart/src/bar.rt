//! Calls from their begin to their end.

ghost use Rattle.std.specs.Prelude.{◌≡◌, map, option_map};
ghost use Rattle.ob_picture_chart.specs.ChartView.{sight_of};
ghost use Rattle.ob_picture_chart.specs.Bars.{bar_of, begin_of, end_of};
ghost use Rattle.ob_picture_chart.specs.LabelsView.{bar_in};
ghost use Rattle.wf_history.specs.View.{seen_call, seen_reply};

use crate::{Happening, Sight};
use wf_history::{CallId, SeenCall, SeenReply};

/// A call from its begin on.
#[derive(Clone, Copy)]
pub struct Bar<'a> {
    pub id: CallId,
    pub call: SeenCall<'a>,
    pub begin: usize,
    /// The column of its end, or of the end of the picture.
    pub end: usize,
    pub reply: Option<SeenReply<'a>>,
    /// The column in which its process begins its next call, or that of the end of the picture.
    pub next: usize,
}

/// The bar of a call that begins, by what is seen behind that.
pub fn bar_of<'a>(
    sight: &Sight,
    call: SeenCall<'a>,
    behind: &[Sight<'a>],
    columns: usize,
) -> Bar<'a>
    ensures { bar_in result ≡ bar_of columns (sight_of sight.now) (seen_call call.entry) (map sight_of behind.now) }
{
    let end = end_of(behind, sight.id);
    Bar {
        id: sight.id,
        call,
        begin: sight.column,
        end: end.map_or(columns, |end| end.0),
        reply: end.map(|end| end.1),
        next: begin_of(behind, sight.id.process).unwrap_or(columns),
    }
}

/// The column in which a call ends, with its reply.
fn end_of<'a>(sights: &[Sight<'a>], id: CallId) -> Option<(usize, SeenReply<'a>)>
    ensures { option_map (λ end. (end.0, seen_reply end.1)) result ≡ end_of id (map sight_of sights.now) }
{
    for sight in sights {
        if let Happening::Ended(reply) = sight.happening
            && sight.id == id
        {
            return Some((sight.column, reply));
        }
    }
    None
}

/// The column in which a process begins a call.
fn begin_of(sights: &[Sight], process: usize) -> Option<usize>
    ensures { result ≡ begin_of process (map sight_of sights.now) }
{
    for sight in sights {
        if let Happening::Begun(_) = sight.happening
            && sight.id.process == process
        {
            return Some(sight.column);
        }
    }
    None
}
