//! Whether calls, or words, are the same.

ghost use Rattle.std.specs.Prelude.{◌≡◌, ◌≢◌, IsFalse, IsTrue, map};
ghost use Rattle.ob_desk_floor.specs.Submission.{submission_of};

use crate::Submission;

/// Whether these are the same calls of the same processes, in the same order.
pub fn same_submissions(submissions: &[Submission], others: &[Submission]) -> bool
    ensures yes { IsTrue result → map submission_of submissions.now ≡ map submission_of others.now }
    ensures no { IsFalse result → map submission_of submissions.now ≢ map submission_of others.now }
{
    if submissions.len() != others.len() {
        return false;
    }
    for i in 0..submissions.len() {
        if !same_submission(&submissions[i], &others[i]) {
            return false;
        }
    }
    true
}

fn same_submission(submission: &Submission, other: &Submission) -> bool
    ensures yes { IsTrue result → submission_of submission.now ≡ submission_of other.now }
    ensures no { IsFalse result → submission_of submission.now ≢ submission_of other.now }
{
    if submission.process != other.process || submission.call.proc != other.call.proc {
        return false;
    }
    submission.call.args.as_slice() == other.call.args.as_slice()
}

/// Whether these are the same words.
pub fn same_words(words: &[i64], others: &[i64]) -> bool
    ensures yes { IsTrue result → words.now ≡ others.now }
    ensures no { IsFalse result → words.now ≢ others.now }
{
    words == others
}
