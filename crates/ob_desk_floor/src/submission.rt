//! Calls that processes are to make.

ghost use Rattle.std.specs.Prelude.{◌≡◌, IfOk, map};
ghost use Rattle.ob_desk_floor.specs.Submission.{submission_of};
ghost use Rattle.ob_interface.specs.View.{call_of};

use ob_interface::call::Call;
use smallvec::SmallVec;
use std::alloc::{AllocError, Global};

/// A call that a process is to make.
#[derive(Drop)]
pub struct Submission {
    pub process: usize,
    pub call: Call,
}

/// Equal calls, of the same processes.
pub fn copied_submissions(
    alloc: Global,
    submissions: &[Submission],
) -> Result<Vec<Submission>, AllocError>
    ensures { IfOk result (λ v. map submission_of v.items ≡ map submission_of submissions.now) }
{
    let mut copies = Vec::with_capacity(alloc, submissions.len())?;
    for submission in submissions {
        copies.push(Submission {
            process: submission.process,
            call: copied_call(alloc, &submission.call)?,
        })?;
    }
    Ok(copies)
}

/// An equal call. Nothing is copied of arguments where there are none.
pub fn copied_call(alloc: Global, call: &Call) -> Result<Call, AllocError>
    ensures { IfOk result (λ c. call_of c ≡ call_of call.now) }
{
    let args = if call.args.is_empty() {
        SmallVec::new(alloc)
    } else {
        SmallVec::from_slice(alloc, call.args.as_slice())?
    };
    Ok(Call {
        proc: call.proc,
        args,
    })
}
