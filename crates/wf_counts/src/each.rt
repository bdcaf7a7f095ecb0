//! Counts each by itself.

ghost use Rattle.std.specs.Prelude.{◌≡◌, ◌↔◌, ◌<◌, length, IfOk, IsTrue};
ghost use Rattle.wf_counts.specs.Digits.{one_more_at};

use ob_interface::NoMemory;
use std::alloc::Global;

/// The counts with one more at a place.
pub(crate) fn with_one_more(alloc: Global, each: &[u32], place: usize) -> Result<Vec<u32>, NoMemory>
    requires { place < length each.now }
    ensures { IfOk result (λ more. more.items ≡ one_more_at place each.now) }
{
    let Some(count) = each[place].checked_add(1) else {
        return Err(NoMemory);
    };
    let mut more = Vec::from_slice(alloc, each)?;
    more[place] = count;
    Ok(more)
}
