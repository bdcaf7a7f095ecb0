//! Counts as the digits of one number.

ghost use Rattle.std.specs.Prelude.{◌≡◌, ◌<◌, ◌≤◌, ◌^◌, ◌*◌, ◌/◌, ◌%◌, get_or, slice_get, IfOk, MatchOption};
ghost use Rattle.wf_counts.specs.Digits.{digits, IsRaised};

use ob_interface::NoMemory;
use std::alloc::Global;

/// A digit of a number.
#[inline(always)]
fn digit(number: u64, place: usize) -> u64
    requires { place < 8 }
    ensures { result ≡ number / 2 ^ (8 * place) % 256 }
{
    number >> (8 * place as u32) & 255
}

/// The count of a process, if there is one.
#[inline(always)]
pub(crate) fn digit_at(number: u64, many: usize, place: usize) -> Option<u32>
    requires { many ≤ 8 }
    ensures { result ≡ slice_get (digits many number) place }
{
    if place >= many {
        return None;
    }
    Some(digit(number, place) as u32)
}

/// The number with one more at a place, unless the digit there is the greatest one.
#[inline(always)]
pub(crate) fn raised(number: u64, many: usize, place: usize) -> Option<u64>
    requires many { many ≤ 8 }
    requires number { number < 2 ^ (8 * many) }
    requires place { place < many }
    ensures { MatchOption result (get_or (digits many number) place 0 ≡ 255) (IsRaised many number place) }
{
    if digit(number, place) == 255 {
        return None;
    }
    Some(number + (1_u64 << (8 * place as u32)))
}

/// All digits of a number.
pub(crate) fn all_digits(alloc: Global, number: u64, many: usize) -> Result<Vec<u32>, NoMemory>
    ensures { IfOk result (λ each. each.items ≡ digits many number) }
{
    let mut each = Vec::new(alloc);
    let mut rest = number;
    for _ in 0..many {
        each.push((rest % 256) as u32)?;
        rest /= 256;
    }
    Ok(each)
}
