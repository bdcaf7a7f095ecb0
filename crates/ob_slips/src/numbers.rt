//! Numbers as other languages write them.

use itoa::Buffer;
use ob_evidence::text_site::Site;
use ob_mendings::fix::worded;
use ob_mendings::mending::Mending;
use ob_mendings::tokens::between;
use ob_scan::Kind;
use std::alloc::{AllocError, Global};

/// The mending of a hexadecimal number, as `0x1F`: its value.
pub(crate) fn hexadecimal_mending(
    alloc: Global,
    site: &Site<'_, '_>,
) -> Result<Option<Mending>, AllocError> {
    let (Some(zero), Some(digits)) = (site.last(), site.here()) else {
        return Ok(None);
    };
    let is_zero = zero.kind == Kind::Number
        && between(site.text, zero.start, zero.end) == b"0".as_slice();
    let value = match site.word() {
        [b'x' | b'X', rest @ ..] => hexadecimal(rest),
        _ => None,
    };
    match value {
        Some(value) if is_zero && zero.end == digits.start => {
            let mut buffer = Buffer::new();
            let taken = digits.end.saturating_sub(zero.start);
            let put = buffer.format(value).as_bytes();
            worded(alloc, zero.start, taken, put, " in its place")
        }
        _ => Ok(None),
    }
}

/// The value of hexadecimal digits, of which there are one to seven.
fn hexadecimal(digits: &[u8]) -> Option<usize> {
    let mut value: usize = 0;
    for digit in digits {
        let one = match *digit {
            b'0'..=b'9' => digit.saturating_sub(b'0'),
            b'a'..=b'f' => digit.saturating_sub(b'a').saturating_add(10),
            b'A'..=b'F' => digit.saturating_sub(b'A').saturating_add(10),
            _ => return None,
        };
        value = value.saturating_mul(16).saturating_add(usize::from(one));
    }
    (!digits.is_empty() && digits.len() < 8).then_some(value)
}
