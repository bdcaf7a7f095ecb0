//! Texts one behind the other.

ghost use Rattle.std.specs.Prelude.{IfOk, map, option_map};
ghost use Rattle.ob_answer_files.specs.Texts.{AreTextsIn};

use std::alloc::{AllocError, Global};

/// The bytes of texts, one behind the other, and the length of each.
#[derive(Clone, Copy)]
pub struct Joined<'a> {
    pub bytes: &'a [u8],
    pub lengths: &'a [usize],
}

/// The texts; none where the lengths are not those of all the bytes.
pub fn texts_in<'a>(alloc: Global, joined: Joined<'a>) -> Result<Option<Vec<&'a [u8]>>, AllocError>
    ensures { IfOk result (λ found. AreTextsIn joined.entry.bytes.now joined.entry.lengths.now
        (option_map (λ texts. map (λ text. text.now) texts.items) found)) }
{
    let mut texts = Vec::new(alloc);
    let mut rest = joined.bytes;
    for length in joined.lengths {
        let Some((text, behind)) = rest.split_at_checked(*length) else {
            return Ok(None);
        };
        texts.push(text)?;
        rest = behind;
    }
    if rest.is_empty() {
        Ok(Some(texts))
    } else {
        Ok(None)
    }
}
