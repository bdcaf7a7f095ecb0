//! Texts with the names of their files, and what is shown of them.

ghost use Rattle.std.specs.Prelude.{◌≡◌, IfOk, option_map, string_bytes};
ghost use Rattle.ob_explain_sentences.specs.Remarks.{remark_of};
ghost use Rattle.ob_explained.specs.Sources.{shown_in, source_of};

use ob_explain_sentences::explanation::explanation;
use ob_explain_sentences::remark::Remark;
use std::alloc::{AllocError, Global};

/// A text, and the name by which its file is shown.
#[derive(Clone, Copy)]
pub struct Source<'a> {
    pub name: &'a str,
    pub text: &'a [u8],
}

/// What a remark on a text comes to.
pub fn shown(
    alloc: Global,
    source: Source<'_>,
    remark: Option<Remark>,
) -> Result<Option<String>, AllocError>
    ensures { IfOk result (λ shown. option_map string_bytes shown ≡ shown_in (source_of source.entry) (option_map remark_of remark)) }
{
    match remark {
        Some(remark) => {
            let text = explanation(alloc, source.name, source.text, &remark)?;
            Ok(Some(text))
        }
        None => Ok(None),
    }
}
