//! Names that are not there, where another one is near, and one behind END.

use ob_diagnosis::module_remark::remark_on;
use ob_evidence::nearest_names::{end_name, is_near, near_name};
use ob_evidence::text_site::{Site, is_kind};
use ob_explain_sentences::table_rows::Number;
use ob_explain_words::distance::bytes_of;
use ob_mendings::fix::worded;
use ob_mendings::mending::Mending;
use ob_scan::Kind;
use std::alloc::{AllocError, Global};

/// The mending of a name at the place of which none is visible there, where a near one is asked about.
pub(crate) fn near_mending(
    alloc: Global,
    site: &Site<'_, '_>,
) -> Result<Option<Mending>, AllocError> {
    let near = near_name(alloc, site)?;
    if !is_near(near) || has_hint(alloc, site, Number::C1)? {
        return Ok(None);
    }
    named(alloc, site, bytes_of(site.text, near.named))
}

/// The mending of a name at the place behind an END that closes something of another name.
pub(crate) fn end_mending(
    alloc: Global,
    site: &Site<'_, '_>,
) -> Result<Option<Mending>, AllocError> {
    match end_name(site) {
        Some(name)
            if is_kind(site.next(), Kind::Semicolon) || !has_hint(alloc, site, Number::P3)? => {
            named(alloc, site, site.word_of(Some(name)))
        }
        _ => Ok(None),
    }
}

/// Whether the remark on a fault of this number at the place has a hint.
fn has_hint(alloc: Global, site: &Site<'_, '_>, number: Number) -> Result<bool, AllocError> {
    let remark = remark_on(alloc, site.text, number, site.place)?;
    Ok(remark.hint.is_some())
}

/// The mending that puts a name in place of the word there.
fn named(alloc: Global, site: &Site<'_, '_>, name: &[u8]) -> Result<Option<Mending>, AllocError> {
    worded(alloc, site.place, site.word().len(), name, " in its place")
}
