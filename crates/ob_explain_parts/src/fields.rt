//! The names of the fields of a record.

ghost use Rattle.std.specs.Prelude.{◌≡◌, ◌≤◌, ◌<◌, ◌+◌, ◌^◌, [], IfOk, OnOk};
ghost use Rattle.ob_explain_parts.specs.Fields.{ends_fields, fields_behind, is_field, listing_behind, open_records, with_field, within_behind};

use ob_explain_tokens::operand_tokens::{is_colon, is_end, is_name, is_record, is_semicolon};
use ob_scan::{Kind, Token};
use std::alloc::{AllocError, Global};

/// Where tokens stand that list the fields of a record.
#[derive(Clone, Copy)]
pub enum Listing {
    /// Among the names of a list.
    Names,
    /// Within the type of a list, in so many records of it.
    Within(usize),
}

/// The fields of a record, of the tokens behind RECORD.
#[tactic(auto, using(crate::proofs::FieldSteps::ends_there, crate::proofs::FieldSteps::goes_on, crate::proofs::FieldSteps::none_left))]
pub fn fields_behind(alloc: Global, behind: &[Token]) -> Result<Vec<Token>, AllocError>
    ensures { IfOk result (λ found. found.items ≡ fields_behind [] Listing.Names behind.now) }
{
    let mut found = Vec::new(alloc);
    let mut listing = Listing::Names;
    for token in behind {
        if ends_fields(listing, token.kind) {
            return Ok(found);
        }
        push_field(&mut found, listing, *token)?;
        listing = listing_behind(listing, token.kind);
    }
    Ok(found)
}

/// Appends a token that is the name of a field.
fn push_field(found: &mut Vec<Token>, listing: Listing, token: Token) -> Result<(), AllocError>
    ensures { OnOk result (found.new.items ≡ with_field found.old.items listing token) }
{
    if is_field(listing, token.kind) {
        found.push(token)?;
    }
    Ok(())
}

/// Whether a token ends the record itself.
fn ends_fields(listing: Listing, kind: Kind) -> bool
    ensures { result ≡ ends_fields listing kind }
{
    is_end(kind) && open_records(listing) == 0
}

/// The records that are open in the type of a list.
fn open_records(listing: Listing) -> usize
    ensures { result ≡ open_records listing }
{
    match listing {
        Listing::Names => 0,
        Listing::Within(records) => records,
    }
}

/// Whether a token is the name of a field.
fn is_field(listing: Listing, kind: Kind) -> bool
    ensures { result ≡ is_field listing kind }
{
    match listing {
        Listing::Names => is_name(kind),
        Listing::Within(_) => false,
    }
}

/// Where the tokens behind one stand.
fn listing_behind(listing: Listing, kind: Kind) -> Listing
    requires { open_records listing < 2 ^ 63 }
    ensures value { result ≡ listing_behind listing kind }
    ensures most { open_records result ≤ open_records listing + 1 }
{
    match listing {
        Listing::Names => {
            if is_colon(kind) {
                Listing::Within(0)
            } else {
                Listing::Names
            }
        }
        Listing::Within(records) => within_behind(records, kind),
    }
}

/// The same within the type of a list.
fn within_behind(records: usize, kind: Kind) -> Listing
    requires { records < 2 ^ 63 }
    ensures value { result ≡ within_behind records kind }
    ensures most { open_records result ≤ records + 1 }
{
    if is_semicolon(kind) && records == 0 {
        Listing::Names
    } else if is_record(kind) {
        Listing::Within(records + 1)
    } else if is_end(kind) {
        Listing::Within(records.saturating_sub(1))
    } else {
        Listing::Within(records)
    }
}
