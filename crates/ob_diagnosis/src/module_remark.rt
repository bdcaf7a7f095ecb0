//! What is wrong at a place of a module, in a sentence.

ghost use Rattle.std.specs.Prelude.{◌≡◌, IfOk, option_map};
ghost use Rattle.ob_diagnosis.specs.Remarks.{IsCheckRemark, IsParseRemark, IsRemark, IsScanRemark, Tells, number_of};
ghost use Rattle.ob_evidence.specs.Sites.{scene_of};
ghost use Rattle.ob_explain_sentences.specs.Remarks.{remark_of};

use crate::rules::{
    actuals_remark, constant_remark, export_remark, length_remark, limit_remark, sort_remark,
    twice_remark, types_remark, unknown_remark,
};
use crate::syntax::{name_remark, unexpected_remark};
use crate::told_by_tables::plain_remark;
use ob_evidence::text_site::{Site, look_around};
use ob_explain_sentences::remark::Remark;
use ob_explain_sentences::table_rows::Number;
use ob_parser::parser::ParseFault;
use ob_scan::ScanFault;
use ob_scan::scanner::LONGEST_TEXT;
use ob_scopes::fault::CheckFault;
use ob_typing::rule::Rule;
use std::alloc::{AllocError, Global};

/// The remark on a fault of the text's bytes; `None` for want of memory.
pub fn scan_remark(
    alloc: Global,
    text: &[u8],
    fault: ScanFault,
) -> Result<Option<Remark>, AllocError>
    ensures { IfOk result (λ remark. IsScanRemark text.now fault (option_map remark_of remark)) }
{
    match fault {
        ScanFault::StrayByte(place) => Ok(Some(remark_on(alloc, text, Number::S1, place)?)),
        ScanFault::NumberTooLarge(place) => Ok(Some(remark_on(alloc, text, Number::S2, place)?)),
        ScanFault::OpenComment(place) => Ok(Some(remark_on(alloc, text, Number::S3, place)?)),
        ScanFault::NameTooLong(place) => Ok(Some(remark_on(alloc, text, Number::S4, place)?)),
        ScanFault::TooLong => Ok(Some(remark_on(alloc, text, Number::S5, LONGEST_TEXT)?)),
        ScanFault::NoMemory => Ok(None),
    }
}

/// The remark on a fault of the text's grammar; `None` for want of memory.
pub fn parse_remark(
    alloc: Global,
    text: &[u8],
    fault: ParseFault,
) -> Result<Option<Remark>, AllocError>
    ensures { IfOk result (λ remark. IsParseRemark text.now fault (option_map remark_of remark)) }
{
    match fault {
        ParseFault::Unexpected(place) => Ok(Some(remark_on(alloc, text, Number::P1, place)?)),
        ParseFault::TooDeep(place) => Ok(Some(remark_on(alloc, text, Number::P2, place)?)),
        ParseFault::NameDiffers(place) => Ok(Some(remark_on(alloc, text, Number::P3, place)?)),
        ParseFault::NoMemory => Ok(None),
    }
}

/// The remark on a rule that is broken; `None` for want of memory.
pub fn check_remark(
    alloc: Global,
    text: &[u8],
    fault: CheckFault,
) -> Result<Option<Remark>, AllocError>
    ensures { IfOk result (λ remark. IsCheckRemark text.now fault (option_map remark_of remark)) }
{
    match fault {
        CheckFault::Broken(broken) => {
            let number = number_of(broken.rule);
            Ok(Some(remark_on(alloc, text, number, broken.place)?))
        }
        CheckFault::NoMemory => Ok(None),
    }
}

/// The number of a rule.
fn number_of(rule: Rule) -> Number
    ensures { result ≡ number_of rule }
{
    match rule {
        Rule::UnknownName => Number::C1,
        Rule::DeclaredTwice => Number::C2,
        Rule::WrongKind => Number::C3,
        Rule::TypesDiffer => Number::C4,
        Rule::BadConstant => Number::C5,
        Rule::BadLength => Number::C6,
        Rule::BadActuals => Number::C7,
        Rule::WrongLevel => Number::C8,
        Rule::PassesLimit => Number::C9,
        Rule::BadExport => Number::C10,
    }
}

/// The remark on a fault of this number at a place.
pub fn remark_on(
    alloc: Global,
    text: &[u8],
    number: Number,
    place: usize,
) -> Result<Remark, AllocError>
    ensures { IfOk result (λ remark. IsRemark text.now number place (remark_of remark)) }
{
    let found = look_around(alloc, text, place)?;
    let site = found.site(text, place);
    remark_at(alloc, &site, number)
}

/// The same, with what is found around the place.
fn remark_at(alloc: Global, site: &Site<'_, '_>, number: Number) -> Result<Remark, AllocError>
    ensures { IfOk result (λ remark. Tells (scene_of site.now) number (remark_of remark)) }
{
    match number {
        Number::S1 => plain_remark(alloc, site, Number::S1),
        Number::S2 => plain_remark(alloc, site, Number::S2),
        Number::S3 => plain_remark(alloc, site, Number::S3),
        Number::S4 => plain_remark(alloc, site, Number::S4),
        Number::S5 => plain_remark(alloc, site, Number::S5),
        Number::P1 => unexpected_remark(alloc, site),
        Number::P2 => plain_remark(alloc, site, Number::P2),
        Number::P3 => name_remark(alloc, site),
        Number::C1 => unknown_remark(alloc, site),
        Number::C2 => twice_remark(alloc, site),
        Number::C3 => sort_remark(alloc, site),
        Number::C4 => types_remark(alloc, site),
        Number::C5 => constant_remark(alloc, site),
        Number::C6 => length_remark(alloc, site),
        Number::C7 => actuals_remark(alloc, site),
        Number::C8 => plain_remark(alloc, site, Number::C8),
        Number::C9 => limit_remark(alloc, site),
        Number::C10 => export_remark(alloc, site),
    }
}
