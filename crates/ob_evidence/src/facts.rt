//! Facts that are noted of a place.

ghost use Rattle.std.specs.Prelude.{◌≡◌, IfOk, OnOk};
ghost use Rattle.ob_evidence.specs.Facts.{facts_in, with_fact};

use ob_explain_sentences::table_rows::Fact;
use std::alloc::{AllocError, Global};

/// Of some facts those that hold.
pub fn facts_of(alloc: Global, pairs: &[(bool, Fact)]) -> Result<Vec<Fact>, AllocError>
    ensures { IfOk result (λ facts. facts.items ≡ facts_in pairs.now) }
{
    let mut facts = Vec::new(alloc);
    for pair in pairs {
        note(&mut facts, pair.0, pair.1)?;
    }
    Ok(facts)
}

/// Notes a fact, where it is one.
pub fn note(facts: &mut Vec<Fact>, is: bool, fact: Fact) -> Result<(), AllocError>
    ensures { OnOk result (facts.new.items ≡ with_fact facts.old.items is fact) }
{
    if !is {
        return Ok(());
    }
    facts.push(fact)?;
    Ok(())
}
