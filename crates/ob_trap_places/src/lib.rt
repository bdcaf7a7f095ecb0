//! Where a trap comes from: which operation of which procedure it was, with what it could not do there, and where that stands in the text.
//!
//! Expressions, statements and calls are run once more as ob_mean runs them, and each trap says its operation. One may rely on the clauses of
//! `sites_in_turn` and `place_of`, which are in the words of `specs/`.
#![tactic(auto)]

pub mod call_site;
mod expression_places;
pub mod handed_places;
pub mod opening_site;
mod outside;
pub mod places_laws;
mod procedure_bodies;
pub mod sequence;
pub mod site;
pub mod site_places;
pub mod sited_statements;
pub mod sites_laws;
mod statement_places;
pub mod values;
