//! What holds of the sites of traps, as functions that do nothing: their contracts are the laws.

ghost use Rattle.ob_trap_places.specs.SitesLaws.{ValuesAreOfTheMeaning, StatementsAreOfTheMeaning, OpeningsAreOfTheMeaning};
ghost use Rattle.ob_trap_places.specs.SitesLaws.{NamedValuesAreOfTheMeaning, NamedStatementsAreOfTheMeaning};
ghost use Rattle.ob_trap_places.specs.SitesLaws.{TrappedCallsHaveSites, TrappedOpeningsHaveSites};
ghost use Rattle.ob_trap_places.specs.SitesLaws.{CausesOfCallsExplain, CausesOfOpeningsExplain, ExportsHaveNumbers};

/// Without the sites, the value of an expression and what statements come to are those of the meaning, by position and by
/// name.
pub fn sites_are_of_the_meaning()
    ensures value { ValuesAreOfTheMeaning }
    ensures statements { StatementsAreOfTheMeaning }
    ensures value_by_name { NamedValuesAreOfTheMeaning }
    ensures statements_by_name { NamedStatementsAreOfTheMeaning }
{}

/// A call from outside traps with a number exactly where a site with that number is its site, and so does the opening.
pub fn traps_have_sites()
    ensures call { TrappedCallsHaveSites }
    ensures opening { OpeningsAreOfTheMeaning }
    ensures opening_trap { TrappedOpeningsHaveSites }
{}

/// What a site says could not be done leads to the trap of its number.
pub fn causes_explain()
    ensures call { CausesOfCallsExplain }
    ensures opening { CausesOfOpeningsExplain }
{}

/// The export of a number is the procedure of its number among all.
pub fn exports_have_numbers()
    ensures { ExportsHaveNumbers }
{}
