//! Laws of the facts of conditions.
ghost use Rattle.kat_bounds.specs.Laws.{FactsAreFit, FactsAreSized, FactsAreSmall, FactsAreWalkable, FactsAscend, TypeFilesAreNamed, VariablesAreFew, WhatIsReadIsAccepted};

/// A law: of an accepted type, design and relation, no number of a condition's facts passes 2^125 in absolute value,
/// the terms of their forms ascend, and their variables are below a stated number for each conjunct.
pub fn facts_are_small()
    ensures small { FactsAreSmall }
    ensures ascending { FactsAscend }
    ensures few { VariablesAreFew }
{}

/// A law: such facts are sized, and their encoding is fit and may be walked, if there are at most 1,800,000 conjuncts.
pub fn facts_are_sized()
    ensures sized { FactsAreSized }
    ensures fit { FactsAreFit }
    ensures walkable { FactsAreWalkable }
{}

/// A law: the names of a type that is read from a text have the codes of names.
pub fn type_files_are_named()
    ensures { TypeFilesAreNamed }
{}

/// A law: a type that is read from a text, a design of its signature without faults, and conjuncts that fit both are
/// accepted. Nothing but what these readers and judges say is asked.
pub fn what_is_read_is_accepted()
    ensures { WhatIsReadIsAccepted }
{}
