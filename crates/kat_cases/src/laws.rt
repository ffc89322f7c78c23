//! Laws of the walk, of decisive points, and of what may be decided.
ghost use Rattle.kat_cases.specs.Laws.{OneOutcome, OneAnswer, FewLines, SettingsAreSound, WalksRefute, WalksAreBounded, EffortSuffices, LinesHaveNoHints};
ghost use Rattle.kat_cases.specs.PointLaws.{DecisivePointsStayOpen, DecisivePointsMeetFacts, SizedFactsAreWalkable};

/// Laws: if a point decides an encoding, as one that `decide` gives does, no list of lines is accepted for it; and a point
/// that decides the encoding of facts makes all of them true.
pub fn decisive_points_stay_open()
    ensures open { DecisivePointsStayOpen }
    ensures facts { DecisivePointsMeetFacts }
{}

/// A law: what `clauses_of` makes of sized facts with ascending rows may be decided.
pub fn encodings_are_walkable()
    ensures { SizedFactsAreWalkable }
{}

/// Laws of the walk: it has one outcome, and so gives one answer; each leaf is counted, and for each there are fewer than three
/// lines, without hints; if it refutes, its lines refute the encoding; and it has at most 2^n leaves for n variables, so that
/// an effort of as many is never spent.
pub fn walks_are_determined()
    ensures outcome { OneOutcome }
    ensures answer { OneAnswer }
    ensures few { FewLines }
    ensures no_hints { LinesHaveNoHints }
    ensures sound { SettingsAreSound }
    ensures refute { WalksRefute }
    ensures bounded { WalksAreBounded }
    ensures suffices { EffortSuffices }
{}
