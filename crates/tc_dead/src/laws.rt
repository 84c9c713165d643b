// Laws of marked stylesheets and of the plain schema.
ghost use Rattle.tc_dead.specs.Laws.{IsRuleOfNode, AreSpots, IsPlainLawful, IsPlainSmall, HaveSameSymbols, HaveItsPredicates, HaveItsPatterns, HaveSameMoves, HaveItsLooks};

/// Laws of spots and of marked stylesheets. The numbered rule of a node is the rule of the node, and a document instantiates
/// spots of the stylesheet alone. The plain schema is well-formed and within all limits. The stylesheets in which one or
/// another spot of a stylesheet is marked have, with any input, the same symbols, predicates, match patterns, moves and
/// looks.
pub fn law_of_marks()
    ensures rule { IsRuleOfNode }
    ensures spots { AreSpots }
    ensures lawful { IsPlainLawful }
    ensures small { IsPlainSmall }
    ensures symbols { HaveSameSymbols }
    ensures predicates { HaveItsPredicates }
    ensures patterns { HaveItsPatterns }
    ensures moves { HaveSameMoves }
    ensures looks { HaveItsLooks }
{}
