// What is proved of the definitions.
ghost use Rattle.tc_rules.specs.PathLaws.{TreesHaveLetters, StatesSelect, EmptySelectsNone, StatesRule, RootsRule, StatesTell};

/// The law of letters: each tree has one of the letters.
pub fn law_of_letters()
    ensures { TreesHaveLetters }
{}

/// The law of selection: a move or a look of a stylesheet selects a node below another exactly where the states
/// of its path lead by the letters in between from the first state to a hit. A state without items selects nothing.
pub fn law_of_selection()
    ensures hits { StatesSelect }
    ensures nothing { EmptySelectsNone }
{}

/// The law of rules by states: the rule that the state above a node and its letter tell is the rule of the node,
/// and what is told of the root is the rule of the root.
pub fn law_of_rules_by_states()
    ensures nodes { StatesRule }
    ensures roots { RootsRule }
{}

/// The law of path states: together they tell what a stylesheet means.
pub fn law_of_path_states()
    ensures { StatesTell }
{}
