// What is proved of the definitions.
ghost use Rattle.tc_model.specs.SchemaStates.{StateCountsAgree};

/// The law of state counts: the automata of a schema have as many states as its patterns tell.
pub fn law_of_state_counts()
    ensures { StateCountsAgree }
{}
