//! A law of the definitions, the contract of a function that does nothing.
ghost use Rattle.tc_answer.specs.Words.{WordsGiveOne};

/// A list of words gives one command at most.
pub fn law_of_words()
    ensures { WordsGiveOne }
{}
