// Laws of documents that come in pieces.
ghost use Rattle.tc_stream.specs.Faults.{HasCausesOfWhole};
ghost use Rattle.tc_stream.specs.From.{ComesByItems};
ghost use Rattle.tc_stream.specs.Outcomes.{HasOneOutcome};
ghost use Rattle.tc_stream.specs.XmlTextMeasures.{GoodTextsPassNothing, TextsThatPassNothingAreGood};

/// In a good text no measure passes, and a text in which none passes is good, if it has a raw tree.
pub fn law_of_measures()
    ensures none { GoodTextsPassNothing }
    ensures good { TextsThatPassNothingAreGood }
{}

/// What comes of a text is what comes of it item by item, and it is one outcome.
pub fn law_of_outcomes()
    ensures items { ComesByItems }
    ensures one { HasOneOutcome }
{}

/// A text is given up in pieces for what a whole text is refused for, or because a measure passes.
pub fn law_of_faults()
    ensures { HasCausesOfWhole }
{}
