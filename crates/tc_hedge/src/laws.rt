// What is proved of the definitions.
ghost use Rattle.tc_hedge.specs.Leading.{LeadsExactly, OutputsLeadExactly, PairsCompose, PairsSurround};

/// The law of leading: trees lead the first state of a part to an accepting one exactly where their normal
/// form matches the part.
pub fn law_of_leading()
    ensures { LeadsExactly }
{}

/// The law of outputs: trees are valid for an output schema exactly where they lead its state 0 to an
/// accepting state of its start.
pub fn law_of_outputs()
    ensures { OutputsLeadExactly }
{}

/// The law of trees side by side: their pairs are the composition of the pairs of both.
pub fn law_of_trees_beside()
    ensures { PairsCompose }
{}

/// The law of elements: the pairs of an element are those around the pairs of its children.
pub fn law_of_elements()
    ensures { PairsSurround }
{}
