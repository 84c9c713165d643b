// Laws of schemas in RELAX NG's compact syntax (ISO/IEC 19757-2, Annex C).
ghost use Rattle.tc_model.specs.CompactSyntaxRefusedLaws.{HasOneRefusal, HasNoSyntax, IsMalformedWithin};
ghost use Rattle.tc_model.specs.SimplifiesLaws.{HasOneSyntax, HasLawfulSyntax, HasOneGrammar, HasOneRncText, HasOneFault, HasNoGrammar, HasLawfulStart, HasLawfulGrammar};

/// Laws of syntax trees. A text has at most one; its names and namespace names are lawful, none of its
/// lists is empty, no place is after the text's end, and the words `element` stand one after the other.
pub fn law_of_syntax_trees()
    ensures one_syntax { HasOneSyntax }
    ensures lawful_syntax { HasLawfulSyntax }
{}

/// Laws of grammars. A syntax tree stands for at most one, also where it has a fault, and so a text means at
/// most one. It has at most one fault, and then it simplifies to none. The grammar of a text is well-formed, and
/// its start is made of choices, references and `notAllowed` alone (RELAX NG Specification, 7.1.5).
pub fn law_of_grammars()
    ensures one_grammar { HasOneGrammar }
    ensures one_rnc_text { HasOneRncText }
    ensures one_fault { HasOneFault }
    ensures no_grammar { HasNoGrammar }
    ensures lawful_start { HasLawfulStart }
    ensures lawful_grammar { HasLawfulGrammar }
{}

/// Laws of texts that are refused as schemas. A text has at most one refusal, of one reason and at one place. What is
/// malformed has no syntax tree, however deep its braces and parentheses stand, and not with data either; what isn't
/// supported has none without data; what is too deep has none that is as deep as may be. What is malformed is so
/// within the text.
pub fn law_of_refusals()
    ensures one { HasOneRefusal }
    ensures no_syntax { HasNoSyntax }
    ensures within { IsMalformedWithin }
{}
