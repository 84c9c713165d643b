// What is proved of the definitions of texts.
ghost use Rattle.tc_dtd.specs.DtdTextLaws.{HasOneDtd, HasLawfulDtd, HasOneRefusal, HasNoDtdWhereRefused, HasOneFault, HasOneGrammar, HasDtdOrFault, HasGrammarOrFault};

/// Laws of the texts of document type definitions: a text has one meaning at most, which is lawful, or one refusal at
/// most, and never both. So `read_dtd` is Ok exactly where there is a meaning, but for want of memory. It is refused for
/// one fault, but that the place of malformed is left open; and a meaning has one grammar at most. Each text
/// has a meaning or a refusal; with any root, it has a grammar or a refusal.
pub fn law_of_dtd_texts()
    ensures meaning { HasOneDtd }
    ensures lawful { HasLawfulDtd }
    ensures refusal { HasOneRefusal }
    ensures refused { HasNoDtdWhereRefused }
    ensures fault { HasOneFault }
    ensures grammar { HasOneGrammar }
    ensures some { HasDtdOrFault }
    ensures root { HasGrammarOrFault }
{}
