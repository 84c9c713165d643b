//! Laws of the definitions, each the contract of a function that does nothing.
ghost use Rattle.tc_decide.specs.SchemaTextLaws.{EachIsSpelledOrRefused, NoneIsBoth};

/// The law of schema texts, in compact syntax or declarations of elements: each spells a grammar or
/// is refused for some reason, and none does both.
pub fn law_of_schema_texts()
    ensures some { EachIsSpelledOrRefused }
    ensures none { NoneIsBoth }
{}
