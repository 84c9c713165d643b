// Laws of the texts of paths, values, patterns, tests and priorities.
ghost use Rattle.tc_model.specs.PathTextLaws.{HasOneSelect, AttributesAreNothing, HasOneValue, HasOnePattern, HasOneTest, HasOnePriority};

/// Laws of the texts that attributes of a stylesheet hold (XSLT 1.0, 5.2, 5.4, 5.5, 7.6.1, 8, 9, 11.3; XPath 1.0):
/// where the same prefixes are in scope, a select, a value, a match pattern and a test mean one thing at
/// most, and so does a priority. A select of attributes alone is a select that selects nothing in a tree.
pub fn law_of_path_texts()
    ensures select { HasOneSelect }
    ensures attributes { AttributesAreNothing }
    ensures value { HasOneValue }
    ensures pattern { HasOnePattern }
    ensures test { HasOneTest }
    ensures priority { HasOnePriority }
{}
