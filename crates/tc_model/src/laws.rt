// Laws of what stylesheets mean.
ghost use Rattle.tc_model.specs.Laws.{IsLastOfGreatest, IsNoneWithout, IsUnique, IsTotal, HasOneResult, HasValidResults, HasNoCounterexample, IsSafeByResults};

/// Laws of the rule of a node (XSLT 1.0, 5.5): of the rules of a mode that fit it the last of greatest
/// priority, and none where none fits.
pub fn law_of_rules()
    ensures last_of_greatest { IsLastOfGreatest }
    ensures none_without { IsNoneWithout }
{}

/// Laws of what stylesheets put out (XSLT 1.0, 5 to 9). By any rules and named bodies, a job puts out one
/// thing at most on a node. By a well-formed sheet it puts out something, on every node, in every mode and
/// by every for-each. So each document has exactly one result.
pub fn law_of_results()
    ensures unique { IsUnique }
    ensures total { IsTotal }
    ensures one_result { HasOneResult }
{}

/// Laws of safety. By a safe sheet, whatever a valid document results in is valid, so it has no
/// counterexample; and a well-formed sheet is safe where whatever a valid document results in is valid.
pub fn law_of_safety()
    ensures valid_results { HasValidResults }
    ensures no_counterexample { HasNoCounterexample }
    ensures by_results { IsSafeByResults }
{}
