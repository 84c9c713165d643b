// What is proved of cover rows.
ghost use Rattle.tc_incl.specs.Alike.{AlikeWrapAlike};
ghost use Rattle.tc_incl.specs.Counts.{CoversAreCounted};
ghost use Rattle.tc_incl.specs.Derivations.{DerivationsAreExact};
ghost use Rattle.tc_incl.specs.Laws.{RowsAreLawful};

/// The laws of cover rows. A tree has one row, and what is worked out from rows is one row. Rows commute with putting
/// trees together, and tell what is live for the first schema. All live trees are made of live ones. A document is valid
/// for each of the schemas exactly where its row says so.
pub fn law_of_rows()
    ensures { RowsAreLawful }
{}

/// The law of derivations: the rows that come from rows are those of live trees and no others, with as many nodes. The
/// first schema is included in the second exactly where none of them fails; one that fails with the fewest nodes is the
/// row of least differences, and each difference has a row that fails.
pub fn law_of_derivations()
    ensures { DerivationsAreExact }
{}

/// The law of counts: two cover counts are equal, and where there is a count it tells `Pass`, that there are more than
/// some number. Closed lists without repeats of rows that come from rows show the counts, and more than so many
/// different rows show `Pass`.
pub fn law_of_counts()
    ensures { CoversAreCounted }
{}

/// The law of symbols alike: elements of symbols that the same classes of both schemas hold, around the same trees, have the
/// same rows.
pub fn law_of_symbols_alike()
    ensures { AlikeWrapAlike }
{}
