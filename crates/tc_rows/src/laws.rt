// What is proved of rows.
ghost use Rattle.tc_rows.specs.Alike.{AlikeWrapAlike};
ghost use Rattle.tc_rows.specs.Certificates.{CertificateIsSafe, CertifiedIsSafe, ClosedHoldAll};
ghost use Rattle.tc_rows.specs.CountLaws.{RowsAreCounted};
ghost use Rattle.tc_rows.specs.Derivations.{DerivationsAreExact};
ghost use Rattle.tc_rows.specs.Laws.{RowsAreLawful};

/// The laws of rows. A tree has one row, and what is worked out from rows is one row. Rows commute with putting trees
/// together: the rows of all trees in normal form are worked out from those of their parts, and what is made of live
/// parts is told to be live by their rows. All live trees are made of live ones. A document, be it live or not, is
/// valid exactly where its row is admitted, and its result exactly where its row passes at the root.
pub fn law_of_rows()
    ensures { RowsAreLawful }
{}

/// The law of symbols alike: elements of symbols that no class and no step tells apart have, around the same trees,
/// the same row.
pub fn law_of_symbols_alike()
    ensures { AlikeWrapAlike }
{}

/// The law of derivations: the rows that come from rows are those of live trees and no others, with as many nodes. The
/// stylesheet is safe exactly where all of them that are admitted pass; one that doesn't shows a counterexample, and
/// each counterexample has such a row.
pub fn law_of_derivations()
    ensures { DerivationsAreExact }
{}

/// The law of closed lists of rows, whatever they were made by: they hold the rows of all live trees. Where all of
/// them that are admitted pass, the stylesheet is safe.
pub fn law_of_closed_rows()
    ensures all { ClosedHoldAll }
    ensures safe { CertifiedIsSafe }
    ensures certificate { CertificateIsSafe }
{}

/// The law of counts: of the rows of live trees, of those of live lists of trees and of the sets of pairs in them, two
/// counts are equal, and where there is a count it tells `Pass`, that there are more than some number. That there is a
/// count isn't said, so limits are to be stated by `Pass`. Closed lists without repeats of rows that come from rows show
/// one; and `Pass` is shown by more than so many different rows that come from rows, or sets of pairs in such rows.
pub fn law_of_counts()
    ensures { RowsAreCounted }
{}
