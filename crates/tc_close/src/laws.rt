// What is proved of costs.
ghost use Rattle.tc_close.specs.Certified.{CertificatesAgree, LeastIsCertificate, LiveRowsAreLeast, OneCertificate};
ghost use Rattle.tc_close.specs.Least.{CostsAreLeast};
ghost use Rattle.tc_close.specs.Triples.{TriplesAgree, TriplesAreThere};
ghost use Rattle.tc_close.specs.Verdict.{ListsTell};

/// The law of least costs: the least cost of a row is the least number of nodes of its live trees (others of the same
/// row may have fewer), and what costs least comes from what costs least. A row that fails at the least cost of all
/// that fail shows a plain counterexample with the fewest nodes of all.
pub fn law_of_least_costs()
    ensures { CostsAreLeast }
{}

/// The law of the verdict: closed lists of rows that come from rows tell whether the stylesheet is safe.
pub fn law_of_the_verdict()
    ensures { ListsTell }
{}

/// The law of triples: well-formed schemas and a well-formed stylesheet that keep the limits have rows to go by, and the
/// rows are theirs. However the states of paths stand in tables, trees have the same rows, there are the same rows of
/// live trees, and as many of them.
pub fn law_of_triples()
    ensures there { TriplesAreThere }
    ensures agree { TriplesAgree }
{}

/// The law of certificates: however the states of paths stand in tables, one certificate at most has exactly the rows of
/// live trees and of live lists of trees, and exactly the sets of pairs in them; where the stylesheet is safe, it is a
/// certificate; and what is a certificate is one however the states stand. These rows are the least fixpoint of row
/// arithmetic.
pub fn law_of_certificates()
    ensures agree { CertificatesAgree }
    ensures one { OneCertificate }
    ensures holds { LeastIsCertificate }
    ensures least { LiveRowsAreLeast }
{}
