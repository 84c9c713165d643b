// Whether the numbers of a certificate's lines fit a machine.
ghost use Rattle.std.specs.Prelude.{◌≡◌, ◌<◌, ◌↔◌, ◌+◌, length, IsTrue, All, MatchOption};
ghost use Rattle.tc_base.specs.declared.limits.TheConstants.{MOST_OUTPUTS};
ghost use Rattle.tc_model.specs.CertificateData.{IsFormed};
ghost use Rattle.tc_model.specs.CertificateFits.{AllFit, AreFrom, HedgeFits, IsFirstUnfit, OutputFits, PairsFit, TreeFits, line_of_hedge, line_of_tree};
ghost use Rattle.tc_verify.specs.Fits.{shape_sizes};

use tc_beh::Shape;
use tc_model::{CertData, HedgeLine, Numbers, Pairs, TreeLine};

/// Whether each number is one of so many from the first.
fn are_from(first: u32, count: u32, numbers: &Numbers) -> bool
    ensures { IsTrue result ↔ AreFrom first count numbers.now }
{
    for place in 0..numbers.len() {
        let number = *numbers.get(place);
        if number < first || number - first >= count {
            return false;
        }
    }
    true
}

/// Whether the pairs are of so many states.
fn pairs_fit(states: u32, pairs: &Pairs) -> bool
    ensures { IsTrue result ↔ PairsFit states pairs.now }
{
    for place in 0..pairs.len() {
        let (from, to) = *pairs.get(place);
        if from >= states || to >= states {
            return false;
        }
    }
    true
}

/// Whether the outputs and the looks of a row have their lengths, and the outputs are among so many sets.
fn lists_fit(shape: Shape, sets: u32, outs: &Numbers, looks: &Numbers) -> bool
    ensures { IsTrue result
        ↔ ((length outs.now ≡ shape.entries) × AreFrom 0 sets outs.now
        × (length looks.now ≡ shape.looks)) }
{
    outs.len() == shape.entries && are_from(0, sets, outs) && looks.len() == shape.looks
}

fn tree_fits(shape: Shape, cert: &CertData, line: &TreeLine) -> bool
    ensures { IsTrue result ↔ TreeFits (shape_sizes shape) cert.now line.now }
{
    are_from(1, shape.patterns, &line.patterns)
        && lists_fit(shape, cert.outputs.len(), &line.outs, &line.looks)
}

fn hedge_fits(shape: Shape, cert: &CertData, line: &HedgeLine) -> bool
    ensures { IsTrue result ↔ HedgeFits (shape_sizes shape) cert.now line.now }
{
    are_from(0, shape.inputs, &line.states)
        && lists_fit(shape, cert.outputs.len(), &line.outs, &line.looks)
}

/// The first line that doesn't fit.
pub(crate) fn first_unfit(shape: Shape, cert: &CertData) -> Option<u32>
    requires { IsFormed cert.now }
    ensures { MatchOption result (AllFit (shape_sizes shape) cert.now)
        (λ line. IsFirstUnfit (shape_sizes shape) cert.now line) }
{
    for output in 0..cert.outputs.len() {
        if !pairs_fit(shape.outputs, cert.outputs.get(output)) {
            return Some(output_line(output));
        }
    }
    for tree in 0..cert.trees.len() {
        if !tree_fits(shape, cert, cert.trees.get(tree)) {
            return Some(tree_line(cert, tree));
        }
    }
    for hedge in 0..cert.hedges.len() {
        if !hedge_fits(shape, cert, cert.hedges.get(hedge)) {
            return Some(hedge_line(cert, hedge));
        }
    }
    None
}

/// The line of an output.
fn output_line(place: u32) -> u32
    requires { place < MOST_OUTPUTS }
    ensures { result ≡ 3 + place }
{
    3 + place
}

/// The line of a tree.
pub(crate) fn tree_line(cert: &CertData, place: u32) -> u32
    requires formed { IsFormed cert.now }
    requires place { place < length cert.now.trees }
    ensures { result ≡ line_of_tree cert.now place }
{
    4 + cert.outputs.len() + place
}

/// The line of a list of trees.
pub(crate) fn hedge_line(cert: &CertData, place: u32) -> u32
    requires formed { IsFormed cert.now }
    requires place { place < length cert.now.hedges }
    ensures { result ≡ line_of_hedge cert.now place }
{
    5 + cert.outputs.len() + cert.trees.len() + place
}
