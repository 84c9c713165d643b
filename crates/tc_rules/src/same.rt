// Whether two paths, two tests or two node tests are the same.
ghost use Rattle.std.specs.Prelude.{◌≡◌, ◌&&◌};
ghost use Rattle.tc_model.specs.Views as see;
ghost use Rattle.tc_model.specs.SameTests as same;
ghost use Rattle.tc_model.specs.Sheets as s;

use tc_model::{NodeTest, Path, Step, Test};

fn same_node_test(a: &NodeTest<'_>, b: &NodeTest<'_>) -> bool
    ensures { result ≡ same.same_node_test (see.node_test a.now) (see.node_test b.now) }
{
    match (a, b) {
        (NodeTest::Name(n), NodeTest::Name(m)) => n.uri == m.uri && n.local == m.local,
        (NodeTest::Ns(u), NodeTest::Ns(v)) => u == v,
        (NodeTest::Any, NodeTest::Any)
        | (NodeTest::Text, NodeTest::Text)
        | (NodeTest::Node, NodeTest::Node) => true,
        _ => false,
    }
}

#[cycle(paths)]
fn same_step(a: &Step<'_>, b: &Step<'_>) -> bool
    ensures { (x y : s.Steps)
        → same.same_steps (s.step a.now.deep (see.node_test a.now.test) (see.test a.now.when) x)
        (s.step b.now.deep (see.node_test b.now.test) (see.test b.now.when) y)
        ≡ (result && same.same_steps x y) }
{
    a.deep == b.deep && same_node_test(&a.test, &b.test) && same_test(&a.when, &b.when)
}

#[cycle(paths)]
fn same_steps(a: &[Step<'_>], b: &[Step<'_>]) -> bool
    ensures { result ≡ same.same_steps (see.steps a.now) (see.steps b.now) }
{
    if a.len() != b.len() {
        return false;
    }
    let mut at = 0;
    for step in a {
        if !same_step(step, &b[at]) {
            return false;
        }
        at += 1;
    }
    true
}

/// Whether two paths are the same.
#[cycle(paths)]
pub(crate) fn same_path(a: &Path<'_>, b: &Path<'_>) -> bool
    ensures { result ≡ same.same_path (see.path a.now) (see.path b.now) }
{
    if a.alts.len() != b.alts.len() {
        return false;
    }
    let mut at = 0;
    for steps in a.alts {
        if !same_steps(steps, b.alts[at]) {
            return false;
        }
        at += 1;
    }
    true
}

/// Whether two tests are the same.
#[cycle(paths)]
#[tactic(auto, using(tc_model::proofs::ViewsPath::see_test))]
pub(crate) fn same_test(a: &Test<'_>, b: &Test<'_>) -> bool
    ensures { result ≡ same.same_test (see.test a.now) (see.test b.now) }
{
    match (a, b) {
        (Test::True, Test::True) | (Test::False, Test::False) => true,
        (Test::Has(p), Test::Has(q)) => same_path(p, q),
        (Test::Not(t), Test::Not(u)) => same_test(t, u),
        (Test::And(t), Test::And(u)) | (Test::Or(t), Test::Or(u)) => same_tests(t, u),
        _ => false,
    }
}

#[cycle(paths)]
fn same_tests(a: &[Test<'_>], b: &[Test<'_>]) -> bool
    ensures { result ≡ same.same_tests (see.tests a.now) (see.tests b.now) }
{
    if a.len() != b.len() {
        return false;
    }
    let mut at = 0;
    for test in a {
        if !same_test(test, &b[at]) {
            return false;
        }
        at += 1;
    }
    true
}
