// The node tests of a stylesheet, and what they ask of the names of elements.
ghost use Rattle.std.specs.Prelude.{◌≡◌, ◌++◌, ◌∷◌, [], MatchOption, OnOk, IfOk};
ghost use Rattle.tc_model.specs.Sheets as s;
ghost use Rattle.tc_model.specs.Symbols.{in_steps, in_path, in_test, in_tests, in_pattern, in_body, in_branches, node_tests};
ghost use Rattle.tc_model.specs.Views as see;
ghost use Rattle.tc_beh.specs.AlikeSymbols.{AreAsked, Asks, IsPut, asked_test, asked_tests, itself, no_test_of, seen};

use indexmap::IndexSet;
use std::alloc::Global;
use tc_base::NoMemory;
use tc_model::{Branch, Instr, Name, NodeTest, Path, Pattern, Sheet, Step, Test};

/// What a node test asks of the name of an element: that it is a name, or that it is of a namespace.
#[derive(Clone, Copy, PartialEq, Eq, Hash)]
pub enum Asked<'b> {
    Name(Name<'b>),
    Namespace(&'b str),
}

/// One more node test.
fn add<'b>(found: &mut Vec<NodeTest<'b>>, test: NodeTest<'b>) -> Result<(), NoMemory>
    ensures { OnOk result
        (seen found.new.items ≡ seen found.old.items ++ see.node_test test.entry ∷ []) }
{
    found.push(test)?;
    Ok(())
}

/// Adds the node tests of steps, and those in their predicates.
#[cycle(paths)]
fn add_steps<'b>(found: &mut Vec<NodeTest<'b>>, steps: &[Step<'b>]) -> Result<(), NoMemory>
    ensures { OnOk result (seen found.new.items ≡ seen found.old.items
        ++ in_steps itself no_test_of (see.steps steps.now)) }
{
    for step in steps {
        add(found, step.test)?;
        add_test(found, &step.when)?;
    }
    Ok(())
}

#[cycle(paths)]
fn add_path<'b>(found: &mut Vec<NodeTest<'b>>, path: &Path<'b>) -> Result<(), NoMemory>
    ensures { OnOk result (seen found.new.items ≡ seen found.old.items
        ++ in_path itself no_test_of (see.path path.now)) }
{
    for steps in path.alts {
        add_steps(found, steps)?;
    }
    Ok(())
}

#[cycle(paths)]
#[tactic(auto, using(tc_model::proofs::ViewsPath::see_test))]
fn add_test<'b>(found: &mut Vec<NodeTest<'b>>, test: &Test<'b>) -> Result<(), NoMemory>
    ensures { OnOk result (seen found.new.items ≡ seen found.old.items
        ++ in_test itself no_test_of (see.test test.now)) }
{
    match test {
        Test::True | Test::False => Ok(()),
        Test::Has(path) => add_path(found, path),
        Test::Not(test) => add_test(found, test),
        Test::And(tests) | Test::Or(tests) => add_tests(found, tests),
    }
}

#[cycle(paths)]
fn add_tests<'b>(found: &mut Vec<NodeTest<'b>>, tests: &[Test<'b>]) -> Result<(), NoMemory>
    ensures { OnOk result (seen found.new.items ≡ seen found.old.items
        ++ in_tests itself no_test_of (see.tests tests.now)) }
{
    for test in tests {
        add_test(found, test)?;
    }
    Ok(())
}

fn add_pattern<'b>(found: &mut Vec<NodeTest<'b>>, pattern: &Pattern<'b>) -> Result<(), NoMemory>
    ensures { OnOk result (seen found.new.items ≡ seen found.old.items
        ++ in_pattern itself no_test_of (see.match_pattern pattern.now)) }
{
    match pattern {
        Pattern::Root => Ok(()),
        Pattern::Steps(steps) => add_steps(found, steps),
    }
}

/// Adds the node tests of the paths and tests of instructions.
#[cycle(bodies)]
fn add_body<'b>(found: &mut Vec<NodeTest<'b>>, body: &[Instr<'b>]) -> Result<(), NoMemory>
    ensures { OnOk result (seen found.new.items ≡ seen found.old.items
        ++ in_body itself no_test_of (see.body body.now)) }
{
    for instruction in body {
        add_instruction(found, instruction)?;
    }
    Ok(())
}

#[cycle(bodies)]
#[tactic(auto, using(tc_model::proofs::ViewsBody::see_instruction))]
fn add_instruction<'b>(
    found: &mut Vec<NodeTest<'b>>,
    instruction: &Instr<'b>,
) -> Result<(), NoMemory>
    ensures { OnOk result
        ((rest : s.Body) → seen found.new.items ++ in_body itself no_test_of rest
        ≡ seen found.old.items
        ++ in_body itself no_test_of (see.instruction instruction.now rest)) }
{
    match instruction {
        Instr::Text(_) | Instr::Call(_) | Instr::ValueOfSelf => Ok(()),
        Instr::Elem(_, body) | Instr::Copy(body) => add_body(found, body),
        Instr::Apply(path, _) | Instr::ValueOf(path) => add_path(found, path),
        Instr::Choose(branches, otherwise) => {
            add_branches(found, branches)?;
            add_body(found, otherwise)
        }
        Instr::ForEach(_, path, body) => {
            add_path(found, path)?;
            add_body(found, body)
        }
    }
}

#[cycle(bodies)]
fn add_branches<'b>(found: &mut Vec<NodeTest<'b>>, branches: &[Branch<'b>]) -> Result<(), NoMemory>
    ensures { OnOk result
        ((rest : s.Branches) → seen found.new.items ++ in_branches itself no_test_of rest
        ≡ seen found.old.items ++ in_branches itself no_test_of (see.branches branches.now rest)) }
{
    for branch in branches {
        add_test(found, &branch.test)?;
        add_body(found, branch.body)?;
    }
    Ok(())
}

/// Adds the node tests of a stylesheet, also those in bodies that are never called.
fn add_sheet<'b>(found: &mut Vec<NodeTest<'b>>, sheet: &Sheet<'b>) -> Result<(), NoMemory>
    ensures { OnOk result
        (seen found.new.items ≡ seen found.old.items ++ node_tests (see.sheet sheet.now)) }
{
    for rule in sheet.rules {
        add_pattern(found, &rule.pattern)?;
        add_body(found, rule.body)?;
    }
    for body in sheet.named {
        add_body(found, body)?;
    }
    Ok(())
}

/// What a node test asks, if not all elements pass it, or none does.
fn asked_by<'b>(test: &NodeTest<'b>) -> Option<Asked<'b>>
    ensures { MatchOption result (¬ Asks (see.node_test test.now))
        (λ a. asked_test a ≡ see.node_test test.now) }
{
    match test {
        NodeTest::Name(name) => Some(Asked::Name(*name)),
        NodeTest::Ns(uri) => Some(Asked::Namespace(uri)),
        NodeTest::Any | NodeTest::Text | NodeTest::Node => None,
    }
}

/// Puts what a node test asks, unless it is there already.
fn put<'b>(found: &mut IndexSet<Asked<'b>>, test: &NodeTest<'b>) -> Result<(), NoMemory>
    ensures { OnOk result
        (IsPut (asked_tests found.old.keys) (see.node_test test.now) (asked_tests found.new.keys)) }
{
    if let Some(asked) = asked_by(test) {
        found.insert(asked)?;
    }
    Ok(())
}

/// What node tests ask, each once.
fn each_once<'b>(alloc: Global, tests: &[NodeTest<'b>]) -> Result<IndexSet<Asked<'b>>, NoMemory>
    ensures { IfOk result (λ r. AreAsked (seen tests.now) (asked_tests r.keys)) }
{
    let mut found = IndexSet::new(alloc);
    for test in tests {
        put(&mut found, test)?;
    }
    Ok(found)
}

/// What the node tests of a stylesheet ask, each once.
pub(crate) fn asked_of<'b>(
    alloc: Global,
    sheet: &Sheet<'b>,
) -> Result<IndexSet<Asked<'b>>, NoMemory>
    ensures { IfOk result (λ r. AreAsked (node_tests (see.sheet sheet.now)) (asked_tests r.keys)) }
{
    let mut found = Vec::new(alloc);
    add_sheet(&mut found, sheet)?;
    each_once(alloc, &found)
}
