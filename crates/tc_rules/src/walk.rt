// The predicates, the moves and the looks of a stylesheet, in its order.
ghost use Rattle.std.specs.Prelude.{◌≡◌, ◌++◌, ◌∷◌, ℕ, [], OnOk};
ghost use Rattle.tc_model.specs.Numberings as n;
ghost use Rattle.tc_model.specs.Views as see;
ghost use Rattle.tc_model.specs.Sheets as s;
ghost use Rattle.tc_rules.specs.Usages.{usages_in, usages_in_branches, predicates_in_usage, looks_in_usage, moves_in_usage};
ghost use Rattle.tc_rules.specs.Views.{predicates, looks, moves, mode_of, usage as see_usage, usages};

use tc_base::NoMemory;
use tc_model::{Branch, Instr, Path, Pattern, Step, Test};

/// What is done on each node that a path selects: what the rules say in a mode, or the body of the for-each of a number.
#[derive(Clone, Copy, Debug, PartialEq, Eq)]
pub enum Job {
    Mode(u32),
    Each(u32),
}

/// A path that selects, and what is done on each node that it selects.
#[derive(Clone, Copy)]
pub(crate) struct Move<'b> {
    pub(crate) path: &'b Path<'b>,
    pub(crate) job: Job,
}

/// One more predicate, unless it says nothing.
fn add_predicate<'b>(found: &mut Vec<&'b Test<'b>>, test: &'b Test<'b>) -> Result<(), NoMemory>
    ensures { OnOk result (predicates found.new.items ≡ predicates found.old.items
        ++ n.as_predicate (see.test test.now)) }
{
    if !matches!(test, Test::True) {
        found.push(test)?;
    }
    Ok(())
}

/// The predicates of steps, each before those inside it.
#[cycle(paths)]
fn predicates_in_steps<'b>(
    found: &mut Vec<&'b Test<'b>>,
    steps: &'b [Step<'b>],
) -> Result<(), NoMemory>
    ensures { OnOk result (predicates found.new.items ≡ predicates found.old.items
        ++ n.predicates_in_steps (see.steps steps.now)) }
{
    for step in steps {
        add_predicate(found, &step.when)?;
        predicates_in_test(found, &step.when)?;
    }
    Ok(())
}

#[cycle(paths)]
fn predicates_in_path<'b>(found: &mut Vec<&'b Test<'b>>, path: &'b Path<'b>) -> Result<(), NoMemory>
    ensures { OnOk result (predicates found.new.items ≡ predicates found.old.items
        ++ n.predicates_in_path (see.path path.now)) }
{
    for steps in path.alts {
        predicates_in_steps(found, steps)?;
    }
    Ok(())
}

#[cycle(paths)]
#[tactic(auto, using(tc_model::proofs::ViewsPath::see_test))]
fn predicates_in_test<'b>(found: &mut Vec<&'b Test<'b>>, test: &'b Test<'b>) -> Result<(), NoMemory>
    ensures { OnOk result (predicates found.new.items ≡ predicates found.old.items
        ++ n.predicates_in_test (see.test test.now)) }
{
    match test {
        Test::True | Test::False => Ok(()),
        Test::Has(path) => predicates_in_path(found, path),
        Test::Not(test) => predicates_in_test(found, test),
        Test::And(tests) | Test::Or(tests) => predicates_in_tests(found, tests),
    }
}

#[cycle(paths)]
fn predicates_in_tests<'b>(
    found: &mut Vec<&'b Test<'b>>,
    tests: &'b [Test<'b>],
) -> Result<(), NoMemory>
    ensures { OnOk result (predicates found.new.items ≡ predicates found.old.items
        ++ n.predicates_in_tests (see.tests tests.now)) }
{
    for test in tests {
        predicates_in_test(found, test)?;
    }
    Ok(())
}

/// The predicates of a match pattern.
fn predicates_in_pattern<'b>(
    found: &mut Vec<&'b Test<'b>>,
    pattern: &'b Pattern<'b>,
) -> Result<(), NoMemory>
    ensures { OnOk result (predicates found.new.items ≡ predicates found.old.items
        ++ n.predicates_in_pattern (see.match_pattern pattern.now)) }
{
    match pattern {
        Pattern::Root => Ok(()),
        Pattern::Steps(steps) => predicates_in_steps(found, steps),
    }
}

/// What stands in a stylesheet that tells of predicates, looks, moves and for-eaches.
#[derive(Clone, Copy)]
pub(crate) enum Usage<'b> {
    Pattern(&'b Pattern<'b>),
    Test(&'b Test<'b>),
    Value(&'b Path<'b>),
    Apply(&'b Path<'b>, u32),
    Each(u32, &'b Path<'b>, &'b [Instr<'b>]),
}

/// One usage more.
pub(crate) fn add_usage<'b>(found: &mut Vec<Usage<'b>>, usage: Usage<'b>) -> Result<(), NoMemory>
    ensures { OnOk result
        (usages found.new.items ≡ usages found.old.items ++ see_usage usage.entry ∷ []) }
{
    found.push(usage)?;
    Ok(())
}

/// The usages of a body: each instruction's before those inside it, and in a branch that of the test before those of the body.
#[cycle(bodies)]
pub(crate) fn usages_in_body<'b>(
    found: &mut Vec<Usage<'b>>,
    body: &'b [Instr<'b>],
) -> Result<(), NoMemory>
    ensures { OnOk result
        (usages found.new.items ≡ usages found.old.items ++ usages_in (see.body body.now)) }
{
    for instruction in body {
        usages_in_instruction(found, instruction)?;
    }
    Ok(())
}

#[cycle(bodies)]
#[tactic(auto, using(tc_model::proofs::ViewsBody::see_instruction))]
fn usages_in_instruction<'b>(
    found: &mut Vec<Usage<'b>>,
    instruction: &'b Instr<'b>,
) -> Result<(), NoMemory>
    ensures { OnOk result ((rest : s.Body) → usages found.new.items ++ usages_in rest
        ≡ usages found.old.items ++ usages_in (see.instruction instruction.now rest)) }
{
    match instruction {
        Instr::Text(_) | Instr::Call(_) | Instr::ValueOfSelf => Ok(()),
        Instr::Elem(_, body) => usages_in_body(found, body),
        Instr::Copy(body) => usages_in_body(found, body),
        Instr::Apply(path, mode) => add_usage(found, Usage::Apply(path, *mode)),
        Instr::ValueOf(path) => add_usage(found, Usage::Value(path)),
        Instr::Choose(branches, otherwise) => {
            usages_in_branches(found, branches)?;
            usages_in_body(found, otherwise)
        }
        Instr::ForEach(each, path, body) => {
            add_usage(found, Usage::Each(*each, path, body))?;
            usages_in_body(found, body)
        }
    }
}

#[cycle(bodies)]
fn usages_in_branches<'b>(
    found: &mut Vec<Usage<'b>>,
    branches: &'b [Branch<'b>],
) -> Result<(), NoMemory>
    ensures { OnOk result ((rest : s.Branches) → usages found.new.items ++ usages_in_branches rest
        ≡ usages found.old.items ++ usages_in_branches (see.branches branches.now rest)) }
{
    for branch in branches {
        add_usage(found, Usage::Test(&branch.test))?;
        usages_in_body(found, branch.body)?;
    }
    Ok(())
}

/// The predicates of a usage.
pub(crate) fn predicates_in_usage<'b>(
    found: &mut Vec<&'b Test<'b>>,
    usage: &Usage<'b>,
) -> Result<(), NoMemory>
    ensures { OnOk result (predicates found.new.items ≡ predicates found.old.items
        ++ predicates_in_usage (see_usage usage.now)) }
{
    match usage {
        Usage::Pattern(pattern) => predicates_in_pattern(found, pattern),
        Usage::Test(test) => predicates_in_test(found, test),
        Usage::Value(path) | Usage::Apply(path, _) | Usage::Each(_, path, _) => {
            predicates_in_path(found, path)
        }
    }
}

/// The looks of a test: its paths, but for those inside their predicates.
#[cycle(look_tests)]
#[tactic(auto, using(tc_model::proofs::ViewsPath::see_test))]
pub(crate) fn looks_in_test<'b>(
    found: &mut Vec<&'b Path<'b>>,
    test: &'b Test<'b>,
) -> Result<(), NoMemory>
    ensures { OnOk result
        (looks found.new.items ≡ looks found.old.items ++ n.looks_in_test (see.test test.now)) }
{
    match test {
        Test::True | Test::False => Ok(()),
        Test::Has(path) => add_look(found, path),
        Test::Not(test) => looks_in_test(found, test),
        Test::And(tests) | Test::Or(tests) => looks_in_tests(found, tests),
    }
}

#[cycle(look_tests)]
fn looks_in_tests<'b>(found: &mut Vec<&'b Path<'b>>, tests: &'b [Test<'b>]) -> Result<(), NoMemory>
    ensures { OnOk result
        (looks found.new.items ≡ looks found.old.items ++ n.looks_in_tests (see.tests tests.now)) }
{
    for test in tests {
        looks_in_test(found, test)?;
    }
    Ok(())
}

/// One look more.
fn add_look<'b>(found: &mut Vec<&'b Path<'b>>, path: &'b Path<'b>) -> Result<(), NoMemory>
    ensures { OnOk result
        (looks found.new.items ≡ looks found.old.items ++ see.path path.now ∷ []) }
{
    found.push(path)?;
    Ok(())
}

/// The looks of a usage.
pub(crate) fn looks_in_usage<'b>(
    found: &mut Vec<&'b Path<'b>>,
    usage: &Usage<'b>,
) -> Result<(), NoMemory>
    ensures { OnOk result
        (looks found.new.items ≡ looks found.old.items ++ looks_in_usage (see_usage usage.now)) }
{
    match usage {
        Usage::Test(test) => looks_in_test(found, test),
        Usage::Value(path) => add_look(found, path),
        Usage::Pattern(_) | Usage::Apply(_, _) | Usage::Each(_, _, _) => Ok(()),
    }
}

/// The move of a usage.
pub(crate) fn moves_in_usage<'b>(
    found: &mut Vec<Move<'b>>,
    usage: &Usage<'b>,
) -> Result<(), NoMemory>
    ensures { OnOk result ((modes : ℕ) → moves modes found.new.items ≡ moves modes found.old.items
        ++ moves_in_usage modes (see_usage usage.now)) }
{
    match usage {
        Usage::Apply(path, mode) => add_move(found, path, Job::Mode(*mode)),
        Usage::Each(each, path, _) => add_move(found, path, Job::Each(*each)),
        Usage::Pattern(_) | Usage::Test(_) | Usage::Value(_) => Ok(()),
    }
}

fn add_move<'b>(found: &mut Vec<Move<'b>>, path: &'b Path<'b>, job: Job) -> Result<(), NoMemory>
    ensures { OnOk result ((modes : ℕ) → moves modes found.new.items ≡ moves modes found.old.items
        ++ record { path = see.path path.now; mode = mode_of modes job } ∷ []) }
{
    found.push(Move { path, job })?;
    Ok(())
}
