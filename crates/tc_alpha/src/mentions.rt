// What schemas and stylesheets mention of names.
ghost use Rattle.std.specs.Prelude.{◌≡◌, ◌++◌, ◌∷◌, [], OnOk, IfOk, flat_map};
ghost use Rattle.tc_alpha.specs.Views.{seen, mention as see_mention};
ghost use Rattle.tc_model.specs.Views as see;
ghost use Rattle.tc_model.specs.Sheets as s;
ghost use Rattle.tc_model.specs.Symbols.{mentions_of_name, mentions_of_test, mentions_in_class, mentions_in_classes, mentions_in_grammar, mentions_in_sheet, in_steps, in_path, in_test, in_tests, in_pattern, in_body, in_branches, with_namespace};

use std::alloc::Global;
use tc_base::NoMemory;
use tc_model::{
    Branch, Grammar, Instr, Name, NameClass, NodeTest, Path, Pattern, Sheet, Step, Test,
};

/// What has a symbol of its own: a name, or a namespace for its other names.
#[derive(Clone, Copy, PartialEq, Eq, PartialOrd, Ord)]
pub enum Mention<'b> {
    Name(Name<'b>),
    Namespace(&'b str),
}

/// One more mention.
fn add<'b>(found: &mut Vec<Mention<'b>>, mention: Mention<'b>) -> Result<(), NoMemory>
    ensures { OnOk result
        (seen found.new.items ≡ seen found.old.items ++ see_mention mention.entry ∷ []) }
{
    found.push(mention)?;
    Ok(())
}

/// What a name class mentions, the excepted class included.
#[cycle(classes)]
#[tactic(auto, using(tc_model::proofs::ViewsGrammar::see_class))]
fn mention_class<'b: 'f, 'f>(
    found: &mut Vec<Mention<'f>>,
    class: &NameClass<'b>,
) -> Result<(), NoMemory>
    ensures { OnOk result
        (seen found.new.items ≡ seen found.old.items ++ mentions_in_class (see.class class.now)) }
{
    match class {
        NameClass::Name(name) => add(found, Mention::Name(*name)),
        NameClass::Ns(uri, except) => {
            add(found, Mention::Namespace(uri))?;
            mention_classes(found, except)
        }
        NameClass::Any(except) => mention_classes(found, except),
        NameClass::Choice(classes) => mention_classes(found, classes),
    }
}

#[cycle(classes)]
fn mention_classes<'b: 'f, 'f>(
    found: &mut Vec<Mention<'f>>,
    classes: &[NameClass<'b>],
) -> Result<(), NoMemory>
    ensures { OnOk result (seen found.new.items ≡ seen found.old.items
        ++ mentions_in_classes (see.classes classes.now)) }
{
    for class in classes {
        mention_class(found, class)?;
    }
    Ok(())
}

/// What the name classes of a schema mention.
pub fn mention_grammar<'b: 'f, 'f>(
    found: &mut Vec<Mention<'f>>,
    grammar: &Grammar<'b>,
) -> Result<(), NoMemory>
    ensures { OnOk result (seen found.new.items ≡ seen found.old.items
        ++ mentions_in_grammar (see.grammar grammar.now)) }
{
    for element in grammar.elements {
        mention_class(found, &element.names)?;
    }
    Ok(())
}

fn mention_node_test<'b: 'f, 'f>(
    found: &mut Vec<Mention<'f>>,
    test: &NodeTest<'b>,
) -> Result<(), NoMemory>
    ensures { OnOk result
        (seen found.new.items ≡ seen found.old.items ++ mentions_of_test (see.node_test test.now)) }
{
    match test {
        NodeTest::Name(name) => add(found, Mention::Name(*name)),
        NodeTest::Ns(uri) => add(found, Mention::Namespace(uri)),
        NodeTest::Any | NodeTest::Text | NodeTest::Node => Ok(()),
    }
}

/// What steps mention, in their predicates too.
#[cycle(paths)]
fn mention_steps<'b: 'f, 'f>(
    found: &mut Vec<Mention<'f>>,
    steps: &[Step<'b>],
) -> Result<(), NoMemory>
    ensures { OnOk result (seen found.new.items ≡ seen found.old.items
        ++ in_steps mentions_of_test mentions_of_name (see.steps steps.now)) }
{
    for step in steps {
        mention_node_test(found, &step.test)?;
        mention_test(found, &step.when)?;
    }
    Ok(())
}

#[cycle(paths)]
fn mention_path<'b: 'f, 'f>(found: &mut Vec<Mention<'f>>, path: &Path<'b>) -> Result<(), NoMemory>
    ensures { OnOk result (seen found.new.items ≡ seen found.old.items
        ++ in_path mentions_of_test mentions_of_name (see.path path.now)) }
{
    for steps in path.alts {
        mention_steps(found, steps)?;
    }
    Ok(())
}

#[cycle(paths)]
#[tactic(auto, using(tc_model::proofs::ViewsPath::see_test))]
fn mention_test<'b: 'f, 'f>(found: &mut Vec<Mention<'f>>, test: &Test<'b>) -> Result<(), NoMemory>
    ensures { OnOk result (seen found.new.items ≡ seen found.old.items
        ++ in_test mentions_of_test mentions_of_name (see.test test.now)) }
{
    match test {
        Test::True | Test::False => Ok(()),
        Test::Has(path) => mention_path(found, path),
        Test::Not(test) => mention_test(found, test),
        Test::And(tests) | Test::Or(tests) => mention_tests(found, tests),
    }
}

#[cycle(paths)]
fn mention_tests<'b: 'f, 'f>(
    found: &mut Vec<Mention<'f>>,
    tests: &[Test<'b>],
) -> Result<(), NoMemory>
    ensures { OnOk result (seen found.new.items ≡ seen found.old.items
        ++ in_tests mentions_of_test mentions_of_name (see.tests tests.now)) }
{
    for test in tests {
        mention_test(found, test)?;
    }
    Ok(())
}

fn mention_pattern<'b: 'f, 'f>(
    found: &mut Vec<Mention<'f>>,
    pattern: &Pattern<'b>,
) -> Result<(), NoMemory>
    ensures { OnOk result (seen found.new.items ≡ seen found.old.items
        ++ in_pattern mentions_of_test mentions_of_name (see.match_pattern pattern.now)) }
{
    match pattern {
        Pattern::Root => Ok(()),
        Pattern::Steps(steps) => mention_steps(found, steps),
    }
}

/// What instructions mention: the names of their elements, and what their paths and tests do.
#[cycle(bodies)]
fn mention_body<'b: 'f, 'f>(
    found: &mut Vec<Mention<'f>>,
    body: &[Instr<'b>],
) -> Result<(), NoMemory>
    ensures { OnOk result (seen found.new.items ≡ seen found.old.items
        ++ in_body mentions_of_test mentions_of_name (see.body body.now)) }
{
    for instruction in body {
        mention_instruction(found, instruction)?;
    }
    Ok(())
}

#[cycle(bodies)]
#[tactic(auto, using(tc_model::proofs::ViewsBody::see_instruction))]
fn mention_instruction<'b: 'f, 'f>(
    found: &mut Vec<Mention<'f>>,
    instruction: &Instr<'b>,
) -> Result<(), NoMemory>
    ensures { OnOk result
        ((rest : s.Body) → seen found.new.items ++ in_body mentions_of_test mentions_of_name rest
        ≡ seen found.old.items
        ++ in_body mentions_of_test mentions_of_name (see.instruction instruction.now rest)) }
{
    match instruction {
        Instr::Text(_) | Instr::Call(_) | Instr::ValueOfSelf => Ok(()),
        Instr::Elem(name, body) => {
            add(found, Mention::Name(*name))?;
            mention_body(found, body)
        }
        Instr::Copy(body) => mention_body(found, body),
        Instr::Apply(path, _) | Instr::ValueOf(path) => mention_path(found, path),
        Instr::Choose(branches, otherwise) => {
            mention_branches(found, branches)?;
            mention_body(found, otherwise)
        }
        Instr::ForEach(_, path, body) => {
            mention_path(found, path)?;
            mention_body(found, body)
        }
    }
}

#[cycle(bodies)]
fn mention_branches<'b: 'f, 'f>(
    found: &mut Vec<Mention<'f>>,
    branches: &[Branch<'b>],
) -> Result<(), NoMemory>
    ensures { OnOk result
        ((rest : s.Branches) → seen found.new.items
        ++ in_branches mentions_of_test mentions_of_name rest ≡ seen found.old.items
        ++ in_branches mentions_of_test mentions_of_name (see.branches branches.now rest)) }
{
    for branch in branches {
        mention_test(found, &branch.test)?;
        mention_body(found, branch.body)?;
    }
    Ok(())
}

/// What a stylesheet mentions, in bodies that are never called too.
pub fn mention_sheet<'b: 'f, 'f>(
    found: &mut Vec<Mention<'f>>,
    sheet: &Sheet<'b>,
) -> Result<(), NoMemory>
    ensures { OnOk result
        (seen found.new.items ≡ seen found.old.items ++ mentions_in_sheet (see.sheet sheet.now)) }
{
    for rule in sheet.rules {
        mention_pattern(found, &rule.pattern)?;
        mention_body(found, rule.body)?;
    }
    for body in sheet.named {
        mention_body(found, body)?;
    }
    Ok(())
}

/// With each name its namespace is mentioned.
pub fn with_namespaces<'b>(
    alloc: Global,
    found: &[Mention<'b>],
) -> Result<Vec<Mention<'b>>, NoMemory>
    ensures { IfOk result (λ v. seen v.items ≡ flat_map with_namespace (seen found.now)) }
{
    let mut all = Vec::new(alloc);
    for mention in found {
        add(&mut all, *mention)?;
        if let Mention::Name(name) = mention {
            add(&mut all, Mention::Namespace(name.uri))?;
        }
    }
    Ok(all)
}
