//! Rows of small triples, by hand. A row is told by its numbers: two flags of the whole, a flag for each state of the input's
//! contents or for each of its element patterns, the numbers of the outputs, the looks.
ghost use Rattle.std.specs.Prelude.{◌≡◌, ◌≤◌, length, IfSome};
ghost use Rattle.tc_beh.specs.Machines.{IsMachine};
ghost use Rattle.tc_tests_engine.specs.Kept.{AreKept};

use crate::triples::{NoMachine, machine_of_texts, sheet_text};
use bumpalo::Bump;
use std::alloc::{AllocError, Global};
use std::test::Fail;
use tc_base::NoMemory;
use tc_beh::{HRow, Machine, MachineFault, Rows, TRow};
use tc_model::{Name, PairLists};

/// Keeps the row of no tree.
fn keep_empty(
    alloc: Global,
    rows: &mut Rows<'_, '_>,
    hedges: &mut Vec<HRow>,
    trees: &Vec<TRow>,
) -> Result<bool, Fail>
    requires { AreKept rows.old hedges.old.items trees.now.items }
    ensures { AreKept rows.new hedges.new.items trees.now.items }
{
    let mut out = HRow::room(alloc, rows.machine())?;
    rows.empty_row(&mut out)?;
    hedges.push(out)?;
    Ok(true)
}

/// Keeps the row of a text, if it is live.
fn keep_text(
    alloc: Global,
    rows: &mut Rows<'_, '_>,
    hedges: &Vec<HRow>,
    trees: &mut Vec<TRow>,
) -> Result<bool, Fail>
    requires { AreKept rows.old hedges.now.items trees.old.items }
    ensures { AreKept rows.new hedges.now.items trees.new.items }
{
    let mut out = TRow::room(alloc, rows.machine())?;
    let is_live = rows.text_row(&mut out)?;
    if is_live {
        trees.push(out)?;
    }
    Ok(is_live)
}

/// Keeps the row of trees and one behind them, of numbers of kept rows, if it is live.
fn keep_append(
    alloc: Global,
    rows: &mut Rows<'_, '_>,
    hedges: &mut Vec<HRow>,
    trees: &Vec<TRow>,
    hedge: usize,
    tree: usize,
) -> Result<bool, Fail>
    requires { AreKept rows.old hedges.old.items trees.now.items }
    ensures { AreKept rows.new hedges.new.items trees.now.items }
{
    let mut out = HRow::room(alloc, rows.machine())?;
    let (Some(first), Some(second)) = (hedges.get(hedge), trees.get(tree)) else {
        return Ok(false);
    };
    let is_live = rows.append(first, second, &mut out)?;
    if is_live {
        hedges.push(out)?;
    }
    Ok(is_live)
}

/// Keeps the row of an element of a name without a namespace around trees, of the number of a kept row, if it is live.
fn keep_wrap(
    alloc: Global,
    rows: &mut Rows<'_, '_>,
    hedges: &Vec<HRow>,
    trees: &mut Vec<TRow>,
    local: &str,
    hedge: usize,
) -> Result<bool, Fail>
    requires { AreKept rows.old hedges.now.items trees.old.items }
    ensures { AreKept rows.new hedges.now.items trees.new.items }
{
    let mut out = TRow::room(alloc, rows.machine())?;
    let symbol = rows.machine().alphabet().sym_of(&Name { uri: "", local });
    let Some(inner) = hedges.get(hedge) else {
        return Ok(false);
    };
    let is_live = rows.wrap(symbol, inner, &mut out)?;
    if is_live {
        trees.push(out)?;
    }
    Ok(is_live)
}

/// What is done next, by the numbers of kept rows.
#[derive(Clone, Copy)]
pub(crate) enum Step {
    Empty,
    Text,
    Append(usize, usize),
    /// Around trees, an element of this name without a namespace.
    Wrap(&'static str, usize),
}

/// Does one step. Tells whether its row is live.
pub(crate) fn keep(
    alloc: Global,
    rows: &mut Rows<'_, '_>,
    hedges: &mut Vec<HRow>,
    trees: &mut Vec<TRow>,
    step: Step,
) -> Result<bool, Fail>
    requires { AreKept rows.old hedges.old.items trees.old.items }
    ensures { AreKept rows.new hedges.new.items trees.new.items }
{
    match step {
        Step::Empty => keep_empty(alloc, rows, hedges, trees),
        Step::Text => keep_text(alloc, rows, hedges, trees),
        Step::Append(hedge, tree) => keep_append(alloc, rows, hedges, trees, hedge, tree),
        Step::Wrap(local, hedge) => keep_wrap(alloc, rows, hedges, trees, local, hedge),
    }
}

/// Does steps. Tells whether each row is live exactly where that is told.
fn keep_all(
    alloc: Global,
    rows: &mut Rows<'_, '_>,
    hedges: &mut Vec<HRow>,
    trees: &mut Vec<TRow>,
    steps: &[(Step, bool)],
) -> Result<bool, Fail>
    requires { AreKept rows.old hedges.old.items trees.old.items }
    ensures { AreKept rows.new hedges.new.items trees.new.items }
{
    let mut are_as_told = true;
    for (step, is_live) in steps {
        let found = keep(alloc, rows, hedges, trees, *step)?;
        are_as_told = are_as_told && found == *is_live;
    }
    Ok(are_as_told)
}

/// The numbers of a kept row of a list of trees, or none.
fn numbers_of_hedge(hedges: &[HRow], place: usize) -> &[u32] {
    match hedges.get(place) {
        Some(row) => row.numbers(),
        None => &[],
    }
}

/// The numbers of a kept row of a tree, or none.
fn numbers_of_tree(trees: &[TRow], place: usize) -> &[u32] {
    match trees.get(place) {
        Some(row) => row.numbers(),
        None => &[],
    }
}

/// Whether a document of a kept row is a valid input, and its result a valid output.
pub(crate) fn is_fine(
    rows: &mut Rows<'_, '_>,
    hedges: &Vec<HRow>,
    trees: &Vec<TRow>,
    place: usize,
) -> (bool, bool)
    requires { AreKept rows.old hedges.now.items trees.now.items }
    ensures { AreKept rows.new hedges.now.items trees.now.items }
{
    match trees.get(place) {
        Some(tree) => {
            let is_admitted = rows.admitted(tree);
            (is_admitted, rows.root_ok(tree))
        }
        None => (false, false),
    }
}

/// Sets of pairs, each behind a stroke, as a line of a certificate has them.
fn put_outputs(text: &mut String, outputs: &PairLists) -> Result<(), Fail> {
    for number in 0..outputs.len() {
        text.push_str("|")?;
        let pairs = outputs.get(number);
        for place in 0..pairs.len() {
            let (from, to) = *pairs.get(place);
            write!(text, " {from}>{to}")?;
        }
    }
    Ok(())
}

/// Whether the sets that are held are these.
fn are_outputs(alloc: Global, rows: &Rows<'_, '_>, text: &str) -> Result<bool, Fail> {
    let outputs = rows.outputs(alloc)?;
    let mut held = String::new(alloc);
    put_outputs(&mut held, &outputs)?;
    Ok(held.as_str() == text)
}

/// What is told of kept rows, by their numbers.
#[derive(Clone, Copy)]
enum Told {
    /// The numbers of a row of a list of trees.
    Hedge(usize, &'static [u32]),
    /// The numbers of a row of a tree.
    Tree(usize, &'static [u32]),
    /// The last look of a row of a list of trees.
    LastOfHedge(usize, u32),
    /// The last look of a row of a tree.
    LastOfTree(usize, u32),
    /// Whether a document of a row of a tree is a valid input, and its result a valid output.
    Document(usize, bool, bool),
    /// The sets that are held.
    Outputs(&'static str),
    /// How many states the contents of the input have.
    Inputs(u32),
}

/// Whether what is told of kept rows is so.
fn is_so(
    alloc: Global,
    rows: &mut Rows<'_, '_>,
    hedges: &Vec<HRow>,
    trees: &Vec<TRow>,
    told: Told,
) -> Result<bool, Fail>
    requires { AreKept rows.old hedges.now.items trees.now.items }
    ensures { AreKept rows.new hedges.now.items trees.now.items }
{
    match told {
        Told::Hedge(place, numbers) => Ok(numbers_of_hedge(hedges, place) == numbers),
        Told::Tree(place, numbers) => Ok(numbers_of_tree(trees, place) == numbers),
        Told::LastOfHedge(place, look) => Ok(
            numbers_of_hedge(hedges, place).last().copied() == Some(look),
        ),
        Told::LastOfTree(place, look) => Ok(
            numbers_of_tree(trees, place).last().copied() == Some(look),
        ),
        Told::Document(place, is_valid, is_fit) => {
            Ok(is_fine(rows, hedges, trees, place) == (is_valid, is_fit))
        }
        Told::Outputs(text) => are_outputs(alloc, rows, text),
        Told::Inputs(count) => Ok(rows.machine().shape().inputs == count),
    }
}

/// The name of the first of what is told of kept rows that isn't so, or an empty one.
fn first_wrong(
    alloc: Global,
    rows: &mut Rows<'_, '_>,
    hedges: &Vec<HRow>,
    trees: &Vec<TRow>,
    all: &[(&'static str, Told)],
) -> Result<&'static str, Fail>
    requires { AreKept rows.old hedges.now.items trees.now.items }
{
    for (name, told) in all {
        let is_so = is_so(alloc, rows, hedges, trees, *told)?;
        if !is_so {
            return Ok(name);
        }
    }
    Ok("")
}

/// The first of what is told of a triple's steps that isn't so: which of their rows are live, and what those that are kept are.
fn wrong_of_steps(
    alloc: Global,
    rows: &mut Rows<'_, '_>,
    hedges: &mut Vec<HRow>,
    trees: &mut Vec<TRow>,
    triple: &Triple,
) -> Result<&'static str, Fail>
    requires { AreKept rows.old hedges.old.items trees.old.items }
{
    let are_live = keep_all(alloc, rows, hedges, trees, triple.steps)?;
    if !are_live {
        return Ok("steps");
    }
    first_wrong(alloc, rows, hedges, trees, triple.told)
}

/// The same over its machine.
fn wrong_over(alloc: Global, machine: &Machine<'_>, triple: &Triple) -> Result<&'static str, Fail>
    requires { IsMachine machine.now }
{
    let mut rows = Rows::new(alloc, machine)?;
    let mut hedges = Vec::new(alloc);
    let mut trees = Vec::new(alloc);
    wrong_of_steps(alloc, &mut rows, &mut hedges, &mut trees, triple)
}

/// The texts of two schemas and the rules of a stylesheet; steps over their machine, whether the row of each is live, and what is
/// told of the rows that are kept.
struct Triple {
    title: &'static str,
    input: &'static str,
    output: &'static str,
    rules: &'static str,
    steps: &'static [(Step, bool)],
    told: &'static [(&'static str, Told)],
}

static TRIPLES: [Triple; 4] = [
    // Of a list of elements one is put out for each: the rows in the order in which they are found.
    Triple {
        title: "lists",
        input: "element a{element b{empty}*}",
        output: "element r{element x{empty}*}",
        rules: "<xsl:template match=\"/\"><r><xsl:apply-templates select=\"a/b\"/></r></xsl:template><xsl:template match=\"b\"><x/></xsl:template>",
        steps: &[
            (Step::Empty, true),
            (Step::Wrap("b", 0), true),
            (Step::Append(0, 0), true),
            (Step::Wrap("a", 0), true),
            (Step::Wrap("a", 1), true),
            (Step::Append(0, 1), false),
        ],
        told: &[
            ("no tree", Told::Hedge(0, &[0, 0, 1, 0, 1, 0, 0, 0])),
            ("<b/>", Told::Tree(0, &[0, 0, 0, 1, 1, 0, 1])),
            (
                "<b/> behind no tree",
                Told::Hedge(1, &[0, 0, 0, 1, 0, 1, 0, 1]),
            ),
            ("<a/>", Told::Tree(1, &[0, 0, 1, 0, 0, 0, 0])),
            ("<a><b/></a>", Told::Tree(2, &[0, 0, 1, 0, 1, 1, 0])),
            ("a document of <b/>", Told::Document(0, false, true)),
            ("a document of <a><b/></a>", Told::Document(2, true, true)),
            ("outputs", Told::Outputs("| 0>0 1>1 2>2 3>3 4>4| 2>3 3>3")),
        ],
    },
    // The value of the first `b`. A look is that of the first hit: it bears no text where that doesn't, whatever stands behind.
    Triple {
        title: "first hits",
        input: "element a{element b{empty},element b{text}}",
        output: "element x{empty}",
        rules: "<xsl:template match=\"a\"><x><xsl:value-of select=\"b\"/></x></xsl:template>",
        steps: &[
            (Step::Empty, true),
            (Step::Text, true),
            (Step::Append(0, 0), true),
            (Step::Wrap("b", 0), true),
            (Step::Wrap("b", 1), true),
            (Step::Append(0, 1), true),
            (Step::Append(2, 2), true),
        ],
        told: &[
            ("<b/>", Told::LastOfTree(1, 1)),
            ("<b>t</b>", Told::LastOfTree(2, 2)),
            ("<b/><b>t</b>", Told::LastOfHedge(3, 1)),
        ],
    },
    // An element for each text on which a predicate holds that finds nothing: on a text those hold that hold where nothing is found.
    Triple {
        title: "below texts",
        input: "element a{text}",
        output: "element r{element x{empty}?}",
        rules: "<xsl:template match=\"/\"><r><xsl:apply-templates/></r></xsl:template><xsl:template match=\"text()[not(b)]\"><x/></xsl:template>",
        steps: &[(Step::Text, true)],
        told: &[("outputs", Told::Outputs("| 2>3"))],
    },
    // The row of no tree has no states where a schema has no contents.
    Triple {
        title: "without contents",
        input: "start = notAllowed",
        output: "start = notAllowed",
        rules: "",
        steps: &[(Step::Empty, true), (Step::Text, false)],
        told: &[("states", Told::Inputs(0))],
    },
];

/// The machine of the texts of two schemas and of the rules of a stylesheet, if there is one.
pub(crate) fn machine_with<'b>(
    alloc: Global,
    arena: &'b Bump,
    input: &str,
    output: &str,
    rules: &str,
) -> Option<Machine<'b>>
    ensures { IfSome result (λ m. IsMachine m) }
{
    let Ok(sheet) = sheet_text(alloc, rules) else {
        return None;
    };
    match machine_of_texts(alloc, arena, input, output, sheet.as_str()) {
        Ok(machine) => Some(machine),
        Err(_) => None,
    }
}

/// The first of what is told of a triple that isn't so, or an empty text.
fn wrong_of(alloc: Global, triple: &Triple) -> Result<&'static str, Fail> {
    let arena = Bump::new(alloc);
    match machine_with(alloc, &arena, triple.input, triple.output, triple.rules) {
        Some(machine) => wrong_over(alloc, &machine, triple),
        None => Ok("no machine"),
    }
}

#[test]
fn rows_of_each_triple_are_as_told(rt: HostRuntime) -> Result<(), Fail> {
    for triple in &TRIPLES {
        let wrong = wrong_of(rt.alloc(), triple)?;
        assert!(rt; wrong.is_empty(), "{}: {wrong}", triple.title);
    }
    Ok(())
}

/// Parts of the rules of such a stylesheet, and how often each is written.
static ENTRIES: [(&str, u32); 5] = [
    ("<xsl:template match=\"", 1),
    ("/a", 63),
    (
        "\"/><xsl:template match=\"/\"><r><xsl:apply-templates select=\"a",
        1,
    ),
    ("/a", 126),
    ("\"/>", 1),
];

/// Puts rules of 64 ancestor states and 128 states of moves, of which that of the root has the value of a path put out.
fn put_entries(rules: &mut String, value: &str) -> Result<(), AllocError> {
    for (part, count) in &ENTRIES {
        for _ in 0..*count {
            rules.push_str(part)?;
        }
    }
    write!(
        rules,
        "<xsl:value-of select=\"{value}\"/></r></xsl:template>"
    )
}

/// A stylesheet of such rules.
fn sheet_of_entries(alloc: Global, value: &str) -> Result<String, NoMemory> {
    let mut rules = String::new(alloc);
    put_entries(&mut rules, value)?;
    sheet_text(alloc, rules.as_str())
}

/// Puts a rule whose root calls the first of so many named bodies, each of which calls the next one.
fn put_calls(rules: &mut String, count: u32) -> Result<(), AllocError> {
    rules.push_str("<xsl:template match=\"/\"><xsl:call-template name=\"n1\"/></xsl:template>")?;
    for number in 1..count {
        let next = number + 1;
        write!(
            rules,
            "<xsl:template name=\"n{number}\"><xsl:call-template name=\"n{next}\"/></xsl:template>"
        )?;
    }
    write!(rules, "<xsl:template name=\"n{count}\"><r/></xsl:template>")
}

/// A stylesheet of such rules.
fn sheet_of_calls(alloc: Global, count: u32) -> Result<String, NoMemory> {
    let mut rules = String::new(alloc);
    put_calls(&mut rules, count)?;
    sheet_text(alloc, rules.as_str())
}

/// Why there is no machine of a stylesheet over small schemas.
fn fault_over(alloc: Global, sheet: &str) -> Option<NoMachine> {
    let arena = Bump::new(alloc);
    machine_of_texts(alloc, &arena, "element a{empty}", "element r{empty}", sheet).err()
}

/// The same of a stylesheet that there may be no memory for.
fn fault_of(alloc: Global, sheet: Result<String, NoMemory>) -> Option<NoMachine> {
    match sheet {
        Ok(sheet) => fault_over(alloc, sheet.as_str()),
        Err(_) => Some(NoMachine::NotRead),
    }
}

/// Paths whose values are put out, and faults: ancestor states times states of moves, and one look more than 8,192.
static ENTRY_FAULTS: [(&str, Option<NoMachine>); 2] = [
    (".", None),
    ("a", Some(NoMachine::Fault(MachineFault::TooManyEntries))),
];

#[test]
fn entries_and_looks_are_limited(rt: HostRuntime) {
    for (value, fault) in &ENTRY_FAULTS {
        let found = fault_of(rt.alloc(), sheet_of_entries(rt.alloc(), value));
        assert!(rt; found == *fault, "{value}");
    }
}

/// Numbers of named bodies, and faults: the calls of the root and of these, and the element in the last one, are 8,000 and 8,001
/// within one another.
static CALL_FAULTS: [(u32, Option<NoMachine>); 2] = [
    (7999, None),
    (8000, Some(NoMachine::Fault(MachineFault::TooManyCalls))),
];

#[test]
fn calls_within_one_another_are_limited(rt: HostRuntime) {
    for (count, fault) in &CALL_FAULTS {
        let found = fault_of(rt.alloc(), sheet_of_calls(rt.alloc(), *count));
        assert!(rt; found == *fault, "{count}");
    }
}
