//! Rows of random small triples beside what they tell by definition: the trees that steps make are written down as documents, each
//! of which is read, validated and run.
ghost use Rattle.std.specs.Prelude.{◌≡◌, ◌≤◌, length};
ghost use Rattle.tc_beh.specs.Machines.{IsMachine};
ghost use Rattle.tc_model.specs.Trees.{IsDocument, none};
ghost use Rattle.tc_model.specs.Views.{before};
ghost use Rattle.tc_tests_engine.specs.Kept.{AreKept};

use crate::random_triples::{Dice, TripleTexts, random_texts};
use crate::rows::{Step, is_fine, keep};
use crate::triples::{LONGEST, machine_of_texts, schema_of};
use bumpalo::Bump;
use std::alloc::Global;
use std::test::Fail;
use tc_alpha::Alphabet;
use tc_auto::Auto;
use tc_beh::{HRow, Machine, Rows, TRow};
use tc_model::{Grammar, Node, Pat, Sheet};
use tc_read::read_document;
use tc_run::run;
use tc_steps::{Judge, take_tree};

/// How many triples a test makes.
const TRIPLES: u32 = 50;

/// How many steps are tried over each of them.
const STEPS: u32 = 24;

/// The names of elements that steps make.
static NAMES: [&str; 2] = ["a", "b"];

/// What is told of a tree.
#[derive(Clone, Copy, PartialEq, Eq)]
enum Told {
    /// It matches no element pattern of the input.
    Dead,
    /// It matches one: whether a document of it is a valid input, and its result a valid output.
    Live { is_valid: bool, is_fit: bool },
}

/// How often what was told of elements, and how many triples have valid documents all of whose results are valid, or one whose
/// result isn't.
#[derive(Clone, Copy)]
struct Tally {
    /// What a row tells isn't so.
    wrong: u32,
    dead: u32,
    invalid: u32,
    fit: u32,
    unfit: u32,
    safe: u32,
    not_safe: u32,
}

impl Tally {
    fn new() -> Tally {
        Tally {
            wrong: 0,
            dead: 0,
            invalid: 0,
            fit: 0,
            unfit: 0,
            safe: 0,
            not_safe: 0,
        }
    }

    /// Counts what a row tells of a tree beside what is so. Where this can't be told, something is wrong.
    fn count(&mut self, by_row: Told, by_definition: Option<Told>) {
        if by_definition != Some(by_row) {
            self.wrong = self.wrong.saturating_add(1);
        }
        let Some(by_definition) = by_definition else {
            return;
        };
        match by_definition {
            Told::Dead => self.dead = self.dead.saturating_add(1),
            Told::Live {
                is_valid: false,
                ..
            } => self.invalid = self.invalid.saturating_add(1),
            Told::Live { is_fit: true, .. } => self.fit = self.fit.saturating_add(1),
            Told::Live { .. } => self.unfit = self.unfit.saturating_add(1),
        }
    }
}

/// The texts of the trees of kept rows.
#[derive(Drop)]
struct Texts {
    hedges: Vec<String>,
    trees: Vec<String>,
}

/// The text of this number, or an empty one where there is none.
fn text_at<'t>(texts: &'t [String], number: usize) -> &'t str {
    match texts.get(number) {
        Some(text) => text.as_str(),
        None => "",
    }
}

/// Keeps the rows of no tree and of a text.
fn keep_first(
    alloc: Global,
    rows: &mut Rows<'_, '_>,
    hedges: &mut Vec<HRow>,
    trees: &mut Vec<TRow>,
    texts: &mut Texts,
) -> Result<(), Fail>
    requires { AreKept rows.old hedges.old.items trees.old.items }
    ensures { AreKept rows.new hedges.new.items trees.new.items }
{
    keep(alloc, rows, hedges, trees, Step::Empty)?;
    texts.hedges.push(String::new(alloc))?;
    if keep(alloc, rows, hedges, trees, Step::Text)? {
        texts.trees.push(String::from_str(alloc, "t")?)?;
    }
    Ok(())
}

/// Puts a tree behind others, and keeps what is live.
fn append_some(
    alloc: Global,
    dice: &mut Dice,
    rows: &mut Rows<'_, '_>,
    hedges: &mut Vec<HRow>,
    trees: &mut Vec<TRow>,
    texts: &mut Texts,
) -> Result<(), Fail>
    requires { AreKept rows.old hedges.old.items trees.old.items }
    ensures { AreKept rows.new hedges.new.items trees.new.items }
{
    let hedge = dice.roll(texts.hedges.len().max(1));
    let tree = dice.roll(texts.trees.len().max(1));
    let front = text_at(&texts.hedges, hedge);
    let last = text_at(&texts.trees, tree);
    let text = format!(in alloc; "{front}{last}")?;
    if keep(alloc, rows, hedges, trees, Step::Append(hedge, tree))? {
        texts.hedges.push(text)?;
    }
    Ok(())
}

/// What is told of the tree that a step makes, by its row, which is kept if it is live.
fn told_by_row(
    alloc: Global,
    rows: &mut Rows<'_, '_>,
    hedges: &mut Vec<HRow>,
    trees: &mut Vec<TRow>,
    step: Step,
) -> Result<Told, Fail>
    requires { AreKept rows.old hedges.old.items trees.old.items }
    ensures { AreKept rows.new hedges.new.items trees.new.items }
{
    if !keep(alloc, rows, hedges, trees, step)? {
        return Ok(Told::Dead);
    }
    let last = trees.len().saturating_sub(1);
    let (is_valid, is_fit) = is_fine(rows, hedges, trees, last);
    Ok(Told::Live { is_valid, is_fit })
}

static NOTHING: Grammar<'static> = Grammar {
    start: Pat::NotAllowed,
    elements: &[],
};

/// A stylesheet without rules.
static NO_RULES: Sheet<'static> = Sheet {
    modes: 1,
    eaches: 0,
    rules: &[],
    named: &[],
};

/// What decides validity for a schema: the automaton of its contents, and its symbols.
#[derive(Drop)]
struct Contents<'b> {
    auto: Auto<'b>,
    alphabet: Alphabet,
}

/// What decides validity by the schemas alone.
#[derive(Drop)]
struct Schemas<'b> {
    input: Contents<'b>,
    anywhere: Contents<'b>,
    output: Contents<'b>,
}

/// What decides validity for a schema's text, if there is one.
fn contents_of<'b>(alloc: Global, arena: &'b Bump, text: &str) -> Option<Contents<'b>> {
    let grammar = schema_of(arena, text).ok()?;
    let auto = Auto::contents(alloc, &grammar, 256).ok()?;
    let alphabet = Alphabet::of(alloc, &grammar, &NOTHING, &NO_RULES).ok()?;
    Some(Contents { auto, alphabet })
}

/// Whether a document is valid for a schema, if it can be told.
fn is_valid(alloc: Global, schema: &Contents<'_>, document: &Node<'_>) -> Option<bool> {
    let mut judge = Judge::new(alloc, &schema.auto, &schema.alphabet).ok()?;
    take_tree(&mut judge, document)?;
    Some(judge.is_valid())
}

/// Those of a triple, if there are some.
fn schemas_of<'b>(alloc: Global, arena: &'b Bump, triple: &TripleTexts) -> Option<Schemas<'b>> {
    let input = contents_of(alloc, arena, triple.input.as_str())?;
    let anywhere = contents_of(alloc, arena, triple.anywhere.as_str())?;
    let output = contents_of(alloc, arena, triple.output.as_str())?;
    Some(Schemas {
        input,
        anywhere,
        output,
    })
}

/// Whether the result of a document is a valid output, if it runs.
fn is_fit<'b>(
    alloc: Global,
    arena: &'b Bump,
    machine: &Machine<'b>,
    output: &Contents<'_>,
    document: &Node<'b>,
) -> Option<bool>
    requires machine { IsMachine machine.now }
    requires document { IsDocument (before document.now none) }
{
    let Ok(result) = run(arena, machine.rules(), machine.alphabet(), document) else {
        return None;
    };
    match result {
        [node] => is_valid(alloc, output, node),
        _ => Some(false),
    }
}

/// What is so of a document, if it can be told.
fn told_of_document<'b>(
    alloc: Global,
    arena: &'b Bump,
    machine: &Machine<'b>,
    schemas: &Schemas<'_>,
    document: &Node<'b>,
) -> Option<Told>
    requires machine { IsMachine machine.now }
    requires document { IsDocument (before document.now none) }
{
    let is_live = is_valid(alloc, &schemas.anywhere, document)?;
    if !is_live {
        return Some(Told::Dead);
    }
    let is_valid = is_valid(alloc, &schemas.input, document)?;
    let is_fit = is_fit(alloc, arena, machine, &schemas.output, document)?;
    Some(Told::Live { is_valid, is_fit })
}

/// What is so of a tree that is written down, if it can be told.
fn told_by_definition<'b>(
    alloc: Global,
    arena: &'b Bump,
    machine: &Machine<'b>,
    schemas: &Schemas<'_>,
    text: &str,
) -> Option<Told>
    requires { IsMachine machine.now }
{
    if text.len() > LONGEST {
        return None;
    }
    match read_document(arena, text.as_bytes()) {
        Ok(document) => told_of_document(alloc, arena, machine, schemas, &document),
        Err(_) => None,
    }
}

/// Puts an element around trees, keeps what is live, and counts what is told of it by its row and by definition.
fn wrap_some<'b>(
    alloc: Global,
    arena: &'b Bump,
    dice: &mut Dice,
    machine: &Machine<'b>,
    schemas: &Schemas<'_>,
    rows: &mut Rows<'_, '_>,
    hedges: &mut Vec<HRow>,
    trees: &mut Vec<TRow>,
    texts: &mut Texts,
    tally: &mut Tally,
) -> Result<(), Fail>
    requires machine { IsMachine machine.now }
    requires kept { AreKept rows.old hedges.old.items trees.old.items }
    ensures { AreKept rows.new hedges.new.items trees.new.items }
{
    let hedge = dice.roll(texts.hedges.len().max(1));
    let name = dice.pick(&NAMES);
    let by_row = told_by_row(alloc, rows, hedges, trees, Step::Wrap(name, hedge))?;
    let inner = text_at(&texts.hedges, hedge);
    let text = format!(in alloc; "<{name}>{inner}</{name}>")?;
    let by_definition = told_by_definition(alloc, arena, machine, schemas, text.as_str());
    tally.count(by_row, by_definition);
    if by_row != Told::Dead {
        texts.trees.push(text)?;
    }
    Ok(())
}

/// Does a random step, and counts what is told of an element that it makes.
fn tell_of_step<'b>(
    alloc: Global,
    arena: &'b Bump,
    dice: &mut Dice,
    machine: &Machine<'b>,
    schemas: &Schemas<'_>,
    rows: &mut Rows<'_, '_>,
    hedges: &mut Vec<HRow>,
    trees: &mut Vec<TRow>,
    texts: &mut Texts,
    tally: &mut Tally,
) -> Result<(), Fail>
    requires machine { IsMachine machine.now }
    requires kept { AreKept rows.old hedges.old.items trees.old.items }
    ensures { AreKept rows.new hedges.new.items trees.new.items }
{
    if dice.roll(3) > 0 {
        return append_some(alloc, dice, rows, hedges, trees, texts);
    }
    wrap_some(
        alloc, arena, dice, machine, schemas, rows, hedges, trees, texts, tally,
    )
}

/// Keeps the first rows, and does random steps.
fn tell_of_steps<'b>(
    alloc: Global,
    arena: &'b Bump,
    dice: &mut Dice,
    machine: &Machine<'b>,
    schemas: &Schemas<'_>,
    rows: &mut Rows<'_, '_>,
    hedges: &mut Vec<HRow>,
    trees: &mut Vec<TRow>,
    texts: &mut Texts,
    tally: &mut Tally,
) -> Result<(), Fail>
    requires machine { IsMachine machine.now }
    requires kept { AreKept rows.old hedges.old.items trees.old.items }
{
    keep_first(alloc, rows, hedges, trees, texts)?;
    for _ in 0..STEPS {
        tell_of_step(
            alloc, arena, dice, machine, schemas, rows, hedges, trees, texts, tally,
        )?;
    }
    Ok(())
}

/// The same over a machine.
fn tell_over<'b>(
    alloc: Global,
    arena: &'b Bump,
    dice: &mut Dice,
    machine: &Machine<'b>,
    schemas: &Schemas<'_>,
    tally: &mut Tally,
) -> Result<(), Fail>
    requires { IsMachine machine.now }
{
    let mut rows = Rows::new(alloc, machine)?;
    let mut hedges = Vec::new(alloc);
    let mut trees = Vec::new(alloc);
    let mut texts = Texts {
        hedges: Vec::new(alloc),
        trees: Vec::new(alloc),
    };
    tell_of_steps(
        alloc,
        arena,
        dice,
        machine,
        schemas,
        &mut rows,
        &mut hedges,
        &mut trees,
        &mut texts,
        tally,
    )
}

/// The same over the machine of a triple.
fn tell_by_schemas<'b>(
    alloc: Global,
    arena: &'b Bump,
    dice: &mut Dice,
    schemas: &Schemas<'_>,
    triple: &TripleTexts,
    tally: &mut Tally,
) -> Result<(), Fail> {
    let (input, output) = (triple.input.as_str(), triple.output.as_str());
    let machine = machine_of_texts(alloc, arena, input, output, triple.sheet.as_str())?;
    tell_over(alloc, arena, dice, &machine, schemas, tally)
}

/// The same beside the automata of its schemas.
fn tell_of_texts(
    alloc: Global,
    dice: &mut Dice,
    triple: &TripleTexts,
    tally: &mut Tally,
) -> Result<(), Fail> {
    let arena = Bump::new(alloc);
    match schemas_of(alloc, &arena, triple) {
        Some(schemas) => tell_by_schemas(alloc, &arena, dice, &schemas, triple, tally),
        None => Err(Fail::from("the schemas are small")),
    }
}

/// The same over a random triple, and whether it is safe as far as is seen.
fn tell_of_one(alloc: Global, dice: &mut Dice, tally: &mut Tally) -> Result<(), Fail> {
    let (fit, unfit) = (tally.fit, tally.unfit);
    let triple = random_texts(alloc, dice)?;
    tell_of_texts(alloc, dice, &triple, tally)?;
    if tally.unfit > unfit {
        tally.not_safe = tally.not_safe.saturating_add(1);
    } else if tally.fit > fit {
        tally.safe = tally.safe.saturating_add(1);
    }
    Ok(())
}

/// The same over many random triples.
fn told_of_many(alloc: Global, seed: u32) -> Result<Tally, Fail> {
    let mut dice = Dice::new(seed);
    let mut tally = Tally::new();
    for _ in 0..TRIPLES {
        tell_of_one(alloc, &mut dice, &mut tally)?;
    }
    Ok(tally)
}

/// Whether each thing that can be told is told often.
fn are_many(tally: Tally) -> bool {
    tally.dead > 50
        && tally.invalid > 50
        && tally.fit > 50
        && tally.unfit > 50
        && tally.safe > 10
        && tally.not_safe > 10
}

/// Numbers with which dice begin.
static SEEDS: [u32; 3] = [1, 2, 3];

#[test]
fn rows_of_random_triples_tell_what_is_so(rt: HostRuntime) -> Result<(), Fail> {
    for seed in &SEEDS {
        let tally = told_of_many(rt.alloc(), *seed)?;
        assert!(rt;
            tally.wrong == 0 && are_many(tally),
            "{seed}: {} wrong",
            tally.wrong
        );
    }
    Ok(())
}
