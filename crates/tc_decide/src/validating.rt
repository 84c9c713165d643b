// Whether a document is valid for a schema, by their texts.
ghost use Rattle.std.specs.Prelude.{◌≡◌, ◌≤◌, ◌<◌, ◌⊎◌, Err, IfErr, IfOk, OnOk, length};
ghost use Rattle.tc_base.specs.Reading.{longest_text};
ghost use Rattle.tc_base.specs.declared.limits.TheConstants.{MOST_INPUT_STATES, MOST_SYMBOLS};
ghost use Rattle.tc_decide.specs.Limits.{AreFew, IsWithinLimits, symbols_of_schema};
ghost use Rattle.tc_decide.specs.MachinesSeen.{IsCauseBy, IsLawful, IsReadOf};
ghost use Rattle.tc_decide.specs.Texts.{IsShort, Spells};
ghost use Rattle.tc_decide.specs.TextsSeen.{of_limit};
ghost use Rattle.tc_decide.specs.Validating.{DecidesValidity, PassesValidity, TellsRefusalOfDocument, TellsValidityLimit};
ghost use Rattle.tc_decide.specs.ValidatingSeen.{IsFoundOfDocument, IsSchemaParts, TellsOfText, TellsOfTree};
ghost use Rattle.tc_model.specs.Grammars as g;
ghost use Rattle.tc_model.specs.States.{input};
ghost use Rattle.tc_model.specs.Symbols.{symbol_count};
ghost use Rattle.tc_model.specs.Trees.{Trees, none, IsDocument};
ghost use Rattle.tc_model.specs.Views as see;
ghost use Rattle.tc_print.specs.ReadBack.{IsReadAs};

use crate::empty::{no_rules, no_schema};
use crate::failure::{Failure, Which};
use crate::machine::{LimitFault, grammar_within_limits, input_automaton};
use crate::running::document_of;
use crate::schemas::SchemaText;
use crate::texts::schema_of;
use bumpalo::Bump;
use std::alloc::Global;
use tc_alpha::{AlphaFault, Alphabet};
use tc_auto::Auto;
use tc_base::Limit;
use tc_base::limits::MOST_SYMBOLS;
use tc_model::{Grammar, Node};
use tc_read::Schema;
use tc_steps::{Judge, take_tree};
use tc_xml::take_document;

/// The automaton of a schema's contents, and the schema's symbols.
#[derive(Drop)]
pub(crate) struct SchemaParts<'b> {
    pub(crate) automaton: Auto<'b>,
    pub(crate) alphabet: Alphabet,
}

/// Whether a document is valid for a schema. A text isn't longer than a file may be.
///
/// # Errors
///
/// The first text that is refused; or else a limit that the schema passes; or want of memory, at any time.
pub fn valid(alloc: Global, schema: SchemaText<'_>, document: &[u8]) -> Result<bool, Failure>
    requires schema { IsShort schema }
    requires document { length document.now ≤ longest_text }

    // Unless memory is refused, it is yes exactly where the schema passes no limit and the document is valid, and no exactly where it passes none
    // and the document isn't; and else the limit that is passed.
    ensures validity { (x : g.Grammar) (d : Trees) → Spells schema.entry x → IsReadAs document.now d
        → (result ≡ Err Failure.NoMemory) ⊎ DecidesValidity x d result }

    // The limit that is told, and the text that is refused.
    ensures counted { (x : g.Grammar) → Spells schema.entry x → TellsValidityLimit x result }
    ensures refused { TellsRefusalOfDocument schema.entry document.now result }
{
    valid_texts(alloc, schema, document)
}

/// Judges the document of a text by the schema of one.
fn valid_texts(alloc: Global, schema: SchemaText<'_>, document: &[u8]) -> Result<bool, Failure>
    requires schema { IsShort schema }
    requires document { length document.now ≤ longest_text }
    ensures { IsFoundOfDocument schema.entry document.now result }
{
    let arena = Bump::new(alloc);
    match schema_of(&arena, Which::Input, schema) {
        Ok(read) => valid_document(alloc, &arena, &read, document),
        Err(failure) => Err(failure),
    }
}

/// Judges the document of a text by a schema.
fn valid_document(
    alloc: Global,
    arena: &Bump,
    schema: &Schema<'_>,
    document: &[u8],
) -> Result<bool, Failure>
    requires schema { IsLawful schema.now }
    requires document { length document.now ≤ longest_text }
    ensures { (x : g.Grammar) → IsReadOf x schema.now → TellsOfText x document.now result }
{
    match schema_parts(alloc, schema) {
        Ok(parts) => judge_text(alloc, arena, &parts, document),
        Err(fault) => tell_limit(arena, fault, document),
    }
}

/// That a schema passes a limit, unless the text of the document is refused.
fn tell_limit(arena: &Bump, fault: LimitFault, document: &[u8]) -> Result<bool, Failure>
    requires { length document.now ≤ longest_text }
    ensures { (x : g.Grammar) → IsCauseBy (PassesValidity x) fault
        → TellsOfText x document.now result }
{
    match document_of(arena, document) {
        Ok(_) => Err(limit_failure(fault)),
        Err(failure) => Err(failure),
    }
}

/// The failure that a limit is.
pub(crate) fn limit_failure(fault: LimitFault) -> Failure
    ensures { result ≡ of_limit fault }
{
    Failure::from(fault)
}

/// Judges the text of a document by a schema that passes no limit. It makes no tree, unless something in the text is unusual.
fn judge_text<'d>(
    alloc: Global,
    arena: &'d Bump,
    schema: &SchemaParts<'_>,
    document: &'d [u8],
) -> Result<bool, Failure>
    requires { length document.now ≤ longest_text }
    ensures { (x : g.Grammar) → IsSchemaParts x schema.now → TellsOfText x document.now result }
{
    let judge = Judge::new(alloc, &schema.automaton, &schema.alphabet)?;
    match take_document(arena, document, judge) {
        Some(judge) => Ok(judge.is_valid()),
        None => judge_document(alloc, arena, schema, document),
    }
}

/// Judges the text of a document by a schema that passes no limit, by its tree.
fn judge_document(
    alloc: Global,
    arena: &Bump,
    schema: &SchemaParts<'_>,
    document: &[u8],
) -> Result<bool, Failure>
    requires { length document.now ≤ longest_text }
    ensures { (x : g.Grammar) → IsSchemaParts x schema.now → TellsOfText x document.now result }
{
    match document_of(arena, document) {
        Ok(root) => judge_tree(alloc, schema, &root),
        Err(failure) => Err(failure),
    }
}

/// Judges a document, as it was read, by a schema that passes no limit.
fn judge_tree(alloc: Global, schema: &SchemaParts<'_>, document: &Node<'_>) -> Result<bool, Failure>
    requires { IsDocument (see.before document.now none) }
    ensures { (x : g.Grammar) → IsSchemaParts x schema.now
        → TellsOfTree x (see.before document.now none) result }
{
    let mut judge = Judge::new(alloc, &schema.automaton, &schema.alphabet)?;
    match take_tree(&mut judge, document) {
        Some(()) => Ok(judge.is_valid()),
        None => Err(Failure::NoMemory),
    }
}

/// The automaton of a schema's contents, and its symbols.
///
/// # Errors
///
/// The first limit that the schema passes.
pub(crate) fn schema_parts<'b>(
    alloc: Global,
    schema: &Schema<'b>,
) -> Result<SchemaParts<'b>, LimitFault>
    requires schema { IsLawful schema.now }
    ensures ok { IfOk result
        (λ parts. (x : g.Grammar) → IsReadOf x schema.now → IsSchemaParts x parts) }
    ensures err { IfErr result
        (λ e. (x : g.Grammar) → IsReadOf x schema.now → IsCauseBy (PassesValidity x) e) }
{
    let automaton = input_automaton(alloc, schema)?;
    let alphabet = schema_symbols(alloc, schema)?;
    Ok(SchemaParts {
        automaton,
        alphabet,
    })
}

/// The symbols of a schema, which passes no limit of its own.
fn schema_symbols(alloc: Global, schema: &Schema<'_>) -> Result<Alphabet, LimitFault>
    ensures stands { IfOk result
        (λ symbols. (x : g.Grammar) → IsReadOf x schema.now → symbols ≡ symbols_of_schema x) }
    ensures few { IfOk result (λ symbols. AreFew symbols) }
    ensures err { IfErr result
        (λ e. (x : g.Grammar) → IsReadOf x schema.now → IsWithinLimits x input MOST_INPUT_STATES
        → IsCauseBy (PassesValidity x) e) }
{
    let grammar = grammar_within_limits(schema)?;
    match grammar_alphabet(alloc, grammar) {
        Ok(alphabet) => Ok(alphabet),
        Err(AlphaFault::TooManySymbols) => Err(LimitFault::Passes(Limit::Symbols, MOST_SYMBOLS)),
        Err(AlphaFault::NoMemory) => Err(LimitFault::NoMemory),
    }
}

/// The symbols of a grammar alone.
fn grammar_alphabet(alloc: Global, grammar: &Grammar<'_>) -> Result<Alphabet, AlphaFault>
    ensures stands { IfOk result (λ a. a ≡ symbols_of_schema (see.grammar grammar.now)) }
    ensures few { OnOk result (AreFew (symbols_of_schema (see.grammar grammar.now))) }
    ensures many { IfErr result (λ e. e ≡ AlphaFault.TooManySymbols
        → MOST_SYMBOLS < symbol_count (symbols_of_schema (see.grammar grammar.now))) }
{
    let nothing = no_schema();
    let sheet = no_rules();
    Alphabet::of(alloc, grammar, &nothing, &sheet)
}
