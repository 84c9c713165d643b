// The machine of two schemas and a stylesheet, by which rows are worked out, unless a limit is passed that is tried
// before rows are.
ghost use Rattle.std.specs.Prelude.{◌≡◌, IfOk, OnOk, IfErr};
ghost use Rattle.tc_auto.specs.Stands as a;
ghost use Rattle.tc_base.specs.declared.limits.TheConstants.{MOST_INPUT_STATES, MOST_OUTPUT_STATES};
ghost use Rattle.tc_beh.specs.Machines.{AreParts, AreSomeParts, IsMachineOf, KeepsLimits};
ghost use Rattle.tc_model.specs.Grammars as g;
ghost use Rattle.tc_model.specs.StateCounts.{PassNone};
ghost use Rattle.tc_model.specs.States as s;
ghost use Rattle.tc_model.specs.Symbols.{symbols_of};
ghost use Rattle.tc_model.specs.Views as see;
ghost use Rattle.tc_model.specs.WellFormed.{IsSheet};
ghost use Rattle.tc_rows.specs.Triples.{Triple};
ghost use Rattle.tc_rules.specs.Kept.{IsRulesOf, told};
ghost use Rattle.tc_rules.specs.RulesView.{AreSymbolsWith};
ghost use Rattle.tc_decide.specs.Checking.{PassesTripleLimit};
ghost use Rattle.tc_decide.specs.MachinesSeen.{IsLawful, IsWellFormed, IsReadOf, IsCauseBy, AreAutomata, PassesMachine, IsMachineFor};
ghost use Rattle.tc_decide.specs.Limits.{AreFew, IsWithinLimits, PassesLimit, SheetPasses};

use std::alloc::Global;
use tc_alpha::{AlphaFault, Alphabet};
use tc_auto::{Auto, AutoFault};
use tc_base::limits::{
    DEEPEST_CALLS, MOST_ANCESTORS, MOST_ENTRIES, MOST_INPUT_STATES, MOST_OUTPUT_STATES,
    MOST_PREDICATES, MOST_SELECTS, MOST_SYMBOLS,
};
use tc_base::{Limit, NoMemory};
use tc_beh::{Machine, MachineFault};
use tc_hedge::Hedge;
use tc_model::{Grammar, Sheet};
use tc_read::Schema;
use tc_rules::{Rules, RulesFault};

/// Why there is no machine, or no automaton.
#[derive(Clone, Copy)]
pub(crate) enum LimitFault {
    /// This limit is passed, which has this number, and none that is tried before it.
    Passes(Limit, u32),
    /// Memory was refused.
    NoMemory,
}

impl From<NoMemory> for LimitFault {
    ghost use Rattle.std.specs.Prelude.{◌≡◌};
    ghost use Rattle.tc_decide.specs.declared.machine.LimitFault.TheVariants.{NoMemory};

    ghost from_gives = { λ _ e. e ≡ NoMemory };

    fn from(_error: NoMemory) -> LimitFault {
        LimitFault::NoMemory
    }
}

/// The machine of two schemas and a stylesheet.
///
/// # Errors
///
/// The first limit that is passed: those of the input schema, of the output schema, of what all three mention, of the
/// stylesheet, and of rows' entries.
pub(crate) fn machine_of<'b>(
    alloc: Global,
    input: &Schema<'b>,
    output: &Schema<'b>,
    sheet: &Sheet<'b>,
) -> Result<Machine<'b>, LimitFault>
    requires input { IsLawful input.now }
    requires output { IsWellFormed output.now }
    requires sheet { IsSheet (see.sheet sheet.now) }
    ensures ok { IfOk result (λ m. (i o : g.Grammar) → IsReadOf i input.now → IsReadOf o output.now
        → IsMachineFor i o (see.sheet sheet.now) m) }
    ensures err { IfErr result
        (λ e. (i o : g.Grammar) → IsReadOf i input.now → IsReadOf o output.now
        → IsCauseBy (PassesTripleLimit i o (see.sheet sheet.now)) e) }
{
    let contents = input_automaton(alloc, input)?;
    let states = output_automaton(alloc, output)?;
    let alphabet = alphabet_of(alloc, input, output, sheet)?;
    machine_over(alloc, contents, states, alphabet, sheet)
}

/// The grammar of a schema, unless its size passes a limit.
pub(crate) fn grammar_within_limits<'s, 'b>(
    schema: &'s Schema<'b>,
) -> Result<&'s Grammar<'b>, LimitFault>
    ensures ok { IfOk result (λ grammar. schema.now ≡ Schema.Small grammar.now) }
    ensures err { IfErr result (λ e. (side : s.Side) (x : g.Grammar) → IsReadOf x schema.now
        → IsCauseBy (PassesLimit x side MOST_INPUT_STATES) e) }
    ensures err_output { IfErr result (λ e. (side : s.Side) (x : g.Grammar) → IsReadOf x schema.now
        → IsCauseBy (PassesLimit x side MOST_OUTPUT_STATES) e) }
{
    match schema {
        Schema::Small(grammar) => Ok(grammar),
        Schema::TooLarge(kind, number) => Err(LimitFault::Passes(*kind, *number)),
    }
}

/// The automaton of the contents of an input schema, unless that passes a limit of its own.
pub(crate) fn input_automaton<'b>(
    alloc: Global,
    schema: &Schema<'b>,
) -> Result<Auto<'b>, LimitFault>
    ensures stands { IfOk result (λ auto. (x : g.Grammar) → IsReadOf x schema.now
        → a.Stands s.input x auto) }
    ensures within { OnOk result ((x : g.Grammar) → IsReadOf x schema.now
        → IsWithinLimits x s.input MOST_INPUT_STATES) }
    ensures err { IfErr result (λ e. (x : g.Grammar) → IsReadOf x schema.now
        → IsCauseBy (PassesLimit x s.input MOST_INPUT_STATES) e) }
{
    let grammar = grammar_within_limits(schema)?;
    match Auto::contents(alloc, grammar, MOST_INPUT_STATES) {
        Ok(auto) => Ok(auto),
        Err(AutoFault::TooManyStates) => {
            Err(LimitFault::Passes(Limit::States, MOST_INPUT_STATES))
        }
        Err(AutoFault::NoMemory) => Err(LimitFault::NoMemory),
    }
}

/// The automaton of an output schema, unless that passes a limit of its own.
fn output_automaton<'b>(alloc: Global, schema: &Schema<'b>) -> Result<Auto<'b>, LimitFault>
    ensures stands { IfOk result (λ auto. (x : g.Grammar) → IsReadOf x schema.now
        → a.Stands s.output x auto) }
    ensures within { OnOk result ((x : g.Grammar) → IsReadOf x schema.now
        → IsWithinLimits x s.output MOST_OUTPUT_STATES) }
    ensures err { IfErr result (λ e. (x : g.Grammar) → IsReadOf x schema.now
        → IsCauseBy (PassesLimit x s.output MOST_OUTPUT_STATES) e) }
{
    let grammar = grammar_within_limits(schema)?;
    match Auto::of(alloc, grammar, MOST_OUTPUT_STATES) {
        Ok(auto) => Ok(auto),
        Err(AutoFault::TooManyStates) => {
            Err(LimitFault::Passes(Limit::States, MOST_OUTPUT_STATES))
        }
        Err(AutoFault::NoMemory) => Err(LimitFault::NoMemory),
    }
}

/// The symbols of two schemas, which pass no limit of their own, and of a stylesheet.
fn alphabet_of(
    alloc: Global,
    input: &Schema<'_>,
    output: &Schema<'_>,
    sheet: &Sheet<'_>,
) -> Result<Alphabet, LimitFault>
    ensures stands { IfOk result
        (λ symbols. (i o : g.Grammar) → IsReadOf i input.now → IsReadOf o output.now
        → symbols ≡ symbols_of i o (see.sheet sheet.now)) }
    ensures few { IfOk result (λ symbols. AreFew symbols) }
    ensures err { IfErr result
        (λ e. (i o : g.Grammar) → IsReadOf i input.now → IsReadOf o output.now
        → IsWithinLimits i s.input MOST_INPUT_STATES → IsWithinLimits o s.output MOST_OUTPUT_STATES
        → IsCauseBy (PassesTripleLimit i o (see.sheet sheet.now)) e) }
{
    let input = grammar_within_limits(input)?;
    let output = grammar_within_limits(output)?;
    match Alphabet::of(alloc, input, output, sheet) {
        Ok(alphabet) => Ok(alphabet),
        Err(AlphaFault::TooManySymbols) => Err(LimitFault::Passes(Limit::Symbols, MOST_SYMBOLS)),
        Err(AlphaFault::NoMemory) => Err(LimitFault::NoMemory),
    }
}

/// The machine of automata, symbols and a stylesheet.
fn machine_over<'b>(
    alloc: Global,
    contents: Auto<'b>,
    states: Auto<'b>,
    alphabet: Alphabet,
    sheet: &Sheet<'b>,
) -> Result<Machine<'b>, LimitFault>
    requires sheet { IsSheet (see.sheet sheet.now) }
    requires automata { (i : g.Grammar) × (o : g.Grammar)
        × AreAutomata i o (see.sheet sheet.now) contents states alphabet }
    ensures ok { IfOk result (λ m. (i o : g.Grammar)
        → AreAutomata i o (see.sheet sheet.now) contents.entry states.entry alphabet
        → IsMachineFor i o (see.sheet sheet.now) m) }
    ensures err { IfErr result (λ e. (i o : g.Grammar)
        → AreAutomata i o (see.sheet sheet.now) contents.entry states.entry alphabet
        → IsCauseBy (PassesTripleLimit i o (see.sheet sheet.now)) e) }
{
    let inner = Hedge::of(alloc, contents, &alphabet)?;
    let outer = Hedge::of(alloc, states, &alphabet)?;
    let rules = rules_of(alloc, sheet, &alphabet)?;
    machine_by(alloc, inner, outer, rules, alphabet)
}

/// The rules of a stylesheet, unless that passes a limit.
pub(crate) fn rules_of<'b>(
    alloc: Global,
    sheet: &Sheet<'b>,
    alphabet: &Alphabet,
) -> Result<Rules<'b>, LimitFault>
    requires sheet { IsSheet (see.sheet sheet.now) }
    requires symbols { AreSymbolsWith alphabet.now (see.sheet sheet.now) }
    ensures sheet { IfOk result (λ r. (told r).sheet ≡ see.sheet sheet.now) }
    ensures rules { IfOk result (λ r. IsRulesOf alphabet.now r) }
    ensures within { OnOk result (PassNone alphabet.now (see.sheet sheet.now)) }
    ensures err { IfErr result (λ e. AreFew alphabet.now
        → IsCauseBy (SheetPasses alphabet.now (see.sheet sheet.now)) e) }
{
    match Rules::of(alloc, sheet, alphabet) {
        Ok(rules) => Ok(rules),
        Err(RulesFault::TooManyPredicates) => {
            Err(LimitFault::Passes(Limit::Predicates, MOST_PREDICATES))
        }
        Err(RulesFault::TooManyAncestorStates) => {
            Err(LimitFault::Passes(Limit::Ancestors, MOST_ANCESTORS))
        }
        Err(RulesFault::TooManySelectStates) => {
            Err(LimitFault::Passes(Limit::Selects, MOST_SELECTS))
        }
        Err(RulesFault::NoMemory) => Err(LimitFault::NoMemory),
    }
}

/// The machine of all its parts.
fn machine_by<'b>(
    alloc: Global,
    inner: Hedge<'b>,
    outer: Hedge<'b>,
    rules: Rules<'b>,
    alphabet: Alphabet,
) -> Result<Machine<'b>, LimitFault>
    requires parts { AreSomeParts inner outer rules alphabet }
    ensures stands { IfOk result (λ m. (x : Triple)
        → AreParts x inner.entry outer.entry rules.entry alphabet → IsMachineOf x m) }
    ensures within { OnOk result ((x : Triple)
        → AreParts x inner.entry outer.entry rules.entry alphabet → KeepsLimits x) }
    ensures err { IfErr result (λ e. (x : Triple)
        → AreParts x inner.entry outer.entry rules.entry alphabet → IsCauseBy (PassesMachine x) e) }
{
    match Machine::of(alloc, inner, outer, rules, alphabet) {
        Ok(machine) => Ok(machine),
        Err(MachineFault::TooManyCalls) => Err(LimitFault::Passes(Limit::Calls, DEEPEST_CALLS)),
        Err(MachineFault::TooManyEntries) => {
            Err(LimitFault::Passes(Limit::Entries, MOST_ENTRIES))
        }
        Err(MachineFault::NoMemory) => Err(LimitFault::NoMemory),
    }
}
