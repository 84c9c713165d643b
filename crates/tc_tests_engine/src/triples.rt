//! Machines of two schemas' texts and a stylesheet's, for the tests of what stands on machines.
ghost use Rattle.std.specs.Prelude.{◌≡◌, ◌≤◌, ◌⊎◌, length, IfOk};
ghost use Rattle.tc_model.specs.Grammars as g;
ghost use Rattle.tc_model.specs.Grammars.{IsGrammar};
ghost use Rattle.tc_model.specs.Sheets as sh;
ghost use Rattle.tc_model.specs.SimplifiesLaws.{IsStart};
ghost use Rattle.tc_model.specs.States as side;
ghost use Rattle.tc_model.specs.Symbols.{symbols_of};
ghost use Rattle.tc_model.specs.Views as see;
ghost use Rattle.tc_model.specs.WellFormed.{IsSheet};
ghost use Rattle.tc_hedge.specs.Stands.{Stands};
ghost use Rattle.tc_beh.specs.Machines.{IsMachine};

use bumpalo::Bump;
use std::alloc::Global;
use tc_alpha::Alphabet;
use tc_auto::Auto;
use tc_base::NoMemory;
use tc_beh::{Machine, MachineFault};
use tc_hedge::Hedge;
use tc_model::{Grammar, Sheet};
use tc_read::{Schema, read_schema, read_sheet};
use tc_rules::Rules;

/// The most bytes of a text that is read.
pub(crate) const LONGEST: usize = 1_000_000;

/// Why there is no machine of some texts.
#[derive(Clone, Copy, Debug, PartialEq, Eq)]
pub(crate) enum NoMachine {
    /// A text is too long or refused, a part of the machine passes a limit, or memory was refused.
    NotRead,
    /// There is no machine of the parts.
    Fault(MachineFault),
}

/// The schema of a text.
pub(crate) fn schema_of<'b>(arena: &'b Bump, text: &str) -> Result<Grammar<'b>, NoMachine>
    ensures grammar { IfOk result (λ x. IsGrammar (see.grammar x)) }
    ensures start { IfOk result (λ x. IsStart (see.grammar x).start) }
{
    if text.len() > LONGEST {
        return Err(NoMachine::NotRead);
    }
    let Ok(schema) = read_schema(arena, text.as_bytes()) else {
        return Err(NoMachine::NotRead);
    };
    match schema {
        Schema::Small(grammar) => Ok(grammar),
        Schema::TooLarge(_, _) => Err(NoMachine::NotRead),
    }
}

/// The stylesheet of a text.
pub(crate) fn sheet_of<'b>(arena: &'b Bump, text: &str) -> Result<Sheet<'b>, NoMachine>
    ensures { IfOk result (λ x. IsSheet (see.sheet x)) }
{
    if text.len() > LONGEST {
        return Err(NoMachine::NotRead);
    }
    match read_sheet(arena, text.as_bytes()) {
        Ok(sheet) => Ok(sheet),
        Err(_) => Err(NoMachine::NotRead),
    }
}

/// The automaton of the contents of an input schema, with the symbols that its name classes hold.
fn inner_of<'b>(
    alloc: Global,
    input: &Grammar<'b>,
    alphabet: &Alphabet,
) -> Result<Hedge<'b>, NoMachine>
    ensures { IfOk result
        (λ h. (i o : g.Grammar) (s : sh.Sheet) → alphabet.now ≡ symbols_of i o s
        → (see.grammar input.now ≡ i) ⊎ (see.grammar input.now ≡ o)
        → Stands side.input (see.grammar input.now) alphabet.now h) }
{
    let Ok(contents) = Auto::contents(alloc, input, 512) else {
        return Err(NoMachine::NotRead);
    };
    match Hedge::of(alloc, contents, alphabet) {
        Ok(inner) => Ok(inner),
        Err(_) => Err(NoMachine::NotRead),
    }
}

/// The automaton of an output schema, with the symbols that its name classes hold.
fn outer_of<'b>(
    alloc: Global,
    output: &Grammar<'b>,
    alphabet: &Alphabet,
) -> Result<Hedge<'b>, NoMachine>
    ensures { IfOk result
        (λ h. (i o : g.Grammar) (s : sh.Sheet) → alphabet.now ≡ symbols_of i o s
        → (see.grammar output.now ≡ i) ⊎ (see.grammar output.now ≡ o)
        → Stands side.output (see.grammar output.now) alphabet.now h) }
{
    let Ok(states) = Auto::of(alloc, output, 256) else {
        return Err(NoMachine::NotRead);
    };
    match Hedge::of(alloc, states, alphabet) {
        Ok(outer) => Ok(outer),
        Err(_) => Err(NoMachine::NotRead),
    }
}

/// The machine of two schemas and a stylesheet.
fn machine_of<'b>(
    alloc: Global,
    input: &Grammar<'b>,
    output: &Grammar<'b>,
    sheet: &Sheet<'b>,
) -> Result<Machine<'b>, NoMachine>
    requires input { IsGrammar (see.grammar input.now) }
    requires start { IsStart (see.grammar input.now).start }
    requires output { IsGrammar (see.grammar output.now) }
    requires sheet { IsSheet (see.sheet sheet.now) }
    ensures { IfOk result (λ m. IsMachine m) }
{
    let Ok(alphabet) = Alphabet::of(alloc, input, output, sheet) else {
        return Err(NoMachine::NotRead);
    };
    let inner = inner_of(alloc, input, &alphabet)?;
    let outer = outer_of(alloc, output, &alphabet)?;
    let Ok(rules) = Rules::of(alloc, sheet, &alphabet) else {
        return Err(NoMachine::NotRead);
    };
    match Machine::of(alloc, inner, outer, rules, alphabet) {
        Ok(machine) => Ok(machine),
        Err(fault) => Err(NoMachine::Fault(fault)),
    }
}

/// The machine of the texts of two schemas and of a stylesheet.
pub(crate) fn machine_of_texts<'b>(
    alloc: Global,
    arena: &'b Bump,
    input: &str,
    output: &str,
    sheet: &str,
) -> Result<Machine<'b>, NoMachine>
    ensures { IfOk result (λ m. IsMachine m) }
{
    let input = schema_of(arena, input)?;
    let output = schema_of(arena, output)?;
    let sheet = sheet_of(arena, sheet)?;
    machine_of(alloc, &input, &output, &sheet)
}

/// The text of a stylesheet with these rules.
pub(crate) fn sheet_text(alloc: Global, rules: &str) -> Result<String, NoMemory> {
    let mut text = String::from_str(
        alloc,
        "<xsl:stylesheet version=\"1.0\" xmlns:xsl=\"http://www.w3.org/1999/XSL/Transform\">",
    )?;
    text.push_str(rules)?;
    text.push_str("</xsl:stylesheet>")?;
    Ok(text)
}
