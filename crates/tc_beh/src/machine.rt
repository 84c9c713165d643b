// What rows are worked out by.
ghost use Rattle.std.specs.Prelude.{◌≡◌, ◌≤◌, ◌+◌, ◌*◌, max, IfOk, OnOk, IfErr};
ghost use Rattle.tc_base.specs.declared.limits.TheConstants.{DEEPEST_CALLS};
ghost use Rattle.tc_model.specs.States as s;
ghost use Rattle.tc_model.specs.Symbols.{symbol_count};
ghost use Rattle.tc_rows.specs.Triples as t;
ghost use Rattle.tc_rows.specs.Triples.{Triple};
ghost use Rattle.tc_rules.specs.Kept.{told};
ghost use Rattle.tc_beh.specs.Callees.{AreCalleesFirst};
ghost use Rattle.tc_beh.specs.Heights.{deepest, deepest_rule};
ghost use Rattle.tc_beh.specs.Machines.{IsMachineCause, KeepsLimits};
ghost use Rattle.tc_beh.specs.Stands.{IsRulesIn, AreRules};

use crate::calls::{TOO_MANY, callees_first, calls_of, depth_of_sheet};
use crate::symbols::Symbols;
use std::alloc::Global;
use tc_alpha::Alphabet;
use tc_base::NoMemory;
use tc_base::limits::MOST_ENTRIES;
use tc_hedge::Hedge;
use tc_rules::Rules;

/// How long the parts of rows are, and below which numbers those in them are.
#[derive(Clone, Copy, Debug, PartialEq, Eq)]
pub struct Shape {
    /// How many symbols there are.
    pub symbols: u32,
    /// How many states the contents of the input schema have.
    pub inputs: u32,
    /// How many states the output schema has.
    pub outputs: u32,
    /// How many element patterns the input schema has.
    pub patterns: u32,
    /// How many ancestor states times move states there are.
    pub entries: u32,
    /// How many look states there are.
    pub looks: u32,
}

/// Why there is no machine. Of the limits that are passed the first is told.
#[derive(Clone, Copy, Debug, PartialEq, Eq)]
pub enum MachineFault {
    /// More than 8,000 instructions of the stylesheet stand within one another, a called body within its call.
    TooManyCalls,
    /// There are more than 8,192 ancestor states times move states, plus look states.
    TooManyEntries,
    /// Memory was refused.
    NoMemory,
}

impl From<NoMemory> for MachineFault {
    ghost use Rattle.std.specs.Prelude.{◌≡◌};
    ghost use Rattle.tc_beh.specs.declared.machine.MachineFault.TheVariants.{NoMemory};

    ghost from_gives = { λ _ e. e ≡ NoMemory };

    fn from(_error: NoMemory) -> MachineFault {
        MachineFault::NoMemory
    }
}

/// An input schema, an output schema and a stylesheet, as rows need them.
#[derive(Drop)]
pub struct Machine<'b> {
    pub(crate) input: Hedge<'b>,
    pub(crate) output: Hedge<'b>,
    pub(crate) rules: Rules<'b>,
    pub(crate) alphabet: Symbols<'b>,
    /// The numbers of the bodies of named templates, each after those that it calls.
    pub(crate) order: Vec<usize>,
    /// How many elements stand open at most in the text of a body.
    pub(crate) depth: u32,
}

/// How many ancestor states times move states there are.
fn entries_of(rules: &Rules<'_>) -> u32
    requires { AreRules rules.now }
    ensures exact { (x : Triple) → IsRulesIn x rules.now → result ≡ t.entries x }
    ensures few { result ≤ 262144 }
{
    rules.ancestors() * rules.moves()
}

/// The numbers of the bodies of named templates, each after those that it calls, where the limits of a machine are kept.
///
/// # Errors
///
/// Of the limits that are passed the first.
fn order_of(alloc: Global, rules: &Rules<'_>) -> Result<Vec<usize>, MachineFault>
    requires { AreRules rules.now }
    ensures order { IfOk result
        (λ o. (x : Triple) → IsRulesIn x rules.now → AreCalleesFirst (t.sheet x).named o.items) }
    ensures shallow { OnOk result ((x : Triple) → IsRulesIn x rules.now
        → max (deepest_rule (t.sheet x).rules) (deepest (t.sheet x).named) ≤ DEEPEST_CALLS) }
    ensures within { OnOk result ((x : Triple) → IsRulesIn x rules.now → KeepsLimits x) }
    ensures cause { IfErr result (λ e. (x : Triple) → IsRulesIn x rules.now → IsMachineCause x e) }
{
    let sheet = *rules.sheet();
    let order = callees_first(alloc, sheet.named)?;
    let calls = calls_of(alloc, &sheet, &order)?;
    if calls >= TOO_MANY {
        return Err(MachineFault::TooManyCalls);
    }
    if entries_of(rules) + rules.looks() > MOST_ENTRIES {
        return Err(MachineFault::TooManyEntries);
    }
    Ok(order)
}

impl<'b> Machine<'b> {
    ghost use Rattle.std.specs.Prelude.{◌≡◌, IfOk, OnOk, IfErr};
    ghost use Rattle.tc_beh.specs.Machines.{AreParts, AreSomeParts, IsMachine, IsMachineOf, IsMachineCause, KeepsLimits, IsShapeOf};
    ghost use Rattle.tc_rows.specs.Triples.{Triple};

    /// A machine of the contents of an input schema, of an output schema, and of the rules of a stylesheet, over the symbols of
    /// all three.
    ///
    /// # Errors
    ///
    /// Of the limits that are passed the first: 8,000 instructions within one another, 8,192 entries and looks.
    pub fn of(
        alloc: Global,
        input: Hedge<'b>,
        output: Hedge<'b>,
        rules: Rules<'b>,
        alphabet: Alphabet,
    ) -> Result<Machine<'b>, MachineFault>
        requires { AreSomeParts input output rules alphabet }
        ensures stands { IfOk result (λ m. (x : Triple)
            → AreParts x input.entry output.entry rules.entry alphabet → IsMachineOf x m) }
        ensures within { OnOk result ((x : Triple)
            → AreParts x input.entry output.entry rules.entry alphabet → KeepsLimits x) }
        ensures cause { IfErr result (λ e. (x : Triple)
            → AreParts x input.entry output.entry rules.entry alphabet → IsMachineCause x e) }
    {
        let order = order_of(alloc, &rules)?;
        let depth = depth_of_sheet(rules.sheet());
        let Ok(alphabet) = Symbols::of(alloc, alphabet, rules.sheet()) else {
            return Err(MachineFault::NoMemory);
        };
        Ok(Machine {
            input,
            output,
            rules,
            alphabet,
            order,
            depth,
        })
    }

    /// The rules that it was made of.
    pub fn rules(&self) -> &Rules<'b>
        ensures { result.now ≡ self.now.rules }
    {
        &self.rules
    }

    /// The symbols that it was made of.
    pub fn alphabet(&self) -> &Alphabet
        ensures { result.now ≡ self.now.alphabet }
    {
        self.alphabet.alphabet()
    }

    /// How long the parts of rows are.
    pub fn shape(&self) -> Shape
        requires { IsMachine self.now }
        ensures { (x : Triple) → IsMachineOf x self.now → IsShapeOf x result }
    {
        Shape {
            symbols: self.alphabet.alphabet().count(),
            inputs: self.input.auto().states(),
            outputs: self.output.auto().states(),
            patterns: self.input.auto().patterns(),
            entries: entries_of(&self.rules),
            looks: self.rules.looks(),
        }
    }
}
