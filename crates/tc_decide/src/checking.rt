// Whether a stylesheet is safe between two schemas, by their texts.
ghost use Rattle.std.specs.Prelude.{◌≡◌, ◌≤◌, IfOk, OnOk, length};
ghost use Rattle.tc_base.specs.Reading.{longest_text};
ghost use Rattle.tc_base.specs.declared.limits.TheConstants.{GREATEST_LIMIT};
ghost use Rattle.tc_beh.specs.Machines.{IsMachine, IsMachineOf};
ghost use Rattle.tc_decide.specs.Checking.{IsWithinTripleLimits};
ghost use Rattle.tc_decide.specs.Deciding.{DecidesSafety, IfUnsafe, IsCounted, IsOutputOf, IsShownBy, OnSafe, TellsRefusal};
ghost use Rattle.tc_decide.specs.Texts.{IsShort, Means, Spells};
ghost use Rattle.tc_decide.specs.TextsSeen.{IsFound, IsFoundOfTexts, of_close};
ghost use Rattle.tc_model.specs.Grammars.{Grammar};
ghost use Rattle.tc_model.specs.Safety.{IsSafe};
ghost use Rattle.tc_model.specs.Sheets.{Sheet};
ghost use Rattle.tc_model.specs.Trees.{none, IsDocument};
ghost use Rattle.tc_model.specs.Views as see;
ghost use Rattle.tc_read.specs.Sheets.{IsSheetOf, MeansSheet};
ghost use Rattle.tc_rows.specs.Triples as t;

use crate::failure::{Failure, Kind, RowCount};
use crate::schemas::SchemaText;
use crate::texts::machine_of_texts;
use crate::verdict::{Output, Verdict};
use bumpalo::Bump;
use std::alloc::Global;
use tc_base::NoMemory;
use tc_base::limits::{MOST_OUTPUTS, MOST_SHOWN_NODES};
use tc_beh::Machine;
use tc_close::{CloseFault, Decision};
use tc_model::Node;
use tc_run::RunFault;

/// Whether a stylesheet is safe between two schemas, with so many rows of trees, and of lists of trees, at most: whether
/// every document that is valid for the input schema is transformed to one that is valid for the output schema. A text
/// isn't longer than a file may be. What is shown lies in the arena.
///
/// # Errors
///
/// The first text that is refused; or else the first limit that is passed; or want of memory, at any time.
pub fn check<'b>(
    arena: &'b Bump,
    alloc: Global,
    most: u32,
    input: SchemaText<'_>,
    output: SchemaText<'_>,
    sheet: &[u8],
) -> Result<Verdict<'b>, Failure>
    requires few { most ≤ GREATEST_LIMIT }
    requires input { IsShort input }
    requires output { IsShort output }
    requires sheet { length sheet.now ≤ longest_text }

    // Of texts of schemas in compact syntax. Yes: every document that is valid for the input has a result that is valid for the output.
    ensures safe { (i o : Grammar) (s : Sheet) → Means input.entry i → Means output.entry o
        → MeansSheet sheet.now s → OnSafe result (IsSafe i o s) }

    // Of such texts too. No: the document that is shown is valid for the input, and its result, which is shown too unless it is too large, isn't
    // valid for the output.
    ensures shown { (i o : Grammar) (s : Sheet) → Means input.entry i → Means output.entry o
        → MeansSheet sheet.now s → IfUnsafe result (IsShownBy i o s) }

    // The headline, of such texts: yes exactly where the stylesheet is safe, no exactly where some counterexample has few enough nodes to be
    // shown, with one of the fewest and its result; and else a failure.
    ensures headline { (i o : Grammar) (s : Sheet) → Means input.entry i → Means output.entry o
        → MeansSheet sheet.now s → OnOk result (DecidesSafety i o s result) }

    // So too where one schema or both are given as declarations of elements.
    ensures declared { (i o : Grammar) (s : Sheet) → Spells input.entry i → Spells output.entry o
        → IsSheetOf sheet.now s → OnOk result (DecidesSafety i o s result) }

    // Which failure, and which numbers: unless memory is refused, it is yes or no exactly where no limit is passed, and else the limit that is.
    ensures counted { (i o : Grammar) (s : Sheet) → Spells input.entry i → Spells output.entry o
        → IsSheetOf sheet.now s → IsCounted most i o s result }

    // The text that is refused, why and where; where none is, all are texts of schemas and a stylesheet.
    ensures refused { TellsRefusal input.entry output.entry sheet.now result }
{
    check_texts(arena, alloc, most, input, output, sheet)
}

/// Decides by the machine of the texts, where there is one.
fn check_texts<'b>(
    arena: &'b Bump,
    alloc: Global,
    most: u32,
    input: SchemaText<'_>,
    output: SchemaText<'_>,
    sheet: &[u8],
) -> Result<Verdict<'b>, Failure>
    requires few { most ≤ GREATEST_LIMIT }
    requires input { IsShort input }
    requires output { IsShort output }
    requires sheet { length sheet.now ≤ longest_text }
    ensures { IsFoundOfTexts (IsFound most) input.entry output.entry sheet.now result }
{
    let machine = machine_of_texts(arena, alloc, input, output, sheet)?;
    decide(arena, alloc, most, &machine)
}

/// Decides by the machine whether its stylesheet is safe.
fn decide<'b>(
    arena: &'b Bump,
    alloc: Global,
    most: u32,
    machine: &Machine<'b>,
) -> Result<Verdict<'b>, Failure>
    requires few { most ≤ GREATEST_LIMIT }
    requires machine { IsMachine machine.now }
    ensures { (x : t.Triple) → IsMachineOf x machine.now
        → IsWithinTripleLimits x.input x.output (t.sheet x)
        → IsFound most x.input x.output (t.sheet x) result }
{
    match tc_close::decide(arena, alloc, machine, most) {
        Ok(Decision::Safe(counts)) => Ok(Verdict::Safe(counts)),
        Ok(Decision::Unsafe(document)) => {
            let output = output_of(arena, machine, &document)?;
            Ok(Verdict::Unsafe(document, output))
        }
        Ok(Decision::TooManyNodes) => Err(Failure::Passes(Kind::Nodes, MOST_SHOWN_NODES)),
        Err(fault) => Err(rows_failure(most, fault)),
    }
}

/// A count of rows passes its limit.
pub(crate) fn rows_failure(most: u32, fault: CloseFault) -> Failure
    ensures { result ≡ of_close most fault }
{
    match fault {
        CloseFault::TooManyTrees => Failure::Passes(Kind::Rows(RowCount::Trees), most),
        CloseFault::TooManyHedges => Failure::Passes(Kind::Rows(RowCount::Hedges), most),
        CloseFault::TooManyOutputs => {
            Failure::Passes(Kind::Rows(RowCount::Outputs), MOST_OUTPUTS)
        }
        CloseFault::NoMemory => Failure::NoMemory,
    }
}

/// The result of a document, unless its run passes a limit.
pub(crate) fn output_of<'b>(
    arena: &'b Bump,
    machine: &Machine<'b>,
    document: &Node<'b>,
) -> Result<Output<'b>, NoMemory>
    requires machine { IsMachine machine.now }
    requires document { IsDocument (see.before document.now none) }
    ensures { IfOk result (λ output. (x : t.Triple) → IsMachineOf x machine.now
        → IsOutputOf (t.sheet x) (see.before document.now none) output) }
{
    match tc_run::run(arena, machine.rules(), machine.alphabet(), document) {
        Ok(nodes) => Ok(Output::Shown(nodes)),
        Err(RunFault::TooMuchWork) => Ok(Output::TooLarge),
        Err(RunFault::TooOpen) => Ok(Output::TooLarge),
        Err(RunFault::NoMemory) => Err(NoMemory),
    }
}
