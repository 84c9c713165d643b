// Whether a stylesheet is safe between two schemas, by their texts, with a certificate where it is.
ghost use Rattle.std.specs.Prelude.{◌≤◌, OnOk, length};
ghost use Rattle.tc_base.specs.Reading.{longest_text};
ghost use Rattle.tc_base.specs.declared.limits.TheConstants.{GREATEST_LIMIT};
ghost use Rattle.tc_beh.specs.Machines.{IsMachine, IsMachineOf};
ghost use Rattle.tc_decide.specs.Certificates.{DecidesProof, IfRefuted, IsCountedProof, OnCertified};
ghost use Rattle.tc_decide.specs.Checking.{IsWithinTripleLimits};
ghost use Rattle.tc_decide.specs.Deciding.{IsShownBy, TellsRefusal};
ghost use Rattle.tc_decide.specs.Texts.{IsShort, Means, Spells};
ghost use Rattle.tc_decide.specs.TextsSeen.{IsFoundOfTexts, IsProved};
ghost use Rattle.tc_model.specs.Grammars.{Grammar};
ghost use Rattle.tc_model.specs.Safety.{IsSafe};
ghost use Rattle.tc_model.specs.Sheets.{Sheet};
ghost use Rattle.tc_read.specs.Sheets.{IsSheetOf, MeansSheet};
ghost use Rattle.tc_rows.specs.Triples as t;

use crate::checking::{output_of, rows_failure};
use crate::failure::{Failure, Kind};
use crate::limits::LONGEST_CERTIFICATE;
use crate::schemas::SchemaText;
use crate::texts::machine_of_texts;
use crate::verdict::Proof;
use bumpalo::Bump;
use std::alloc::Global;
use tc_base::limits::MOST_SHOWN_NODES;
use tc_beh::Machine;
use tc_cert::write_cert;
use tc_close::Proof as Proved;

/// As `check`, but that where the stylesheet is safe the text of a certificate is given, which `verify` accepts.
///
/// # Errors
///
/// As of `check`; and the limit on the length of the certificate's text.
pub fn prove<'b>(
    arena: &'b Bump,
    alloc: Global,
    most: u32,
    input: SchemaText<'_>,
    output: SchemaText<'_>,
    sheet: &[u8],
) -> Result<Proof<'b>, Failure>
    requires few { most ≤ GREATEST_LIMIT }
    requires input { IsShort input }
    requires output { IsShort output }
    requires sheet { length sheet.now ≤ longest_text }

    // Of texts of schemas in compact syntax. A certificate: every document that is valid for the input has a result that is valid for the
    // output.
    ensures certified_safe { (i o : Grammar) (s : Sheet) → Means input.entry i
        → Means output.entry o → MeansSheet sheet.now s → OnCertified result (IsSafe i o s) }

    // None, of such texts too: the document that is shown is a counterexample, as of a check.
    ensures shown { (i o : Grammar) (s : Sheet) → Means input.entry i → Means output.entry o
        → MeansSheet sheet.now s → IfRefuted result (IsShownBy i o s) }

    // Also where schemas are given as declarations of elements: it decides as a check does, but that where that is yes it gives the text of
    // the one certificate with exactly the rows of what is live.
    ensures proved { (i o : Grammar) (s : Sheet) → Spells input.entry i → Spells output.entry o
        → IsSheetOf sheet.now s → OnOk result (DecidesProof i o s result) }

    // Which failure: unless memory is refused, it is a certificate or a counterexample exactly where no limit is passed, that of the length of
    // the certificate's text among them, and else the limit that is; and which text is refused.
    ensures counted { (i o : Grammar) (s : Sheet) → Spells input.entry i → Spells output.entry o
        → IsSheetOf sheet.now s → IsCountedProof i o s most result }
    ensures refused { TellsRefusal input.entry output.entry sheet.now result }
{
    prove_texts(arena, alloc, most, input, output, sheet)
}

/// Proves by the machine of the texts, where there is one.
fn prove_texts<'b>(
    arena: &'b Bump,
    alloc: Global,
    most: u32,
    input: SchemaText<'_>,
    output: SchemaText<'_>,
    sheet: &[u8],
) -> Result<Proof<'b>, Failure>
    requires few { most ≤ GREATEST_LIMIT }
    requires input { IsShort input }
    requires output { IsShort output }
    requires sheet { length sheet.now ≤ longest_text }
    ensures { IsFoundOfTexts (IsProved most) input.entry output.entry sheet.now result }
{
    let machine = machine_of_texts(arena, alloc, input, output, sheet)?;
    certify(arena, alloc, most, &machine)
}

/// Proves by the machine that its stylesheet is safe.
fn certify<'b>(
    arena: &'b Bump,
    alloc: Global,
    most: u32,
    machine: &Machine<'b>,
) -> Result<Proof<'b>, Failure>
    requires few { most ≤ GREATEST_LIMIT }
    requires machine { IsMachine machine.now }
    ensures { (x : t.Triple) → IsMachineOf x machine.now
        → IsWithinTripleLimits x.input x.output (t.sheet x)
        → IsProved most x.input x.output (t.sheet x) result }
{
    match tc_close::prove(arena, alloc, machine, most) {
        Ok(Proved::Certified(data)) => {
            let text = write_cert(alloc, &data)?;
            Ok(Proof::Certified(text))
        }
        Ok(Proved::TooLong) => Err(Failure::Passes(Kind::Certificate, LONGEST_CERTIFICATE)),
        Ok(Proved::Unsafe(document)) => {
            let output = output_of(arena, machine, &document)?;
            Ok(Proof::Unsafe(document, output))
        }
        Ok(Proved::TooManyNodes) => Err(Failure::Passes(Kind::Nodes, MOST_SHOWN_NODES)),
        Err(fault) => Err(rows_failure(most, fault)),
    }
}
