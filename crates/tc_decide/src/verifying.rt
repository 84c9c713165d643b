// Whether a text is that of a certificate for two schemas and a stylesheet.
ghost use Rattle.std.specs.Prelude.{◌≡◌, ◌<◌, ◌≤◌, ◌⊎◌, ℕ, List, Err, IfOk, length};
ghost use Rattle.tc_base.specs.Reading.{longest_text};
ghost use Rattle.tc_beh.specs.Machines.{IsMachine, IsMachineOf};
ghost use Rattle.tc_cert.specs.Readings.{IsUnread};
ghost use Rattle.tc_cert.specs.Texts.{CertificateText};
ghost use Rattle.tc_decide.specs.Checking.{IsWithinTripleLimits};
ghost use Rattle.tc_decide.specs.Deciding.{TellsRefusal};
ghost use Rattle.tc_decide.specs.Rejections.{rejection, told_by};
ghost use Rattle.tc_decide.specs.Texts.{IsShort, Means, Spells};
ghost use Rattle.tc_decide.specs.TextsSeen.{IsFoundOfTexts};
ghost use Rattle.tc_decide.specs.Verified.{DecidesCertificate, OnAccepted, TellsTextLimit};
ghost use Rattle.tc_decide.specs.VerifiedSeen.{IsNoForm, IsVerified, IsVerifiedAs, ranges_of};
ghost use Rattle.tc_model.specs.CertificateData.{IsFormed};
ghost use Rattle.tc_model.specs.Grammars.{Grammar};
ghost use Rattle.tc_model.specs.Safety.{IsSafe};
ghost use Rattle.tc_model.specs.Sheets.{Sheet};
ghost use Rattle.tc_model.specs.Symbols.{symbol_count};
ghost use Rattle.tc_read.specs.Sheets.{IsSheetOf, MeansSheet};
ghost use Rattle.tc_rows.specs.Triples as t;

use crate::failure::Failure;
use crate::rejection::Rejection;
use crate::schemas::SchemaText;
use crate::texts::machine_of_texts;
use crate::verdict::Verification;
use bumpalo::Bump;
use std::alloc::Global;
use tc_alpha::Sym;
use tc_base::NoMemory;
use tc_beh::{Machine, Shape};
use tc_cert::{CertFault, Ranges, first_unfit, read_cert};
use tc_model::CertData;
use tc_verify::{Reject, RejectRule, VerifyFault};

/// Whether a text is that of a certificate that the stylesheet is safe between the schemas. No limit on rows is tried: the
/// text itself bounds them. A name that is told lies in the arena.
///
/// # Errors
///
/// The first of the other texts that is refused; or else the first limit that they pass; or want of memory, at any time.
pub fn verify<'b>(
    arena: &'b Bump,
    alloc: Global,
    input: SchemaText<'_>,
    output: SchemaText<'_>,
    sheet: &[u8],
    certificate: &[u8],
) -> Result<Verification<'b>, Failure>
    requires input { IsShort input }
    requires output { IsShort output }
    requires sheet { length sheet.now ≤ longest_text }
    requires certificate { length certificate.now ≤ longest_text }

    // Of texts of schemas in compact syntax. Accepted: every document that is valid for the input has a result that is valid for the
    // output.
    ensures accepted_safe { (i o : Grammar) (s : Sheet) → Means input.entry i
        → Means output.entry o → MeansSheet sheet.now s → OnAccepted result (IsSafe i o s) }

    // So too where one schema or both are given as declarations of elements.
    ensures declared { (i o : Grammar) (s : Sheet) → Spells input.entry i → Spells output.entry o
        → IsSheetOf sheet.now s → OnAccepted result (IsSafe i o s) }

    // Unless memory is refused, it is accepted exactly where no limit is passed and the text is that of a certificate, and rejected exactly
    // where none is passed and it isn't, by the first rule that fails; and else a limit is told that is passed.
    ensures verified { (i o : Grammar) (s : Sheet) → Spells input.entry i → Spells output.entry o
        → IsSheetOf sheet.now s
        → (result ≡ Err Failure.NoMemory) ⊎ DecidesCertificate i o s certificate.now result }

    // The limit that is told, and the text that is refused.
    ensures counted { (i o : Grammar) (s : Sheet) → Spells input.entry i → Spells output.entry o
        → IsSheetOf sheet.now s → TellsTextLimit i o s result }
    ensures refused { TellsRefusal input.entry output.entry sheet.now result }
{
    verify_texts(arena, alloc, input, output, sheet, certificate)
}

/// Verifies by the machine of the texts, where there is one.
fn verify_texts<'b>(
    arena: &'b Bump,
    alloc: Global,
    input: SchemaText<'_>,
    output: SchemaText<'_>,
    sheet: &[u8],
    certificate: &[u8],
) -> Result<Verification<'b>, Failure>
    requires input { IsShort input }
    requires output { IsShort output }
    requires sheet { length sheet.now ≤ longest_text }
    requires certificate { length certificate.now ≤ longest_text }
    ensures { IsFoundOfTexts (IsVerified certificate.now) input.entry output.entry sheet.now
        result }
{
    let machine = machine_of_texts(arena, alloc, input, output, sheet)?;
    verify_text(arena, alloc, &machine, certificate)
}

/// The ranges of the numbers of a certificate.
fn ranges_by(shape: Shape) -> Ranges
    ensures { result ≡ ranges_of shape }
{
    Ranges {
        output_states: shape.outputs,
        patterns: shape.patterns,
        input_states: shape.inputs,
        outs: shape.entries,
        looks: shape.looks,
    }
}

/// Verifies the bytes of a certificate: only what fits is unfolded.
fn verify_text<'b>(
    arena: &'b Bump,
    alloc: Global,
    machine: &Machine<'_>,
    text: &[u8],
) -> Result<Verification<'b>, Failure>
    requires machine { IsMachine machine.now }
    requires text { length text.now ≤ longest_text }
    ensures { (x : t.Triple) → IsMachineOf x machine.now
        → IsWithinTripleLimits x.input x.output (t.sheet x)
        → IsVerified text.now x.input x.output (t.sheet x) result }
{
    match first_unfit(alloc, text, ranges_by(machine.shape())) {
        Ok(None) => verify_fitting(arena, alloc, machine, text),
        Ok(Some(line)) => Ok(Verification::Rejected(Rejection::Fit(line))),
        Err(fault) => no_form(fault),
    }
}

/// What is told of bytes that aren't read as a certificate.
fn no_form<'b>(fault: CertFault) -> Result<Verification<'b>, Failure>
    ensures { (bytes : List ℕ) → IsUnread bytes fault → IsNoForm bytes result }
{
    match fault {
        CertFault::Form(line) => Ok(Verification::Rejected(Rejection::Form(line))),
        CertFault::NoMemory => Err(Failure::NoMemory),
    }
}

/// Verifies the bytes of a certificate whose numbers fit.
fn verify_fitting<'b>(
    arena: &'b Bump,
    alloc: Global,
    machine: &Machine<'_>,
    text: &[u8],
) -> Result<Verification<'b>, Failure>
    requires machine { IsMachine machine.now }
    requires text { length text.now ≤ longest_text }
    ensures { (x : t.Triple) → IsMachineOf x machine.now
        → IsWithinTripleLimits x.input x.output (t.sheet x)
        → IsVerified text.now x.input x.output (t.sheet x) result }
{
    match read_cert(alloc, text) {
        Ok(data) => verify_data(arena, alloc, machine, &data),
        Err(fault) => no_form(fault),
    }
}

/// Verifies the data of a certificate.
fn verify_data<'b>(
    arena: &'b Bump,
    alloc: Global,
    machine: &Machine<'_>,
    held: &CertData,
) -> Result<Verification<'b>, Failure>
    requires machine { IsMachine machine.now }
    requires formed { IsFormed held.now }
    ensures { (x : t.Triple) → IsMachineOf x machine.now
        → IsWithinTripleLimits x.input x.output (t.sheet x) → (bytes : List ℕ)
        → CertificateText bytes held.now → IsVerified bytes x.input x.output (t.sheet x) result }
{
    match tc_verify::verify(alloc, machine, held) {
        Ok(()) => Ok(Verification::Accepted),
        Err(VerifyFault::Rejected(reject)) => reject_data(arena, machine, reject),
        Err(VerifyFault::NoMemory) => Err(Failure::NoMemory),
    }
}

/// What is told of data by the first rule that fails.
fn reject_data<'b>(
    arena: &'b Bump,
    machine: &Machine<'_>,
    reject: Reject,
) -> Result<Verification<'b>, Failure>
    requires { reject.rule ≡ RejectRule.Wrap → reject.other < symbol_count machine.now.alphabet }
    ensures { IsVerifiedAs
        (told_by machine.now.alphabet reject.rule reject.line reject.other) result }
{
    match rejection_of(arena, machine, reject) {
        Ok(why) => Ok(Verification::Rejected(why)),
        Err(NoMemory) => Err(Failure::NoMemory),
    }
}

/// The first rule that fails, as it is told.
fn rejection_of<'b>(
    arena: &'b Bump,
    machine: &Machine<'_>,
    reject: Reject,
) -> Result<Rejection<'b>, NoMemory>
    requires { reject.rule ≡ RejectRule.Wrap → reject.other < symbol_count machine.now.alphabet }
    ensures { IfOk result
        (λ why. rejection why ≡ told_by machine.now.alphabet reject.rule reject.line reject.other) }
{
    match reject.rule {
        RejectRule::Form => Ok(Rejection::Form(reject.line)),
        RejectRule::Fit => Ok(Rejection::Fit(reject.line)),
        RejectRule::Empty => Ok(Rejection::Empty),
        RejectRule::Text => Ok(Rejection::Text),
        RejectRule::Append => Ok(Rejection::Append(reject.line, reject.other)),
        RejectRule::Wrap => {
            let name = machine.alphabet().fresh(arena, Sym(reject.other))?;
            Ok(Rejection::Wrap(reject.line, name))
        }
        RejectRule::Root => Ok(Rejection::Root(reject.line)),
    }
}
