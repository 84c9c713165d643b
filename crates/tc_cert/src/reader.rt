// Reading the lines of a certificate one by one.
ghost use Rattle.std.specs.declared.cmp.Ordering.TheVariants.{Less};
ghost use Rattle.std.specs.Prelude.{◌≡◌, ◌↔◌, IsTrue, ◌≤◌, ◌<◌, ◌+◌, ◌∷◌, ◌++◌, [], true, ℕ, List, length, codes, IfOk, IfErr, IfSome, MatchOption, MatchResult};
ghost use Rattle.std.specs.Option.{option_map};
ghost use Rattle.tc_base.specs.declared.limits.TheConstants.{LONGEST_FILE};
ghost use Rattle.tc_model.specs.CertificateLines as lines;
ghost use Rattle.tc_model.specs.CertificateData.{ArePairs};
ghost use Rattle.tc_cert.specs.Fields.{Fields, fields_of, IsFormedRow, IsNextRow, line_behind, row_in, row_line};
ghost use Rattle.tc_cert.specs.NextRows.{IsShort};
ghost use Rattle.tc_cert.specs.Pieces.{IsMissing};
ghost use Rattle.tc_cert.specs.Readings.{IsUnread};
ghost use Rattle.tc_cert.specs.Standing.{Passes, Stands, IsAfterLent, IsEndFault, IsNextFault, fault_behind};
ghost use Rattle.tc_cert.specs.Styles.{version_of};
ghost use Rattle.tc_cert.specs.Fronts.{begun};
ghost use Rattle.tc_cert.specs.declared.faults.PieceFault.TheVariants.{NoMemory};
ghost use Rattle.tc_cert.specs.Texts.{Version, counted, heading};

use crate::cursor::Reader;
use crate::faults::{CertFault, PieceFault};
use crate::order::pairs_order;
use crate::pieces::{after_byte, do_pairs_ascend, number, pairs};
use crate::rows::{Kind, Row, Style, next_row};
use std::alloc::Global;
use std::cmp::Ordering;
use tc_model::Pairs;

/// What follows this text, where the bytes begin with it.
pub(crate) fn after_text<'t>(bytes: &'t [u8], text: &[u8]) -> Option<&'t [u8]>
    ensures { MatchOption result ((r : List ℕ) → bytes.now ≡ text.now ++ r → ⊥)
        (λ rest. bytes.now ≡ text.now ++ rest.now) }
{
    if bytes.starts_with(text) {
        Some(&bytes[text.len()..])
    } else {
        None
    }
}

/// The first line at the front, and the next line.
fn first_line(bytes: &[u8]) -> Option<(Style, &[u8])>
    ensures { MatchOption result
        ((v : Version) (rest : List ℕ) → bytes.now ≡ heading v ++ 10 ∷ rest → ⊥)
        (λ r. bytes.now ≡ heading (version_of r.0) ++ 10 ∷ r.1.now) }
{
    if let Some(rest) = after_text(bytes, b"xslt-typecheck certificate 1\n") {
        return Some((Style::Whole, rest));
    }
    match after_text(bytes, b"xslt-typecheck certificate 2\n") {
        Some(rest) => Some((Style::ByChanges, rest)),
        None => None,
    }
}

/// The line at the front that tells how many lines of a kind follow, at most so many, and the next line.
fn count_line<'t>(bytes: &'t [u8], kind: &[u8], most: u32) -> Option<(u32, &'t [u8])>
    ensures { MatchOption result
        ((n : ℕ) (rest : List ℕ) → n ≤ most → bytes.now ≡ counted kind.now n ++ 10 ∷ rest → ⊥)
        (λ r. (r.0 ≤ most) × (bytes.now ≡ counted kind.now r.0 ++ 10 ∷ r.1.now)) }
{
    let Some(behind) = after_text(bytes, kind) else {
        return None;
    };
    let Some(digits) = after_byte(behind, b' ') else {
        return None;
    };
    let Some((count, end)) = number(digits) else {
        return None;
    };
    if most < count {
        return None;
    }
    match after_byte(end, b'\n') {
        Some(rest) => Some((count, rest)),
        None => None,
    }
}

/// Whether an order is `Less`.
fn is_less(order: Ordering) -> bool
    ensures { IsTrue result ↔ (order ≡ Less) }
{
    order == Ordering::Less
}

/// Whether an output stands behind another.
fn is_behind(alloc: Global, before: Option<&Pairs>, pairs: &Pairs) -> Result<bool, PieceFault>
    requires { ArePairs pairs.now × IfSome before (λ b. ArePairs b.now) }
    ensures ok { IfOk result (λ is. (is ≡ true → IsAfterLent before.entry pairs.now)
        × (IsAfterLent before.entry pairs.now → is ≡ true)) }
    ensures no { IfErr result (λ e. e ≡ NoMemory) }
{
    match before {
        Some(before) => {
            let order = pairs_order(alloc, before, pairs)?;
            Ok(is_less(order))
        }
        None => Ok(true),
    }
}

/// The line at the front of an output that stands behind another, and the next line.
fn output_line<'t>(
    alloc: Global,
    bytes: &'t [u8],
    before: Option<&Pairs>,
) -> Result<(Pairs, &'t [u8]), PieceFault>
    requires short { length bytes.now ≤ LONGEST_FILE }
    requires before { IfSome before (λ b. ArePairs b.now) }
    ensures ok { IfOk result (λ r. ArePairs r.0 × IsAfterLent before.entry r.0
        × (bytes.now ≡ lines.pairs_line r.0 ++ 10 ∷ r.1.now)) }
    ensures no { IfErr result
        (IsMissing ((ps : List (ℕ × ℕ)) × (rest : List ℕ) × ArePairs ps
        × IsAfterLent before.entry ps × (bytes.now ≡ lines.pairs_line ps ++ 10 ∷ rest))) }
{
    let Some(inside) = after_byte(bytes, b'm') else {
        return Err(PieceFault::Form);
    };
    let (pairs, rest) = pairs(alloc, inside)?;
    if !do_pairs_ascend(&pairs) {
        return Err(PieceFault::Form);
    }
    let behind = is_behind(alloc, before, &pairs)?;
    if !behind {
        return Err(PieceFault::Form);
    }
    Ok((pairs, rest))
}

impl<'t> Reader<'t> {
    /// Reads the first line.
    pub(crate) fn new(text: &'t [u8]) -> Result<Reader<'t>, CertFault>
        requires { length text.now ≤ LONGEST_FILE }
        ensures { MatchResult result (λ r. (v : Version) × Stands v text.now (begun v) r)
            (λ e. IsUnread text.now e) }
    {
        match first_line(text) {
            Some((style, rest)) => Ok(Reader {
                rest,
                style,
                lines: 1,
            }),
            None => Err(CertFault::Form(1)),
        }
    }

    /// The fault of the next line.
    fn fault(&self, fault: PieceFault) -> CertFault
        ensures { result ≡ fault_behind self.now.lines fault }
    {
        match fault {
            PieceFault::Form => CertFault::Form(self.lines + 1),
            PieceFault::NoMemory => CertFault::NoMemory,
        }
    }

    /// Reads the line that tells how many lines of a kind follow, at most so many.
    pub(crate) fn count(&mut self, kind: &[u8], most: u32) -> Result<u32, CertFault>
        ensures ok { IfOk result (λ n. (n ≤ most) × Passes (counted kind.now n) self.old self.new) }
        ensures no { IfErr result
            (IsNextFault self.old.lines
            ((n : ℕ) × (rest : List ℕ) × (n ≤ most)
            × (self.old.rest.now ≡ counted kind.now n ++ 10 ∷ rest))) }
    {
        match count_line(self.rest, kind, most) {
            Some((count, rest)) => {
                self.pass(rest);
                Ok(count)
            }
            None => Err(self.fault(PieceFault::Form)),
        }
    }

    /// Reads the line of an output behind another.
    pub(crate) fn output(
        &mut self,
        alloc: Global,
        before: Option<&Pairs>,
    ) -> Result<Pairs, CertFault>
        requires { IfSome before (λ b. ArePairs b.now) }
        ensures ok { IfOk result (λ ps. ArePairs ps × IsAfterLent before.entry ps
            × Passes (lines.pairs_line ps) self.old self.new) }
        ensures no { IfErr result
            (IsNextFault self.old.lines
            ((ps : List (ℕ × ℕ)) × (rest : List ℕ) × ArePairs ps × IsAfterLent before.entry ps
            × (self.old.rest.now ≡ lines.pairs_line ps ++ 10 ∷ rest))) }
    {
        match output_line(alloc, self.rest, before) {
            Ok((pairs, rest)) => {
                self.pass(rest);
                Ok(pairs)
            }
            Err(fault) => Err(self.fault(fault)),
        }
    }

    /// Reads a row behind another.
    pub(crate) fn row(
        &mut self,
        alloc: Global,
        kind: Kind,
        before: Option<Row>,
    ) -> Result<Row, CertFault>
        requires { IfSome before (λ b. IsFormedRow (fields_of b) × IsShort (fields_of b)) }
        ensures ok { IfOk result
            (λ r. IsNextRow (version_of self.old.style) kind
            (option_map fields_of before) self.old.rest.now (fields_of r) self.new.rest.now
            × (self.new.lines ≡ self.old.lines + 1) × (self.new.style ≡ self.old.style)) }
        ensures short { IfOk result (λ r. IsShort (fields_of r)) }
        ensures no { IfErr result
            (IsNextFault self.old.lines
            ((f : Fields) × (rest : List ℕ)
            × IsNextRow (version_of self.old.style) kind
            (option_map fields_of before) self.old.rest.now f rest)) }
    {
        match next_row(alloc, self.rest, kind, self.style, before) {
            Ok((row, rest)) => {
                self.pass(rest);
                Ok(row)
            }
            Err(fault) => Err(self.fault(fault)),
        }
    }

    /// Reads the last line, behind which nothing may stand.
    pub(crate) fn end(&self) -> Result<(), CertFault>
        ensures { MatchResult result (λ _. self.now.rest.now ≡ codes "end" ++ 10 ∷ [])
            (IsEndFault self.now) }
    {
        let Some(rest) = after_text(self.rest, b"end\n") else {
            return Err(CertFault::Form(self.lines + 1));
        };
        if rest.is_empty() {
            Ok(())
        } else {
            Err(CertFault::Form(self.lines + 2))
        }
    }
}
