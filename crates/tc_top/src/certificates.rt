// What `prove`, `verify` and `upgrade` answer.
ghost use Rattle.std.specs.Prelude.{◌≡◌, ◌≤◌, ℕ, List, IfOk};
ghost use Rattle.tc_answer.specs.Words as w;
ghost use Rattle.tc_answer.specs.Words.{Words};
ghost use Rattle.tc_base.specs.declared.limits.TheConstants.{GREATEST_LIMIT};
ghost use Rattle.tc_io.specs.Reads.{Happened};
ghost use Rattle.tc_top.specs.AnswersSeen.{IsRightFor};
ghost use Rattle.tc_top.specs.Checking.{most_rows};

use crate::check::row_limit;
use crate::prove::prove_texts;
use crate::unread::answer_unread;
use crate::upgrade::upgrade_text;
use crate::verify::verify_texts;
use std::alloc::Global;
use tc_answer::{Answer, Source, Triple, read_operand, read_triple, read_verified};
use tc_base::NoMemory;
use tc_io::Store;

/// Reads the operands of a check, and gives a certificate where the stylesheet is safe, with so many rows of trees and of
/// lists of trees at most where that is said.
pub fn prove<S: Store>(
    alloc: Global,
    limit: Option<u32>,
    triple: Triple<'_>,
    store: &mut S,
) -> Result<Answer, NoMemory>
    requires few { most_rows limit ≤ GREATEST_LIMIT }
    ensures same { S.holds store.new ≡ S.holds store.old }
    ensures count { S.faults store.old ≤ S.faults store.new }
    ensures ok { IfOk result (λ said. (words : List (List ℕ))
        → Words words
        (w.prove limit triple.entry.input.now triple.entry.output.now triple.entry.sheet.now)
        → IsRightFor words (Happened S.read_gives S.holds S.faults store.old store.new) said) }
{
    match read_triple(alloc, triple, store) {
        Ok(operands) => prove_texts(alloc, row_limit(limit), &operands),
        Err(unread) => answer_unread(alloc, unread),
    }
}

/// Reads the operands of a check and a certificate, and tells whether it is one.
pub fn verify<S: Store>(
    alloc: Global,
    triple: Triple<'_>,
    certificate: &str,
    store: &mut S,
) -> Result<Answer, NoMemory>
    ensures same { S.holds store.new ≡ S.holds store.old }
    ensures count { S.faults store.old ≤ S.faults store.new }
    ensures ok { IfOk result (λ said. (words : List (List ℕ))
        → Words words
        (w.verify triple.entry.input.now triple.entry.output.now triple.entry.sheet.now
        certificate.now)
        → IsRightFor words (Happened S.read_gives S.holds S.faults store.old store.new) said) }
{
    match read_verified(alloc, triple, certificate, store) {
        Ok((operands, certificate)) => verify_texts(alloc, &operands, &certificate),
        Err(unread) => answer_unread(alloc, unread),
    }
}

/// Reads a certificate, and writes it by the changes of its rows.
pub fn upgrade<S: Store>(
    alloc: Global,
    certificate: &str,
    store: &mut S,
) -> Result<Answer, NoMemory>
    ensures same { S.holds store.new ≡ S.holds store.old }
    ensures count { S.faults store.old ≤ S.faults store.new }
    ensures ok { IfOk result
        (λ said. (words : List (List ℕ)) → Words words (w.upgrade certificate.now)
        → IsRightFor words (Happened S.read_gives S.holds S.faults store.old store.new) said) }
{
    match read_operand(alloc, Source::plain(certificate), store) {
        Ok(certificate) => upgrade_text(alloc, &certificate),
        Err(unread) => answer_unread(alloc, unread),
    }
}
