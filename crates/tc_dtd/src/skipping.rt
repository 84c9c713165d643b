// Declarations that aren't read: of attributes, notations and entities (XML 1.0, 3.3, 4.2 and 4.7).
ghost use Rattle.std.specs.Prelude.{◌≡◌, ◌≤◌, ◌⊎◌, ◌∷◌, ℕ, List, true, length, IfOk, IfErr, MatchOption};
ghost use Rattle.std.specs.List.{prefix_len};
ghost use Rattle.tc_model.specs.XmlTextBytes.{IsQuote};
ghost use Rattle.tc_dtd.specs.DtdTextDeclarations as form;
ghost use Rattle.tc_dtd.specs.Outcomes.{read};
ghost use Rattle.tc_dtd.specs.Stops.{Stops};

use crate::faults::Stop;
use tc_base::Why;
use tc_scan::after_mark;

/// How many bytes stand before the first `>`, `%` or quote, or before the end.
fn skipped_len(text: &str) -> usize
    ensures count { result ≡ prefix_len form.is_skipped text.now }
    ensures within { result ≤ length text.now }
{
    let mut count = 0;
    for byte in text.as_bytes() {
        if matches!(*byte, b'>' | b'%' | b'"' | b'\'') {
            return count;
        }
        count += 1;
    }
    count
}

/// How many bytes stand before the first such quote, or `%` where references are recognised, or before the end.
fn literal_len(text: &str, references: bool, quote: u8) -> usize
    ensures count { result ≡ prefix_len (form.is_within references quote) text.now }
    ensures within { result ≤ length text.now }
{
    let mut count = 0;
    for byte in text.as_bytes() {
        if *byte == quote || references && *byte == b'%' {
            return count;
        }
        count += 1;
    }
    count
}

/// The first `>`, `%` or quote, and what follows it.
fn past_skipped(text: &str) -> Option<(u8, &str)>
    ensures { MatchOption result
        ((b : ℕ) (r : List ℕ) → form.passed form.is_skipped text.now ≡ b ∷ r → ⊥)
        (λ found. (form.passed form.is_skipped text.now ≡ found.0 ∷ found.1.now)
        × ((found.0 ≡ 0x3E) ⊎ ((found.0 ≡ 0x25) ⊎ IsQuote found.0))) }
{
    let count = skipped_len(text);
    if count == text.len() {
        return None;
    }
    Some((text.as_bytes()[count], &text[count + 1..]))
}

/// The first such quote, or `%` where references are recognised, and what follows it.
fn past_literal(text: &str, references: bool, quote: u8) -> Option<(u8, &str)>
    requires { IsQuote quote }
    ensures { MatchOption result
        ((b : ℕ) (r : List ℕ) → form.passed (form.is_within references quote) text.now ≡ b ∷ r → ⊥)
        (λ found. (form.passed (form.is_within references quote) text.now ≡ found.0 ∷ found.1.now)
        × ((found.0 ≡ quote) ⊎ (found.0 ≡ 0x25))) }
{
    let count = literal_len(text, references, quote);
    if count == text.len() {
        return None;
    }
    Some((text.as_bytes()[count], &text[count + 1..]))
}

/// What follows a declaration that isn't read, from behind its word on. Where references are recognised in literals,
/// a `%` isn't read there either.
fn after_skipped(text: &str, references: bool) -> Result<&str, Stop>
    ensures ok { IfOk result (λ r. form.SkipsAt references text.now (read tt r.now)) }
    ensures no { IfErr result (λ e. Stops e (form.SkipsAt references text.now)) }
{
    let mut rest = text;
    while let Some((byte, behind)) = past_skipped(rest) {
        if byte == b'>' {
            return Ok(behind);
        }
        if byte == b'%' {
            return Err(Stop::Unsupported(behind.len() + 1, Why::ParameterEntity));
        }
        let Some((end, after)) = past_literal(behind, references, byte) else {
            return Err(Stop::Malformed(0));
        };
        if end != byte {
            return Err(Stop::Unsupported(after.len() + 1, Why::ParameterEntity));
        }
        rest = after;
    }
    Err(Stop::Malformed(0))
}

/// What follows a declaration of attributes, of a notation or of an entity (XML 1.0, 3.3, [52]; 4.7, [82]; 4.2, [70]).
pub(crate) fn after_unread(text: &str) -> Result<&str, Stop>
    ensures ok { IfOk result (λ r. form.SkippedAt text.now (read tt r.now)) }
    ensures no { IfErr result (λ e. Stops e (form.SkippedAt text.now)) }
{
    if let Some(rest) = after_mark(text, "<!ATTLIST") {
        return after_skipped(rest, false);
    }
    if let Some(rest) = after_mark(text, "<!NOTATION") {
        return after_skipped(rest, false);
    }
    if let Some(rest) = after_mark(text, "<!ENTITY") {
        return after_skipped(rest, true);
    }
    Err(Stop::Malformed(text.len()))
}
