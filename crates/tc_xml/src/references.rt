// References, character data and attribute values (XML 1.0, 2.3, 2.4, 3.3.3, 4.1).
ghost use Rattle.std.specs.Prelude.{◌≡◌, ◌<◌, ◌++◌, ℕ, List, true, false, length, slice_index, string_bytes, encode_utf8, IfOk, IfErr, IfSome, OnOk};
ghost use Rattle.tc_base.specs.declared.reasons.Why.TheVariants.{EntityReference};
ghost use Rattle.tc_model.specs.XmlTextBytes as xml_bytes;
ghost use Rattle.tc_model.specs.XmlTextReferences as xml;
ghost use Rattle.tc_xml.specs.Refusals.{Refuses, UnsupportedAt, OnMalformed};
ghost use Rattle.tc_model.specs.XmlTextRefusals as refusals;
ghost use Rattle.tc_tags.specs.Values.{PieceAt, past_line_end};

use crate::faults::Stop;
use bumpalo::Bump;
use bumpalo::collections::into_bump_str;
use memchr::{memchr, memchr3};
use tc_base::{NoMemory, Why};
use tc_scan::{NoReference, after_byte, after_mark, plain_len_within, quote};

/// The character for which the reference at the front stands, and what follows it.
pub(crate) fn reference(text: &str) -> Result<(char, &str), Stop>
    ensures ok { IfOk result (λ r. xml.ReferenceAt false text.now (encode_utf8 r.0) r.1.now) }
    ensures no { IfErr result (λ e. Refuses e
        ((s after : List ℕ) → xml.ReferenceAt true text.now s after → ⊥)
        ((s after : List ℕ) → xml.ReferenceAt false text.now s after → ⊥)) }
    ensures stands { IfErr result
        (λ e. UnsupportedAt e
        (λ why at. (why ≡ EntityReference) × (at ≡ text.now) × refusals.OtherEntityAt at)) }
{
    match tc_scan::reference(text) {
        Ok(found) => Ok(found),
        Err(NoReference::Malformed) => Err(Stop::Malformed(text.len())),
        Err(NoReference::OtherEntity) => {
            Err(Stop::Unsupported(text.len(), Why::EntityReference))
        }
    }
}

/// What follows the CR LF, or the one byte, at the front.
fn after_line_end(text: &str) -> &str
    requires some { 0 < length text.now }
    requires ascii { slice_index text.now 0 < 128 }
    ensures { result.now ≡ past_line_end text.now }
{
    match after_mark(text, "\r\n") {
        Some(rest) => rest,
        None => &text[1..],
    }
}

/// Appends characters, each line end as LF (XML 1.0, 2.11).
pub(crate) fn push_lines(out: &mut String<&Bump>, run: &str) -> Result<(), NoMemory>
    ensures { OnOk result
        (string_bytes out.new ≡ string_bytes out.old ++ xml_bytes.line_ends run.now) }
{
    let mut rest = run;
    while let Some(at) = memchr(b'\r', rest.as_bytes()) {
        let (front, behind) = rest.split_at(at);
        out.push_str(front)?;
        out.push('\n')?;
        rest = after_line_end(behind);
    }
    out.push_str(rest)?;
    Ok(())
}

/// Appends characters, each line end and each tab as a space (XML 1.0, 2.11 and 3.3.3).
fn push_spaced(out: &mut String<&Bump>, run: &str) -> Result<(), NoMemory>
    ensures { OnOk result
        (string_bytes out.new ≡ string_bytes out.old ++ xml.spaced (xml_bytes.line_ends run.now)) }
{
    let mut rest = run;
    while let Some(at) = memchr3(b'\r', b'\n', b'\t', rest.as_bytes()) {
        let (front, behind) = rest.split_at(at);
        out.push_str(front)?;
        out.push(' ')?;
        rest = after_line_end(behind);
    }
    out.push_str(rest)?;
    Ok(())
}

/// Appends the run of characters or the reference at the front of what is left of a value, normalised, and
/// gives what follows it.
fn push_piece<'t>(value: &mut String<&Bump>, text: &'t str, quote: u8) -> Result<&'t str, Stop>
    requires is_quote { xml_bytes.IsQuote quote }
    ensures ok { IfOk result
        (λ rest. (piece : List ℕ) × PieceAt false quote text.now piece rest.now
        × (string_bytes value.new ≡ string_bytes value.old ++ piece)) }
    ensures no { IfErr result (λ e. Refuses e
        ((piece rest : List ℕ) → PieceAt true quote text.now piece rest → ⊥)
        ((piece rest : List ℕ) → PieceAt false quote text.now piece rest → ⊥)) }
    ensures stands { IfErr result
        (λ e. UnsupportedAt e
        (λ why at. (why ≡ EntityReference) × (at ≡ text.now) × refusals.OtherEntityAt at)) }
{
    let count = plain_len_within(text, quote);
    if count == 0 {
        let (c, rest) = reference(text)?;
        value.push(c)?;
        return Ok(rest);
    }
    let (run, rest) = text.split_at(count);
    push_spaced(value, run)?;
    Ok(rest)
}

/// The attribute value in quotes at the front, normalised, and what follows it.
pub(crate) fn quoted<'b, 't>(arena: &'b Bump, text: &'t str) -> Result<(&'b str, &'t str), Stop>
    ensures ok { IfOk result (λ r. xml.QuotedAt false text.now r.0.now r.1.now) }
    ensures no { IfErr result (λ e. Refuses e
        ((v after : List ℕ) → xml.QuotedAt true text.now v after → ⊥)
        ((v after : List ℕ) → xml.QuotedAt false text.now v after → ⊥)) }
    ensures stands { IfErr result
        (λ e. UnsupportedAt e
        (λ why at. (why ≡ EntityReference) × refusals.QuotedRefuses text.now at)) }
    ensures malformed { IfErr result
        (λ e. OnMalformed e ((at : List ℕ) → refusals.QuotedRefuses text.now at → ⊥)) }
{
    let Some((quote, inside)) = quote(text) else {
        return Err(Stop::Malformed(text.len()));
    };
    let mut value = String::new(arena);
    let mut rest = inside;
    loop {
        if let Some(after) = after_byte(rest, quote) {
            return Ok((into_bump_str(value), after));
        }
        rest = push_piece(&mut value, rest, quote)?;
    }
}

/// What follows the run of characters or the reference at the front of what is left of a value.
fn after_piece<'t>(text: &'t str, quote: u8) -> Option<&'t str>
    requires { xml_bytes.IsQuote quote }
    ensures { IfSome result
        (λ rest. (piece : List ℕ) × PieceAt false quote text.now piece rest.now) }
{
    let count = plain_len_within(text, quote);
    if count == 0 {
        return match reference(text) {
            Ok((_, rest)) => Some(rest),
            Err(_) => None,
        };
    }
    let (_, rest) = text.split_at(count);
    Some(rest)
}

/// What follows the attribute value in quotes at the front, which isn't made.
pub(crate) fn after_quoted<'t>(text: &'t str) -> Option<&'t str>
    ensures { IfSome result
        (λ rest. (value : List ℕ) × xml.QuotedAt false text.now value rest.now) }
{
    let (quote, inside) = quote(text)?;
    let mut rest = inside;
    'pieces: loop {
        if let Some(after) = after_byte(rest, quote) {
            return Some(after);
        }
        rest = after_piece(rest, quote)?;
    }
}
