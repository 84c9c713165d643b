// What stands around the root element: the XML declaration, comments, processing instructions, a doctype
// (XML 1.0, 2.5 to 2.8).
ghost use Rattle.std.specs.Prelude.{◌≡◌, ◌∷◌, ◌++◌, ◌⊎◌, ◌||◌, [], ℕ, List, IfOk, IfErr, MatchOption, MatchBool, codes};
ghost use Rattle.std.specs.Str.{str_eq_ignore_ascii_case};
ghost use Rattle.tc_model.specs.XmlTextBytes as bytes;
ghost use Rattle.tc_model.specs.XmlTextMisc as xml;
ghost use Rattle.tc_model.specs.XmlTextReferences as references;
ghost use Rattle.tc_base.specs.declared.reasons.Why.{Why};
ghost use Rattle.tc_base.specs.declared.reasons.Why.TheVariants.{DoctypeSubset, Encoding};
ghost use Rattle.tc_model.specs.XmlTextRefusals as refusals;
ghost use Rattle.tc_xml.specs.Refusals.{Refuses, UnsupportedAt, OnMalformed};
ghost use Rattle.tc_xml.specs.Tags.{Breaks};

use crate::faults::Stop;
use tc_base::Why;
use tc_scan::{
    after_byte, after_equals, after_mark, after_some_white, after_white, begins, ncname, qname,
    up_to,
};

/// What follows the comment at the front (XML 1.0, 2.5).
pub(crate) fn after_comment(text: &str) -> Option<&str>
    ensures { MatchOption result ((after : List ℕ) → xml.CommentAt text.now after → ⊥)
        (λ r. xml.CommentAt text.now r.now) }
{
    let inside = after_mark(text, "<!--")?;
    let (_, behind) = up_to(inside, "--")?;
    after_byte(behind, b'>')
}

/// What follows the processing instruction at the front (XML 1.0, 2.6).
pub(crate) fn after_instruction(text: &str) -> Option<&str>
    ensures { MatchOption result ((after : List ℕ) → xml.InstructionAt text.now after → ⊥)
        (λ r. xml.InstructionAt text.now r.now) }
{
    let start = after_mark(text, "<?")?;
    let (target, behind) = ncname(start)?;
    if target.eq_ignore_ascii_case("xml") {
        return None;
    }
    let (inside, after) = up_to(behind, "?>")?;
    if is_apart(inside, behind) {
        Some(after)
    } else {
        None
    }
}

/// Whether nothing stands in an instruction, or white space after its target.
fn is_apart(inside: &str, behind: &str) -> bool
    ensures { MatchBool result ((inside.now ≡ []) ⊎ bytes.BeginsWithWhite behind.now)
        ((inside.now ≡ []) ⊎ bytes.BeginsWithWhite behind.now → ⊥) }
{
    if inside.is_empty() {
        return true;
    }
    match after_some_white(behind) {
        Some(_) => true,
        None => false,
    }
}

/// What follows the CDATA section at the front, after what stands in it (XML 1.0, 2.7).
pub(crate) fn cdata(text: &str) -> Option<(&str, &str)>
    ensures { MatchOption result ((v after : List ℕ) → references.CdataAt text.now v after → ⊥)
        (λ r. references.CdataAt text.now r.0.now r.1.now) }
{
    let inside = after_mark(text, "<![CDATA[")?;
    up_to(inside, "]]>")
}

/// The literal in quotes at the front, and what follows it (XML 1.0, 2.3).
fn literal(text: &str) -> Option<(&str, &str)>
    ensures { MatchOption result ((v after : List ℕ) → bytes.LiteralAt text.now v after → ⊥)
        (λ r. bytes.LiteralAt text.now r.0.now r.1.now) }
{
    if let Some(inside) = after_byte(text, b'"') {
        return up_to(inside, "\"");
    }
    up_to(after_byte(text, b'\'')?, "'")
}

/// The literal that this word is set to, after white space, and what follows it.
fn setting<'t>(text: &'t str, word: &str) -> Option<(&'t str, &'t str)>
    ensures { MatchOption result ((v after : List ℕ) → xml.SettingAt word.now text.now v after → ⊥)
        (λ r. xml.SettingAt word.now text.now r.0.now r.1.now) }
{
    let start = after_some_white(text)?;
    let behind = after_mark(start, word)?;
    let value = after_equals(behind)?;
    literal(value)
}

/// What follows an encoding declaration, if there is one (XML 1.0, 4.3.3).
fn after_encoding(text: &str) -> Result<&str, Stop>
    ensures ok { IfOk result (λ r. xml.EncodingAt text.now r.now) }
    ensures no { IfErr result
        (λ e. Refuses e ((after : List ℕ) → xml.EncodingAt text.now after → ⊥)
        ((after : List ℕ) → xml.EncodingAt text.now after → ⊥)) }
    ensures stands { IfErr result
        (λ e. UnsupportedAt e (λ why at. (why ≡ Encoding) × (at ≡ bytes.after_white text.now)
        × ((value : List ℕ) × (after : List ℕ)
        × xml.SettingAt (codes "encoding") text.now value after
        × (xml.IsReadEncoding value → ⊥)))) }
    ensures malformed { IfErr result
        (λ e. OnMalformed e
        ((value after : List ℕ) → xml.SettingAt (codes "encoding") text.now value after → ⊥)) }
{
    let start = after_white(text);
    if !begins(start, "encoding") {
        return Ok(text);
    }
    let Some((value, after)) = setting(text, "encoding") else {
        return Err(Stop::Malformed(start.len()));
    };
    if is_read_encoding(value) {
        Ok(after)
    } else {
        Err(Stop::Unsupported(start.len(), Why::Encoding))
    }
}

/// Whether texts in this encoding are read.
fn is_read_encoding(value: &str) -> bool
    ensures { result
        ≡ (str_eq_ignore_ascii_case value.now (codes "UTF-8")
        || str_eq_ignore_ascii_case value.now (codes "US-ASCII")) }
{
    value.eq_ignore_ascii_case("UTF-8") || value.eq_ignore_ascii_case("US-ASCII")
}

/// Whether this is `yes` or `no`.
fn is_yes_or_no(value: &str) -> bool
    ensures { MatchBool result ((value.now ≡ codes "yes") ⊎ (value.now ≡ codes "no"))
        ((value.now ≡ codes "yes") ⊎ (value.now ≡ codes "no") → ⊥) }
{
    matches!(value, "yes" | "no")
}

/// What follows a standalone declaration, if there is one (XML 1.0, 2.9).
fn after_standalone(text: &str) -> Result<&str, Stop>
    ensures ok { IfOk result (λ r. xml.StandaloneAt text.now r.now) }
    ensures no { IfErr result
        (λ e. Breaks e ((after : List ℕ) → xml.StandaloneAt text.now after → ⊥)) }
{
    let start = after_white(text);
    if !begins(start, "standalone") {
        return Ok(text);
    }
    let Some((value, after)) = setting(text, "standalone") else {
        return Err(Stop::Malformed(start.len()));
    };
    if is_yes_or_no(value) {
        Ok(after)
    } else {
        Err(Stop::Malformed(start.len()))
    }
}

/// What follows an XML declaration, from the settings behind its version on (XML 1.0, 2.8).
fn after_settings(text: &str) -> Result<&str, Stop>
    ensures ok { IfOk result
        (λ r. (encoding standalone : List ℕ) × xml.EncodingAt text.now encoding
        × xml.StandaloneAt encoding standalone
        × (bytes.after_white standalone ≡ codes "?>" ++ r.now)) }
    ensures no { IfErr result (λ e. Refuses e
        ((encoding standalone after : List ℕ) → xml.EncodingAt text.now encoding
        → xml.StandaloneAt encoding standalone → bytes.after_white standalone ≡ codes "?>" ++ after
        → ⊥)
        ((encoding standalone after : List ℕ) → xml.EncodingAt text.now encoding
        → xml.StandaloneAt encoding standalone → bytes.after_white standalone ≡ codes "?>" ++ after
        → ⊥)) }
    ensures stands { IfErr result
        (λ e. UnsupportedAt e (λ why at. (why ≡ Encoding) × (at ≡ bytes.after_white text.now)
        × ((value : List ℕ) × (after : List ℕ)
        × xml.SettingAt (codes "encoding") text.now value after
        × (xml.IsReadEncoding value → ⊥)))) }
    ensures malformed { IfErr result
        (λ e. OnMalformed e
        ((value after : List ℕ) → xml.SettingAt (codes "encoding") text.now value after
        → (xml.IsReadEncoding value → ⊥) → ⊥)) }
{
    let past_encoding = after_encoding(text)?;
    let past_standalone = match after_standalone(past_encoding) {
        Ok(past) => past,
        Err(stop) => return Err(stop),
    };
    let end = after_white(past_standalone);
    match after_mark(end, "?>") {
        Some(after) => Ok(after),
        None => Err(Stop::Malformed(end.len())),
    }
}

/// What follows an XML declaration, if there is one (XML 1.0, 2.8).
pub(crate) fn after_declaration(text: &str) -> Result<&str, Stop>
    ensures ok { IfOk result (λ r. xml.DeclarationAt text.now r.now) }
    ensures no { IfErr result
        (λ e. Refuses e ((after : List ℕ) → xml.DeclarationAt text.now after → ⊥)
        ((after : List ℕ) → xml.DeclarationAt text.now after → ⊥)) }
    ensures stands { IfErr result (λ e. UnsupportedAt e (refusals.DeclarationRefuses text.now)) }
    ensures malformed { IfErr result
        (λ e. OnMalformed e
        ((why : Why) (at : List ℕ) → refusals.DeclarationRefuses text.now why at → ⊥)) }
{
    let Some(rest) = after_mark(text, "<?xml") else {
        return Ok(text);
    };
    let Some(start) = after_some_white(rest) else {
        return Ok(text);
    };
    let Some((version, behind)) = setting(rest, "version") else {
        return Err(Stop::Malformed(start.len()));
    };
    if version != "1.0" {
        return Err(Stop::Unsupported(start.len(), Why::XmlVersion));
    }
    after_settings(behind)
}

/// What follows the comment or processing instruction at the front, if there is one.
fn after_one_misc(start: &str) -> Result<Option<&str>, Stop>
    ensures ok { IfOk result
        (λ o. MatchOption o (xml.IsNoMisc start.now)
        (λ after. xml.CommentAt start.now after.now ⊎ xml.InstructionAt start.now after.now)) }
    ensures no { IfErr result
        (λ e. Breaks e
        ((text after : List ℕ) → bytes.after_white text ≡ start.now → xml.MiscAt text after → ⊥)) }
{
    if begins(start, "<!--") {
        return match after_comment(start) {
            Some(after) => Ok(Some(after)),
            None => Err(Stop::Malformed(start.len())),
        };
    }
    if begins(start, "<?") {
        return match after_instruction(start) {
            Some(after) => Ok(Some(after)),
            None => Err(Stop::Malformed(start.len())),
        };
    }
    Ok(None)
}

/// What follows white space, comments and processing instructions, as many as there are (XML 1.0, 2.8).
pub(crate) fn after_misc(text: &str) -> Result<&str, Stop>
    ensures ok { IfOk result (λ r. xml.MiscAt text.now r.now) }
    ensures no { IfErr result (λ e. Breaks e ((after : List ℕ) → xml.MiscAt text.now after → ⊥)) }
{
    let mut rest = text;
    while let Some(after) = after_one_misc(after_white(rest))? {
        rest = after;
    }
    Ok(after_white(rest))
}

/// Whether a doctype or its subset goes on here.
fn ends_doctype(start: &str) -> bool
    ensures { MatchBool result ((r : List ℕ) × ((start.now ≡ 0x3E ∷ r) ⊎ (start.now ≡ 0x5B ∷ r)))
        ((r : List ℕ) → (start.now ≡ 0x3E ∷ r) ⊎ (start.now ≡ 0x5B ∷ r) → ⊥) }
{
    if begins(start, ">") {
        return true;
    }
    if begins(start, "[") {
        return true;
    }
    false
}

/// What follows an external identifier, if there is one (XML 1.0, 4.2.2).
fn after_external_id(text: &str) -> Option<&str>
    ensures { MatchOption result ((after : List ℕ) → xml.ExternalIdAt text.now after → ⊥)
        (λ r. xml.ExternalIdAt text.now r.now) }
{
    let start = after_white(text);
    if ends_doctype(start) {
        return Some(text);
    }
    let start = after_some_white(text)?;
    if let Some(behind) = after_mark(start, "SYSTEM") {
        return after_spaced_literal(behind);
    }
    let behind = after_mark(start, "PUBLIC")?;
    let second = after_spaced_literal(behind)?;
    after_spaced_literal(second)
}

/// What follows a literal after white space.
fn after_spaced_literal(text: &str) -> Option<&str>
    ensures { MatchOption result
        ((v after : List ℕ) → bytes.BeginsWithWhite text.now
        → bytes.LiteralAt (bytes.after_white text.now) v after → ⊥)
        (λ r. bytes.BeginsWithWhite text.now
        × ((v : List ℕ) × bytes.LiteralAt (bytes.after_white text.now) v r.now)) }
{
    let start = after_some_white(text)?;
    let (_, after) = literal(start)?;
    Some(after)
}

/// What follows a doctype up to where its `>` or its subset stands (XML 1.0, 2.8).
fn after_doctype_front(text: &str) -> Option<&str>
    ensures { MatchOption result ((after : List ℕ) → xml.DoctypeFrontAt text.now after → ⊥)
        (λ r. xml.DoctypeFrontAt text.now r.now) }
{
    let rest = after_mark(text, "<!DOCTYPE")?;
    let start = after_some_white(rest)?;
    let (_, behind) = qname(start)?;
    let end = after_external_id(behind)?;
    Some(after_white(end))
}

/// What follows a doctype and the misc after it, if there is one.
pub(crate) fn after_doctype(text: &str) -> Result<&str, Stop>
    ensures ok { IfOk result (λ r. xml.DoctypeAt text.now r.now) }
    ensures no { IfErr result
        (λ e. Refuses e ((after : List ℕ) → xml.DoctypeAt text.now after → ⊥)
        ((after : List ℕ) → xml.DoctypeAt text.now after → ⊥)) }
    ensures stands { IfErr result
        (λ e. UnsupportedAt e
        (λ why at. (why ≡ DoctypeSubset) × ((r : List ℕ) × (at ≡ 0x5B ∷ r))
        × xml.DoctypeFrontAt text.now at)) }
    ensures malformed { IfErr result
        (λ e. OnMalformed e ((r : List ℕ) → xml.DoctypeFrontAt text.now (0x5B ∷ r) → ⊥)) }
{
    if !begins(text, "<!DOCTYPE") {
        return Ok(text);
    }
    let Some(end) = after_doctype_front(text) else {
        return Err(Stop::Malformed(text.len()));
    };
    match after_byte(end, b'>') {
        Some(rest) => after_misc(rest),
        None => Err(if begins(end, "[") {
            Stop::Unsupported(end.len(), Why::DoctypeSubset)
        } else {
            Stop::Malformed(end.len())
        }),
    }
}
