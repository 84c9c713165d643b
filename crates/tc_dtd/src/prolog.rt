// The XML declaration of a document type definition (XML 1.0, 2.8 and 4.3.1).
ghost use Rattle.std.specs.Prelude.{◌≡◌, ◌⊎◌, ◌||◌, ℕ, List, IfOk, IfErr, MatchBool, codes};
ghost use Rattle.std.specs.Str.{str_eq_ignore_ascii_case};
ghost use Rattle.tc_model.specs.XmlTextMisc as xml;
ghost use Rattle.tc_dtd.specs.DtdTextDeclarations as form;
ghost use Rattle.tc_dtd.specs.Outcomes.{read};
ghost use Rattle.tc_dtd.specs.Stops.{Stops, Breaks};

use crate::faults::Stop;
use crate::misc::setting;
use tc_base::Why;
use tc_scan::{after_mark, after_some_white, after_white, begins};

/// What follows the version of an XML declaration, if it has one (XML 1.0, 2.8).
fn after_version(text: &str) -> Result<&str, Stop>
    ensures ok { IfOk result (λ r. form.VersionAt text.now (read tt r.now)) }
    ensures no { IfErr result (λ e. Stops e (form.VersionAt text.now)) }
{
    let start = after_white(text);
    if !begins(start, "version") {
        return Ok(text);
    }
    let Some((version, after)) = setting(text, "version") else {
        return Err(Stop::Malformed(start.len()));
    };
    if version == "1.0" {
        Ok(after)
    } else {
        Err(Stop::Unsupported(start.len(), Why::XmlVersion))
    }
}

/// What follows an encoding declaration, if there is one (XML 1.0, 4.3.3).
fn after_encoding(text: &str) -> Result<&str, Stop>
    ensures ok { IfOk result (λ r. xml.EncodingAt text.now r.now) }
    ensures no { IfErr result (λ e. Stops e (form.SettingsAt text.now)) }
{
    let start = after_white(text);
    if !begins(start, "encoding") {
        return Ok(text);
    }
    let Some((value, after)) = setting(text, "encoding") else {
        return Err(Stop::Malformed(start.len()));
    };
    if is_read_encoding(value) {
        Ok(after)
    } else {
        Err(Stop::Unsupported(start.len(), Why::Encoding))
    }
}

/// Whether texts in this encoding are read.
fn is_read_encoding(value: &str) -> bool
    ensures { result
        ≡ (str_eq_ignore_ascii_case value.now (codes "UTF-8")
        || str_eq_ignore_ascii_case value.now (codes "US-ASCII")) }
{
    value.eq_ignore_ascii_case("UTF-8") || value.eq_ignore_ascii_case("US-ASCII")
}

/// Whether this is `yes` or `no`.
fn is_yes_or_no(value: &str) -> bool
    ensures { MatchBool result ((value.now ≡ codes "yes") ⊎ (value.now ≡ codes "no"))
        ((value.now ≡ codes "yes") ⊎ (value.now ≡ codes "no") → ⊥) }
{
    matches!(value, "yes" | "no")
}

/// What follows a standalone declaration, if there is one (XML 1.0, 2.9).
fn after_standalone(text: &str) -> Result<&str, Stop>
    ensures ok { IfOk result (λ r. xml.StandaloneAt text.now r.now) }
    ensures no { IfErr result
        (λ e. Breaks e ((after : List ℕ) → xml.StandaloneAt text.now after → ⊥)) }
{
    let start = after_white(text);
    if !begins(start, "standalone") {
        return Ok(text);
    }
    let Some((value, after)) = setting(text, "standalone") else {
        return Err(Stop::Malformed(start.len()));
    };
    if is_yes_or_no(value) {
        Ok(after)
    } else {
        Err(Stop::Malformed(start.len()))
    }
}

/// What follows an XML declaration, from behind its version on (XML 1.0, 2.8).
fn after_settings(text: &str) -> Result<&str, Stop>
    ensures ok { IfOk result (λ r. form.SettingsAt text.now (read tt r.now)) }
    ensures no { IfErr result (λ e. Stops e (form.SettingsAt text.now)) }
{
    let past_encoding = match after_encoding(text) {
        Ok(past) => past,
        Err(stop) => return Err(stop),
    };
    let past_standalone = match after_standalone(past_encoding) {
        Ok(past) => past,
        Err(stop) => return Err(stop),
    };
    let end = after_white(past_standalone);
    match after_mark(end, "?>") {
        Some(after) => Ok(after),
        None => Err(Stop::Malformed(end.len())),
    }
}

/// Whether an XML declaration begins behind `<?xml`.
fn is_opened(text: &str) -> bool
    ensures { MatchBool result (form.IsOpened text.now) (form.IsOpened text.now → ⊥) }
{
    if begins(text, "?>") {
        return true;
    }
    match after_some_white(text) {
        Some(_) => true,
        None => false,
    }
}

/// What follows an XML declaration, if there is one (XML 1.0, 2.8 and 4.3.1).
pub(crate) fn after_declaration(text: &str) -> Result<&str, Stop>
    ensures ok { IfOk result (λ r. form.TextDeclarationAt text.now (read tt r.now)) }
    ensures no { IfErr result (λ e. Stops e (form.TextDeclarationAt text.now)) }
{
    let Some(rest) = after_mark(text, "<?xml") else {
        return Ok(text);
    };
    if !is_opened(rest) {
        return Ok(text);
    }
    let past_version = match after_version(rest) {
        Ok(past) => past,
        Err(stop) => return Err(stop),
    };
    after_settings(past_version)
}
