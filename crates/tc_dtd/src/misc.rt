// White space, comments and processing instructions, and the settings of an XML declaration (XML 1.0, 2.3 to 2.8).
ghost use Rattle.std.specs.Prelude.{◌≡◌, ◌⊎◌, [], ℕ, List, IfOk, IfErr, MatchOption, MatchBool};
ghost use Rattle.tc_model.specs.XmlTextBytes as bytes;
ghost use Rattle.tc_model.specs.XmlTextMisc as xml;
ghost use Rattle.tc_dtd.specs.Outcomes.{Past};
ghost use Rattle.tc_dtd.specs.Stops.{Stops, Breaks};

use crate::faults::Stop;
use tc_scan::{
    after_byte, after_equals, after_mark, after_some_white, after_white, begins, ncname, up_to,
};

/// What follows the comment at the front (XML 1.0, 2.5).
fn after_comment(text: &str) -> Option<&str>
    ensures { MatchOption result ((after : List ℕ) → xml.CommentAt text.now after → ⊥)
        (λ r. xml.CommentAt text.now r.now) }
{
    let inside = after_mark(text, "<!--")?;
    let (_, behind) = up_to(inside, "--")?;
    after_byte(behind, b'>')
}

/// What follows the processing instruction at the front (XML 1.0, 2.6).
fn after_instruction(text: &str) -> Option<&str>
    ensures { MatchOption result ((after : List ℕ) → xml.InstructionAt text.now after → ⊥)
        (λ r. xml.InstructionAt text.now r.now) }
{
    let start = after_mark(text, "<?")?;
    let (target, behind) = ncname(start)?;
    if target.eq_ignore_ascii_case("xml") {
        return None;
    }
    let (inside, after) = up_to(behind, "?>")?;
    if is_apart(inside, behind) {
        Some(after)
    } else {
        None
    }
}

/// Whether nothing stands in an instruction, or white space after its target.
fn is_apart(inside: &str, behind: &str) -> bool
    ensures { MatchBool result ((inside.now ≡ []) ⊎ bytes.BeginsWithWhite behind.now)
        ((inside.now ≡ []) ⊎ bytes.BeginsWithWhite behind.now → ⊥) }
{
    if inside.is_empty() {
        return true;
    }
    match after_some_white(behind) {
        Some(_) => true,
        None => false,
    }
}

/// What follows the comment or processing instruction at the front, if there is one.
fn after_one_misc(start: &str) -> Result<Option<&str>, Stop>
    ensures ok { IfOk result
        (λ o. MatchOption o (xml.IsNoMisc start.now)
        (λ after. xml.CommentAt start.now after.now ⊎ xml.InstructionAt start.now after.now)) }
    ensures no { IfErr result
        (λ e. Breaks e
        ((text after : List ℕ) → bytes.after_white text ≡ start.now → xml.MiscAt text after → ⊥)) }
{
    if begins(start, "<!--") {
        return match after_comment(start) {
            Some(after) => Ok(Some(after)),
            None => Err(Stop::Malformed(start.len())),
        };
    }
    if begins(start, "<?") {
        return match after_instruction(start) {
            Some(after) => Ok(Some(after)),
            None => Err(Stop::Malformed(start.len())),
        };
    }
    Ok(None)
}

/// What follows white space, comments and processing instructions, as many as there are (XML 1.0, 2.8).
pub(crate) fn after_misc(text: &str) -> Result<&str, Stop>
    ensures ok { IfOk result (λ r. xml.MiscAt text.now r.now) }
    ensures no { IfErr result (λ e. Stops e (Past xml.MiscAt text.now)) }
{
    let mut rest = text;
    while let Some(after) = after_one_misc(after_white(rest))? {
        rest = after;
    }
    Ok(after_white(rest))
}

/// The literal in quotes at the front, and what follows it (XML 1.0, 2.3).
fn literal(text: &str) -> Option<(&str, &str)>
    ensures { MatchOption result ((v after : List ℕ) → bytes.LiteralAt text.now v after → ⊥)
        (λ r. bytes.LiteralAt text.now r.0.now r.1.now) }
{
    if let Some(inside) = after_byte(text, b'"') {
        return up_to(inside, "\"");
    }
    up_to(after_byte(text, b'\'')?, "'")
}

/// The literal that this word is set to, after white space, and what follows it.
pub(crate) fn setting<'t>(text: &'t str, word: &str) -> Option<(&'t str, &'t str)>
    ensures { MatchOption result ((v after : List ℕ) → xml.SettingAt word.now text.now v after → ⊥)
        (λ r. xml.SettingAt word.now text.now r.0.now r.1.now) }
{
    let start = after_some_white(text)?;
    let behind = after_mark(start, word)?;
    let value = after_equals(behind)?;
    literal(value)
}
