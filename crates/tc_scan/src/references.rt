// References, an equals sign and a quote (XML 1.0, 2.3, 2.8, 4.1).
ghost use Rattle.std.specs.Prelude.{◌≡◌, ◌≤◌, ◌∷◌, ℕ, List, false, length, encode_utf8, IfOk, IfErr, IfSome, IsTrue, MatchOption};
ghost use Rattle.std.specs.List.{prefix_len};
ghost use Rattle.std.specs.Str.Parse.{digits_value, AllDigits};
ghost use Rattle.tc_base.specs.Characters as class;
ghost use Rattle.tc_model.specs.XmlTextBytes as xml_bytes;
ghost use Rattle.tc_model.specs.XmlTextReferences as xml;
ghost use Rattle.tc_scan.specs.References.{Lacks};

use crate::front::{after_byte, after_mark, after_white};
use crate::names::ncname;
use tc_base::is_char;

/// Why no reference to a character is at the front.
#[derive(Clone, Copy, Debug, PartialEq, Eq)]
pub enum NoReference {
    /// None is there.
    Malformed,
    /// One to an entity that isn't predefined.
    OtherEntity,
}

/// The character of a predefined entity (XML 1.0, 4.6).
pub fn predefined(name: &str) -> Option<char>
    ensures { result ≡ xml.predefined name.now }
{
    match name {
        "lt" => Some('<'),
        "gt" => Some('>'),
        "amp" => Some('&'),
        "apos" => Some('\''),
        "quot" => Some('"'),
        _ => None,
    }
}

/// The character with the number that the digits write, where XML has it.
fn numbered(digits: &str, base: u32) -> Option<char>
    requires base { (2 ≤ base) × (base ≤ 16) }
    requires digits { AllDigits base digits.now }
    ensures { MatchOption result (IsTrue (class.is_char (digits_value base digits.now)) → ⊥)
        (λ c. (c ≡ digits_value base digits.now) × IsTrue (class.is_char c)) }
{
    let mut number: u32 = 0;
    for byte in digits.as_bytes() {
        let digit = (*byte as char).to_digit(base)?;
        number = number * base + digit;
        if number > 0x10FFFF {
            return None;
        }
    }
    let c = char::from_u32(number)?;
    if is_char(c) { Some(c) } else { None }
}

/// How many digits of this base the text begins with.
fn digits_len(text: &str, base: u32) -> usize
    requires { (2 ≤ base) × (base ≤ 16) }
    ensures count { result ≡ prefix_len (xml.is_digit base) text.now }
    ensures within { result ≤ length text.now }
{
    let mut count = 0;
    for byte in text.as_bytes() {
        if !(*byte as char).is_digit(base) {
            return count;
        }
        count += 1;
    }
    count
}

/// The character to which digits and a `;` refer, and what follows.
fn by_number(text: &str, base: u32) -> Option<(char, &str)>
    requires { (2 ≤ base) × (base ≤ 16) }
    ensures { MatchOption result
        ((digits after : List ℕ) → xml_bytes.RunAt (xml.is_digit base) text.now digits (59 ∷ after)
        → IsTrue (class.is_char (digits_value base digits)) → ⊥)
        (λ r. (digits : List ℕ)
        × xml_bytes.RunAt (xml.is_digit base) text.now digits (59 ∷ r.1.now)
        × (r.0 ≡ digits_value base digits) × IsTrue (class.is_char r.0)) }
{
    let count = digits_len(text, base);
    if count == 0 {
        return None;
    }
    let (digits, rest) = text.split_at(count);
    let after = after_byte(rest, b';')?;
    Some((numbered(digits, base)?, after))
}

/// The character for which `&amp;`, `&lt;` or `&gt;` at the front stands, and what follows it.
fn common_reference(text: &str) -> Option<(char, &str)>
    ensures { IfSome result (λ r. xml.ReferenceAt false text.now (encode_utf8 r.0) r.1.now) }
{
    if let Some(rest) = after_mark(text, "&amp;") {
        return Some(('&', rest));
    }
    if let Some(rest) = after_mark(text, "&lt;") {
        return Some(('<', rest));
    }
    Some(('>', after_mark(text, "&gt;")?))
}

/// The character for which any reference at the front stands, and what follows it.
#[inline(never)]
fn any_reference(text: &str) -> Result<(char, &str), NoReference>
    ensures ok { IfOk result (λ r. xml.ReferenceAt false text.now (encode_utf8 r.0) r.1.now) }
    ensures no { IfErr result (λ e. Lacks e text.now) }
{
    let Some(body) = after_byte(text, b'&') else {
        return Err(NoReference::Malformed);
    };
    if let Some(digits) = after_mark(body, "#x") {
        return match by_number(digits, 16) {
            Some(found) => Ok(found),
            None => Err(NoReference::Malformed),
        };
    }
    if let Some(digits) = after_mark(body, "#") {
        return match by_number(digits, 10) {
            Some(found) => Ok(found),
            None => Err(NoReference::Malformed),
        };
    }
    let Some((name, rest)) = ncname(body) else {
        return Err(NoReference::Malformed);
    };
    let Some(after) = after_byte(rest, b';') else {
        return Err(NoReference::Malformed);
    };
    match predefined(name) {
        Some(c) => Ok((c, after)),
        None => Err(NoReference::OtherEntity),
    }
}

/// The character for which the reference at the front stands, and what follows it.
///
/// # Errors
///
/// None is there, or one to an entity that isn't predefined.
pub fn reference(text: &str) -> Result<(char, &str), NoReference>
    ensures ok { IfOk result (λ r. xml.ReferenceAt false text.now (encode_utf8 r.0) r.1.now) }
    ensures no { IfErr result (λ e. Lacks e text.now) }
{
    match common_reference(text) {
        Some(found) => Ok(found),
        None => any_reference(text),
    }
}

/// The quote at the front, and what follows it.
pub fn quote(text: &str) -> Option<(u8, &str)>
    ensures { MatchOption result
        ((q : ℕ) (rest : List ℕ) → xml_bytes.IsQuote q → text.now ≡ q ∷ rest → ⊥)
        (λ r. xml_bytes.IsQuote r.0 × (text.now ≡ r.0 ∷ r.1.now)) }
{
    if let Some(rest) = after_byte(text, b'"') {
        return Some((b'"', rest));
    }
    Some((b'\'', after_byte(text, b'\'')?))
}

/// What follows an equals sign and the white space around it (XML 1.0, 2.8).
pub fn after_equals(text: &str) -> Option<&str>
    ensures { MatchOption result ((after : List ℕ) → xml_bytes.EqualsAt text.now after → ⊥)
        (λ r. xml_bytes.EqualsAt text.now r.now) }
{
    Some(after_white(after_byte(after_white(text), b'=')?))
}
