// What stands at the front of the text of a path: digits, a literal.
ghost use Rattle.std.specs.Prelude.{◌≡◌, ◌≤◌, ℕ, List, length, MatchOption};
ghost use Rattle.std.specs.List.{prefix_len};
ghost use Rattle.tc_model.specs.XmlTextBytes as xml;
ghost use Rattle.tc_model.specs.PathTextTokens as path;

use tc_scan::{after_byte, up_to};

/// How many digits the text begins with.
pub(crate) fn digits_len(text: &str) -> usize
    ensures count { result ≡ prefix_len path.is_digit text.now }
    ensures within { result ≤ length text.now }
{
    let mut count = 0;
    for byte in text.as_bytes() {
        if !matches!(*byte, b'0'..=b'9') {
            return count;
        }
        count += 1;
    }
    count
}

/// What follows the digits at the front, if there are some.
pub(crate) fn after_digits(text: &str) -> &str
    ensures { result.now ≡ path.after_digits text.now }
{
    let count = digits_len(text);
    &text[count..]
}

/// The literal in quotes at the front, and what follows it (XML 1.0, 2.3).
pub(crate) fn literal(text: &str) -> Option<(&str, &str)>
    ensures { MatchOption result ((value after : List ℕ) → xml.LiteralAt text.now value after → ⊥)
        (λ r. xml.LiteralAt text.now r.0.now r.1.now) }
{
    if let Some(inside) = after_byte(text, b'"') {
        return up_to(inside, "\"");
    }
    match after_byte(text, b'\'') {
        Some(inside) => up_to(inside, "'"),
        None => None,
    }
}
