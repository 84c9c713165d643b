// Priorities (XSLT 1.0, 5.5; XPath 1.0, 3.7).
ghost use Rattle.std.specs.Prelude.{◌≡◌, ◌<◌, ◌≤◌, ◌*◌, ◌-◌, ◌^◌, ℕ, ℤ, IsTrue, IfSome, length, MatchOption};
ghost use Rattle.std.specs.List.{list_all};
ghost use Rattle.std.specs.Str.Parse.{digits_value};
ghost use Rattle.tc_model.specs.PathTextTokens as path;
ghost use Rattle.tc_model.specs.PathTextPriority as texts;

use crate::front::digits_len;
use tc_scan::{after_byte, after_white};

/// The digits at the front, perhaps none, and what follows them.
fn digits(text: &str) -> (&str, &str)
    ensures front { result.0.now ≡ texts.digits_before text.now }
    ensures back { result.1.now ≡ path.after_digits text.now }
    ensures digits { IsTrue (list_all path.is_digit result.0.now) }
{
    let count = digits_len(text);
    (&text[..count], &text[count..])
}

/// The digits behind the point at the front, none without a point, and what follows.
fn fraction_at(text: &str) -> (&str, &str)
    ensures fraction { texts.FractionAt text.now result.0.now result.1.now }
    ensures digits { IsTrue (list_all path.is_digit result.0.now) }
{
    match after_byte(text, b'.') {
        None => ("", text),
        Some(rest) => digits(rest),
    }
}

/// The number that digits write, 0 without any.
fn value_of(digits: &str) -> u64
    requires digits { IsTrue (list_all path.is_digit digits.now) }
    requires short { length digits.now ≤ 6 }
    ensures value { result ≡ digits_value 10 digits.now }
    ensures below { result < 10 ^ length digits.now }
{
    digits.parse::<u64>().unwrap_or(0)
}

/// What the last of so many digits behind the point is worth, in ten-thousandths.
fn unit_of(places: usize) -> u64
    requires { places ≤ 4 }
    ensures { result ≡ 10 ^ (4 - places) }
{
    match places {
        0 => 10000,
        1 => 1000,
        2 => 100,
        3 => 10,
        _ => 1,
    }
}

/// The digits behind the point, in ten-thousandths.
fn fraction_of(digits: &str) -> u64
    requires digits { IsTrue (list_all path.is_digit digits.now) }
    requires short { length digits.now ≤ 4 }
    ensures value { result ≡ digits_value 10 digits.now * 10 ^ (4 - length digits.now) }
    ensures below { result < 10000 }
{
    value_of(digits) * unit_of(digits.len())
}

/// Digits and a fraction up to the end, in ten-thousandths.
fn unsigned(text: &str) -> Option<u64>
    ensures read { MatchOption result ((v : ℕ) → texts.Unsigned text.now v → ⊥)
        (texts.Unsigned text.now) }
    ensures below { IfSome result (λ v. v < 10000000000) }
{
    let (whole, behind) = digits(text);
    let (fraction, end) = fraction_at(behind);
    if !after_white(end).is_empty() {
        return None;
    }
    let places = whole.len() + fraction.len();
    if places == 0 {
        return None;
    }
    if whole.len() > 6 {
        return None;
    }
    if fraction.len() > 4 {
        return None;
    }
    Some(value_of(whole) * 10000 + fraction_of(fraction))
}

/// Reads the priority of a template in ten-thousandths: at most six digits, with a fraction of at most four
/// (XSLT 1.0, 5.5; XPath 1.0, 3.7, Number). None where the text is not of this form.
pub fn read_priority(text: &str) -> Option<i64>
    ensures { MatchOption result ((x : ℤ) → texts.PriorityText text.now x → ⊥)
        (texts.PriorityText text.now) }
{
    let start = after_white(text);
    match after_byte(start, b'-') {
        Some(rest) => match unsigned(after_white(rest)) {
            Some(value) => Some(-(value as i64)),
            None => None,
        },
        None => match unsigned(start) {
            Some(value) => Some(value as i64),
            None => None,
        },
    }
}
