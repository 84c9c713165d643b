// The front of a text: a line, and what separates tokens.
ghost use Rattle.std.specs.Prelude.{◌≡◌, ◌≤◌, length};
ghost use Rattle.std.specs.List.{prefix_len};
ghost use Rattle.tc_model.specs.CompactSyntaxRefused as refused;
ghost use Rattle.tc_model.specs.CompactSyntaxTokens as model;
ghost use Rattle.tc_rnc.specs.Fronts.{Skips, is_in_line};

use memchr::memchr2;
use tc_scan::{after_byte, after_white};

/// How many bytes of the line at the front there are.
fn line_len(text: &str) -> usize
    ensures count { result ≡ prefix_len is_in_line text.now }
    ensures within { result ≤ length text.now }
{
    match memchr2(b'\n', b'\r', text.as_bytes()) {
        Some(count) => count,
        None => text.len(),
    }
}

/// The line at the front.
pub fn line(text: &str) -> &str
    ensures { result.now ≡ refused.line text.now }
{
    let count = line_len(text);
    &text[..count]
}

/// What follows the line at the front.
fn after_line(text: &str) -> &str
    ensures { result.now ≡ model.after_line text.now }
{
    let count = line_len(text);
    &text[count..]
}

/// What follows white space and comments.
pub fn after_space(text: &str) -> &str
    ensures skips { Skips text.now result.now }
    ensures stops { refused.BeginsNoSpace result.now }
{
    let mut rest = after_white(text);
    while let Some(comment) = after_byte(rest, b'#') {
        rest = after_white(after_line(comment));
    }
    rest
}
