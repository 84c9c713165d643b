// Characters of a document (XML 1.0, 2.2).
// Plain ASCII is looked at 64 bytes at once. What stands between such blocks goes through the check of UTF-8
// and of each character. The text at the front is then lent by `from_utf8_unchecked`, whose condition is
// proved; nothing else in the repository is `unsafe`.
ghost use Rattle.std.specs.Prelude.{◌≡◌, ◌<◌, ◌≤◌, ◌↔◌, IsTrue, MatchBool, length, take};
ghost use Rattle.std.specs.List.{list_all};
ghost use Rattle.tc_model.specs.Names.{IsChars};
ghost use Rattle.tc_model.specs.XmlTextBytes.{FrontOf};
ghost use Rattle.tc_scan.specs.Chars.{IsPastChars, IsUtf8Front, is_char_of_ascii, is_start_of_chars_only};

use crate::names::first_char;
use simdutf8::compat::from_utf8;
use std::simd::prelude::*;
use std::str::from_utf8_unchecked;
use tc_base::is_char;

/// How many bytes are looked at at once.
const BLOCK: usize = 64;

/// Whether no character that XML lacks begins with this byte: U+FFFE and U+FFFF begin with 0xEF.
fn starts_chars_only(byte: u8) -> bool
    ensures { result ≡ is_start_of_chars_only byte }
{
    byte == b'\t' || byte == b'\n' || byte == b'\r' || byte >= b' ' && byte != 0xEF
}

/// Whether none begins with any of these bytes, each looked at.
fn each_starts_chars_only(bytes: &[u8]) -> bool
    ensures { result ≡ list_all is_start_of_chars_only bytes.now }
{
    let mut plain = true;
    for byte in bytes {
        plain &= starts_chars_only(*byte);
    }
    plain
}

/// Whether a block shows that none begins with any of its bytes.
#[inline(always)]
fn is_start_block(block: u8x64) -> bool
    ensures { IsTrue result → IsTrue (list_all is_start_of_chars_only block) }
{
    let others = block.simd_lt(u8x64::splat(b' ')) | block.simd_eq(u8x64::splat(0xEF));
    let tabs = block.simd_eq(u8x64::splat(b'\t'));
    let line_ends = block.simd_eq(u8x64::splat(b'\n')) | block.simd_eq(u8x64::splat(b'\r'));
    (others ^ (tabs | line_ends)).to_bitmask() == 0
}

/// How many bytes stand in blocks at the front that show it.
fn start_blocks_len(bytes: &[u8]) -> usize
    ensures within { result ≤ length bytes.now }
    ensures only { IsTrue (list_all is_start_of_chars_only (take result bytes.now)) }
{
    let mut at = 0;
    while bytes.len() - at >= BLOCK {
        if !is_start_block(u8x64::from_slice(&bytes[at..])) {
            break;
        }
        at += BLOCK;
    }
    at
}

/// Whether none begins with any of these bytes.
fn start_chars_only(bytes: &[u8]) -> bool
    ensures { result ≡ list_all is_start_of_chars_only bytes.now }
{
    let blocks = start_blocks_len(bytes);
    each_starts_chars_only(&bytes[blocks..])
}

/// Whether a document may hold all characters of a text, each by itself.
fn all_are_chars(text: &str) -> bool
    ensures { IsTrue result ↔ IsChars text.now }
{
    text.chars().all(|c| is_char(c))
}

/// Whether a document may hold all characters of a text (XML 1.0, 2.2). Where the bytes don't show it, each
/// character is looked at.
pub fn are_chars(text: &str) -> bool
    ensures { MatchBool result (IsChars text.now) (IsChars text.now → ⊥) }
{
    start_chars_only(text.as_bytes()) || all_are_chars(text)
}

/// The front of the bytes that is text in UTF-8.
fn utf8_front(bytes: &[u8]) -> &str
    ensures { IsUtf8Front bytes.now result.now }
{
    match from_utf8(bytes) {
        Ok(text) => text,
        Err(error) => match from_utf8(&bytes[..error.valid_up_to()]) {
            Ok(text) => text,
            Err(_) => "",
        },
    }
}

/// What follows the characters at the front, each looked at.
fn past_characters(text: &str) -> &str
    ensures { IsPastChars text.now result.now }
{
    let mut rest = text;
    while let Some((next, after)) = first_char(rest) {
        if !is_char(next) {
            break;
        }
        rest = after;
    }
    rest
}

/// What follows the characters at the front. Where the bytes show that nothing does, none is looked at.
fn after_characters(text: &str) -> &str
    ensures { IsPastChars text.now result.now }
{
    if start_chars_only(text.as_bytes()) {
        return &text[text.len()..];
    }
    past_characters(text)
}

/// The characters at the front of the bytes, as many as there are, read as a text first.
fn first_characters(bytes: &[u8]) -> &str
    ensures { FrontOf bytes.now result.now }
{
    if bytes.is_empty() {
        return "";
    }
    let text = utf8_front(bytes);
    let rest = after_characters(text);
    &text[..text.len() - rest.len()]
}

/// Whether a block is printed ASCII and LF alone. The 96 bytes from 0x20 on are those.
#[inline(always)]
fn is_printed(block: u8x64) -> bool
    ensures { IsTrue result → IsChars block }
{
    let others = (block - u8x64::splat(b' ')).simd_ge(u8x64::splat(96));
    let line_ends = block.simd_eq(u8x64::splat(b'\n'));
    (others ^ line_ends).to_bitmask() == 0
}

/// Whether a block is ASCII, of characters that XML has, tabs and CR too.
#[inline(always)]
fn is_spaced(block: u8x64) -> bool
    ensures { IsTrue result → IsChars block }
{
    let unprinted = block.simd_lt(u8x64::splat(b' ')) | block.simd_ge(u8x64::splat(0x80));
    let tabs = block.simd_eq(u8x64::splat(b'\t'));
    let line_ends = block.simd_eq(u8x64::splat(b'\n')) | block.simd_eq(u8x64::splat(b'\r'));
    (unprinted ^ (tabs | line_ends)).to_bitmask() == 0
}

/// Whether a block is ASCII, of characters that XML has.
#[inline(always)]
fn is_plain(block: u8x64) -> bool
    ensures { IsTrue result → IsChars block }
{
    is_printed(block) || is_spaced(block)
}

/// Where the plain blocks end that stand from this place on.
#[inline(always)]
fn plain_end(bytes: &[u8], from: usize) -> usize
    requires { from ≤ length bytes.now }
    ensures forth { from ≤ result }
    ensures within { result ≤ length bytes.now }
    ensures characters { IsChars (take from bytes.now) → IsChars (take result bytes.now) }
{
    let mut at = from;
    while bytes.len() - at >= BLOCK {
        if !is_plain(u8x64::from_slice(&bytes[at..])) {
            break;
        }
        at += BLOCK;
    }
    at
}

/// Where the next plain block begins behind the one at this place, or the end.
fn next_plain(bytes: &[u8], from: usize) -> usize
    requires { from ≤ length bytes.now }
    ensures forth { from < length bytes.now → from < result }
    ensures within { (from ≤ result) × (result ≤ length bytes.now) }
{
    let mut at = from;
    while bytes.len() - at > BLOCK {
        at += BLOCK;
        if bytes.len() - at >= BLOCK && is_plain(u8x64::from_slice(&bytes[at..])) {
            return at;
        }
    }
    bytes.len()
}

/// Whether this byte is a character of ASCII that XML has.
fn is_ascii_char(byte: u8) -> bool
    ensures { result ≡ is_char_of_ascii byte }
{
    byte <= 0x7F && starts_chars_only(byte)
}

/// Whether all bytes are such characters, each looked at.
fn are_ascii_chars(bytes: &[u8]) -> bool
    ensures { result ≡ list_all is_char_of_ascii bytes.now }
{
    let mut plain = true;
    for byte in bytes {
        plain &= is_ascii_char(*byte);
    }
    plain
}

/// Whether the bytes are such characters alone, and fewer than a block.
fn are_few_ascii_chars(bytes: &[u8]) -> bool
    ensures { IsTrue result → IsChars bytes.now }
{
    if bytes.len() >= BLOCK {
        return false;
    }
    are_ascii_chars(bytes)
}

/// Whether the bytes are characters of XML alone, read as a text.
#[inline(never)]
fn are_read_characters(bytes: &[u8]) -> bool
    ensures { IsTrue result → IsChars bytes.now }
{
    match from_utf8(bytes) {
        Ok(text) => are_chars(text),
        Err(_) => false,
    }
}

/// Whether the bytes are characters of XML alone.
fn are_characters(bytes: &[u8]) -> bool
    ensures { IsTrue result → IsChars bytes.now }
{
    are_few_ascii_chars(bytes) || are_read_characters(bytes)
}

/// How many bytes at the front are characters of XML, by runs of plain blocks and what stands between them: all, or all
/// before a run that isn't.
fn runs_len(bytes: &[u8]) -> usize
    ensures within { result ≤ length bytes.now }
    ensures characters { IsChars (take result bytes.now) }
{
    let mut at = 0;
    while at < bytes.len() {
        let plain = plain_end(bytes, at);
        let end = next_plain(bytes, plain);
        if !are_characters(&bytes[plain..end]) {
            return plain;
        }
        at = end;
    }
    at
}

/// The characters at the front of the bytes, as many as there are (XML 1.0, 2.2).
pub fn characters(bytes: &[u8]) -> &str
    ensures { FrontOf bytes.now result.now }
{
    let runs = runs_len(bytes);
    let count = runs + first_characters(&bytes[runs..]).len();
    unsafe { from_utf8_unchecked(&bytes[..count]) }
}
