//! A cursor that takes the characters of a text one by one.

ghost use Rattle.std.specs.Prelude.{◌≡◌, ◌≢◌, ◌<◌, ◌≤◌, ◌++◌, [], List, ℕ, length, IfOk, IfErr, IsErr, IfSome, IfNone, OnSome, MatchOption, Some, None, Ok, Err, encode_utf8};
ghost use Rattle.std.specs.Char.{IsScalar};
ghost use Rattle.tc_base.specs.Reading.{Reading, rest_of, longest_text, BeginsWithCharacter, IsAtEnd, IsBroken, Takes};

use crate::Place;
use std::marker::Model;
use std::str;

/// A text that isn't longer than a file may be, and a place in it.
#[derive(Drop)]
pub struct Cursor<'a> {
    text: &'a [u8],
    at: u32,
}

impl<'a> Model for Cursor<'a> {
    ghost use Rattle.std.specs.Prelude.{◌≤◌, length};
    ghost use Rattle.tc_base.specs.Reading.{Reading, longest_text};

    ghost Value = { Reading };

    ghost view = { λ c. record { text = c.text.now; place = c.at } };

    ghost invariant = { λ c. (c.at ≤ length c.text.now) × (length c.text.now ≤ longest_text) };
}

impl<'a> Cursor<'a> {
    /// A cursor at the beginning of a text.
    pub fn new(text: &'a [u8]) -> Cursor<'a>
        requires { length text.now ≤ longest_text }
        ensures { result ≡ record { text = text.now; place = 0 } }
    {
        Cursor { text, at: 0 }
    }

    /// How many bytes of the text stand before the cursor.
    pub fn place(&self) -> Place
        ensures place { result.0 ≡ self.now.place }
        ensures within { self.now.place ≤ length self.now.text }
        ensures longest { length self.now.text ≤ longest_text }
    {
        Place(self.at)
    }

    /// The text from the place on.
    pub fn rest(&self) -> &'a [u8]
        ensures { result.now ≡ rest_of self.now }
    {
        &self.text[self.at as usize..]
    }

    /// Takes the character that stands at the place. At the end of the text there is none.
    ///
    /// # Errors
    ///
    /// Bytes that don't begin with a character in UTF-8 (RFC 3629, 4) give their place, and the cursor stays there.
    pub fn next_char(&mut self) -> Result<Option<char>, Place>
        ensures text { self.new.text ≡ self.old.text }
        ensures taken { IfOk result (λ o. IfSome o (λ c. Takes c self.old self.new)) }
        ensures end { IfOk result (λ o. IfNone o (IsAtEnd self.old × (self.new ≡ self.old))) }
        ensures broken { IfErr result
            (λ at. IsBroken self.old × (self.new ≡ self.old) × (at.0 ≡ self.old.place)) }
        ensures only_end { IsAtEnd self.old → result ≡ Ok None }
        ensures only_broken { IsBroken self.old → IsErr result }
        ensures advances { IfOk result (λ o. OnSome o (self.old.place < self.new.place)) }
        ensures within { self.new.place ≤ length self.new.text }
    {
        let rest = self.rest();
        if rest.is_empty() {
            return Ok(None);
        }
        let Some(c) = first_char(rest) else {
            return Err(self.place());
        };
        self.at += c.len_utf8() as u32;
        Ok(Some(c))
    }
}

/// The character that stands at the front of the bytes.
fn first_char(bytes: &[u8]) -> Option<char>
    ensures { MatchOption result (¬ BeginsWithCharacter bytes.now)
        (λ c. IsScalar c × ((after : List ℕ) × (bytes.now ≡ encode_utf8 c ++ after))) }
{
    let first = *bytes.first()?;
    if first < 0x80 {
        return Some(first as char);
    }
    front_of(bytes).chars().next()
}

/// A front of the bytes that is text, and has their first character where they begin with one.
fn front_of(bytes: &[u8]) -> &str
    ensures begins { (after : List ℕ) × (bytes.now ≡ result.now ++ after) }
    ensures none { result.now ≡ [] → ¬ BeginsWithCharacter bytes.now }
{
    let front = &bytes[..bytes.len().min(4)];
    match str::from_utf8(front) {
        Ok(text) => text,
        Err(e) => match str::from_utf8(&front[..e.valid_up_to()]) {
            Ok(text) => text,
            Err(_) => "",
        },
    }
}
