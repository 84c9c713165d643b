// References in character data, character by character (XML 1.0, 4.1 and 4.6).
ghost use Rattle.std.specs.Prelude.{◌≡◌, ◌≤◌, ℕ, List, option_map};
ghost use Rattle.tc_model.specs.XmlTextReferences as xml;
ghost use Rattle.tc_stream.specs.Kept.{kept, known};
ghost use Rattle.tc_stream.specs.References as scan;
ghost use Rattle.tc_stream.specs.Referring.{IsReferring, TellsReferred};

use crate::numbers::Number;
use crate::words::Word;
use std::str::from_utf8;
use tc_scan::{is_ncname_char, is_ncname_start, predefined};

/// What is known of a reference from its `&` on.
#[derive(Clone, Copy)]
pub(crate) enum Reference {
    /// Nothing follows yet.
    Begun,
    /// A number sign.
    NumberSign,
    /// A number sign and an `x`.
    XSign,
    /// These and digits.
    Digits(Number),
    /// A name.
    Entity(Word),
}

/// What a character makes of a reference.
#[derive(Clone, Copy)]
pub(crate) enum Referred {
    /// It goes on.
    More(Reference),
    /// It ends, and stands for this character.
    Character(char),
    /// It ends, and its entity isn't predefined.
    OtherEntity,
    /// There is no such reference.
    Malformed,
}

/// What the character behind the `&` makes of a reference.
fn behind_ampersand(next: char) -> Referred
    ensures { TellsReferred result (scan.referred_next scan.begun next) }
{
    if next == '#' {
        Referred::More(Reference::NumberSign)
    } else if is_ncname_start(next) {
        Referred::More(Reference::Entity(Word::none().and(next)))
    } else {
        Referred::Malformed
    }
}

/// What the first digit of this base makes of a reference, if it is one.
fn first_digit(next: char, base: u32) -> Referred
    requires { (2 ≤ base) × (base ≤ 16) }
    ensures { TellsReferred result (scan.first_digit base next) }
{
    match Number::of(next, base) {
        Some(number) => Referred::More(Reference::Digits(number)),
        None => Referred::Malformed,
    }
}

/// What the character behind the number sign makes of a reference.
fn behind_number_sign(next: char) -> Referred
    ensures { TellsReferred result (scan.referred_next scan.number_sign next) }
{
    if next == 'x' {
        Referred::More(Reference::XSign)
    } else {
        first_digit(next, 10)
    }
}

/// What the character behind some digits makes of a reference.
fn behind_digits(number: Number, next: char) -> Referred
    ensures { TellsReferred result
        (scan.referred_next (scan.digits number.base number.value) next) }
{
    if next == ';' {
        return match number.character() {
            Some(c) => Referred::Character(c),
            None => Referred::Malformed,
        };
    }
    match number.and(next) {
        Some(number) => Referred::More(Reference::Digits(number)),
        None => Referred::Malformed,
    }
}

/// The character for which the entity with this name stands.
fn character_of(name: Word) -> Option<char>
    ensures { (written : List ℕ) → known name.count name.bytes ≡ kept written → result
        ≡ xml.predefined written }
{
    let bytes = name.bytes()?;
    match from_utf8(bytes) {
        Ok(text) => predefined(text),
        Err(_) => None,
    }
}

/// What the character behind some characters of a name makes of a reference.
fn behind_name(name: Word, next: char) -> Referred
    ensures { (written : List ℕ) → known name.count name.bytes ≡ kept written
        → TellsReferred result (scan.referred_next (scan.in_name written) next) }
{
    if is_ncname_char(next) {
        return Referred::More(Reference::Entity(name.and(next)));
    }
    if next != ';' {
        return Referred::Malformed;
    }
    match character_of(name) {
        Some(c) => Referred::Character(c),
        None => Referred::OtherEntity,
    }
}

impl Reference {
    /// What the next character makes of it.
    pub(crate) fn next(self, next: char) -> Referred
        ensures { (state : scan.Referring) → IsReferring self state
            → TellsReferred result (scan.referred_next state next) }
    {
        match self {
            Reference::Begun => behind_ampersand(next),
            Reference::NumberSign => behind_number_sign(next),
            Reference::XSign => first_digit(next, 16),
            Reference::Digits(number) => behind_digits(number, next),
            Reference::Entity(name) => behind_name(name, next),
        }
    }
}
