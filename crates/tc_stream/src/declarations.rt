// The XML declaration, character by character (XML 1.0, 2.8, [23] to [26]; 2.9, [32]; 4.3.3, [80]).
ghost use Rattle.std.specs.Prelude.{◌≡◌, ◌≤◌, ℕ, List, [], None, true, length, option_map, encode_utf8};
ghost use Rattle.tc_stream.specs.Declarations as scan;
ghost use Rattle.tc_stream.specs.Declaring.{IsDeclaring, LiesBefore, TellsDeclared, TellsPlace, left_of, setting_of};
ghost use Rattle.tc_stream.specs.Kept.{kept, known};

use crate::words::Word;
use tc_base::{Why, is_white};

/// What an XML declaration sets.
#[derive(Clone, Copy)]
pub(crate) enum Setting {
    Version,
    Encoding,
    Standalone,
}

/// What is known of an XML declaration, from the white space behind `<?xml` on.
#[derive(Clone, Copy)]
pub(crate) enum Declaration {
    /// So much is set, and behind it white space or none.
    Between(Option<Setting>, bool),
    /// So many characters of the word for a setting, and its place; behind all of them white space may have followed.
    InWord(Setting, u8, u32),
    /// The word and an equals sign, and white space or none.
    Equals(Setting, u32),
    /// A literal in these quotes.
    Literal(Setting, u32, char, Word),
    /// A question mark at this place.
    Ending(u32),
}

/// What a character makes of a declaration.
#[derive(Clone, Copy)]
pub(crate) enum Declared {
    More(Declaration),
    Whole,
    /// It isn't one from this place on.
    Malformed(u32),
    Unsupported(u32, Why),
}

impl Setting {
    /// Its word.
    fn word(self) -> &'static [u8]
        ensures word { result.now ≡ scan.word_of (setting_of self) }
        ensures few { length result.now ≤ 10 }
    {
        match self {
            Setting::Version => b"version",
            Setting::Encoding => b"encoding",
            Setting::Standalone => b"standalone",
        }
    }

    /// The setting whose word begins with this character, where it may follow what is set.
    fn behind(set: Option<Setting>, next: char) -> Option<Setting>
        ensures { option_map setting_of result
            ≡ scan.setting_behind (option_map setting_of set) next }
    {
        match (set, next) {
            (None, 'v') => Some(Setting::Version),
            (Some(Setting::Version), 'e') => Some(Setting::Encoding),
            (Some(Setting::Version), 's') => Some(Setting::Standalone),
            (Some(Setting::Encoding), 's') => Some(Setting::Standalone),
            _ => None,
        }
    }

    /// What a declaration comes to with this value of it, whose word stands at a place.
    fn with(self, value: &Word, place: u32) -> Declared
        ensures told { (written : List ℕ) → known value.now.count value.now.bytes ≡ kept written
            → TellsDeclared result (scan.valued (setting_of self) place written) }
        ensures place { (most : ℕ) → place ≤ most → TellsPlace most result }
    {
        let set = Declared::More(Declaration::Between(Some(self), false));
        match self {
            Setting::Version => {
                if value.is("1.0") {
                    set
                } else {
                    Declared::Unsupported(place, Why::XmlVersion)
                }
            }
            Setting::Encoding => {
                if value.is_in_any_case("UTF-8") || value.is_in_any_case("US-ASCII") {
                    set
                } else {
                    Declared::Unsupported(place, Why::Encoding)
                }
            }
            Setting::Standalone => {
                if value.is("yes") || value.is("no") {
                    set
                } else {
                    Declared::Malformed(place)
                }
            }
        }
    }
}

/// What a character between two settings makes of a declaration.
fn next_between(set: Option<Setting>, white: bool, next: char, place: u32) -> Declared
    ensures told { (bytes : List ℕ)
        → TellsDeclared result
        (scan.declared_next (scan.between (option_map setting_of set) white) place next bytes) }
    ensures place { (most : ℕ) → place ≤ most → TellsPlace most result }
{
    if is_white(next) {
        return Declared::More(Declaration::Between(set, true));
    }
    if next == '?' {
        return match set {
            Some(_) => Declared::More(Declaration::Ending(place)),
            None => Declared::Malformed(place),
        };
    }
    if !white {
        return Declared::Malformed(place);
    }
    match Setting::behind(set, next) {
        Some(setting) => Declared::More(Declaration::InWord(setting, 1, place)),
        None => Declared::Malformed(place),
    }
}

/// What a character behind the word of a setting makes of a declaration.
fn next_behind_word(setting: Setting, count: u8, at: u32, next: char) -> Declared
    requires { length (scan.word_of (setting_of setting)) ≤ count }
    ensures told { (place : ℕ) (bytes : List ℕ)
        → TellsDeclared result
        (scan.declared_next (scan.in_word (setting_of setting) [] at) place next bytes) }
    ensures place { (most : ℕ) → at ≤ most → TellsPlace most result }
{
    if is_white(next) {
        return Declared::More(Declaration::InWord(setting, count, at));
    }
    if next == '=' {
        return Declared::More(Declaration::Equals(setting, at));
    }
    Declared::Malformed(at)
}

/// What a character behind so many characters of the word of a setting makes of a declaration.
fn next_in_word(setting: Setting, count: u8, at: u32, next: char) -> Declared
    ensures told { (place : ℕ) (bytes : List ℕ)
        → TellsDeclared result
        (scan.declared_next
        (scan.in_word (setting_of setting) (left_of setting count) at) place next bytes) }
    ensures place { (most : ℕ) → at ≤ most → TellsPlace most result }
{
    let word = setting.word();
    if count as usize >= word.len() {
        return next_behind_word(setting, count, at, next);
    }
    if next == word[count as usize] as char {
        return Declared::More(Declaration::InWord(setting, count + 1, at));
    }
    Declared::Malformed(at)
}

/// What a character behind the equals sign makes of a declaration.
fn next_behind_equals(setting: Setting, at: u32, next: char) -> Declared
    ensures told { (place : ℕ) (bytes : List ℕ)
        → TellsDeclared result
        (scan.declared_next (scan.equals (setting_of setting) at) place next bytes) }
    ensures place { (most : ℕ) → at ≤ most → TellsPlace most result }
{
    if is_white(next) {
        return Declared::More(Declaration::Equals(setting, at));
    }
    if next == '"' || next == '\'' {
        return Declared::More(Declaration::Literal(setting, at, next, Word::none()));
    }
    Declared::Malformed(at)
}

/// What a character in a literal makes of a declaration.
fn next_in_literal(setting: Setting, at: u32, quote: char, value: &Word, next: char) -> Declared
    ensures told { (place : ℕ) (written : List ℕ) → known value.now.count value.now.bytes
        ≡ kept written
        → TellsDeclared result
        (scan.declared_next (scan.in_literal (setting_of setting) at quote written) place next
        (encode_utf8 next)) }
    ensures place { (most : ℕ) → at ≤ most → TellsPlace most result }
{
    if next == quote {
        setting.with(value, at)
    } else {
        Declared::More(Declaration::Literal(setting, at, quote, value.and(next)))
    }
}

/// What a character behind a question mark at a place makes of a declaration.
fn next_at_end(at: u32, next: char) -> Declared
    ensures told { (place : ℕ) (bytes : List ℕ)
        → TellsDeclared result (scan.declared_next scan.at_end place next bytes) }
    ensures place { (most : ℕ) → at ≤ most → TellsPlace most result }
{
    if next == '>' {
        Declared::Whole
    } else {
        Declared::Malformed(at)
    }
}

impl Declaration {
    /// White space behind `<?xml`.
    pub(crate) fn begun() -> Declaration
        ensures told { IsDeclaring result (scan.between None true) }
        ensures place { (most : ℕ) → LiesBefore most result }
    {
        Declaration::Between(None, true)
    }

    /// What the next character, which stands at this place, makes of it.
    pub(crate) fn next(self, next: char, place: u32) -> Declared
        ensures told { (state : scan.Declaring) → IsDeclaring self state
            → TellsDeclared result (scan.declared_next state place next (encode_utf8 next)) }
        ensures place { (most : ℕ) → LiesBefore most self → place ≤ most → TellsPlace most result }
    {
        match self {
            Declaration::Between(set, white) => next_between(set, white, next, place),
            Declaration::InWord(setting, count, at) => next_in_word(setting, count, at, next),
            Declaration::Equals(setting, at) => next_behind_equals(setting, at, next),
            Declaration::Literal(setting, at, quote, value) => {
                next_in_literal(setting, at, quote, &value, next)
            }
            Declaration::Ending(at) => next_at_end(at, next),
        }
    }

    /// Where it stops if the text ends at this place.
    pub(crate) fn stops(self, place: u32) -> u32
        ensures { (most : ℕ) → LiesBefore most self → place ≤ most → result ≤ most }
    {
        match self {
            Declaration::Between(_, _) => place,
            Declaration::InWord(_, _, at) => at,
            Declaration::Equals(_, at) => at,
            Declaration::Literal(_, at, _, _) => at,
            Declaration::Ending(at) => at,
        }
    }
}
