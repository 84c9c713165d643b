// The document type declaration, character by character (XML 1.0, 2.8, [28]; 4.2.2, [75]; Namespaces in XML 1.0, 5, [16]).
ghost use Rattle.std.specs.Prelude.{◌≡◌, ◌≤◌, ℕ, length};
ghost use Rattle.tc_stream.specs.Doctypes as scan;
ghost use Rattle.tc_stream.specs.Typing.{TellsTyped, id_literals, id_word, typing_of};
ghost use Rattle.tc_stream.specs.declared.doctypes.Doctype.TheVariants as states;

use tc_base::is_white;
use tc_scan::{is_ncname_char, is_ncname_start};

/// The word of an external identifier (XML 1.0, 4.2.2, [75]).
#[derive(Clone, Copy)]
pub(crate) enum IdWord {
    System,
    Public,
}

/// What is known of a document type declaration, from behind `<!DOCTYPE` on.
#[derive(Clone, Copy)]
pub(crate) enum Doctype {
    /// Nothing follows yet.
    Begun,
    /// White space.
    BeforeName,
    /// A part of the name, behind a colon or not.
    Name(bool),
    /// The name and a colon.
    Colon,
    /// The name, and white space.
    Named,
    /// So many characters of the word of an external identifier, or all of them.
    InWord(IdWord, u8),
    /// White space must follow, and then so many literals.
    Apart(u8),
    /// White space, and so many literals to come.
    BeforeLiteral(u8),
    /// A literal in these quotes, and with it so many to come.
    Literal(u8, char),
    /// All but the end, and white space or none.
    Identified,
}

/// What a character makes of a document type declaration.
#[derive(Clone, Copy)]
pub(crate) enum Typed {
    More(Doctype),
    Whole,
    Malformed,
    /// A subset begins here.
    Subset,
}

impl IdWord {
    /// Its characters.
    fn word(self) -> &'static [u8]
        ensures word { result.now ≡ id_word self }
        ensures few { length result.now ≤ 6 }
    {
        match self {
            IdWord::System => b"SYSTEM",
            IdWord::Public => b"PUBLIC",
        }
    }

    /// How many literals follow it.
    fn literals(self) -> u8
        ensures { result ≡ id_literals self }
    {
        match self {
            IdWord::System => 1,
            IdWord::Public => 2,
        }
    }
}

/// Goes on where white space stands.
fn if_white(next: char, then: Doctype, other: Typed) -> Typed
    ensures { (state : scan.Typed) → TellsTyped other state
        → TellsTyped result (scan.if_white next (typing_of then) state) }
{
    if is_white(next) {
        Typed::More(then)
    } else {
        other
    }
}

/// What a character makes of a declaration where its end may stand, or something else.
fn or_end(next: char, other: Typed) -> Typed
    ensures { (state : scan.Typed) → TellsTyped other state
        → TellsTyped result (scan.or_end next state) }
{
    match next {
        '>' => Typed::Whole,
        '[' => Typed::Subset,
        _ => other,
    }
}

/// Goes on where a name may begin.
fn at_name(local: bool, next: char) -> Typed
    ensures { TellsTyped result (scan.at_name local next) }
{
    if is_ncname_start(next) {
        Typed::More(Doctype::Name(local))
    } else {
        Typed::Malformed
    }
}

/// What a character behind the name makes of a declaration: white space, its end, or something else.
fn behind_name(next: char, other: Typed) -> Typed
    ensures { (state : scan.Typed) → TellsTyped other state
        → TellsTyped result (scan.behind_name next state) }
{
    if_white(next, Doctype::Named, or_end(next, other))
}

/// What the first letter of the word of an external identifier makes of a declaration.
fn at_word(next: char) -> Typed
    ensures { TellsTyped result (scan.at_word next) }
{
    match next {
        'S' => Typed::More(Doctype::InWord(IdWord::System, 1)),
        'P' => Typed::More(Doctype::InWord(IdWord::Public, 1)),
        _ => Typed::Malformed,
    }
}

/// What a character in the name makes of a declaration.
fn in_name(local: bool, next: char) -> Typed
    ensures { TellsTyped result (scan.typed_next (scan.in_name local) next) }
{
    if is_ncname_char(next) {
        return Typed::More(Doctype::Name(local));
    }
    if next == ':' && !local {
        return Typed::More(Doctype::Colon);
    }
    behind_name(next, Typed::Malformed)
}

/// What a character behind so many characters of the word of an external identifier makes of a declaration.
fn in_word(id: IdWord, count: u8, next: char) -> Typed
    ensures { TellsTyped result (scan.typed_next (typing_of (states.InWord id count)) next) }
{
    let word = id.word();
    if count as usize >= word.len() {
        return if_white(
            next,
            Doctype::BeforeLiteral(id.literals()),
            Typed::Malformed,
        );
    }
    if next == word[count as usize] as char {
        return Typed::More(Doctype::InWord(id, count + 1));
    }
    Typed::Malformed
}

/// What a character at or before a literal makes of a declaration.
fn before_literal(literals: u8, next: char) -> Typed
    ensures { TellsTyped result (scan.typed_next (scan.before_literal literals) next) }
{
    if is_white(next) {
        return Typed::More(Doctype::BeforeLiteral(literals));
    }
    if next == '"' || next == '\'' {
        return Typed::More(Doctype::Literal(literals, next));
    }
    Typed::Malformed
}

/// What follows a literal, with which so many were to come.
fn behind_literal(literals: u8) -> Doctype
    ensures { typing_of result ≡ scan.behind_literal literals }
{
    if literals > 1 {
        Doctype::Apart(literals - 1)
    } else {
        Doctype::Identified
    }
}

/// What a character in a literal makes of a declaration.
fn in_literal(literals: u8, quote: char, next: char) -> Typed
    ensures { TellsTyped result (scan.typed_next (scan.in_literal literals quote) next) }
{
    if next == quote {
        Typed::More(behind_literal(literals))
    } else {
        Typed::More(Doctype::Literal(literals, quote))
    }
}

impl Doctype {
    /// What the next character makes of it.
    pub(crate) fn next(self, next: char) -> Typed
        ensures { TellsTyped result (scan.typed_next (typing_of self) next) }
    {
        match self {
            Doctype::Begun => if_white(next, Doctype::BeforeName, Typed::Malformed),
            Doctype::BeforeName => if_white(next, Doctype::BeforeName, at_name(false, next)),
            Doctype::Name(local) => in_name(local, next),
            Doctype::Colon => at_name(true, next),
            Doctype::Named => behind_name(next, at_word(next)),
            Doctype::InWord(id, count) => in_word(id, count, next),
            Doctype::Apart(literals) => {
                if_white(next, Doctype::BeforeLiteral(literals), Typed::Malformed)
            }
            Doctype::BeforeLiteral(literals) => before_literal(literals, next),
            Doctype::Literal(literals, quote) => in_literal(literals, quote, next),
            Doctype::Identified => {
                if_white(next, Doctype::Identified, or_end(next, Typed::Malformed))
            }
        }
    }

    /// Where it stops at a place: behind an external identifier there, else where it has begun.
    pub(crate) fn stops(self, begun: u32, place: u32) -> u32
        ensures { (most : ℕ) → begun ≤ most → place ≤ most → result ≤ most }
    {
        match self {
            Doctype::Identified => place,
            _ => begun,
        }
    }
}
