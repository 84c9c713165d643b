// The tokens of a text.
// A token takes 32 bytes, in room that is taken for one at each eighth byte and, where there are more, at
// once for one at each byte, of which only what is used becomes resident. A prefix and its local name are
// one piece of the text, cut at the colon where they are looked up.
ghost use Rattle.std.specs.Prelude.{◌≡◌, ◌+◌, ◌≤◌, ℕ, List, None, Some, length, MatchBool, MatchOption, IfSome};
ghost use Rattle.tc_base.specs.declared.limits.TheConstants.{LONGEST_FILE};
ghost use Rattle.tc_model.specs.CompactSyntaxNames as names;
ghost use Rattle.tc_rnc.specs.Extents.{extent};

use tc_base::Place;

/// What a token says.
#[derive(Clone, Copy)]
pub enum Word<'t> {
    /// An NCName, which may be a keyword.
    Name(&'t str),
    /// A backslash and an NCName, which then is no keyword.
    Escaped(&'t str),
    /// A prefix and a local name, with a colon between.
    Prefixed(&'t str),
    /// A prefix, with `:*` after it.
    AllOf(&'t str),
    /// A literal in single quotes.
    Literal(&'t str),
    /// A literal in three quotes.
    LongLiteral(&'t str),
    /// Any other character.
    Mark(char),
}

/// A word with the place of its first byte.
#[derive(Clone, Copy)]
pub struct Token<'t> {
    pub word: Word<'t>,
    pub place: Place,
    ghost within: { place.0 + extent word ≤ LONGEST_FILE },
}

/// Where the tokens end, and where the escape of a character stands in a literal that isn't closed there.
#[derive(Clone, Copy)]
pub struct End {
    pub place: Place,
    pub escape: Option<Place>,
}

const KEYWORDS: [&str; 19] = [
    "attribute",
    "default",
    "datatypes",
    "div",
    "element",
    "empty",
    "external",
    "grammar",
    "include",
    "inherit",
    "list",
    "mixed",
    "namespace",
    "notAllowed",
    "parent",
    "start",
    "string",
    "text",
    "token",
];

/// Whether a name is a keyword where no backslash stands before it.
fn is_keyword(name: &str) -> bool
    ensures { result ≡ names.is_keyword name.now }
{
    KEYWORDS.contains(&name)
}

impl<'t> Token<'t> {
    ghost use Rattle.tc_model.specs.CompactSyntaxTokens as model;
    ghost use Rattle.tc_model.specs.CompactSyntaxUnread as unread;
    ghost use Rattle.tc_rnc.specs.Escapes.{quoted_text};
    ghost use Rattle.tc_rnc.specs.Views as seen;

    pub fn is_mark(&self, mark: char) -> bool
        ensures { MatchBool result (names.IsMark mark (seen.token self.now))
            (names.IsMark mark (seen.token self.now) → ⊥) }
    {
        match self.word {
            Word::Mark(c) => c == mark,
            _ => false,
        }
    }

    pub fn is_name(&self, name: &str) -> bool
        ensures { MatchBool result (names.IsWord name.now (seen.token self.now))
            (names.IsWord name.now (seen.token self.now) → ⊥) }
    {
        match self.word {
            Word::Name(n) => n == name,
            _ => false,
        }
    }

    /// Whether a literal stands here.
    pub fn is_literal(&self) -> bool
        ensures { result ≡ unread.is_literal (seen.word self.now.word) }
    {
        match self.word {
            Word::Literal(_) | Word::LongLiteral(_) => true,
            _ => false,
        }
    }

    /// How many quotes open a literal, and its text.
    pub fn quoted(&self) -> Option<(u32, &'t str)>
        ensures text { MatchOption result (quoted_text (seen.word self.now.word) ≡ None)
            (λ r. quoted_text (seen.word self.now.word) ≡ Some (r.0, r.1.now)) }
        ensures within { IfSome result
            (λ r. self.now.place.0 + r.0 + length r.1.now ≤ LONGEST_FILE) }
    {
        match self.word {
            Word::Literal(value) => Some((1, value)),
            Word::LongLiteral(value) => Some((3, value)),
            _ => None,
        }
    }

    /// The text of a literal in single quotes.
    pub fn literal(&self) -> Option<&'t str>
        ensures { MatchOption result ((s : List ℕ) → seen.word self.now.word ≡ model.literal s → ⊥)
            (λ s. seen.word self.now.word ≡ model.literal s.now) }
    {
        match self.word {
            Word::Literal(value) => Some(value),
            _ => None,
        }
    }

    /// Whether this token begins so many bytes after that one.
    pub fn follows(&self, token: &Token<'_>, bytes: u32) -> bool
        ensures { MatchBool result (self.now.place.0 ≡ token.now.place.0 + bytes)
            (self.now.place.0 ≡ token.now.place.0 + bytes → ⊥) }
    {
        match self.place.0.checked_sub(token.place.0) {
            Some(between) => between == bytes,
            None => false,
        }
    }

    /// The name that is an identifier.
    pub fn identifier(&self) -> Option<&'t str>
        ensures { MatchOption result (names.identifier (seen.word self.now.word) ≡ None)
            (λ n. names.identifier (seen.word self.now.word) ≡ Some n.now) }
    {
        match self.word {
            Word::Name(n) if !is_keyword(n) => Some(n),
            Word::Escaped(n) => Some(n),
            _ => None,
        }
    }

    /// The name that is an identifier or a keyword.
    pub fn identifier_or_keyword(&self) -> Option<&'t str>
        ensures { MatchOption result (names.identifier_or_keyword (seen.word self.now.word) ≡ None)
            (λ n. names.identifier_or_keyword (seen.word self.now.word) ≡ Some n.now) }
    {
        match self.word {
            Word::Name(n) | Word::Escaped(n) => Some(n),
            _ => None,
        }
    }
}
