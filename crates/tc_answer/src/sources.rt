// What words name: a file, and of a schema the document's element.
ghost use Rattle.std.specs.Prelude.{◌≡◌, ◌↔◌, List, ℕ, IsTrue, Some, None, MatchOption};
ghost use Rattle.std.specs.List.{before_first, after_first};
ghost use Rattle.tc_answer.specs.AnswersSeen as see;
ghost use Rattle.tc_answer.specs.SchemaWords.{IsSchemaWord, behind_dtd, is_colon, root_of};
ghost use Rattle.tc_answer.specs.Words as w;
ghost use Rattle.tc_model.specs.Names.{IsNcName};

use tc_scan::{after_mark, ncname};

/// A file that a command reads, and the word that names it.
#[derive(Clone, Copy)]
pub struct Source<'w> {
    pub word: &'w str,
    pub file: &'w str,
}

impl<'w> Source<'w> {
    /// By a word in a schema's place.
    pub fn schema(word: &'w str) -> Source<'w>
        ensures { see.source result ≡ w.schema word.now }
    {
        match parts(word) {
            Some((_, file)) => Source { word, file },
            None => Source { word, file: word },
        }
    }

    /// By a word elsewhere, which is the name of its file.
    pub fn plain(word: &'w str) -> Source<'w>
        ensures { see.source result ≡ w.plain word.now }
    {
        Source { word, file: word }
    }
}

/// The name of the document's element, where a word in a schema's place names declarations of elements.
pub fn schema_root(word: &str) -> Option<&str>
    ensures { MatchOption result (root_of word.now ≡ None)
        (λ root. root_of word.now ≡ Some root.now) }
{
    let (root, _) = parts(word)?;
    Some(root)
}

/// Whether a word may stand in a schema's place: one that begins with `dtd:` has the name of an element and of a file.
pub fn is_schema_word(word: &str) -> bool
    ensures { IsTrue result ↔ IsSchemaWord word.now }
{
    match parts(word) {
        Some((root, file)) => is_ncname(root) && !file.is_empty(),
        None => true,
    }
}

/// What stands before the first colon behind `dtd:` and what stands behind it, where a word begins with `dtd:`.
fn parts(word: &str) -> Option<(&str, &str)>
    ensures { MatchOption result (behind_dtd word.now ≡ None)
        (λ p. (rest : List ℕ) × (behind_dtd word.now ≡ Some rest)
        × (p.0.now ≡ before_first is_colon rest) × (p.1.now ≡ after_first is_colon rest)) }
{
    let rest = after_mark(word, "dtd:")?;
    match rest.split_once(':') {
        Some(parts) => Some(parts),
        None => Some((rest, "")),
    }
}

/// Whether the text is a name without a colon (Namespaces in XML 1.0, 3, [4]).
fn is_ncname(text: &str) -> bool
    ensures { IsTrue result ↔ IsNcName text.now }
{
    match ncname(text) {
        Some((_, rest)) => rest.is_empty(),
        None => false,
    }
}
