// The words of a command line.
ghost use Rattle.std.specs.Prelude.{◌≡◌, ℕ, List, [], ◌∷◌, ◌++◌, map, string_bytes, OnOk, OnErr};

use std::alloc::Global;
use std::marker::Model;
use tc_base::NoMemory;

/// A list of texts: the words behind the name of the program.
#[derive(Drop)]
pub struct WordList {
    words: Vec<String>,
    alloc: Global,
}

impl Model for WordList {
    ghost Value = { List (List ℕ) };

    ghost view = { λ list. map string_bytes list.words.items };
}

impl WordList {
    /// The empty list.
    pub fn new(alloc: Global) -> WordList
        ensures { result ≡ [] }
    {
        WordList {
            words: Vec::new(alloc),
            alloc,
        }
    }

    /// Appends a word.
    pub fn push(&mut self, word: &str) -> Result<(), NoMemory>
        ensures ok { OnOk result (self.new ≡ self.old ++ word.now ∷ []) }
        ensures err { OnErr result (self.new ≡ self.old) }
    {
        let word = String::from_str(self.alloc, word)?;
        self.words.push(word)?;
        Ok(())
    }

    /// The words in order.
    pub fn as_slice(&self) -> &[String]
        ensures { map string_bytes result.now ≡ self.now }
    {
        self.words.as_slice()
    }
}
