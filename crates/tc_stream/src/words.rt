// Words of which the first characters are kept (XML 1.0, 2.6, 2.8 and 4.6).
ghost use Rattle.std.specs.Prelude.{◌≡◌, ◌≤◌, ◌++◌, ℕ, List, [], Some, None, bytes_eq, encode_utf8, MatchOption};
ghost use Rattle.std.specs.Str.{str_eq_ignore_ascii_case};
ghost use Rattle.tc_stream.specs.Kept.{kept, known};

/// A word: its characters, where it has at most eight and each is of ASCII; else only that it hasn't.
#[derive(Clone, Copy)]
pub(crate) struct Word {
    bytes: [u8; 8],
    count: u8,
    ghost few: { count ≤ 9 },
}

impl Word {
    /// No character.
    pub(crate) fn none() -> Word
        ensures { known result.count result.bytes ≡ kept [] }
    {
        Word {
            bytes: [0; 8],
            count: 0,
        }
    }

    /// The word with one character more.
    pub(crate) fn and(self, next: char) -> Word
        ensures { (word : List ℕ) → known self.count self.bytes ≡ kept word
            → known result.count result.bytes ≡ kept (word ++ encode_utf8 next) }
    {
        let mut bytes = self.bytes;
        if self.count >= 8 {
            return Word { bytes, count: 9 };
        }
        if !next.is_ascii() {
            return Word { bytes, count: 9 };
        }
        bytes[self.count as usize] = next as u8;
        Word {
            bytes,
            count: self.count + 1,
        }
    }

    /// Its characters, where they are kept.
    pub(crate) fn bytes(&self) -> Option<&[u8]>
        ensures { MatchOption result (known self.now.count self.now.bytes ≡ None)
            (λ word. known self.now.count self.now.bytes ≡ Some word.now) }
    {
        self.bytes.get(..self.count as usize)
    }
    /// Whether it is this word, which would be kept.
    pub(crate) fn is(&self, word: &str) -> bool
        requires { kept word.now ≡ Some word.now }
        ensures { (written : List ℕ) → known self.now.count self.now.bytes ≡ kept written → result
            ≡ bytes_eq written word.now }
    {
        match self.bytes() {
            Some(bytes) => bytes == word.as_bytes(),
            None => false,
        }
    }

    /// Whether it is this word, which would be kept, whatever the case of their letters.
    pub(crate) fn is_in_any_case(&self, word: &str) -> bool
        requires { kept word.now ≡ Some word.now }
        ensures { (written : List ℕ) → known self.now.count self.now.bytes ≡ kept written → result
            ≡ str_eq_ignore_ascii_case written word.now }
    {
        match self.bytes() {
            Some(bytes) => bytes.eq_ignore_ascii_case(word.as_bytes()),
            None => false,
        }
    }
}
