// The names of the elements that are open, one after another, in a room that is taken once.
ghost use Rattle.std.specs.Prelude.{◌≡◌, ◌+◌, ◌<◌, ◌≤◌, ◌++◌, ◌∷◌, [], length, take, vec_len, vec_capacity, IfOk, MatchBool};
ghost use Rattle.tc_tags.specs.Spans.{at_span};

use std::alloc::{AllocError, Global};

/// Where bytes stand: their first place, and how many they are.
#[derive(Clone, Copy)]
pub struct Span {
    pub start: usize,
    pub length: usize,
}

impl Span {
    /// The bytes that stand there.
    pub fn of(self, bytes: &[u8]) -> &[u8]
        ensures { result.now ≡ at_span self bytes.now }
    {
        let behind = &bytes[self.start.min(bytes.len())..];
        &behind[..self.length.min(behind.len())]
    }
}

/// A name as it is written, by where its parts stand in the tag.
#[derive(Clone, Copy)]
pub struct WrittenName {
    pub prefix: Span,
    pub local: Span,
}

/// Bytes, at most so many as there is room for.
#[derive(Drop)]
pub struct Room {
    bytes: Vec<u8>,
    most: usize,
    ghost few: { vec_len bytes ≤ most },
    ghost is_taken: { most ≤ vec_capacity bytes },
}

impl Room {
    /// A room for so many bytes.
    pub fn new(alloc: Global, most: usize) -> Result<Room, AllocError>
        ensures bytes { IfOk result (λ r. r.bytes.items ≡ []) }
        ensures most { IfOk result (λ r. r.most ≡ most) }
    {
        let bytes = Vec::with_capacity(alloc, most)?;
        Ok(Room { bytes, most })
    }

    /// The bytes in it.
    pub fn bytes(&self) -> &[u8]
        ensures { result.now ≡ self.now.bytes.items }
    {
        &self.bytes
    }

    /// How many there are.
    pub fn len(&self) -> usize
        ensures { result ≡ length self.now.bytes.items }
    {
        self.bytes.len()
    }

    /// How many more there is room for.
    pub fn left(&self) -> usize
        ensures { length self.now.bytes.items + result ≡ self.now.most }
    {
        self.most - self.bytes.len()
    }

    /// The same as `push_all`, whatever the bytes are.
    #[inline(never)]
    fn push_some(&mut self, bytes: &[u8]) -> bool
        ensures most { self.new.most ≡ self.old.most }
        ensures bytes { MatchBool result
            (self.new.bytes.items ≡ self.old.bytes.items ++ bytes.now)
            ((self.new.bytes.items ≡ self.old.bytes.items)
            × (self.old.most < length self.old.bytes.items + length bytes.now)) }
    {
        if bytes.len() > self.left() {
            return false;
        }
        match self.bytes.extend_from_slice(bytes) {
            Ok(()) => true,
            Err(_) => false,
        }
    }

    /// Adds bytes, if there is room for all; whether there was.
    #[inline(always)]
    pub fn push_all(&mut self, bytes: &[u8]) -> bool
        ensures most { self.new.most ≡ self.old.most }
        ensures bytes { MatchBool result
            (self.new.bytes.items ≡ self.old.bytes.items ++ bytes.now)
            ((self.new.bytes.items ≡ self.old.bytes.items)
            × (self.old.most < length self.old.bytes.items + length bytes.now)) }
    {
        if bytes.len() == 1 {
            return self.push(bytes[0]);
        }
        self.push_some(bytes)
    }

    /// Adds characters, if there is room for all; whether there was.
    pub fn push_str(&mut self, text: &str) -> bool
        ensures most { self.new.most ≡ self.old.most }
        ensures bytes { MatchBool result
            (self.new.bytes.items ≡ self.old.bytes.items ++ text.now)
            ((self.new.bytes.items ≡ self.old.bytes.items)
            × (self.old.most < length self.old.bytes.items + length text.now)) }
    {
        self.push_all(text.as_bytes())
    }

    /// Adds a byte, if there is room; whether there was.
    #[inline(always)]
    pub fn push(&mut self, byte: u8) -> bool
        ensures most { self.new.most ≡ self.old.most }
        ensures bytes { MatchBool result
            (self.new.bytes.items ≡ self.old.bytes.items ++ byte ∷ [])
            ((self.new.bytes.items ≡ self.old.bytes.items)
            × (self.old.most < length self.old.bytes.items + 1)) }
    {
        if self.left() == 0 {
            return false;
        }
        match self.bytes.push(byte) {
            Ok(()) => true,
            Err(_) => false,
        }
    }

    /// Keeps the first so many.
    pub fn keep(&mut self, count: usize)
        ensures most { self.new.most ≡ self.old.most }
        ensures bytes { self.new.bytes.items ≡ take count self.old.bytes.items }
    {
        self.bytes.truncate(count);
    }
}
