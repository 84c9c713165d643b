// The first bytes of a character that is cut off (RFC 3629, 4).
ghost use Rattle.std.specs.Prelude.{◌≡◌, ◌<◌, ◌≤◌, ◌+◌, ◌++◌, ◌∷◌, [], length, take};

/// The first bytes of a character, of which the last ones haven't come yet: none, or up to three.
#[derive(Clone, Copy)]
pub(crate) struct Cut {
    bytes: [u8; 4],
    count: u8,
    ghost few: { count ≤ 4 },
    ghost sized: { length bytes ≡ 4 },
}

impl Cut {
    /// No byte.
    pub(crate) fn none() -> Cut
        ensures bytes { take result.count result.bytes ≡ [] }
        ensures count { result.count ≡ 0 }
    {
        Cut {
            bytes: [0; 4],
            count: 0,
        }
    }

    /// Its bytes.
    pub(crate) fn bytes(&self) -> &[u8]
        ensures { result.now ≡ take self.now.count self.now.bytes }
    {
        &self.bytes[..self.count as usize]
    }

    /// The bytes with one more, where there are fewer than four.
    pub(crate) fn with(self, byte: u8) -> Cut
        requires { self.count < 4 }
        ensures bytes { take result.count result.bytes ≡ take self.count self.bytes ++ byte ∷ [] }
        ensures count { result.count ≡ self.count + 1 }
    {
        let mut bytes = self.bytes;
        bytes[self.count as usize] = byte;
        Cut {
            bytes,
            count: self.count + 1,
        }
    }
}
