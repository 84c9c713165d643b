// The numbers that digits of a reference write (XML 1.0, 4.1, [66]).
ghost use Rattle.std.specs.Prelude.{◌≡◌, ◌<◌, ◌≤◌, ◌⊎◌, ◌+◌, ◌*◌, IsTrue, MatchOption};
ghost use Rattle.std.specs.Char.{digit_value};
ghost use Rattle.tc_base.specs.Characters as class;

use tc_base::is_char;

/// The number that digits of a base write, not above those of all characters.
#[derive(Clone, Copy)]
pub(crate) struct Number {
    value: u32,
    base: u32,
    ghost small: { value ≤ 0x10FFFF },
    ghost lawful: { (2 ≤ base) × (base ≤ 16) },
}

impl Number {
    /// The number that one digit writes.
    pub(crate) fn of(digit: char, base: u32) -> Option<Number>
        requires { (2 ≤ base) × (base ≤ 16) }
        ensures { MatchOption result (base ≤ digit_value digit)
            (λ n. (digit_value digit < base) × (n.value ≡ digit_value digit) × (n.base ≡ base)) }
    {
        let value = digit.to_digit(base)?;
        Some(Number { value, base })
    }

    /// The number with one digit more, unless it is above those of all characters.
    pub(crate) fn and(self, digit: char) -> Option<Number>
        ensures { MatchOption result
            ((self.base ≤ digit_value digit)
            ⊎ (0x10FFFF < self.value * self.base + digit_value digit))
            (λ n. (digit_value digit < self.base)
            × (n.value ≡ self.value * self.base + digit_value digit) × (n.base ≡ self.base)) }
    {
        let digit = digit.to_digit(self.base)?;
        let value = self.value * self.base + digit;
        if value > 0x10FFFF {
            return None;
        }
        Some(Number {
            value,
            base: self.base,
        })
    }

    /// The character with this number, where XML has it.
    pub(crate) fn character(self) -> Option<char>
        ensures { MatchOption result (IsTrue (class.is_char self.value) → ⊥)
            (λ c. (c ≡ self.value) × IsTrue (class.is_char c)) }
    {
        let c = char::from_u32(self.value)?;
        if is_char(c) { Some(c) } else { None }
    }
}
