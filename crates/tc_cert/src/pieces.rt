// Pieces of a line at the front of bytes: numbers, lists, fields.
ghost use Rattle.std.specs.Prelude.{◌≡◌, ◌≤◌, ◌<◌, ◌⊎◌, ◌↔◌, ◌∷◌, ◌++◌, ℕ, Bool, List, length, All, IfOk, IfErr, IsTrue, MatchOption};
ghost use Rattle.std.specs.List.{prefix_len};
ghost use Rattle.std.specs.Char.{digit_value, is_ascii_digit};
ghost use Rattle.std.specs.Str.Parse.{AllDigits, digits_value};
ghost use Rattle.std.specs.List.Sorted.{IsStrictlySortedBy};
ghost use Rattle.std.specs.Ordering.{nat_cmp};
ghost use Rattle.std.specs.declared.cmp.Ordering.TheVariants.{Less};
ghost use Rattle.tc_base.specs.declared.limits.TheConstants.{LONGEST_FILE};
ghost use Rattle.tc_model.specs.CertificateLines as lines;
ghost use Rattle.tc_model.specs.CertificateData.{pair_cmp};
ghost use Rattle.tc_cert.specs.Pieces.{IsNumberAt, IsTwoAt, AreNumbersAt, AreChangesAt, ArePairsAt, FlagsAt, IsFrontAt, IsMissing, HasNoLeadingZero};

use crate::faults::PieceFault;
use std::alloc::Global;
use std::cmp::Ordering;
use tc_model::Pairs;

/// What follows this byte, where the bytes begin with it.
pub(crate) fn after_byte(bytes: &[u8], byte: u8) -> Option<&[u8]>
    ensures { MatchOption result ((r : List ℕ) → bytes.now ≡ byte ∷ r → ⊥)
        (λ rest. bytes.now ≡ byte ∷ rest.now) }
{
    let Some((first, rest)) = bytes.split_first() else {
        return None;
    };
    if *first == byte { Some(rest) } else { None }
}

/// How many digits the bytes begin with.
fn digit_len(bytes: &[u8]) -> usize
    ensures count { result ≡ prefix_len is_ascii_digit bytes.now }
    ensures within { result ≤ length bytes.now }
{
    let mut count = 0;
    for byte in bytes {
        if !byte.is_ascii_digit() {
            return count;
        }
        count += 1;
    }
    count
}

/// The number that digits write, where it has 32 bits.
fn value_of(digits: &[u8]) -> Option<u32>
    requires { AllDigits 10 digits.now }
    ensures { MatchOption result (4294967296 ≤ digits_value 10 digits.now)
        (λ n. n ≡ digits_value 10 digits.now) }
{
    let mut value: u64 = 0;
    for digit in digits {
        value = value * 10 + u64::from(*digit - b'0');
        if 4294967295 < value {
            return None;
        }
    }
    Some(value as u32)
}

/// Whether there are digits, and no leading zero.
fn is_numeral(digits: &[u8]) -> bool
    ensures { IsTrue result ↔ HasNoLeadingZero digits.now }
{
    match digits.first() {
        Some(first) => *first != b'0' || digits.len() == 1,
        None => false,
    }
}

/// The number at the front, in decimal digits without a leading zero, and what follows it.
pub(crate) fn number(bytes: &[u8]) -> Option<(u32, &[u8])>
    ensures { MatchOption result ((n : ℕ) (rest : List ℕ) → IsNumberAt bytes.now n rest → ⊥)
        (λ r. IsNumberAt bytes.now r.0 r.1.now) }
{
    let (digits, rest) = bytes.split_at(digit_len(bytes));
    if !is_numeral(digits) {
        return None;
    }
    match value_of(digits) {
        Some(value) => Some((value, rest)),
        None => None,
    }
}

/// Two numbers at the front with a byte between them, and what follows them.
fn two(bytes: &[u8], between: u8) -> Option<((u32, u32), &[u8])>
    requires { digit_value between < 10 → ⊥ }
    ensures { MatchOption result
        ((p : ℕ × ℕ) (rest : List ℕ) → IsTwoAt between bytes.now p rest → ⊥)
        (λ r. IsTwoAt between bytes.now r.0 r.1.now) }
{
    let Some((first, middle)) = number(bytes) else {
        return None;
    };
    let Some(behind) = after_byte(middle, between) else {
        return None;
    };
    match number(behind) {
        Some((second, rest)) => Some(((first, second), rest)),
        None => None,
    }
}

/// What follows a dash and this byte, where the bytes begin with them.
fn after_dash(bytes: &[u8], end: u8) -> Option<&[u8]>
    ensures { MatchOption result ((r : List ℕ) → bytes.now ≡ 45 ∷ end ∷ r → ⊥)
        (λ rest. bytes.now ≡ 45 ∷ end ∷ rest.now) }
{
    let Some(behind) = after_byte(bytes, b'-') else {
        return None;
    };
    after_byte(behind, end)
}

/// The list of numbers at the front up to this byte, which ends a field or a line, and what follows it.
pub(crate) fn numbers(alloc: Global, bytes: &[u8], end: u8) -> Result<(Vec<u32>, &[u8]), PieceFault>
    requires { (end ≡ 32) ⊎ (end ≡ 10) }
    ensures ok { IfOk result (λ r. AreNumbersAt end bytes.now r.0.items r.1.now) }
    ensures no { IfErr result
        (IsMissing ((ns : List ℕ) × (rest : List ℕ) × AreNumbersAt end bytes.now ns rest)) }
{
    let mut found = Vec::new(alloc);
    if let Some(rest) = after_dash(bytes, end) {
        return Ok((found, rest));
    }
    let mut rest = bytes;
    loop {
        let Some((next, after)) = number(rest) else {
            return Err(PieceFault::Form);
        };
        found.push(next)?;
        if let Some(behind) = after_byte(after, end) {
            return Ok((found, behind));
        }
        let Some(behind) = after_byte(after, b',') else {
            return Err(PieceFault::Form);
        };
        rest = behind;
    }
}

/// The list of changes at the front up to this byte, which ends a field or a line, and what follows it.
pub(crate) fn changes(
    alloc: Global,
    bytes: &[u8],
    end: u8,
) -> Result<(Vec<(u32, u32)>, &[u8]), PieceFault>
    requires { (end ≡ 32) ⊎ (end ≡ 10) }
    ensures ok { IfOk result (λ r. AreChangesAt end bytes.now r.0.items r.1.now) }
    ensures no { IfErr result
        (IsMissing ((cs : List (ℕ × ℕ)) × (rest : List ℕ) × AreChangesAt end bytes.now cs rest)) }
{
    let mut found = Vec::new(alloc);
    if let Some(rest) = after_dash(bytes, end) {
        return Ok((found, rest));
    }
    let mut rest = bytes;
    loop {
        let Some((next, after)) = two(rest, b':') else {
            return Err(PieceFault::Form);
        };
        found.push(next)?;
        if let Some(behind) = after_byte(after, end) {
            return Ok((found, behind));
        }
        let Some(behind) = after_byte(after, b',') else {
            return Err(PieceFault::Form);
        };
        rest = behind;
    }
}

/// A pair at the front behind a space, and what follows it.
fn pair(bytes: &[u8]) -> Option<((u32, u32), &[u8])>
    ensures { MatchOption result
        ((p : ℕ × ℕ) (before rest : List ℕ) → bytes.now ≡ 32 ∷ before → IsTwoAt 62 before p rest
        → ⊥)
        (λ r. (before : List ℕ) × (bytes.now ≡ 32 ∷ before) × IsTwoAt 62 before r.0 r.1.now) }
{
    let Some(behind) = after_byte(bytes, b' ') else {
        return None;
    };
    two(behind, b'>')
}

/// The pairs at the front up to the end of the line, and the next line.
pub(crate) fn pairs(alloc: Global, bytes: &[u8]) -> Result<(Pairs, &[u8]), PieceFault>
    requires { length bytes.now ≤ LONGEST_FILE }
    ensures ok { IfOk result (λ r. ArePairsAt bytes.now r.0 r.1.now) }
    ensures no { IfErr result
        (IsMissing ((ps : List (ℕ × ℕ)) × (rest : List ℕ) × ArePairsAt bytes.now ps rest)) }
{
    let mut found = Pairs::new(alloc);
    let mut rest = bytes;
    loop {
        if let Some(after) = after_byte(rest, b'\n') {
            return Ok((found, after));
        }
        let Some((next, behind)) = pair(rest) else {
            return Err(PieceFault::Form);
        };
        found.push(next)?;
        rest = behind;
    }
}

/// A truth value at the front before a space, and what follows it.
fn flag(bytes: &[u8]) -> Option<(bool, &[u8])>
    ensures { MatchOption result
        ((holds : Bool) (rest : List ℕ) → bytes.now ≡ lines.flag holds ∷ 32 ∷ rest → ⊥)
        (λ r. bytes.now ≡ lines.flag r.0 ∷ 32 ∷ r.1.now) }
{
    let Some((first, rest)) = bytes.split_first() else {
        return None;
    };
    let holds = match *first {
        b'0' => false,
        b'1' => true,
        _ => return None,
    };
    match after_byte(rest, b' ') {
        Some(behind) => Some((holds, behind)),
        None => None,
    }
}

/// The letter of a row and its two truth values at the front, and what follows them.
fn flags(bytes: &[u8], letter: u8) -> Option<(bool, bool, &[u8])>
    ensures { MatchOption result
        ((one other : Bool) (rest : List ℕ) → FlagsAt letter bytes.now one other rest → ⊥)
        (λ r. FlagsAt letter bytes.now r.0 r.1 r.2.now) }
{
    let Some(behind) = after_byte(bytes, letter) else {
        return None;
    };
    let Some(rest) = after_byte(behind, b' ') else {
        return None;
    };
    let Some((one, rest)) = flag(rest) else {
        return None;
    };
    match flag(rest) {
        Some((other, rest)) => Some((one, other, rest)),
        None => None,
    }
}

/// Whether numbers ascend strictly.
fn do_ascend(numbers: &[u32]) -> bool
    ensures { IsTrue result ↔ IsStrictlySortedBy nat_cmp numbers.now }
{
    for i in 1..numbers.len() {
        if numbers[i] <= numbers[i - 1] {
            return false;
        }
    }
    true
}

/// Whether a pair stands before another.
fn is_before(one: (u32, u32), other: (u32, u32)) -> bool
    ensures { IsTrue result ↔ (pair_cmp one other ≡ Less) }
{
    one.cmp(&other) == Ordering::Less
}

/// Whether pairs ascend strictly.
pub(crate) fn do_pairs_ascend(pairs: &Pairs) -> bool
    ensures { IsTrue result ↔ IsStrictlySortedBy pair_cmp pairs.now }
{
    for i in 1..pairs.len() {
        if !is_before(*pairs.get(i - 1), *pairs.get(i)) {
            return false;
        }
    }
    true
}

/// Whether each number is at most 2.
pub(crate) fn are_looks(numbers: &[u32]) -> bool
    ensures { IsTrue result ↔ All (λ n. n ≤ 2) numbers.now }
{
    numbers.iter().all(|number| *number <= 2)
}

/// The first three fields of a row: two truth values, and members that ascend.
#[derive(Drop)]
pub(crate) struct RowFront {
    pub(crate) one: bool,
    pub(crate) other: bool,
    pub(crate) members: Vec<u32>,
}

/// The first three fields of a row with this letter at the front, and what follows the space behind them.
pub(crate) fn front(
    alloc: Global,
    bytes: &[u8],
    letter: u8,
) -> Result<(RowFront, &[u8]), PieceFault>
    ensures ok { IfOk result
        (λ r. IsFrontAt letter bytes.now r.0.one r.0.other r.0.members.items r.1.now) }
    ensures no { IfErr result
        (IsMissing ((one : Bool) × (other : Bool) × (members : List ℕ) × (rest : List ℕ)
        × IsFrontAt letter bytes.now one other members rest)) }
{
    let Some((one, other, rest)) = flags(bytes, letter) else {
        return Err(PieceFault::Form);
    };
    let (members, rest) = numbers(alloc, rest, b' ')?;
    if !do_ascend(&members) {
        return Err(PieceFault::Form);
    }
    Ok((
        RowFront {
            one,
            other,
            members,
        },
        rest,
    ))
}
