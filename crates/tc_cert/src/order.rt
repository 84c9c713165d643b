// The order of lines, by the first number at which they differ.
ghost use Rattle.std.specs.Prelude.{◌≡◌, ◌≢◌, All, IfOk, MatchBool};
ghost use Rattle.std.specs.declared.cmp.Ordering.TheVariants.{Equal};
ghost use Rattle.tc_model.specs.CertificateLines as lines;
ghost use Rattle.tc_cert.specs.Fields.{fields_of};
ghost use Rattle.tc_cert.specs.Pieces.{AreNumbers};
ghost use Rattle.tc_cert.specs.Orders.{number_order, numbers_order, pair_order, pairs_order, front_order, row_order, IsOrderOfChanges};

use crate::lines::{flag, put_pair};
use crate::rows::Row;
use crate::text::Text;
use itoa::Buffer;
use std::alloc::Global;
use std::cmp::Ordering;
use tc_base::NoMemory;
use tc_model::Pairs;

/// The order of two numbers by the bytes of their digits.
fn number_order(one: u32, other: u32) -> Ordering
    ensures order { result ≡ number_order one other }
    ensures apart { result ≡ Equal → one ≡ other }
{
    let mut first = Buffer::new();
    let mut second = Buffer::new();
    first
        .format(one)
        .as_bytes()
        .cmp(second.format(other).as_bytes())
}

/// The order of two lists of numbers.
pub(crate) fn numbers_order(one: &[u32], other: &[u32]) -> Ordering
    ensures { result ≡ numbers_order one.now other.now }
{
    for i in 0..one.len().min(other.len()) {
        if one[i] != other[i] {
            return number_order(one[i], other[i]);
        }
    }
    one.len().cmp(&other.len())
}

/// The order of a list and of what changes make of it.
pub(crate) fn changes_order(old: &[u32], changes: &[(u32, u32)]) -> Ordering
    ensures { IsOrderOfChanges old.now changes.now result }
{
    if changes.is_empty() {
        return Ordering::Equal;
    }
    let place = changes[0].0 as usize;
    if old.len() <= place {
        return Ordering::Equal;
    }
    number_order(old[place], changes[0].1)
}

/// The bytes of a pair.
fn pair_bytes(alloc: Global, pair: (u32, u32)) -> Result<Vec<u8>, NoMemory>
    ensures { IfOk result (λ bytes. bytes.items ≡ lines.pair pair) }
{
    let mut text = Text::new(alloc, usize::MAX);
    match put_pair(&mut text, pair) {
        Ok(()) => Ok(text.bytes),
        Err(_) => Err(NoMemory),
    }
}

/// The order of two pairs by their bytes.
fn pair_order(alloc: Global, one: (u32, u32), other: (u32, u32)) -> Result<Ordering, NoMemory>
    ensures { IfOk result (λ order. order ≡ pair_order one other) }
{
    let first = pair_bytes(alloc, one)?;
    let second = pair_bytes(alloc, other)?;
    Ok(first.as_slice().cmp(second.as_slice()))
}

/// Whether two pairs are the same.
fn are_same(one: (u32, u32), other: (u32, u32)) -> bool
    ensures { MatchBool result (one ≡ other) (one ≢ other) }
{
    one == other
}

/// The order of the lines of two outputs.
pub(crate) fn pairs_order(alloc: Global, one: &Pairs, other: &Pairs) -> Result<Ordering, NoMemory>
    requires one { All AreNumbers one.now }
    requires other { All AreNumbers other.now }
    ensures { IfOk result (λ order. order ≡ pairs_order one.now other.now) }
{
    for i in 0..one.len().min(other.len()) {
        let first = *one.get(i);
        let second = *other.get(i);
        if !are_same(first, second) {
            return pair_order(alloc, first, second);
        }
    }
    Ok(one.len().cmp(&other.len()))
}

/// The order of the first three fields of two rows.
pub(crate) fn front_order(before: &Row, one: bool, other: bool, members: &[u32]) -> Ordering
    ensures { result ≡ front_order (fields_of before.now) one other members.now }
{
    flag(before.one)
        .cmp(&flag(one))
        .then(flag(before.other).cmp(&flag(other)))
        .then(numbers_order(&before.members, members))
}

/// The order of the lines of two rows of a kind.
pub(crate) fn row_order(before: &Row, row: &Row) -> Ordering
    ensures { result ≡ row_order (fields_of before.now) (fields_of row.now) }
{
    front_order(before, row.one, row.other, &row.members)
        .then(numbers_order(&before.outs, &row.outs))
        .then(numbers_order(&before.looks, &row.looks))
}
