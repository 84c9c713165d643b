// Rows of a certificate: read whole, or as changes of the row before.
ghost use Rattle.std.specs.Prelude.{◌≡◌, ◌≤◌, ◌<◌, ◌↔◌, ℕ, Some, None, Bool, true, List, length, All, IfOk, IfErr, IsTrue, MatchBool, MatchOption, IfSome};
ghost use Rattle.tc_cert.specs.Fields as fields;
ghost use Rattle.tc_cert.specs.Fields.{Fields, fields_of, IsFormedRow, IsBehind, IsNextRow, row_line};
ghost use Rattle.std.specs.Option.{option_map};
ghost use Rattle.tc_cert.specs.NextRows.{IsWholeAt, IsChangedAt, AreChanged, IsNextChange, IsMade, IsMadeBehind, IsShort};
ghost use Rattle.tc_cert.specs.Styles.{version_of, IsWholeBehind, MayBeWhole, IsByChanges};
ghost use Rattle.tc_cert.specs.Pieces.{IsMissing};

use crate::faults::PieceFault;
use crate::order::{changes_order, front_order, row_order};
use crate::pieces::{RowFront, after_byte, are_looks, changes, front, numbers};
use std::alloc::Global;
use std::cmp::Ordering;

/// Of what a row tells: of trees, or of lists of trees.
#[derive(Clone, Copy)]
pub(crate) enum Kind {
    Tree,
    Hedge,
}

impl Kind {
    /// The letter of rows that are written whole.
    fn letter(self) -> u8
        ensures { result ≡ fields.letter self }
    {
        match self {
            Kind::Tree => b't',
            Kind::Hedge => b'h',
        }
    }

    /// The letter of rows that are written by their changes of the row before.
    pub(crate) fn changes_letter(self) -> u8
        ensures { result ≡ fields.changes_letter self }
    {
        match self {
            Kind::Tree => b'T',
            Kind::Hedge => b'H',
        }
    }
}

/// A row of either kind.
#[derive(Drop)]
pub(crate) struct Row {
    /// Of a tree whether it is a text, of a list of trees whether its last one is.
    pub(crate) one: bool,
    /// Whether a text stands in it.
    pub(crate) other: bool,
    /// The element patterns of a tree, the states of a list of trees.
    pub(crate) members: Vec<u32>,
    /// The numbers of its outputs.
    pub(crate) outs: Vec<u32>,
    /// Its looks.
    pub(crate) looks: Vec<u32>,
}

/// The row at the front that is written whole, and the next line.
pub(crate) fn whole(alloc: Global, bytes: &[u8], kind: Kind) -> Result<(Row, &[u8]), PieceFault>
    ensures ok { IfOk result (λ r. IsWholeAt kind bytes.now (fields_of r.0) r.1.now) }
    ensures no { IfErr result
        (IsMissing ((f : Fields) × (rest : List ℕ) × IsWholeAt kind bytes.now f rest)) }
{
    let (front, rest) = front(alloc, bytes, kind.letter())?;
    let (outs, rest) = numbers(alloc, rest, b' ')?;
    let (looks, rest) = numbers(alloc, rest, b'\n')?;
    if !are_looks(&looks) {
        return Err(PieceFault::Form);
    }
    let row = Row {
        one: front.one,
        other: front.other,
        members: front.members,
        outs,
        looks,
    };
    Ok((row, rest))
}

/// Whether two rows have as many outputs and as many looks.
pub(crate) fn are_like(before: &Row, row: &Row) -> bool
    ensures { result ≡ fields.are_like (fields_of before.now) (fields_of row.now) }
{
    before.outs.len() == row.outs.len() && before.looks.len() == row.looks.len()
}

/// Whether each change puts a look.
fn put_looks(changes: &[(u32, u32)]) -> bool
    ensures { IsTrue result ↔ All (λ c. c.1 ≤ 2) changes.now }
{
    changes.iter().all(|(_, number)| *number <= 2)
}

/// Whether a change stands at the next place or behind it, and puts another number than before.
fn is_change(numbers: &[u32], next: usize, change: (u32, u32)) -> bool
    ensures { IsTrue result ↔ IsNextChange numbers.now next change.0 change.1 }
{
    let place = change.0 as usize;
    next <= place && place < numbers.len() && numbers[place] != change.1
}

/// Makes the changes, where each stands behind the one before it and puts another number than before.
fn apply(numbers: &mut Vec<u32>, changes: &[(u32, u32)]) -> bool
    ensures { MatchBool result (AreChanged numbers.old.items changes.now numbers.new.items)
        ((new : List ℕ) → AreChanged numbers.old.items changes.now new → ⊥) }
{
    let mut next = 0;
    for change in changes {
        if !is_change(numbers, next, *change) {
            return false;
        }
        numbers[change.0 as usize] = change.1;
        next = change.0 as usize + 1;
    }
    true
}

/// The row that changes make of another, where they are changes of it that put looks.
fn with_changes(
    before: Row,
    front: RowFront,
    outs: &[(u32, u32)],
    looks: &[(u32, u32)],
) -> Option<Row>
    requires { All (λ n. n ≤ 2) before.looks.items }
    ensures { MatchOption result
        ((f : Fields)
        → IsMade (fields_of before) front.one front.other front.members.items outs.now looks.now f
        → ⊥)
        (λ r. IsMade
        (fields_of before) front.one front.other front.members.items outs.now looks.now
        (fields_of r)) }
{
    let mut row = Row {
        one: front.one,
        other: front.other,
        members: front.members,
        outs: before.outs,
        looks: before.looks,
    };
    if !put_looks(looks) {
        return None;
    }
    if !apply(&mut row.outs, outs) {
        return None;
    }
    if !apply(&mut row.looks, looks) {
        return None;
    }
    Some(row)
}

/// Whether the row that changes make of another stands behind it.
fn is_behind(before: &Row, front: &RowFront, outs: &[(u32, u32)], looks: &[(u32, u32)]) -> bool
    ensures { IsMadeBehind
        (fields_of before.now) front.now.one front.now.other front.now.members.items outs.now
        looks.now result }
{
    front_order(before, front.one, front.other, &front.members)
        .then(changes_order(&before.outs, outs))
        .then(changes_order(&before.looks, looks))
        == Ordering::Less
}

/// The row at the front that is written by its changes of another, behind which it stands, and the next line.
fn changed(alloc: Global, bytes: &[u8], kind: Kind, before: Row) -> Result<(Row, &[u8]), PieceFault>
    requires { IsFormedRow (fields_of before) × IsShort (fields_of before) }
    ensures ok { IfOk result
        (λ r. IsChangedAt kind (fields_of before) bytes.now (fields_of r.0) r.1.now
        × IsBehind (row_line kind) (Some (fields_of before)) (fields_of r.0)) }
    ensures no { IfErr result
        (IsMissing
        ((f : Fields) × (rest : List ℕ) × IsChangedAt kind (fields_of before) bytes.now f rest
        × IsBehind (row_line kind) (Some (fields_of before)) f)) }
{
    let (front, rest) = front(alloc, bytes, kind.changes_letter())?;
    let (outs, rest) = changes(alloc, rest, b' ')?;
    let (looks, rest) = changes(alloc, rest, b'\n')?;
    if !is_behind(&before, &front, &outs, &looks) {
        return Err(PieceFault::Form);
    }
    match with_changes(before, front, &outs, &looks) {
        Some(row) => Ok((row, rest)),
        None => Err(PieceFault::Form),
    }
}

/// How rows are written: each whole, or as changes of the row before.
#[derive(Clone, Copy)]
pub(crate) enum Style {
    Whole,
    ByChanges,
}

/// Whether a row is written whole behind another, and stands behind it.
fn may_be_whole(style: Style, before: &Row, row: &Row) -> bool
    ensures { IsTrue result ↔ MayBeWhole style (fields_of before.now) (fields_of row.now) }
{
    let unlike = match style {
        Style::Whole => true,
        Style::ByChanges => !are_like(before, row),
    };
    unlike && row_order(before, row) == Ordering::Less
}

/// The row at the front that is written whole behind another, and the next line.
fn whole_behind<'t>(
    alloc: Global,
    bytes: &'t [u8],
    kind: Kind,
    style: Style,
    before: &Row,
) -> Result<(Row, &'t [u8]), PieceFault>
    requires { IsFormedRow (fields_of before.now) }
    ensures ok { IfOk result
        (λ r. IsWholeBehind style kind (fields_of before.now) bytes.now (fields_of r.0) r.1.now) }
    ensures no { IfErr result
        (IsMissing ((f : Fields) × (rest : List ℕ)
        × IsWholeBehind style kind (fields_of before.now) bytes.now f rest)) }
{
    let (row, rest) = whole(alloc, bytes, kind)?;
    if !may_be_whole(style, before, &row) {
        return Err(PieceFault::Form);
    }
    Ok((row, rest))
}

/// Whether the next row is written by its changes.
fn is_by_changes(bytes: &[u8], kind: Kind, style: Style) -> bool
    ensures { MatchBool result (IsByChanges style kind bytes.now)
        (IsByChanges style kind bytes.now → ⊥) }
{
    match style {
        Style::Whole => false,
        Style::ByChanges => match after_byte(bytes, kind.changes_letter()) {
            Some(_) => true,
            None => false,
        },
    }
}

/// The row at the front behind another, and the next line.
fn row_behind(
    alloc: Global,
    bytes: &[u8],
    kind: Kind,
    style: Style,
    before: Row,
) -> Result<(Row, &[u8]), PieceFault>
    requires { IsFormedRow (fields_of before) × IsShort (fields_of before) }
    ensures ok { IfOk result
        (λ r. IsNextRow (version_of style) kind (Some (fields_of before)) bytes.now
        (fields_of r.0) r.1.now) }
    ensures no { IfErr result
        (IsMissing ((f : Fields) × (rest : List ℕ)
        × IsNextRow (version_of style) kind (Some (fields_of before)) bytes.now f rest)) }
{
    if is_by_changes(bytes, kind, style) {
        changed(alloc, bytes, kind, before)
    } else {
        whole_behind(alloc, bytes, kind, style, &before)
    }
}

/// The next row of a kind at the front, and the next line.
pub(crate) fn next_row(
    alloc: Global,
    bytes: &[u8],
    kind: Kind,
    style: Style,
    before: Option<Row>,
) -> Result<(Row, &[u8]), PieceFault>
    requires { IfSome before (λ b. IsFormedRow (fields_of b) × IsShort (fields_of b)) }
    ensures ok { IfOk result
        (λ r. IsNextRow (version_of style) kind (option_map fields_of before) bytes.now
        (fields_of r.0) r.1.now) }
    ensures no { IfErr result
        (IsMissing ((f : Fields) × (rest : List ℕ)
        × IsNextRow (version_of style) kind (option_map fields_of before) bytes.now f rest)) }
{
    match before {
        None => whole(alloc, bytes, kind),
        Some(before) => row_behind(alloc, bytes, kind, style, before),
    }
}
