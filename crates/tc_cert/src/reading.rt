// Reading a certificate.
ghost use Rattle.std.specs.Prelude.{◌≡◌, ◌≤◌, ◌<◌, ◌∷◌, ◌++◌, ℕ, List, [], length, IfOk, IfErr, OnOk, MatchOption, MatchResult, Some, None};
ghost use Rattle.tc_base.specs.declared.limits.TheConstants.{LONGEST_FILE};
ghost use Rattle.tc_cert.specs.Fields.{fields_of, last_of, tree_of, hedge_of};
ghost use Rattle.tc_cert.specs.Fronts.{begun, in_outputs, in_trees, in_hedges};
ghost use Rattle.tc_cert.specs.NextRows.{IsShort};
ghost use Rattle.tc_cert.specs.Readings.{IsUnread};
ghost use Rattle.tc_cert.specs.Standing.{Stands};
ghost use Rattle.tc_cert.specs.Texts.{Version, CertificateText};
ghost use Rattle.tc_model.specs.declared.lists.TreeLine.{TreeLine};

use crate::cursor::Reader;
use crate::faults::CertFault;
use crate::rows::{Kind, Row};
use std::alloc::Global;
use tc_base::NoMemory;
use tc_base::limits::{GREATEST_LIMIT, MOST_OUTPUTS};
use tc_model::{CertData, HedgeLine, HedgeLines, Numbers, PairLists, Pairs, TreeLine, TreeLines};

/// The same numbers.
fn numbers_of(alloc: Global, numbers: &[u32]) -> Result<Numbers, NoMemory>
    requires { length numbers.now ≤ LONGEST_FILE }
    ensures { IfOk result (λ list. list ≡ numbers.now) }
{
    let mut list = Numbers::new(alloc);
    for number in numbers {
        list.push(*number)?;
    }
    Ok(list)
}

/// The members of a row, its outputs and its looks.
fn lists_of(alloc: Global, row: &Row) -> Result<(Numbers, Numbers, Numbers), NoMemory>
    requires { IsShort (fields_of row.now) }
    ensures { IfOk result (λ l. (l.0 ≡ (fields_of row.now).members)
        × (l.1 ≡ (fields_of row.now).outs) × (l.2 ≡ (fields_of row.now).looks)) }
{
    let members = numbers_of(alloc, &row.members)?;
    let outs = numbers_of(alloc, &row.outs)?;
    let looks = numbers_of(alloc, &row.looks)?;
    Ok((members, outs, looks))
}

/// Puts a row at the end of those of trees.
fn push_tree(alloc: Global, trees: &mut TreeLines, row: &Row) -> Result<(), NoMemory>
    requires few { length trees.old < 4294967295 }
    requires short { IsShort (fields_of row.now) }
    ensures { OnOk result (trees.new ≡ trees.old ++ tree_of (fields_of row.now) ∷ []) }
{
    let (patterns, outs, looks) = lists_of(alloc, row)?;
    trees.push(TreeLine {
        text: row.one,
        bears: row.other,
        patterns,
        outs,
        looks,
    })
}

/// Puts a row at the end of those of lists of trees.
fn push_hedge(alloc: Global, hedges: &mut HedgeLines, row: &Row) -> Result<(), NoMemory>
    requires few { length hedges.old < 4294967295 }
    requires short { IsShort (fields_of row.now) }
    ensures { OnOk result (hedges.new ≡ hedges.old ++ hedge_of (fields_of row.now) ∷ []) }
{
    let (states, outs, looks) = lists_of(alloc, row)?;
    hedges.push(HedgeLine {
        ends: row.one,
        bears: row.other,
        states,
        outs,
        looks,
    })
}

/// The last output.
fn last_output(outputs: &PairLists) -> Option<&Pairs>
    ensures { MatchOption result (last_of outputs.now ≡ None)
        (λ b. last_of outputs.now ≡ Some b.now) }
{
    if outputs.len() == 0 {
        return None;
    }
    Some(outputs.get(outputs.len() - 1))
}

/// Reads the lines of outputs, and how many they are.
fn read_outputs(alloc: Global, reader: &mut Reader<'_>) -> Result<PairLists, CertFault>
    ensures { (v : Version) (bytes : List ℕ) → Stands v bytes (begun v) reader.old
        → MatchResult result (λ os. Stands v bytes (in_outputs v (length os) os) reader.new)
        (IsUnread bytes) }
{
    let count = reader.count(b"outputs", MOST_OUTPUTS)?;
    let mut outputs = PairLists::new(alloc);
    while outputs.len() < count {
        let pairs = reader.output(alloc, last_output(&outputs))?;
        outputs.push(pairs)?;
    }
    Ok(outputs)
}

/// Reads the rows of trees, and how many they are.
fn read_trees(alloc: Global, reader: &mut Reader<'_>) -> Result<TreeLines, CertFault>
    ensures { (v : Version) (bytes : List ℕ) (os : List (List (ℕ × ℕ)))
        → Stands v bytes (in_outputs v (length os) os) reader.old
        → MatchResult result (λ ts. Stands v bytes (in_trees v os (length ts) ts) reader.new)
        (IsUnread bytes) }
{
    let count = reader.count(b"trees", GREATEST_LIMIT)?;
    let mut trees = TreeLines::new(alloc);
    let mut before = None;
    while trees.len() < count {
        let row = reader.row(alloc, Kind::Tree, before)?;
        push_tree(alloc, &mut trees, &row)?;
        before = Some(row);
    }
    Ok(trees)
}

/// Reads the rows of lists of trees, and how many they are.
fn read_hedges(alloc: Global, reader: &mut Reader<'_>) -> Result<HedgeLines, CertFault>
    ensures { (v : Version) (bytes : List ℕ) (os : List (List (ℕ × ℕ))) (ts : List TreeLine)
        → Stands v bytes (in_trees v os (length ts) ts) reader.old
        → MatchResult result (λ hs. Stands v bytes (in_hedges v os ts (length hs) hs) reader.new)
        (IsUnread bytes) }
{
    let count = reader.count(b"hedges", GREATEST_LIMIT)?;
    let mut hedges = HedgeLines::new(alloc);
    let mut before = None;
    while hedges.len() < count {
        let row = reader.row(alloc, Kind::Hedge, before)?;
        push_hedge(alloc, &mut hedges, &row)?;
        before = Some(row);
    }
    Ok(hedges)
}

/// Reads a certificate's text, of either version.
///
/// The answer is `Form` exactly where the bytes are no certificate's text. A text of version 2 unfolds: ask
/// [`first_unfit`](crate::first_unfit) first, which takes no more than the text.
pub fn read_cert(alloc: Global, text: &[u8]) -> Result<CertData, CertFault>
    requires { length text.now ≤ LONGEST_FILE }
    ensures ok { IfOk result (λ cert. CertificateText text.now cert) }
    ensures fault { IfErr result (λ e. IsUnread text.now e) }
{
    let mut reader = Reader::new(text)?;
    let outputs = read_outputs(alloc, &mut reader)?;
    let trees = read_trees(alloc, &mut reader)?;
    let hedges = read_hedges(alloc, &mut reader)?;
    reader.end()?;
    Ok(CertData {
        outputs,
        trees,
        hedges,
    })
}
