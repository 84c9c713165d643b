// The certificate of rows that are all found.
ghost use Rattle.std.specs.Prelude.{◌≡◌, ◌<◌, ◌≤◌, length, map, flat_map, All, IfOk, MatchOption, true};
ghost use Rattle.tc_base.specs.declared.limits.TheConstants.{LONGEST_FILE as longest_file};
ghost use Rattle.tc_beh.specs.Held.{set_at};
ghost use Rattle.tc_beh.specs.Outs.{sets_of};
ghost use Rattle.tc_beh.specs.Places.{pairs_of};
ghost use Rattle.tc_cert.specs.Texts.{output_text};
ghost use Rattle.tc_close.specs.Certified.{HasLongCertificate, IsLeastCertificate};
ghost use Rattle.tc_close.specs.Lines as held;
ghost use Rattle.tc_close.specs.Lines.{sets_at, tree_ranked, hedge_ranked, AreTreesInOrder, AreHedgesInOrder, IsDataBy};
ghost use Rattle.tc_close.specs.Orders.{AreBelow, IsOrder};
ghost use Rattle.tc_close.specs.RowState.{Known};
ghost use Rattle.tc_close.specs.Settling.{AreAll};
ghost use Rattle.tc_model.specs.CertificateLines as lines;
ghost use Rattle.tc_rows.specs.Triples.{Triple};

use crate::held::HeldRows;
use crate::order::{PlacedLines, ranked, ranks_of};
use crate::over::Over;
use std::alloc::Global;
use tc_base::NoMemory;
use tc_base::limits::LONGEST_FILE;
use tc_cert::{hedge_line, pairs_line, tree_line};
use tc_model::{CertData, HedgeLine, HedgeLines, PairLists, TreeLine, TreeLines};

/// The line of the set of pairs of a number.
fn output_line<K: Over>(
    alloc: Global,
    rows: &HeldRows<'_, '_, K>,
    number: u32,
) -> Result<Vec<u8>, NoMemory>
    requires { number < length rows.now.outputs.matrices }
    ensures { IfOk result
        (λ line. line.items ≡ lines.pairs_line (pairs_of (set_at rows.now.outputs number))) }
{
    let pairs = rows.output(alloc, number)?;
    pairs_line(alloc, &pairs)
}

/// The lines of the sets of pairs, by their numbers, unless they alone have more bytes than a certificate may have.
fn output_lines<K: Over>(
    alloc: Global,
    rows: &HeldRows<'_, '_, K>,
) -> Result<Option<PlacedLines>, NoMemory>
    ensures { IfOk result (λ o. MatchOption o
        (longest_file < length (flat_map output_text (sets_of rows.now.outputs.matrices)))
        (λ all. all ≡ held.output_lines rows.now)) }
{
    let mut all = PlacedLines::new(alloc);
    let mut room = LONGEST_FILE;
    for number in 0..rows.output_count() {
        let line = output_line(alloc, rows, number)?;
        if line.len() >= room {
            return Ok(None);
        }
        room -= line.len() + 1;
        all.push(line)?;
    }
    Ok(Some(all))
}

/// The sets of pairs of these numbers.
fn outputs_at<K: Over>(
    alloc: Global,
    rows: &HeldRows<'_, '_, K>,
    numbers: &[u32],
) -> Result<PairLists, NoMemory>
    requires within { All (λ n. n < length rows.now.outputs.matrices) numbers.now }
    requires few { length numbers.now ≤ 4294967295 }
    ensures { IfOk result (λ outputs. outputs ≡ sets_at rows.now numbers.now) }
{
    let mut outputs = PairLists::new(alloc);
    for place in 0..numbers.len() {
        let pairs = rows.output(alloc, numbers[place])?;
        outputs.push(pairs)?;
    }
    Ok(outputs)
}

/// The row of a tree, its outputs by their ranks.
fn ranked_tree<K: Over>(
    alloc: Global,
    rows: &mut HeldRows<'_, '_, K>,
    ranks: &[u32],
    place: u32,
) -> Result<TreeLine, NoMemory>
    requires place { place < length rows.old.trees }
    requires ranks { length ranks.now ≡ length rows.old.outputs.matrices }
    ensures same { rows.new ≡ rows.old }
    ensures line { IfOk result
        (λ l. (x : Triple) → K.is_of x → l ≡ tree_ranked x rows.old ranks.now place) }
{
    let line = rows.tree_line(alloc, place)?;
    let outs = ranked(alloc, ranks, &line.outs)?;
    Ok(TreeLine {
        text: line.text,
        bears: line.bears,
        patterns: line.patterns,
        outs,
        looks: line.looks,
    })
}

/// The row of a list of trees, its outputs by their ranks.
fn ranked_hedge<K: Over>(
    alloc: Global,
    rows: &mut HeldRows<'_, '_, K>,
    ranks: &[u32],
    place: u32,
) -> Result<HedgeLine, NoMemory>
    requires place { place < length rows.old.hedges }
    requires ranks { length ranks.now ≡ length rows.old.outputs.matrices }
    ensures same { rows.new ≡ rows.old }
    ensures line { IfOk result
        (λ l. (x : Triple) → K.is_of x → l ≡ hedge_ranked x rows.old ranks.now place) }
{
    let line = rows.hedge_line(alloc, place)?;
    let outs = ranked(alloc, ranks, &line.outs)?;
    Ok(HedgeLine {
        ends: line.ends,
        bears: line.bears,
        states: line.states,
        outs,
        looks: line.looks,
    })
}

/// The bytes of the line of a tree's row.
fn tree_bytes<K: Over>(
    alloc: Global,
    rows: &mut HeldRows<'_, '_, K>,
    ranks: &[u32],
    place: u32,
) -> Result<Vec<u8>, NoMemory>
    requires place { place < length rows.old.trees }
    requires ranks { length ranks.now ≡ length rows.old.outputs.matrices }
    ensures same { rows.new ≡ rows.old }
    ensures line { IfOk result (λ line. (x : Triple) → K.is_of x → line.items
        ≡ lines.tree_line (tree_ranked x rows.old ranks.now place)) }
{
    let line = ranked_tree(alloc, rows, ranks, place)?;
    tree_line(alloc, &line)
}

/// The bytes of the line of the row of a list of trees.
fn hedge_bytes<K: Over>(
    alloc: Global,
    rows: &mut HeldRows<'_, '_, K>,
    ranks: &[u32],
    place: u32,
) -> Result<Vec<u8>, NoMemory>
    requires place { place < length rows.old.hedges }
    requires ranks { length ranks.now ≡ length rows.old.outputs.matrices }
    ensures same { rows.new ≡ rows.old }
    ensures line { IfOk result (λ line. (x : Triple) → K.is_of x → line.items
        ≡ lines.hedge_line (hedge_ranked x rows.old ranks.now place)) }
{
    let line = ranked_hedge(alloc, rows, ranks, place)?;
    hedge_line(alloc, &line)
}

/// The numbers of the rows of trees, in the order of their lines.
fn tree_order<K: Over>(
    alloc: Global,
    rows: &mut HeldRows<'_, '_, K>,
    ranks: &[u32],
) -> Result<Vec<u32>, NoMemory>
    requires { length ranks.now ≡ length rows.old.outputs.matrices }
    ensures same { rows.new ≡ rows.old }
    ensures order { IfOk result (λ numbers. (x : Triple) → K.is_of x
        → IsOrder (held.tree_lines x rows.old ranks.now) numbers.items) }
    ensures numbers { IfOk result (λ numbers. AreBelow (length rows.old.trees) numbers.items) }
{
    let mut all = PlacedLines::new(alloc);
    for place in 0..rows.tree_count() {
        let line = tree_bytes(alloc, rows, ranks, place)?;
        all.push(line)?;
    }
    all.order()
}

/// The numbers of the rows of lists of trees, in the order of their lines.
fn hedge_order<K: Over>(
    alloc: Global,
    rows: &mut HeldRows<'_, '_, K>,
    ranks: &[u32],
) -> Result<Vec<u32>, NoMemory>
    requires { length ranks.now ≡ length rows.old.outputs.matrices }
    ensures same { rows.new ≡ rows.old }
    ensures order { IfOk result (λ numbers. (x : Triple) → K.is_of x
        → IsOrder (held.hedge_lines x rows.old ranks.now) numbers.items) }
    ensures numbers { IfOk result (λ numbers. AreBelow (length rows.old.hedges) numbers.items) }
{
    let mut all = PlacedLines::new(alloc);
    for place in 0..rows.hedge_count() {
        let line = hedge_bytes(alloc, rows, ranks, place)?;
        all.push(line)?;
    }
    all.order()
}

/// The rows of trees of these numbers.
fn trees_at<K: Over>(
    alloc: Global,
    rows: &mut HeldRows<'_, '_, K>,
    ranks: &[u32],
    numbers: &[u32],
) -> Result<TreeLines, NoMemory>
    requires ranks { length ranks.now ≡ length rows.old.outputs.matrices }
    requires numbers { AreBelow (length rows.old.trees) numbers.now }
    ensures same { rows.new ≡ rows.old }
    ensures trees { IfOk result (λ trees. (x : Triple) → K.is_of x → trees
        ≡ map (tree_ranked x rows.old ranks.now) numbers.now) }
{
    let mut trees = TreeLines::new(alloc);
    for place in 0..numbers.len() {
        let line = ranked_tree(alloc, rows, ranks, numbers[place])?;
        trees.push(line)?;
    }
    Ok(trees)
}

/// The rows of lists of trees of these numbers.
fn hedges_at<K: Over>(
    alloc: Global,
    rows: &mut HeldRows<'_, '_, K>,
    ranks: &[u32],
    numbers: &[u32],
) -> Result<HedgeLines, NoMemory>
    requires ranks { length ranks.now ≡ length rows.old.outputs.matrices }
    requires numbers { AreBelow (length rows.old.hedges) numbers.now }
    ensures same { rows.new ≡ rows.old }
    ensures hedges { IfOk result (λ hedges. (x : Triple) → K.is_of x → hedges
        ≡ map (hedge_ranked x rows.old ranks.now) numbers.now) }
{
    let mut hedges = HedgeLines::new(alloc);
    for place in 0..numbers.len() {
        let line = ranked_hedge(alloc, rows, ranks, numbers[place])?;
        hedges.push(line)?;
    }
    Ok(hedges)
}

/// The rows of trees in the order of their lines.
fn trees_in_order<K: Over>(
    alloc: Global,
    rows: &mut HeldRows<'_, '_, K>,
    ranks: &[u32],
) -> Result<TreeLines, NoMemory>
    requires { length ranks.now ≡ length rows.old.outputs.matrices }
    ensures same { rows.new ≡ rows.old }
    ensures trees { IfOk result
        (λ trees. (x : Triple) → K.is_of x → AreTreesInOrder x rows.old ranks.now trees) }
{
    let numbers = tree_order(alloc, rows, ranks)?;
    trees_at(alloc, rows, ranks, &numbers)
}

/// The rows of lists of trees in the order of their lines.
fn hedges_in_order<K: Over>(
    alloc: Global,
    rows: &mut HeldRows<'_, '_, K>,
    ranks: &[u32],
) -> Result<HedgeLines, NoMemory>
    requires { length ranks.now ≡ length rows.old.outputs.matrices }
    ensures same { rows.new ≡ rows.old }
    ensures hedges { IfOk result
        (λ hedges. (x : Triple) → K.is_of x → AreHedgesInOrder x rows.old ranks.now hedges) }
{
    let numbers = hedge_order(alloc, rows, ranks)?;
    hedges_at(alloc, rows, ranks, &numbers)
}

/// The certificate whose outputs are the sets of pairs of these numbers, in this order.
fn data_by<K: Over>(
    alloc: Global,
    rows: &mut HeldRows<'_, '_, K>,
    numbers: &[u32],
) -> Result<CertData, NoMemory>
    requires { IsOrder (held.output_lines rows.old) numbers.now }
    ensures same { rows.new ≡ rows.old }
    ensures made { IfOk result (λ d. (x : Triple) → K.is_of x → IsDataBy x rows.old numbers.now d) }
{
    let ranks = ranks_of(alloc, numbers, rows.output_count())?;
    let outputs = outputs_at(alloc, rows, numbers)?;
    let trees = trees_in_order(alloc, rows, &ranks)?;
    let hedges = hedges_in_order(alloc, rows, &ranks)?;
    Ok(CertData {
        outputs,
        trees,
        hedges,
    })
}

/// The certificate of all rows: each row of a live tree or of a live list of trees, and each set of pairs in them, in the
/// order of their lines. None where the lines of the sets alone have more bytes than a certificate may have.
pub(crate) fn cert_data<K: Over>(
    alloc: Global,
    rows: &mut HeldRows<'_, '_, K>,
) -> Result<Option<CertData>, NoMemory>
    requires all { AreAll K.is_of rows.old }
    requires whole { rows.old.is_whole ≡ true }
    ensures same { rows.new ≡ rows.old }
    ensures known { Known K.is_of rows.old }
    ensures data { IfOk result (λ o. (x : Triple) → K.is_of x
        → MatchOption o (HasLongCertificate x) (IsLeastCertificate x)) }
{
    let _outputs = rows.output_count();
    let _shape = rows.shape();
    let Some(lines) = output_lines(alloc, rows)? else {
        return Ok(None);
    };
    let numbers = lines.order()?;
    let data = data_by(alloc, rows, &numbers)?;
    Ok(Some(data))
}
