// The text of a certificate in version 2: rows as changes of the row before.
ghost use Rattle.std.specs.Prelude.{◌≡◌, ◌≤◌, ◌<◌, ◌++◌, IfOk, IfErr, OnOk, length, codes};
ghost use Rattle.tc_cert.specs.declared.text.CertWriteFault.TheVariants.{TooLong};
ghost use Rattle.tc_model.specs.CertificateLines as lines;
ghost use Rattle.tc_cert.specs.Texts as texts;
ghost use Rattle.tc_cert.specs.Texts.{by_changes};
ghost use Rattle.tc_cert.specs.Puts.{IsPut, IsCause};

use crate::lines::{put_field, put_front, put_hedge_line, put_pairs_line, put_tree_line};
use crate::text::{CertWriteFault, Text};
use std::alloc::Global;
use tc_base::NoMemory;
use tc_base::limits::LONGEST_FILE;
use tc_model::{CertData, HedgeLine, HedgeLines, Numbers, PairLists, Pairs, TreeLine, TreeLines};

/// Puts a place with what stands there at the end, where that is another number than before.
fn push_change(changes: &mut Pairs, place: u32, old: u32, new: u32) -> Result<(), NoMemory>
    requires { length changes.old < 4294967295 }
    ensures { OnOk result (changes.new ≡ changes.old ++ lines.change_at place old new) }
{
    if old == new {
        return Ok(());
    }
    changes.push((place, new))
}

/// The changes from old numbers to as many new ones, each with its place.
fn changes_of(alloc: Global, old: &Numbers, new: &Numbers) -> Result<Pairs, NoMemory>
    ensures { IfOk result (λ l. l ≡ lines.changes 0 old.now new.now) }
{
    let mut changes = Pairs::new(alloc);
    for i in 0..old.len().min(new.len()) {
        let before = *old.get(i);
        let now = *new.get(i);
        push_change(&mut changes, i, before, now)?;
    }
    Ok(changes)
}

/// Puts a change.
fn put_change(text: &mut Text, change: (u32, u32)) -> Result<(), CertWriteFault>
    ensures ok { OnOk result (IsPut text.old text.new (lines.change change)) }
    ensures cause { IfErr result (IsCause text.old (lines.change change)) }
{
    text.put_number(change.0)?;
    text.put(b":")?;
    text.put_number(change.1)
}

/// Puts changes with commas between them, or a dash.
fn put_changes(text: &mut Text, changes: &Pairs) -> Result<(), CertWriteFault>
    ensures ok { OnOk result (IsPut text.old text.new (lines.listed lines.change changes.now)) }
    ensures cause { IfErr result (IsCause text.old (lines.listed lines.change changes.now)) }
{
    if changes.len() == 0 {
        return text.put(b"-");
    }
    put_change(text, *changes.get(0))?;
    for i in 1..changes.len() {
        let change = changes.get(i);
        text.put(b",")?;
        put_change(text, *change)?;
    }
    Ok(())
}

/// Puts the changes from old numbers to new ones, behind a space.
fn put_changed(
    alloc: Global,
    text: &mut Text,
    old: &Numbers,
    new: &Numbers,
) -> Result<(), CertWriteFault>
    ensures ok { OnOk result
        (IsPut text.old text.new (lines.field (lines.changed old.now new.now))) }
    ensures cause { IfErr result (IsCause text.old (lines.field (lines.changed old.now new.now))) }
{
    let changes = changes_of(alloc, old, new)?;
    text.put(b" ")?;
    put_changes(text, &changes)
}

/// Puts the members of a row, and the changes from the other lists of another row to its own, each behind a space.
fn put_changed_lists(
    alloc: Global,
    text: &mut Text,
    members: &Numbers,
    old_outs: &Numbers,
    outs: &Numbers,
    old_looks: &Numbers,
    looks: &Numbers,
) -> Result<(), CertWriteFault>
    ensures ok { OnOk result
        (IsPut text.old text.new
        (lines.field (lines.numbers members.now)
        ++ lines.field (lines.changed old_outs.now outs.now)
        ++ lines.field (lines.changed old_looks.now looks.now))) }
    ensures cause { IfErr result
        (IsCause text.old
        (lines.field (lines.numbers members.now)
        ++ lines.field (lines.changed old_outs.now outs.now)
        ++ lines.field (lines.changed old_looks.now looks.now))) }
{
    put_field(text, members)?;
    put_changed(alloc, text, old_outs, outs)?;
    put_changed(alloc, text, old_looks, looks)
}

/// Whether two rows have as many outputs and as many looks.
fn are_alike(outs: &Numbers, looks: &Numbers, other_outs: &Numbers, other_looks: &Numbers) -> bool
    ensures { result ≡ lines.are_alike outs.now looks.now other_outs.now other_looks.now }
{
    outs.len() == other_outs.len() && looks.len() == other_looks.len()
}

/// Puts a tree's row behind another: as changes of it, where both have as many outputs and as many looks.
fn put_tree_behind(
    alloc: Global,
    text: &mut Text,
    before: &TreeLine,
    line: &TreeLine,
) -> Result<(), CertWriteFault>
    ensures ok { OnOk result (IsPut text.old text.new (lines.tree_behind before.now line.now)) }
    ensures cause { IfErr result (IsCause text.old (lines.tree_behind before.now line.now)) }
{
    if !are_alike(&before.outs, &before.looks, &line.outs, &line.looks) {
        return put_tree_line(text, line);
    }
    put_front(text, b'T', line.text, line.bears)?;
    put_changed_lists(
        alloc,
        text,
        &line.patterns,
        &before.outs,
        &line.outs,
        &before.looks,
        &line.looks,
    )
}

/// Puts the row of a list of trees behind another: as changes of it, where both have as many outputs and as many looks.
fn put_hedge_behind(
    alloc: Global,
    text: &mut Text,
    before: &HedgeLine,
    line: &HedgeLine,
) -> Result<(), CertWriteFault>
    ensures ok { OnOk result (IsPut text.old text.new (lines.hedge_behind before.now line.now)) }
    ensures cause { IfErr result (IsCause text.old (lines.hedge_behind before.now line.now)) }
{
    if !are_alike(&before.outs, &before.looks, &line.outs, &line.looks) {
        return put_hedge_line(text, line);
    }
    put_front(text, b'H', line.ends, line.bears)?;
    put_changed_lists(
        alloc,
        text,
        &line.states,
        &before.outs,
        &line.outs,
        &before.looks,
        &line.looks,
    )
}

/// Puts a line that tells how many lines of a kind follow.
fn put_count(text: &mut Text, kind: &[u8], count: u32) -> Result<(), CertWriteFault>
    ensures ok { OnOk result
        (IsPut text.old text.new (texts.ended (texts.counted kind.now count))) }
    ensures cause { IfErr result (IsCause text.old (texts.ended (texts.counted kind.now count))) }
{
    text.put(kind)?;
    text.put(b" ")?;
    text.put_number(count)?;
    text.put(b"\n")
}

/// Puts the lines of outputs, and how many they are.
fn put_outputs(text: &mut Text, outputs: &PairLists) -> Result<(), CertWriteFault>
    ensures ok { OnOk result (IsPut text.old text.new (texts.outputs_part outputs.now)) }
    ensures cause { IfErr result (IsCause text.old (texts.outputs_part outputs.now)) }
{
    put_count(text, b"outputs", outputs.len())?;
    for i in 0..outputs.len() {
        put_pairs_line(text, outputs.get(i))?;
        text.put(b"\n")?;
    }
    Ok(())
}

/// Puts the rows of trees, of which there are some.
fn put_tree_rows(alloc: Global, text: &mut Text, trees: &TreeLines) -> Result<(), CertWriteFault>
    requires { 0 < length trees.now }
    ensures ok { OnOk result
        (IsPut text.old text.new (texts.rows_in lines.tree_line lines.tree_behind trees.now)) }
    ensures cause { IfErr result
        (IsCause text.old (texts.rows_in lines.tree_line lines.tree_behind trees.now)) }
{
    let first = trees.get(0);
    put_tree_line(text, first)?;
    text.put(b"\n")?;
    for i in 1..trees.len() {
        let before = trees.get(i - 1);
        let line = trees.get(i);
        put_tree_behind(alloc, text, before, line)?;
        text.put(b"\n")?;
    }
    Ok(())
}

/// Puts the rows of trees, and how many they are.
fn put_trees(alloc: Global, text: &mut Text, trees: &TreeLines) -> Result<(), CertWriteFault>
    ensures ok { OnOk result (IsPut text.old text.new (texts.trees_part by_changes trees.now)) }
    ensures cause { IfErr result (IsCause text.old (texts.trees_part by_changes trees.now)) }
{
    put_count(text, b"trees", trees.len())?;
    if trees.len() == 0 {
        return text.put(b"");
    }
    put_tree_rows(alloc, text, trees)
}

/// Puts the rows of lists of trees, of which there are some.
fn put_hedge_rows(alloc: Global, text: &mut Text, hedges: &HedgeLines) -> Result<(), CertWriteFault>
    requires { 0 < length hedges.now }
    ensures ok { OnOk result
        (IsPut text.old text.new (texts.rows_in lines.hedge_line lines.hedge_behind hedges.now)) }
    ensures cause { IfErr result
        (IsCause text.old (texts.rows_in lines.hedge_line lines.hedge_behind hedges.now)) }
{
    let first = hedges.get(0);
    put_hedge_line(text, first)?;
    text.put(b"\n")?;
    for i in 1..hedges.len() {
        let before = hedges.get(i - 1);
        let line = hedges.get(i);
        put_hedge_behind(alloc, text, before, line)?;
        text.put(b"\n")?;
    }
    Ok(())
}

/// Puts the rows of lists of trees, and how many they are.
fn put_hedges(alloc: Global, text: &mut Text, hedges: &HedgeLines) -> Result<(), CertWriteFault>
    ensures ok { OnOk result (IsPut text.old text.new (texts.hedges_part by_changes hedges.now)) }
    ensures cause { IfErr result (IsCause text.old (texts.hedges_part by_changes hedges.now)) }
{
    put_count(text, b"hedges", hedges.len())?;
    if hedges.len() == 0 {
        return text.put(b"");
    }
    put_hedge_rows(alloc, text, hedges)
}

/// Puts all that stands behind the outputs.
fn put_rows(alloc: Global, text: &mut Text, cert: &CertData) -> Result<(), CertWriteFault>
    ensures ok { OnOk result (IsPut text.old text.new (texts.rows_part by_changes cert.now)) }
    ensures cause { IfErr result (IsCause text.old (texts.rows_part by_changes cert.now)) }
{
    put_trees(alloc, text, &cert.trees)?;
    put_hedges(alloc, text, &cert.hedges)?;
    text.put(b"end\n")
}

/// Puts the whole text.
fn put_text(alloc: Global, text: &mut Text, cert: &CertData) -> Result<(), CertWriteFault>
    ensures ok { OnOk result (IsPut text.old text.new (texts.text by_changes cert.now)) }
    ensures cause { IfErr result (IsCause text.old (texts.text by_changes cert.now)) }
{
    text.put(b"xslt-typecheck certificate 2\n")?;
    put_outputs(text, &cert.outputs)?;
    put_rows(alloc, text, cert)
}

/// The text of a certificate in version 2, of at most 67,108,864 bytes.
///
/// `TooLong` comes only where the text has more bytes.
pub fn write_cert(alloc: Global, cert: &CertData) -> Result<Vec<u8>, CertWriteFault>
    ensures text { IfOk result (λ text. text.items ≡ texts.text by_changes cert.now) }
    ensures within { IfOk result (λ text. length text.items ≤ LONGEST_FILE) }
    ensures long { IfErr result
        (λ fault. fault ≡ TooLong → LONGEST_FILE < length (texts.text by_changes cert.now)) }
{
    let mut text = Text::new(alloc, LONGEST_FILE);
    put_text(alloc, &mut text, cert)?;
    Ok(text.bytes)
}
