// Lines of a certificate, as version 1 writes them.
ghost use Rattle.std.specs.Prelude.{◌≡◌, ◌++◌, ◌∷◌, [], IfOk, IfErr, OnOk, codes, decimal};
ghost use Rattle.tc_model.specs.CertificateLines as lines;
ghost use Rattle.tc_cert.specs.Puts.{IsPut, IsCause};

use crate::text::{CertWriteFault, Text};
use std::alloc::Global;
use tc_base::NoMemory;
use tc_model::{HedgeLine, Numbers, Pairs, TreeLine};

/// The digit of a truth value.
pub(crate) fn flag(holds: bool) -> u8
    ensures { result ≡ lines.flag holds }
{
    if holds { b'1' } else { b'0' }
}

/// Puts numbers with commas between them, or a dash.
fn put_numbers(text: &mut Text, numbers: &Numbers) -> Result<(), CertWriteFault>
    ensures ok { OnOk result (IsPut text.old text.new (lines.numbers numbers.now)) }
    ensures cause { IfErr result (IsCause text.old (lines.numbers numbers.now)) }
{
    if numbers.len() == 0 {
        return text.put(b"-");
    }
    text.put_number(*numbers.get(0))?;
    for i in 1..numbers.len() {
        let number = numbers.get(i);
        text.put(b",")?;
        text.put_number(*number)?;
    }
    Ok(())
}

/// Puts numbers behind a space.
pub(crate) fn put_field(text: &mut Text, numbers: &Numbers) -> Result<(), CertWriteFault>
    ensures ok { OnOk result (IsPut text.old text.new (lines.field (lines.numbers numbers.now))) }
    ensures cause { IfErr result (IsCause text.old (lines.field (lines.numbers numbers.now))) }
{
    text.put(b" ")?;
    put_numbers(text, numbers)
}

/// Puts the three lists of a row, each behind a space.
fn put_lists(
    text: &mut Text,
    members: &Numbers,
    outs: &Numbers,
    looks: &Numbers,
) -> Result<(), CertWriteFault>
    ensures ok { OnOk result
        (IsPut text.old text.new
        (lines.field (lines.numbers members.now) ++ lines.field (lines.numbers outs.now)
        ++ lines.field (lines.numbers looks.now))) }
    ensures cause { IfErr result
        (IsCause text.old
        (lines.field (lines.numbers members.now) ++ lines.field (lines.numbers outs.now)
        ++ lines.field (lines.numbers looks.now))) }
{
    put_field(text, members)?;
    put_field(text, outs)?;
    put_field(text, looks)
}

/// Puts the letter of a row's kind, and its two truth values.
pub(crate) fn put_front(
    text: &mut Text,
    kind: u8,
    one: bool,
    other: bool,
) -> Result<(), CertWriteFault>
    ensures ok { OnOk result (IsPut text.old text.new (lines.row_front kind one other)) }
    ensures cause { IfErr result (IsCause text.old (lines.row_front kind one other)) }
{
    text.put(&[kind, b' ', flag(one), b' ', flag(other)])
}

/// Puts a pair behind a space.
pub(crate) fn put_pair(text: &mut Text, pair: (u32, u32)) -> Result<(), CertWriteFault>
    ensures ok { OnOk result (IsPut text.old text.new (lines.pair pair)) }
    ensures cause { IfErr result (IsCause text.old (lines.pair pair)) }
{
    text.put(b" ")?;
    text.put_number(pair.0)?;
    text.put(b">")?;
    text.put_number(pair.1)
}

/// Puts the line of an output.
pub(crate) fn put_pairs_line(text: &mut Text, pairs: &Pairs) -> Result<(), CertWriteFault>
    ensures ok { OnOk result (IsPut text.old text.new (lines.pairs_line pairs.now)) }
    ensures cause { IfErr result (IsCause text.old (lines.pairs_line pairs.now)) }
{
    text.put(b"m")?;
    for i in 0..pairs.len() {
        put_pair(text, *pairs.get(i))?;
    }
    Ok(())
}

/// Puts the line of a tree's row.
pub(crate) fn put_tree_line(text: &mut Text, line: &TreeLine) -> Result<(), CertWriteFault>
    ensures ok { OnOk result (IsPut text.old text.new (lines.tree_line line.now)) }
    ensures cause { IfErr result (IsCause text.old (lines.tree_line line.now)) }
{
    put_front(text, b't', line.text, line.bears)?;
    put_lists(text, &line.patterns, &line.outs, &line.looks)
}

/// Puts the line of the row of a list of trees.
pub(crate) fn put_hedge_line(text: &mut Text, line: &HedgeLine) -> Result<(), CertWriteFault>
    ensures ok { OnOk result (IsPut text.old text.new (lines.hedge_line line.now)) }
    ensures cause { IfErr result (IsCause text.old (lines.hedge_line line.now)) }
{
    put_front(text, b'h', line.ends, line.bears)?;
    put_lists(text, &line.states, &line.outs, &line.looks)
}

/// The line of an output in version 1, without a line feed.
pub fn pairs_line(alloc: Global, pairs: &Pairs) -> Result<Vec<u8>, NoMemory>
    ensures { IfOk result (λ line. line.items ≡ lines.pairs_line pairs.now) }
{
    let mut text = Text::new(alloc, usize::MAX);
    match put_pairs_line(&mut text, pairs) {
        Ok(()) => Ok(text.bytes),
        Err(_) => Err(NoMemory),
    }
}

/// The line of a tree's row in version 1, without a line feed.
pub fn tree_line(alloc: Global, line: &TreeLine) -> Result<Vec<u8>, NoMemory>
    ensures { IfOk result (λ line_text. line_text.items ≡ lines.tree_line line.now) }
{
    let mut text = Text::new(alloc, usize::MAX);
    match put_tree_line(&mut text, line) {
        Ok(()) => Ok(text.bytes),
        Err(_) => Err(NoMemory),
    }
}

/// The line of the row of a list of trees in version 1, without a line feed.
pub fn hedge_line(alloc: Global, line: &HedgeLine) -> Result<Vec<u8>, NoMemory>
    ensures { IfOk result (λ line_text. line_text.items ≡ lines.hedge_line line.now) }
{
    let mut text = Text::new(alloc, usize::MAX);
    match put_hedge_line(&mut text, line) {
        Ok(()) => Ok(text.bytes),
        Err(_) => Err(NoMemory),
    }
}
