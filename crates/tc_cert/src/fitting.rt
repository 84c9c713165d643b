// Whether a certificate's text is one, and its numbers fit, in memory for one row.
// A few hundred bytes of version 2 may mean rows of millions of numbers. So a text is gone through here
// before it is unfolded, and only what fits is to be: at most 8,000 rows of 8,192 numbers.
ghost use Rattle.std.specs.Prelude.{◌≡◌, ◌≤◌, ◌↔◌, ℕ, List, [], length, IfOk, IfErr, IsTrue, MatchOption, MatchResult};
ghost use Rattle.tc_base.specs.declared.limits.TheConstants.{LONGEST_FILE};
ghost use Rattle.tc_model.specs.declared.lists.TreeLine.{TreeLine};
ghost use Rattle.tc_model.specs.declared.lists.CertData.{CertData};
ghost use Rattle.tc_model.specs.CertificateFits.{Sizes, AllFit, AreFrom, IsFirstUnfit, PairsFit, RowFits};
ghost use Rattle.tc_cert.specs.Fields.{Fields, fields_of};
ghost use Rattle.tc_cert.specs.Fits.{sizes_of, RowFitsIn, Told, data_of, told_with, rows_front, rows_data};
ghost use Rattle.tc_cert.specs.Fronts.{begun, in_outputs, in_trees, in_hedges};
ghost use Rattle.tc_cert.specs.Readings.{IsUnread};
ghost use Rattle.tc_cert.specs.Standing.{Stands};
ghost use Rattle.tc_cert.specs.Texts.{Version, CertificateText};

use crate::cursor::Reader;
use crate::faults::CertFault;
use crate::ranges::Ranges;
use crate::rows::{Kind, Row};
use std::alloc::Global;
use tc_base::limits::{GREATEST_LIMIT, MOST_OUTPUTS};
use tc_model::Pairs;

/// Whether each number is one of so many from the first.
fn are_from(first: u32, count: u32, numbers: &[u32]) -> bool
    ensures { IsTrue result ↔ AreFrom first count numbers.now }
{
    numbers
        .iter()
        .all(|number| first <= *number && *number - first < count)
}

/// Whether the pairs are of so many states.
fn do_pairs_fit(states: u32, pairs: &Pairs) -> bool
    ensures { IsTrue result ↔ PairsFit states pairs.now }
{
    for place in 0..pairs.len() {
        let (from, to) = *pairs.get(place);
        if from >= states || to >= states {
            return false;
        }
    }
    true
}

/// Whether the lists of a row have their lengths and numbers, with members from a first one, where so many outputs are
/// listed.
fn do_lists_fit(first: u32, members: u32, ranges: Ranges, listed: u32, row: &Row) -> bool
    ensures { IsTrue result
        ↔ RowFits first members ranges.outs ranges.looks listed (fields_of row.now).members
        (fields_of row.now).outs (fields_of row.now).looks }
{
    row.outs.len() == ranges.outs as usize
        && row.looks.len() == ranges.looks as usize
        && are_from(first, members, &row.members)
        && are_from(0, listed, &row.outs)
}

/// Whether a row fits, where so many outputs are listed.
fn does_row_fit(ranges: Ranges, listed: u32, kind: Kind, row: &Row) -> bool
    ensures { IsTrue result ↔ RowFitsIn (sizes_of ranges) listed kind (fields_of row.now) }
{
    match kind {
        Kind::Tree => do_lists_fit(1, ranges.patterns, ranges, listed, row),
        Kind::Hedge => do_lists_fit(0, ranges.input_states, ranges, listed, row),
    }
}

/// The first line that doesn't fit, where it is known of those before a line, and of this one.
fn first_of(told: Option<u32>, fits: bool, line: u32) -> Option<u32>
    ensures { result ≡ told_with told fits line }
{
    match told {
        Some(first) => Some(first),
        None => { if fits { None } else { Some(line) } }
    }
}

/// Reads so many lines of outputs, and gives the first that doesn't fit.
fn first_output(
    alloc: Global,
    reader: &mut Reader<'_>,
    count: u32,
    states: u32,
) -> Result<Option<u32>, CertFault>
    requires { count ≤ MOST_OUTPUTS }
    ensures { (v : Version) (bytes : List ℕ) (s : Sizes) → s.output_states ≡ states
        → Stands v bytes (in_outputs v count []) reader.old
        → MatchResult result
        (λ told. (os : List (List (ℕ × ℕ))) × (length os ≡ count)
        × Stands v bytes (in_outputs v count os) reader.new × Told s (data_of os [] []) told)
        (IsUnread bytes) }
{
    let mut told = None;
    let mut before = None;
    let mut done = 0;
    while done < count {
        let pairs = reader.output(alloc, before.as_ref())?;
        told = first_of(told, do_pairs_fit(states, &pairs), reader.lines);
        before = Some(pairs);
        done += 1;
    }
    Ok(told)
}

/// Reads so many rows of a kind, and gives the first line that doesn't fit, where it is known of those before them.
fn first_row(
    alloc: Global,
    reader: &mut Reader<'_>,
    kind: Kind,
    count: u32,
    ranges: Ranges,
    listed: u32,
    told_before: Option<u32>,
) -> Result<Option<u32>, CertFault>
    requires { count ≤ GREATEST_LIMIT }
    ensures { (v : Version) (bytes : List ℕ) (os : List (List (ℕ × ℕ))) (ts : List TreeLine)
        → length os ≡ listed → Stands v bytes (rows_front kind v os ts count []) reader.old
        → Told (sizes_of ranges) (rows_data kind os ts []) told_before
        → MatchResult result
        (λ told. (rows : List Fields) × (length rows ≡ count)
        × Stands v bytes (rows_front kind v os ts count rows) reader.new
        × Told (sizes_of ranges) (rows_data kind os ts rows) told) (IsUnread bytes) }
{
    let mut told = told_before;
    let mut before = None;
    let mut done = 0;
    while done < count {
        let row = reader.row(alloc, kind, before)?;
        told = first_of(told, does_row_fit(ranges, listed, kind, &row), reader.lines);
        before = Some(row);
        done += 1;
    }
    Ok(told)
}

/// The first line of a certificate's text with a number out of its range or a list of another length, counted from 1;
/// none where all lines fit.
///
/// `Form` comes exactly where the bytes are no certificate's text, whatever fits. It keeps one row, and so takes memory
/// and time in proportion to the text.
pub fn first_unfit(alloc: Global, text: &[u8], ranges: Ranges) -> Result<Option<u32>, CertFault>
    requires { length text.now ≤ LONGEST_FILE }
    ensures ok { IfOk result
        (λ told. (d : CertData) × CertificateText text.now d
        × MatchOption told (AllFit (sizes_of ranges) d)
        (λ line. IsFirstUnfit (sizes_of ranges) d line)) }
    ensures fault { IfErr result (λ e. IsUnread text.now e) }
{
    let mut reader = Reader::new(text)?;
    let outputs = reader.count(b"outputs", MOST_OUTPUTS)?;
    let of_outputs = first_output(alloc, &mut reader, outputs, ranges.output_states)?;
    let trees = reader.count(b"trees", GREATEST_LIMIT)?;
    let of_trees = first_row(
        alloc,
        &mut reader,
        Kind::Tree,
        trees,
        ranges,
        outputs,
        of_outputs,
    )?;
    let hedges = reader.count(b"hedges", GREATEST_LIMIT)?;
    let told = first_row(
        alloc,
        &mut reader,
        Kind::Hedge,
        hedges,
        ranges,
        outputs,
        of_trees,
    )?;
    reader.end()?;
    Ok(told)
}
