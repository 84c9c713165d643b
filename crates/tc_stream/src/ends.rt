// Comments, processing instructions, CDATA sections and character data, which have no bound: how far the bytes of a
// text go in one, and what is known of it there (XML 1.0, 2.4 to 2.7).
ghost use Rattle.std.specs.Prelude.{◌≤◌, ◌≡◌, ◌==◌, not, take, IfSome, IsTrue, if◌then◌else◌};
ghost use Rattle.std.specs.List.{prefix_len};
ghost use Rattle.tc_model.specs.XmlTextReferences.{is_plain};
ghost use Rattle.tc_stream.specs.Ends.{TellsEnd, TellsData};
ghost use Rattle.tc_stream.specs.Scans.{comment_scan, instruction_scan, cdata_scan, going};

use memchr::memchr;
use tc_scan::{clear_len, plain_len};

/// Fewer bytes than this are looked at one by one.
const SHORT: usize = 16;

/// Where a text ends something, or what is known at the text's end.
#[derive(Clone, Copy)]
pub(crate) enum Ended {
    /// It ends before so many bytes that are left.
    Before(usize),
    /// It goes on.
    Not(u8),
    /// It can't go on.
    Broken,
}

/// How far a comment goes, of which the last so many characters are hyphens.
pub(crate) fn comment_end(hyphens: u8, text: &[u8]) -> Ended
    requires { hyphens ≤ 2 }
    ensures { TellsEnd result text.now (comment_scan hyphens text.now) }
{
    let mut count = hyphens;
    let mut left = text.len();
    for byte in text {
        left -= 1;
        if count == 2 {
            if *byte == b'>' {
                return Ended::Before(left);
            }
            return Ended::Broken;
        }
        if *byte == b'-' {
            count += 1;
        } else {
            count = 0;
        }
    }
    Ended::Not(count)
}

/// How far a processing instruction goes, the last character of which is a question mark (1) or isn't (0).
pub(crate) fn instruction_end(question: u8, text: &[u8]) -> Ended
    requires { question ≤ 1 }
    ensures { TellsEnd result text.now (instruction_scan question text.now) }
{
    let mut count = question;
    let mut left = text.len();
    for byte in text {
        left -= 1;
        if *byte == b'?' {
            count = 1;
        } else if *byte == b'>' && count == 1 {
            return Ended::Before(left);
        } else {
            count = 0;
        }
    }
    Ended::Not(count)
}

/// How many brackets, at most two, stand at the end behind these and another.
fn one_more(brackets: u8) -> u8
    requires { brackets ≤ 2 }
    ensures { result ≡ (if brackets == 0 then 1 else 2) }
{
    if brackets == 0 { 1 } else { 2 }
}

/// How far a CDATA section goes, of which the last so many characters are closing brackets.
pub(crate) fn cdata_end(brackets: u8, text: &[u8]) -> Ended
    requires { brackets ≤ 2 }
    ensures { TellsEnd result text.now (cdata_scan brackets text.now) }
{
    let mut count = brackets;
    let mut left = text.len();
    for byte in text {
        left -= 1;
        if *byte == b']' {
            count = one_more(count);
        } else if *byte == b'>' && count == 2 {
            return Ended::Before(left);
        } else {
            count = 0;
        }
    }
    Ended::Not(count)
}

/// A run of character data at the front: how many bytes it has, and whether it is seen to have no `]`.
#[derive(Clone, Copy)]
pub(crate) struct Run {
    pub(crate) count: usize,
    pub(crate) is_clear: bool,
}

/// Whether a run of character data ends before this byte.
fn ends_run(byte: u8) -> bool
    ensures { result ≡ not (is_plain byte) }
{
    byte == b'<' || byte == b'&'
}

/// How many bytes the run of character data at the front has, where blocks show that it has no `]`.
fn clear_run(bytes: &[u8]) -> Option<usize>
    ensures { IfSome result (λ n. (n ≡ prefix_len is_plain bytes.now)
        × (cdata_scan 0 (take n bytes.now) ≡ going 0)) }
{
    let count = clear_len(bytes)?;
    if count >= bytes.len() || !ends_run(bytes[count]) {
        return None;
    }
    Some(count)
}

/// Whether no run of character data is at the front.
fn begins_no_run(bytes: &[u8]) -> bool
    ensures { IsTrue result → prefix_len is_plain bytes.now ≡ 0 }
{
    bytes.is_empty() || ends_run(bytes[0])
}

/// The run of character data at the front.
pub(crate) fn run_at(text: &str) -> Run
    ensures count { result.count ≡ prefix_len is_plain text.now }
    ensures clear { IsTrue result.is_clear → cdata_scan 0 (take result.count text.now) ≡ going 0 }
{
    let bytes = text.as_bytes();
    if begins_no_run(bytes) {
        return Run {
            count: 0,
            is_clear: false,
        };
    }
    match clear_run(bytes) {
        Some(count) => Run {
            count,
            is_clear: true,
        },
        None => Run {
            count: plain_len(text),
            is_clear: false,
        },
    }
}

/// The same as `data_end`, byte by byte.
fn data_end_by_bytes(brackets: u8, run: &[u8]) -> Option<u8>
    requires { brackets ≤ 2 }
    ensures { TellsData result (cdata_scan brackets run.now) }
{
    match cdata_end(brackets, run) {
        Ended::Before(_) => None,
        Ended::Not(count) => Some(count),
        Ended::Broken => None,
    }
}

/// Whether character data that ends with so many closing brackets may go on with this run, and with how many it ends
/// then: `]]>` may not stand in it. A clear run is seen to have no closing bracket.
pub(crate) fn data_end(brackets: u8, run: &[u8], is_clear: bool) -> Option<u8>
    requires few { brackets ≤ 2 }
    requires clear { IsTrue is_clear → cdata_scan 0 run.now ≡ going 0 }
    ensures { TellsData result (cdata_scan brackets run.now) }
{
    if brackets > 0 {
        return data_end_by_bytes(brackets, run);
    }
    if is_clear {
        return Some(0);
    }
    if run.len() < SHORT {
        return data_end_by_bytes(brackets, run);
    }
    match memchr(b']', run) {
        Some(at) => data_end_by_bytes(0, &run[at..]),
        None => Some(0),
    }
}
