//! Rows of the format, by hand: the certificate of a small triple in both versions, and changes of it.

use std::alloc::Global;
use tc_base::NoMemory;
use tc_cert::{CertFault, Ranges, UpgradeFault, first_unfit, read_cert, upgrade, write_cert};
use tc_model::CertData;

const FIRST: &str = "xslt-typecheck certificate 1
outputs 2
m 0>0 1>1 2>2 3>3 4>4
m 2>3 3>3
trees 3
t 0 0 1 0,0,0 -
t 0 0 1 1,1,0 -
t 0 0 2 1,0,1 -
hedges 2
h 0 0 0,2 0,0,0 -
h 0 0 1 1,0,1 -
end
";

const SECOND: &str = "xslt-typecheck certificate 2
outputs 2
m 0>0 1>1 2>2 3>3 4>4
m 2>3 3>3
trees 3
t 0 0 1 0,0,0 -
T 0 0 1 0:1,1:1 -
T 0 0 2 1:0,2:1 -
hedges 2
h 0 0 0,2 0,0,0 -
H 0 0 1 0:1,2:1 -
end
";

/// The certificate in both versions.
static VERSIONS: [&str; 2] = [FIRST, SECOND];

/// The ranges of the triple: five output states, two element patterns, three input states, three outputs, no look.
fn ranges() -> Ranges {
    Ranges {
        output_states: 5,
        patterns: 2,
        input_states: 3,
        outs: 3,
        looks: 0,
    }
}

/// The longest text that is tried.
const LONGEST: usize = 67_108_864;

/// The text with another piece in place of one that stands in it once, if it does.
fn with(alloc: Global, text: &str, old: &str, new: &str) -> Option<String> {
    let (front, behind) = text.split_once(old)?;
    format!(in alloc; "{front}{new}{behind}").ok()
}

/// The line that is told of the form of what is fitted, or 0 where the bytes are a certificate's text.
fn line_of_fitted(alloc: Global, text: &[u8]) -> Option<u32> {
    if text.len() > LONGEST {
        return None;
    }
    match first_unfit(alloc, text, ranges()) {
        Ok(_) => Some(0),
        Err(CertFault::Form(line)) => Some(line),
        Err(CertFault::NoMemory) => None,
    }
}

/// The line that is told of the form of what is read.
fn line_of_read(alloc: Global, text: &[u8]) -> Option<u32> {
    if text.len() > LONGEST {
        return None;
    }
    match read_cert(alloc, text) {
        Ok(_) => Some(0),
        Err(CertFault::Form(line)) => Some(line),
        Err(CertFault::NoMemory) => None,
    }
}

/// The line that is told of the form of what is upgraded.
fn line_of_upgraded(alloc: Global, text: &[u8]) -> Option<u32> {
    if text.len() > LONGEST {
        return None;
    }
    match upgrade(alloc, text) {
        Ok(_) => Some(0),
        Err(UpgradeFault::Form(line)) => Some(line),
        Err(_) => None,
    }
}

/// The lines that the calls tell of the form, which are to be the same.
fn lines_of_form(alloc: Global, text: &[u8]) -> [Option<u32>; 3] {
    [
        line_of_fitted(alloc, text),
        line_of_read(alloc, text),
        line_of_upgraded(alloc, text),
    ]
}

/// The line that is told of what doesn't fit, or 0 where all lines fit; of no certificate's text nothing.
fn line_of_fit(alloc: Global, text: &[u8]) -> Option<u32> {
    if text.len() > LONGEST {
        return None;
    }
    match first_unfit(alloc, text, ranges()) {
        Ok(told) => Some(told.unwrap_or(0)),
        Err(_) => None,
    }
}

/// Whether a text is upgraded to another one.
fn is_upgraded(alloc: Global, text: &str, other: &str) -> bool {
    if text.len() > LONGEST {
        return false;
    }
    match upgrade(alloc, text.as_bytes()) {
        Ok(upgraded) => upgraded.as_slice() == other.as_bytes(),
        Err(_) => false,
    }
}

/// Whether a certificate is written as version 2.
fn is_written(alloc: Global, cert: &CertData) -> bool {
    match write_cert(alloc, cert) {
        Ok(written) => written.as_slice() == SECOND.as_bytes(),
        Err(_) => false,
    }
}

/// How many outputs, trees and lists of trees a text has, and whether it is written as version 2.
fn data_of(alloc: Global, text: &str) -> Option<([u32; 3], bool)> {
    if text.len() > LONGEST {
        return None;
    }
    match read_cert(alloc, text.as_bytes()) {
        Ok(cert) => {
            let counts = [cert.outputs.len(), cert.trees.len(), cert.hedges.len()];
            Some((counts, is_written(alloc, &cert)))
        }
        Err(_) => None,
    }
}

#[test]
fn both_versions_are_read_and_written_as_version_2(rt: HostRuntime) {
    for text in &VERSIONS {
        let fit = line_of_fit(rt.alloc(), text.as_bytes());
        let data = data_of(rt.alloc(), text);
        assert!(rt; fit == Some(0) && data == Some(([2, 3, 2], true)), "{text}");
    }
}

const FIRST_OF_ONE: &str =
    "xslt-typecheck certificate 1\noutputs 0\ntrees 0\nhedges 1\nh 1 1 - - 2\nend\n";

const SECOND_OF_ONE: &str =
    "xslt-typecheck certificate 2\noutputs 0\ntrees 0\nhedges 1\nh 1 1 - - 2\nend\n";

/// Certificates, and what they are upgraded to: where no kind has two rows, both versions are alike.
static UPGRADED: [(&str, &str); 4] = [
    (FIRST, SECOND),
    (SECOND, SECOND),
    (FIRST_OF_ONE, SECOND_OF_ONE),
    (SECOND_OF_ONE, SECOND_OF_ONE),
];

#[test]
fn both_versions_are_upgraded_to_version_2(rt: HostRuntime) {
    for (text, other) in &UPGRADED {
        assert!(rt; is_upgraded(rt.alloc(), text, other), "{text}");
    }
}

/// How many bytes the first front of a text has of which it isn't told that it lacks its next line.
fn first_wrong_front(alloc: Global, text: &[u8]) -> Option<usize> {
    let mut line = 1;
    for i in 0..text.len() {
        if lines_of_form(alloc, &text[..i]) != [Some(line); 3] {
            return Some(i);
        }
        if text[i] == b'\n' && line < 1000 {
            line += 1;
        }
    }
    None
}

#[test]
fn each_front_lacks_its_next_line(rt: HostRuntime) {
    for text in &VERSIONS {
        assert_eq!(rt; first_wrong_front(rt.alloc(), text.as_bytes()), None);
    }
}

/// A piece of a text, what stands in its place, and the line that is told.
type Change<'t> = (&'t str, &'t str, u32);

/// The lines that are told of the form of a text with another piece in place of one, if that stands there.
fn lines_of_form_with(alloc: Global, text: &str, old: &str, new: &str) -> Option<[Option<u32>; 3]> {
    match with(alloc, text, old, new) {
        Some(changed) => Some(lines_of_form(alloc, changed.as_bytes())),
        None => None,
    }
}

/// The line that is told of what doesn't fit in the first version with another piece in place of one.
fn line_of_fit_with(alloc: Global, old: &str, new: &str) -> Option<u32> {
    match with(alloc, FIRST, old, new) {
        Some(changed) => line_of_fit(alloc, changed.as_bytes()),
        None => None,
    }
}

/// What the first change of a text puts there of which another line is told.
fn first_wrong_form<'t>(alloc: Global, text: &str, changes: &[Change<'t>]) -> Option<&'t str> {
    for (old, new, line) in changes {
        if lines_of_form_with(alloc, text, old, new) != Some([Some(*line); 3]) {
            return Some(new);
        }
    }
    None
}

const OUTPUTS: &str = "m 0>0 1>1 2>2 3>3 4>4\nm 2>3 3>3";

const LISTS: &str = "h 0 0 0,2 0,0,0 -\nh 0 0 1 1,0,1 -";

/// Changes of the first version, and the lines that are told.
static CHANGED_1: [Change<'static>; 42] = [
    (
        "m 0>0 1>1 2>2 3>3 4>4\nm 2>3 3>3",
        "m 2>3 3>3\nm 0>0 1>1 2>2 3>3 4>4",
        4,
    ),
    ("end\n", "", 12),
    ("end\n", "end", 12),
    ("end\n", "end\n\n", 13),
    ("end\n", "end\nx", 13),
    ("certificate 1\n", "certificate 1\r\n", 1),
    ("certificate 1\n", "certificate 3\n", 1),
    ("xslt", "\u{feff}xslt", 1),
    ("outputs 2", "outputs 02", 2),
    ("outputs 2", "outputs 65537", 2),
    ("outputs 2", "outputs 1", 4),
    ("outputs 2", "outputs 3", 5),
    ("outputs 2", "outputs  2", 2),
    ("outputs 2", "outputs 2 ", 2),
    ("outputs 2", "outputs +2", 2),
    ("outputs 2", "outputs ", 2),
    ("trees 3", "trees 4001", 5),
    ("trees 3", "trees 2", 8),
    ("trees 3", "trees 4", 9),
    ("hedges 2", "hedges 4001", 9),
    ("hedges 2", "trees 2", 9),
    ("m 2>3 3>3", "m 2>3 2>3", 4),
    ("m 2>3 3>3", "m 3>3 2>3", 4),
    ("m 2>3 3>3", "m 2>3  3>3", 4),
    ("m 2>3 3>3", "m 2>3 3>03", 4),
    ("m 2>3 3>3", "m 2>3 3", 4),
    ("m 2>3 3>3", "m 2>3 3>4294967296", 4),
    ("t 0 0 1 0,0,0 -", "t 0 0 1 0,0,4294967296 -", 6),
    ("t 0 0 1 0,0,0 -", "t 0 0 2,1 0,0,0 -", 6),
    ("t 0 0 1 0,0,0 -", "t 0 0 1,1 0,0,0 -", 6),
    ("t 0 0 1 0,0,0 -", "t 0 0 1 0,0,0 3", 6),
    ("t 0 0 1 0,0,0 -", "t 0 0 1 0,0,0 -,-", 6),
    ("t 0 0 1 0,0,0 -", "t 0 0 1 0,0, -", 6),
    ("t 0 0 1 0,0,0 -", "t 0 0 1 0,0,00 -", 6),
    ("t 0 0 1 0,0,0 -", "t 0 0 1 0,0,0 -\r", 6),
    ("t 0 0 1 0,0,0 -", "t 0 0 1 0,0,0 ", 6),
    ("t 0 0 1 0,0,0 -", "t 0 2 1 0,0,0 -", 6),
    ("t 0 0 1 0,0,0 -", "T 0 0 1 - -", 6),
    ("t 0 0 1 1,1,0 -", "t 0 0 1 0,0,0 -", 7),
    ("t 0 0 1 1,1,0 -", "T 0 0 1 0:1,1:1 -", 7),
    ("h 0 0 1 1,0,1 -", "h 0 0 0,10 1,0,1 -", 11),
    ("h 0 0 1 1,0,1 -", "t 0 0 1 1,0,1 -", 11),
];

/// Other lines of outputs and of rows in the first version, which ascend by their bytes, and the lines that are told, or 0.
static ORDERED: [Change<'static>; 19] = [
    // lines of outputs ascend by their bytes
    (OUTPUTS, "m 10>1\nm 9>1", 0),
    (OUTPUTS, "m 9>1\nm 10>1", 4),
    (OUTPUTS, "m 10>1\nm 1>1", 0),
    (OUTPUTS, "m 1>1\nm 10>1", 4),
    (OUTPUTS, "m 1>1\nm 1>10", 0),
    (OUTPUTS, "m\nm 0>0", 0),
    (OUTPUTS, "m 0>0\nm", 4),
    (OUTPUTS, "m 0>0\nm 0>0 1>1", 0),
    // lines of rows of lists of trees ascend by their bytes
    (LISTS, "h 0 0 10 0,0,0 -\nh 0 0 9 0,0,0 -", 0),
    (LISTS, "h 0 0 9 0,0,0 -\nh 0 0 10 0,0,0 -", 11),
    (LISTS, "h 0 0 1 0,0,0 -\nh 0 0 1,10 0,0,0 -", 0),
    (LISTS, "h 0 0 - 0 -\nh 0 0 - 0,0 -", 0),
    (LISTS, "h 0 0 - 0,0 -\nh 0 0 - 0 -", 11),
    (LISTS, "h 0 0 - - -\nh 0 0 - 0 -", 0),
    (LISTS, "h 0 0 - 0 -\nh 0 0 - - -", 11),
    (LISTS, "h 0 0 - 0 0,0\nh 0 0 - 0 0,1", 0),
    (LISTS, "h 0 0 - 0 0\nh 0 0 - 0 0,1", 0),
    (LISTS, "h 0 1 - 0 0\nh 1 0 - 0 0", 0),
    (LISTS, "h 1 0 - 0 0\nh 0 1 - 0 0", 11),
];

#[test]
fn a_changed_line_of_version_1_is_told(rt: HostRuntime) {
    assert_eq!(rt; first_wrong_form(rt.alloc(), FIRST, &CHANGED_1), None);
}

#[test]
fn lines_of_version_1_ascend(rt: HostRuntime) {
    assert_eq!(rt; first_wrong_form(rt.alloc(), FIRST, &ORDERED), None);
}

/// The same of the second version.
static CHANGED_2: [Change<'static>; 14] = [
    ("T 0 0 1 0:1,1:1 -", "T 0 0 1 0:0,1:1 -", 7),
    ("T 0 0 1 0:1,1:1 -", "t 0 0 1 1,1,0 -", 7),
    ("T 0 0 1 0:1,1:1 -", "T 0 0 1 - -", 7),
    ("T 0 0 1 0:1,1:1 -", "T 0 0 1 1:1,0:1 -", 7),
    ("T 0 0 1 0:1,1:1 -", "T 0 0 1 0:1,0:2 -", 7),
    ("T 0 0 1 0:1,1:1 -", "T 0 0 1 0:1,3:1 -", 7),
    ("T 0 0 1 0:1,1:1 -", "T 0 0 1 0:1,1:01 -", 7),
    ("T 0 0 1 0:1,1:1 -", "T 0 0 1 0:1,1:1 0:1", 7),
    ("T 0 0 1 0:1,1:1 -", "H 0 0 1 0:1,1:1 -", 7),
    ("t 0 0 1 0,0,0 -", "T 0 0 1 - -", 6),
    ("H 0 0 1 0:1,2:1 -", "H 0 0 0 - -", 11),
    ("H 0 0 1 0:1,2:1 -", "H 0 0 0,2 0:0,2:1 -", 11),
    ("H 0 0 1 0:1,2:1 -", "H 0 0 0,2 - -", 11),
    ("certificate 2", "certificate 1", 7),
];

#[test]
fn a_changed_line_of_version_2_is_told(rt: HostRuntime) {
    assert_eq!(rt; first_wrong_form(rt.alloc(), SECOND, &CHANGED_2), None);
}

/// Changes of the first version, and the first lines that don't fit, or 0.
static UNFIT: [Change<'static>; 11] = [
    ("m 2>3 3>3", "m 2>5 3>3", 4),
    ("m 2>3 3>3", "m 2>4 3>3", 0),
    ("t 0 0 1 0,0,0 -", "t 0 0 1 0,0,4294967295 -", 6),
    ("t 0 0 1 0,0,0 -", "t 0 0 1 0,0,2 -", 6),
    ("t 0 0 1 0,0,0 -", "t 0 0 1 0,0 -", 6),
    ("t 0 0 1 0,0,0 -", "t 0 0 1 0,0,0 0", 6),
    ("t 0 0 1 0,0,0 -", "t 0 0 0 0,0,0 -", 6),
    ("t 0 0 1 0,0,0 -", "t 0 0 - 0,0,0 -", 0),
    ("t 0 0 2 1,0,1 -", "t 0 0 3 1,0,1 -", 8),
    ("h 0 0 0,2 0,0,0 -", "h 0 0 0,3 0,0,0 -", 10),
    ("h 0 0 1 1,0,1 -", "h 0 0 1 - -", 11),
];

#[test]
fn the_first_line_that_does_not_fit_is_told(rt: HostRuntime) {
    for (old, new, line) in &UNFIT {
        assert!(rt;
            line_of_fit_with(rt.alloc(), old, new) == Some(*line),
            "{new}"
        );
    }
}

/// Puts a row of a million outputs, and 3,999 that repeat it.
fn put_rows(text: &mut String) -> Result<(), NoMemory> {
    text.push_str("t 0 0 10000 0")?;
    for _ in 1..1000000 {
        text.push_str(",0")?;
    }
    text.push_str(" -\n")?;
    for number in 10001..14000 {
        write!(text, "T 0 0 {number} - -\n")?;
    }
    Ok(())
}

/// A text of version 2 that unfolds: one of such rows.
fn text_that_unfolds(alloc: Global) -> Result<String, NoMemory> {
    let mut text = String::new(alloc);
    text.push_str("xslt-typecheck certificate 2\noutputs 0\ntrees 4000\n")?;
    put_rows(&mut text)?;
    text.push_str("hedges 0\nend\n")?;
    Ok(text)
}

#[test]
fn a_text_that_unfolds_is_told_in_its_own_size(rt: HostRuntime) {
    let line = match text_that_unfolds(rt.alloc()) {
        Ok(text) => line_of_fit(rt.alloc(), text.as_bytes()),
        Err(_) => None,
    };
    assert!(rt; line == Some(4));
}
