// What commands write of files in memory, for all tests of this crate.
use std::alloc::Global;
use std::process::Abort;
use std::test::Fail;
use tc_base::NoMemory;
use tc_io::{MemSink, MemStore, Sink};
use tc_top::{Status, WordList, typecheck};

/// A part of a text.
#[derive(Clone, Copy)]
pub(crate) enum Part<'t> {
    /// It stands there once.
    Once(&'t str),
    /// It stands there so many times.
    Times(&'t str, u32),
    /// It stands there for each number from the first to the last: `#` in it is the number, and `~` the next one.
    Each(&'t str, u32, u32),
}

/// A text by its parts, one behind another.
pub(crate) type Text<'t> = &'t [Part<'t>];

/// What a stylesheet begins with, up to its rules.
pub(crate) const FRONT: Part<'static> = Part::Once(
    "<xsl:stylesheet version=\"1.0\" xmlns:xsl=\"http://www.w3.org/1999/XSL/Transform\">",
);

/// What a stylesheet ends with.
pub(crate) const BACK: Part<'static> = Part::Once("</xsl:stylesheet>");

/// Adds a text in which `#` stands for a number and `~` for the next one.
fn add_numbered(text: &mut String, form: &str, number: u32) -> Result<(), Fail> {
    let next = number.saturating_add(1);
    for letter in form.chars() {
        match letter {
            '#' => write!(text, "{number}")?,
            '~' => write!(text, "{next}")?,
            _ => text.push(letter)?,
        }
    }
    Ok(())
}

/// Adds a part of a text.
fn add_part(text: &mut String, part: &Part<'_>) -> Result<(), Fail> {
    match part {
        Part::Once(once) => text.push_str(once)?,
        Part::Times(again, times) => {
            for _ in 0..*times {
                text.push_str(again)?;
            }
        }
        Part::Each(form, first, last) => {
            for number in *first..=*last {
                add_numbered(text, form, number)?;
            }
        }
    }
    Ok(())
}

/// The text of these parts.
pub(crate) fn text_of(alloc: Global, parts: Text<'_>) -> Result<String, Fail> {
    let mut text = String::new(alloc);
    for part in parts {
        add_part(&mut text, part)?;
    }
    Ok(text)
}

/// Texts, one behind another.
pub(crate) fn joined(alloc: Global, parts: &[&str]) -> Result<String, NoMemory> {
    let mut text = String::new(alloc);
    for part in parts {
        text.push_str(part)?;
    }
    Ok(text)
}

/// A stylesheet with these rules.
pub(crate) fn sheet_of(alloc: Global, rules: &str) -> Result<String, NoMemory> {
    let head =
        "<xsl:stylesheet version=\"1.0\" xmlns:xsl=\"http://www.w3.org/1999/XSL/Transform\">";
    joined(alloc, &[head, rules, "</xsl:stylesheet>"])
}

/// The words of a command line.
fn words_of(alloc: Global, words: &[&str]) -> Result<WordList, NoMemory> {
    let mut list = WordList::new(alloc);
    for word in words {
        list.push(word)?;
    }
    Ok(list)
}

/// A store with these files, each by its name.
pub(crate) fn store_of(alloc: Global, files: &[(&str, &[u8])]) -> Result<MemStore, NoMemory> {
    let mut store = MemStore::new(alloc);
    for (name, bytes) in files {
        store.put(name, bytes)?;
    }
    Ok(store)
}

/// The status of what these words write of a store into a sink.
pub(crate) fn status_into(
    alloc: Global,
    words: &[&str],
    store: &mut MemStore,
    sink: &mut impl Sink,
) -> Result<Status, NoMemory> {
    let words = words_of(alloc, words)?;
    Ok(typecheck(alloc, &words, store, sink))
}

/// What these words write of a store into so much room, and their status.
pub(crate) fn written(
    alloc: Global,
    words: &[&str],
    store: &mut MemStore,
    room: usize,
) -> Result<(Status, MemSink), NoMemory> {
    let mut sink = MemSink::new(alloc, room)?;
    let status = status_into(alloc, words, store, &mut sink)?;
    Ok((status, sink))
}

/// Whether these words have this status on a store and write this text.
pub(crate) fn store_answers(
    alloc: Global,
    words: &[&str],
    store: &mut MemStore,
    status: Status,
    text: &str,
) -> Result<bool, NoMemory> {
    let (answered, sink) = written(alloc, words, store, text.len() + 200)?;
    Ok(answered == status && sink.bytes() == text.as_bytes())
}

/// Whether they do so on these files.
pub(crate) fn command_answers(
    alloc: Global,
    words: &[&str],
    files: &[(&str, &[u8])],
    status: Status,
    text: &str,
) -> Result<bool, NoMemory> {
    let mut store = store_of(alloc, files)?;
    store_answers(alloc, words, &mut store, status, text)
}

/// What answers begin with, and their statuses.
static STATUSES: [(&str, Status); 14] = [
    ("safe", Status::Yes),
    ("included", Status::Yes),
    ("same", Status::Yes),
    ("valid", Status::Yes),
    ("accepted", Status::Yes),
    ("xslt-typecheck", Status::Yes),
    ("unsafe", Status::No),
    ("not-included", Status::No),
    ("different", Status::No),
    ("invalid", Status::No),
    ("rejected", Status::No),
    ("refused", Status::Refused),
    ("limit", Status::Limit),
    ("cannot read", Status::ReadFault),
];

/// The status that goes with an answer's text.
pub(crate) fn status_of(text: &str) -> Status {
    for (front, status) in &STATUSES {
        if text.starts_with(*front) {
            return *status;
        }
    }
    Status::Usage
}

/// What is told of words that are no command.
const USAGE: &str =
    "usage: check|prove [--limit N] IN OUT SHEET; verify IN OUT SHEET CERT; run SHEET DOC; valid SCHEMA DOC; demo N; upgrade CERT; dead IN SHEET; include A B; same A B; valid --stream N SCHEMA DOC\n";

/// Asserts that each of these words are no command, whatever these files hold.
pub(crate) fn assert_usage(
    rt: &impl Abort,
    alloc: Global,
    files: &[(&str, &[u8])],
    commands: &[&[&str]],
) -> Result<(), Fail> {
    for words in commands {
        assert!(rt;
            command_answers(alloc, words, files, Status::Usage, USAGE)?,
            "{words:?}"
        );
    }
    Ok(())
}

/// A command on files in memory.
pub(crate) struct Case<'t> {
    /// What it shows.
    pub(crate) what: &'t str,
    pub(crate) words: &'t [&'t str],
    /// The files, each by its name.
    pub(crate) files: &'t [(&'t str, Text<'t>)],
    pub(crate) status: Status,
    /// What is written.
    pub(crate) text: Text<'t>,
}

/// A store with these files.
fn store_of_parts(alloc: Global, files: &[(&str, Text<'_>)]) -> Result<MemStore, Fail> {
    let mut store = MemStore::new(alloc);
    for (name, parts) in files {
        let text = text_of(alloc, parts)?;
        store.put(name, text.as_bytes())?;
    }
    Ok(store)
}

/// Whether a command has its status and writes this text.
pub(crate) fn case_writes(alloc: Global, case: &Case<'_>, text: &str) -> Result<bool, Fail> {
    let mut store = store_of_parts(alloc, case.files)?;
    let answered = store_answers(alloc, case.words, &mut store, case.status, text)?;
    Ok(answered)
}

/// Whether a command is answered as it is to be.
fn is_answered(alloc: Global, case: &Case<'_>) -> Result<bool, Fail> {
    let text = text_of(alloc, case.text)?;
    case_writes(alloc, case, text.as_str())
}

/// Asserts of each command that it is answered so.
pub(crate) fn assert_cases(rt: &impl Abort, alloc: Global, cases: &[Case<'_>]) -> Result<(), Fail> {
    for case in cases {
        let what = case.what;
        assert!(rt; is_answered(alloc, case)?, "{what}");
    }
    Ok(())
}

/// The document with ten levels of which at each but the last two elements stand in one.
pub(crate) fn ten_levels(alloc: Global) -> Result<String, Fail> {
    let mut text = String::from_str(alloc, "<e10/>")?;
    for level in [9, 8, 7, 6, 5, 4, 3, 2, 1] {
        let inside = text.as_str();
        text = format!(in alloc; "<e{level}>{inside}{inside}</e{level}>")?;
    }
    Ok(text)
}

/// A schema of that document alone.
pub(crate) const OF_TEN_LEVELS: Text<'static> = &[
    Part::Once("start = e1\n"),
    Part::Each("e# = element e#{e~,e~}\n", 1, 9),
    Part::Once("e10 = element e10{empty}\n"),
];

/// A schema of such a document with eleven levels.
pub(crate) const OF_ELEVEN_LEVELS: Text<'static> = &[
    Part::Once("start = e1\n"),
    Part::Each("e# = element e#{e~,e~}\n", 1, 10),
    Part::Once("e11 = element e11{empty}\n"),
];
