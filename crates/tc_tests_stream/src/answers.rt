// What a document is, read in pieces and as a whole.
ghost use Rattle.std.specs.Prelude.{◌<◌};

use bumpalo::Bump;
use std::alloc::Global;
use std::process::Abort;
use std::test::Fail;
use tc_alpha::Alphabet;
use tc_auto::Auto;
use tc_model::{Grammar, Pat, Raw, Sheet};
use tc_stream::{Stream, StreamFault};
use tc_xml::{XmlFault, read_raw};

/// The longest text that is tried.
const LONGEST: usize = 1_000_000;

/// What is said of a document.
#[derive(Clone, Copy, Debug, PartialEq, Eq)]
pub(crate) enum Answer {
    Valid,
    Invalid,
    Fault(StreamFault),
    /// A call that answers otherwise than an earlier one.
    Broken,
}

/// The answer of a text that has ended.
fn answer_of(told: Result<bool, StreamFault>) -> Answer {
    match told {
        Ok(true) => Answer::Valid,
        Ok(false) => Answer::Invalid,
        Err(fault) => Answer::Fault(fault),
    }
}

/// Feeds a piece, unless more came than is tried.
fn feed(stream: &mut Stream<'_>, piece: &[u8]) -> Result<(), StreamFault> {
    if piece.len() > LONGEST || stream.fed() as usize > LONGEST - piece.len() {
        return Err(StreamFault::TagTooLong);
    }
    stream.feed(piece)
}

/// Feeds a text in pieces of so many bytes.
fn feed_all(stream: &mut Stream<'_>, text: &[u8], size: usize) -> Result<(), StreamFault>
    requires { 0 < size }
{
    for piece in text.chunks(size) {
        feed(stream, piece)?;
    }
    Ok(())
}

/// Whether a stream to which a text is fed in pieces counts the bytes, or stays with a fault.
fn stays(stream: &mut Stream<'_>, text: &[u8], size: usize) -> bool
    requires { 0 < size }
{
    match feed_all(stream, text, size) {
        Ok(()) => stream.fed() as usize == text.len(),
        Err(fault) => feed(stream, b"<") == Err(fault),
    }
}

/// No schema.
static NO_GRAMMAR: Grammar<'static> = Grammar {
    start: Pat::NotAllowed,
    elements: &[],
};

/// No stylesheet.
static NO_SHEET: Sheet<'static> = Sheet {
    modes: 1,
    eaches: 0,
    rules: &[],
    named: &[],
};

/// The symbols of a schema alone.
fn alphabet_of(alloc: Global, grammar: &Grammar<'_>) -> Result<Alphabet, Fail> {
    match Alphabet::of(alloc, grammar, &NO_GRAMMAR, &NO_SHEET) {
        Ok(alphabet) => Ok(alphabet),
        Err(_) => Err(Fail::from("symbols")),
    }
}

/// The answer of a stream to which a text is fed in pieces of so many bytes.
fn answer_through(mut stream: Stream<'_>, text: &[u8], size: usize) -> Answer
    requires { 0 < size }
{
    let is_right = stays(&mut stream, text, size);
    let answer = answer_of(stream.finish());
    if is_right { answer } else { Answer::Broken }
}

/// The answer of a text in pieces, by the automaton and the symbols of a schema: of a stream that reads each piece at
/// once, and of one that holds small pieces.
fn answer_by(
    alloc: Global,
    auto: &Auto<'_>,
    alphabet: &Alphabet,
    text: &[u8],
    size: usize,
) -> Result<Answer, Fail> {
    if size == 0 || auto.states() > 512 {
        return Err(Fail::from("a piece and states"));
    }
    let at_once = Stream::holding(alloc, auto, alphabet, 0)?;
    let answer = answer_through(at_once, text, size);
    let holding = Stream::new(alloc, auto, alphabet)?;
    let is_same = answer_through(holding, text, size) == answer;
    Ok(if is_same { answer } else { Answer::Broken })
}

/// The answer of a text in pieces.
pub(crate) fn in_pieces(
    alloc: Global,
    grammar: &Grammar<'_>,
    text: &[u8],
    size: usize,
) -> Result<Answer, Fail> {
    let Ok(auto) = Auto::contents(alloc, grammar, 512) else {
        return Err(Fail::from("states"));
    };
    let alphabet = alphabet_of(alloc, grammar)?;
    answer_by(alloc, &auto, &alphabet, text, size)
}

/// Asserts that a text has this answer for a schema in pieces of each of these sizes.
pub(crate) fn assert_answer(
    rt: &impl Abort,
    alloc: Global,
    grammar: &Grammar<'_>,
    text: &[u8],
    sizes: &[usize],
    answer: Answer,
) -> Result<(), Fail> {
    let start = &text[..text.len().min(200)];
    for size in sizes {
        let found = in_pieces(alloc, grammar, text, *size)?;
        assert_eq!(rt; found, answer, "{size} {} {start:?}", text.len());
    }
    Ok(())
}

/// The answer of a whole text with this root, for a schema of `a` with anything in it.
fn answer_of_root(root: &Raw<'_>) -> Result<Answer, Fail> {
    match root {
        Raw::Elem(root) => Ok(if root.name.uri == "" && root.name.local == "a" {
            Answer::Valid
        } else {
            Answer::Invalid
        }),
        Raw::Text(_, _) => Err(Fail::from("an element")),
    }
}

/// The answer of a whole text that is none.
fn answer_of_fault(fault: XmlFault) -> Result<Answer, Fail> {
    match fault {
        XmlFault::Malformed(place) => Ok(Answer::Fault(StreamFault::Malformed(place))),
        XmlFault::Unsupported(place, why) => {
            Ok(Answer::Fault(StreamFault::Unsupported(place, why)))
        }
        XmlFault::TooDeep(place) => Ok(Answer::Fault(StreamFault::TooDeep(place))),
        XmlFault::NoMemory => Err(Fail::from("memory")),
    }
}

/// The answer of a whole text, for a schema of `a` with anything in it.
pub(crate) fn whole(alloc: Global, text: &[u8]) -> Result<Answer, Fail> {
    if text.len() > LONGEST {
        return Err(Fail::from("a short text"));
    }
    let arena = Bump::new(alloc);
    match read_raw(&arena, text) {
        Ok(root) => answer_of_root(&root),
        Err(fault) => answer_of_fault(fault),
    }
}

/// A text of a front, so many of a middle, and a back.
pub(crate) fn repeated(
    alloc: Global,
    front: &str,
    middle: &str,
    times: u32,
    back: &str,
) -> Result<String, Fail> {
    let mut text = String::from_str(alloc, front)?;
    for _ in 0..times {
        text.push_str(middle)?;
    }
    text.push_str(back)?;
    Ok(text)
}

/// A text inside so many nested elements.
pub(crate) fn nested(
    alloc: Global,
    begin: &str,
    inside: &str,
    end: &str,
    depth: u32,
) -> Result<String, Fail> {
    let front = repeated(alloc, "", begin, depth, inside)?;
    repeated(alloc, front.as_str(), end, depth, "")
}
