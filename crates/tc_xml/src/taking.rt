// A document, handed on piece by piece in normal form (XML 1.0, 3 and 3.1; XSLT 1.0, 3.4). Where anything is
// unusual this gives up, and what it gives is what the text means.
ghost use Rattle.std.specs.Prelude.{◌≡◌, ◌≢◌, ◌<◌, ◌≤◌, ◌∷◌, ◌++◌, [], ℕ, List, length, IfSome, string_bytes, encode_utf8, codes, IsTrue};
ghost use Rattle.tc_base.specs.declared.limits.TheConstants.{LONGEST_FILE};
ghost use Rattle.tc_model.specs.Events.{Takes, start as started, end as ended, events};
ghost use Rattle.tc_model.specs.RawTrees.{RawTrees, none};
ghost use Rattle.tc_model.specs.Runs.{run_text};
ghost use Rattle.tc_model.specs.Stripped.{stripped};
ghost use Rattle.tc_model.specs.Views.{name as seen_name};
ghost use Rattle.tc_model.specs.XmlText.{XmlText, deepest_element};
ghost use Rattle.tc_model.specs.XmlTextMisc as misc;
ghost use Rattle.tc_model.specs.XmlTextBytes as bytes;
ghost use Rattle.tc_model.specs.XmlTextContent as xml;
ghost use Rattle.tc_model.specs.XmlTextNames.{QNameAt};
ghost use Rattle.tc_scan.specs.Views.{written_name};
ghost use Rattle.tc_xml.specs.Bindings.{TakesBack, now_bound};
ghost use Rattle.tc_xml.specs.Reading.{EndTagAt, SmallItemAt};
ghost use Rattle.tc_xml.specs.Spelled.{AreRight};
ghost use Rattle.tc_xml.specs.Taking.{Took, StandsAt, StandsAfter, Finished, IsWithin, waiting};

use crate::character_data::{clear_data, guarded_data};
use crate::content::{after_end_tag, begins};
use crate::document::before_root;
use crate::levels::{Levels, Open};
use crate::misc::{after_comment, after_instruction, after_misc, cdata};
use crate::references::{push_lines, reference};
use crate::spelled::after_name;
use bumpalo::Bump;
use memchr::memchr;
use std::mem;
use tc_base::NoMemory;
use tc_model::normal::{Run, extended, text_of};
use tc_model::{Name, TakesTrees, is_white_space_only};
use tc_scan::{QualifiedName, after_byte, characters};

/// How many bytes more than twice its length a copy of characters has room for.
const ROOM: usize = 64;

/// What takes a document's trees, and the run of characters that isn't handed on yet.
#[derive(Drop)]
struct Reader<'b, T> {
    arena: &'b Bump,
    taker: T,
    run: Run<'b>,
}

/// A copy of characters, with room for about as many more.
fn copy_of<'b>(arena: &'b Bump, text: &str) -> Option<String<&'b Bump>>
    ensures { IfSome result (λ s. string_bytes s ≡ text.now) }
{
    let room = text.len().saturating_mul(2).saturating_add(ROOM);
    let mut copy = String::with_capacity(arena, room).ok()?;
    copy.push_str(text).ok()?;
    Some(copy)
}

/// The characters of a run, to which more may be added.
fn open_run<'b>(arena: &'b Bump, run: Run<'b>) -> Option<String<&'b Bump>>
    ensures { IfSome result (λ s. string_bytes s ≡ run_text run.entry) }
{
    match run {
        Run::Nothing => Some(String::new(arena)),
        Run::One(text) => copy_of(arena, text),
        Run::Many(text) => Some(text),
    }
}

/// A run with more characters, each line end as LF (XML 1.0, 2.11).
fn with_characters<'b>(arena: &'b Bump, run: Run<'b>, more: &'b str) -> Option<Run<'b>>
    ensures { IfSome result (λ r. run_text r ≡ run_text run.entry ++ bytes.line_ends more.now) }
{
    let Some(_) = memchr(b'\r', more.as_bytes()) else {
        return match extended(arena, run, more) {
            Ok(run) => Some(run),
            Err(NoMemory) => None,
        };
    };
    let mut text = open_run(arena, run)?;
    match push_lines(&mut text, more) {
        Ok(()) => Some(Run::Many(text)),
        Err(NoMemory) => None,
    }
}

/// A run with one more character.
fn with_character<'b>(arena: &'b Bump, run: Run<'b>, more: char) -> Option<Run<'b>>
    ensures { IfSome result (λ r. run_text r ≡ run_text run.entry ++ encode_utf8 more) }
{
    let mut text = open_run(arena, run)?;
    match text.push(more) {
        Ok(()) => Some(Run::Many(text)),
        Err(_) => None,
    }
}

/// Takes the characters of a run away.
fn taken<'b>(run: &mut Run<'b>) -> &'b str
    ensures text { result.now ≡ run_text run.old }
    ensures none { run_text run.new ≡ [] }
{
    match run {
        Run::Nothing => "",
        Run::One(text) => {
            let whole = *text;
            *run = Run::Nothing;
            whole
        }
        Run::Many(_) => text_of(mem::replace(run, Run::Nothing)),
    }
}

/// Hands on the run, unless it is white space alone.
#[inline(always)]
fn end_run<'b, T: TakesTrees<'b>>(reader: &mut Reader<'b, T>) -> Option<()>
    ensures taken { IfSome result (λ _. Takes T.takes reader.old.taker
        (waiting (run_text reader.old.run) none) reader.new.taker) }
    ensures ended { IfSome result (λ _. run_text reader.new.run ≡ []) }
{
    let text = taken(&mut reader.run);
    if is_white_space_only(text) {
        return Some(());
    }
    reader.taker.text(text)
}

/// Adds characters to the run.
fn add_characters<'b, T: TakesTrees<'b>>(reader: &mut Reader<'b, T>, more: &'b str) -> Option<()>
    ensures taker { IfSome result (λ _. reader.new.taker ≡ reader.old.taker) }
    ensures run { IfSome result (λ _. run_text reader.new.run ≡ run_text reader.old.run
        ++ bytes.line_ends more.now) }
{
    let run = mem::replace(&mut reader.run, Run::Nothing);
    reader.run = with_characters(reader.arena, run, more)?;
    Some(())
}

/// Adds characters that stand for themselves to the run.
fn add_clear<'b, T: TakesTrees<'b>>(reader: &mut Reader<'b, T>, more: &'b str) -> Option<()>
    ensures taker { IfSome result (λ _. reader.new.taker ≡ reader.old.taker) }
    ensures run { IfSome result
        (λ _. run_text reader.new.run ≡ run_text reader.old.run ++ more.now) }
{
    if let Run::Nothing = reader.run {
        reader.run = Run::One(more);
        return Some(());
    }
    let run = mem::replace(&mut reader.run, Run::Nothing);
    let Ok(run) = extended(reader.arena, run, more) else {
        return None;
    };
    reader.run = run;
    Some(())
}

/// Adds a character to the run.
fn add_character<'b, T: TakesTrees<'b>>(reader: &mut Reader<'b, T>, more: char) -> Option<()>
    ensures taker { IfSome result (λ _. reader.new.taker ≡ reader.old.taker) }
    ensures run { IfSome result (λ _. run_text reader.new.run ≡ run_text reader.old.run
        ++ encode_utf8 more) }
{
    let run = mem::replace(&mut reader.run, Run::Nothing);
    reader.run = with_character(reader.arena, run, more)?;
    Some(())
}

/// Takes the reference or the character data at the front, and gives what follows.
fn text_item<'b, T: TakesTrees<'b>>(
    reader: &mut Reader<'b, T>,
    total: usize,
    text: &'b str,
) -> Option<&'b str>
    ensures { IfSome result (λ rest. (p : xml.Piece) × SmallItemAt total text.now p rest.now
        × Took T.takes reader.old.taker (run_text reader.old.run) p reader.new.taker
        (run_text reader.new.run)) }
{
    if begins(text, b'&') {
        let Ok((character, rest)) = reference(text) else {
            return None;
        };
        add_character(reader, character)?;
        return Some(rest);
    }
    if let Some((run, rest)) = clear_data(text) {
        add_clear(reader, run)?;
        return Some(rest);
    }
    let (run, rest) = guarded_data(text)?;
    add_characters(reader, run)?;
    Some(rest)
}

/// Takes the comment or the CDATA section at the front, and gives what follows.
fn marked_item<'b, T: TakesTrees<'b>>(
    reader: &mut Reader<'b, T>,
    total: usize,
    text: &'b str,
) -> Option<&'b str>
    ensures { IfSome result (λ rest. (p : xml.Piece) × SmallItemAt total text.now p rest.now
        × Took T.takes reader.old.taker (run_text reader.old.run) p reader.new.taker
        (run_text reader.new.run)) }
{
    if let Some(rest) = after_comment(text) {
        return Some(rest);
    }
    let (inside, rest) = cdata(text)?;
    add_characters(reader, inside)?;
    Some(rest)
}

/// Hands on the run, and the start of an element with this name.
fn start_element<'b, T: TakesTrees<'b>>(reader: &mut Reader<'b, T>, name: Name<'b>) -> Option<()>
    ensures taken { IfSome result (λ _. Takes T.takes reader.old.taker
        (waiting (run_text reader.old.run) none
        ++ started (seen_name name.entry) ∷ []) reader.new.taker) }
    ensures ended { IfSome result (λ _. run_text reader.new.run ≡ []) }
{
    end_run(reader)?;
    reader.taker.start(name)
}

/// Hands on the end of an element, around which so many declarations are in scope, and takes back those in it.
#[inline(always)]
fn leave<'b, T: TakesTrees<'b>>(
    reader: &mut Reader<'b, T>,
    levels: &mut Levels<'b>,
    count: usize,
) -> Option<()>
    ensures taken { IfSome result (λ _. T.takes reader.old.taker ended reader.new.taker) }
    ensures run { reader.new.run ≡ reader.old.run }
    ensures bindings { IfSome result
        (λ _. TakesBack levels.old.bindings count levels.new.bindings) }
    ensures right { AreRight (now_bound levels.old.bindings) levels.old.spelled → IfSome result
        (λ _. AreRight (now_bound levels.new.bindings) levels.new.spelled) }
    ensures opens { levels.new.open.items ≡ levels.old.open.items }
    ensures depth { levels.new.depth ≡ levels.old.depth }
{
    reader.taker.end()?;
    levels.take_back(count)
}

/// What follows the end of an empty-element tag.
fn after_empty_end(text: &str) -> Option<&str>
    ensures { IfSome result (λ rest. text.now ≡ codes "/>" ++ rest.now) }
{
    after_byte(after_byte(text, b'/')?, b'>')
}

/// Takes the start tag or the empty-element tag at the front, and gives what follows it.
fn start_tag<'b, T: TakesTrees<'b>>(
    reader: &mut Reader<'b, T>,
    levels: &mut Levels<'b>,
    total: usize,
    text: &'b str,
) -> Option<&'b str>
    requires { total ≤ LONGEST_FILE }
    ensures steps { IfSome result (λ rest. (deepest : ℕ) (root : List ℕ) (begun : T)
        → StandsAt T.takes total deepest root begun levels.old text.now reader.old.taker
        (run_text reader.old.run)
        → StandsAfter T.takes total deepest root begun levels.new rest.now reader.new.taker
        (run_text reader.new.run)) }
    ensures shorter { IfSome result (λ rest. length rest.now < length text.now) }
{
    let outer_count = levels.bindings.count();
    let tag = levels.read_tag(reader.arena, text)?;
    start_element(reader, tag.name)?;
    if let Some(rest) = after_empty_end(tag.rest) {
        leave(reader, levels, outer_count)?;
        return Some(rest);
    }
    let inside = after_byte(tag.rest, b'>')?;
    enter(levels, tag.written, outer_count)?;
    Some(inside)
}

/// Goes into an element, around which so many declarations are in scope.
fn enter<'b>(levels: &mut Levels<'b>, written: QualifiedName<'b>, count: usize) -> Option<()>
    requires { 0 < levels.old.depth }
    ensures { IfSome result (λ _. IsWithin levels.old
        (written_name written.entry) count levels.new) }
{
    let open = Open {
        written,
        count,
        depth: levels.depth,
    };
    let Ok(()) = levels.open.push(open) else {
        return None;
    };
    levels.depth -= 1;
    Some(())
}

/// What follows the end tag that is the bytes of a name and no white space.
fn after_plain_end_tag<'t>(text: &'t str, name: &QualifiedName<'_>) -> Option<&'t str>
    ensures ends { IfSome result (λ r. (bs past : List ℕ) → QNameAt bs (written_name name.now) past
        → EndTagAt (written_name name.now) text.now r.now) }
    ensures shorter { IfSome result (λ r. length r.now < length text.now) }
{
    let end = after_byte(after_byte(text, b'<')?, b'/')?;
    after_byte(after_name(end, name)?, b'>')
}

/// What follows the end tag with the name of an element that has started, where one is at the front.
#[inline(always)]
fn after_end_of<'t>(text: &'t str, name: &QualifiedName<'_>) -> Option<&'t str>
    ensures ends { IfSome result (λ r. (bs past : List ℕ) → QNameAt bs (written_name name.now) past
        → EndTagAt (written_name name.now) text.now r.now) }
    ensures shorter { IfSome result (λ r. length r.now < length text.now) }
{
    match after_plain_end_tag(text, name) {
        Some(rest) => Some(rest),
        None => after_end_tag(text, name),
    }
}

/// Takes the end tag at the front, which ends the innermost element that has started, and gives what follows it.
fn end_tag<'b, T: TakesTrees<'b>>(
    reader: &mut Reader<'b, T>,
    levels: &mut Levels<'b>,
    total: usize,
    text: &'b str,
) -> Option<&'b str>
    requires { total ≤ LONGEST_FILE }
    ensures steps { IfSome result (λ rest. (deepest : ℕ) (root : List ℕ) (begun : T)
        → StandsAt T.takes total deepest root begun levels.old text.now reader.old.taker
        (run_text reader.old.run)
        → StandsAfter T.takes total deepest root begun levels.new rest.now reader.new.taker
        (run_text reader.new.run)) }
    ensures shorter { IfSome result (λ rest. length rest.now < length text.now) }
{
    let open = levels.open.pop()?;
    let rest = after_end_of(text, &open.written)?;
    end_run(reader)?;
    leave(reader, levels, open.count)?;
    levels.depth = open.depth;
    Some(rest)
}

/// Takes the item or the end tag at the front, where elements have started, and gives what follows it.
fn step<'b, T: TakesTrees<'b>>(
    reader: &mut Reader<'b, T>,
    levels: &mut Levels<'b>,
    total: usize,
    text: &'b str,
) -> Option<&'b str>
    requires total { total ≤ LONGEST_FILE }
    requires within { levels.old.open.items ≢ [] }
    ensures steps { IfSome result (λ rest. (deepest : ℕ) (root : List ℕ) (begun : T)
        → StandsAt T.takes total deepest root begun levels.old text.now reader.old.taker
        (run_text reader.old.run)
        → StandsAfter T.takes total deepest root begun levels.new rest.now reader.new.taker
        (run_text reader.new.run)) }
    ensures shorter { IfSome result (λ rest. length rest.now < length text.now) }
{
    let Some(markup) = after_byte(text, b'<') else {
        return text_item(reader, total, text);
    };
    if begins(markup, b'/') {
        return end_tag(reader, levels, total, text);
    }
    if begins(markup, b'!') {
        return marked_item(reader, total, text);
    }
    if begins(markup, b'?') {
        return after_instruction(text);
    }
    start_tag(reader, levels, total, text)
}

/// Takes the element at the front with all that stands in it, piece by piece, where none has started yet, and gives
/// what follows it.
fn past_elements<'b, T: TakesTrees<'b>>(
    reader: &mut Reader<'b, T>,
    levels: &mut Levels<'b>,
    total: usize,
    text: &'b str,
) -> Option<&'b str>
    requires { total ≤ LONGEST_FILE }
    ensures { IfSome result (λ rest. (deepest : ℕ) (root : List ℕ) (begun : T)
        → StandsAt T.takes total deepest root begun levels.old text.now reader.old.taker
        (run_text reader.old.run)
        → Finished T.takes total deepest root begun rest.now reader.new.taker) }
{
    let inside = start_tag(reader, levels, total, text)?;
    let mut rest = inside;
    'elements: while !levels.open.is_empty() {
        rest = step(reader, levels, total, rest)?;
    }
    Some(rest)
}

/// Whether nothing but misc follows (XML 1.0, 2.8).
fn is_misc(text: &str) -> bool
    ensures { IsTrue result → misc.MiscAt text.now [] }
{
    match after_misc(text) {
        Ok(end) => end.is_empty(),
        Err(_) => false,
    }
}

/// Takes the root element at the front, where nothing was taken yet, and gives what follows it.
fn take_root<'b, T: TakesTrees<'b>>(
    reader: &mut Reader<'b, T>,
    total: usize,
    root: &'b str,
) -> Option<&'b str>
    requires total { total ≤ LONGEST_FILE }
    requires run { run_text reader.old.run ≡ [] }
    ensures { IfSome result
        (λ rest. Finished T.takes total deepest_element root.now reader.old.taker rest.now
        reader.new.taker) }
{
    let mut levels = Levels::first(reader.arena)?;
    past_elements(reader, &mut levels, total, root)
}

/// Takes the document of a text, where nothing was taken yet.
fn take_text<'b, T: TakesTrees<'b>>(reader: &mut Reader<'b, T>, text: &'b [u8]) -> Option<()>
    requires total { length text.now ≤ LONGEST_FILE }
    requires run { run_text reader.old.run ≡ [] }
    ensures { IfSome result (λ _. (h : RawTrees) × XmlText text.now h
        × Takes T.takes reader.old.taker (events (stripped h)) reader.new.taker) }
{
    let front = characters(text);
    if front.len() != text.len() {
        return None;
    }
    let Ok(root) = before_root(front) else {
        return None;
    };
    let rest = take_root(reader, front.len(), root)?;
    if !is_misc(rest) {
        return None;
    }
    Some(())
}

/// What takes the document of a text, with all of it taken, piece by piece in normal form: where the text is read
/// and nothing in it is unusual. The pieces last as long as the text and the arena. Takes at most 64 MiB of text.
pub fn take_document<'b, T: TakesTrees<'b>>(arena: &'b Bump, text: &'b [u8], taker: T) -> Option<T>
    requires { length text.now ≤ LONGEST_FILE }
    ensures { IfSome result (λ new. (h : RawTrees) × XmlText text.now h
        × Takes T.takes taker (events (stripped h)) new) }
{
    let mut reader = Reader {
        arena,
        taker,
        run: Run::Nothing,
    };
    take_text(&mut reader, text)?;
    Some(reader.taker)
}
