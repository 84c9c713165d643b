// Tags in content that stand whole at the front of a text: they are read where they stand (XML 1.0, 3.1).
ghost use Rattle.std.specs.Prelude.{◌≡◌, ◌<◌, ◌≤◌, ◌++◌, ◌∷◌, ℕ, List, length, IfOk, IfErr, IfSome};
ghost use Rattle.std.specs.List.{prefix_len};
ghost use Rattle.tc_base.specs.declared.limits.TheConstants.{DEEPEST_NESTING, LONGEST_FILE};
ghost use Rattle.tc_model.specs.Grammars as g;
ghost use Rattle.tc_model.specs.XmlTextReferences.{is_plain};
ghost use Rattle.tc_stream.specs.Faults.{IsFaultOfFront};
ghost use Rattle.tc_stream.specs.Keeps.{IsReady};
ghost use Rattle.tc_stream.specs.Named.{IsStartOf, IsTagOf};
ghost use Rattle.tc_stream.specs.Reading.{FaultsOn, IsOpen, ReadsOn};
ghost use Rattle.tc_stream.specs.Stands.{IsReading};
ghost use Rattle.tc_stream.specs.TagStands.{IsStartTag, StandsBehind, TagStands};
ghost use Rattle.tc_stream.specs.WholeTags.{IsEndOf, IsPlainEnd};

use crate::elements::Elements;
use crate::faults::StreamFault;
use crate::reader::Reader;
use crate::reading::place_of;
use crate::tag_reading::{Scanned, no_element_fault, scan_tag, start};
use tc_base::limits::LONGEST_TAG;
use tc_scan::{after_byte, after_mark, first_char, is_ncname_start, ncname};

/// A start tag or an empty-element tag that stands whole at the front: how many bytes it has, and its name if it is a
/// local name alone.
#[derive(Clone, Copy)]
struct WholeStart<'t> {
    count: usize,
    named: Option<&'t str>,
}

/// What follows these bytes, where others begin with them.
fn after_bytes<'t>(bytes: &'t [u8], front: &[u8]) -> Option<&'t [u8]>
    ensures { IfSome result (λ rest. bytes.now ≡ front.now ++ rest.now) }
{
    if bytes.starts_with(front) {
        Some(&bytes[front.len()..])
    } else {
        None
    }
}

/// How many bytes the end tag at the front has, if it is that of an element whose name is written so, and nothing stands
/// behind the name.
fn plain_end(text: &str, name: &[u8]) -> Option<usize>
    ensures { IfSome result (IsPlainEnd name.now text.now) }
{
    let start = after_mark(text, "</")?.as_bytes();
    let behind = after_bytes(start, name)?;
    if behind.is_empty() || name.len() > LONGEST_TAG - 3 {
        return None;
    }
    if behind[0] == b'>' {
        Some(name.len() + 3)
    } else {
        None
    }
}

/// The start tag or empty-element tag at the front, if it ends there and isn't too long.
fn any_start(text: &str) -> Option<WholeStart<'_>>
    ensures { IfSome result (IsStartOf text.now) }
{
    let (first, _) = first_char(after_byte(text, b'<')?)?;
    if !is_ncname_start(first) {
        return None;
    }
    match scan_tag(None, text.as_bytes()) {
        Scanned::Within(_) => None,
        Scanned::Ended(count) => {
            if count > LONGEST_TAG || count <= 1 + first.len_utf8() {
                return None;
            }
            Some(WholeStart { count, named: None })
        }
    }
}

/// The start tag at the front, if it is a name without a prefix and nothing else.
fn named_start(text: &str) -> Option<WholeStart<'_>>
    ensures { IfSome result (IsStartOf text.now) }
{
    let (name, behind) = ncname(after_byte(text, b'<')?)?;
    let _inside = after_byte(behind, b'>')?;
    let count = name.len() + 2;
    if count > LONGEST_TAG {
        return None;
    }
    Some(WholeStart {
        count,
        named: Some(name),
    })
}

/// Goes into the element whose tag this is, by its name if it is a local name alone.
fn start_by(
    elements: &mut Elements<'_>,
    tag: &str,
    named: Option<&str>,
    begun: u32,
) -> Result<(), StreamFault>
    requires ready { IsReady elements.old }
    requires room { length elements.old.levels.items < DEEPEST_NESTING }
    requires low { begun ≤ LONGEST_FILE }
    requires short { length tag.now ≤ LONGEST_TAG }
    requires named { IfSome named (λ name. IsTagOf name.now tag.now) }
    ensures ready { IfOk result (λ _. IsReady elements.new) }
    ensures ok { (x : g.Grammar) (chars : List ℕ) → IsStartTag tag.now
        → TagStands x elements.old begun tag.now chars
        → IfOk result (λ _. StandsBehind x elements.new chars) }
    ensures fault { (x : g.Grammar) (chars : List ℕ) → IsStartTag tag.now
        → TagStands x elements.old begun tag.now chars
        → IfErr result (λ e. IsFaultOfFront chars e) }
{
    match named {
        Some(name) => match elements.enter_named(name) {
            Ok(()) => Ok(()),
            Err(reason) => Err(no_element_fault(reason, begun)),
        },
        None => start(elements, tag, begun),
    }
}

impl Reader<'_> {
    /// How many bytes the end tag of the innermost element has at the front, where nothing stands behind its name.
    fn end_at(&self, text: &str) -> Option<usize>
        ensures { IfSome result (IsEndOf self.now.elements text.now) }
    {
        plain_end(text, self.elements.name())
    }

    /// The start tag or empty-element tag at the front, if it ends there and isn't too long, and an element may stand
    /// within those that are open.
    fn start_at<'t>(&self, text: &'t str) -> Option<WholeStart<'t>>
        ensures tag { IfSome result (IsStartOf text.now) }
        ensures room { IfSome result
            (λ _. length self.now.elements.levels.items < DEEPEST_NESTING) }
    {
        if self.elements.is_full() {
            return None;
        }
        match named_start(text) {
            Some(start) => Some(start),
            None => any_start(text),
        }
    }

    /// Goes out of the innermost element, whose end tag is the first so many bytes, and gives what follows.
    fn pass_end<'t>(&mut self, text: &'t str, count: usize) -> &'t str
        requires ready { IsReading self.old }
        requires open_here { IsOpen self.old }
        requires tag { IsEndOf self.old.elements text.now count }
        ensures reads { (end : ℕ) → ReadsOn self.old self.new text.now result.now end }
        ensures less { length result.now < length text.now }
    {
        let (_, rest) = text.split_at(count);
        self.elements.end();
        self.leave_tag();
        rest
    }

    /// Goes into the element whose start tag or empty-element tag stands at the front, and gives what follows.
    fn pass_start<'t>(
        &mut self,
        text: &'t str,
        end: u32,
        tag: &WholeStart<'_>,
    ) -> Result<&'t str, StreamFault>
        requires ready { IsReading self.old }
        requires open_here { IsOpen self.old }
        requires tag { IsStartOf text.now tag.now }
        requires room { length self.old.elements.levels.items < DEEPEST_NESTING }
        requires within { length text.now ≤ end }
        requires low { end ≤ LONGEST_FILE }
        ensures ok { IfOk result (λ rest. ReadsOn self.old self.new text.now rest.now end) }
        ensures less { IfOk result (λ rest. length rest.now < length text.now) }
        ensures fault { IfErr result (λ e. FaultsOn self.old text.now end e) }
    {
        let (front, rest) = text.split_at(tag.count);
        start_by(&mut self.elements, front, tag.named, place_of(end, text))?;
        self.leave_tag();
        Ok(rest)
    }

    /// Reads a start tag or an empty-element tag that stands whole at the front, or begins an item with a `<` in content.
    fn begin_start<'t>(&mut self, text: &'t str, end: u32) -> Result<&'t str, StreamFault>
        requires ready { IsReading self.old }
        requires open_here { IsOpen self.old }
        requires bare { prefix_len is_plain text.now ≡ 0 }
        requires no_reference { (r : List ℕ) → text.now ≡ 0x26 ∷ r → ⊥ }
        requires some { 0 < length text.now }
        requires within { length text.now ≤ end }
        requires low { end ≤ LONGEST_FILE }
        ensures ok { IfOk result (λ rest. ReadsOn self.old self.new text.now rest.now end) }
        ensures less { IfOk result (λ rest. length rest.now < length text.now) }
        ensures fault { IfErr result (λ e. FaultsOn self.old text.now end e) }
    {
        match self.start_at(text) {
            Some(tag) => self.pass_start(text, end, &tag),
            None => self.begin_markup(text, end),
        }
    }

    /// Reads a tag that stands whole at the front, or begins an item with a `<` in content.
    pub(crate) fn begin_item<'t>(&mut self, text: &'t str, end: u32) -> Result<&'t str, StreamFault>
        requires ready { IsReading self.old }
        requires open_here { IsOpen self.old }
        requires bare { prefix_len is_plain text.now ≡ 0 }
        requires no_reference { (r : List ℕ) → text.now ≡ 0x26 ∷ r → ⊥ }
        requires some { 0 < length text.now }
        requires within { length text.now ≤ end }
        requires low { end ≤ LONGEST_FILE }
        ensures ok { IfOk result (λ rest. ReadsOn self.old self.new text.now rest.now end) }
        ensures less { IfOk result (λ rest. length rest.now < length text.now) }
        ensures fault { IfErr result (λ e. FaultsOn self.old text.now end e) }
    {
        match self.end_at(text) {
            Some(count) => Ok(self.pass_end(text, count)),
            None => self.begin_start(text, end),
        }
    }
}
