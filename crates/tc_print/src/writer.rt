// Trees that are taken piece by piece, and written in normal form meanwhile (XSLT 1.0, 3.4 and 16.1).
// No tree is made. What is held back is the end of a start tag, until it is known whether anything stands in the element, and white
// space, until it is known whether a text goes on behind it.
ghost use Rattle.std.specs.Prelude.{◌≡◌, ◌++◌, Some, false, IfOk, OnOk};
ghost use Rattle.std.specs.List.{flat_map};
ghost use Rattle.tc_model.specs.Printed.{default_within, escaped_in_text, printed, tag_name};
ghost use Rattle.tc_model.specs.Trees.{Trees, normal_form};
ghost use Rattle.tc_model.specs.Views.{name as see_name};
ghost use Rattle.tc_print.specs.Pieces.{begun_tag};
ghost use Rattle.tc_print.specs.Writing as w;
ghost use Rattle.tc_print.specs.Writing.{written_by};

use crate::escapes::{Within, write_escaped};
use crate::tags::{begin_tag, write_tag_name};
use std::alloc::Global;
use tc_base::NoMemory;
use tc_io::{Sink, WriteFault};
use tc_model::{Name, is_white_space_only};

/// Bytes in memory, which grow.
#[derive(Drop)]
struct Bytes {
    bytes: Vec<u8>,
    refusals: u64,
}

impl Sink for Bytes {
    ghost written = { λ buffer. Some buffer.bytes.items };

    ghost faults = { λ buffer. buffer.refusals };

    // Nobody asks which writes there were.
    ghost write_gives = { λ _ _ _ _. Unit {0} };

    fn write(&mut self, piece: &[u8]) -> Result<(), WriteFault> {
        if self.bytes.extend_from_slice(piece).is_err() {
            self.refusals = self.refusals.saturating_add(1);
            return Err(WriteFault);
        }
        Ok(())
    }
}

/// Where what is written ends: in a start tag that lacks its end, in a text, or behind a tag.
#[derive(Clone, Copy)]
pub enum Spot {
    InTag,
    InText,
    Between,
}

/// Writes a text's characters, with references for those that may not stand for themselves.
fn put_escaped(buffer: &mut Bytes, text: &[u8]) -> Result<(), NoMemory>
    ensures { OnOk result
        (buffer.new.bytes.items ≡ buffer.old.bytes.items ++ flat_map escaped_in_text text.now) }
{
    match write_escaped(Within::Text, text, buffer) {
        Ok(()) => Ok(()),
        Err(WriteFault) => Err(NoMemory),
    }
}

/// Writes a start tag, but for its end, and gives the default namespace that is in force within the element.
fn put_start<'b>(buffer: &mut Bytes, default: &'b str, tag: &Name<'b>) -> Result<&'b str, NoMemory>
    ensures bytes { OnOk result
        (buffer.new.bytes.items
        ≡ buffer.old.bytes.items ++ begun_tag default.now (see_name tag.now)) }
    ensures within { IfOk result
        (λ within. within.now ≡ default_within default.now (see_name tag.now)) }
{
    match begin_tag(default, tag, buffer) {
        Ok(within) => Ok(within),
        Err(WriteFault) => Err(NoMemory),
    }
}

/// Writes the name in a tag.
fn put_name(buffer: &mut Bytes, tag: &Name<'_>) -> Result<(), NoMemory>
    ensures { OnOk result
        (buffer.new.bytes.items ≡ buffer.old.bytes.items ++ tag_name (see_name tag.now)) }
{
    match write_tag_name(tag, buffer) {
        Ok(()) => Ok(()),
        Err(WriteFault) => Err(NoMemory),
    }
}

/// Writes the end of an element, where what is written ends so.
fn put_end(buffer: &mut Bytes, spot: Spot, tag: &Name<'_>) -> Result<(), NoMemory>
    ensures { OnOk result
        (buffer.new.bytes.items
        ≡ buffer.old.bytes.items ++ w.element_closed spot (see_name tag.now)) }
{
    if let Spot::InTag = spot {
        buffer.bytes.extend_from_slice(b"/>")?;
        return Ok(());
    }
    buffer.bytes.extend_from_slice(b"</")?;
    put_name(buffer, tag)?;
    buffer.bytes.push(b'>')?;
    Ok(())
}

/// Takes trees piece by piece, and writes the text of their normal form into memory.
#[derive(Drop)]
pub struct Writer<'b> {
    buffer: Bytes,
    /// White space behind what is written, which is dropped unless text follows.
    white: Vec<u8>,
    spot: Spot,
    default: &'b str,
}

/// The law of written trees: the text that is written of them piece by piece is that of their normal form.
pub fn law_of_written_trees()
    ensures turns { w.WritesInTurn }
    ensures normal { w.WritesNormalForm }
{}

impl<'b> Writer<'b> {
    /// Nothing was taken.
    pub fn new(alloc: Global) -> Writer<'b>
        ensures { written_by result ≡ w.nothing_written }
    {
        Writer {
            buffer: Bytes {
                bytes: Vec::new(alloc),
                refusals: 0,
            },
            white: Vec::new(alloc),
            spot: Spot::Between,
            default: "",
        }
    }

    /// Ends the start tag that lacks its end, if there is one.
    fn close_tag(&mut self) -> Result<(), NoMemory>
        ensures bytes { OnOk result
            (self.new.buffer.bytes.items
            ≡ self.old.buffer.bytes.items ++ w.tag_closed self.old.spot) }
        ensures white { self.new.white ≡ self.old.white }
        ensures spot { self.new.spot ≡ self.old.spot }
        ensures default { self.new.default ≡ self.old.default }
    {
        if let Spot::InTag = self.spot {
            self.buffer.bytes.push(b'>')?;
        }
        Ok(())
    }

    /// Writes the first text of an element or behind one, and the white space before it.
    fn put_first(&mut self, text: &str) -> Result<(), NoMemory>
        ensures { OnOk result (written_by self.new
            ≡ w.with_first false text.now (written_by self.old)) }
    {
        self.close_tag()?;
        if !self.white.is_empty() {
            put_escaped(&mut self.buffer, &self.white)?;
            self.white.clear();
        }
        self.spot = Spot::InText;
        put_escaped(&mut self.buffer, text.as_bytes())
    }

    /// Takes a text.
    pub fn text(&mut self, text: &str) -> Result<(), NoMemory>
        ensures { OnOk result (written_by self.new ≡ w.with_text text.now (written_by self.old)) }
    {
        if let Spot::InText = self.spot {
            return put_escaped(&mut self.buffer, text.as_bytes());
        }
        if is_white_space_only(text) {
            self.white.extend_from_slice(text.as_bytes())?;
            return Ok(());
        }
        self.put_first(text)
    }

    /// Takes the start of an element, and gives the default namespace that is in force around it.
    pub fn start(&mut self, tag: &Name<'b>) -> Result<&'b str, NoMemory>
        ensures outside { IfOk result (λ outside. outside.now ≡ (written_by self.old).default) }
        ensures start { OnOk result (written_by self.new
            ≡ w.with_start (see_name tag.now) (written_by self.old)) }
    {
        self.close_tag()?;
        self.white.clear();
        self.spot = Spot::InTag;
        let outside = self.default;
        self.default = put_start(&mut self.buffer, outside, tag)?;
        Ok(outside)
    }

    /// Takes the end of an element, around which this default namespace is in force.
    pub fn end(&mut self, tag: &Name<'b>, outside: &'b str) -> Result<(), NoMemory>
        ensures { OnOk result (written_by self.new
            ≡ w.with_end (see_name tag.now) outside.now (written_by self.old)) }
    {
        put_end(&mut self.buffer, self.spot, tag)?;
        self.white.clear();
        self.spot = Spot::Between;
        self.default = outside;
        Ok(())
    }

    /// What was written: the text of the normal form of what was taken, where all elements have ended.
    pub fn into_bytes(self) -> Vec<u8>
        ensures bytes { result.items ≡ (written_by self.entry).bytes }
        ensures printed { (h : Trees) → written_by self.entry ≡ w.with_trees w.nothing_written h
            → result.items ≡ printed (normal_form h) }
    {
        self.buffer.bytes
    }
}
