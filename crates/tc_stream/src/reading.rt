// How a text goes on, item by item (XML 1.0, 2.1, 2.4 to 2.8, 3.1).
ghost use Rattle.std.specs.Prelude.{◌≡◌, ◌≢◌, ◌<◌, ◌≤◌, ◌+◌, ◌-◌, ◌++◌, ◌∷◌, ℕ, List, [], length, replicate, take, IfOk, IfErr, IsTrue, OnOk};
ghost use Rattle.std.specs.List.{prefix_len};
ghost use Rattle.tc_base.specs.declared.limits.TheConstants.{LONGEST_FILE};
ghost use Rattle.tc_model.specs.Trees as t;
ghost use Rattle.tc_model.specs.XmlTextBytes as xml;
ghost use Rattle.tc_model.specs.XmlTextReferences.{is_plain};
ghost use Rattle.tc_stream.specs.Reading.{FaultsOn, IsOpen, ReadsOn, TakesText, past_mark};
ghost use Rattle.tc_stream.specs.Scans.{before, cdata_scan, going};
ghost use Rattle.tc_stream.specs.Stands.{IsReading};

use crate::ends::{Ended, cdata_end, comment_end, data_end, instruction_end, run_at};
use crate::faults::StreamFault;
use crate::items::is_section_white;
use crate::parts::Part;
use crate::phases::Phase;
use crate::reader::Reader;
use crate::references::Reference;
use tc_base::Place;
use tc_model::is_white_space_only;
use tc_scan::{after_byte, after_mark, after_white};

/// The place behind which a text stands whose end is at a place.
pub(crate) fn place_of(end: u32, text: &str) -> u32
    requires { length text.now ≤ end }
    ensures { result ≡ end - length text.now }
{
    end - text.len() as u32
}

/// The fault of a text that is malformed at a place.
pub(crate) fn malformed(place: u32) -> StreamFault
    ensures { result ≡ StreamFault.Malformed (record { 0 = place }) }
{
    StreamFault::Malformed(Place(place))
}

/// What is read where a byte order mark may no longer come.
fn without_mark(phase: Phase) -> Phase
    ensures { result ≡ past_mark phase }
{
    match phase {
        Phase::Mark => Phase::Front,
        Phase::Front => Phase::Front,
        Phase::Prolog => Phase::Prolog,
        Phase::Root => Phase::Root,
        Phase::Content => Phase::Content,
        Phase::End => Phase::End,
    }
}

impl Reader<'_> {
    /// Reads a text of characters of XML, behind which is a place of the whole.
    pub(crate) fn read_all(&mut self, text: &str, end: u32) -> Result<(), StreamFault>
        requires ready { IsReading self.old }
        requires within { length text.now ≤ end }
        requires low { end ≤ LONGEST_FILE }
        ensures ok { IfOk result (λ _. ReadsOn self.old self.new text.now [] end) }
        ensures fault { IfErr result (λ e. FaultsOn self.old text.now end e) }
    {
        let mut rest = text;
        while !rest.is_empty() {
            rest = self.read(rest, end)?;
        }
        Ok(())
    }

    /// Reads something of a text, and gives what follows.
    fn read<'t>(&mut self, text: &'t str, end: u32) -> Result<&'t str, StreamFault>
        requires ready { IsReading self.old }
        requires some { 0 < length text.now }
        requires within { length text.now ≤ end }
        requires low { end ≤ LONGEST_FILE }
        ensures ok { IfOk result (λ rest. ReadsOn self.old self.new text.now rest.now end) }
        ensures less { IfOk result (λ rest. length rest.now < length text.now) }
        ensures fault { IfErr result (λ e. FaultsOn self.old text.now end e) }
    {
        match self.part {
            Part::Between => self.read_between(text, end),
            Part::Data(brackets) => self.read_data(text, end, brackets),
            Part::Comment(hyphens) => self.read_comment(text, hyphens),
            Part::Instruction(question) => self.read_instruction(text, question),
            Part::Cdata(brackets) => self.read_cdata(text, brackets),
            Part::Tag(quote) => self.read_tag(text, quote),
            Part::EndTag => self.read_end_tag(text),
            _ => {
                let part = self.part;
                self.read_char(part, text, end)
            }
        }
    }

    /// Reads what stands between two items, or begins one.
    fn read_between<'t>(&mut self, text: &'t str, end: u32) -> Result<&'t str, StreamFault>
        requires ready { IsReading self.old }
        requires part { self.old.part ≡ Part.Between }
        requires some { 0 < length text.now }
        requires within { length text.now ≤ end }
        requires low { end ≤ LONGEST_FILE }
        ensures ok { IfOk result (λ rest. ReadsOn self.old self.new text.now rest.now end) }
        ensures less { IfOk result (λ rest. length rest.now < length text.now) }
        ensures fault { IfErr result (λ e. FaultsOn self.old text.now end e) }
    {
        match self.phase {
            Phase::Content => self.begin_data(text, end),
            Phase::Mark => self.read_front(text, end),
            _ => self.read_misc(text, end),
        }
    }

    /// Reads a byte order mark, or what stands where none does.
    fn read_front<'t>(&mut self, text: &'t str, end: u32) -> Result<&'t str, StreamFault>
        requires ready { IsReading self.old }
        requires part { self.old.part ≡ Part.Between }
        requires front { self.old.phase ≡ Phase.Mark }
        requires some { 0 < length text.now }
        requires within { length text.now ≤ end }
        requires low { end ≤ LONGEST_FILE }
        ensures ok { IfOk result (λ rest. ReadsOn self.old self.new text.now rest.now end) }
        ensures less { IfOk result (λ rest. length rest.now < length text.now) }
        ensures fault { IfErr result (λ e. FaultsOn self.old text.now end e) }
    {
        match after_mark(text, "\u{FEFF}") {
            Some(rest) => {
                self.phase = Phase::Front;
                Ok(rest)
            }
            None => self.read_misc(text, end),
        }
    }

    /// Reads what stands around the root element: white space, the `<` of an item.
    fn read_misc<'t>(&mut self, text: &'t str, end: u32) -> Result<&'t str, StreamFault>
        requires ready { IsReading self.old }
        requires part { self.old.part ≡ Part.Between }
        requires around { self.old.phase ≢ Phase.Content }
        requires no_mark { self.old.phase ≡ Phase.Mark → (r : List ℕ) → text.now
            ≡ 0xEF ∷ 0xBB ∷ 0xBF ∷ r → ⊥ }
        requires some { 0 < length text.now }
        requires within { length text.now ≤ end }
        requires low { end ≤ LONGEST_FILE }
        ensures ok { IfOk result (λ rest. ReadsOn self.old self.new text.now rest.now end) }
        ensures less { IfOk result (λ rest. length rest.now < length text.now) }
        ensures fault { IfErr result (λ e. FaultsOn self.old text.now end e) }
    {
        let rest = after_white(text);
        let left = rest.len();
        if left < text.len() {
            self.phase = without_mark(self.phase).past_front();
            return Ok(rest);
        }
        self.begin_misc(text, end)
    }

    /// Begins an item with a `<` around the root element.
    fn begin_misc<'t>(&mut self, text: &'t str, end: u32) -> Result<&'t str, StreamFault>
        requires ready { IsReading self.old }
        requires part { self.old.part ≡ Part.Between }
        requires around { self.old.phase ≢ Phase.Content }
        requires no_mark { self.old.phase ≡ Phase.Mark → (r : List ℕ) → text.now
            ≡ 0xEF ∷ 0xBB ∷ 0xBF ∷ r → ⊥ }
        requires bare { length text.now ≤ length (xml.after_white text.now) }
        requires some { 0 < length text.now }
        requires within { length text.now ≤ end }
        requires low { end ≤ LONGEST_FILE }
        ensures ok { IfOk result (λ rest. ReadsOn self.old self.new text.now rest.now end) }
        ensures less { IfOk result (λ rest. length rest.now < length text.now) }
        ensures fault { IfErr result (λ e. FaultsOn self.old text.now end e) }
    {
        let place = place_of(end, text);
        match after_byte(text, b'<') {
            Some(rest) => {
                self.phase = without_mark(self.phase);
                self.begun = place;
                self.part = Part::Markup;
                Ok(rest)
            }
            None => Err(malformed(place)),
        }
    }

    /// Begins a run of character data, or another item, in content.
    fn begin_data<'t>(&mut self, text: &'t str, end: u32) -> Result<&'t str, StreamFault>
        requires ready { IsReading self.old }
        requires part { self.old.part ≡ Part.Between }
        requires content { self.old.phase ≡ Phase.Content }
        requires some { 0 < length text.now }
        requires within { length text.now ≤ end }
        requires low { end ≤ LONGEST_FILE }
        ensures ok { IfOk result (λ rest. ReadsOn self.old self.new text.now rest.now end) }
        ensures less { IfOk result (λ rest. length rest.now < length text.now) }
        ensures fault { IfErr result (λ e. FaultsOn self.old text.now end e) }
    {
        let front = run_at(text);
        let count = front.count;
        if count == 0 {
            return self.begin_reference(text, end);
        }
        let (run, rest) = text.split_at(count);
        self.begun = place_of(end, text);
        self.read_run(run, 0, front.is_clear)?;
        self.read_behind(rest, end)
    }

    /// Reads what stands behind a run of character data, unless nothing does: a reference, or an item with a `<`.
    fn read_behind<'t>(&mut self, text: &'t str, end: u32) -> Result<&'t str, StreamFault>
        requires ready { IsReading self.old }
        requires open_here { IsOpen self.old }
        requires bare { prefix_len is_plain text.now ≡ 0 }
        requires within { length text.now ≤ end }
        requires low { end ≤ LONGEST_FILE }
        ensures ok { IfOk result (λ rest. ReadsOn self.old self.new text.now rest.now end) }
        ensures less { IfOk result (λ rest. length rest.now ≤ length text.now) }
        ensures fault { IfErr result (λ e. FaultsOn self.old text.now end e) }
    {
        if text.is_empty() {
            return Ok(text);
        }
        self.begin_reference(text, end)
    }

    /// Reads on in character data that ends with so many closing brackets, or begins another item.
    fn read_data<'t>(
        &mut self,
        text: &'t str,
        end: u32,
        brackets: u8,
    ) -> Result<&'t str, StreamFault>
        requires ready { IsReading self.old }
        requires part { self.old.part ≡ Part.Data brackets }
        requires some { 0 < length text.now }
        requires within { length text.now ≤ end }
        requires low { end ≤ LONGEST_FILE }
        ensures ok { IfOk result (λ rest. ReadsOn self.old self.new text.now rest.now end) }
        ensures less { IfOk result (λ rest. length rest.now < length text.now) }
        ensures fault { IfErr result (λ e. FaultsOn self.old text.now end e) }
    {
        let front = run_at(text);
        let count = front.count;
        if count == 0 {
            return self.begin_reference(text, end);
        }
        let (run, rest) = text.split_at(count);
        self.read_run(run, brackets, front.is_clear)?;
        self.read_behind(rest, end)
    }

    /// Begins a reference, or an item with a `<`, in content.
    fn begin_reference<'t>(&mut self, text: &'t str, end: u32) -> Result<&'t str, StreamFault>
        requires ready { IsReading self.old }
        requires open_here { IsOpen self.old }
        requires bare { prefix_len is_plain text.now ≡ 0 }
        requires some { 0 < length text.now }
        requires within { length text.now ≤ end }
        requires low { end ≤ LONGEST_FILE }
        ensures ok { IfOk result (λ rest. ReadsOn self.old self.new text.now rest.now end) }
        ensures less { IfOk result (λ rest. length rest.now < length text.now) }
        ensures fault { IfErr result (λ e. FaultsOn self.old text.now end e) }
    {
        match after_byte(text, b'&') {
            Some(rest) => {
                self.begun = place_of(end, text);
                self.part = Part::Reference(Reference::Begun);
                Ok(rest)
            }
            None => self.begin_item(text, end),
        }
    }

    /// Begins an item with a `<` in content.
    pub(crate) fn begin_markup<'t>(
        &mut self,
        text: &'t str,
        end: u32,
    ) -> Result<&'t str, StreamFault>
        requires ready { IsReading self.old }
        requires open_here { IsOpen self.old }
        requires bare { prefix_len is_plain text.now ≡ 0 }
        requires no_reference { (r : List ℕ) → text.now ≡ 0x26 ∷ r → ⊥ }
        requires some { 0 < length text.now }
        requires within { length text.now ≤ end }
        requires low { end ≤ LONGEST_FILE }
        ensures ok { IfOk result (λ rest. ReadsOn self.old self.new text.now rest.now end) }
        ensures less { IfOk result (λ rest. length rest.now < length text.now) }
        ensures fault { IfErr result (λ e. FaultsOn self.old text.now end e) }
    {
        let place = place_of(end, text);
        match after_byte(text, b'<') {
            Some(rest) => {
                self.begun = place;
                self.part = Part::Markup;
                Ok(rest)
            }
            None => Err(malformed(place)),
        }
    }

    /// Reads a run of character data behind so many closing brackets. A clear one is seen to have none.
    fn read_run(&mut self, run: &str, brackets: u8, is_clear: bool) -> Result<(), StreamFault>
        requires few { brackets ≤ 2 }
        requires clear { IsTrue is_clear → cdata_scan 0 run.now ≡ going 0 }
        ensures ok { OnOk result ((known : ℕ) × (self.new.part ≡ Part.Data known)
            × (cdata_scan brackets run.now ≡ going known)) }
        ensures elements { OnOk result
            (TakesText (t.is_white_space_only run.now) self.old.elements self.new.elements) }
        ensures phase { OnOk result (self.new.phase ≡ self.old.phase) }
        ensures begun { OnOk result (self.new.begun ≡ self.old.begun) }
        ensures no { IfErr result (λ e. (e ≡ StreamFault.Malformed (record { 0 = self.old.begun }))
            × ((found : List ℕ) × (cdata_scan brackets run.now ≡ before found))) }
    {
        let Some(known) = data_end(brackets, run.as_bytes(), is_clear) else {
            return Err(malformed(self.begun));
        };
        self.take_text(is_white_space_only(run));
        self.part = Part::Data(known);
        Ok(())
    }

    /// Takes characters that are white space alone, or aren't.
    pub(crate) fn take_text(&mut self, is_white: bool)
        ensures elements { TakesText is_white self.old.elements self.new.elements }
        ensures tag { self.new.tag ≡ self.old.tag }
        ensures phase { self.new.phase ≡ self.old.phase }
        ensures part { self.new.part ≡ self.old.part }
        ensures begun { self.new.begun ≡ self.old.begun }
    {
        if is_white {
            return;
        }
        self.elements.take_text();
    }

    /// Reads on in a comment that ends with so many hyphens.
    fn read_comment<'t>(&mut self, text: &'t str, hyphens: u8) -> Result<&'t str, StreamFault>
        requires ready { IsReading self.old }
        requires part { self.old.part ≡ Part.Comment hyphens }
        requires some { 0 < length text.now }
        ensures ok { (end : ℕ)
            → IfOk result (λ rest. ReadsOn self.old self.new text.now rest.now end) }
        ensures less { IfOk result (λ rest. length rest.now < length text.now) }
        ensures fault { (end : ℕ) → IfErr result (λ e. FaultsOn self.old text.now end e) }
    {
        match comment_end(hyphens, text.as_bytes()) {
            Ended::Before(left) => {
                let front = text.len() - left;
                let (_, rest) = text.split_at(front);
                self.part = Part::Between;
                Ok(rest)
            }
            Ended::Not(known) => {
                self.part = Part::Comment(known);
                Ok("")
            }
            Ended::Broken => Err(malformed(self.begun)),
        }
    }

    /// Reads on in a processing instruction that ends with a question mark (1) or doesn't (0).
    fn read_instruction<'t>(&mut self, text: &'t str, question: u8) -> Result<&'t str, StreamFault>
        requires ready { IsReading self.old }
        requires part { self.old.part ≡ Part.Instruction question }
        requires some { 0 < length text.now }
        ensures ok { (end : ℕ)
            → IfOk result (λ rest. ReadsOn self.old self.new text.now rest.now end) }
        ensures less { IfOk result (λ rest. length rest.now < length text.now) }
        ensures fault { (end : ℕ) → IfErr result (λ e. FaultsOn self.old text.now end e) }
    {
        match instruction_end(question, text.as_bytes()) {
            Ended::Before(left) => {
                let front = text.len() - left;
                let (_, rest) = text.split_at(front);
                self.part = Part::Between;
                Ok(rest)
            }
            Ended::Not(known) => {
                self.part = Part::Instruction(known);
                Ok("")
            }
            Ended::Broken => Err(malformed(self.begun)),
        }
    }

    /// Reads on in a CDATA section that ends with so many closing brackets.
    fn read_cdata<'t>(&mut self, text: &'t str, brackets: u8) -> Result<&'t str, StreamFault>
        requires ready { IsReading self.old }
        requires part { self.old.part ≡ Part.Cdata brackets }
        requires some { 0 < length text.now }
        ensures ok { (end : ℕ)
            → IfOk result (λ rest. ReadsOn self.old self.new text.now rest.now end) }
        ensures less { IfOk result (λ rest. length rest.now < length text.now) }
        ensures fault { (end : ℕ) → IfErr result (λ e. FaultsOn self.old text.now end e) }
    {
        let bytes = text.as_bytes();
        match cdata_end(brackets, bytes) {
            Ended::Before(left) => {
                let front = text.len() - left;
                let (inside, rest) = text.split_at(front);
                self.end_cdata(inside, brackets);
                Ok(rest)
            }
            Ended::Not(known) => {
                let is_blank = is_section_white(brackets, bytes, known as usize);
                self.take_text(is_blank);
                self.part = Part::Cdata(known);
                Ok("")
            }
            Ended::Broken => Err(malformed(self.begun)),
        }
    }

    /// Ends a CDATA section that ends with so many closing brackets and these characters.
    fn end_cdata(&mut self, inside: &str, brackets: u8)
        ensures elements { TakesText
            (t.is_white_space_only
            (take ((brackets + length inside.now) - 3)
            (replicate brackets 0x5D ++ inside.now))) self.old.elements self.new.elements }
        ensures phase { self.new.phase ≡ self.old.phase }
        ensures part { self.new.part ≡ Part.Between }
    {
        let is_blank = is_section_white(brackets, inside.as_bytes(), 3);
        self.take_text(is_blank);
        self.part = Part::Between;
    }
}
