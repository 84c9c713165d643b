// How a tag goes on, which is kept until its end and read whole (XML 1.0, 3.1).
ghost use Rattle.std.specs.Prelude.{◌≡◌, ◌≢◌, ◌<◌, ◌≤◌, ◌+◌, ◌++◌, ◌∷◌, ℕ, List, [], Option, length, take, drop, IfOk, IfErr, IsCharBoundary};
ghost use Rattle.tc_base.specs.declared.limits.TheConstants.{DEEPEST_NESTING, LONGEST_FILE, LONGEST_TAG};
ghost use Rattle.tc_model.specs.Grammars as g;
ghost use Rattle.tc_model.specs.Names.{IsChars};
ghost use Rattle.tc_model.specs.XmlTextBytes.{Lacks};
ghost use Rattle.tc_stream.specs.Cuts.{BeginsNoChar};
ghost use Rattle.tc_stream.specs.Faults.{IsFaultOf, IsFaultOfFront};
ghost use Rattle.tc_tags.specs.Forms.{FormRead};
ghost use Rattle.tc_stream.specs.Keeps.{IsReady};
ghost use Rattle.tc_stream.specs.Reading.{FaultsOn, ReadsOn};
ghost use Rattle.tc_stream.specs.Scans.{ended, quoted, tag_scan};
ghost use Rattle.tc_stream.specs.Stands.{IsReading, ReadsTo};
ghost use Rattle.tc_stream.specs.TagStands.{IsEndTag, IsStartTag, StandsBehind, TagStands, TagTold, TellsFault, TellsNoElement, TellsScanned};
ghost use Rattle.tc_tags.specs.Written.{AreWritten};
ghost use Rattle.tc_tags.specs.XmlTextTags.{WrittenElement};

use crate::elements::{Elements, NoElement};
use crate::faults::StreamFault;
use crate::parts::Part;
use crate::phases::Phase;
use crate::reader::Reader;
use crate::tag_ends::{TagEnd, end_of_end_tag, end_of_tag};
use tc_base::Place;
use tc_scan::characters;
use tc_tags::{Form, NoForm, is_end_tag, is_plain_end_tag, text_of};

/// How far a start tag or an empty-element tag goes in some bytes.
#[derive(Clone, Copy)]
pub(crate) enum Scanned {
    /// It goes on behind them, within these quotes or none.
    Within(Option<u8>),
    /// It ends behind so many of them.
    Ended(usize),
}

/// How far a start tag or an empty-element tag goes in some bytes that has come so far within these quotes or none.
#[tactic(auto, using(crate::proofs::TagReads::slice_low))]
pub(crate) fn scan_tag(quote: Option<u8>, bytes: &[u8]) -> Scanned
    ensures { TellsScanned quote bytes.now result }
{
    let mut within = quote;
    let mut from = 0;
    'quotes: loop {
        match end_of_tag(within, &bytes[from..]) {
            TagEnd::Open => return Scanned::Within(within),
            TagEnd::Quoted(next, count) => {
                within = next;
                from += count;
            }
            TagEnd::Behind(count) => return Scanned::Ended(from + count),
        }
    }
}

/// The place in the whole of a place in a tag of so many bytes, which stands at a place.
fn place_in(begun: u32, at: usize, count: usize) -> u32
    requires low { begun ≤ LONGEST_FILE }
    requires few { count ≤ LONGEST_TAG }
    ensures within { result ≤ begun + count }
    ensures here { at ≤ count → result ≡ begun + at }
{
    begun + at.min(count) as u32
}

/// The fault of a tag that isn't read for this reason.
fn fault_of(stop: NoForm, begun: u32, count: usize) -> StreamFault
    requires low { begun ≤ LONGEST_FILE }
    requires few { count ≤ LONGEST_TAG }
    ensures { TellsFault result stop begun count }
{
    match stop {
        NoForm::Malformed(at) => StreamFault::Malformed(Place(place_in(begun, at, count))),
        NoForm::Unsupported(at, why) => {
            StreamFault::Unsupported(Place(place_in(begun, at, count)), why)
        }
    }
}

/// The fault of a start tag or an empty-element tag of which no more than these characters come.
fn tag_fault(elements: &mut Elements<'_>, tag: &str, begun: u32) -> StreamFault
    requires low { begun ≤ LONGEST_FILE }
    requires short { length tag.now ≤ LONGEST_TAG }
    ensures { TagTold result tag.now begun }
{
    match elements.form(tag) {
        Ok(_) => StreamFault::Malformed(Place(begun)),
        Err(stop) => fault_of(stop, begun, tag.len()),
    }
}

/// The fault of a tag whose element isn't gone into, which stands at a place.
pub(crate) fn no_element_fault(reason: NoElement, begun: u32) -> StreamFault
    ensures { TellsNoElement result reason begun }
{
    match reason {
        NoElement::NamesTooLong => StreamFault::NamesTooLong,
        NoElement::Malformed => StreamFault::Malformed(Place(begun)),
    }
}

/// Goes into the element with this tag, which is read, and out of it again where it is empty.
fn enter(elements: &mut Elements<'_>, tag: &str, form: &Form, begun: u32) -> Result<(), StreamFault>
    requires ready { IsReady elements.old }
    requires room { length elements.old.levels.items < DEEPEST_NESTING }
    requires short { length tag.now ≤ LONGEST_TAG }
    requires written { (e : WrittenElement) × FormRead tag.now form.now e
        × AreWritten tag.now elements.old.rooms.attributes.list.items e.attributes }
    ensures ready { IfOk result (λ _. IsReady elements.new) }
    ensures ok { (x : g.Grammar) (chars : List ℕ) → IsStartTag tag.now
        → TagStands x elements.old begun tag.now chars
        → IfOk result (λ _. StandsBehind x elements.new chars) }
    ensures fault { (x : g.Grammar) (chars : List ℕ) → IsStartTag tag.now
        → TagStands x elements.old begun tag.now chars
        → IfErr result (λ e. IsFaultOfFront chars e) }
{
    match elements.start(tag, form) {
        Ok(()) => Ok(()),
        Err(reason) => Err(no_element_fault(reason, begun)),
    }
}

/// Goes into the element whose tag this is, and out of it again where it is empty. Such a tag isn't kept where elements
/// stand too deep.
pub(crate) fn start(elements: &mut Elements<'_>, tag: &str, begun: u32) -> Result<(), StreamFault>
    requires ready { IsReady elements.old }
    requires low { begun ≤ LONGEST_FILE }
    requires short { length tag.now ≤ LONGEST_TAG }
    ensures ready { IfOk result (λ _. IsReady elements.new) }
    ensures ok { (x : g.Grammar) (chars : List ℕ) → IsStartTag tag.now
        → TagStands x elements.old begun tag.now chars
        → IfOk result (λ _. StandsBehind x elements.new chars) }
    ensures fault { (x : g.Grammar) (chars : List ℕ) → IsStartTag tag.now
        → TagStands x elements.old begun tag.now chars
        → length elements.old.levels.items < DEEPEST_NESTING
        → IfErr result (λ e. IsFaultOfFront chars e) }
{
    if elements.is_full() {
        return Err(StreamFault::TooDeep(Place(begun)));
    }
    match elements.form(tag) {
        Ok(form) => enter(elements, tag, &form, begun),
        Err(stop) => Err(fault_of(stop, begun, tag.len())),
    }
}

/// Goes out of the element whose end tag this is.
fn end(elements: &mut Elements<'_>, tag: &str, begun: u32) -> Result<(), StreamFault>
    requires ready { IsReady elements.old }
    requires short { length tag.now ≤ LONGEST_TAG }
    ensures ready { IfOk result (λ _. IsReady elements.new) }
    ensures ok { (x : g.Grammar) (chars : List ℕ) → IsEndTag tag.now
        → (t : TagStands x elements.old begun tag.now chars) → t.ls ≢ []
        → IfOk result (λ _. StandsBehind x elements.new chars) }
    ensures fault { (x : g.Grammar) (chars : List ℕ) → IsEndTag tag.now
        → (t : TagStands x elements.old begun tag.now chars) → t.ls ≢ []
        → IfErr result (λ e. IsFaultOfFront chars e) }
{
    if !is_end_tag(tag, elements.name()) {
        return Err(StreamFault::Malformed(Place(begun)));
    }
    elements.end();
    Ok(())
}

impl Reader<'_> {
    /// The fault of the start tag or empty-element tag that is kept, of which no more comes.
    pub(crate) fn fault_of_tag(&mut self) -> StreamFault
        ensures { (x : g.Grammar) (chars r : List ℕ) (quote : Option ℕ) → ReadsTo x self.old chars
            → self.old.part ≡ Part.Tag quote → BeginsNoChar r → IsFaultOf (chars ++ r) result }
    {
        let tag = characters(self.tag.bytes());
        tag_fault(&mut self.elements, tag, self.begun)
    }

    /// Nothing has begun behind a tag that has ended.
    pub(crate) fn leave_tag(&mut self)
        ensures elements { self.new.elements ≡ self.old.elements }
        ensures part { self.new.part ≡ Part.Between }
        ensures inside { (self.old.elements.levels.items ≡ [] → ⊥) → self.new.phase
            ≡ Phase.Content }
        ensures outside { self.old.elements.levels.items ≡ [] → self.new.phase ≡ Phase.End }
    {
        self.part = Part::Between;
        if self.elements.is_empty() {
            self.phase = Phase::End;
            return;
        }
        self.phase = Phase::Content;
    }

    /// Keeps characters of a start tag or an empty-element tag that goes on behind them within these quotes or none.
    fn keep_tag<'t>(&mut self, text: &'t str, quote: Option<u8>) -> Result<&'t str, StreamFault>
        requires { IsReading self.old }
        ensures ready { IfOk result (λ _. IsReading self.new) }
        ensures rest { IfOk result (λ rest. rest.now ≡ []) }
        ensures ok { (x : g.Grammar) (chars : List ℕ) (within : Option ℕ) → self.old.part
            ≡ Part.Tag within → tag_scan within text.now ≡ quoted quote → IsChars text.now
            → ReadsTo x self.old chars → IfOk result (λ _. ReadsTo x self.new (chars ++ text.now)) }
        ensures fault { (x : g.Grammar) (chars : List ℕ) (within : Option ℕ) → self.old.part
            ≡ Part.Tag within → tag_scan within text.now ≡ quoted quote → IsChars text.now
            → ReadsTo x self.old chars → IfErr result (λ e. IsFaultOfFront (chars ++ text.now) e) }
    {
        if !self.tag.push_str(text) {
            return Err(StreamFault::TagTooLong);
        }
        self.part = Part::Tag(quote);
        Ok("")
    }

    /// Goes into the element whose start tag or empty-element tag is kept.
    fn start_kept(&mut self) -> Result<(), StreamFault>
        requires { IsReading self.old }
        ensures ready { IfOk result (λ _. IsReading self.new) }
        ensures ok { (x : g.Grammar) (chars : List ℕ) → IsStartTag self.old.tag.bytes.items
            → TagStands x self.old.elements self.old.begun self.old.tag.bytes.items chars
            → IfOk result (λ _. ReadsTo x self.new chars) }
        ensures fault { (x : g.Grammar) (chars : List ℕ) → IsStartTag self.old.tag.bytes.items
            → TagStands x self.old.elements self.old.begun self.old.tag.bytes.items chars
            → length self.old.elements.levels.items < DEEPEST_NESTING
            → IfErr result (λ e. IsFaultOfFront chars e) }
    {
        let tag = text_of(self.tag.bytes());
        start(&mut self.elements, tag, self.begun)?;
        self.leave_tag();
        Ok(())
    }

    /// Reads a start tag or an empty-element tag to its end, which stands behind so many bytes, and goes into its element.
    fn pass_tag<'t>(&mut self, text: &'t str, count: usize) -> Result<&'t str, StreamFault>
        requires ready { IsReading self.old }
        requires count { (0 < count) × (count ≤ length text.now) }
        requires cut { IsCharBoundary text.now count }
        ensures ready { IfOk result (λ _. IsReading self.new) }
        ensures rest { IfOk result (λ rest. rest.now ≡ drop count text.now) }
        ensures ok { (x : g.Grammar) (chars : List ℕ) (within : Option ℕ) → self.old.part
            ≡ Part.Tag within → tag_scan within (take count text.now) ≡ ended [] → IsChars text.now
            → ReadsTo x self.old chars
            → IfOk result (λ _. ReadsTo x self.new (chars ++ take count text.now)) }
        ensures fault { (x : g.Grammar) (chars : List ℕ) (within : Option ℕ) → self.old.part
            ≡ Part.Tag within → tag_scan within (take count text.now) ≡ ended [] → IsChars text.now
            → ReadsTo x self.old chars → IfErr result (λ e. IsFaultOfFront (chars ++ text.now) e) }
    {
        let (front, rest) = text.split_at(count);
        if !self.tag.push_str(front) {
            return Err(StreamFault::TagTooLong);
        }
        self.start_kept()?;
        Ok(rest)
    }

    /// Reads on in a start tag or an empty-element tag, within these quotes or none.
    pub(crate) fn read_tag<'t>(
        &mut self,
        text: &'t str,
        quote: Option<u8>,
    ) -> Result<&'t str, StreamFault>
        requires ready { IsReading self.old }
        requires part { self.old.part ≡ Part.Tag quote }
        requires some { 0 < length text.now }
        ensures ok { (end : ℕ)
            → IfOk result (λ rest. ReadsOn self.old self.new text.now rest.now end) }
        ensures fault { (end : ℕ) → IfErr result (λ e. FaultsOn self.old text.now end e) }
        ensures less { IfOk result (λ rest. length rest.now < length text.now) }
    {
        match scan_tag(quote, text.as_bytes()) {
            Scanned::Within(next) => self.keep_tag(text, next),
            Scanned::Ended(count) => self.pass_tag(text, count),
        }
    }

    /// Keeps characters of an end tag that goes on behind them.
    fn keep_end_tag<'t>(&mut self, text: &'t str) -> Result<&'t str, StreamFault>
        requires { IsReading self.old }
        ensures ready { IfOk result (λ _. IsReading self.new) }
        ensures rest { IfOk result (λ rest. rest.now ≡ []) }
        ensures ok { (x : g.Grammar) (chars : List ℕ) → self.old.part ≡ Part.EndTag
            → Lacks (0x3E ∷ []) text.now → IsChars text.now
            → ReadsTo x self.old chars → IfOk result (λ _. ReadsTo x self.new (chars ++ text.now)) }
        ensures fault { (x : g.Grammar) (chars : List ℕ) → self.old.part ≡ Part.EndTag
            → Lacks (0x3E ∷ []) text.now → IsChars text.now
            → ReadsTo x self.old chars → IfErr result (λ e. IsFaultOfFront (chars ++ text.now) e) }
    {
        if self.tag.push_str(text) {
            Ok("")
        } else {
            Err(StreamFault::TagTooLong)
        }
    }

    /// Goes out of the element whose end tag is kept.
    fn end_kept(&mut self) -> Result<(), StreamFault>
        requires { IsReading self.old }
        ensures ready { IfOk result (λ _. IsReading self.new) }
        ensures ok { (x : g.Grammar) (chars : List ℕ) → IsEndTag self.old.tag.bytes.items
            → (t : TagStands x self.old.elements self.old.begun self.old.tag.bytes.items chars)
            → t.ls ≢ []
            → IfOk result (λ _. ReadsTo x self.new chars) }
        ensures fault { (x : g.Grammar) (chars : List ℕ) → IsEndTag self.old.tag.bytes.items
            → (t : TagStands x self.old.elements self.old.begun self.old.tag.bytes.items chars)
            → t.ls ≢ []
            → IfErr result (λ e. IsFaultOfFront chars e) }
    {
        if is_plain_end_tag(self.tag.bytes(), self.elements.name()) {
            self.elements.end();
            self.leave_tag();
            return Ok(());
        }
        let tag = characters(self.tag.bytes());
        end(&mut self.elements, tag, self.begun)?;
        self.leave_tag();
        Ok(())
    }

    /// Keeps the last characters of an end tag, and goes out of its element.
    fn end_of_end(&mut self, text: &str) -> Result<(), StreamFault>
        requires { IsReading self.old }
        ensures ready { IfOk result (λ _. IsReading self.new) }
        ensures ok { (x : g.Grammar) (chars front : List ℕ) → self.old.part ≡ Part.EndTag
            → text.now ≡ front ++ 0x3E ∷ [] → Lacks (0x3E ∷ []) front → IsChars text.now
            → ReadsTo x self.old chars → IfOk result (λ _. ReadsTo x self.new (chars ++ text.now)) }
        ensures fault { (x : g.Grammar) (chars front : List ℕ) → self.old.part ≡ Part.EndTag
            → text.now ≡ front ++ 0x3E ∷ [] → Lacks (0x3E ∷ []) front → IsChars text.now
            → ReadsTo x self.old chars → IfErr result (λ e. IsFaultOfFront (chars ++ text.now) e) }
    {
        if self.tag.push_str(text) {
            self.end_kept()
        } else {
            Err(StreamFault::TagTooLong)
        }
    }

    /// Reads on in an end tag.
    pub(crate) fn read_end_tag<'t>(&mut self, text: &'t str) -> Result<&'t str, StreamFault>
        requires ready { IsReading self.old }
        requires part { self.old.part ≡ Part.EndTag }
        requires some { 0 < length text.now }
        ensures ok { (end : ℕ)
            → IfOk result (λ rest. ReadsOn self.old self.new text.now rest.now end) }
        ensures fault { (end : ℕ) → IfErr result (λ e. FaultsOn self.old text.now end e) }
        ensures less { IfOk result (λ rest. length rest.now < length text.now) }
    {
        let Some(count) = end_of_end_tag(text.as_bytes()) else {
            return self.keep_end_tag(text);
        };
        let (front, rest) = text.split_at(count);
        self.end_of_end(front)?;
        Ok(rest)
    }
}
