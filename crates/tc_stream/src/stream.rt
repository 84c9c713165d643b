// A document that comes in pieces.
ghost use Rattle.std.specs.Prelude.{◌≡◌, ◌≤◌, ◌<◌, ◌+◌, length, slice_index, None};
ghost use Rattle.tc_base.specs.declared.limits.TheConstants.{LONGEST_FILE, MOST_INPUT_STATES};
ghost use Rattle.tc_stream.specs.Cuts.{char_length, cut_bytes};
ghost use Rattle.tc_stream.specs.Stands.{IsReading};

use crate::cuts::Cut;
use crate::faults::StreamFault;
use crate::pieces::{finished, take};
use crate::reader::Reader;
use std::alloc::Global;
use tc_alpha::Alphabet;
use tc_auto::Auto;
use tc_base::NoMemory;
use tc_tags::Room;

/// So many bytes of small pieces are held, and then read at once.
const MOST_HELD: usize = 1024;

/// A document that comes in pieces, as far as it has come, and its validity for a schema. It keeps at most 2,000
/// elements that are open with their names and the states to which their children lead, one tag, and the bytes of some
/// small pieces that aren't read yet.
///
/// A text is good if it is of the form of XML that is read (XML 1.0, 2.1), none of its tags has more than 65,536 bytes,
/// and the names of open elements, with what their tags declare, never have more.
#[derive(Drop)]
pub struct Stream<'h> {
    reader: Reader<'h>,
    cut: Cut,
    held: Room,
    fed: u32,
    fault: Option<StreamFault>,
    ghost fed_within: { fed ≤ LONGEST_FILE },
    ghost held_within: { length (cut_bytes cut) + length held.bytes.items ≤ fed },
    ghost cut_short: { 0 < length (cut_bytes cut) → length (cut_bytes cut) < char_length (slice_index (cut_bytes cut) 0) },
    ghost ready: { fault ≡ None → IsReading reader },
}

impl<'h> Stream<'h> {
    ghost use Rattle.std.specs.Prelude.{◌++◌, ◌↔◌, ℕ, List, [], IfOk, IfErr, OnOk, OnErr, IsOk, IsTrue, IsFalse, Some, Err, if◌then◌else◌};
    ghost use Rattle.tc_auto.specs.Stands as a;
    ghost use Rattle.tc_model.specs.Grammars as g;
    ghost use Rattle.tc_model.specs.RawTrees.{RawTrees};
    ghost use Rattle.tc_model.specs.Sheets as sh;
    ghost use Rattle.tc_model.specs.SimplifiesLaws.{IsStart};
    ghost use Rattle.tc_model.specs.States as s;
    ghost use Rattle.tc_model.specs.Stripped.{stripped};
    ghost use Rattle.tc_model.specs.Symbols.{symbols_of};
    ghost use Rattle.tc_model.specs.Validity.{IsValid};
    ghost use Rattle.tc_model.specs.XmlText.{XmlText};
    ghost use Rattle.tc_model.specs.XmlTextRefusals.{Cause, XmlTextRefuses};
    ghost use Rattle.tc_stream.specs.Faults.{IsFaultOf, IsFaultOfFront, IsHopeless, IsLimit, fault_by, limit_of};
    ghost use Rattle.tc_stream.specs.Streams.{StandsFor, fault_found, fed_of};
    ghost use Rattle.tc_stream.specs.XmlTextMeasures.{IsGood, IsWithinMeasures, Measure, PassesFirst};
    ghost use Rattle.tc_stream.specs.declared.faults.StreamFault.{StreamFault};

    /// A stream of the empty text. The automaton is that of a schema's contents and has at most 512 states; the
    /// alphabet is made with the same schema.
    ///
    /// # Errors
    ///
    /// There is no memory. All that the stream uses is taken here.
    pub fn new(
        alloc: Global,
        auto: &'h Auto<'h>,
        alphabet: &'h Alphabet,
    ) -> Result<Stream<'h>, NoMemory>
        requires { a.states auto.now ≤ MOST_INPUT_STATES }
        ensures none { IfOk result (λ r. (fed_of r ≡ 0) × (fault_found r ≡ None)) }
        ensures stands { IfOk result (λ r. (x other : g.Grammar) (sheet : sh.Sheet)
            → a.Stands s.input x auto.now → IsStart x.start
            → alphabet.now ≡ symbols_of x other sheet → StandsFor x r []) }
    {
        Stream::holding(alloc, auto, alphabet, MOST_HELD)
    }

    /// The same, where so many bytes of small pieces are held at most.
    ///
    /// # Errors
    ///
    /// There is no memory.
    pub fn holding(
        alloc: Global,
        auto: &'h Auto<'h>,
        alphabet: &'h Alphabet,
        most: usize,
    ) -> Result<Stream<'h>, NoMemory>
        requires { a.states auto.now ≤ MOST_INPUT_STATES }
        ensures none { IfOk result (λ r. (fed_of r ≡ 0) × (fault_found r ≡ None)) }
        ensures stands { IfOk result (λ r. (x other : g.Grammar) (sheet : sh.Sheet)
            → a.Stands s.input x auto.now → IsStart x.start
            → alphabet.now ≡ symbols_of x other sheet → StandsFor x r []) }
    {
        let reader = Reader::new(alloc, auto, alphabet)?;
        let held = Room::new(alloc, most)?;
        Ok(Stream {
            reader,
            cut: Cut::none(),
            held,
            fed: 0,
            fault: None,
        })
    }

    /// Reads the bytes that are held, of a stream without a fault.
    fn read_held(&mut self) -> Result<(), StreamFault>
        requires { fault_found self.old ≡ None }
        ensures ok { (x : g.Grammar) (text : List ℕ) → StandsFor x self.old text
            → OnOk result (StandsFor x self.new text) }
        ensures none { OnOk result (self.new.held.bytes.items ≡ []) }
        ensures fault { (x : g.Grammar) (text : List ℕ) → StandsFor x self.old text
            → IfErr result (λ e. IsFaultOfFront text e) }
        ensures found { OnOk result (fault_found self.new ≡ None) }
        ensures kept { IfErr result (λ e. fault_found self.new ≡ Some e) }
        ensures fed { fed_of self.new ≡ fed_of self.old }
    {
        let before = self.fed - self.held.len() as u32;
        match take(&mut self.reader, &mut self.cut, before, self.held.bytes()) {
            Ok(()) => {
                self.held.keep(0);
                Ok(())
            }
            Err(found) => {
                self.fault = Some(found);
                Err(found)
            }
        }
    }

    /// Adds a piece to the bytes that are held, if there is room for all of it; whether there was.
    fn hold(&mut self, piece: &[u8]) -> bool
        requires none { fault_found self.old ≡ None }
        requires room { fed_of self.old + length piece.now ≤ LONGEST_FILE }
        ensures held { (x : g.Grammar) (text : List ℕ) → StandsFor x self.old text
            → StandsFor x self.new (if result then text ++ piece.now else text) }
        ensures left { IsFalse result → self.new.held.bytes.items ≡ self.old.held.bytes.items }
        ensures found { fault_found self.new ≡ None }
        ensures fed { fed_of self.new ≡ fed_of self.old + (if result then length piece.now else 0) }
    {
        if !self.held.push_all(piece) {
            return false;
        }
        self.fed += piece.len() as u32;
        true
    }

    /// Reads a piece of a stream without a fault, of which no bytes are held.
    fn read_piece(&mut self, piece: &[u8]) -> Result<(), StreamFault>
        requires none { fault_found self.old ≡ None }
        requires all_read { self.old.held.bytes.items ≡ [] }
        requires room { fed_of self.old + length piece.now ≤ LONGEST_FILE }
        ensures ok { (x : g.Grammar) (text : List ℕ) → StandsFor x self.old text
            → OnOk result (StandsFor x self.new (text ++ piece.now)) }
        ensures fault { (x : g.Grammar) (text : List ℕ) → StandsFor x self.old text
            → IfErr result (λ e. IsFaultOfFront (text ++ piece.now) e) }
        ensures kept { IfErr result (λ e. fault_found self.new ≡ Some e) }
        ensures fed_ok { OnOk result (fed_of self.new ≡ fed_of self.old + length piece.now) }
        ensures fed_err { OnErr result (fed_of self.new ≡ fed_of self.old) }
    {
        match take(&mut self.reader, &mut self.cut, self.fed, piece) {
            Ok(()) => {
                self.fed += piece.len() as u32;
                Ok(())
            }
            Err(fault) => {
                self.fault = Some(fault);
                Err(fault)
            }
        }
    }

    /// Adds a piece to the text of a stream without a fault, for which the bytes that are held leave no room.
    fn advance(&mut self, piece: &[u8]) -> Result<(), StreamFault>
        requires none { fault_found self.old ≡ None }
        requires room { fed_of self.old + length piece.now ≤ LONGEST_FILE }
        ensures ok { (x : g.Grammar) (text : List ℕ) → StandsFor x self.old text
            → OnOk result (StandsFor x self.new (text ++ piece.now)) }
        ensures fault { (x : g.Grammar) (text : List ℕ) → StandsFor x self.old text
            → IfErr result (λ e. IsFaultOfFront (text ++ piece.now) e) }
        ensures kept { IfErr result (λ e. fault_found self.new ≡ Some e) }
        ensures fed_ok { OnOk result (fed_of self.new ≡ fed_of self.old + length piece.now) }
        ensures fed_err { OnErr result (fed_of self.new ≡ fed_of self.old) }
    {
        self.read_held()?;
        if self.hold(piece) {
            return Ok(());
        }
        self.read_piece(piece)
    }

    /// Adds a piece to the text, which may be cut anywhere, also within a character. All pieces together have at most
    /// 67,108,864 bytes. It takes no memory. Small pieces may be held until some more have come: then a later call, at the
    /// latest `finish`, tells why the text isn't good.
    ///
    /// # Errors
    ///
    /// Whatever follows the piece, the text isn't good, for this reason. The piece isn't counted, and every later call
    /// answers the same.
    pub fn feed(&mut self, piece: &[u8]) -> Result<(), StreamFault>
        requires { fed_of self.old + length piece.now ≤ LONGEST_FILE }
        ensures ok { OnOk result ((x : g.Grammar) (text : List ℕ) → StandsFor x self.old text
            → StandsFor x self.new (text ++ piece.now)) }
        ensures fault { IfErr result (λ e. (x : g.Grammar) (text : List ℕ)
            → StandsFor x self.old text → IsFaultOfFront (text ++ piece.now) e) }
        ensures hopeless { OnErr result ((x : g.Grammar) (text : List ℕ)
            → StandsFor x self.old text → IsHopeless (text ++ piece.now)) }
        ensures kept { IfErr result (λ e. fault_found self.new ≡ Some e) }
        ensures none { OnErr result
            ((x : g.Grammar) (text : List ℕ) → StandsFor x self.new text → ⊥) }
        ensures again { (e : StreamFault) → fault_found self.old ≡ Some e → result ≡ Err e }
        ensures fed_ok { OnOk result (fed_of self.new ≡ fed_of self.old + length piece.now) }
        ensures fed_err { OnErr result (fed_of self.new ≡ fed_of self.old) }
    {
        match self.fault {
            Some(fault) => Err(fault),
            None => {
                if self.hold(piece) {
                    return Ok(());
                }
                self.advance(piece)
            }
        }
    }

    /// How many bytes the pieces have that were taken without a fault.
    pub fn fed(&self) -> u32
        ensures here { result ≡ fed_of self.now }
        ensures text { (x : g.Grammar) (text : List ℕ) → StandsFor x self.now text → result
            ≡ length text }
    {
        self.fed
    }

    /// Ends the text of a stream without a fault.
    fn ended(self) -> Result<bool, StreamFault>
        requires { fault_found self ≡ None }
        ensures ok { (x : g.Grammar) (text : List ℕ) → StandsFor x self.entry text
            → IfOk result (λ b. (h : RawTrees) × IsGood text h
            × (IsTrue b ↔ IsValid x (stripped h))) }
        ensures fault { (x : g.Grammar) (text : List ℕ) → StandsFor x self.entry text
            → IfErr result (λ e. IsFaultOf text e) }
    {
        let mut stream = self;
        stream.read_held()?;
        let Stream {
            mut reader,
            cut,
            held: _,
            fed,
            fault: _,
        } = stream;
        finished(&mut reader, cut, fed)
    }

    /// Ends the text, and tells whether its document is valid (RELAX NG, 6). It takes no memory.
    ///
    /// # Errors
    ///
    /// The text isn't good, for this reason.
    pub fn finish(self) -> Result<bool, StreamFault>
        ensures ok { IfOk result (λ b. (x : g.Grammar) (text : List ℕ) → StandsFor x self.entry text
            → (h : RawTrees) × IsGood text h × (IsTrue b ↔ IsValid x (stripped h))) }
        ensures good { (x : g.Grammar) (text : List ℕ) (h : RawTrees) → StandsFor x self.entry text
            → IsGood text h → IsOk result }
        ensures fault { IfErr result (λ e. (x : g.Grammar) (text : List ℕ)
            → StandsFor x self.entry text → IsFaultOf text e) }
        ensures passed { (x : g.Grammar) (text : List ℕ) (measure : Measure) (place : ℕ)
            → StandsFor x self.entry text
            → PassesFirst text measure place → result ≡ Err (limit_of measure) }
        ensures limit { (x : g.Grammar) (text : List ℕ) (h : RawTrees)
            → StandsFor x self.entry text → XmlText text h → IfErr result IsLimit }
        ensures refused { (x : g.Grammar) (text : List ℕ) (cause : Cause) (place : ℕ)
            → StandsFor x self.entry text
            → XmlTextRefuses text cause place → IsWithinMeasures text → result
            ≡ Err (fault_by cause place) }
        ensures again { (e : StreamFault) → fault_found self.entry ≡ Some e → result ≡ Err e }
    {
        match self.fault {
            Some(fault) => Err(fault),
            None => self.ended(),
        }
    }
}
