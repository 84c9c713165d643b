// What goes character by character: marks, references, targets, declarations (XML 1.0, 2.6, 2.8, 4.1).
ghost use Rattle.std.specs.Prelude.{◌≡◌, ◌<◌, ◌≤◌, ◌&&◌, ℕ, List, Option, bytes_eq, codes, length, IfErr, IfOk, IsTrue, OnOk};
ghost use Rattle.tc_base.specs.declared.limits.TheConstants.{LONGEST_FILE};
ghost use Rattle.tc_stream.specs.Parts.{is_by_char};
ghost use Rattle.tc_stream.specs.Phases.{is_front};
ghost use Rattle.tc_stream.specs.Placed.{FaultsCharAt, ReadsCharAt};
ghost use Rattle.tc_stream.specs.Reading.{FaultsAtChar, FaultsOn, ReadsChar, ReadsOn};
ghost use Rattle.tc_stream.specs.Stands.{IsReading};
ghost use Rattle.tc_stream.specs.Targeting.{IsTargeting, Keeps, TellsTargeted};
ghost use Rattle.tc_stream.specs.Targets as scan;

use crate::declarations::{Declaration, Declared};
use crate::doctypes::{Doctype, Typed};
use crate::faults::StreamFault;
use crate::items::{Targeted, next_of_target};
use crate::parts::Part;
use crate::phases::Phase;
use crate::reader::Reader;
use crate::reading::{malformed, place_of};
use crate::references::{Reference, Referred};
use crate::words::Word;
use tc_base::{Place, Why, is_white};
use tc_scan::first_char;

/// Whether a target begins an XML declaration.
fn declares(phase: Phase, name: &Word) -> bool
    ensures { (written : List ℕ) → Keeps name.now written → result
        ≡ (is_front phase && bytes_eq written (codes "xml")) }
{
    match phase {
        Phase::Front => name.is("xml"),
        _ => false,
    }
}

impl Reader<'_> {
    /// Reads one character of what goes character by character, and gives what follows.
    pub(crate) fn read_char<'t>(
        &mut self,
        part: Part,
        text: &'t str,
        end: u32,
    ) -> Result<&'t str, StreamFault>
        requires ready { IsReading self.old }
        requires part { self.old.part ≡ part }
        requires by_char { IsTrue (is_by_char part) }
        requires some { 0 < length text.now }
        requires within { length text.now ≤ end }
        requires low { end ≤ LONGEST_FILE }
        ensures ok { IfOk result (λ rest. ReadsOn self.old self.new text.now rest.now end) }
        ensures less { IfOk result (λ rest. length rest.now < length text.now) }
        ensures fault { IfErr result (λ e. FaultsOn self.old text.now end e) }
    {
        let Some((next, rest)) = first_char(text) else {
            return Ok(text);
        };
        match self.take_char(part, next, place_of(end, text)) {
            Ok(()) => Ok(rest),
            Err(fault) => Err(fault),
        }
    }

    /// Reads a character that stands at a place.
    fn take_char(&mut self, part: Part, next: char, place: u32) -> Result<(), StreamFault>
        requires ready { IsReading self.old }
        requires part { self.old.part ≡ part }
        requires by_char { IsTrue (is_by_char part) }
        ensures ok { OnOk result (ReadsCharAt self.old self.new place next) }
        ensures fault { IfErr result (λ e. FaultsCharAt self.old place next e) }
    {
        match part {
            Part::Markup => self.read_markup(next),
            Part::Marked => self.read_marked(next),
            Part::Mark(mark, count) => self.read_mark(mark, count, next),
            Part::Reference(reference) => self.read_reference(reference, next),
            Part::Target(target) => self.read_target(target, next),
            Part::Targeted => self.read_targeted(next),
            Part::Declaration(known) => self.read_declaration(known, next, place),
            Part::Doctype(known) => self.read_doctype(known, next, place),
            Part::DeepName => self.read_deep_name(next),
            Part::DeepPrefix => self.read_deep_local(next),
            _ => Ok(()),
        }
    }

    /// Reads on in a reference.
    fn read_reference(&mut self, reference: Reference, next: char) -> Result<(), StreamFault>
        requires ready { IsReading self.old }
        requires part { self.old.part ≡ Part.Reference reference }
        ensures ok { OnOk result (ReadsChar self.old self.new next) }
        ensures fault { IfErr result (λ e. FaultsAtChar self.old next e) }
    {
        match reference.next(next) {
            Referred::More(known) => {
                self.part = Part::Reference(known);
                Ok(())
            }
            Referred::Character(c) => {
                self.take_text(is_white(c));
                self.part = Part::Between;
                Ok(())
            }
            Referred::OtherEntity => Err(StreamFault::Unsupported(
                Place(self.begun),
                Why::EntityReference,
            )),
            Referred::Malformed => Err(malformed(self.begun)),
        }
    }

    /// Reads on in the target of a processing instruction.
    fn read_target(&mut self, target: Option<Word>, next: char) -> Result<(), StreamFault>
        requires ready { IsReading self.old }
        requires part { self.old.part ≡ Part.Target target }
        ensures ok { OnOk result (ReadsChar self.old self.new next) }
        ensures fault { IfErr result (λ e. FaultsAtChar self.old next e) }
    {
        match next_of_target(target, next) {
            Targeted::More(name) => {
                self.part = Part::Target(Some(name));
                Ok(())
            }
            Targeted::White(name) => self.behind_target(target, name, next),
            Targeted::Question(name) => self.end_target(target, name, next),
            Targeted::Malformed => Err(malformed(self.begun)),
        }
    }

    /// Goes on behind the target of a processing instruction and white space, or in the XML declaration.
    fn behind_target(
        &mut self,
        target: Option<Word>,
        name: Word,
        next: char,
    ) -> Result<(), StreamFault>
        requires ready { IsReading self.old }
        requires part { self.old.part ≡ Part.Target target }
        requires told { (state : Option (List ℕ)) → IsTargeting target state
            → TellsTargeted (Targeted.White name) (scan.targeted_next state next) }
        ensures ok { OnOk result (ReadsChar self.old self.new next) }
        ensures fault { IfErr result (λ e. FaultsAtChar self.old next e) }
    {
        if declares(self.phase, &name) {
            let known = Declaration::begun();
            self.part = Part::Declaration(known);
            return Ok(());
        }
        if name.is_in_any_case("xml") {
            return Err(malformed(self.begun));
        }
        let phase = self.phase.past_front();
        self.phase = phase;
        self.part = Part::Instruction(0);
        Ok(())
    }

    /// Goes on behind the target of a processing instruction and a question mark.
    fn end_target(
        &mut self,
        target: Option<Word>,
        name: Word,
        next: char,
    ) -> Result<(), StreamFault>
        requires ready { IsReading self.old }
        requires part { self.old.part ≡ Part.Target target }
        requires told { (state : Option (List ℕ)) → IsTargeting target state
            → TellsTargeted (Targeted.Question name) (scan.targeted_next state next) }
        ensures ok { OnOk result (ReadsChar self.old self.new next) }
        ensures fault { IfErr result (λ e. FaultsAtChar self.old next e) }
    {
        if name.is_in_any_case("xml") {
            return Err(malformed(self.begun));
        }
        let phase = self.phase.past_front();
        self.phase = phase;
        self.part = Part::Targeted;
        Ok(())
    }

    /// Ends a processing instruction behind its target and a question mark.
    fn read_targeted(&mut self, next: char) -> Result<(), StreamFault>
        requires ready { IsReading self.old }
        requires part { self.old.part ≡ Part.Targeted }
        ensures ok { OnOk result (ReadsChar self.old self.new next) }
        ensures fault { IfErr result (λ e. FaultsAtChar self.old next e) }
    {
        if next == '>' {
            self.part = Part::Between;
            return Ok(());
        }
        Err(malformed(self.begun))
    }

    /// Reads on in the XML declaration.
    fn read_declaration(
        &mut self,
        known: Declaration,
        next: char,
        place: u32,
    ) -> Result<(), StreamFault>
        requires ready { IsReading self.old }
        requires part { self.old.part ≡ Part.Declaration known }
        ensures ok { OnOk result (ReadsCharAt self.old self.new place next) }
        ensures fault { IfErr result (λ e. FaultsCharAt self.old place next e) }
    {
        match known.next(next, place) {
            Declared::More(later) => {
                self.part = Part::Declaration(later);
                Ok(())
            }
            Declared::Whole => {
                let phase = self.phase.past_front();
                self.phase = phase;
                self.part = Part::Between;
                Ok(())
            }
            Declared::Malformed(at) => Err(malformed(at)),
            Declared::Unsupported(at, why) => Err(StreamFault::Unsupported(Place(at), why)),
        }
    }

    /// Reads on in the document type declaration.
    fn read_doctype(&mut self, known: Doctype, next: char, place: u32) -> Result<(), StreamFault>
        requires ready { IsReading self.old }
        requires part { self.old.part ≡ Part.Doctype known }
        ensures ok { OnOk result (ReadsCharAt self.old self.new place next) }
        ensures fault { IfErr result (λ e. FaultsCharAt self.old place next e) }
    {
        match known.next(next) {
            Typed::More(later) => {
                self.part = Part::Doctype(later);
                Ok(())
            }
            Typed::Whole => {
                self.phase = Phase::Root;
                self.part = Part::Between;
                Ok(())
            }
            Typed::Malformed => Err(malformed(known.stops(self.begun, place))),
            Typed::Subset => Err(StreamFault::Unsupported(Place(place), Why::DoctypeSubset)),
        }
    }
}
