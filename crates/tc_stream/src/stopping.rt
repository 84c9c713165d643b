// Where a text ends, or goes on with what is no character of XML (XML 1.0, 2.1, 2.2).
ghost use Rattle.std.specs.Prelude.{◌≡◌, ◌≢◌, ◌≤◌, ◌++◌, ℕ, List, [], length};
ghost use Rattle.tc_base.specs.declared.limits.TheConstants.{LONGEST_FILE};
ghost use Rattle.tc_model.specs.Grammars as g;
ghost use Rattle.tc_stream.specs.Cuts.{BeginsNoChar};
ghost use Rattle.tc_stream.specs.Faults.{IsFaultOf};
ghost use Rattle.tc_stream.specs.Stands.{ReadsTo};
ghost use Rattle.tc_stream.specs.declared.phases.Phase.{Phase};

use crate::faults::StreamFault;
use crate::parts::Part;
use crate::reader::Reader;
use crate::reading::malformed;
use tc_base::Place;

impl Reader<'_> {
    /// The fault of a text that has come to its end, or to what is no character of XML, at a place.
    pub(crate) fn stopped(&mut self, place: u32) -> StreamFault
        requires low { place ≤ LONGEST_FILE }
        ensures { (x : g.Grammar) (chars r : List ℕ) → ReadsTo x self.old chars → length chars
            ≡ place → BeginsNoChar r
            → (self.old.part ≡ Part.Between → self.old.phase ≡ Phase.End → r ≢ [])
            → IsFaultOf (chars ++ r) result }
    {
        match self.part {
            Part::Tag(_) => self.fault_of_tag(),
            Part::DeepName => StreamFault::TooDeep(Place(self.begun)),
            _ => malformed(self.stop(place)),
        }
    }

    /// Where reading stops if the text ends at a place, but for a start tag whose name stands.
    fn stop(&self, place: u32) -> u32
        ensures { (x : g.Grammar) (chars : List ℕ) → ReadsTo x self.now chars → length chars
            ≡ place → result ≤ length chars }
    {
        match self.part {
            Part::Between => place,
            Part::Data(_) => place,
            Part::Declaration(known) => known.stops(place),
            Part::Doctype(known) => known.stops(self.begun, place),
            Part::Markup => self.no_tag(),
            Part::Marked => self.no_item(),
            Part::Mark(_, _) => self.no_item(),
            _ => self.begun,
        }
    }
}
