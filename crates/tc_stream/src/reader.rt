// How far a text of characters has been read.
ghost use Rattle.std.specs.Prelude.{◌≡◌, ◌≤◌, IsTrue};
ghost use Rattle.tc_base.specs.declared.limits.TheConstants.{LONGEST_FILE, LONGEST_TAG};
ghost use Rattle.tc_stream.specs.Counted.{is_counted};

use crate::elements::Elements;
use crate::parts::Part;
use crate::phases::Phase;
use std::alloc::Global;
use tc_alpha::Alphabet;
use tc_auto::Auto;
use tc_base::NoMemory;
use tc_base::limits::LONGEST_TAG;
use tc_tags::Room;

/// What is kept of a text of characters that comes in pieces: the elements that are open, one tag, which part of a
/// document is read, what has begun and hasn't ended, and where it begins.
#[derive(Drop)]
pub(crate) struct Reader<'h> {
    pub(crate) elements: Elements<'h>,
    pub(crate) tag: Room,
    pub(crate) phase: Phase,
    pub(crate) part: Part,
    pub(crate) begun: u32,
    ghost begun_within: { begun ≤ LONGEST_FILE },
    ghost tag_room: { tag.most ≡ LONGEST_TAG },
    ghost counted: { IsTrue (is_counted part) },
}

impl<'h> Reader<'h> {
    ghost use Rattle.std.specs.Prelude.{[], IfOk, IsFalse};
    ghost use Rattle.tc_auto.specs.Stands as a;
    ghost use Rattle.tc_model.specs.Grammars as g;
    ghost use Rattle.tc_model.specs.Sheets as sh;
    ghost use Rattle.tc_model.specs.States as s;
    ghost use Rattle.tc_model.specs.Symbols.{symbols_of};
    ghost use Rattle.tc_stream.specs.Stands.{IsReading, ReadsTo};

    /// Nothing has come.
    pub(crate) fn new(
        alloc: Global,
        auto: &'h Auto<'h>,
        alphabet: &'h Alphabet,
    ) -> Result<Reader<'h>, NoMemory>
        ensures ready { IfOk result (λ r. IsReading r) }
        ensures reads { IfOk result
            (λ r. (x other : g.Grammar) (sheet : sh.Sheet) → a.Stands s.input x auto.now
            → alphabet.now ≡ symbols_of x other sheet → ReadsTo x r []) }
    {
        let tag = Room::new(alloc, LONGEST_TAG)?;
        let elements = Elements::new(alloc, auto, alphabet)?;
        Ok(Reader {
            elements,
            tag,
            phase: Phase::Mark,
            part: Part::Between,
            begun: 0,
        })
    }

    /// Whether the text may end here.
    pub(crate) fn is_at_end(&self) -> bool
        ensures yes { IsTrue result → (self.now.part ≡ Part.Between)
            × (self.now.phase ≡ Phase.End) }
        ensures no { IsFalse result → self.now.part ≡ Part.Between → self.now.phase ≡ Phase.End
            → ⊥ }
    {
        match self.part {
            Part::Between => match self.phase {
                Phase::End => true,
                _ => false,
            },
            _ => false,
        }
    }
}
