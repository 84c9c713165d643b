// Where the reading of a document stands.
ghost use Rattle.std.specs.Prelude.{◌≡◌, ◌<◌, ◌≤◌, ◌↔◌, ◌+◌, length, slice_index, IsTrue, MatchOption};
ghost use Rattle.tc_stream.specs.Marks.{MayStand, mark_of};
ghost use Rattle.tc_stream.specs.declared.parts.Mark.{Mark};

use crate::declarations::Declaration;
use crate::doctypes::Doctype;
use crate::phases::Phase;
use crate::references::Reference;
use crate::words::Word;

/// A mark that `<!` begins.
#[derive(Clone, Copy)]
pub(crate) enum Mark {
    Comment,
    Cdata,
    Doctype,
}

impl Mark {
    /// Its bytes.
    pub(crate) fn bytes(self) -> &'static [u8]
        ensures mark { result.now ≡ mark_of self }
        ensures few { length result.now ≤ 9 }
    {
        match self {
            Mark::Comment => b"<!--",
            Mark::Cdata => b"<![CDATA[",
            Mark::Doctype => b"<!DOCTYPE",
        }
    }

    /// The mark that has begun with `<!` and this character, where it may stand in a part of a document.
    pub(crate) fn begun(phase: Phase, next: char) -> Option<Mark>
        ensures { MatchOption result
            ((mark : Mark) → MayStand phase mark → next ≡ slice_index (mark_of mark) 2 → ⊥)
            (λ mark. MayStand phase mark × (next ≡ slice_index (mark_of mark) 2)) }
    {
        match (next, phase) {
            ('-', _) => Some(Mark::Comment),
            ('[', Phase::Content) => Some(Mark::Cdata),
            ('D', Phase::Front) => Some(Mark::Doctype),
            ('D', Phase::Prolog) => Some(Mark::Doctype),
            _ => None,
        }
    }

    /// How many of its characters have come with the next one, which is one of them or isn't.
    pub(crate) fn next(self, count: u8, next: char) -> Option<u8>
        requires { count < length (mark_of self) }
        ensures { MatchOption result (next ≡ slice_index (mark_of self) count → ⊥)
            (λ more. (more ≡ count + 1) × (next ≡ slice_index (mark_of self) count)) }
    {
        if next == self.bytes()[count as usize] as char {
            Some(count + 1)
        } else {
            None
        }
    }

    /// Whether so many characters are all of it.
    pub(crate) fn is_whole(self, count: u8) -> bool
        ensures { IsTrue result ↔ (length (mark_of self) ≤ count) }
    {
        count as usize >= self.bytes().len()
    }
}

/// What has begun and hasn't ended. A tag is kept from its `<` on; of all else only this is known.
#[derive(Clone, Copy)]
pub(crate) enum Part {
    /// Nothing.
    Between,
    /// Character data that ends with so many closing brackets, at most two.
    Data(u8),
    /// `<`.
    Markup,
    /// `<!`.
    Marked,
    /// So many bytes of a mark, three at least.
    Mark(Mark, u8),
    /// A reference in character data.
    Reference(Reference),
    /// A comment that ends with so many hyphens, at most two.
    Comment(u8),
    /// A CDATA section that ends with so many closing brackets, at most two.
    Cdata(u8),
    /// `<?`, and a target or nothing.
    Target(Option<Word>),
    /// `<?`, a target and a question mark behind it.
    Targeted,
    /// A processing instruction that ends with a question mark (1) or doesn't (0).
    Instruction(u8),
    /// An XML declaration.
    Declaration(Declaration),
    /// A document type declaration.
    Doctype(Doctype),
    /// A start tag or an empty-element tag, within these quotes or none.
    Tag(Option<u8>),
    /// An end tag.
    EndTag,
    /// `<` and a part of a name without a colon, where elements stand too deep.
    DeepName,
    /// `<`, a prefix and its colon, where elements stand too deep.
    DeepPrefix,
}
