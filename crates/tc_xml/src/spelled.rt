// Start tags of names alone: what some names mean is remembered as they are written, since most names of a document
// stand in it many times (Namespaces in XML 1.0, 4 and 6). What is remembered counts until what is bound changes.
ghost use Rattle.std.specs.Prelude.{◌≡◌, ◌<◌, ◌≤◌, ◌∷◌, ℕ, List, length, IfSome};
ghost use Rattle.tc_model.specs.RawTrees.{Bound};
ghost use Rattle.tc_model.specs.Views.{name as seen_name};
ghost use Rattle.tc_model.specs.XmlTextNames.{QNameAt};
ghost use Rattle.tc_scan.specs.Views.{written_name};
ghost use Rattle.tc_xml.specs.Spelled.{AreRight, IsNameAlone, MeansBy};

use crate::plain_tags::Tag;
use bumpalo::Bump;
use tc_model::Name;
use tc_scan::{QualifiedName, after_byte, after_mark};

/// How many names are remembered.
const REMEMBERED: usize = 256;

/// A name as it is written and as it is meant, and how often what is bound had changed before.
#[derive(Clone, Copy)]
struct Spelled<'b> {
    written: QualifiedName<'b>,
    name: Name<'b>,
    changes: u64,
}

/// Some names, and how often what is bound has changed. A name is forgotten where another one comes to its place.
#[derive(Drop)]
pub(crate) struct SpelledNames<'b> {
    places: Vec<Option<Spelled<'b>>, &'b Bump>,
    changes: u64,
}

/// What follows the bytes of a name.
pub(crate) fn after_name<'t>(text: &'t str, name: &QualifiedName<'_>) -> Option<&'t str>
    ensures names { IfSome result (λ r. (bs past after : List ℕ)
        → QNameAt bs (written_name name.now) past → r.now ≡ 0x3E ∷ after
        → QNameAt text.now (written_name name.now) r.now) }
    ensures within { IfSome result (λ r. length r.now ≤ length text.now) }
{
    if name.prefix.is_empty() {
        return after_mark(text, name.local);
    }
    let local = after_byte(after_mark(text, name.prefix)?, b':')?;
    after_mark(local, name.local)
}

/// The first eight bytes of a tag as a number, with nothing in place of its `>` and what stands behind it; 0 where
/// there are fewer.
fn front_of(bytes: &[u8]) -> u64 {
    if bytes.len() < 8 {
        return 0;
    }
    let front = u64::from_le_bytes([
        bytes[0], bytes[1], bytes[2], bytes[3], bytes[4], bytes[5], bytes[6], bytes[7],
    ]);
    let others = front ^ 0x3E3E_3E3E_3E3E_3E3E;
    let ends = others.wrapping_sub(0x0101_0101_0101_0101) & !others & 0x8080_8080_8080_8080;
    front & (ends & ends.wrapping_neg()).wrapping_sub(1)
}

/// Where the name of the tag at the front is remembered.
fn place_of(text: &str) -> usize
    ensures { result < 256 }
{
    let mixed = front_of(text.as_bytes()).wrapping_mul(0x9E37_79B9_7F4A_7C15);
    (mixed >> 56) as usize % REMEMBERED
}

impl<'b> SpelledNames<'b> {
    /// None is remembered.
    pub(crate) fn new(arena: &'b Bump) -> Option<SpelledNames<'b>>
        ensures { IfSome result (λ k. (bounds : List Bound) → AreRight bounds k) }
    {
        match vec![in arena; None; REMEMBERED] {
            Ok(places) => Some(SpelledNames { places, changes: 0 }),
            Err(_) => None,
        }
    }

    /// The tag at the front, where it is the name of an element and nothing else, and the name is remembered.
    pub(crate) fn tag(&self, text: &'b str) -> Option<Tag<'b>>
        ensures alone { (bounds : List Bound) → AreRight bounds self.now
            → IfSome result (IsNameAlone bounds text.now) }
        ensures shorter { IfSome result (λ tag. length tag.rest.now < length text.now) }
    {
        let place = place_of(text);
        if place >= self.places.len() {
            return None;
        }
        let known = self.places[place]?;
        if known.changes != self.changes {
            return None;
        }
        let rest = after_name(after_byte(text, b'<')?, &known.written)?;
        let _inside = after_byte(rest, b'>')?;
        Some(Tag {
            written: known.written,
            name: known.name,
            rest,
        })
    }

    /// Remembers what the name of the tag at the front means.
    pub(crate) fn remember(&mut self, text: &str, written: QualifiedName<'b>, name: Name<'b>)
        ensures { (bounds : List Bound) → AreRight bounds self.old
            → MeansBy bounds (written_name written.entry) (seen_name name.entry)
            → AreRight bounds self.new }
    {
        let place = place_of(text);
        if place >= self.places.len() {
            return;
        }
        self.places[place] = Some(Spelled {
            written,
            name,
            changes: self.changes,
        });
    }

    /// Forgets what names mean, since what is bound changes.
    pub(crate) fn forget(&mut self)
        ensures { (before bounds : List Bound) → AreRight before self.old
            → AreRight bounds self.new }
    {
        match self.changes.checked_add(1) {
            Some(changes) => self.changes = changes,
            None => self.places.clear(),
        }
    }
}
