// The symbols and first states of names: some are remembered, since most names of a document stand in it many times.
ghost use Rattle.std.specs.Prelude.{◌≡◌, ◌<◌, ℕ, List, IfOk, IfSome};
ghost use Rattle.tc_model.specs.Grammars as g;
ghost use Rattle.tc_model.specs.Symbols.{Mention};
ghost use Rattle.tc_model.specs.Views as see;
ghost use Rattle.tc_sets.specs.Numbers.{Numbers};
ghost use Rattle.tc_steps.specs.declared.classes.Class.{Class};
ghost use Rattle.tc_steps.specs.Numbered.{AreNames, IsEntry};

use std::alloc::Global;
use tc_alpha::Sym;
use tc_base::NoMemory;
use tc_model::Name;

/// How many names are remembered.
const REMEMBERED: usize = 256;

/// What is known of an element where it starts: its symbol, and the number of its first states.
#[derive(Clone, Copy)]
pub(crate) struct Entry {
    pub(crate) symbol: Sym,
    pub(crate) first: usize,
}

/// A name, with what is known of its elements.
#[derive(Clone, Copy)]
struct Named<'t> {
    name: Name<'t>,
    entry: Entry,
}

/// Some names. One is forgotten where another one comes to its place.
#[derive(Drop)]
pub(crate) struct KnownNames<'t> {
    places: Vec<Option<Named<'t>>>,
}

/// A byte of a text as a number, or 0 past its end.
fn byte_at(bytes: &[u8], place: usize) -> usize
    ensures { result < 256 }
{
    match bytes.get(place) {
        Some(byte) => *byte as usize,
        None => 0,
    }
}

/// Where a name is remembered.
fn place_of(name: &Name<'_>) -> usize
    ensures { result < 256 }
{
    let local = name.local.as_bytes();
    (local.len() % 16 * 61 + byte_at(local, 0) * 7 + byte_at(local, 2)) % REMEMBERED
}

impl<'t> KnownNames<'t> {
    /// None is remembered.
    ///
    /// # Errors
    ///
    /// There is no memory for what will be remembered.
    pub(crate) fn new(alloc: Global) -> Result<KnownNames<'t>, NoMemory>
        ensures { IfOk result (λ k. (x : g.Grammar) (symbols : List Mention) (sets : List Numbers)
            (classes : List Class) → AreNames x symbols sets classes k) }
    {
        let places = vec![in alloc; None; REMEMBERED]?;
        Ok(KnownNames { places })
    }

    /// What is known of the elements of a name, if it is remembered.
    pub(crate) fn remembered(&self, name: &Name<'_>) -> Option<Entry>
        ensures { (x : g.Grammar) (symbols : List Mention) (sets : List Numbers)
            (classes : List Class) → AreNames x symbols sets classes self.now
            → IfSome result (λ e. IsEntry x symbols sets classes (see.name name.now) e) }
    {
        let place = place_of(name);
        if place >= self.places.len() {
            return None;
        }
        let known = self.places[place]?;
        if known.name.local == name.local && known.name.uri == name.uri {
            Some(known.entry)
        } else {
            None
        }
    }

    /// Remembers what is known of the elements of a name.
    pub(crate) fn remember(&mut self, name: Name<'t>, entry: Entry)
        ensures { (x : g.Grammar) (symbols : List Mention) (sets : List Numbers)
            (classes : List Class) → AreNames x symbols sets classes self.old
            → IsEntry x symbols sets classes (see.name name.entry) entry
            → AreNames x symbols sets classes self.new }
    {
        let place = place_of(&name);
        if place >= self.places.len() {
            return;
        }
        self.places[place] = Some(Named { name, entry });
    }
}
