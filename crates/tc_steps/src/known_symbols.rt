// The symbols of names: some are remembered, since most names of a document stand in it many times.
ghost use Rattle.std.specs.Prelude.{◌≡◌, ◌<◌, ◌≤◌, List, All, IfOk, IfSome, length};
ghost use Rattle.tc_model.specs.Symbols.{Mention, symbol_of};
ghost use Rattle.tc_model.specs.Views as see;
ghost use Rattle.tc_steps.specs.Remembered.{AreRemembered, IsRight};

use std::alloc::Global;
use tc_alpha::Sym;
use tc_base::NoMemory;
use tc_model::Name;

/// How many names are remembered.
const REMEMBERED: usize = 256;

/// The most bytes of a local name, and of a namespace name, that are remembered.
const LONGEST: usize = 48;

/// A name, and its symbol if one is remembered.
#[derive(Drop)]
pub(crate) struct Place {
    uri: Vec<u8>,
    local: Vec<u8>,
    symbol: Option<Sym>,
}

/// The symbols of some names. One is forgotten where another one comes to its place. All room is taken at first.
#[derive(Drop)]
pub(crate) struct KnownSymbols {
    places: Vec<Place>,
}

/// A byte of a text as a number, or 0 past its end.
fn byte_at(bytes: &[u8], place: usize) -> usize
    ensures { result < 256 }
{
    match bytes.get(place) {
        Some(byte) => *byte as usize,
        None => 0,
    }
}

/// Where a name is remembered.
fn place_of(name: &Name<'_>) -> usize
    ensures { result < 256 }
{
    let local = name.local.as_bytes();
    (local.len() % 16 * 61 + byte_at(local, 0) * 7 + byte_at(local, 2)) % REMEMBERED
}

impl Place {
    /// No name, and room for one.
    fn new(alloc: Global) -> Result<Place, NoMemory>
        ensures { IfOk result (λ p. (symbols : List Mention) → IsRight symbols p) }
    {
        let uri = Vec::with_capacity(alloc, LONGEST)?;
        let local = Vec::with_capacity(alloc, LONGEST)?;
        Ok(Place {
            uri,
            local,
            symbol: None,
        })
    }

    /// The symbol of a name, if it is this one.
    fn symbol_of(&self, name: &Name<'_>) -> Option<Sym>
        ensures { (symbols : List Mention) → IsRight symbols self.now
            → IfSome result (λ s. s.0 ≡ symbol_of symbols (see.name name.now)) }
    {
        if self.local.as_slice() == name.local.as_bytes()
            && self.uri.as_slice() == name.uri.as_bytes()
        {
            self.symbol
        } else {
            None
        }
    }

    /// Keeps a name and its symbol, if it isn't too long.
    fn keep(&mut self, name: &Name<'_>, symbol: Sym)
        ensures { (symbols : List Mention) → symbol.0 ≡ symbol_of symbols (see.name name.now)
            → IsRight symbols self.new }
    {
        self.symbol = None;
        if name.uri.len() > LONGEST || name.local.len() > LONGEST {
            return;
        }
        self.uri.clear();
        self.local.clear();
        if self.uri.extend_from_slice(name.uri.as_bytes()).is_err() {
            return;
        }
        if self.local.extend_from_slice(name.local.as_bytes()).is_err() {
            return;
        }
        self.symbol = Some(symbol);
    }
}

/// So many places without a name.
fn all_places(alloc: Global) -> Result<Vec<Place>, NoMemory>
    ensures { IfOk result (λ r. (symbols : List Mention) → All (IsRight symbols) r.items) }
{
    let mut places = Vec::with_capacity(alloc, REMEMBERED)?;
    for _place in 0..REMEMBERED {
        let place = Place::new(alloc)?;
        places.push(place)?;
    }
    Ok(places)
}

impl KnownSymbols {
    /// None is remembered.
    ///
    /// # Errors
    ///
    /// There is no memory for what will be remembered.
    pub(crate) fn new(alloc: Global) -> Result<KnownSymbols, NoMemory>
        ensures { IfOk result (λ k. (symbols : List Mention) → AreRemembered symbols k) }
    {
        let places = all_places(alloc)?;
        Ok(KnownSymbols { places })
    }

    /// The symbol of a name, if it is remembered.
    pub(crate) fn remembered(&self, name: &Name<'_>) -> Option<Sym>
        ensures { (symbols : List Mention) → AreRemembered symbols self.now
            → IfSome result (λ s. s.0 ≡ symbol_of symbols (see.name name.now)) }
    {
        let place = place_of(name);
        if place >= self.places.len() {
            return None;
        }
        self.places[place].symbol_of(name)
    }

    /// Remembers the symbol of a name.
    pub(crate) fn remember(&mut self, name: &Name<'_>, symbol: Sym)
        ensures { (symbols : List Mention) → AreRemembered symbols self.old → symbol.0
            ≡ symbol_of symbols (see.name name.now) → AreRemembered symbols self.new }
    {
        let place = place_of(name);
        if place >= self.places.len() {
            return;
        }
        self.places[place].keep(name, symbol);
    }
}
