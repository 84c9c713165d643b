// The symbols of names: some of them are remembered, since most names of a document stand in it many times.
// Each entry is true, so that one is overwritten changes no answer.
ghost use Rattle.std.specs.Prelude.{◌≡◌, ◌<◌, List, length, IfOk, IfSome};
ghost use Rattle.tc_model.specs.Symbols.{Mention, symbol_of};
ghost use Rattle.tc_model.specs.Views as see;
ghost use Rattle.tc_run.specs.Named.{IsNamed, AreNamed};

use bumpalo::Bump;
use tc_alpha::{Alphabet, Sym};
use tc_base::NoMemory;
use tc_model::Name;

/// How many names are remembered.
const REMEMBERED: usize = 256;

/// A name with its symbol.
#[derive(Clone, Copy)]
struct Named<'b> {
    name: Name<'b>,
    sym: Sym,
}

/// Some names with their symbols. A name is forgotten where another one comes to its place.
#[derive(Drop)]
pub(crate) struct KnownNames<'b> {
    places: Vec<Option<Named<'b>>, &'b Bump>,
}

/// A byte of a text as a number, or 0 past its end.
fn byte_at(bytes: &[u8], place: usize) -> usize
    ensures { result < 256 }
{
    match bytes.get(place) {
        Some(byte) => *byte as usize,
        None => 0,
    }
}

/// Where the symbol of a name is remembered.
fn place_of(name: &Name<'_>) -> usize
    ensures { result < 256 }
{
    let local = name.local.as_bytes();
    (local.len() % 16 * 61 + byte_at(local, 0) * 7 + byte_at(local, 2)) % REMEMBERED
}

impl<'b> KnownNames<'b> {
    /// None is remembered.
    ///
    /// # Errors
    ///
    /// There is no memory for what will be remembered.
    pub(crate) fn new(arena: &'b Bump) -> Result<KnownNames<'b>, NoMemory>
        ensures { IfOk result (λ k. (symbols : List Mention) → AreNamed symbols k) }
    {
        let places = vec![in arena; None; REMEMBERED]?;
        Ok(KnownNames { places })
    }

    /// The symbol of a name, if it is remembered.
    fn remembered(&self, name: &Name<'_>) -> Option<Sym>
        requires { length self.now.places.items ≡ 256 }
        ensures { (symbols : List Mention) → AreNamed symbols self.now
            → IfSome result (λ s. s.0 ≡ symbol_of symbols (see.name name.now)) }
    {
        let known = self.places[place_of(name)]?;
        if known.name.local == name.local && known.name.uri == name.uri {
            Some(known.sym)
        } else {
            None
        }
    }

    /// Remembers the symbol of a name.
    fn remember(&mut self, name: Name<'b>, sym: Sym)
        requires { length self.old.places.items ≡ 256 }
        ensures { (symbols : List Mention) → AreNamed symbols self.old → sym.0
            ≡ symbol_of symbols (see.name name.entry) → AreNamed symbols self.new }
    {
        self.places[place_of(&name)] = Some(Named { name, sym });
    }

    /// The symbol of a name.
    pub(crate) fn sym_of(&mut self, alphabet: &Alphabet, name: &Name<'b>) -> Sym
        requires known { AreNamed alphabet.now self.old }
        ensures known { AreNamed alphabet.now self.new }
        ensures symbol { result.0 ≡ symbol_of alphabet.now (see.name name.now) }
    {
        match self.remembered(name) {
            Some(sym) => sym,
            None => self.new_sym(alphabet, name),
        }
    }

    /// The same where it isn't remembered: out of line, since that is seldom so.
    #[inline(never)]
    fn new_sym(&mut self, alphabet: &Alphabet, name: &Name<'b>) -> Sym
        requires known { AreNamed alphabet.now self.old }
        ensures known { AreNamed alphabet.now self.new }
        ensures symbol { result.0 ≡ symbol_of alphabet.now (see.name name.now) }
    {
        let sym = alphabet.sym_of(name);
        self.remember(*name, sym);
        sym
    }
}
