// Symbols, with those of the names of elements that bodies put out at hand.
ghost use Rattle.std.specs.Prelude.{◌≡◌, ◌<◌, List, length, IfOk, IfSome};
ghost use Rattle.tc_model.specs.Symbols.{Mention, symbol_count, symbol_of};
ghost use Rattle.tc_model.specs.Views as see;
ghost use Rattle.tc_beh.specs.Named.{IsSymbol, AreNamed};

use crate::places::place_of;
use std::alloc::Global;
use std::marker::Model;
use tc_alpha::{Alphabet, Sym};
use tc_base::NoMemory;
use tc_model::{Branch, Instr, Name, Sheet};

/// How many names are at hand at most.
const NAMES: usize = 1024;

/// A name with its symbol.
#[derive(Clone, Copy)]
struct Named<'b> {
    name: Name<'b>,
    sym: Sym,
}

/// The symbols of an alphabet. Those of most names of elements that bodies put out are at hand.
#[derive(Drop)]
pub(crate) struct Symbols<'b> {
    alphabet: Alphabet,
    names: Vec<Option<Named<'b>>>,
}

impl<'b> Model for Symbols<'b> {
    ghost use Rattle.std.specs.Prelude.{List};
    ghost use Rattle.tc_model.specs.Symbols.{Mention};
    ghost use Rattle.tc_beh.specs.Named.{AreNamed};

    ghost Value = { List Mention };

    ghost view = { λ s. s.alphabet };

    ghost invariant = { λ s. AreNamed s.alphabet s.names.items };
}

/// A byte of a text as a number, or 0 past its end.
fn byte_at(bytes: &[u8], place: usize) -> u32
    ensures { result < 256 }
{
    match bytes.get(place) {
        Some(byte) => *byte as u32,
        None => 0,
    }
}

/// Where a name is at hand.
fn place_of_name(name: &Name<'_>) -> usize
    ensures { result < 1024 }
{
    let local = name.local.as_bytes();
    let first = byte_at(local, 0) * 256 + byte_at(local, 1);
    let last = byte_at(local, 2) * 256 + byte_at(local, local.len() / 2);
    place_of(first, last) % NAMES
}

/// The symbol of a name, if it is at hand.
fn at_hand(names: &[Option<Named<'_>>], name: &Name<'_>) -> Option<Sym>
    requires { length names.now ≡ 1024 }
    ensures { (symbols : List Mention) → AreNamed symbols names.now
        → IfSome result (λ s. IsSymbol symbols (see.name name.now) s.0) }
{
    let known = names[place_of_name(name)]?;
    if known.name.local == name.local && known.name.uri == name.uri {
        Some(known.sym)
    } else {
        None
    }
}

/// Takes a name to hand.
fn add_name<'b>(alphabet: &Alphabet, names: &mut Vec<Option<Named<'b>>>, name: &Name<'b>)
    requires { AreNamed alphabet.now names.old.items }
    ensures { AreNamed alphabet.now names.new.items }
{
    let sym = alphabet.sym_of(name);
    names[place_of_name(name)] = Some(Named { name: *name, sym });
}

/// Takes the names of the elements of a body to hand.
#[cycle(names)]
fn add_body<'b>(alphabet: &Alphabet, names: &mut Vec<Option<Named<'b>>>, body: &[Instr<'b>])
    requires { AreNamed alphabet.now names.old.items }
    ensures { AreNamed alphabet.now names.new.items }
{
    for instruction in body {
        add_instruction(alphabet, names, instruction);
    }
}

/// The same of an instruction.
#[cycle(names)]
fn add_instruction<'b>(
    alphabet: &Alphabet,
    names: &mut Vec<Option<Named<'b>>>,
    instruction: &Instr<'b>,
)
    requires { AreNamed alphabet.now names.old.items }
    ensures { AreNamed alphabet.now names.new.items }
{
    match instruction {
        Instr::Text(_)
        | Instr::Call(_)
        | Instr::ValueOfSelf
        | Instr::Apply(_, _)
        | Instr::ValueOf(_) => {}
        Instr::Elem(name, body) => {
            add_name(alphabet, names, name);
            add_body(alphabet, names, body)
        }
        Instr::Copy(body) | Instr::ForEach(_, _, body) => add_body(alphabet, names, body),
        Instr::Choose(branches, otherwise) => {
            add_branches(alphabet, names, branches);
            add_body(alphabet, names, otherwise)
        }
    }
}

/// The same of the branches of a choice.
#[cycle(names)]
fn add_branches<'b>(
    alphabet: &Alphabet,
    names: &mut Vec<Option<Named<'b>>>,
    branches: &[Branch<'b>],
)
    requires { AreNamed alphabet.now names.old.items }
    ensures { AreNamed alphabet.now names.new.items }
{
    for branch in branches {
        add_body(alphabet, names, branch.body);
    }
}

/// The same of a stylesheet.
fn add_sheet<'b>(alphabet: &Alphabet, names: &mut Vec<Option<Named<'b>>>, sheet: &Sheet<'b>)
    requires { AreNamed alphabet.now names.old.items }
    ensures { AreNamed alphabet.now names.new.items }
{
    for rule in sheet.rules {
        add_body(alphabet, names, rule.body);
    }
    for body in sheet.named {
        add_body(alphabet, names, body);
    }
}

impl<'b> Symbols<'b> {
    /// Those of an alphabet, the names of a stylesheet at hand.
    ///
    /// # Errors
    ///
    /// There is no memory for the names.
    pub(crate) fn of(
        alloc: Global,
        alphabet: Alphabet,
        sheet: &Sheet<'b>,
    ) -> Result<Symbols<'b>, NoMemory>
        ensures { IfOk result (λ s. s ≡ alphabet) }
    {
        let mut names = vec![in alloc; None; NAMES]?;
        add_sheet(&alphabet, &mut names, sheet);
        Ok(Symbols { alphabet, names })
    }

    /// The alphabet.
    pub(crate) fn alphabet(&self) -> &Alphabet
        ensures { result.now ≡ self.now }
    {
        &self.alphabet
    }

    /// The symbol of a name.
    pub(crate) fn sym_of(&self, name: &Name<'_>) -> Sym
        ensures symbol { result.0 ≡ symbol_of self.now (see.name name.now) }
        ensures below { result.0 < symbol_count self.now }
    {
        if let Some(sym) = at_hand(&self.names, name) {
            return sym;
        }
        self.alphabet.sym_of(name)
    }
}
