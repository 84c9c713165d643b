// Symbols that nothing tells apart.
ghost use Rattle.std.specs.Prelude.{◌≡◌, ◌<◌, ◌++◌, ◌+◌, ℕ, List, Bool, IfOk, OnOk, length, slice_get, Some};
ghost use Rattle.tc_hedge.specs.Stands as h;
ghost use Rattle.tc_model.specs.Chains.{an_element};
ghost use Rattle.tc_model.specs.Grammars.{Grammar};
ghost use Rattle.tc_model.specs.Names as n;
ghost use Rattle.tc_model.specs.Paths.{passes as passes_test};
ghost use Rattle.tc_model.specs.States as s;
ghost use Rattle.tc_model.specs.Symbols.{Mention, symbol_count, symbol_of};
ghost use Rattle.tc_model.specs.Trees.{none};
ghost use Rattle.tc_model.specs.Views as see;
ghost use Rattle.tc_rows.specs.Triples.{Triple};
ghost use Rattle.tc_beh.specs.AlikeSymbols.{AlikeWrapAlike, AreFirsts, AreSchemas, IsFirst, asked_test, asked_tests, classes_holding, key, tests_passed};

use crate::machine::Machine;
use crate::node_tests::{Asked, asked_of};
use bumpalo::Bump;
use indexmap::IndexMap;
use std::alloc::Global;
use tc_alpha::{Alphabet, Sym};
use tc_base::NoMemory;
use tc_hedge::Hedge;
use tc_model::Name;

/// The law of symbols alike: where no class of the schemas and no node test of the stylesheet tells two symbols apart, no step of
/// its paths does, and elements of them around the same trees are live together, and have the same rows.
pub fn law_of_alike()
    ensures { AlikeWrapAlike }
{}

/// Whether an element of a name passes the node tests that ask something (XPath 1.0, 2.3).
fn passes(asked: &Asked<'_>, name: &Name<'_>) -> bool
    ensures { result ≡ passes_test (asked_test asked.now) (an_element (see.name name.now) none) }
{
    match asked {
        Asked::Name(named) => named.uri == name.uri && named.local == name.local,
        Asked::Namespace(uri) => *uri == name.uri,
    }
}

/// Adds whether the class of each element pattern holds a symbol.
fn add_classes(key: &mut Vec<bool>, schema: &Hedge<'_>, symbol: Sym) -> Result<(), NoMemory>
    requires { symbol.0 < schema.now.symbols }
    ensures { OnOk result
        ((side : s.Side) (g : Grammar) (symbols : List Mention)
        → h.Stands side g symbols schema.now → (name : n.ExpandedName) → symbol_of symbols name
        ≡ symbol.0 → key.new.items ≡ key.old.items ++ classes_holding g name) }
{
    for before in 0..schema.auto().patterns() {
        let is_held = schema.allows(before + 1, symbol);
        key.push(is_held)?;
    }
    Ok(())
}

/// Adds whether an element of a name passes the node tests that ask each of these.
fn add_passes(key: &mut Vec<bool>, asked: &[Asked<'_>], name: &Name<'_>) -> Result<(), NoMemory>
    ensures { OnOk result (key.new.items ≡ key.old.items
        ++ tests_passed (asked_tests asked.now) (see.name name.now)) }
{
    for one in asked {
        let is_passed = passes(one, name);
        key.push(is_passed)?;
    }
    Ok(())
}

/// What tells a symbol from others, by a name that stands for it.
fn key_of(
    alloc: Global,
    arena: &Bump,
    input: &Hedge<'_>,
    output: &Hedge<'_>,
    asked: &[Asked<'_>],
    alphabet: &Alphabet,
    symbol: Sym,
) -> Result<Vec<bool>, NoMemory>
    requires input { symbol.0 < input.now.symbols }
    requires output { symbol.0 < output.now.symbols }
    requires symbol { symbol.0 < symbol_count alphabet.now }
    ensures { IfOk result (λ k. (x : Triple) → AreSchemas x input.now output.now → alphabet.now
        ≡ x.symbols → k.items ≡ key x (asked_tests asked.now) symbol.0) }
{
    let name = alphabet.fresh(arena, symbol)?;
    let mut key = Vec::new(alloc);
    add_classes(&mut key, input, symbol)?;
    add_classes(&mut key, output, symbol)?;
    add_passes(&mut key, asked, &name)?;
    Ok(key)
}

/// Adds the first symbol that has the key of one: that symbol itself, unless the key is known.
fn put_first(
    known: &mut IndexMap<Vec<bool>, u32>,
    firsts: &mut Vec<u32>,
    bits: Vec<bool>,
    symbol: u32,
) -> Result<(), NoMemory>
    requires { length firsts.old.items ≡ symbol }
    ensures count { OnOk result (length firsts.new.items ≡ symbol + 1) }
    ensures firsts { OnOk result
        ((key_at : ℕ → List Bool) → AreFirsts key_at known.old firsts.old.items symbol
        → key_at symbol ≡ bits.items → AreFirsts key_at known.new firsts.new.items (symbol + 1)) }
{
    if let Some(first) = known.get(&bits).copied() {
        firsts.push(first)?;
        return Ok(());
    }
    known.insert(bits, symbol)?;
    firsts.push(symbol)?;
    Ok(())
}

/// Of each symbol the first that has its key.
fn firsts_of(
    alloc: Global,
    input: &Hedge<'_>,
    output: &Hedge<'_>,
    asked: &[Asked<'_>],
    alphabet: &Alphabet,
) -> Result<Vec<u32>, NoMemory>
    requires input { input.now.symbols ≡ symbol_count alphabet.now }
    requires output { output.now.symbols ≡ symbol_count alphabet.now }
    ensures count { IfOk result (λ v. length v.items ≡ symbol_count alphabet.now) }
    ensures firsts { IfOk result
        (λ v. (x : Triple) → AreSchemas x input.now output.now → alphabet.now ≡ x.symbols
        → (a first : ℕ) → slice_get v.items a ≡ Some first
        → IsFirst (key x (asked_tests asked.now)) a first) }
{
    let arena = Bump::new(alloc);
    let mut known = IndexMap::new(alloc);
    let mut firsts = Vec::new(alloc);
    for number in 0..alphabet.count() {
        let symbol = Sym(number);
        let bits = key_of(alloc, &arena, input, output, asked, alphabet, symbol)?;
        put_first(&mut known, &mut firsts, bits, number)?;
    }
    Ok(firsts)
}

/// Of each symbol of a machine the first that nothing tells from it.
#[derive(Drop)]
pub struct Alike {
    firsts: Vec<u32>,
}

impl Alike {
    ghost use Rattle.std.specs.Prelude.{◌≡◌, ◌<◌, IfOk, length};
    ghost use Rattle.tc_rows.specs.Triples.{Triple};
    ghost use Rattle.tc_beh.specs.AlikeSymbols.{AreFirstAlike, IsFirstAlike};
    ghost use Rattle.tc_beh.specs.Machines.{IsMachine, IsMachineOf};

    /// Finds out which symbols of a machine are alike: the same classes of both schemas hold them, and they pass the same node
    /// tests of the stylesheet.
    ///
    /// # Errors
    ///
    /// There is no memory.
    pub fn of(alloc: Global, machine: &Machine<'_>) -> Result<Alike, NoMemory>
        requires { IsMachine machine.now }
        ensures { IfOk result
            (λ r. (x : Triple) → IsMachineOf x machine.now → AreFirstAlike x r.firsts.items) }
    {
        let asked = asked_of(alloc, machine.rules.sheet())?;
        let firsts = firsts_of(
            alloc,
            &machine.input,
            &machine.output,
            asked.as_slice(),
            machine.alphabet(),
        )?;
        Ok(Alike { firsts })
    }

    /// The first symbol that is alike. Elements of both around the same trees have the same rows.
    pub fn first(&self, symbol: u32) -> u32
        requires { symbol < length self.now.firsts.items }
        ensures { (x : Triple) → AreFirstAlike x self.now.firsts.items
            → IsFirstAlike x symbol result }
    {
        self.firsts[symbol as usize]
    }
}
