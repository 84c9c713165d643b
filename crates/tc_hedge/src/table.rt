// Which symbols the classes of a schema hold.
ghost use Rattle.std.specs.Prelude.{◌≡◌, ◌+◌, ◌*◌, ◌++◌, IfOk, OnOk, length, map};
ghost use Rattle.tc_auto.specs.Stands as a;
ghost use Rattle.tc_hedge.specs.Stands.{class_table};
ghost use Rattle.tc_model.specs.Grammars as g;
ghost use Rattle.tc_model.specs.Grammars.{in_class};
ghost use Rattle.tc_model.specs.Views as see;
ghost use Rattle.tc_model.specs.States as s;
ghost use Rattle.tc_model.specs.Symbols.{symbol_count};

use bumpalo::Bump;
use std::alloc::Global;
use tc_alpha::{Alphabet, Sym};
use tc_auto::Auto;
use tc_base::NoMemory;
use tc_model::Name;

/// Adds, for each element pattern, whether a name is in its class.
pub(crate) fn push_allowed(
    allowed: &mut Vec<bool>,
    automaton: &Auto<'_>,
    name: &Name<'_>,
) -> Result<(), NoMemory>
    ensures counted { OnOk result
        (length allowed.new.items ≡ length allowed.old.items + a.patterns automaton.now) }
    ensures told { OnOk result
        ((side : s.Side) (x : g.Grammar) → a.Stands side x automaton.now → allowed.new.items
        ≡ allowed.old.items ++ map (λ e. in_class e.names (see.name name.now)) x.elements) }
{
    for before in 0..automaton.patterns() {
        let is_allowed = automaton.allows(before + 1, name);
        allowed.push(is_allowed)?;
    }
    Ok(())
}

/// For each symbol and each element pattern, whether the names of the symbol are in its class.
pub(crate) fn table_of(
    alloc: Global,
    automaton: &Auto<'_>,
    alphabet: &Alphabet,
) -> Result<Vec<bool>, NoMemory>
    ensures counted { IfOk result
        (λ v. length v.items ≡ symbol_count alphabet.now * a.patterns automaton.now) }
    ensures told { IfOk result
        (λ v. (side : s.Side) (x : g.Grammar) → a.Stands side x automaton.now → v.items
        ≡ class_table x alphabet.now (symbol_count alphabet.now)) }
{
    let arena = Bump::new(alloc);
    let mut allowed = Vec::new(alloc);
    for symbol in 0..alphabet.count() {
        let name = alphabet.fresh(&arena, Sym(symbol))?;
        push_allowed(&mut allowed, automaton, &name)?;
    }
    Ok(allowed)
}
