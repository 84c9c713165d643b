ghost use Rattle.std.specs.Prelude.{◌≡◌, List, IfOk};
ghost use Rattle.tc_model.specs.Views as see;
ghost use Rattle.tc_model.specs.Symbols.{Mention};
ghost use Rattle.tc_model.specs.WellFormed.{IsSheet};
ghost use Rattle.tc_rules.specs.Kept.{IsRulesOf, told};

use std::alloc::Global;
use tc_alpha::{Alphabet, Sym};
use tc_base::NoMemory;
use tc_model::{Grammar, Pat, Sheet};
use tc_rules::{Found, Job, Kind, Marks, Rules};

/// A stylesheet of one mode without rules.
fn no_rules<'b>() -> Sheet<'b>
    ensures sheet { IsSheet (see.sheet result) }
    ensures modes { (see.sheet result).modes ≡ 1 }
{
    Sheet {
        modes: 1,
        eaches: 0,
        rules: &[],
        named: &[],
    }
}

/// The rules of a stylesheet, over its symbols and those of a schema of texts.
fn rules_of<'b>(alloc: Global, sheet: &Sheet<'b>) -> Result<Rules<'b>, NoMemory>
    requires { IsSheet (see.sheet sheet.now) }
    ensures sheet { IfOk result (λ r. (told r).sheet ≡ see.sheet sheet.now) }
    ensures rules { IfOk result (λ r. (symbols : List Mention) × IsRulesOf symbols r) }
{
    let schema = Grammar {
        start: Pat::Text,
        elements: &[],
    };
    let Ok(alphabet) = Alphabet::of(alloc, &schema, &schema, sheet) else {
        return Err(NoMemory);
    };
    let Ok(rules) = Rules::of(alloc, sheet, &alphabet) else {
        return Err(NoMemory);
    };
    Ok(rules)
}

/// Whether there are the rules and the ancestor states that are told.
fn are_found(rules: &Rules<'_>) -> bool
    requires modes { (told rules.now).sheet.modes ≡ 1 }
    requires rules { (symbols : List Mention) × IsRulesOf symbols rules.now }
{
    if rules.ancestors() != 1 || rules.sheet().modes != 1 || rules.predicates() != 0 {
        return false;
    }
    let root = rules.root_rule(0);
    let rule = rules.rule_for(0, 0, Kind::Text, Marks(0));
    let below = rules.anc_step(0, Sym(0), Marks(0));
    root == Found::BuiltIn && rule == Found::BuiltIn && below == 0
}

/// Whether there are the select states that are told, and what follows from them.
fn are_selected(rules: &Rules<'_>) -> bool
    requires modes { (told rules.now).sheet.modes ≡ 1 }
    requires rules { (symbols : List Mention) × IsRulesOf symbols rules.now }
{
    if rules.looks() != 0 || rules.moves() != 1 {
        return false;
    }
    let next = rules.sel_step(0, Sym(0), Marks(0));
    let is_hit = rules.sel_hits(0, Kind::Text, Marks(0));
    let job = rules.mode_of(0);
    next.is_none() && is_hit && job == Job::Mode(0)
}

/// Whether there is what is told of rules.
fn are_told(rules: &Rules<'_>) -> bool
    requires modes { (told rules.now).sheet.modes ≡ 1 }
    requires rules { (symbols : List Mention) × IsRulesOf symbols rules.now }
{
    are_found(rules) && are_selected(rules)
}

/// Whether it is so of the rules of a stylesheet that has none.
fn are_built_in(alloc: Global) -> bool {
    let sheet = no_rules();
    match rules_of(alloc, &sheet) {
        Ok(rules) => are_told(&rules),
        Err(_) => false,
    }
}

/// Built-in rules alone: one ancestor state, without items, and one select state, of the move to all children.
#[test]
fn built_in_rules(rt: HostRuntime) {
    assert!(rt; are_built_in(rt.alloc()));
}
