// What a stylesheet has, each in its order: predicates, moves, looks, for-eaches, and the rules of each mode.
ghost use Rattle.std.specs.Prelude.{◌≡◌, ◌≢◌, ◌<◌, ◌++◌, ◌∷◌, ℕ, [], Some, length, map, flat_map, get_or, slice_get, Contains, IfOk, OnOk, IfErr, ◌≤◌};
ghost use Rattle.std.specs.List.{AllByRecursion};
ghost use Rattle.tc_base.specs.declared.limits.TheConstants.{MOST_PREDICATES};
ghost use Rattle.tc_model.specs.Meaning.{all_children};
ghost use Rattle.tc_model.specs.Numbered.{numbers_below};
ghost use Rattle.tc_model.specs.Numberings as n;
ghost use Rattle.tc_model.specs.PathStates.{path_of_rules, steps_of};
ghost use Rattle.tc_model.specs.Views as see;
ghost use Rattle.tc_model.specs.Sheets as s;
ghost use Rattle.tc_model.specs.Symbols.{fresh_name, symbol_count};
ghost use Rattle.tc_model.specs.WellFormed.{IsSheet, ForEach, eaches_of};
ghost use Rattle.tc_rules.specs.Faults.{IsPredicatesCause};
ghost use Rattle.tc_rules.specs.Gathered.{bodies_with, built_in_moves, numbers, bodies as see_bodies};
ghost use Rattle.tc_rules.specs.Jobs.{AreJobs};
ghost use Rattle.tc_rules.specs.Kept.{numbers_in_mode};
ghost use Rattle.tc_rules.specs.MoveTables.{IsPathsCause, paths};
ghost use Rattle.tc_rules.specs.Usages.{usages_in, usages_of, usages_of_rules, predicates_in_usage, looks_in_usage, moves_in_usage, eaches_in_usage};
ghost use Rattle.tc_rules.specs.Views.{predicates, looks, moves, usage as see_usage, usages};

use crate::move_table::{looks_once, moves_once};
use crate::once::predicates_once;
use crate::rules::RulesFault;
use crate::walk::{
    Job, Move, Usage, add_usage, looks_in_test, looks_in_usage, moves_in_usage,
    predicates_in_usage, usages_in_body,
};
use bumpalo::Bump;
use std::alloc::Global;
use tc_alpha::{Alphabet, Sym};
use tc_base::NoMemory;
use tc_model::{Instr, Name, NodeTest, Path, Pattern, Rule, Sheet, Step, Test};

/// All children of a node.
static ALL_CHILDREN: Path<'static> = Path {
    alts: &[&[Step {
        deep: false,
        test: NodeTest::Node,
        when: Test::True,
    }]],
};

/// The path to all children: what a built-in rule selects (XSLT 1.0, 5.8).
fn all_children<'b>() -> &'b Path<'b>
    ensures { see.path result.now ≡ all_children }
{
    &ALL_CHILDREN
}

fn usages_of_rules<'b>(found: &mut Vec<Usage<'b>>, rules: &'b [Rule<'b>]) -> Result<(), NoMemory>
    ensures { OnOk result (usages found.new.items ≡ usages found.old.items
        ++ usages_of_rules (map see.rule rules.now)) }
{
    for rule in rules {
        add_usage(found, Usage::Pattern(&rule.pattern))?;
        usages_in_body(found, rule.body)?;
    }
    Ok(())
}

fn usages_of_bodies<'b>(
    found: &mut Vec<Usage<'b>>,
    bodies: &'b [&'b [Instr<'b>]],
) -> Result<(), NoMemory>
    ensures { OnOk result (usages found.new.items ≡ usages found.old.items
        ++ flat_map usages_in (map (λ b. see.body b.now) bodies.now)) }
{
    for body in bodies {
        usages_in_body(found, body)?;
    }
    Ok(())
}

/// The usages of a stylesheet: those of all rules, each with its pattern first, and then those of the named bodies.
pub(crate) fn all_usages<'b>(alloc: Global, sheet: &Sheet<'b>) -> Result<Vec<Usage<'b>>, NoMemory>
    ensures { IfOk result (λ v. usages v.items ≡ usages_of (see.sheet sheet.now)) }
{
    let mut found = Vec::new(alloc);
    usages_of_rules(&mut found, sheet.rules)?;
    usages_of_bodies(&mut found, sheet.named)?;
    Ok(found)
}

/// The predicates, each once, in their order, of which there are at most 6.
pub(crate) fn all_predicates<'b>(
    alloc: Global,
    used: &[Usage<'b>],
) -> Result<Vec<&'b Test<'b>>, RulesFault>
    ensures predicates { IfOk result (λ v. (x : s.Sheet) → usages used.now ≡ usages_of x
        → predicates v.items ≡ n.predicates_of x) }
    ensures few { IfOk result (λ v. length v.items ≤ MOST_PREDICATES) }
    ensures cause { IfErr result (λ e. (x : s.Sheet) → usages used.now ≡ usages_of x
        → IsPredicatesCause (n.predicates_of x) e) }
{
    let mut found = Vec::new(alloc);
    for usage in used {
        predicates_in_usage(&mut found, usage)?;
    }
    predicates_once(alloc, &found)
}

/// The moves to all children, one in each mode.
fn built_in_moves(found: &mut Vec<Move<'_>>, modes: u32) -> Result<(), NoMemory>
    ensures { OnOk result ((k : ℕ) → moves k found.new.items ≡ moves k found.old.items
        ++ built_in_moves modes) }
{
    for mode in 0..modes {
        let path = all_children();
        let job = Job::Mode(mode);
        found.push(Move { path, job })?;
    }
    Ok(())
}

fn moves_of_usages<'b>(found: &mut Vec<Move<'b>>, used: &[Usage<'b>]) -> Result<(), NoMemory>
    ensures { OnOk result ((k : ℕ) → moves k found.new.items ≡ moves k found.old.items
        ++ flat_map (moves_in_usage k) (usages used.now)) }
{
    for usage in used {
        moves_in_usage(found, usage)?;
    }
    Ok(())
}

/// The moves, each once, in their order: those of the built-in rules, of all rules, and of the named bodies. The predicates are
/// given.
pub(crate) fn all_moves<'b>(
    alloc: Global,
    sheet: &Sheet<'b>,
    used: &[Usage<'b>],
    numbered: &[&Test<'_>],
) -> Result<Vec<Move<'b>>, RulesFault>
    requires sheet { IsSheet (see.sheet sheet.now) }
    requires used { usages used.now ≡ usages_of (see.sheet sheet.now) }
    ensures moves { IfOk result (λ v. moves sheet.now.modes v.items
        ≡ n.moves_of (see.sheet sheet.now)) }
    ensures jobs { IfOk result (λ v. AreJobs (see.sheet sheet.now) v.items) }
    ensures cause { IfErr result (λ e. IsPathsCause (paths (n.moves_of (see.sheet sheet.now))) e) }
{
    let mut found = Vec::new(alloc);
    built_in_moves(&mut found, sheet.modes)?;
    moves_of_usages(&mut found, used)?;
    moves_once(alloc, numbered, sheet.modes, &found)
}

fn looks_of_usages<'b>(found: &mut Vec<&'b Path<'b>>, used: &[Usage<'b>]) -> Result<(), NoMemory>
    ensures { OnOk result (looks found.new.items ≡ looks found.old.items
        ++ flat_map looks_in_usage (usages used.now)) }
{
    for usage in used {
        looks_in_usage(found, usage)?;
    }
    Ok(())
}

fn looks_of_tests<'b>(
    found: &mut Vec<&'b Path<'b>>,
    numbered: &[&'b Test<'b>],
) -> Result<(), NoMemory>
    ensures { OnOk result (looks found.new.items ≡ looks found.old.items
        ++ flat_map n.looks_in_test (predicates numbered.now)) }
{
    for test in numbered {
        looks_in_test(found, test)?;
    }
    Ok(())
}

/// The looks, each once, in their order, the predicates being given.
pub(crate) fn all_looks<'b>(
    alloc: Global,
    used: &[Usage<'b>],
    numbered: &[&'b Test<'b>],
) -> Result<Vec<&'b Path<'b>>, RulesFault>
    ensures looks { IfOk result (λ v. (x : s.Sheet) → usages used.now ≡ usages_of x
        → predicates numbered.now ≡ n.predicates_of x → looks v.items ≡ n.looks_of x) }
    ensures cause { IfErr result (λ e. (x : s.Sheet) → usages used.now ≡ usages_of x
        → predicates numbered.now ≡ n.predicates_of x → IsPathsCause (n.looks_of x) e) }
{
    let mut found = Vec::new(alloc);
    looks_of_usages(&mut found, used)?;
    looks_of_tests(&mut found, numbered)?;
    looks_once(alloc, numbered, &found)
}

/// The steps of all rules' patterns; `/` has none.
pub(crate) fn paths_of_rules<'b>(
    alloc: Global,
    sheet: &Sheet<'b>,
) -> Result<Vec<&'b [Step<'b>]>, NoMemory>
    ensures { IfOk result (λ v. see.alternatives v.items
        ≡ path_of_rules (map see.rule sheet.now.rules.now)) }
{
    let mut path = Vec::new(alloc);
    for rule in sheet.rules {
        let steps = steps_of(&rule.pattern);
        path.push(steps)?;
    }
    Ok(path)
}

/// The steps of a pattern; `/` has none.
fn steps_of<'b>(pattern: &Pattern<'b>) -> &'b [Step<'b>]
    ensures { see.steps result.now ≡ steps_of (see.match_pattern pattern.now) }
{
    match pattern {
        Pattern::Root => &[],
        Pattern::Steps(steps) => steps,
    }
}

/// A name of each symbol.
pub(crate) fn names_of<'a>(
    alloc: Global,
    arena: &'a Bump,
    alphabet: &Alphabet,
) -> Result<Vec<Name<'a>>, NoMemory>
    ensures { IfOk result (λ v. map see.name v.items
        ≡ map (fresh_name alphabet.now) (numbers_below (symbol_count alphabet.now))) }
{
    let mut names = Vec::new(alloc);
    for number in 0..alphabet.count() {
        let name = alphabet.fresh(arena, Sym(number))?;
        names.push(name)?;
    }
    Ok(names)
}

/// An empty list for each mode.
pub(crate) fn no_numbers(alloc: Global, modes: u32) -> Result<Vec<Vec<u32>>, NoMemory>
    ensures count { IfOk result (λ v. length v.items ≡ modes) }
    ensures none { IfOk result (λ v. (m : ℕ) → get_or (numbers v.items) m [] ≡ []) }
{
    let mut lists = Vec::new(alloc);
    for _mode in 0..modes {
        lists.push(Vec::new(alloc))?;
    }
    Ok(lists)
}

/// One more rule of a mode. There is no memory for more of them than a number can count.
pub(crate) fn add_number(
    lists: &mut Vec<Vec<u32>>,
    mode: u32,
    number: usize,
) -> Result<(), NoMemory>
    requires { mode < length lists.old.items }
    ensures count { OnOk result (length lists.new.items ≡ length lists.old.items) }
    ensures added { OnOk result (get_or (numbers lists.new.items) mode []
        ≡ get_or (numbers lists.old.items) mode [] ++ number ∷ []) }
    ensures others { OnOk result ((m : ℕ) → m ≢ mode → get_or (numbers lists.new.items) m []
        ≡ get_or (numbers lists.old.items) m []) }
{
    let Ok(number) = u32::try_from(number) else {
        return Err(NoMemory);
    };
    lists[mode as usize].push(number)?;
    Ok(())
}

/// The numbers of the rules of each mode, in order.
pub(crate) fn modes_of_rules(alloc: Global, sheet: &Sheet<'_>) -> Result<Vec<Vec<u32>>, NoMemory>
    requires { IsSheet (see.sheet sheet.now) }
    ensures count { IfOk result (λ v. length v.items ≡ sheet.now.modes) }
    ensures numbers { IfOk result (λ v. (m : ℕ) → m < sheet.now.modes
        → get_or (numbers v.items) m [] ≡ numbers_in_mode m 0 (map see.rule sheet.now.rules.now)) }
{
    let mut lists = no_numbers(alloc, sheet.modes)?;
    for (number, rule) in sheet.rules.iter().enumerate() {
        add_number(&mut lists, rule.mode, number)?;
    }
    Ok(lists)
}

/// Where a usage is that of a for-each, its body goes to its number.
fn put_body<'b>(bodies: &mut Vec<&'b [Instr<'b>]>, usage: &Usage<'b>)
    requires { AllByRecursion (λ x. x.number < length bodies.old.items)
        (eaches_in_usage (see_usage usage.now)) }
    ensures { see_bodies bodies.new.items
        ≡ bodies_with (see_bodies bodies.old.items) (eaches_in_usage (see_usage usage.now)) }
{
    let Usage::Each(number, _, body) = usage else {
        return;
    };
    bodies[*number as usize] = body;
}

/// The bodies of for-eaches, each at its number.
pub(crate) fn all_eaches<'b>(
    alloc: Global,
    sheet: &Sheet<'b>,
    used: &[Usage<'b>],
) -> Result<Vec<&'b [Instr<'b>]>, NoMemory>
    requires sheet { IsSheet (see.sheet sheet.now) }
    requires used { usages used.now ≡ usages_of (see.sheet sheet.now) }
    ensures count { IfOk result (λ v. length v.items ≡ sheet.now.eaches) }
    ensures bodies { IfOk result (λ v. (f : ForEach) → Contains (eaches_of (see.sheet sheet.now)) f
        → slice_get (see_bodies v.items) f.number ≡ Some f.body) }
{
    let none: &'b [Instr<'b>] = &[];
    let mut bodies = vec![in alloc; none; sheet.eaches as usize]?;
    for usage in used {
        put_body(&mut bodies, usage);
    }
    Ok(bodies)
}
