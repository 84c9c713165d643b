// Bodies with numbers for modes, named templates and for-eaches.
// More than 4,294,967,295 modes, named templates, for-eaches or rules are told as want of memory: no text
// within the limit has as many, but the value in the arena that is numbered is bounded by no clause, and a
// condition on its lengths would go through all traversals.
ghost use Rattle.std.specs.Prelude.{◌≡◌, ◌+◌, ◌++◌, filter, map, option_map, IfOk, IfErr, MatchResult, OnOk};
ghost use Rattle.tc_model.specs.Names.{same_name};
ghost use Rattle.tc_model.specs.Numbered.{number_of};
ghost use Rattle.tc_model.specs.Views as see;
ghost use Rattle.tc_model.specs.SheetText as model;
ghost use Rattle.tc_model.specs.SheetTextTrees as trees;
ghost use Rattle.tc_path.specs.Views.{alternative};
ghost use Rattle.tc_sheet.specs.Graphs.{alone};
ghost use Rattle.tc_sheet.specs.Numbers.{IsNumberedBody, IsPut, bodies, eaches_with_rules as with_rules, rule_from};
ghost use Rattle.tc_sheet.specs.Views.{body as body_seen, branches as branches_before, branches_of, written, template as template_seen};
ghost use Rattle.tc_sheet.specs.SeenCalls.{names_seen};
ghost use Rattle.tc_sheet.specs.declared.faults.SheetFault.TheVariants.{NoMemory};

use crate::faults::SheetFault;
use crate::tables::Names;
use crate::written::{Template, Written, WrittenBranch};
use bumpalo::Bump;
use bumpalo::collections::into_bump_slice;
use tc_model::{Branch, Instr, Name, Rule, Sheet};

/// The names by which modes and named templates are numbered.
#[derive(Clone, Copy)]
pub(crate) struct Tables<'t, 'b> {
    pub(crate) modes: &'t Names<'b>,
    pub(crate) names: &'t Names<'b>,
}

/// A number as the types of sheets hold it. One that they do not hold is told as want of memory.
fn number(count: usize) -> Result<u32, SheetFault>
    ensures ok { IfOk result (λ n. n ≡ count) }
    ensures no { IfErr result (λ e. e ≡ NoMemory) }
{
    match u32::try_from(count) {
        Ok(number) => Ok(number),
        Err(_) => Err(SheetFault::NoMemory),
    }
}

/// The number after this one.
fn next_number(count: usize) -> Result<u32, SheetFault>
    ensures ok { IfOk result (λ n. n ≡ count + 1) }
    ensures no { IfErr result (λ e. e ≡ NoMemory) }
{
    let number = number(count)?;
    sum(number, 1)
}

/// How many for-eaches stand in branches and before them.
#[cycle(eaches)]
fn eaches_in_branches(before: u32, branches: &[WrittenBranch<'_>]) -> Result<u32, SheetFault>
    ensures ok { IfOk result
        (λ n. n ≡ before + model.eaches_in_branches (branches_of branches.now)) }
    ensures no { IfErr result (λ e. e ≡ NoMemory) }
{
    let mut count = before;
    for branch in branches {
        count = eaches_in(count, branch.body)?;
    }
    Ok(count)
}

/// The sum of two numbers.
fn sum(first: u32, second: u32) -> Result<u32, SheetFault>
    ensures ok { IfOk result (λ n. n ≡ first + second) }
    ensures no { IfErr result (λ e. e ≡ NoMemory) }
{
    match first.checked_add(second) {
        Some(sum) => Ok(sum),
        None => Err(SheetFault::NoMemory),
    }
}

/// How many for-eaches an instruction is or has, and stand before it.
#[cycle(eaches)]
#[tactic(auto, using(crate::proofs::WrittenParts::eaches_alone))]
fn eaches_in_one(before: u32, instruction: &Written<'_>) -> Result<u32, SheetFault>
    ensures ok { IfOk result (λ n. n ≡ before + model.eaches_in (alone (written instruction.now))) }
    ensures no { IfErr result (λ e. e ≡ NoMemory) }
{
    match instruction {
        Written::ForEach(_, inner) => {
            let outer = sum(before, 1)?;
            eaches_in(outer, inner)
        }
        Written::Elem(_, inner) | Written::Copy(inner) => eaches_in(before, inner),
        Written::Choose(branches, last) => {
            let chosen = eaches_in_branches(before, branches)?;
            eaches_in(chosen, last)
        }
        Written::Text(_)
        | Written::Apply(_, _)
        | Written::Call(_, _)
        | Written::ValueOf(_)
        | Written::ValueOfSelf => Ok(before),
    }
}

/// How many for-eaches stand in a body and before it.
#[cycle(eaches)]
fn eaches_in(before: u32, body: &[Written<'_>]) -> Result<u32, SheetFault>
    ensures ok { IfOk result (λ n. n ≡ before + model.eaches_in (body_seen body.now)) }
    ensures no { IfErr result (λ e. e ≡ NoMemory) }
{
    let mut count = before;
    for instruction in body {
        count = eaches_in_one(count, instruction)?;
    }
    Ok(count)
}

/// How many for-eaches stand in a template, if it makes rules, and before it.
fn eaches_with_rules(before: u32, template: &Template<'_>) -> Result<u32, SheetFault>
    ensures ok { IfOk result (λ n. n ≡ before + with_rules (template_seen template.now)) }
    ensures no { IfErr result (λ e. e ≡ NoMemory) }
{
    if template.makes_rules() {
        eaches_in(before, template.body)
    } else {
        Ok(before)
    }
}

/// How many for-eaches stand in the templates that make rules.
fn eaches_in_rules(templates: &[Template<'_>]) -> Result<u32, SheetFault>
    ensures ok { IfOk result
        (λ n. n ≡ model.eaches_of (filter trees.makes_rules (map template_seen templates.now))) }
    ensures no { IfErr result (λ e. e ≡ NoMemory) }
{
    let mut count = 0;
    for template in templates {
        count = eaches_with_rules(count, template)?;
    }
    Ok(count)
}

/// The number of a mode: that of the default one is 0. `modes_of` lists each, so that it is found.
fn mode_number(tables: &Tables<'_, '_>, mode: Option<Name<'_>>) -> Result<u32, SheetFault>
    ensures ok { IfOk result
        (λ n. n ≡ model.mode_number (names_seen tables.now.modes.now)
        (names_seen tables.now.names.now) (option_map see.name mode.entry)) }
    ensures no { IfErr result (λ e. e ≡ NoMemory) }
{
    let Some(name) = mode else {
        return Ok(0);
    };
    match tables.modes.get_index_of(&name) {
        Some(index) => next_number(index),
        None => next_number(tables.modes.len()),
    }
}

/// The number of a named template. `check_calls` refuses calls of others, so that it is found.
fn name_number(tables: &Tables<'_, '_>, name: &Name<'_>) -> Result<u32, SheetFault>
    ensures ok { IfOk result
        (λ n. n ≡ number_of same_name (see.name name.now) (names_seen tables.now.names.now)) }
    ensures no { IfErr result (λ e. e ≡ NoMemory) }
{
    match tables.names.get_index_of(name) {
        Some(index) => number(index),
        None => number(tables.names.len()),
    }
}

/// Branches with numbers, from this one of a for-each on.
#[cycle(number)]
fn numbered_branches<'b>(
    arena: &'b Bump,
    tables: &Tables<'_, 'b>,
    branches: &[WrittenBranch<'b>],
    next: &mut u32,
) -> Result<&'b [Branch<'b>], SheetFault>
    ensures { MatchResult result
        (λ r. ((rest : trees.WrittenBranches)
        → see.branches r.now
        (model.numbered_branches (names_seen tables.now.modes.now)
        (names_seen tables.now.names.now) next.new rest)
        ≡ model.numbered_branches (names_seen tables.now.modes.now)
        (names_seen tables.now.names.now) next.old (branches_before branches.now rest))
        × (next.new ≡ next.old + model.eaches_in_branches (branches_of branches.now)))
        (λ e. e ≡ NoMemory) }
{
    let mut found = Vec::new(arena);
    for branch in branches {
        let body = numbered(arena, tables, branch.body, next)?;
        found.push(Branch {
            test: branch.test,
            body,
        })?;
    }
    Ok(into_bump_slice(found))
}

/// A for-each's number, and the next one.
fn take_number(next: &mut u32) -> Result<u32, SheetFault>
    ensures ok { IfOk result (λ n. n ≡ next.old) }
    ensures counted { OnOk result (next.new ≡ next.old + 1) }
    ensures no { IfErr result (λ e. e ≡ NoMemory) }
{
    let number = *next;
    *next = sum(number, 1)?;
    Ok(number)
}

/// An instruction with numbers, from this one of a for-each on.
#[cycle(number)]
#[tactic(auto, using(crate::proofs::ViewsWritten::see_written, tc_model::proofs::ViewsBody::see_instruction, crate::proofs::WrittenParts::eaches_alone))]
fn numbered_one<'b>(
    arena: &'b Bump,
    tables: &Tables<'_, 'b>,
    instruction: &Written<'b>,
    next: &mut u32,
) -> Result<Instr<'b>, SheetFault>
    ensures { MatchResult result
        (λ r. ((rest : trees.WrittenBody)
        → see.instruction r
        (model.numbered (names_seen tables.now.modes.now)
        (names_seen tables.now.names.now) next.new rest)
        ≡ model.numbered (names_seen tables.now.modes.now)
        (names_seen tables.now.names.now) next.old (written instruction.now rest))
        × (next.new ≡ next.old + model.eaches_in (alone (written instruction.now))))
        (λ e. e ≡ NoMemory) }
{
    match instruction {
        Written::Text(text) => Ok(Instr::Text(text)),
        Written::Elem(name, inner) => {
            let content = numbered(arena, tables, inner, next)?;
            Ok(Instr::Elem(*name, content))
        }
        Written::Copy(inner) => {
            let copied = numbered(arena, tables, inner, next)?;
            Ok(Instr::Copy(copied))
        }
        Written::Apply(path, mode) => {
            let number_of_mode = mode_number(tables, *mode)?;
            Ok(Instr::Apply(*path, number_of_mode))
        }
        Written::Call(name, _) => {
            let callee = name_number(tables, name)?;
            Ok(Instr::Call(callee))
        }
        Written::ValueOf(path) => Ok(Instr::ValueOf(*path)),
        Written::ValueOfSelf => Ok(Instr::ValueOfSelf),
        Written::Choose(branches, last) => {
            let chosen = numbered_branches(arena, tables, branches, next)?;
            let otherwise = numbered(arena, tables, last, next)?;
            Ok(Instr::Choose(chosen, otherwise))
        }
        Written::ForEach(path, inner) => {
            let number = take_number(next)?;
            let repeated = numbered(arena, tables, inner, next)?;
            Ok(Instr::ForEach(number, *path, repeated))
        }
    }
}

/// A body with numbers, from this one of a for-each on.
#[cycle(number)]
fn numbered<'b>(
    arena: &'b Bump,
    tables: &Tables<'_, 'b>,
    body: &[Written<'b>],
    next: &mut u32,
) -> Result<&'b [Instr<'b>], SheetFault>
    ensures { MatchResult result
        (λ r. (see.body r.now
        ≡ model.numbered (names_seen tables.now.modes.now)
        (names_seen tables.now.names.now) next.old (body_seen body.now))
        × (next.new ≡ next.old + model.eaches_in (body_seen body.now))) (λ e. e ≡ NoMemory) }
{
    let mut found = Vec::new(arena);
    for instruction in body {
        let numbered = numbered_one(arena, tables, instruction, next)?;
        found.push(numbered)?;
    }
    Ok(into_bump_slice(found))
}

/// Puts a template's rules behind the others, one for each alternative, all with this body.
fn put_rules<'b>(
    rules: &mut Vec<Rule<'b>, &'b Bump>,
    template: &Template<'b>,
    mode: u32,
    body: &'b [Instr<'b>],
) -> Result<(), SheetFault>
    ensures ok { OnOk result
        (map see.rule rules.new.items ≡ map see.rule rules.old.items
        ++ map (rule_from mode (see.body body.now))
        (map alternative template.now.alternatives.now)) }
    ensures no { IfErr result (λ e. e ≡ NoMemory) }
{
    for alternative in template.alternatives {
        rules.push(Rule {
            mode,
            pattern: alternative.pattern,
            priority: alternative.priority,
            body,
        })?;
    }
    Ok(())
}

/// A template's body with numbers: those of rules have the lower numbers of for-eaches.
fn body_of<'b>(
    arena: &'b Bump,
    tables: &Tables<'_, 'b>,
    template: &Template<'b>,
    in_rules: &mut u32,
    others: &mut u32,
) -> Result<&'b [Instr<'b>], SheetFault>
    ensures { MatchResult result
        (λ r. IsNumberedBody (names_seen tables.now.modes.now) (names_seen tables.now.names.now)
        (template_seen template.now)
        (see.body r.now) in_rules.old in_rules.new others.old others.new) (λ e. e ≡ NoMemory) }
{
    if template.makes_rules() {
        numbered(arena, tables, template.body, in_rules)
    } else {
        numbered(arena, tables, template.body, others)
    }
}

/// Puts the body of a named template behind the others.
fn put_named<'b>(
    named: &mut Vec<&'b [Instr<'b>], &'b Bump>,
    template: &Template<'b>,
    body: &'b [Instr<'b>],
) -> Result<(), SheetFault>
    ensures { MatchResult result
        (λ _. bodies named.new.items ≡ bodies named.old.items
        ++ map (λ n. see.body body.now) (model.one_name (template_seen template.now).name))
        (λ e. e ≡ NoMemory) }
{
    if template.name.is_some() {
        named.push(body)?;
    }
    Ok(())
}

/// A sheet that is put together: the next numbers of for-eaches in rules and in other templates, the rules, and
/// the bodies of named templates.
#[derive(Drop)]
struct Parts<'b> {
    in_rules: u32,
    others: u32,
    rules: Vec<Rule<'b>, &'b Bump>,
    named: Vec<&'b [Instr<'b>], &'b Bump>,
}

impl<'b> Parts<'b> {
    /// Puts a template to the others.
    fn put(
        &mut self,
        arena: &'b Bump,
        tables: &Tables<'_, 'b>,
        template: &Template<'b>,
    ) -> Result<(), SheetFault>
        ensures { MatchResult result
            (λ _. IsPut (names_seen tables.now.modes.now) (names_seen tables.now.names.now)
            (template_seen template.now) (map see.rule self.old.rules.items)
            (map see.rule self.new.rules.items) (bodies self.old.named.items)
            (bodies self.new.named.items) self.old.in_rules self.new.in_rules self.old.others
            self.new.others) (λ e. e ≡ NoMemory) }
    {
        let body = body_of(
            arena,
            tables,
            template,
            &mut self.in_rules,
            &mut self.others,
        )?;
        let mode = mode_number(tables, template.mode)?;
        put_rules(&mut self.rules, template, mode, body)?;
        put_named(&mut self.named, template, body)
    }
}

/// The sheet of templates that can be used.
pub(crate) fn sheet_of<'b>(
    arena: &'b Bump,
    tables: &Tables<'_, 'b>,
    templates: &[Template<'b>],
) -> Result<Sheet<'b>, SheetFault>
    requires modes { names_seen tables.now.modes.now
        ≡ model.modes_of (map template_seen templates.now) }
    requires names { names_seen tables.now.names.now
        ≡ model.names_of (map template_seen templates.now) }
    ensures ok { IfOk result (λ r. see.sheet r ≡ model.sheet_of (map template_seen templates.now)) }
    ensures no { IfErr result (λ e. e ≡ NoMemory) }
{
    let others = eaches_in_rules(templates)?;
    let modes = next_number(tables.modes.len())?;
    let mut parts = Parts {
        in_rules: 0,
        others,
        rules: Vec::new(arena),
        named: Vec::new(arena),
    };
    for template in templates {
        parts.put(arena, tables, template)?;
    }
    Ok(finished(parts, modes))
}

/// The sheet of what was put together, with so many modes.
fn finished<'b>(parts: Parts<'b>, modes: u32) -> Sheet<'b>
    ensures modes { result.modes ≡ modes }
    ensures eaches { result.eaches ≡ parts.entry.others }
    ensures rules { result.rules.now ≡ parts.entry.rules.items }
    ensures named { result.named.now ≡ parts.entry.named.items }
{
    let Parts {
        in_rules: _,
        others,
        rules,
        named,
    } = parts;
    Sheet {
        modes,
        eaches: others,
        rules: into_bump_slice(rules),
        named: into_bump_slice(named),
    }
}
