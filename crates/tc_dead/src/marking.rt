// A stylesheet whose results tell whether a spot is reached.
ghost use Rattle.std.specs.Prelude.{◌≡◌, ◌+◌, IfOk, OnOk, Contains};
ghost use Rattle.tc_dead.specs.Marked as m;
ghost use Rattle.tc_dead.specs.Marked.{mark_before, marked_at};
ghost use Rattle.tc_dead.specs.Spots as s;
ghost use Rattle.tc_dead.specs.Spots.{same_spot, spots_of};
ghost use Rattle.tc_dead.specs.Tells.{Tells};
ghost use Rattle.tc_dead.specs.Views.{seen, placed, IsBegunBody, IsMarkedBranches, IsMarkedLast, IsMarkedNamed, IsMarkedRules, IsPut, IsPutBody};
ghost use Rattle.tc_model.specs.Safety.{IsResultOf};
ghost use Rattle.tc_model.specs.Sheets as model;
ghost use Rattle.tc_model.specs.Trees.{Trees};
ghost use Rattle.tc_model.specs.Views as see;
ghost use Rattle.tc_model.specs.WellFormed.{IsSheet};

use crate::schema::{mark_name, wrapper_name};
use crate::spots::{Spot, next_number, one_more};
use bumpalo::Bump;
use bumpalo::collections::into_bump_slice;
use tc_base::NoMemory;
use tc_model::{Branch, Instr, Path, Rule, Sheet};

/// The numbers of the next branch and of the next for-each.
#[derive(Clone, Copy)]
pub(crate) struct Numbers {
    branch: u32,
    each: u32,
}

/// What is marked where: the arena of the copy, and the spot.
#[derive(Clone, Copy)]
struct Marker<'b> {
    arena: &'b Bump,
    spot: Spot,
}

/// A number, and the next one.
fn take_number(next: &mut u32) -> Result<u32, NoMemory>
    ensures ok { IfOk result (λ n. n ≡ next.old) }
    ensures counted { OnOk result (next.new ≡ next.old + 1) }
{
    let number = *next;
    *next = one_more(number)?;
    Ok(number)
}

/// Whether two spots are the same.
fn is_same(one: Spot, other: Spot) -> bool
    ensures { result ≡ same_spot (seen one) (seen other) }
{
    match (one, other) {
        (Spot::Rule(one), Spot::Rule(other)) => one == other,
        (Spot::Named(one), Spot::Named(other)) => one == other,
        (Spot::Branch(one), Spot::Branch(other)) => one == other,
        _ => false,
    }
}

/// Puts a mark behind other instructions: an element that holds an empty one.
fn put_mark<'b>(arena: &'b Bump, found: &mut Vec<Instr<'b>, &'b Bump>) -> Result<(), NoMemory>
    ensures { OnOk result ((rest : model.Body) → placed found.new.items rest
        ≡ placed found.old.items (mark_before rest)) }
{
    let inner = arena.try_alloc_slice_copy(&[Instr::Elem(mark_name(), &[])])?;
    found.push(Instr::Elem(mark_name(), inner))?;
    Ok(())
}

/// Puts an instruction behind others.
#[inline(never)]
fn put<'b>(found: &mut Vec<Instr<'b>, &'b Bump>, instruction: &Instr<'b>) -> Result<(), NoMemory>
    ensures { OnOk result ((rest : model.Body) → placed found.new.items rest
        ≡ placed found.old.items (see.instruction instruction.now rest)) }
{
    found.push(*instruction)?;
    Ok(())
}

/// Puts a copy behind other instructions, in the element that stands around it.
#[inline(never)]
fn put_copy<'b>(
    arena: &'b Bump,
    found: &mut Vec<Instr<'b>, &'b Bump>,
    copied: &'b [Instr<'b>],
) -> Result<(), NoMemory>
    ensures { OnOk result ((rest : model.Body) → placed found.new.items rest
        ≡ placed found.old.items (model.put_element m.wrapper_name
        (model.copy (see.body copied.now) model.no_instruction) rest)) }
{
    let inner = arena.try_alloc_slice_copy(&[Instr::Copy(copied)])?;
    found.push(Instr::Elem(wrapper_name(), inner))?;
    Ok(())
}

/// Puts a choice behind other instructions.
#[inline(never)]
fn put_choice<'b>(
    found: &mut Vec<Instr<'b>, &'b Bump>,
    branches: &'b [Branch<'b>],
    last: &'b [Instr<'b>],
) -> Result<(), NoMemory>
    ensures { OnOk result ((rest : model.Body) → placed found.new.items rest
        ≡ placed found.old.items
        (model.choose (see.branches branches.now (model.otherwise (see.body last.now))) rest)) }
{
    found.push(Instr::Choose(branches, last))?;
    Ok(())
}

/// Puts a for-each behind other instructions.
#[inline(never)]
fn put_for_each<'b>(
    found: &mut Vec<Instr<'b>, &'b Bump>,
    number: u32,
    path: &Path<'b>,
    body: &'b [Instr<'b>],
) -> Result<(), NoMemory>
    ensures { OnOk result ((rest : model.Body) → placed found.new.items rest
        ≡ placed found.old.items
        (model.for_each number (see.path path.now) (see.body body.now) rest)) }
{
    found.push(Instr::ForEach(number, *path, body))?;
    Ok(())
}

/// Puts an instruction behind others as it is to stand in the marked stylesheet: of a literal element what it holds.
#[cycle(mark)]
fn put_one<'b>(
    marker: &Marker<'b>,
    found: &mut Vec<Instr<'b>, &'b Bump>,
    instruction: &Instr<'b>,
    next: &mut Numbers,
) -> Result<(), NoMemory>
    ensures { OnOk result (IsPut
        (seen marker.now.spot) instruction.now next.old next.new found.old.items found.new.items) }
{
    match instruction {
        Instr::Elem(_, inner) => put_all(marker, found, inner, next),
        Instr::Copy(inner) => {
            let copied = marked_body(marker, false, inner, next)?;
            put_copy(marker.arena, found, copied)
        }
        Instr::Choose(branches, last) => {
            let chosen = marked_branches(marker, branches, next)?;
            let otherwise = marked_last(marker, last, next)?;
            put_choice(found, chosen, otherwise)
        }
        Instr::ForEach(_, path, inner) => {
            let number = take_number(&mut next.each)?;
            let repeated = marked_body(marker, false, inner, next)?;
            put_for_each(found, number, path, repeated)
        }
        Instr::Text(_)
        | Instr::Apply(_, _)
        | Instr::Call(_)
        | Instr::ValueOf(_)
        | Instr::ValueOfSelf => put(found, instruction),
    }
}

/// Puts the instructions of a body behind others.
#[cycle(mark)]
fn put_all<'b>(
    marker: &Marker<'b>,
    found: &mut Vec<Instr<'b>, &'b Bump>,
    body: &[Instr<'b>],
    next: &mut Numbers,
) -> Result<(), NoMemory>
    ensures { OnOk result (IsPutBody
        (seen marker.now.spot) body.now next.old next.new found.old.items found.new.items) }
{
    for instruction in body {
        put_one(marker, found, instruction, next)?;
    }
    Ok(())
}

/// A body in the marked stylesheet, with a mark where it is that of the spot.
#[cycle(mark)]
fn marked_body<'b>(
    marker: &Marker<'b>,
    is_spot: bool,
    body: &[Instr<'b>],
    next: &mut Numbers,
) -> Result<&'b [Instr<'b>], NoMemory>
    ensures { IfOk result (λ r. IsBegunBody
        (seen marker.now.spot) is_spot body.now next.old next.new r.now) }
{
    let mut found = Vec::new(marker.arena);
    if is_spot {
        put_mark(marker.arena, &mut found)?;
    }
    put_all(marker, &mut found, body, next)?;
    Ok(into_bump_slice(found))
}

/// Whether the next branch is the spot.
#[inline(never)]
fn is_next_branch(spot: Spot, next: &mut Numbers) -> Result<bool, NoMemory>
    ensures is_so { IfOk result (λ b. b ≡ same_spot (seen spot) (s.a_branch next.old.branch)) }
    ensures counted { OnOk result (next.new.branch ≡ next.old.branch + 1) }
    ensures kept { OnOk result (next.new.each ≡ next.old.each) }
{
    let number = take_number(&mut next.branch)?;
    Ok(is_same(spot, Spot::Branch(number)))
}

/// The branches of a choice in the marked stylesheet.
#[cycle(mark)]
fn marked_branches<'b>(
    marker: &Marker<'b>,
    branches: &[Branch<'b>],
    next: &mut Numbers,
) -> Result<&'b [Branch<'b>], NoMemory>
    ensures { IfOk result (λ r. IsMarkedBranches
        (seen marker.now.spot) branches.now next.old next.new r.now) }
{
    let mut found = Vec::new(marker.arena);
    for branch in branches {
        let is_spot = is_next_branch(marker.spot, next)?;
        let body = marked_body(marker, is_spot, branch.body, next)?;
        found.push(Branch {
            test: branch.test,
            body,
        })?;
    }
    Ok(into_bump_slice(found))
}

/// The `otherwise` of a choice in the marked stylesheet.
#[cycle(mark)]
fn marked_last<'b>(
    marker: &Marker<'b>,
    last: &[Instr<'b>],
    next: &mut Numbers,
) -> Result<&'b [Instr<'b>], NoMemory>
    ensures { IfOk result (λ r. IsMarkedLast
        (seen marker.now.spot) last.now next.old next.new r.now) }
{
    if last.is_empty() {
        return Ok(&[]);
    }
    let is_last = is_next_branch(marker.spot, next)?;
    marked_body(marker, is_last, last, next)
}

/// The rules in the marked stylesheet.
fn marked_rules<'b>(
    marker: &Marker<'b>,
    rules: &[Rule<'b>],
    next: &mut Numbers,
) -> Result<&'b [Rule<'b>], NoMemory>
    ensures { IfOk result (λ r. IsMarkedRules
        (seen marker.now.spot) rules.now next.old next.new r.now) }
{
    let mut found = Vec::new(marker.arena);
    for (index, rule) in rules.iter().enumerate() {
        let number = next_number(index)?;
        let is_spot = is_same(marker.spot, Spot::Rule(number));
        let body = marked_body(marker, is_spot, rule.body, next)?;
        found.push(Rule {
            mode: rule.mode,
            pattern: rule.pattern,
            priority: rule.priority,
            body,
        })?;
    }
    Ok(into_bump_slice(found))
}

/// The named bodies in the marked stylesheet.
fn marked_named<'b>(
    marker: &Marker<'b>,
    named: &[&[Instr<'b>]],
    next: &mut Numbers,
) -> Result<&'b [&'b [Instr<'b>]], NoMemory>
    ensures { IfOk result (λ r. IsMarkedNamed
        (seen marker.now.spot) named.now next.old next.new r.now) }
{
    let mut found = Vec::new(marker.arena);
    for (index, body) in named.iter().enumerate() {
        let number = next_number(index)?;
        let is_spot = is_same(marker.spot, Spot::Named(number));
        let body = marked_body(marker, is_spot, body, next)?;
        found.push(body)?;
    }
    Ok(into_bump_slice(found))
}

/// The stylesheet in which a spot is marked: literal elements are replaced by what they hold, copies stand in an element,
/// and the spot's body begins with a mark. So the result of a document is valid for the plain schema exactly where the
/// document doesn't instantiate the spot.
pub fn marked<'b>(arena: &'b Bump, sheet: &Sheet<'b>, spot: Spot) -> Result<Sheet<'b>, NoMemory>
    requires sheet { IsSheet (see.sheet sheet.now) }
    requires spot { Contains (spots_of (see.sheet sheet.now)) (seen spot) }
    ensures made { IfOk result (λ m. (see.sheet m ≡ marked_at (seen spot) (see.sheet sheet.now))
        × IsSheet (see.sheet m)) }
    ensures tells { IfOk result (λ m. (d out : Trees) → IsResultOf (see.sheet m) d out
        → Tells (seen spot) (see.sheet sheet.now) d out) }
{
    let marker = Marker { arena, spot };
    let mut next = Numbers { branch: 1, each: 0 };
    let rules = marked_rules(&marker, sheet.rules, &mut next)?;
    let named = marked_named(&marker, sheet.named, &mut next)?;
    Ok(Sheet {
        modes: sheet.modes,
        eaches: next.each,
        rules,
        named,
    })
}
