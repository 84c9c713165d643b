// The modes and the named templates of a stylesheet by their numbers.
// They are put into the arena once they are whole, and handed on as references: a function that holds no
// owned table across its `?` is proved in less time.
ghost use Rattle.std.specs.Prelude.{◌≡◌, ◌++◌, map, option_map, IfOk, IfErr, OnOk};
ghost use Rattle.std.specs.List.{IsDistinct};
ghost use Rattle.tc_model.specs.Names.{same_name};
ghost use Rattle.tc_model.specs.Views as see;
ghost use Rattle.tc_model.specs.SheetText as model;
ghost use Rattle.tc_sheet.specs.Graphs.{alone};
ghost use Rattle.tc_sheet.specs.Views.{body as body_seen, branches_of, written, template as template_seen};
ghost use Rattle.tc_sheet.specs.SeenCalls.{names_seen};
ghost use Rattle.tc_sheet.specs.Tables.{IsAgain, IsTwice, modes_in, puts};
ghost use Rattle.tc_sheet.specs.declared.faults.SheetFault.TheVariants.{NoMemory};

use crate::faults::SheetFault;
use crate::written::{Template, Written, WrittenBranch};
use bumpalo::Bump;
use indexmap::IndexSet;
use std::hash::{BuildHasherDefault, FoldHasher};
use tc_model::Name;

/// Names in the order of their first appearance.
pub(crate) type Names<'b> = IndexSet<Name<'b>, BuildHasherDefault<FoldHasher>, &'b Bump>;

/// Puts the name of a template behind the others, if it has one.
///
/// # Errors
///
/// Malformed at a template whose name is there already.
fn put_name<'b>(names: &mut Names<'b>, template: &Template<'b>) -> Result<(), SheetFault>
    ensures ok { OnOk result (names_seen names.new ≡ names_seen names.old
        ++ model.one_name (template_seen template.now).name) }
    ensures once { IsDistinct same_name (names_seen names.old)
        → OnOk result (IsDistinct same_name (names_seen names.new)) }
    ensures no { IfErr result (IsAgain (names_seen names.old) (template_seen template.now)) }
{
    if let Some(name) = template.name {
        let is_new = names.insert(name)?;
        if !is_new {
            return Err(SheetFault::Malformed(template.place));
        }
    }
    Ok(())
}

/// The names of all named templates, of which no two have one name (XSLT 1.0, 6).
///
/// # Errors
///
/// Malformed at the first template whose name another one before it has.
pub(crate) fn names_of<'b>(
    arena: &'b Bump,
    templates: &[Template<'b>],
) -> Result<&'b Names<'b>, SheetFault>
    ensures ok { IfOk result
        (λ n. names_seen n.now ≡ model.names_of (map template_seen templates.now)) }
    ensures once { OnOk result
        (IsDistinct same_name (model.names_of (map template_seen templates.now))) }
    ensures no { IfErr result (IsTwice (map template_seen templates.now)) }
{
    let names: &'b mut Names<'b> = arena.try_alloc(IndexSet::new(arena))?;
    for template in templates {
        put_name(names, template)?;
    }
    Ok(names)
}

/// Puts a mode behind the others, unless it is the default one or there already.
fn put_mode<'b>(modes: &mut Names<'b>, mode: Option<Name<'b>>) -> Result<(), SheetFault>
    ensures ok { OnOk result (names_seen modes.new
        ≡ puts (names_seen modes.old) (model.one_name (option_map see.name mode.entry))) }
    ensures no { IfErr result (λ e. e ≡ NoMemory) }
{
    if let Some(name) = mode {
        modes.insert(name)?;
    }
    Ok(())
}

/// Puts the modes of branches behind the others.
#[cycle(modes)]
fn put_modes_of_branches<'b>(
    modes: &mut Names<'b>,
    branches: &[WrittenBranch<'b>],
) -> Result<(), SheetFault>
    ensures ok { OnOk result (names_seen modes.new
        ≡ puts (names_seen modes.old) (model.modes_in_branches (branches_of branches.now))) }
    ensures no { IfErr result (λ e. e ≡ NoMemory) }
{
    for branch in branches {
        put_modes(modes, branch.body)?;
    }
    Ok(())
}

/// Puts the modes of an instruction behind the others.
#[cycle(modes)]
#[tactic(auto, using(crate::proofs::WrittenParts::modes_alone))]
fn put_modes_of_one<'b>(modes: &mut Names<'b>, instruction: &Written<'b>) -> Result<(), SheetFault>
    ensures ok { OnOk result (names_seen modes.new
        ≡ puts (names_seen modes.old) (model.modes_in_body (alone (written instruction.now)))) }
    ensures no { IfErr result (λ e. e ≡ NoMemory) }
{
    match instruction {
        Written::Apply(_, mode) => put_mode(modes, *mode),
        Written::Elem(_, inner) | Written::Copy(inner) | Written::ForEach(_, inner) => {
            put_modes(modes, inner)
        }
        Written::Choose(branches, last) => {
            put_modes_of_branches(modes, branches)?;
            put_modes(modes, last)
        }
        Written::Text(_) | Written::Call(_, _) | Written::ValueOf(_) | Written::ValueOfSelf => {
            Ok(())
        }
    }
}

/// Puts the modes of a body behind the others.
#[cycle(modes)]
fn put_modes<'b>(modes: &mut Names<'b>, body: &[Written<'b>]) -> Result<(), SheetFault>
    ensures ok { OnOk result (names_seen modes.new
        ≡ puts (names_seen modes.old) (model.modes_in_body (body_seen body.now))) }
    ensures no { IfErr result (λ e. e ≡ NoMemory) }
{
    for instruction in body {
        put_modes_of_one(modes, instruction)?;
    }
    Ok(())
}

/// Puts the mode of a template and those of its body behind the others.
fn put_modes_of_template<'b>(
    modes: &mut Names<'b>,
    template: &Template<'b>,
) -> Result<(), SheetFault>
    ensures ok { OnOk result (names_seen modes.new
        ≡ puts (names_seen modes.old) (modes_in (template_seen template.now))) }
    ensures no { IfErr result (λ e. e ≡ NoMemory) }
{
    put_mode(modes, template.mode)?;
    put_modes(modes, template.body)
}

/// The modes of the templates that can be used, but for the default one.
pub(crate) fn modes_of<'b>(
    arena: &'b Bump,
    templates: &[Template<'b>],
) -> Result<&'b Names<'b>, SheetFault>
    ensures ok { IfOk result
        (λ m. names_seen m.now ≡ model.modes_of (map template_seen templates.now)) }
    ensures no { IfErr result (λ e. e ≡ NoMemory) }
{
    let modes: &'b mut Names<'b> = arena.try_alloc(IndexSet::new(arena))?;
    for template in templates {
        put_modes_of_template(modes, template)?;
    }
    Ok(modes)
}
