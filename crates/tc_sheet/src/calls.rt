// The calls of templates: whether each has its template, and whether one leads back to the named template in which
// it stands.
ghost use Rattle.std.specs.Prelude.{◌≡◌, ◌++◌, ◌<◌, ◌∷◌, [], All, None, Some, length, map, true, IfOk, IfErr, OnOk, option_map};
ghost use Rattle.std.specs.List.{list_any};
ghost use Rattle.tc_graph.specs.Graph.{rows_of};
ghost use Rattle.tc_model.specs.Names.{same_name};
ghost use Rattle.tc_model.specs.Views as see;
ghost use Rattle.tc_model.specs.SheetText as model;
ghost use Rattle.tc_sheet.specs.Called.{AreNamesOf};
ghost use Rattle.tc_sheet.specs.Graphs.{IsCallFault, IsFirstUndefined, IsWithin, alone, callee_of, caller_of, calls_from, first_back, first_undefined, leads_back as back, numbered_from, row_of};
ghost use Rattle.tc_sheet.specs.Views.{body as body_seen, branches_of, written, template as template_seen};
ghost use Rattle.tc_sheet.specs.SeenCalls.{call as seen_call, names_seen, site as seen_site};
ghost use Rattle.tc_sheet.specs.declared.faults.SheetFault.TheVariants.{NoMemory};

use crate::faults::SheetFault;
use crate::tables::Names;
use crate::written::{Template, Written, WrittenBranch};
use bumpalo::Bump;
use bumpalo::collections::into_bump_slice;
use tc_base::Place;
use tc_graph::{Walk, components};
use tc_model::Name;

/// A call as it is written.
#[derive(Clone, Copy)]
pub(crate) struct Site<'b> {
    name: Name<'b>,
    place: Place,
}

/// A call: the number of the named template in which it stands, if it stands in one, that of the template which
/// is called, and its place.
#[derive(Clone, Copy)]
pub(crate) struct Call {
    caller: Option<usize>,
    callee: usize,
    place: Place,
}

/// Puts the calls of branches behind the others.
#[cycle(calls)]
fn put_calls_of_branches<'b>(
    sites: &mut Vec<Site<'b>, &'b Bump>,
    branches: &[WrittenBranch<'b>],
) -> Result<(), SheetFault>
    ensures ok { OnOk result (map seen_site sites.new.items ≡ map seen_site sites.old.items
        ++ model.calls_in_branches (branches_of branches.now)) }
    ensures no { IfErr result (λ e. e ≡ NoMemory) }
{
    for branch in branches {
        put_calls(sites, branch.body)?;
    }
    Ok(())
}

/// Puts the calls of an instruction behind the others.
#[cycle(calls)]
#[tactic(auto, using(crate::proofs::WrittenParts::calls_alone))]
fn put_calls_of_one<'b>(
    sites: &mut Vec<Site<'b>, &'b Bump>,
    instruction: &Written<'b>,
) -> Result<(), SheetFault>
    ensures ok { OnOk result (map seen_site sites.new.items ≡ map seen_site sites.old.items
        ++ model.calls_in_body (alone (written instruction.now))) }
    ensures no { IfErr result (λ e. e ≡ NoMemory) }
{
    match instruction {
        Written::Call(name, place) => {
            sites.push(Site {
                name: *name,
                place: *place,
            })?;
            Ok(())
        }
        Written::Elem(_, inner) | Written::Copy(inner) | Written::ForEach(_, inner) => {
            put_calls(sites, inner)
        }
        Written::Choose(branches, last) => {
            put_calls_of_branches(sites, branches)?;
            put_calls(sites, last)
        }
        Written::Text(_) | Written::Apply(_, _) | Written::ValueOf(_) | Written::ValueOfSelf => {
            Ok(())
        }
    }
}

/// Puts the calls of a body behind the others.
#[cycle(calls)]
fn put_calls<'b>(
    sites: &mut Vec<Site<'b>, &'b Bump>,
    body: &[Written<'b>],
) -> Result<(), SheetFault>
    ensures ok { OnOk result (map seen_site sites.new.items ≡ map seen_site sites.old.items
        ++ model.calls_in_body (body_seen body.now)) }
    ensures no { IfErr result (λ e. e ≡ NoMemory) }
{
    for instruction in body {
        put_calls_of_one(sites, instruction)?;
    }
    Ok(())
}

/// The number of the template that is called.
///
/// # Errors
///
/// Undefined where there is none.
fn callee(names: &Names<'_>, site: &Site<'_>) -> Result<usize, SheetFault>
    ensures ok { IfOk result (λ k. k ≡ callee_of (names_seen names.now) (seen_site site.now)) }
    ensures first { OnOk result
        (first_undefined (names_seen names.now) (seen_site site.now ∷ []) ≡ None) }
    ensures no { IfErr result (IsFirstUndefined (names_seen names.now) (seen_site site.now ∷ [])) }
{
    match names.get_index_of(&site.name) {
        Some(callee) => Ok(callee),
        None => Err(SheetFault::Undefined(site.place)),
    }
}

/// Puts calls behind the others, and gives the numbers of the templates that they call.
///
/// # Errors
///
/// Undefined at the first call of a template that does not exist.
fn put_numbered<'b>(
    arena: &'b Bump,
    names: &Names<'b>,
    caller: Option<usize>,
    sites: &[Site<'b>],
    calls: &mut Vec<Call, &'b Bump>,
) -> Result<&'b [usize], SheetFault>
    ensures row { IfOk result
        (λ r. r.now ≡ map (callee_of (names_seen names.now)) (map seen_site sites.now)) }
    ensures put { OnOk result (map seen_call calls.new.items ≡ map seen_call calls.old.items
        ++ map (numbered_from (names_seen names.now) caller) (map seen_site sites.now)) }
    ensures first { OnOk result
        (first_undefined (names_seen names.now) (map seen_site sites.now) ≡ None) }
    ensures no { IfErr result (IsFirstUndefined (names_seen names.now) (map seen_site sites.now)) }
{
    let mut row = Vec::new(arena);
    for site in sites {
        let callee = callee(names, site)?;
        row.push(callee)?;
        calls.push(Call {
            caller,
            callee,
            place: site.place,
        })?;
    }
    Ok(into_bump_slice(row))
}

/// The number of a template, if it has a name.
fn caller(names: &Names<'_>, template: &Template<'_>) -> Option<usize>
    requires { All (λ n. list_any (same_name n) (names_seen names.now) ≡ true)
        (model.one_name (template_seen template.now).name) }
    ensures { result ≡ caller_of (names_seen names.now) (template_seen template.now) }
{
    match template.name {
        Some(name) => names.get_index_of(&name),
        None => None,
    }
}

/// Puts the row of a named template behind the others.
fn put_row<'b>(
    rows: &mut Vec<&'b [usize], &'b Bump>,
    template: &Template<'b>,
    row: &'b [usize],
) -> Result<(), SheetFault>
    ensures ok { OnOk result (rows_of rows.new.items ≡ rows_of rows.old.items
        ++ map (λ n. row.now) (model.one_name (template_seen template.now).name)) }
    ensures no { IfErr result (λ e. e ≡ NoMemory) }
{
    if template.name.is_some() {
        rows.push(row)?;
    }
    Ok(())
}

/// The calls in a body.
fn sites_of<'b>(arena: &'b Bump, body: &[Written<'b>]) -> Result<&'b [Site<'b>], SheetFault>
    ensures ok { IfOk result (λ s. map seen_site s.now ≡ model.calls_in_body (body_seen body.now)) }
    ensures no { IfErr result (λ e. e ≡ NoMemory) }
{
    let mut sites = Vec::new(arena);
    put_calls(&mut sites, body)?;
    Ok(into_bump_slice(sites))
}

/// Puts the calls of a template behind the others, and its row, if it has a name.
///
/// # Errors
///
/// Undefined at the first call in it of a template that does not exist.
fn put_template<'b>(
    arena: &'b Bump,
    names: &Names<'b>,
    template: &Template<'b>,
    rows: &mut Vec<&'b [usize], &'b Bump>,
    calls: &mut Vec<Call, &'b Bump>,
) -> Result<(), SheetFault>
    requires { All (λ n. list_any (same_name n) (names_seen names.now) ≡ true)
        (model.one_name (template_seen template.now).name) }
    ensures rows { OnOk result (rows_of rows.new.items ≡ rows_of rows.old.items
        ++ row_of (names_seen names.now) (template_seen template.now)) }
    ensures put { OnOk result (map seen_call calls.new.items ≡ map seen_call calls.old.items
        ++ calls_from (names_seen names.now) (template_seen template.now)) }
    ensures first { OnOk result
        (first_undefined (names_seen names.now)
        (model.calls_in_body (body_seen template.now.body.now)) ≡ None) }
    ensures no { IfErr result
        (IsFirstUndefined (names_seen names.now)
        (model.calls_in_body (body_seen template.now.body.now))) }
{
    let sites = sites_of(arena, template.body)?;
    let caller = caller(names, template);
    let row = put_numbered(arena, names, caller, sites, calls)?;
    put_row(rows, template, row)
}

/// The place of the first call that leads back to the template in which it stands.
fn first_loop(walk: &Walk<'_>, calls: &[Call]) -> Option<Place>
    requires { All (λ c. IsWithin (length walk.now.states.items) (seen_call c)) calls.now }
    ensures { option_map see.place result
        ≡ first_back walk.now.states.items (map seen_call calls.now) }
{
    for call in calls {
        if leads_back(walk, call) {
            return Some(call.place);
        }
    }
    None
}

/// Whether a call leads back to the template in which it stands.
fn leads_back(walk: &Walk<'_>, call: &Call) -> bool
    requires { IsWithin (length walk.now.states.items) (seen_call call.now) }
    ensures { result ≡ back walk.now.states.items call.now.caller call.now.callee }
{
    match call.caller {
        Some(caller) => walk.joins(caller, call.callee),
        None => false,
    }
}

/// Takes templates whose calls all have a template, and of whose named ones none calls itself, also by way of
/// others.
///
/// # Errors
///
/// Undefined at the first call of a template that does not exist; else CallLoop at the first call that leads back
/// to the named template in which it stands.
pub(crate) fn check_calls<'b>(
    arena: &'b Bump,
    names: &Names<'b>,
    templates: &[Template<'b>],
) -> Result<(), SheetFault>
    requires { AreNamesOf (map template_seen templates.now) (names_seen names.now) }
    ensures defined { OnOk result
        (All (λ c. model.IsDefined (map template_seen templates.now) c.call)
        (model.calls_of (map template_seen templates.now))) }
    ensures no_loop { OnOk result
        (All (λ c. model.IsLoop (map template_seen templates.now) c → ⊥)
        (model.calls_of (map template_seen templates.now))) }
    ensures no { IfErr result (IsCallFault (map template_seen templates.now)) }
{
    let mut rows = Vec::new(arena);
    let mut calls = Vec::new(arena);
    for template in templates {
        put_template(arena, names, template, &mut rows, &mut calls)?;
    }
    let rows: &'b [&'b [usize]] = into_bump_slice(rows);
    let calls: &'b [Call] = into_bump_slice(calls);
    let walk = components(arena, rows)?;
    match first_loop(&walk, calls) {
        Some(place) => Err(SheetFault::CallLoop(place)),
        None => Ok(()),
    }
}
