// To which elements the contents of elements lead.
ghost use Rattle.std.specs.Prelude.{◌≡◌, ◌≤◌, ◌<◌, ◌++◌, ◌∷◌, [], IfOk, OnOk, map, length, if◌then◌else◌};
ghost use Rattle.std.specs.List.{filter_map};
ghost use Rattle.tc_graph.specs.Graph.{rows_of};
ghost use Rattle.tc_dtd.specs.Declarations as t;
ghost use Rattle.tc_dtd.specs.Numbers.{number_in, numbers_below, row_of, link_rows, marked_from};
ghost use Rattle.tc_dtd.specs.Numbers as n;
ghost use Rattle.tc_dtd.specs.Views as see;

use crate::declarations::{Content, Decl, Particle};
use crate::numbers::{Names, number_of};
use bumpalo::Bump;
use bumpalo::collections::into_bump_slice;
use tc_base::NoMemory;

/// Adds the number of a name, if it has one.
fn add_link<'b>(
    found: &Names<'b>,
    name: &'b str,
    row: &mut Vec<usize, &'b Bump>,
) -> Result<(), NoMemory>
    ensures { OnOk result (row.new.items ≡ row.old.items
        ++ filter_map (number_in (see.names found.now.keys)) (name.now ∷ [])) }
{
    if let Some(number) = number_of(found, name) {
        row.push(number)?;
    }
    Ok(())
}

/// Adds the numbers of names.
fn add_names<'b>(
    found: &Names<'b>,
    names: &[&'b str],
    row: &mut Vec<usize, &'b Bump>,
) -> Result<(), NoMemory>
    ensures { OnOk result (row.new.items ≡ row.old.items
        ++ filter_map (number_in (see.names found.now.keys)) (see.names names.now)) }
{
    for name in names {
        add_link(found, name, row)?;
    }
    Ok(())
}

/// Adds the numbers of the names in a particle.
#[cycle(links)]
#[tactic(auto, using(crate::proofs::ViewsLaws::see_particle))]
fn add_links<'b>(
    found: &Names<'b>,
    particle: &Particle<'b>,
    row: &mut Vec<usize, &'b Bump>,
) -> Result<(), NoMemory>
    ensures { OnOk result
        (row.new.items ≡ row.old.items
        ++ filter_map (number_in (see.names found.now.keys))
        (t.names_in (see.particle particle.now))) }
{
    match particle {
        Particle::Name(name) => add_link(found, name, row),
        Particle::Seq(ps) | Particle::Choice(ps) => add_all_links(found, ps, row),
        Particle::Optional(p) | Particle::Star(p) | Particle::Plus(p) => add_links(found, p, row),
    }
}

#[cycle(links)]
fn add_all_links<'b>(
    found: &Names<'b>,
    particles: &[Particle<'b>],
    row: &mut Vec<usize, &'b Bump>,
) -> Result<(), NoMemory>
    ensures { OnOk result
        (row.new.items ≡ row.old.items
        ++ filter_map (number_in (see.names found.now.keys))
        (t.names_in_all (see.particles particles.now))) }
{
    for particle in particles {
        add_links(found, particle, row)?;
    }
    Ok(())
}

/// The numbers of the elements that a content may hold; one number more stands for all of them.
fn row<'b>(
    arena: &'b Bump,
    found: &Names<'b>,
    content: &Content<'b>,
    count: usize,
) -> Result<&'b [usize], NoMemory>
    requires { count ≡ length (see.names found.now.keys) }
    ensures { IfOk result
        (λ r. r.now ≡ row_of (see.names found.now.keys) (see.content content.now)) }
{
    let mut out = Vec::new(arena);
    match content {
        Content::Nothing => {}
        Content::Any => out.push(count)?,
        Content::Mixed(names) => add_names(found, names, &mut out)?,
        Content::Children(p) => add_links(found, p, &mut out)?,
    }
    Ok(into_bump_slice(out))
}

/// The numbers below this one.
fn all_below<'b>(arena: &'b Bump, count: usize) -> Result<&'b [usize], NoMemory>
    ensures { IfOk result (λ r. r.now ≡ numbers_below count) }
{
    let mut out: Vec<usize, &'b Bump> = Vec::new(arena);
    for number in 0..count {
        out.push(number)?;
    }
    Ok(into_bump_slice(out))
}

/// Puts of each element those that it may hold, and of the number that stands for all of them all, where none are yet.
pub(crate) fn put_links<'b>(
    arena: &'b Bump,
    found: &Names<'b>,
    decls: &[Decl<'b>],
    rows: &mut Vec<&'b [usize], &'b Bump>,
) -> Result<(), NoMemory>
    requires found { see.names found.now.keys ≡ n.names_of (map see.declaration decls.now) }
    requires none { rows.old.items ≡ [] }
    ensures { OnOk result (rows_of rows.new.items ≡ link_rows (map see.declaration decls.now)) }
{
    let count = decls.len();
    let last = all_below(arena, count)?;
    for decl in decls {
        let one = row(arena, found, &decl.content, count)?;
        rows.push(one)?;
    }
    rows.push(last)?;
    Ok(())
}

/// Puts a declaration behind the others, if it is kept.
fn put_kept<'b>(
    out: &mut Vec<Decl<'b>, &'b Bump>,
    decl: &Decl<'b>,
    is_kept: bool,
) -> Result<(), NoMemory>
    ensures { OnOk result (map see.declaration out.new.items ≡ map see.declaration out.old.items
        ++ (if is_kept then see.declaration decl.now ∷ [] else [])) }
{
    if is_kept {
        out.push(*decl)?;
    }
    Ok(())
}

/// The declarations that are marked.
pub(crate) fn marked<'b>(
    arena: &'b Bump,
    decls: &[Decl<'b>],
    marks: &[bool],
) -> Result<&'b [Decl<'b>], NoMemory>
    requires { length decls.now ≤ length marks.now }
    ensures { IfOk result
        (λ v. map see.declaration v.now ≡ marked_from 0 marks.now (map see.declaration decls.now)) }
{
    let mut out = Vec::new(arena);
    for (number, decl) in decls.iter().enumerate() {
        put_kept(&mut out, decl, marks[number])?;
    }
    Ok(into_bump_slice(out))
}
