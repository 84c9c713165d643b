// What contents become in the grammar.
ghost use Rattle.std.specs.Prelude.{◌≡◌, ◌<◌, ◌^◌, map, length, IfOk};
ghost use Rattle.tc_model.specs.Grammars as g;
ghost use Rattle.tc_model.specs.Simplifies.{both};
ghost use Rattle.tc_model.specs.Views as seen;
ghost use Rattle.tc_dtd.specs.Built as built;
ghost use Rattle.tc_dtd.specs.Views as see;

use crate::declarations::{Content, Decl, Particle};
use crate::numbers::{Names, number_of};
use bumpalo::Bump;
use bumpalo::collections::into_bump_slice;
use tc_base::NoMemory;
use tc_model::{ElemPat, Name, NameClass, Pat};

/// A reference to an element; to one that isn't declared, nothing is allowed.
#[tactic(auto, using(tc_model::proofs::ViewsGrammar::see_pattern))]
pub(crate) fn reference<'b>(found: &Names<'b>, name: &'b str) -> Pat<'b>
    requires { length (see.names found.now.keys) < 2 ^ 31 }
    ensures { seen.pattern result ≡ built.reference (see.names found.now.keys) name.now }
{
    match number_of(found, name) {
        Some(number) => Pat::Ref(number as u32 + 1),
        None => Pat::NotAllowed,
    }
}

/// Two patterns side by side.
fn two<'b>(arena: &'b Bump, first: Pat<'b>, second: Pat<'b>) -> Result<&'b [Pat<'b>], NoMemory>
    ensures { IfOk result
        (λ ps. seen.patterns ps.now ≡ both (seen.pattern first.entry) (seen.pattern second.entry)) }
{
    let ps: &'b [Pat<'b>] = arena.try_alloc_slice_copy(&[first, second])?;
    Ok(ps)
}

/// One or more of a pattern.
#[tactic(auto, using(tc_model::proofs::ViewsGrammar::see_pattern))]
fn repeated<'b>(arena: &'b Bump, pattern: Pat<'b>) -> Result<Pat<'b>, NoMemory>
    ensures { IfOk result (λ p. seen.pattern p ≡ g.one_or_more (seen.pattern pattern.entry)) }
{
    let pattern = arena.try_alloc(pattern)?;
    Ok(Pat::OneOrMore(pattern))
}

/// This pattern or nothing.
#[tactic(auto, using(tc_model::proofs::ViewsGrammar::see_pattern))]
fn or_nothing<'b>(arena: &'b Bump, pattern: Pat<'b>) -> Result<Pat<'b>, NoMemory>
    ensures { IfOk result
        (λ p. seen.pattern p ≡ g.choice (both (seen.pattern pattern.entry) g.empty)) }
{
    let ps = two(arena, pattern, Pat::Empty)?;
    Ok(Pat::Choice(ps))
}

/// What a particle becomes.
#[cycle(made)]
#[tactic(auto, using(crate::proofs::ViewsLaws::see_particle, tc_model::proofs::ViewsGrammar::see_pattern))]
fn particle_pattern<'b>(
    arena: &'b Bump,
    found: &Names<'b>,
    particle: &Particle<'b>,
) -> Result<Pat<'b>, NoMemory>
    requires { length (see.names found.now.keys) < 2 ^ 31 }
    ensures { IfOk result (λ p. seen.pattern p
        ≡ built.particle_pattern (see.names found.now.keys) (see.particle particle.now)) }
{
    match particle {
        Particle::Name(name) => Ok(reference(found, name)),
        Particle::Seq(ps) => Ok(Pat::Group(particle_patterns(arena, found, ps)?)),
        Particle::Choice(ps) => Ok(Pat::Choice(particle_patterns(arena, found, ps)?)),
        Particle::Optional(p) => {
            let p = particle_pattern(arena, found, p)?;
            or_nothing(arena, p)
        }
        Particle::Star(p) => {
            let p = particle_pattern(arena, found, p)?;
            let p = repeated(arena, p)?;
            or_nothing(arena, p)
        }
        Particle::Plus(p) => {
            let p = particle_pattern(arena, found, p)?;
            repeated(arena, p)
        }
    }
}

#[cycle(made)]
fn particle_patterns<'b>(
    arena: &'b Bump,
    found: &Names<'b>,
    particles: &[Particle<'b>],
) -> Result<&'b [Pat<'b>], NoMemory>
    requires { length (see.names found.now.keys) < 2 ^ 31 }
    ensures { IfOk result (λ ps. seen.patterns ps.now
        ≡ built.particle_patterns (see.names found.now.keys) (see.particles particles.now)) }
{
    let mut out = Vec::new(arena);
    for one in particles {
        let p = particle_pattern(arena, found, one)?;
        out.push(p)?;
    }
    Ok(into_bump_slice(out))
}

/// A text, and references to these elements.
fn text_and_references<'b>(
    arena: &'b Bump,
    found: &Names<'b>,
    names: &[&'b str],
) -> Result<&'b [Pat<'b>], NoMemory>
    requires { length (see.names found.now.keys) < 2 ^ 31 }
    ensures { IfOk result (λ ps. seen.patterns ps.now
        ≡ g.more g.text (built.references (see.names found.now.keys) (see.names names.now))) }
{
    let mut out = Vec::from_slice(arena, &[Pat::Text])?;
    for name in names {
        out.push(reference(found, name))?;
    }
    Ok(into_bump_slice(out))
}

/// Any number of texts and of these elements.
#[tactic(auto, using(tc_model::proofs::ViewsGrammar::see_pattern))]
fn with_texts<'b>(
    arena: &'b Bump,
    found: &Names<'b>,
    names: &[&'b str],
) -> Result<Pat<'b>, NoMemory>
    requires { length (see.names found.now.keys) < 2 ^ 31 }
    ensures { IfOk result (λ p. seen.pattern p
        ≡ built.with_texts (built.references (see.names found.now.keys) (see.names names.now))) }
{
    let ps = text_and_references(arena, found, names)?;
    let p = repeated(arena, Pat::Choice(ps))?;
    or_nothing(arena, p)
}

/// What a content becomes, where these elements are reached.
#[tactic(auto, using(tc_model::proofs::ViewsGrammar::see_pattern))]
fn content_pattern<'b>(
    arena: &'b Bump,
    found: &Names<'b>,
    reached: &[&'b str],
    content: &Content<'b>,
) -> Result<Pat<'b>, NoMemory>
    requires few { length (see.names found.now.keys) < 2 ^ 31 }
    requires same { see.names reached.now ≡ see.names found.now.keys }
    ensures { IfOk result (λ p. seen.pattern p
        ≡ built.content_pattern (see.names found.now.keys) (see.content content.now)) }
{
    match content {
        Content::Nothing => Ok(Pat::Empty),
        Content::Any => with_texts(arena, found, reached),
        Content::Mixed(names) => {
            if names.is_empty() {
                Ok(Pat::Text)
            } else {
                with_texts(arena, found, names)
            }
        }
        Content::Children(p) => particle_pattern(arena, found, p),
    }
}

/// The element patterns of declarations.
pub(crate) fn element_patterns<'b>(
    arena: &'b Bump,
    found: &Names<'b>,
    reached: &[&'b str],
    decls: &[Decl<'b>],
) -> Result<&'b [ElemPat<'b>], NoMemory>
    requires few { length (see.names found.now.keys) < 2 ^ 31 }
    requires same { see.names reached.now ≡ see.names found.now.keys }
    ensures { IfOk result (λ es. map seen.element_pattern es.now
        ≡ map (built.element_pattern (see.names found.now.keys)) (map see.declaration decls.now)) }
{
    let mut out = Vec::new(arena);
    for decl in decls {
        let content = content_pattern(arena, found, reached, &decl.content)?;
        let names = NameClass::Name(Name {
            uri: "",
            local: decl.name,
        });
        out.push(ElemPat { names, content })?;
    }
    Ok(into_bump_slice(out))
}
