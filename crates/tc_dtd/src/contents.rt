// Names and contents (XML 1.0, 3.2).
ghost use Rattle.std.specs.Prelude.{◌≡◌, ◌<◌, ◌∷◌, ◌++◌, [], ℕ, List, IfOk, IfErr, MatchOption, codes};
ghost use Rattle.tc_model.specs.XmlTextBytes.{after_white as past_white};
ghost use Rattle.tc_model.specs.XmlTextNames.{NcNameAt};
ghost use Rattle.tc_dtd.specs.Declarations as t;
ghost use Rattle.tc_dtd.specs.DtdTextContents as form;
ghost use Rattle.tc_dtd.specs.Outcomes.{read};
ghost use Rattle.tc_dtd.specs.Stops.{Stops};
ghost use Rattle.tc_dtd.specs.Views as see;

use crate::declarations::{Content, Particle};
use crate::faults::{Stop, unexpected};
use bumpalo::Bump;
use bumpalo::collections::into_bump_slice;
use tc_base::{NoMemory, Why};
use tc_scan::{after_byte, after_mark, after_some_white, after_white, begins, ncname};

/// What follows white space, of which there must be some (XML 1.0, 2.3).
pub(crate) fn after_space(text: &str) -> Result<&str, Stop>
    ensures ok { IfOk result (λ r. form.SpaceAt text.now (read tt r.now)) }
    ensures no { IfErr result (λ e. Stops e (form.SpaceAt text.now)) }
{
    match after_some_white(text) {
        Some(rest) => Ok(rest),
        None => Err(unexpected(text)),
    }
}

/// What is wrong where a name is due and none stands.
fn no_name(text: &str) -> Stop
    requires { (n after : List ℕ) → NcNameAt text.now n after → ⊥ }
    ensures { Stops result (form.NameAt text.now) }
{
    if begins(text, ":") {
        return Stop::Unsupported(text.len(), Why::QualifiedElementName);
    }
    unexpected(text)
}

/// The name of an element at the front, and what follows it (Namespaces in XML 1.0, 3).
pub(crate) fn element_name<'b, 't>(
    arena: &'b Bump,
    text: &'t str,
) -> Result<(&'b str, &'t str), Stop>
    ensures ok { IfOk result (λ r. form.NameAt text.now (read r.0.now r.1.now)) }
    ensures no { IfErr result (λ e. Stops e (form.NameAt text.now)) }
{
    let Some((name, rest)) = ncname(text) else {
        return Err(no_name(text));
    };
    if begins(rest, ":") {
        return Err(Stop::Unsupported(rest.len(), Why::QualifiedElementName));
    }
    let name = arena.try_alloc_str(name)?;
    Ok((name, rest))
}

/// A particle with the suffix that stands behind it, if there is one, and what follows (XML 1.0, 3.2.1, [47], [48]).
fn suffixed<'b, 't>(
    arena: &'b Bump,
    inner: Particle<'b>,
    text: &'t str,
) -> Result<(Particle<'b>, &'t str), NoMemory>
    ensures { IfOk result
        (λ r. form.SuffixAt (see.particle inner.entry) text.now (see.particle r.0) r.1.now) }
{
    if let Some(rest) = after_byte(text, b'?') {
        let inner: &'b Particle<'b> = arena.try_alloc(inner)?;
        return Ok((Particle::Optional(inner), rest));
    }
    if let Some(rest) = after_byte(text, b'*') {
        let inner: &'b Particle<'b> = arena.try_alloc(inner)?;
        return Ok((Particle::Star(inner), rest));
    }
    if let Some(rest) = after_byte(text, b'+') {
        let inner: &'b Particle<'b> = arena.try_alloc(inner)?;
        return Ok((Particle::Plus(inner), rest));
    }
    Ok((inner, text))
}

/// A particle with its suffix, in which parentheses stand at most so deep within one another, and what follows it
/// (XML 1.0, 3.2.1, [48]).
#[cycle(particles)]
#[inline(never)]
fn particle<'b, 't>(
    arena: &'b Bump,
    deepest: u32,
    text: &'t str,
) -> Result<(Particle<'b>, &'t str), Stop>
    ensures ok { IfOk result
        (λ r. form.ParticleAt deepest text.now (read (see.particle r.0) r.1.now)) }
    ensures no { IfErr result (λ e. Stops e (form.ParticleAt deepest text.now)) }
{
    if begins(text, "(") {
        let (inner, rest) = group(arena, deepest, text)?;
        let whole = suffixed(arena, inner, rest)?;
        return Ok(whole);
    }
    let (name, rest) = element_name(arena, text)?;
    let whole = suffixed(arena, Particle::Name(name), rest)?;
    Ok(whole)
}

/// A choice or a sequence, and what follows it (XML 1.0, 3.2.1, [49], [50]).
#[cycle(particles)]
#[inline(never)]
fn group<'b, 't>(
    arena: &'b Bump,
    deepest: u32,
    text: &'t str,
) -> Result<(Particle<'b>, &'t str), Stop>
    ensures ok { IfOk result
        (λ r. form.GroupAt deepest text.now (read (see.particle r.0) r.1.now)) }
    ensures no { IfErr result (λ e. Stops e (form.GroupAt deepest text.now)) }
{
    let Some(inside) = after_byte(text, b'(') else {
        return Err(Stop::Malformed(text.len()));
    };
    if deepest == 0 {
        return Err(Stop::TooDeep(text.len()));
    }
    list(arena, deepest - 1, after_white(inside))
}

/// What stands behind the parenthesis that opens a choice or a sequence, and what follows the one that closes it.
#[cycle(particles)]
#[inline(never)]
fn list<'b, 't>(
    arena: &'b Bump,
    deepest: u32,
    text: &'t str,
) -> Result<(Particle<'b>, &'t str), Stop>
    ensures ok { IfOk result (λ r. form.ListAt deepest text.now (read (see.particle r.0) r.1.now)) }
    ensures no { IfErr result (λ e. Stops e (form.ListAt deepest text.now)) }
{
    let (first, rest) = particle(arena, deepest, text)?;
    let mut all = list_of(arena, first)?;
    if begins(after_white(rest), "|") {
        let after = join(arena, deepest, b'|', first, rest, &mut all)?;
        return Ok((Particle::Choice(into_bump_slice(all)), after));
    }
    let after = join(arena, deepest, b',', first, rest, &mut all)?;
    Ok((Particle::Seq(into_bump_slice(all)), after))
}

/// This particle alone, in room for itself alone, since many parentheses hold one.
fn list_of<'b>(
    arena: &'b Bump,
    first: Particle<'b>,
) -> Result<Vec<Particle<'b>, &'b Bump>, NoMemory>
    ensures { IfOk result (λ v. v.items ≡ first.entry ∷ []) }
{
    let all = Vec::from_slice(arena, &[first])?;
    Ok(all)
}

/// Puts the particles that this byte joins behind the first one, which stands alone, and gives what follows the parenthesis
/// that closes them.
#[cycle(particles)]
#[inline(never)]
fn join<'b, 't>(
    arena: &'b Bump,
    deepest: u32,
    connector: u8,
    first: Particle<'b>,
    text: &'t str,
    all: &mut Vec<Particle<'b>, &'b Bump>,
) -> Result<&'t str, Stop>
    requires above { 0x29 < connector }
    requires ascii { connector < 128 }
    requires alone { all.old.items ≡ first ∷ [] }
    ensures ok { IfOk result
        (λ r. (ps : t.Particles)
        × (see.particles all.new.items ≡ t.more (see.particle first.entry) ps)
        × form.RestAt connector deepest text.now (read ps r.now)) }
    ensures no { IfErr result (λ e. Stops e (form.RestAt connector deepest text.now)) }
{
    let mut rest = text;
    while let Some(next) = after_byte(after_white(rest), connector) {
        let (one, after) = particle(arena, deepest, after_white(next))?;
        all.push(one)?;
        rest = after;
    }
    let end = after_white(rest);
    let Some(after) = after_byte(end, b')') else {
        return Err(unexpected(end));
    };
    Ok(after)
}

/// The names of mixed content, and what follows the parenthesis that closes it (XML 1.0, 3.2.2, [51]).
fn mixed_names<'b, 't>(arena: &'b Bump, text: &'t str) -> Result<(&'b [&'b str], &'t str), Stop>
    ensures ok { IfOk result (λ r. form.NamesAt text.now (read (see.names r.0.now) r.1.now)) }
    ensures no { IfErr result (λ e. Stops e (form.NamesAt text.now)) }
{
    let mut all: Vec<&'b str, &'b Bump> = Vec::new(arena);
    let after = put_mixed_names(arena, text, &mut all)?;
    Ok((into_bump_slice(all), after))
}

/// Puts the names of mixed content where none is yet, and gives what follows the parenthesis that closes it.
fn put_mixed_names<'b, 't>(
    arena: &'b Bump,
    text: &'t str,
    all: &mut Vec<&'b str, &'b Bump>,
) -> Result<&'t str, Stop>
    requires { all.old.items ≡ [] }
    ensures ok { IfOk result (λ r. form.NamesAt text.now (read (see.names all.new.items) r.now)) }
    ensures no { IfErr result (λ e. Stops e (form.NamesAt text.now)) }
{
    let mut rest = text;
    while let Some(next) = after_byte(after_white(rest), b'|') {
        let (name, after) = element_name(arena, after_white(next))?;
        all.push(name)?;
        rest = after;
    }
    let end = after_white(rest);
    let Some(after) = after_byte(end, b')') else {
        return Err(unexpected(end));
    };
    Ok(after)
}

/// Mixed content from behind `#PCDATA` on, and what follows it (XML 1.0, 3.2.2, [51]).
fn mixed<'b, 't>(arena: &'b Bump, text: &'t str) -> Result<(Content<'b>, &'t str), Stop>
    ensures ok { IfOk result (λ r. form.MixedAt text.now (read (see.content r.0) r.1.now)) }
    ensures no { IfErr result (λ e. Stops e (form.MixedAt text.now)) }
{
    let (names, rest) = mixed_names(arena, text)?;
    if let Some(after) = after_byte(rest, b'*') {
        return Ok((Content::Mixed(names), after));
    }
    if names.is_empty() {
        return Ok((Content::Mixed(names), rest));
    }
    Err(unexpected(rest))
}

/// What follows the parenthesis and `#PCDATA` with which mixed content begins.
fn after_pcdata(text: &str) -> Option<&str>
    ensures { MatchOption result
        ((r rest : List ℕ) → text.now ≡ 0x28 ∷ r → past_white r ≡ codes "#PCDATA" ++ rest → ⊥)
        (λ rest. (r : List ℕ) × (text.now ≡ 0x28 ∷ r)
        × (past_white r ≡ codes "#PCDATA" ++ rest.now)) }
{
    let inside = after_byte(text, b'(')?;
    after_mark(after_white(inside), "#PCDATA")
}

/// The content of an element, in which parentheses stand at most so deep within one another, and what follows it
/// (XML 1.0, 3.2, [46]).
pub(crate) fn content<'b, 't>(
    arena: &'b Bump,
    deepest: u32,
    text: &'t str,
) -> Result<(Content<'b>, &'t str), Stop>
    requires { 0 < deepest }
    ensures ok { IfOk result
        (λ r. form.ContentAt deepest text.now (read (see.content r.0) r.1.now)) }
    ensures no { IfErr result (λ e. Stops e (form.ContentAt deepest text.now)) }
{
    if let Some(rest) = after_mark(text, "EMPTY") {
        return Ok((Content::Nothing, rest));
    }
    if let Some(rest) = after_mark(text, "ANY") {
        return Ok((Content::Any, rest));
    }
    if let Some(rest) = after_pcdata(text) {
        return mixed(arena, rest);
    }
    if !begins(text, "(") {
        return Err(unexpected(text));
    }
    let (inner, rest) = group(arena, deepest, text)?;
    let (children, after) = suffixed(arena, inner, rest)?;
    Ok((Content::Children(children), after))
}
