// Elements and their content (XML 1.0, 3 and 3.1). What the recursion over elements calls is kept out of line, so that its
// frames stay small: elements nest 2,000 deep.
ghost use Rattle.std.specs.Prelude.{◌≡◌, ◌<◌, ◌≤◌, ◌∷◌, ◌++◌, [], ℕ, List, true, false, map, take, IfOk, IfErr, IfSome, OnOk, IsTrue, MatchBool, MatchOption, encode_utf8, codes, string_bytes};
ghost use Rattle.std.specs.List.{prefix_len};
ghost use Rattle.tc_base.specs.declared.limits.TheConstants.{LONGEST_FILE};
ghost use Rattle.tc_base.specs.declared.reasons.Why.{Why};
ghost use Rattle.tc_base.specs.declared.reasons.Why.TheVariants.{EntityReference};
ghost use Rattle.tc_model.specs.Names.{ExpandedName};
ghost use Rattle.tc_model.specs.RawTrees.{RawTrees, Attribute, Bound, none};
ghost use Rattle.tc_model.specs.Views.{name, raw_trees, raw_tree, attribute as seen_attribute, place as see_place};
ghost use Rattle.tc_model.specs.XmlTextBytes as bytes;
ghost use Rattle.tc_model.specs.XmlTextContent as xml;
ghost use Rattle.tc_model.specs.XmlTextContent.{characters_before};
ghost use Rattle.tc_model.specs.XmlTextNames as xml_names;
ghost use Rattle.tc_model.specs.XmlTextReferences as references;
ghost use Rattle.tc_model.specs.XmlTextRefusals as refusals;
ghost use Rattle.tc_model.specs.XmlTextScopes as xml_scopes;
ghost use Rattle.tc_scan.specs.Views.{written_name};
ghost use Rattle.tc_xml.specs.declared.content.Run.TheVariants.{Nothing};
ghost use Rattle.tc_xml.specs.Reading.{AttributeAt, OpensElement, EndTagAt, BodyAt, BodyRefuses, SmallItemAt, LacksItem, AddsPiece, AddsContent, BeginsWithNoText};
ghost use Rattle.tc_xml.specs.Refusals.{Refuses, RefusesWithin, UnsupportedAt, RefusedAt, OnMalformed};
ghost use Rattle.tc_xml.specs.Views.{run_before, gathered_before};
ghost use Rattle.tc_xml.specs.Tags.{written, in_scope, lacks_space, Breaks};

use crate::character_data::character_data;
use crate::faults::{Stop, place_of};
use crate::misc::{after_comment, after_instruction, cdata};
use crate::references::{push_lines, quoted, reference};
use crate::scopes::Scope;
use crate::tags::{Meaning, Written, first_scope, meaning_of};
use bumpalo::Bump;
use bumpalo::collections::{into_bump_slice, into_bump_str};
use std::mem;
use tc_base::{NoMemory, Place, Why};
use tc_model::{Raw, RawElem};
use tc_scan::{
    QualifiedName, after_byte, after_equals, after_mark, after_some_white, after_white,
    begins as begins_mark, qname,
};

/// A tag up to where it ends: its name as it is written, what it means, and what follows.
#[derive(Clone, Copy)]
pub(crate) struct OpenTag<'b, 't> {
    pub(crate) written: QualifiedName<'t>,
    pub(crate) meaning: Meaning<'b>,
    pub(crate) rest: &'t str,
}

/// Whether this ASCII byte is at the front.
pub(crate) fn begins(text: &str, byte: u8) -> bool
    requires { byte < 128 }
    ensures { MatchBool result ((r : List ℕ) × (text.now ≡ byte ∷ r))
        ((r : List ℕ) → text.now ≡ byte ∷ r → ⊥) }
{
    match after_byte(text, byte) {
        Some(_) => true,
        None => false,
    }
}

/// Whether a tag may end here.
pub(crate) fn ends_tag(text: &str) -> bool
    ensures { MatchBool result (xml.EndsTag text.now) (xml.EndsTag text.now → ⊥) }
{
    if begins(text, b'>') {
        return true;
    }
    if begins(text, b'/') {
        return true;
    }
    false
}

/// Whether this is the name of the attribute `xml:space` (XML 1.0, 2.10).
pub(crate) fn is_xml_space(name: &QualifiedName<'_>) -> bool
    ensures { result ≡ xml_names.same_written (written_name name.now) refusals.xml_space }
{
    name.prefix == "xml" && name.local == "space"
}

/// One attribute, and what follows it.
fn attribute<'b, 't>(
    arena: &'b Bump,
    total: usize,
    text: &'t str,
) -> Result<(Written<'b, 't>, &'t str), Stop>
    requires { total ≤ LONGEST_FILE }
    ensures ok { IfOk result (λ r. AttributeAt false total text.now (written r.0) r.1.now) }
    ensures no { IfErr result (λ e. Refuses e
        ((a : xml_scopes.WrittenAttribute) (after : List ℕ)
        → AttributeAt true total text.now a after → ⊥)
        ((a : xml_scopes.WrittenAttribute) (after : List ℕ)
        → AttributeAt false total text.now a after → ⊥)) }
    ensures stands { IfErr result (λ e. UnsupportedAt e (refusals.AttributesRefuse text.now)) }
    ensures malformed { IfErr result (λ e. OnMalformed e
        ((why : Why) (at : List ℕ) → refusals.AttributesRefuse text.now why at → ⊥)) }
{
    let Some(start) = after_some_white(text) else {
        return Err(Stop::Malformed(text.len()));
    };
    let Some((name, behind)) = qname(start) else {
        return Err(Stop::Malformed(start.len()));
    };
    if is_xml_space(&name) {
        return Err(Stop::Unsupported(start.len(), Why::XmlSpace));
    }
    let Some(equals) = after_equals(behind) else {
        return Err(Stop::Malformed(behind.len()));
    };
    let (value, rest) = quoted(arena, equals)?;
    let place = place_of(total, start.len());
    Ok((Written { name, value, place }, rest))
}

/// The attributes of a tag, and what follows them.
fn attributes<'b, 't>(
    arena: &'b Bump,
    total: usize,
    text: &'t str,
) -> Result<(Vec<Written<'b, 't>, &'b Bump>, &'t str), Stop>
    requires { total ≤ LONGEST_FILE }
    ensures ok { IfOk result (λ r. xml.AttributesAt false total text.now
        (map written r.0.items) r.1.now) }
    ensures no_space { IfOk result (λ r. IsTrue (lacks_space (map written r.0.items))) }
    ensures no { IfErr result (λ e. Refuses e
        ((attributes : List xml_scopes.WrittenAttribute) (after : List ℕ)
        → xml.AttributesAt true total text.now attributes after → IsTrue (lacks_space attributes)
        → ⊥)
        ((attributes : List xml_scopes.WrittenAttribute) (after : List ℕ)
        → xml.AttributesAt false total text.now attributes after → IsTrue (lacks_space attributes)
        → ⊥)) }
    ensures stands { IfErr result (λ e. UnsupportedAt e (refusals.AttributesRefuse text.now)) }
    ensures malformed { IfErr result (λ e. OnMalformed e
        ((why : Why) (at : List ℕ) → refusals.AttributesRefuse text.now why at → ⊥)) }
{
    let mut found = Vec::new(arena);
    let mut rest = text;
    while !ends_tag(after_white(rest)) {
        let (written, after) = attribute(arena, total, rest)?;
        found.push(written)?;
        rest = after;
    }
    Ok((found, after_white(rest)))
}

/// Whether an element begins here.
fn opens_element(text: &str) -> bool
    ensures { MatchBool result (OpensElement text.now) (OpensElement text.now → ⊥) }
{
    let Some(name) = after_byte(text, b'<') else {
        return false;
    };
    match qname(name) {
        Some(_) => true,
        None => false,
    }
}

/// How many bytes are left where a tag is refused whose names mean nothing: at its front, or, where it doesn't end as a
/// tag does, there.
fn left_at(text: &str, rest: &str) -> usize {
    if begins(rest, b'/') && !begins_mark(rest, "/>") {
        rest.len()
    } else {
        text.len()
    }
}

/// The start tag or empty-element tag at the front, up to where it ends.
#[inline(never)]
pub(crate) fn open_tag<'b, 't>(
    arena: &'b Bump,
    total: usize,
    outer: Scope<'b>,
    text: &'t str,
) -> Result<OpenTag<'b, 't>, Stop>
    requires { total ≤ LONGEST_FILE }
    ensures ok { IfOk result
        (λ t. xml.TagAt false total (in_scope outer.entry) text.now (written_name t.written)
        (in_scope t.meaning.scope) (name t.meaning.name)
        (map seen_attribute t.meaning.attrs.now) t.rest.now) }
    ensures no { IfErr result (λ e. Refuses e
        ((w : xml_names.QualifiedName) (scope : List Bound) (n : ExpandedName)
        (attributes : List Attribute) (after : List ℕ)
        → xml.TagAt true total (in_scope outer.entry) text.now w scope n attributes after → ⊥)
        ((w : xml_names.QualifiedName) (scope : List Bound) (n : ExpandedName)
        (attributes : List Attribute) (after : List ℕ)
        → xml.TagAt false total (in_scope outer.entry) text.now w scope n attributes after → ⊥)) }
    ensures stands { IfErr result (λ e. UnsupportedAt e (refusals.TagRefuses text.now)) }
    ensures malformed { IfErr result (λ e. OnMalformed e
        ((why : Why) (at : List ℕ) → refusals.TagRefuses text.now why at → ⊥)) }
{
    let Some(start) = after_byte(text, b'<') else {
        return Err(Stop::Malformed(text.len()));
    };
    let Some((written, behind)) = qname(start) else {
        return Err(Stop::Malformed(start.len()));
    };
    let (list, rest) = attributes(arena, total, behind)?;
    let left = left_at(text, rest);
    let meaning = meaning_of(arena, outer, written, list.as_slice(), left)?;
    Ok(OpenTag {
        written,
        meaning,
        rest,
    })
}

/// Characters that go into one text, with its place, or none yet.
#[derive(Drop)]
enum Run<'b> {
    Nothing,
    Begun(String<&'b Bump>, Place),
}

/// Trees that were read, and the run of characters after them that may still grow.
#[derive(Drop)]
struct Gathered<'b> {
    arena: &'b Bump,
    trees: Vec<Raw<'b>, &'b Bump>,
    run: Run<'b>,
}

/// Nothing yet.
#[inline(never)]
fn gathered_nothing<'b>(arena: &'b Bump) -> Gathered<'b>
    ensures { (h : RawTrees) → gathered_before result h ≡ h }
{
    Gathered {
        arena,
        trees: Vec::new(arena),
        run: Run::Nothing,
    }
}

/// A run that has begun at this place, or goes on.
fn begun<'b>(arena: &'b Bump, run: Run<'b>, place: Place) -> (String<&'b Bump>, Place)
    ensures { (s : List ℕ) (h : RawTrees)
        → characters_before (string_bytes result.0 ++ s) (see_place result.1) h
        ≡ run_before run.entry (characters_before s (see_place place) h) }
{
    match run {
        Run::Nothing => (String::new(arena), place),
        Run::Begun(text, first) => (text, first),
    }
}

/// More characters, each line end as LF.
#[inline(never)]
fn gather_characters(
    gathered: &mut Gathered<'_>,
    characters: &str,
    first: Place,
) -> Result<(), NoMemory>
    ensures { OnOk result (AddsPiece gathered.old gathered.new
        (xml.characters (bytes.line_ends characters.now) (see_place first))) }
{
    let run = mem::replace(&mut gathered.run, Run::Nothing);
    let (mut text, first) = begun(gathered.arena, run, first);
    push_lines(&mut text, characters)?;
    gathered.run = Run::Begun(text, first);
    Ok(())
}

/// One more character.
#[inline(never)]
fn gather_character(
    gathered: &mut Gathered<'_>,
    character: char,
    first: Place,
) -> Result<(), NoMemory>
    ensures { OnOk result (AddsPiece gathered.old gathered.new
        (xml.characters (encode_utf8 character) (see_place first))) }
{
    let run = mem::replace(&mut gathered.run, Run::Nothing);
    let (mut text, first) = begun(gathered.arena, run, first);
    text.push(character)?;
    gathered.run = Run::Begun(text, first);
    Ok(())
}

/// One more tree. The first takes room for itself alone, since most elements hold one tree.
fn push_tree<'b>(trees: &mut Vec<Raw<'b>, &'b Bump>, tree: Raw<'b>) -> Result<(), NoMemory>
    ensures { OnOk result (trees.new.items ≡ trees.old.items ++ tree.entry ∷ []) }
{
    if trees.is_empty() {
        trees.reserve_exact(1)?;
    }
    trees.push(tree)?;
    Ok(())
}

/// Ends the run, which makes a text unless it is empty.
#[inline(never)]
fn end_run(gathered: &mut Gathered<'_>) -> Result<(), NoMemory>
    ensures ended { OnOk result (gathered.new.run ≡ Nothing) }
    ensures kept { OnOk result ((h : RawTrees) → BeginsWithNoText h
        → gathered_before gathered.new h ≡ gathered_before gathered.old h) }
{
    if let Run::Begun(text, place) = mem::replace(&mut gathered.run, Run::Nothing) {
        let text = into_bump_str(text);
        if !text.is_empty() {
            push_tree(&mut gathered.trees, Raw::Text(text, place))?;
        }
    }
    Ok(())
}

/// All trees.
#[inline(never)]
fn all_gathered<'b>(mut gathered: Gathered<'b>) -> Result<&'b [Raw<'b>], NoMemory>
    ensures { IfOk result (λ out. raw_trees out.now ≡ gathered_before gathered.entry none) }
{
    end_run(&mut gathered)?;
    Ok(into_bump_slice(gathered.trees))
}

/// Puts the element with this tag and these children after what was gathered.
#[inline(never)]
fn gather_element<'b>(
    gathered: &mut Gathered<'b>,
    tag: &OpenTag<'b, '_>,
    first: Place,
    kids: Gathered<'b>,
) -> Result<(), NoMemory>
    ensures { OnOk result (AddsPiece gathered.old gathered.new
        (xml.whole (name tag.now.meaning.name) (map seen_attribute tag.now.meaning.attrs.now)
        (in_scope tag.now.meaning.scope) (see_place first) (gathered_before kids.entry none))) }
{
    let kids = all_gathered(kids)?;
    end_run(gathered)?;
    let element = RawElem {
        name: tag.meaning.name,
        attrs: tag.meaning.attrs,
        scope: tag.meaning.scope.bindings,
        place: first,
        kids,
    };
    push_tree(&mut gathered.trees, Raw::Elem(element))
}

/// Reads the reference or the character data at the front, and gives what follows.
#[inline(never)]
fn characters<'t>(gathered: &mut Gathered<'_>, total: usize, text: &'t str) -> Result<&'t str, Stop>
    requires total { total ≤ LONGEST_FILE }
    requires no_markup { (r : List ℕ) → text.now ≡ 0x3C ∷ r → ⊥ }
    ensures ok { IfOk result (λ rest. (p : xml.Piece) × SmallItemAt total text.now p rest.now
        × AddsPiece gathered.old gathered.new p) }
    ensures no { IfErr result (λ e. Refuses e (LacksItem true total text.now)
        (LacksItem false total text.now)) }
    ensures stands { IfErr result (λ e. UnsupportedAt e
        (λ why at. (why ≡ EntityReference) × (at ≡ text.now) × refusals.OtherEntityAt at)) }
{
    if begins(text, b'&') {
        let (character, rest) = reference(text)?;
        gather_character(gathered, character, place_of(total, text.len()))?;
        return Ok(rest);
    }
    let Some((run, rest)) = character_data(text) else {
        return Err(Stop::Malformed(text.len()));
    };
    gather_characters(gathered, run, place_of(total, text.len()))?;
    Ok(rest)
}

/// Reads the comment or the CDATA section at the front, and gives what follows.
#[inline(never)]
fn comment_or_cdata<'t>(
    gathered: &mut Gathered<'_>,
    total: usize,
    text: &'t str,
) -> Result<&'t str, Stop>
    requires total { total ≤ LONGEST_FILE }
    requires opens { (r : List ℕ) × (text.now ≡ codes "<!" ++ r) }
    ensures ok { IfOk result (λ rest. (p : xml.Piece) × SmallItemAt total text.now p rest.now
        × AddsPiece gathered.old gathered.new p) }
    ensures no { IfErr result (λ e. Breaks e (LacksItem true total text.now)) }
{
    if let Some(rest) = after_comment(text) {
        return Ok(rest);
    }
    let Some((inside, rest)) = cdata(text) else {
        return Err(Stop::Malformed(text.len()));
    };
    gather_characters(gathered, inside, place_of(total, text.len()))?;
    Ok(rest)
}

/// Whether these names are written alike.
fn is_same_name(name: &QualifiedName<'_>, other: &QualifiedName<'_>) -> bool
    ensures { result ≡ xml_names.same_written (written_name name.now) (written_name other.now) }
{
    name.prefix == other.prefix && name.local == other.local
}

/// What follows the end tag with this name, where one is at the front.
#[inline(never)]
pub(crate) fn after_end_tag<'t>(text: &'t str, name: &QualifiedName<'_>) -> Option<&'t str>
    ensures { MatchOption result
        ((after : List ℕ) → EndTagAt (written_name name.now) text.now after → ⊥)
        (λ r. EndTagAt (written_name name.now) text.now r.now) }
{
    let end = after_mark(text, "</")?;
    let (found, behind) = qname(end)?;
    if !is_same_name(&found, name) {
        return None;
    }
    after_byte(after_white(behind), b'>')
}

/// Gathers the content at the front, up to an end tag, and gives what follows it. `scope` is in scope,
/// and elements may stand so deep.
#[cycle(content)]
fn content<'b, 't>(
    gathered: &mut Gathered<'b>,
    total: usize,
    scope: Scope<'b>,
    text: &'t str,
    depth: u32,
) -> Result<&'t str, Stop>
    requires { total ≤ LONGEST_FILE }
    ensures ok { IfOk result (λ rest. (h : RawTrees)
        × xml.ContentAt false total (in_scope scope.entry) depth text.now h rest.now
        × AddsContent gathered.old gathered.new h) }
    ensures no { IfErr result (λ e. RefusesWithin e
        ((d : ℕ) (h : RawTrees) (after : List ℕ)
        → xml.ContentAt true total (in_scope scope.entry) d text.now h after → ⊥)
        ((d : ℕ) (h : RawTrees) (after : List ℕ)
        → xml.ContentAt false total (in_scope scope.entry) d text.now h after → ⊥)
        ((h : RawTrees) (after : List ℕ)
        → xml.ContentAt true total (in_scope scope.entry) depth text.now h after → ⊥)) }
    ensures stands { IfErr result (λ e. RefusedAt e
        (refusals.ContentRefuses total (in_scope scope.entry) depth text.now)) }
    ensures malformed { IfErr result (λ e. OnMalformed e
        ((cause : refusals.Cause) (at : List ℕ)
        → refusals.ContentRefuses total (in_scope scope.entry) depth text.now cause at → ⊥)) }
{
    let mut rest = text;
    while !begins_mark(rest, "</") {
        rest = item(gathered, total, scope, rest, depth)?;
    }
    Ok(rest)
}

/// Gathers the item at the front, and gives what follows it.
#[cycle(content)]
fn item<'b, 't>(
    gathered: &mut Gathered<'b>,
    total: usize,
    scope: Scope<'b>,
    text: &'t str,
    depth: u32,
) -> Result<&'t str, Stop>
    requires { total ≤ LONGEST_FILE }
    ensures ok { IfOk result (λ rest. (p : xml.Piece)
        × xml.ItemAt false total (in_scope scope.entry) depth text.now p rest.now
        × AddsPiece gathered.old gathered.new p) }
    ensures no { IfErr result (λ e. RefusesWithin e
        ((d : ℕ) (p : xml.Piece) (after : List ℕ)
        → xml.ItemAt true total (in_scope scope.entry) d text.now p after → ⊥)
        ((d : ℕ) (p : xml.Piece) (after : List ℕ)
        → xml.ItemAt false total (in_scope scope.entry) d text.now p after → ⊥)
        ((p : xml.Piece) (after : List ℕ)
        → xml.ItemAt true total (in_scope scope.entry) depth text.now p after → ⊥)) }
    ensures stands { IfErr result (λ e. RefusedAt e
        (refusals.ContentRefuses total (in_scope scope.entry) depth text.now)) }
    ensures malformed { IfErr result (λ e. OnMalformed e
        ((cause : refusals.Cause) (at : List ℕ)
        → refusals.ContentRefuses total (in_scope scope.entry) depth text.now cause at → ⊥)) }
{
    let Some(markup) = after_byte(text, b'<') else {
        return characters(gathered, total, text);
    };
    if begins(markup, b'!') {
        return comment_or_cdata(gathered, total, text);
    }
    if begins(markup, b'?') {
        return match after_instruction(text) {
            Some(rest) => Ok(rest),
            None => Err(Stop::Malformed(text.len())),
        };
    }
    element(gathered, total, scope, text, depth)
}

/// Gathers the element at the front, and gives what follows it.
#[cycle(content)]
fn element<'b, 't>(
    gathered: &mut Gathered<'b>,
    total: usize,
    outer: Scope<'b>,
    text: &'t str,
    depth: u32,
) -> Result<&'t str, Stop>
    requires { total ≤ LONGEST_FILE }
    ensures ok { IfOk result (λ rest. (p : xml.Piece)
        × xml.ElementAt false total (in_scope outer.entry) depth text.now p rest.now
        × AddsPiece gathered.old gathered.new p) }
    ensures no { IfErr result (λ e. RefusesWithin e
        ((d : ℕ) (p : xml.Piece) (after : List ℕ)
        → xml.ElementAt true total (in_scope outer.entry) d text.now p after → ⊥)
        ((d : ℕ) (p : xml.Piece) (after : List ℕ)
        → xml.ElementAt false total (in_scope outer.entry) d text.now p after → ⊥)
        ((p : xml.Piece) (after : List ℕ)
        → xml.ElementAt true total (in_scope outer.entry) depth text.now p after → ⊥)) }
    ensures stands { IfErr result (λ e. RefusedAt e
        (refusals.ElementRefuses total (in_scope outer.entry) depth text.now)) }
    ensures malformed { IfErr result (λ e. OnMalformed e
        ((cause : refusals.Cause) (at : List ℕ)
        → refusals.ElementRefuses total (in_scope outer.entry) depth text.now cause at → ⊥)) }
{
    if depth == 0 {
        return Err(too_deep(text));
    }
    let tag = open_tag(gathered.arena, total, outer, text)?;
    let mut kids = gathered_nothing(gathered.arena);
    let rest = body(&mut kids, total, &tag, depth - 1)?;
    gather_element(gathered, &tag, place_of(total, text.len()), kids)?;
    Ok(rest)
}

/// Gathers what stands between a tag and the end tag of its element, and gives what follows the element.
#[cycle(content)]
fn body<'b, 't>(
    kids: &mut Gathered<'b>,
    total: usize,
    tag: &OpenTag<'b, 't>,
    depth: u32,
) -> Result<&'t str, Stop>
    requires { total ≤ LONGEST_FILE }
    ensures ok { IfOk result (λ rest. (h : RawTrees)
        × BodyAt false total (in_scope tag.now.meaning.scope) depth
        (written_name tag.now.written) tag.now.rest.now h rest.now
        × AddsContent kids.old kids.new h) }
    ensures no { IfErr result (λ e. RefusesWithin e
        ((d : ℕ) (h : RawTrees) (after : List ℕ)
        → BodyAt true total (in_scope tag.now.meaning.scope) d
        (written_name tag.now.written) tag.now.rest.now h after → ⊥)
        ((d : ℕ) (h : RawTrees) (after : List ℕ)
        → BodyAt false total (in_scope tag.now.meaning.scope) d
        (written_name tag.now.written) tag.now.rest.now h after → ⊥)
        ((h : RawTrees) (after : List ℕ)
        → BodyAt true total (in_scope tag.now.meaning.scope) depth
        (written_name tag.now.written) tag.now.rest.now h after → ⊥)) }
    ensures stands { IfErr result (λ e. RefusedAt e
        (BodyRefuses total (in_scope tag.now.meaning.scope) depth tag.now.rest.now)) }
    ensures malformed { IfErr result (λ e. OnMalformed e
        ((cause : refusals.Cause) (at : List ℕ)
        → BodyRefuses total (in_scope tag.now.meaning.scope) depth tag.now.rest.now cause at → ⊥)) }
{
    if let Some(rest) = after_mark(tag.rest, "/>") {
        return Ok(rest);
    }
    let Some(inside) = after_byte(tag.rest, b'>') else {
        return Err(Stop::Malformed(tag.rest.len()));
    };
    let end = content(kids, total, tag.meaning.scope, inside, depth)?;
    match after_end_tag(end, &tag.written) {
        Some(rest) => Ok(rest),
        None => Err(Stop::Malformed(end.len())),
    }
}

/// Why no element may stand here, as deep as it is.
fn too_deep(text: &str) -> Stop
    ensures no { (total : ℕ) (outer : List Bound) → RefusesWithin result
        ((d : ℕ) (p : xml.Piece) (after : List ℕ)
        → xml.ElementAt true total outer d text.now p after → ⊥)
        ((d : ℕ) (p : xml.Piece) (after : List ℕ)
        → xml.ElementAt false total outer d text.now p after → ⊥)
        ((p : xml.Piece) (after : List ℕ) → xml.ElementAt true total outer 0 text.now p after → ⊥) }
    ensures stands { (total : ℕ) (outer : List Bound)
        → RefusedAt result (refusals.ElementRefuses total outer 0 text.now) }
    ensures malformed { (total : ℕ) (outer : List Bound)
        → OnMalformed result
        ((cause : refusals.Cause) (at : List ℕ)
        → refusals.ElementRefuses total outer 0 text.now cause at → ⊥) }
{
    if opens_element(text) {
        Stop::TooDeep(text.len())
    } else {
        Stop::Malformed(text.len())
    }
}

/// The element at the front, where elements may stand so deep, and what follows it.
pub(crate) fn root_element<'b, 't>(
    arena: &'b Bump,
    total: usize,
    text: &'t str,
    depth: u32,
) -> Result<(Raw<'b>, &'t str), Stop>
    requires { total ≤ LONGEST_FILE }
    ensures ok { IfOk result (λ r. (p : xml.Piece)
        × xml.ElementAt false total xml_scopes.first_scope depth text.now p r.1.now
        × (raw_tree r.0 ≡ xml.piece_before p none)) }
    ensures no { IfErr result (λ e. RefusesWithin e
        ((d : ℕ) (p : xml.Piece) (after : List ℕ)
        → xml.ElementAt true total xml_scopes.first_scope d text.now p after → ⊥)
        ((d : ℕ) (p : xml.Piece) (after : List ℕ)
        → xml.ElementAt false total xml_scopes.first_scope d text.now p after → ⊥)
        ((p : xml.Piece) (after : List ℕ)
        → xml.ElementAt true total xml_scopes.first_scope depth text.now p after → ⊥)) }
    ensures stands { IfErr result (λ e. RefusedAt e
        (refusals.ElementRefuses total xml_scopes.first_scope depth text.now)) }
    ensures malformed { IfErr result (λ e. OnMalformed e
        ((cause : refusals.Cause) (at : List ℕ)
        → refusals.ElementRefuses total xml_scopes.first_scope depth text.now cause at → ⊥)) }
{
    let scope = first_scope(arena)?;
    let mut gathered = gathered_nothing(arena);
    let rest = element(&mut gathered, total, scope, text, depth)?;
    let trees = all_gathered(gathered)?;
    match trees.first() {
        Some(root) => Ok((*root, rest)),
        None => Err(Stop::Malformed(text.len())),
    }
}
