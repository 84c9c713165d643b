// The normal form of trees (XSLT 1.0, 3.4). What the recursion over levels calls is kept out of line, so that its frames stay
// small: trees nest thousands deep.
// Put in line, a result of 8,000 levels that all change takes 8.9 MB of stack in place of 5.8. What is in
// normal form already is lent: of a level that is made anew, the children of an element stay where they are
// in normal form, and those before the first tree that changes aren't looked at again. The level at the top
// is always made anew.
ghost use Rattle.std.specs.Prelude.{◌≡◌, ◌<◌, ◌++◌, ◌||◌, [], Some, IfOk, OnOk, MatchOption};
ghost use Rattle.tc_model.specs.NormalLevels.{begins_with_text, kids_change, known_kids, IsChange, KidsStay};
ghost use Rattle.tc_model.specs.Views as see;
ghost use Rattle.tc_model.specs.Runs.{run_text};
ghost use Rattle.tc_model.specs.Views.{trees};
ghost use Rattle.tc_model.specs.Trees as t;
ghost use Rattle.tc_model.specs.Trees.{beside, element, kept, none, normal_form, IsNormal};

use crate::tree::{Name, Node};
use bumpalo::Bump;
use bumpalo::collections::{into_bump_slice, into_bump_str};
use std::mem;
use tc_base::NoMemory;

/// Whether a text is white space alone (XML 1.0, 2.3).
pub fn is_white_space_only(text: &str) -> bool
    ensures { result ≡ t.is_white_space_only text.now }
{
    for byte in text.as_bytes() {
        if !matches!(*byte, b' ' | b'\t' | b'\r' | b'\n') {
            return false;
        }
    }
    true
}

/// Adjacent texts as one: none yet, one as it stands, or several that were copied.
#[derive(Drop)]
pub enum Run<'b> {
    Nothing,
    One(&'b str),
    Many(String<&'b Bump>),
}

/// A run with one more text.
pub fn extended<'b>(arena: &'b Bump, run: Run<'b>, text: &'b str) -> Result<Run<'b>, NoMemory>
    ensures { IfOk result (λ r. run_text r ≡ run_text run.entry ++ text.now) }
{
    match run {
        Run::Nothing => Ok(Run::One(text)),
        Run::One(first) => {
            let mut joined = String::from_str(arena, first)?;
            joined.push_str(text)?;
            Ok(Run::Many(joined))
        }
        Run::Many(mut joined) => {
            joined.push_str(text)?;
            Ok(Run::Many(joined))
        }
    }
}

/// The text of a run.
pub fn text_of<'b>(run: Run<'b>) -> &'b str
    ensures { result.now ≡ run_text run.entry }
{
    match run {
        Run::Nothing => "",
        Run::One(text) => text,
        Run::Many(joined) => into_bump_str(joined),
    }
}

/// Trees in normal form, and the run of texts after them that may still grow.
#[derive(Drop)]
struct Gathered<'b> {
    arena: &'b Bump,
    nodes: Vec<Node<'b>, &'b Bump>,
    run: Run<'b>,
}

/// No tree yet, and room for this many.
#[inline(never)]
fn gathered_nothing<'b>(arena: &'b Bump, room: usize) -> Result<Gathered<'b>, NoMemory>
    ensures { IfOk result (λ g. (trees g.nodes.items ≡ none) × (run_text g.run ≡ [])) }
{
    Ok(Gathered {
        arena,
        nodes: Vec::with_capacity(arena, room)?,
        run: Run::Nothing,
    })
}

/// One more text.
#[inline(never)]
fn gather_text<'b>(gathered: &mut Gathered<'b>, text: &'b str) -> Result<(), NoMemory>
    ensures nodes { OnOk result (trees gathered.new.nodes.items ≡ trees gathered.old.nodes.items) }
    ensures run { OnOk result (run_text gathered.new.run ≡ run_text gathered.old.run ++ text.now) }
{
    let run = mem::replace(&mut gathered.run, Run::Nothing);
    gathered.run = extended(gathered.arena, run, text)?;
    Ok(())
}

/// Ends the run, whose text is dropped where it is white space alone.
fn end_run(gathered: &mut Gathered<'_>) -> Result<(), NoMemory>
    ensures nodes { OnOk result (trees gathered.new.nodes.items
        ≡ beside (trees gathered.old.nodes.items) (kept (run_text gathered.old.run) none)) }
    ensures run { OnOk result (run_text gathered.new.run ≡ []) }
{
    let text = text_of(mem::replace(&mut gathered.run, Run::Nothing));
    if !is_white_space_only(text) {
        gathered.nodes.push(Node::Text(text))?;
    }
    Ok(())
}

/// One more element.
#[inline(never)]
fn gather_element<'b>(
    gathered: &mut Gathered<'b>,
    name: &Name<'b>,
    kids: &'b [Node<'b>],
) -> Result<(), NoMemory>
    ensures nodes { OnOk result
        (trees gathered.new.nodes.items
        ≡ beside (beside (trees gathered.old.nodes.items) (kept (run_text gathered.old.run) none))
        (element (see.name name.now) (trees kids.now) none)) }
    ensures run { OnOk result (run_text gathered.new.run ≡ []) }
{
    end_run(gathered)?;
    gathered.nodes.push(Node::Elem(*name, kids))?;
    Ok(())
}

/// All trees.
#[inline(never)]
fn all_gathered<'b>(mut gathered: Gathered<'b>) -> Result<&'b [Node<'b>], NoMemory>
    ensures { IfOk result (λ out. trees out.now
        ≡ beside (trees gathered.entry.nodes.items) (kept (run_text gathered.entry.run) none)) }
{
    end_run(&mut gathered)?;
    Ok(into_bump_slice(gathered.nodes))
}

/// What the normal form of a level changes at one of its trees: nothing; a text that stands behind another or is white
/// space alone; or the children of an element, of which these are the normal form.
#[derive(Clone, Copy)]
pub(crate) enum Change<'b> {
    Nothing,
    Text,
    Kids(&'b [Node<'b>]),
}

/// What is known of a level whose normal form is made: the children of the trees before a place are in normal form, and, where
/// it is known, the normal form of those of the tree there.
#[derive(Clone, Copy)]
struct Known<'b> {
    place: usize,
    kids: Option<&'b [Node<'b>]>,
}

/// Whether a tree is a text.
fn is_text(node: &Node<'_>) -> bool
    ensures { result ≡ begins_with_text (see.before node.now none) }
{
    match node {
        Node::Text(_) => true,
        Node::Elem(_, _) => false,
    }
}

/// Whether a text stands behind another, or is white space alone.
fn text_changes(text: &str, behind: bool) -> bool
    ensures { result ≡ (behind || t.is_white_space_only text.now) }
{
    behind || is_white_space_only(text)
}

/// What changes at an element with these new children, if there are new ones.
fn kids_changed<'b>(fresh: Option<&'b [Node<'b>]>) -> Change<'b>
    ensures { result ≡ kids_change fresh.entry }
{
    match fresh {
        Some(kids) => Change::Kids(kids),
        None => Change::Nothing,
    }
}

/// What changes at a tree that stands behind a text or not.
#[cycle(normal)]
fn change_of<'b>(arena: &'b Bump, node: &Node<'b>, behind: bool) -> Result<Change<'b>, NoMemory>
    ensures { IfOk result (λ change. IsChange behind node.now change) }
{
    match node {
        Node::Text(text) => {
            if text_changes(text, behind) {
                return Ok(Change::Text);
            }
            Ok(Change::Nothing)
        }
        Node::Elem(_, kids) => {
            let fresh = renewed(arena, kids)?;
            Ok(kids_changed(fresh))
        }
    }
}

/// What is known of a level where its normal form changes something, by the first tree at which it does.
#[cycle(normal)]
fn first_change<'b>(arena: &'b Bump, nodes: &[Node<'b>]) -> Result<Option<Known<'b>>, NoMemory>
    ensures { IfOk result
        (λ r. MatchOption r (IsNormal (trees nodes.now))
        (λ known. KidsStay known.place (known_kids known.kids) (trees nodes.now))) }
{
    let mut behind = false;
    for (place, node) in nodes.iter().enumerate() {
        let change = change_of(arena, node, behind)?;
        match change {
            Change::Nothing => behind = is_text(node),
            Change::Text => return Ok(Some(Known { place, kids: None })),
            Change::Kids(fresh) => {
                return Ok(Some(Known {
                    place,
                    kids: Some(fresh),
                }));
            }
        }
    }
    Ok(None)
}

/// The normal form of the children of an element, by what is known of its level.
#[cycle(normal)]
fn kids_at<'b>(
    arena: &'b Bump,
    kids: &'b [Node<'b>],
    place: usize,
    known: &Known<'b>,
) -> Result<&'b [Node<'b>], NoMemory>
    requires before { place < known.now.place → IsNormal (trees kids.now) }
    requires here { place ≡ known.now.place → (k : t.Trees) → known_kids known.now.kids ≡ Some k
        → k ≡ normal_form (trees kids.now) }
    ensures { IfOk result (λ out. trees out.now ≡ normal_form (trees kids.now)) }
{
    if place < known.place {
        return Ok(kids);
    }
    if place > known.place {
        return normal_kids(arena, kids);
    }
    match known.kids {
        Some(fresh) => Ok(fresh),
        None => normal_kids(arena, kids),
    }
}

/// The normal form of trees, by what is known of them.
#[cycle(normal)]
fn normal_from<'b>(
    arena: &'b Bump,
    nodes: &[Node<'b>],
    known: &Known<'b>,
) -> Result<&'b [Node<'b>], NoMemory>
    requires { KidsStay known.now.place (known_kids known.now.kids) (trees nodes.now) }
    ensures { IfOk result (λ out. trees out.now ≡ normal_form (trees nodes.now)) }
{
    let mut gathered = gathered_nothing(arena, nodes.len())?;
    for (place, node) in nodes.iter().enumerate() {
        match node {
            Node::Text(text) => gather_text(&mut gathered, text)?,
            Node::Elem(name, kids) => {
                let kids = kids_at(arena, kids, place, known)?;
                gather_element(&mut gathered, name, kids)?;
            }
        }
    }
    all_gathered(gathered)
}

/// The normal form of trees, or none, only where they are in normal form already.
#[cycle(normal)]
fn renewed<'b>(arena: &'b Bump, nodes: &'b [Node<'b>]) -> Result<Option<&'b [Node<'b>]>, NoMemory>
    ensures { IfOk result
        (λ r. MatchOption r (IsNormal (trees nodes.now))
        (λ out. trees out.now ≡ normal_form (trees nodes.now))) }
{
    match first_change(arena, nodes)? {
        Some(known) => {
            let normal = normal_from(arena, nodes, &known)?;
            Ok(Some(normal))
        }
        None => Ok(None),
    }
}

/// The normal form of trees: they themselves, where they are in normal form.
#[cycle(normal)]
fn normal_kids<'b>(arena: &'b Bump, nodes: &'b [Node<'b>]) -> Result<&'b [Node<'b>], NoMemory>
    ensures { IfOk result (λ out. trees out.now ≡ normal_form (trees nodes.now)) }
{
    match renewed(arena, nodes)? {
        Some(normal) => Ok(normal),
        None => Ok(nodes),
    }
}

/// The normal form: adjacent texts joined, and then texts of white space alone dropped, at every level
/// (XSLT 1.0, 3.4). Levels below the first that are in normal form are lent.
pub fn normalise<'b>(arena: &'b Bump, nodes: &[Node<'b>]) -> Result<&'b [Node<'b>], NoMemory>
    ensures { IfOk result (λ out. trees out.now ≡ normal_form (trees nodes.now)) }
{
    let nothing = Known {
        place: 0,
        kids: None,
    };
    normal_from(arena, nodes, &nothing)
}
