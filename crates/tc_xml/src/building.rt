// Trees in an arena, built piece by piece.
ghost use Rattle.std.specs.Prelude.{◌≡◌, ◌≤◌, [], length, map, IfSome};
ghost use Rattle.tc_model.specs.Events as events;
ghost use Rattle.tc_model.specs.Views.{before, name};
ghost use Rattle.tc_model.specs.Trees.{none};
ghost use Rattle.tc_xml.specs.Building.{building, building_of, after_event, one_level};
ghost use Rattle.tc_xml.specs.declared.building.Part.TheVariants.{Done};

use bumpalo::Bump;
use bumpalo::collections::into_bump_slice;
use tc_model::{Name, Node, TakesTrees};

/// A tree, or the start of an element whose end is to come.
#[derive(Clone, Copy)]
enum Part<'b> {
    Done(Node<'b>),
    Open(Name<'b>),
}

/// Trees that are built in an arena, those of all levels on one stack.
#[derive(Drop)]
pub(crate) struct TreeBuilder<'b> {
    arena: &'b Bump,
    parts: Vec<Part<'b>, &'b Bump>,
}

/// Where the innermost level begins.
fn level_start(parts: &[Part<'_>]) -> usize {
    let mut from = parts.len();
    for part in parts.iter().rev() {
        if let Part::Open(_) = part {
            return from;
        }
        from = from.saturating_sub(1);
    }
    from
}

/// The trees of a level, in a slice of their own.
fn level<'b>(arena: &'b Bump, parts: &[Part<'b>]) -> Option<&'b [Node<'b>]>
    ensures { IfSome result (λ nodes. parts.now ≡ map Done nodes.now) }
{
    let mut nodes = Vec::with_capacity(arena, parts.len()).ok()?;
    for part in parts {
        match part {
            Part::Done(node) => nodes.push(*node).ok()?,
            Part::Open(_) => return None,
        }
    }
    Some(into_bump_slice(nodes))
}

/// Ends the element that has started last.
fn close<'b>(arena: &'b Bump, parts: &mut Vec<Part<'b>, &'b Bump>) -> Option<()>
    ensures { IfSome result
        (λ _. building_of parts.new.items ≡ after_event (building_of parts.old.items) events.end) }
{
    let from = level_start(parts.as_slice());
    if from > parts.len() {
        return None;
    }
    let kids = level(arena, &parts[from..])?;
    parts.truncate(from);
    let Some(Part::Open(name)) = parts.pop() else {
        return None;
    };
    match parts.push(Part::Done(Node::Elem(name, kids))) {
        Ok(()) => Some(()),
        Err(_) => None,
    }
}

/// Puts a text after what was built.
fn put_text<'b>(parts: &mut Vec<Part<'b>, &'b Bump>, text: &'b str) -> Option<()>
    ensures { IfSome result
        (λ _. building_of parts.new.items
        ≡ after_event (building_of parts.old.items) (events.characters text.now)) }
{
    match parts.push(Part::Done(Node::Text(text))) {
        Ok(()) => Some(()),
        Err(_) => None,
    }
}

/// Puts the start of an element after what was built.
fn put_start<'b>(parts: &mut Vec<Part<'b>, &'b Bump>, tag: Name<'b>) -> Option<()>
    ensures { IfSome result
        (λ _. building_of parts.new.items
        ≡ after_event (building_of parts.old.items) (events.start (name tag.entry))) }
{
    match parts.push(Part::Open(tag)) {
        Ok(()) => Some(()),
        Err(_) => None,
    }
}

impl<'b> TreeBuilder<'b> {
    /// No tree yet.
    pub(crate) fn new(arena: &'b Bump) -> TreeBuilder<'b>
        ensures { building result ≡ one_level none }
    {
        TreeBuilder {
            arena,
            parts: Vec::new(arena),
        }
    }

    /// The one tree that was built.
    pub(crate) fn tree(&self) -> Option<Node<'b>>
        ensures { IfSome result (λ node. building self.now ≡ one_level (before node none)) }
    {
        if self.parts.len() != 1 {
            return None;
        }
        match self.parts.first() {
            Some(Part::Done(node)) => Some(*node),
            _ => None,
        }
    }
}

impl<'b> TakesTrees<'b> for TreeBuilder<'b> {
    ghost use Rattle.std.specs.Prelude.{◌≡◌};
    ghost use Rattle.tc_xml.specs.Building.{building, after_event};

    ghost takes = { λ old e new. building new ≡ after_event (building old) e };

    fn text(&mut self, text: &'b str) -> Option<()> {
        put_text(&mut self.parts, text)
    }

    fn start(&mut self, tag: Name<'b>) -> Option<()> {
        put_start(&mut self.parts, tag)
    }

    fn end(&mut self) -> Option<()> {
        close(self.arena, &mut self.parts)
    }
}
