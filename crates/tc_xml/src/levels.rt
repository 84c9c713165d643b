// The elements that have started, and what is bound in them (XML 1.0, 3; Namespaces in XML 1.0, 6).
ghost use Rattle.std.specs.Prelude.{◌≡◌, ◌<◌, [], length, IfSome};
ghost use Rattle.tc_model.specs.XmlText.{deepest_element};
ghost use Rattle.tc_model.specs.XmlTextScopes.{first_scope};
ghost use Rattle.tc_xml.specs.Bindings.{TakesBack, now_bound};
ghost use Rattle.tc_xml.specs.Spelled.{AreRight, TagReadBy};

use crate::bindings::Bindings;
use crate::plain_tags::{AttributeNames, Tag, read_tag};
use crate::spelled::SpelledNames;
use bumpalo::Bump;
use tc_base::limits::DEEPEST_NESTING;
use tc_scan::QualifiedName;

/// An element that has started: its name as it is written, how many declarations are in scope around it, and how
/// many elements may stand within one another from it on.
#[derive(Clone, Copy)]
pub(crate) struct Open<'b> {
    pub(crate) written: QualifiedName<'b>,
    pub(crate) count: usize,
    pub(crate) depth: u32,
}

/// The elements that have started, the innermost one last, with what is bound there, and how many elements may
/// stand within one another there; and room for the names in a tag.
#[derive(Drop)]
pub(crate) struct Levels<'b> {
    pub(crate) open: Vec<Open<'b>, &'b Bump>,
    pub(crate) bindings: Bindings<'b>,
    names: AttributeNames<'b>,
    spelled: SpelledNames<'b>,
    pub(crate) depth: u32,
}

impl<'b> Levels<'b> {
    /// No element has started yet.
    pub(crate) fn first(arena: &'b Bump) -> Option<Levels<'b>>
        ensures opens { IfSome result (λ levels. levels.open.items ≡ []) }
        ensures bound { IfSome result (λ levels. now_bound levels.bindings ≡ first_scope) }
        ensures deepest { IfSome result (λ levels. levels.depth ≡ deepest_element) }
        ensures right { IfSome result
            (λ levels. AreRight (now_bound levels.bindings) levels.spelled) }
    {
        let bindings = Bindings::first(arena)?;
        let spelled = SpelledNames::new(arena)?;
        Some(Levels {
            open: Vec::new(arena),
            bindings,
            names: AttributeNames::new(arena),
            spelled,
            depth: DEEPEST_NESTING,
        })
    }

    /// Reads the tag at the front, whose name isn't remembered.
    #[inline(never)]
    fn learn_tag(&mut self, arena: &'b Bump, text: &'b str) -> Option<Tag<'b>>
        ensures shorter { IfSome result (λ tag. length tag.rest.now < length text.now) }
        ensures reads { AreRight (now_bound self.old.bindings) self.old.spelled → IfSome result
            (λ tag. TagReadBy self.old.bindings text.now tag self.new.bindings self.new.spelled) }
        ensures opens { self.new.open.items ≡ self.old.open.items }
        ensures depth { self.new.depth ≡ self.old.depth }
    {
        let count = self.bindings.count();
        let tag = read_tag(arena, &mut self.bindings, &mut self.names, text)?;
        if self.bindings.count() == count {
            self.spelled.remember(text, tag.written, tag.name);
            return Some(tag);
        }
        self.spelled.forget();
        Some(tag)
    }

    /// Takes back all declarations but the first so many.
    #[inline(always)]
    pub(crate) fn take_back(&mut self, count: usize) -> Option<()>
        ensures bindings { IfSome result
            (λ _. TakesBack self.old.bindings count self.new.bindings) }
        ensures right { AreRight (now_bound self.old.bindings) self.old.spelled → IfSome result
            (λ _. AreRight (now_bound self.new.bindings) self.new.spelled) }
        ensures opens { self.new.open.items ≡ self.old.open.items }
        ensures depth { self.new.depth ≡ self.old.depth }
    {
        if self.bindings.count() == count {
            return Some(());
        }
        self.spelled.forget();
        self.bindings.take_back(count)
    }

    /// Reads the tag at the front, where an element may start, up to where it ends, and binds what it declares.
    #[inline(always)]
    pub(crate) fn read_tag(&mut self, arena: &'b Bump, text: &'b str) -> Option<Tag<'b>>
        ensures deep { IfSome result (λ _. 0 < self.old.depth) }
        ensures shorter { IfSome result (λ tag. length tag.rest.now < length text.now) }
        ensures reads { AreRight (now_bound self.old.bindings) self.old.spelled → IfSome result
            (λ tag. TagReadBy self.old.bindings text.now tag self.new.bindings self.new.spelled) }
        ensures opens { self.new.open.items ≡ self.old.open.items }
        ensures depth { self.new.depth ≡ self.old.depth }
    {
        if self.depth == 0 {
            return None;
        }
        match self.spelled.tag(text) {
            Some(tag) => Some(tag),
            None => self.learn_tag(arena, text),
        }
    }
}
