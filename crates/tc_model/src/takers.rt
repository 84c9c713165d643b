// What takes trees piece by piece.
ghost use Rattle.std.specs.Prelude.{IfSome};
ghost use Rattle.tc_model.specs.Events.{Event, characters, start as started, end as ended};
ghost use Rattle.tc_model.specs.Views.{name};

use crate::tree::Name;

/// What takes trees piece by piece: texts, and elements by their start, what stands in them and their end. What it
/// makes of a whole, `Takes` says; a call may give up.
pub trait TakesTrees<'t>: Drop {
    ghost takes: { Self → Event → Self → Type 0 };

    /// Takes a text.
    fn text(&mut self, text: &'t str) -> Option<()>
        ensures { IfSome result (λ _. takes self.old (characters text.now) self.new) };

    /// Takes the start of an element with this name.
    fn start(&mut self, tag: Name<'t>) -> Option<()>
        ensures { IfSome result (λ _. takes self.old (started (name tag.entry)) self.new) };

    /// Takes the end of the element that has started last.
    fn end(&mut self) -> Option<()>
        ensures { IfSome result (λ _. takes self.old ended self.new) };
}
