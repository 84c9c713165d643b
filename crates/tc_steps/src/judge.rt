// The validity of a document that is taken piece by piece.
ghost use Rattle.std.specs.Prelude.{◌≡◌, ◌↔◌, ◌++◌, ◌∷◌, [], ℕ, List, false, IfOk, IfSome, IsTrue};
ghost use Rattle.tc_auto.specs.Stands as a;
ghost use Rattle.tc_model.specs.Events as ev;
ghost use Rattle.tc_model.specs.Grammars as g;
ghost use Rattle.tc_model.specs.Names.{ExpandedName};
ghost use Rattle.tc_model.specs.Sheets.{Sheet};
ghost use Rattle.tc_model.specs.SimplifiesLaws.{IsStart};
ghost use Rattle.tc_model.specs.States as s;
ghost use Rattle.tc_model.specs.Symbols.{symbols_of};
ghost use Rattle.tc_model.specs.Trees as t;
ghost use Rattle.tc_model.specs.Validity.{IsValid};
ghost use Rattle.tc_steps.specs.Led.{IsStarted};
ghost use Rattle.tc_steps.specs.Moving.{AreRight, IsElement};
ghost use Rattle.tc_steps.specs.Judged.{IsAt, Place, Takes, outside, put};

use crate::moves::{Moves, Opened};
use std::alloc::Global;
use tc_alpha::Alphabet;
use tc_auto::Auto;
use tc_base::NoMemory;
use tc_model::{Name, TakesTrees, is_white_space_only};

/// The validity of a document, as far as it was taken: the elements that are open, with the states to which their
/// children lead, and whether the document is valid, once its root element has ended. It takes as much memory as elements
/// are open one within another, and what is remembered takes no more than some hundred kilobytes.
#[derive(Drop)]
pub struct Judge<'h, 't> {
    moves: Moves<'h, 't>,
    levels: Vec<Opened>,
    is_valid: bool,
}

impl<'h, 't> Judge<'h, 't> {
    /// Nothing was taken yet.
    ///
    /// # Errors
    ///
    /// There is no memory for what will be remembered.
    pub fn new(
        alloc: Global,
        auto: &'h Auto<'h>,
        alphabet: &'h Alphabet,
    ) -> Result<Judge<'h, 't>, NoMemory>
        ensures { IfOk result (λ j. (x other : g.Grammar) (sheet : Sheet)
            → a.Stands s.input x auto.now → alphabet.now ≡ symbols_of x other sheet
            → IsAt x j (outside t.none)) }
    {
        let moves = Moves::new(alloc, auto, alphabet)?;
        Ok(Judge {
            moves,
            levels: Vec::new(alloc),
            is_valid: false,
        })
    }

    /// Whether the document that was taken is valid: exactly so, where all of it was taken from the beginning on. That it is
    /// a document isn't looked at: one element in normal form, with lawful names and characters.
    pub fn is_valid(&self) -> bool
        ensures { (x : g.Grammar) (first : Judge) (d : t.Trees) → IsStart x.start
            → IsAt x first (outside t.none) → ev.Takes Takes first (ev.events d) self.now
            → t.IsDocument d → IsTrue result ↔ IsValid x d }
    {
        self.is_valid
    }

    /// Goes over a text that isn't white space alone.
    fn pass_text(&mut self) -> Option<()>
        ensures { IfSome result (λ _. (x : g.Grammar) (p : Place) (run : List ℕ)
            → t.is_white_space_only run ≡ false → IsAt x self.old p
            → IsAt x self.new (put p (t.text run t.none))) }
    {
        if self.levels.is_empty() {
            return Some(());
        }
        let innermost = self.levels.len() - 1;
        if let Some(to) = self.moves.known_text(&self.levels[innermost].states) {
            self.levels[innermost].states.lead_to(to);
            return Some(());
        }
        let after = self.moves.after_text(&self.levels[innermost].states)?;
        self.levels[innermost].states = after;
        Some(())
    }

    /// One more element is open.
    fn push_level(&mut self, opened: Opened) -> Option<()>
        ensures levels { IfSome result (λ _. self.new.levels.items ≡ self.old.levels.items
            ++ opened ∷ []) }
        ensures moves { self.new.moves ≡ self.old.moves }
        ensures valid { self.new.is_valid ≡ self.old.is_valid }
    {
        match self.levels.push(opened) {
            Ok(()) => Some(()),
            Err(_) => None,
        }
    }

    /// Goes over the root element.
    #[inline(never)]
    fn end_root(&mut self, inner: &Opened) -> Option<()>
        ensures answer { IfSome result (λ _. (x : g.Grammar) (n : ExpandedName) (kids : t.Trees)
            → AreRight x self.old.moves → IsElement x self.old.moves n kids inner.now
            → IsTrue self.new.is_valid ↔ IsStarted x n kids) }
        ensures moves { self.new.moves ≡ self.old.moves }
        ensures levels { self.new.levels ≡ self.old.levels }
    {
        self.is_valid = self.moves.is_started(inner)?;
        Some(())
    }

    /// Goes over an element.
    fn pass_element(&mut self, inner: &Opened) -> Option<()>
        ensures { IfSome result (λ _. (x : g.Grammar) (p : Place) (n : ExpandedName)
            (kids : t.Trees) → IsElement x self.old.moves n kids inner.now → IsAt x self.old p
            → IsAt x self.new (put p (t.element n kids t.none))) }
    {
        if self.levels.is_empty() {
            return self.end_root(inner);
        }
        let innermost = self.levels.len() - 1;
        if let Some(to) = self
            .moves
            .known_element(inner, &self.levels[innermost].states)
        {
            self.levels[innermost].states.lead_to(to);
            return Some(());
        }
        let after = self
            .moves
            .after_element(inner, &self.levels[innermost].states)?;
        self.levels[innermost].states = after;
        Some(())
    }
}

impl<'h, 't> TakesTrees<'t> for Judge<'h, 't> {
    ghost use Rattle.tc_steps.specs.Judged.{Takes};

    ghost takes = { Takes };

    #[inline(always)]
    fn text(&mut self, text: &'t str) -> Option<()> {
        if is_white_space_only(text) {
            return Some(());
        }
        self.pass_text()
    }

    #[inline(always)]
    fn start(&mut self, tag: Name<'t>) -> Option<()> {
        let opened = self.moves.start(tag)?;
        self.push_level(opened)
    }

    #[inline(always)]
    fn end(&mut self) -> Option<()> {
        let inner = self.levels.pop()?;
        self.pass_element(&inner)
    }
}
