// The validity of a document, as far as its tags and texts have come.
ghost use Rattle.std.specs.Prelude.{◌≡◌, ◌<◌, ◌≤◌, ◌↔◌, ◌+◌, ◌∷◌, ℕ, List, [], true, length, All, IfOk, IsTrue};
ghost use Rattle.tc_auto.specs.Stands as a;
ghost use Rattle.tc_model.specs.Grammars as g;
ghost use Rattle.tc_model.specs.Names.{ExpandedName};
ghost use Rattle.tc_model.specs.Sheets.{Sheet};
ghost use Rattle.tc_model.specs.States as s;
ghost use Rattle.tc_model.specs.Symbols.{symbol_count, symbol_of, symbols_of};
ghost use Rattle.tc_model.specs.Trees as t;
ghost use Rattle.tc_model.specs.Views as see;
ghost use Rattle.tc_steps.specs.Classes.{IsKnown};
ghost use Rattle.tc_steps.specs.Led.{AreLed, IsStarted};
ghost use Rattle.tc_steps.specs.Open.{IsWithin, Open, with_element, with_text};
ghost use Rattle.tc_steps.specs.declared.levels.Level.{Level};

use crate::levels::{Level, all_levels};
use crate::table::Steps;
use std::alloc::Global;
use std::mem;
use tc_alpha::{Alphabet, Sym};
use tc_auto::Auto;
use tc_base::NoMemory;
use tc_model::Name;
use tc_sets::Set;

/// The validity of a document, as far as its tags and texts have come: the elements that are open, with the states to
/// which their children lead, whether characters that aren't white space alone stand behind the last tag, and whether
/// the document is valid, once the root element has ended.
#[derive(Drop)]
pub struct Validity<'h> {
    steps: Steps<'h>,
    levels: Vec<Level>,
    ended: Set,
    depth: usize,
    has_text: bool,
    is_valid: bool,
    ghost within: { depth ≤ length levels.items },
    ghost sized: { All (λ (l : Level). l.states.size ≡ a.states steps.auto.now) levels.items },
    ghost lawful: { All (λ (l : Level). l.symbol.0 < symbol_count steps.alphabet.now) levels.items },
    ghost ended_sized: { ended.size ≡ a.states steps.auto.now },
}

impl<'h> Validity<'h> {
    /// No element is open, and so many may be, one within another.
    ///
    /// # Errors
    ///
    /// There is no memory for the sets of states.
    pub fn new(
        alloc: Global,
        auto: &'h Auto<'h>,
        alphabet: &'h Alphabet,
        most: usize,
    ) -> Result<Validity<'h>, NoMemory>
        ensures room { IfOk result (λ r. length r.levels.items ≡ most) }
        ensures depth { IfOk result (λ r. r.depth ≡ 0) }
        ensures within { IfOk result (λ r. (x other : g.Grammar) (sheet : Sheet)
            → a.Stands s.input x auto.now → alphabet.now ≡ symbols_of x other sheet
            → IsWithin x r.steps.auto.now r.steps.alphabet.now r.steps.classes.items r.levels.items
            r.depth r.has_text [] []) }
    {
        let steps = Steps::new(alloc, auto, alphabet)?;
        let levels = all_levels(alloc, auto, most)?;
        let ended = Set::empty(alloc, auto.states())?;
        Ok(Validity {
            steps,
            levels,
            ended,
            depth: 0,
            has_text: false,
            is_valid: false,
        })
    }

    /// How many elements are open.
    pub fn depth(&self) -> usize
        ensures { result ≡ self.now.depth }
    {
        self.depth
    }

    /// Takes characters that aren't white space alone.
    pub fn take_text(&mut self)
        ensures text { self.new.has_text ≡ true }
        ensures steps { self.new.steps ≡ self.old.steps }
        ensures levels { self.new.levels.items ≡ self.old.levels.items }
        ensures depth { self.new.depth ≡ self.old.depth }
        ensures valid { self.new.is_valid ≡ self.old.is_valid }
    {
        self.has_text = true;
    }

    /// Whether the document is valid, once its root element has ended; false until then.
    pub fn is_valid(&self) -> bool
        ensures { result ≡ self.now.is_valid }
    {
        self.is_valid
    }

    /// Goes over the text that was taken.
    fn pass_text(&mut self)
        requires { (0 < self.old.depth) × (self.old.has_text ≡ true) }
        ensures depth { self.new.depth ≡ self.old.depth }
        ensures room { length self.new.levels.items ≡ length self.old.levels.items }
        ensures within { (x : g.Grammar) (path : List Open) (run : List ℕ)
            → IsWithin x self.old.steps.auto.now self.old.steps.alphabet.now
            self.old.steps.classes.items self.old.levels.items self.old.depth self.old.has_text
            path run
            → IsWithin x self.new.steps.auto.now self.new.steps.alphabet.now
            self.new.steps.classes.items self.new.levels.items self.new.depth self.new.has_text
            (with_text run path) [] }
    {
        let level = self.depth - 1;
        self.steps.pass_text(&mut self.levels[level].states);
        self.has_text = false;
    }

    /// Goes over the text that was taken, if there is one.
    fn end_text(&mut self)
        ensures depth { self.new.depth ≡ self.old.depth }
        ensures room { length self.new.levels.items ≡ length self.old.levels.items }
        ensures within { (x : g.Grammar) (path : List Open) (run : List ℕ)
            → IsWithin x self.old.steps.auto.now self.old.steps.alphabet.now
            self.old.steps.classes.items self.old.levels.items self.old.depth self.old.has_text
            path run
            → IsWithin x self.new.steps.auto.now self.new.steps.alphabet.now
            self.new.steps.classes.items self.new.levels.items self.new.depth self.new.has_text
            (with_text run path) [] }
    {
        if !self.has_text {
            return;
        }
        if self.depth == 0 {
            self.has_text = false;
            return;
        }
        self.pass_text();
    }

    /// Goes into an element. Fewer than `most` are open.
    pub fn start(&mut self, name: &Name<'_>)
        requires { self.old.depth < length self.old.levels.items }
        ensures room { length self.new.levels.items ≡ length self.old.levels.items }
        ensures depth { self.new.depth ≡ self.old.depth + 1 }
        ensures within { (x : g.Grammar) (path : List Open) (run : List ℕ)
            → IsWithin x self.old.steps.auto.now self.old.steps.alphabet.now
            self.old.steps.classes.items self.old.levels.items self.old.depth self.old.has_text
            path run
            → IsWithin x self.new.steps.auto.now self.new.steps.alphabet.now
            self.new.steps.classes.items self.new.levels.items self.new.depth self.new.has_text
            (record { name = see.name name.now; kids = t.none } ∷ with_text run path) [] }
    {
        self.end_text();
        let symbol = self.steps.symbol(name);
        let level = &mut self.levels[self.depth];
        level.symbol = symbol;
        self.steps.enter(symbol, &mut level.states);
        self.depth += 1;
    }

    /// Takes the innermost element away, behind which no text stands: its symbol, and in `ended` the states to which its
    /// children lead. Its level means nothing then.
    fn leave(&mut self) -> Sym
        requires { 0 < self.old.depth }
        ensures room { length self.new.levels.items ≡ length self.old.levels.items }
        ensures depth { self.new.depth + 1 ≡ self.old.depth }
        ensures symbol { result.0 < symbol_count self.new.steps.alphabet.now }
        ensures within { (x : g.Grammar) (o : Open) (path : List Open)
            → IsWithin x self.old.steps.auto.now self.old.steps.alphabet.now
            self.old.steps.classes.items self.old.levels.items self.old.depth self.old.has_text
            (o ∷ path) []
            → IsWithin x self.new.steps.auto.now self.new.steps.alphabet.now
            self.new.steps.classes.items self.new.levels.items self.new.depth self.new.has_text
            path [] }
        ensures left { (x : g.Grammar) (o : Open) (path : List Open)
            → IsWithin x self.old.steps.auto.now self.old.steps.alphabet.now
            self.old.steps.classes.items self.old.levels.items self.old.depth self.old.has_text
            (o ∷ path) []
            → (result.0 ≡ symbol_of self.new.steps.alphabet.now o.name)
            × IsKnown self.new.steps.classes.items result.0
            × AreLed x o.name o.kids self.new.ended }
    {
        self.depth -= 1;
        let level = &mut self.levels[self.depth];
        mem::swap(&mut self.ended, &mut level.states);
        level.symbol
    }

    /// Goes out of the innermost element. One is open.
    pub fn end(&mut self)
        requires { 0 < self.old.depth }
        ensures room { length self.new.levels.items ≡ length self.old.levels.items }
        ensures depth { self.new.depth + 1 ≡ self.old.depth }
        ensures within { (x : g.Grammar) (o : Open) (path : List Open) (run : List ℕ)
            → IsWithin x self.old.steps.auto.now self.old.steps.alphabet.now
            self.old.steps.classes.items self.old.levels.items self.old.depth self.old.has_text
            (o ∷ path) run
            → IsWithin x self.new.steps.auto.now self.new.steps.alphabet.now
            self.new.steps.classes.items self.new.levels.items self.new.depth self.new.has_text
            (with_element o.name (t.beside o.kids (t.kept run t.none)) path) [] }
        ensures valid { (x : g.Grammar) (o : Open) (run : List ℕ)
            → IsWithin x self.old.steps.auto.now self.old.steps.alphabet.now
            self.old.steps.classes.items self.old.levels.items self.old.depth self.old.has_text
            (o ∷ []) run
            → IsTrue self.new.is_valid ↔ IsStarted x o.name (t.beside o.kids (t.kept run t.none)) }
    {
        self.end_text();
        let symbol = self.leave();
        if self.depth == 0 {
            self.is_valid = self.steps.is_started(symbol, &self.ended);
            return;
        }
        let outer = self.depth - 1;
        self.steps
            .pass_element(symbol, &self.ended, &mut self.levels[outer].states);
    }
}
