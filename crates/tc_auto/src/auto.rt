// Automata of schemas.
// These are content automata. An `Auto` borrows the element patterns of its grammar, for `allows`, and so has
// the grammar's lifetime.
ghost use Rattle.std.specs.Prelude.{◌≡◌, ◌<◌, ◌≤◌, ◌+◌, ◌^◌, ℕ, All, length, slice_index};
ghost use Rattle.tc_auto.specs.Arrows.{AreWithin};

use crate::arrows::Arrow;
use crate::make::made;
use crate::membership::{has_alternative, has_content_with_text, is_in_class};
use crate::rows::Row;
use std::alloc::Global;
use tc_model::{ElemPat, Grammar, Name, Pat};

/// What an edge takes: a text, or an element that matches the element pattern of a number, from 1.
#[derive(Clone, Copy, Debug, PartialEq, Eq)]
pub enum Leaf {
    Text,
    Ref(u32),
}

/// An edge to a state.
#[derive(Clone, Copy, Debug, PartialEq, Eq)]
pub struct Edge {
    pub to: u32,
    pub leaf: Leaf,
}

/// Why a schema has no automaton.
#[derive(Clone, Copy, Debug, PartialEq, Eq)]
pub enum AutoFault {
    /// It would have more states than asked for.
    TooManyStates,
    /// Memory was refused.
    NoMemory,
}

/// The states of a schema's parts, with their edges. Nfa 0 is the start, and part k is the content of
/// element pattern k; their states are numbered from 0 through all parts, in this order.
#[derive(Drop)]
pub struct Auto<'b> {
    pub(crate) start: Pat<'b>,
    pub(crate) elements: &'b [ElemPat<'b>],
    pub(crate) firsts: Vec<u32>,
    pub(crate) rows: Vec<Row>,
    pub(crate) arrows: Vec<Vec<Arrow>>,
    ghost counted: { length rows.items < 2 ^ 32 },
    ghost parted: { length firsts.items ≡ length elements.now + 1 },
    ghost numbered: { length elements.now < 2 ^ 32 },
    ghost within: { All (λ row. All (λ edge. edge.to < length rows.items) row.edges.items) rows.items },
    ghost arrowed: { length arrows.items ≡ length elements.now + 1 },
    ghost arrows_within: { All (λ leaf. AreWithin (length rows.items) leaf.items) arrows.items },
    ghost begun: { (k : ℕ) → k < length firsts.items → slice_index firsts.items k ≤ length rows.items },
    ghost begun_below: { (k : ℕ) → 1 ≤ k → k < length firsts.items → slice_index firsts.items k < length rows.items },
}

impl<'b> Auto<'b> {
    ghost use Rattle.std.specs.Prelude.{◌≡◌, ◌<◌, ◌≤◌, ◌↔◌, ℕ, suc, All, Some, IfOk, IsTrue, Err};
    ghost use Rattle.std.specs.List.{Contains};
    ghost use Rattle.tc_model.specs.Grammars as g;
    ghost use Rattle.tc_model.specs.Views as see;
    ghost use Rattle.tc_model.specs.States as s;
    ghost use Rattle.tc_auto.specs.Stands.{Stands, RunsExactly, states, patterns};
    ghost use Rattle.tc_auto.specs.Steps.{leaf};
    ghost use Rattle.tc_auto.specs.declared.auto.Edge.{Edge};
    ghost use Rattle.tc_auto.specs.declared.arrows.Arrow.{Arrow};

    /// The automaton of an output schema: its start and its contents, of at most `most` states.
    pub fn of(alloc: Global, grammar: &Grammar<'b>, most: u32) -> Result<Auto<'b>, AutoFault>
        ensures stands { IfOk result (λ a. Stands s.output (see.grammar grammar.now) a) }
        ensures too_many { result ≡ Err AutoFault.TooManyStates
            → most < s.state_count (see.grammar grammar.now) s.output }
        ensures told { most < s.state_count (see.grammar grammar.now) s.output → result
            ≡ Err AutoFault.TooManyStates }
        ensures runs { RunsExactly (see.grammar grammar.now) s.output }
    {
        made(alloc, grammar, true, most)
    }

    /// The automaton of an input schema: its contents alone, of at most `most` states.
    pub fn contents(alloc: Global, grammar: &Grammar<'b>, most: u32) -> Result<Auto<'b>, AutoFault>
        ensures stands { IfOk result (λ a. Stands s.input (see.grammar grammar.now) a) }
        ensures too_many { result ≡ Err AutoFault.TooManyStates
            → most < s.state_count (see.grammar grammar.now) s.input }
        ensures told { most < s.state_count (see.grammar grammar.now) s.input → result
            ≡ Err AutoFault.TooManyStates }
        ensures runs { RunsExactly (see.grammar grammar.now) s.input }
    {
        made(alloc, grammar, false, most)
    }

    /// The number of element patterns.
    pub fn patterns(&self) -> u32
        ensures here { result ≡ patterns self.now }
        ensures schema { (side : s.Side) (x : g.Grammar) → Stands side x self.now → result
            ≡ length x.elements }
    {
        self.elements.len() as u32
    }

    /// The number of states.
    pub fn states(&self) -> u32
        ensures here { result ≡ states self.now }
        ensures schema { (side : s.Side) (x : g.Grammar) → Stands side x self.now → result
            ≡ s.state_count x side }
    {
        self.rows.len() as u32
    }

    /// The first state of a part, from which its runs begin. An input schema's part 0 has no state.
    pub fn first(&self, part: u32) -> u32
        requires { part ≤ patterns self.now }
        ensures within { result ≤ states self.now }
        ensures below { 1 ≤ part → result < states self.now }
        ensures exact { (side : s.Side) (x : g.Grammar) → Stands side x self.now → result
            ≡ s.first_state x side part }
    {
        self.firsts[part as usize]
    }

    /// The state behind the last one of a part.
    pub fn end(&self, part: u32) -> u32
        requires { part ≤ patterns self.now }
        ensures within { result ≤ states self.now }
        ensures exact { (side : s.Side) (x : g.Grammar) → Stands side x self.now → result
            ≡ s.first_state x side (suc part) }
    {
        if part < self.patterns() {
            self.first(part + 1)
        } else {
            self.states()
        }
    }

    /// The edges from a state, which lead to states.
    pub fn follow(&self, state: u32) -> &[Edge]
        requires { state < states self.now }
        ensures within { All (λ (e : Edge). e.to < states self.now) result.now }
        ensures exact { (side : s.Side) (x : g.Grammar) → Stands side x self.now → (e : Edge)
            → Contains result.now e ↔ s.IsEdge x side state (leaf e.leaf) e.to }
    {
        self.rows[state as usize].edges.as_slice()
    }

    /// The edges that take a text.
    pub fn text_arrows(&self) -> &[Arrow]
        ensures within { AreWithin (states self.now) result.now }
        ensures exact { (side : s.Side) (x : g.Grammar) → Stands side x self.now → (a : Arrow)
            → Contains result.now a ↔ s.IsEdge x side a.from s.text_leaf a.to }
    {
        self.arrows[0].as_slice()
    }

    /// The edges that take an element by an element pattern.
    pub fn arrows(&self, number: u32) -> &[Arrow]
        requires from_one { 1 ≤ number }
        requires within { number ≤ patterns self.now }
        ensures within { AreWithin (states self.now) result.now }
        ensures exact { (side : s.Side) (x : g.Grammar) → Stands side x self.now → (a : Arrow)
            → Contains result.now a ↔ s.IsEdge x side a.from (s.ref_leaf number) a.to }
    {
        self.arrows[number as usize].as_slice()
    }

    /// Whether a state accepts.
    pub fn accepts(&self, state: u32) -> bool
        requires { state < states self.now }
        ensures { (side : s.Side) (x : g.Grammar) → Stands side x self.now → IsTrue result
            ↔ s.IsAccepting x side state }
    {
        self.rows[state as usize].accepting
    }

    /// Whether a name is in the name class of an element pattern.
    pub fn allows(&self, number: u32, name: &Name<'_>) -> bool
        requires from_one { 1 ≤ number }
        requires within { number ≤ patterns self.now }
        ensures { (side : s.Side) (x : g.Grammar) → Stands side x self.now → (e : g.ElementPattern)
            → g.element_at x.elements number ≡ Some e → result
            ≡ g.in_class e.names (see.name name.now) }
    {
        is_in_class(&self.elements[number as usize - 1].names, name)
    }

    /// Whether an element pattern is an alternative of the start, through nested choices.
    pub fn starts(&self, number: u32) -> bool
        ensures { (side : s.Side) (x : g.Grammar) → Stands side x self.now → result
            ≡ s.is_alternative number x.start }
    {
        has_alternative(&self.start, number)
    }
    /// Whether `text` is written in the content of some element pattern, also where nothing can match it
    /// there, as beside `notAllowed`.
    pub fn has_text(&self) -> bool
        ensures { (side : s.Side) (x : g.Grammar) → Stands side x self.now → result
            ≡ g.some_content_has_text x.elements }
    {
        has_content_with_text(self.elements)
    }
}
