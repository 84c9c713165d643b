// The pairs of states that trees lead, by the automaton of a schema.
ghost use Rattle.std.specs.Prelude.{◌≡◌, ◌*◌, ◌↔◌, ◌⊎◌, ℕ, IfOk, IsTrue, length, slice_get, true};
ghost use Rattle.std.specs.List.{Contains};
ghost use Rattle.tc_auto.specs.Arrows.{AreWithin};
ghost use Rattle.tc_hedge.specs.Sized.{KeepsSize};
ghost use Rattle.tc_hedge.specs.Items.{IsOfSomeSchema};
ghost use Rattle.tc_mat.specs.Matrix.{HasPair, IsComposition, IsMatrix};

use crate::table::{push_allowed, table_of};
use std::alloc::Global;
use tc_alpha::{Alphabet, Sym};
use tc_auto::{Arrow, Auto, Edge};
use tc_base::NoMemory;
use tc_mat::Mat;
use tc_model::{Name, Node, is_white_space_only};

/// The automaton of a schema, and which symbols the classes of its element patterns hold.
#[derive(Drop)]
pub struct Hedge<'b> {
    pub(crate) alloc: Global,
    pub(crate) auto: Auto<'b>,
    symbols: u32,
    allowed: Vec<bool>,
    ghost stands: { ∥ IsOfSomeSchema auto ∥₁ },
    ghost tabled: { length allowed.items ≡ symbols * length auto.elements.now },
}

/// Whether a flag is set.
fn is_set(flags: &[bool], place: usize) -> bool
    ensures { IsTrue result ↔ (slice_get flags.now place ≡ Some true) }
{
    match flags.get(place) {
        Some(flag) => *flag,
        None => false,
    }
}

/// The composition of two sets of pairs.
fn composition(alloc: Global, first: &Mat, second: &Mat) -> Result<Mat, NoMemory>
    requires { first.now.size ≡ second.now.size }
    ensures size { IfOk result (λ m. m.size ≡ first.now.size) }
    ensures matrix { IfOk result (λ m. IsMatrix m) }
    ensures pairs { IfOk result (λ m. IsComposition first.now second.now m) }
{
    let mut both = Mat::zero(alloc, first.size())?;
    Mat::mul_into(first, second, &mut both);
    Ok(both)
}

/// Puts the pairs of edges.
fn put_arrows(arrows: &[Arrow], out: &mut Mat)
    requires within { AreWithin out.old.size arrows.now }
    requires matrix { IsMatrix out.old }
    ensures kept { KeepsSize out.old out.new }
    ensures pairs { (i j : ℕ) → HasPair out.new i j
        ↔ (HasPair out.old i j ⊎ Contains arrows.now (record { from = i; to = j })) }
{
    for arrow in arrows {
        out.set(arrow.from, arrow.to);
    }
}

impl<'b> Hedge<'b> {
    ghost use Rattle.std.specs.Prelude.{◌≡◌, ◌<◌, ◌≤◌, ◌↔◌, ◌⊎◌, ℕ, suc, List, Some, IfOk, IsTrue, All, length};
    ghost use Rattle.std.specs.List.{Contains};
    ghost use Rattle.tc_auto.specs.Stands as a;
    ghost use Rattle.tc_auto.specs.Steps.{leaf as see_leaf};
    ghost use Rattle.tc_auto.specs.declared.auto.Edge.{Edge};
    ghost use Rattle.tc_hedge.specs.Items.{IsAround, IsTakenAround};
    ghost use Rattle.tc_hedge.specs.Leading.{ArePairsAround, ArePairsOf, ArePairsOfText, IsTaken};
    ghost use Rattle.tc_hedge.specs.Sized.{KeepsSize};
    ghost use Rattle.tc_hedge.specs.Stands.{Stands};
    ghost use Rattle.tc_mat.specs.Matrix.{HasPair, IsMatrix};
    ghost use Rattle.tc_model.specs.Grammars as g;
    ghost use Rattle.tc_model.specs.Names as n;
    ghost use Rattle.tc_model.specs.Views as see;
    ghost use Rattle.tc_model.specs.Sheets as sh;
    ghost use Rattle.tc_model.specs.States as s;
    ghost use Rattle.tc_model.specs.Symbols.{Mention, symbol_count, symbol_of, symbols_of};
    ghost use Rattle.tc_model.specs.Trees as t;
    ghost use Rattle.tc_model.specs.Validity.{IsValidOutput};

    /// A hedge of an automaton, by the symbols of an alphabet.
    pub fn of(alloc: Global, auto: Auto<'b>, alphabet: &Alphabet) -> Result<Hedge<'b>, NoMemory>
        requires { IsOfSomeSchema auto }
        ensures automaton { IfOk result (λ h. h.auto ≡ auto.entry) }
        ensures symbols { IfOk result (λ h. h.symbols ≡ symbol_count alphabet.now) }
        ensures stands { IfOk result
            (λ h. (side : s.Side) (x : g.Grammar) → a.Stands side x auto.entry
            → (input output : g.Grammar) (sheet : sh.Sheet) → alphabet.now
            ≡ symbols_of input output sheet → (x ≡ input) ⊎ (x ≡ output)
            → Stands side x alphabet.now h) }
    {
        let allowed = table_of(alloc, &auto, alphabet)?;
        let symbols = alphabet.count();
        Ok(Hedge {
            alloc,
            auto,
            symbols,
            allowed,
        })
    }

    /// The automaton.
    pub fn auto(&self) -> &Auto<'b>
        ensures { result.now ≡ self.now.auto }
    {
        &self.auto
    }

    /// The number of symbols.
    pub fn symbols(&self) -> u32
        ensures { result ≡ self.now.symbols }
    {
        self.symbols
    }

    /// Whether the names of a symbol are in the name class of an element pattern.
    pub fn allows(&self, number: u32, sym: Sym) -> bool
        requires from_one { 1 ≤ number }
        requires within { number ≤ a.patterns self.now.auto }
        requires symbol { sym.0 < self.now.symbols }
        ensures { (side : s.Side) (x : g.Grammar) (symbols : List Mention)
            → Stands side x symbols self.now → (name : n.ExpandedName) → symbol_of symbols name
            ≡ sym.0 → (e : g.ElementPattern) → g.element_at x.elements number ≡ Some e → result
            ≡ g.in_class e.names name }
    {
        let patterns = self.auto.patterns() as usize;
        let start = sym.0 as usize * patterns;
        self.allowed[start + (number as usize - 1)]
    }

    /// Whether a set of pairs leads the first state of a content to an accepting state of that content.
    fn is_taken(&self, inner: &Mat, number: u32) -> bool
        requires within { number ≤ a.patterns self.now.auto }
        requires size { inner.now.size ≡ a.states self.now.auto }
        ensures { (side : s.Side) (x : g.Grammar) → a.Stands side x self.now.auto
            → (e : g.ElementPattern) → g.element_at x.elements number ≡ Some e → IsTrue result
            ↔ IsTaken x side inner.now number e }
    {
        let first = self.auto.first(number);
        let end = self.auto.end(number);
        for state in first..end {
            if inner.has(first, state) && self.auto.accepts(state) {
                return true;
            }
        }
        false
    }

    /// Whether an element pattern takes an element.
    fn is_taken_around(&self, allowed: &[bool], inner: &Mat, number: u32) -> bool
        requires { inner.now.size ≡ a.states self.now.auto }
        ensures { (side : s.Side) (x : g.Grammar) → a.Stands side x self.now.auto → IsTrue result
            ↔ IsTakenAround x side allowed.now inner.now number }
    {
        if number == 0 || number > self.auto.patterns() {
            return false;
        }
        is_set(allowed, number as usize - 1) && self.is_taken(inner, number)
    }

    /// Leaves the pairs of an element whose name is in the classes that are told, around a set of pairs
    /// inside it, whatever the set held.
    fn put_around(&self, allowed: &[bool], inner: &Mat, out: &mut Mat)
        requires inner { inner.now.size ≡ a.states self.now.auto }
        requires out { out.old.size ≡ a.states self.now.auto }
        ensures kept { KeepsSize out.old out.new }
        ensures pairs { (side : s.Side) (x : g.Grammar) → a.Stands side x self.now.auto → (i j : ℕ)
            → HasPair out.new i j ↔ IsAround x side allowed.now inner.now i j }
    {
        out.clear();
        for before in 0..self.auto.patterns() {
            let number = before + 1;
            if self.is_taken_around(allowed, inner, number) {
                put_arrows(self.auto.arrows(number), out);
            }
        }
    }

    /// Leaves the pairs of a text that isn't white space alone, whatever the set held. It takes no memory.
    pub fn text_into(&self, out: &mut Mat)
        requires { out.old.size ≡ a.states self.now.auto }
        ensures size { out.new.size ≡ out.old.size }
        ensures matrix { IsMatrix out.new }
        ensures pairs { (side : s.Side) (x : g.Grammar) → a.Stands side x self.now.auto
            → ArePairsOfText x side out.new }
    {
        out.clear();
        put_arrows(self.auto.text_arrows(), out);
    }

    /// Leaves the pairs of an element whose name has a symbol, around a set of pairs inside it, whatever the
    /// set held. It takes no memory.
    pub fn element_into(&self, sym: Sym, inner: &Mat, out: &mut Mat)
        requires symbol { sym.0 < self.now.symbols }
        requires inner { inner.now.size ≡ a.states self.now.auto }
        requires out { out.old.size ≡ a.states self.now.auto }
        ensures size { out.new.size ≡ out.old.size }
        ensures matrix { IsMatrix out.new }
        ensures pairs { (side : s.Side) (x : g.Grammar) (symbols : List Mention)
            → Stands side x symbols self.now → (name : n.ExpandedName) → symbol_of symbols name
            ≡ sym.0 → ArePairsAround x side name inner.now out.new }
        ensures around { (side : s.Side) (x : g.Grammar) (symbols : List Mention)
            → Stands side x symbols self.now → (name : n.ExpandedName) → symbol_of symbols name
            ≡ sym.0 → (c : t.Trees) → ArePairsOf x side c inner.now
            → ArePairsOf x side (t.element name c t.none) out.new }
    {
        let patterns = self.auto.patterns() as usize;
        let row = sym.0 as usize * patterns;
        let allowed = &self.allowed[row..row + patterns];
        self.put_around(allowed, inner, out);
    }

    /// The pairs of an element of a name, around a set of pairs inside it.
    fn matrix_around(&self, name: &Name<'_>, inner: &Mat) -> Result<Mat, NoMemory>
        requires { inner.now.size ≡ a.states self.now.auto }
        ensures size { IfOk result (λ m. m.size ≡ a.states self.now.auto) }
        ensures matrix { IfOk result (λ m. IsMatrix m) }
        ensures pairs { IfOk result
            (λ m. (side : s.Side) (x : g.Grammar) → a.Stands side x self.now.auto
            → ArePairsAround x side (see.name name.now) inner.now m) }
    {
        let mut allowed = Vec::new(self.alloc);
        push_allowed(&mut allowed, &self.auto, name)?;
        let mut led = Mat::zero(self.alloc, self.auto.states())?;
        self.put_around(&allowed, inner, &mut led);
        Ok(led)
    }

    /// The pairs of a text.
    fn matrix_of_text(&self, text: &str) -> Result<Mat, NoMemory>
        ensures size { IfOk result (λ m. m.size ≡ a.states self.now.auto) }
        ensures matrix { IfOk result (λ m. IsMatrix m) }
        ensures pairs { IfOk result (λ m. (side : s.Side) (x : g.Grammar)
            → a.Stands side x self.now.auto → ArePairsOf x side (t.text text.now t.none) m) }
    {
        let states = self.auto.states();
        if is_white_space_only(text) {
            return Mat::identity(self.alloc, states);
        }
        let mut led = Mat::zero(self.alloc, states)?;
        self.text_into(&mut led);
        Ok(led)
    }

    /// The pairs of one tree.
    #[cycle(matrices)]
    fn matrix_of_tree(&self, node: &Node<'_>) -> Result<Mat, NoMemory>
        ensures size { IfOk result (λ m. m.size ≡ a.states self.now.auto) }
        ensures matrix { IfOk result (λ m. IsMatrix m) }
        ensures pairs { IfOk result (λ m. (side : s.Side) (x : g.Grammar)
            → a.Stands side x self.now.auto → ArePairsOf x side (see.before node.now t.none) m) }
    {
        match node {
            Node::Text(text) => self.matrix_of_text(text),
            Node::Elem(name, kids) => {
                let inner = self.matrix_of(kids)?;
                self.matrix_around(name, &inner)
            }
        }
    }

    /// The set of pairs that trees lead: an element by an element pattern that its normal form matches, while
    /// a text of white space alone stays where it is.
    ///
    /// # Errors
    ///
    /// There is no memory for the sets.
    #[cycle(matrices)]
    pub fn matrix_of(&self, nodes: &[Node<'_>]) -> Result<Mat, NoMemory>
        ensures size { IfOk result (λ m. m.size ≡ a.states self.now.auto) }
        ensures matrix { IfOk result (λ m. IsMatrix m) }
        ensures pairs { IfOk result (λ m. (side : s.Side) (x : g.Grammar)
            → a.Stands side x self.now.auto → ArePairsOf x side (see.trees nodes.now) m) }
        ensures output { IfOk result
            (λ m. (x : g.Grammar) → a.Stands s.output x self.now.auto
            → IsValidOutput x (see.trees nodes.now)
            ↔ ((j : ℕ) × HasPair m 0 j × (s.automaton x.start).accepting j)) }
    {
        let mut led = Mat::identity(self.alloc, self.auto.states())?;
        for node in nodes {
            let one = self.matrix_of_tree(node)?;
            led = composition(self.alloc, &led, &one)?;
        }
        Ok(led)
    }
}
