// The sets of pairs that are met while bodies are worked out, each known by its number, with products and elements of them.
ghost use Rattle.std.specs.Prelude.{◌≡◌, ◌<◌, ◌≤◌, ℕ, Option, Some, length, IfOk, IfSome};
ghost use Rattle.tc_auto.specs.Stands as a;
ghost use Rattle.tc_mat.specs.Matrix.{IsMatrix, IsIdentity, IsComposition};
ghost use Rattle.tc_mat.specs.Held.{Held, AreMatrices};
ghost use Rattle.tc_hedge.specs.declared.hedge.Hedge.{Hedge};
ghost use Rattle.tc_beh.specs.Held.{Extends, set_at};
ghost use Rattle.tc_beh.specs.Links.{IsLink};
ghost use Rattle.tc_beh.specs.Opening.{Met, MeetsMore, Remembers, AreLinked, IsAround, IsElement, IsLow, set_or};
ghost use Rattle.tc_beh.specs.Remembered.{IsProduct};

use crate::held_sets::HeldSets;
use crate::links::Links;
use crate::places::{PLACES, place_of};
use crate::products::Products;
use crate::set_list::SetList;
use std::alloc::Global;
use std::marker::Model;
use tc_alpha::Sym;
use tc_base::NoMemory;
use tc_hedge::Hedge;
use tc_mat::{Mat, MatId};

/// How many sets are met at most.
const MOST: u32 = 8192;

/// How many words they take at most.
const MOST_WORDS: usize = 1 << 22;

/// The number of the set of each state with itself.
const NOTHING: u32 = 0;

/// A symbol and a set, and the one of an element of that symbol around it, by their numbers.
#[derive(Clone, Copy)]
struct Element {
    symbol: u32,
    inner: u32,
    element: u32,
}

/// The sets of pairs that were met, with some of their products and of the elements around them. There is room for some thousands:
/// others are worked out each time. An element is forgotten where another one comes to its place.
#[derive(Drop)]
pub(crate) struct MetSets {
    sets: SetList,
    products: Products,
    elements: Vec<Option<Element>>,
    /// Which of them stand in rows.
    links: Links,
    text: u32,
}

impl Model for MetSets {
    ghost use Rattle.std.specs.Prelude.{◌≡◌, ◌<◌, length};
    ghost use Rattle.tc_mat.specs.Matrix.{IsIdentity};
    ghost use Rattle.tc_beh.specs.Held.{set_at};
    ghost use Rattle.tc_beh.specs.Opening.{Met};
    ghost use Rattle.tc_beh.specs.Remembered.{AreRemembered};

    ghost Value = { Met };

    ghost view = { λ s. record { text = set_at s.sets s.text; held = s.sets; elements = s.elements.items; links = s.links } };

    ghost invariant = { λ s. (length s.elements.items ≡ 4096) × (s.text < length s.sets.matrices)
        × (0 < length s.sets.matrices) × IsIdentity (set_at s.sets 0) × AreRemembered s.sets s.products };
}

/// How many sets of so many words there is room for, at least those of nothing and of a text.
fn room_for(words: usize) -> u32 {
    if words == 0 {
        return MOST;
    }
    let room = MOST_WORDS / words;
    if room < 2 {
        2
    } else if room < MOST as usize {
        room as u32
    } else {
        MOST
    }
}

/// The sets of each state with itself and of a text, and the number of the last.
fn first_sets(alloc: Global, text: &Mat) -> Result<(SetList, u32), NoMemory>
    ensures nothing { IfOk result (λ s. (0 < length s.0.matrices) × IsIdentity (set_at s.0 0)) }
    ensures text { IfOk result (λ s. (s.1 < length s.0.matrices) × (set_at s.0 s.1 ≡ text.now)) }
    ensures size { IfOk result (λ s. s.0.size ≡ text.now.size) }
{
    let mut sets = SetList::new(alloc, text.size(), room_for(text.words().len()))?;
    let nothing = Mat::identity(alloc, text.size())?;
    let Some(_nothing) = sets.number_of(&nothing) else {
        return Err(NoMemory);
    };
    let Some(number) = sets.number_of(text) else {
        return Err(NoMemory);
    };
    Ok((sets, number))
}

impl MetSets {
    /// The sets of each state with itself and of a text.
    ///
    /// # Errors
    ///
    /// There is no memory for them.
    pub(crate) fn of(alloc: Global, text: &Mat) -> Result<MetSets, NoMemory>
        ensures remembers { IfOk result (λ s. (m : Hedge) → Remembers m s) }
        ensures links { IfOk result (λ s. (h : Held) → AreLinked h s) }
        ensures text { IfOk result (λ s. s.text ≡ text.now) }
        ensures size { IfOk result (λ s. s.held.size ≡ text.now.size) }
    {
        let first = first_sets(alloc, text)?;
        let products = Products::none(alloc)?;
        let elements = vec![in alloc; None; PLACES]?;
        let links = Links::none(alloc)?;
        Ok(MetSets {
            sets: first.0,
            products,
            elements,
            links,
            text: first.1,
        })
    }

    /// The number of the set of each state with itself.
    pub(crate) fn nothing(&self) -> u32
        ensures low { result < length self.now.held.matrices }
        ensures pairs { IsIdentity (set_at self.now.held result) }
        ensures matrices { AreMatrices self.now.held }
    {
        let _met = self.sets.len();
        NOTHING
    }

    /// The number of the set of a text.
    pub(crate) fn text(&self) -> u32
        ensures low { result < length self.now.held.matrices }
        ensures text { self.now.text ≡ set_at self.now.held result }
    {
        self.text
    }

    /// The set of a number.
    pub(crate) fn get(&self, number: u32) -> &Mat
        requires { number < length self.now.held.matrices }
        ensures set { result.now ≡ set_at self.now.held number }
        ensures size { result.now.size ≡ self.now.held.size }
    {
        self.sets.get(number)
    }

    /// Leaves the product of a set and another one: that of a number, or else these words.
    pub(crate) fn put_product(&self, first: &Mat, second: Option<u32>, words: &Mat, out: &mut Mat)
        requires first { first.now.size ≡ self.now.held.size }
        requires low { IsLow self.now.held second }
        requires words { words.now.size ≡ self.now.held.size }
        requires out { out.old.size ≡ self.now.held.size }
        ensures size { out.new.size ≡ out.old.size }
        ensures matrix { IsMatrix out.new }
        ensures pairs { IsComposition first.now (set_or self.now.held second words.now) out.new }
    {
        match second {
            Some(number) => Mat::mul_into(first, self.get(number), out),
            None => Mat::mul_into(first, words, out),
        }
    }

    /// The number of a set, which is met from now on if there is room.
    pub(crate) fn number_of(&mut self, set: &Mat) -> Option<u32>
        requires { set.now.size ≡ self.old.held.size }
        ensures more { MeetsMore self.old self.new }
        ensures number { IfSome result (λ k. (k < length self.new.held.matrices)
            × (set_at self.new.held k ≡ set.now)) }
    {
        self.sets.number_of(set)
    }

    /// The same of a set that stands in rows, by the number that it has there.
    pub(crate) fn number_of_held(&mut self, outputs: &HeldSets, held: u32) -> Option<u32>
        requires low { held < length outputs.now.matrices }
        requires size { outputs.now.size ≡ self.old.held.size }
        requires links { AreLinked outputs.now self.old }
        ensures text { self.new.text ≡ self.old.text }
        ensures held { Extends self.old.held self.new.held }
        ensures remembers { (m : Hedge) → Remembers m self.old → Remembers m self.new }
        ensures links { AreLinked outputs.now self.new }
        ensures number { IfSome result (λ k. (k < length self.new.held.matrices)
            × (set_at self.new.held k ≡ set_at outputs.now held)) }
    {
        if let Some(number) = self.links.met_of(held) {
            return Some(number);
        }
        let number = self.number_of(outputs.get(MatId(held)))?;
        self.link(held, number);
        Some(number)
    }

    /// The number in rows of a set that was met, if it is known.
    pub(crate) fn held_of(&self, number: Option<u32>) -> Option<u32>
        ensures { IfSome result (λ k. (h : Held) → AreLinked h self.now
            → (i : ℕ) × (number ≡ Some i) × IsLink h self.now.held k i) }
    {
        self.links.held_of(number?)
    }

    /// Keeps the number in rows of a set that was met.
    pub(crate) fn link(&mut self, held: u32, number: u32)
        ensures text { self.new.text ≡ self.old.text }
        ensures held { self.new.held ≡ self.old.held }
        ensures elements { self.new.elements ≡ self.old.elements }
        ensures links { (h : Held) → AreLinked h self.old → IsLink h self.old.held held number
            → AreLinked h self.new }
    {
        self.links.keep(held, number);
    }

    /// The number of the product of two sets, if both were met and it is known.
    pub(crate) fn product(&self, first: Option<u32>, second: Option<u32>) -> Option<u32>
        requires first { IsLow self.now.held first }
        requires second { IsLow self.now.held second }
        ensures { IfSome result (λ k. (i j : ℕ) × (first ≡ Some i) × (second ≡ Some j)
            × IsProduct self.now.held i j k) }
    {
        let (Some(first), Some(second)) = (first, second) else {
            return None;
        };
        let _met = self.sets.len();
        if first == NOTHING {
            return Some(second);
        }
        if second == NOTHING {
            return Some(first);
        }
        self.products.get(first, second)
    }

    /// Remembers the product of two sets, if all three were met.
    pub(crate) fn remember_product(
        &mut self,
        first: Option<u32>,
        second: Option<u32>,
        product: Option<u32>,
    )
        requires { (i j k : ℕ) → first ≡ Some i → second ≡ Some j → product ≡ Some k
            → IsProduct self.old.held i j k }
        ensures { self.new ≡ self.old }
    {
        if let (Some(first), Some(second), Some(product)) = (first, second, product) {
            self.products.keep(first, second, product);
        }
    }

    /// The number of the set of an element around a set, if that was met and it is known.
    fn element(&self, symbol: Sym, inner: Option<u32>) -> Option<u32>
        ensures { IfSome result (λ k. (m : Hedge) → Remembers m self.now → (i : ℕ)
            × (inner ≡ Some i) × IsElement m self.now.held symbol.0 i k) }
    {
        let inner = inner?;
        let known = self.elements[place_of(symbol.0, inner)]?;
        if known.symbol == symbol.0 && known.inner == inner {
            Some(known.element)
        } else {
            None
        }
    }

    /// Remembers the set of an element around a set, if both were met.
    fn remember_element(&mut self, symbol: Sym, inner: Option<u32>, element: Option<u32>)
        ensures held { self.new.held ≡ self.old.held }
        ensures text { self.new.text ≡ self.old.text }
        ensures links { self.new.links ≡ self.old.links }
        ensures remembers { (m : Hedge) → Remembers m self.old
            → ((i k : ℕ) → inner ≡ Some i → element ≡ Some k
            → IsElement m self.old.held symbol.0 i k) → Remembers m self.new }
    {
        if let (Some(inner), Some(element)) = (inner, element) {
            self.elements[place_of(symbol.0, inner)] = Some(Element {
                symbol: symbol.0,
                inner,
                element,
            });
        }
    }

    /// Leaves the set of an element around another one: that of a number, or else these words.
    fn put_around(
        &self,
        output: &Hedge<'_>,
        symbol: Sym,
        inner: Option<u32>,
        words: &Mat,
        out: &mut Mat,
    )
        requires symbol { symbol.0 < output.now.symbols }
        requires states { a.states output.now.auto ≡ self.now.held.size }
        requires inner { IsLow self.now.held inner }
        requires words { words.now.size ≡ self.now.held.size }
        requires out { out.old.size ≡ self.now.held.size }
        ensures size { out.new.size ≡ out.old.size }
        ensures around { IsAround output.now symbol.0
            (set_or self.now.held inner words.now) out.new }
    {
        match inner {
            Some(number) => output.element_into(symbol, self.get(number), out),
            None => output.element_into(symbol, words, out),
        }
    }

    /// The number of the set of an element around a set, which is met from now on if there is room; else its words stand in
    /// `led`.
    pub(crate) fn led_around(
        &mut self,
        output: &Hedge<'_>,
        symbol: Sym,
        inner: Option<u32>,
        words: &Mat,
        led: &mut Mat,
    ) -> Option<u32>
        requires symbol { symbol.0 < output.now.symbols }
        requires states { a.states output.now.auto ≡ self.old.held.size }
        requires remembers { Remembers output.now self.old }
        requires inner { IsLow self.old.held inner }
        requires words { words.now.size ≡ self.old.held.size }
        requires led { led.old.size ≡ self.old.held.size }
        ensures text { self.new.text ≡ self.old.text }
        ensures held { Extends self.old.held self.new.held }
        ensures remembers { Remembers output.now self.new }
        ensures links { (h : Held) → AreLinked h self.old → AreLinked h self.new }
        ensures led { led.new.size ≡ led.old.size }
        ensures low { IsLow self.new.held result }
        ensures around { IsAround output.now symbol.0 (set_or self.old.held inner words.now)
            (set_or self.new.held result led.new) }
    {
        if let Some(element) = self.element(symbol, inner) {
            return Some(element);
        }
        self.put_around(output, symbol, inner, words, led);
        let element = self.number_of(led);
        self.remember_element(symbol, inner, element);
        element
    }
}
