// The sets of pairs that stand open while a body is put: the one that is put together, and those that wait for it to be led by
// an element around it.
ghost use Rattle.std.specs.Prelude.{◌≡◌, ◌<◌, ◌≤◌, ◌+◌, ◌∷◌, ℕ, List, Some, length, IfOk, IfSome, All};
ghost use Rattle.tc_auto.specs.Stands as a;
ghost use Rattle.tc_mat.specs.Held.{Held, AreMatrices};
ghost use Rattle.tc_mat.specs.Matrix.{Matrix, IsMatrix, IsIdentity, IsComposition, HaveSamePairs};
ghost use Rattle.tc_beh.specs.Held.{set_at};
ghost use Rattle.tc_hedge.specs.declared.hedge.Hedge.{Hedge};
ghost use Rattle.tc_beh.specs.Opening.{MeetsMore, Remembers, AreLinked, IsAround, IsLow, IsOpenSet, IsBeside, set_of, set_or};

use crate::held_sets::HeldSets;
use crate::met_sets::MetSets;
use std::alloc::Global;
use std::marker::Model;
use std::mem;
use tc_alpha::Sym;
use tc_base::NoMemory;
use tc_hedge::Hedge;
use tc_mat::{Mat, MatId};

/// A set that stands open: one that was met, by its number, or else its words.
#[derive(Drop)]
struct OpenSet {
    number: Option<u32>,
    words: Mat,
}

/// The sets that stand open, the innermost first, behind places that are free.
#[derive(Drop)]
pub(crate) struct OpenSets {
    met: MetSets,
    places: Vec<OpenSet>,
    free: usize,
    /// The set of an element, and one that is worked out.
    led: Mat,
    room: Mat,
}

impl Model for OpenSets {
    ghost use Rattle.std.specs.Prelude.{◌≡◌, ◌<◌, ◌+◌, length, map, drop, get_or, All};
    ghost use Rattle.tc_mat.specs.Held.{AreMatrices};
    ghost use Rattle.tc_beh.specs.Opening.{Open, IsOpenSet, set_of, no_set};

    ghost Value = { Open };

    ghost view = { λ s. record {
      out = set_of s.met.held (get_or s.places.items s.free no_set);
      under = map (set_of s.met.held) (drop (s.free + 1) s.places.items);
      room = s.free;
      met = s.met;
    } };

    ghost invariant = { λ s. (s.free < length s.places.items) × All (IsOpenSet s.met.held) s.places.items
        × (s.led.size ≡ s.met.held.size) × (s.room.size ≡ s.met.held.size) × AreMatrices s.met.held };
}

/// Leaves the product of a set that stands open and another one: that of a number, or else these words.
fn multiply(met: &MetSets, first: &OpenSet, second: Option<u32>, words: &Mat, out: &mut Mat)
    requires first { IsOpenSet met.now.held first.now }
    requires low { IsLow met.now.held second }
    requires words { words.now.size ≡ met.now.held.size }
    requires out { out.old.size ≡ met.now.held.size }
    ensures size { out.new.size ≡ out.old.size }
    ensures matrix { IsMatrix out.new }
    ensures pairs { IsComposition (set_of met.now.held first.now)
        (set_or met.now.held second words.now) out.new }
{
    match first.number {
        Some(number) => met.put_product(met.get(number), second, words, out),
        None => met.put_product(&first.words, second, words, out),
    }
}

/// Puts a set behind another: one that was met, by its number, or else these words.
fn put_behind(
    met: &mut MetSets,
    out: &mut OpenSet,
    number: Option<u32>,
    words: &Mat,
    room: &mut Mat,
)
    requires out { IsOpenSet met.old.held out.old }
    requires low { IsLow met.old.held number }
    requires words { words.now.size ≡ met.old.held.size }
    requires room { room.old.size ≡ met.old.held.size }
    ensures more { MeetsMore met.old met.new }
    ensures matrices { AreMatrices met.new.held }
    ensures out { IsOpenSet met.new.held out.new }
    ensures room { room.new.size ≡ room.old.size }
    ensures pairs { IsComposition (set_of met.old.held out.old)
        (set_or met.old.held number words.now) (set_of met.new.held out.new) }
{
    if let Some(product) = met.product(out.number, number) {
        out.number = Some(product);
        let _nothing = met.nothing();
        return;
    }
    multiply(met, out, number, words, room);
    let product = met.number_of(room);
    met.remember_product(out.number, number, product);
    out.number = product;
    mem::swap(&mut out.words, room);
    let _nothing = met.nothing();
}

/// So many places, each for the set of a number.
fn empty_places(
    alloc: Global,
    count: usize,
    number: u32,
    size: u32,
) -> Result<Vec<OpenSet>, NoMemory>
    ensures count { IfOk result (λ v. length v.items ≡ count) }
    ensures sets { IfOk result (λ v. All
        (λ o. (o.number ≡ Some number) × (o.words.size ≡ size)) v.items) }
{
    let mut places = Vec::new(alloc);
    for _ in 0..count {
        places.push(OpenSet {
            number: Some(number),
            words: Mat::zero(alloc, size)?,
        })?;
    }
    Ok(places)
}

impl OpenSets {
    /// One set of each state with itself, in which so many others may be opened.
    ///
    /// # Errors
    ///
    /// There is no memory for them.
    pub(crate) fn of(alloc: Global, text: &Mat, depth: u32) -> Result<OpenSets, NoMemory>
        ensures size { IfOk result (λ o. o.out.size ≡ text.now.size) }
        ensures room { IfOk result (λ o. o.room ≡ depth) }
        ensures text { IfOk result (λ o. o.met.text ≡ text.now) }
        ensures remembers { IfOk result (λ o. (m : Hedge) → Remembers m o.met) }
        ensures links { IfOk result (λ o. (h : Held) → AreLinked h o.met) }
    {
        let met = MetSets::of(alloc, text)?;
        let nothing = met.nothing();
        let places = empty_places(alloc, depth as usize + 1, nothing, text.size())?;
        let led = Mat::zero(alloc, text.size())?;
        let room = Mat::zero(alloc, text.size())?;
        Ok(OpenSets {
            met,
            places,
            free: depth as usize,
            led,
            room,
        })
    }

    /// The set that is put together.
    pub(crate) fn out(&self) -> &Mat
        ensures out { result.now ≡ self.now.out }
        ensures matrix { IsMatrix self.now.out }
    {
        let place = &self.places[self.free];
        let out = match place.number {
            Some(number) => self.met.get(number),
            None => &place.words,
        };
        // Of a set that is asked its size it is known that it is a matrix.
        let _size = out.size();
        out
    }

    /// Leaves the set that is put together in another one.
    pub(crate) fn leave(&self, set: &mut Mat)
        requires { set.old.size ≡ self.now.out.size }
        ensures size { set.new.size ≡ set.old.size }
        ensures pairs { HaveSamePairs set.new self.now.out }
    {
        let nothing = self.met.get(self.met.nothing());
        let place = &self.places[self.free];
        self.met
            .put_product(nothing, place.number, &place.words, set);
    }

    /// Begins anew with the set of each state with itself.
    pub(crate) fn restart(&mut self)
        ensures size { self.new.out.size ≡ self.old.out.size }
        ensures met { self.new.met ≡ self.old.met }
        ensures same { (m : Hedge) (h : Held) → IsBeside m h self.old self.new }
        ensures out { IsIdentity self.new.out }
    {
        self.places[self.free].number = Some(self.met.nothing());
    }

    /// Opens a set, at first that of each state with itself.
    pub(crate) fn begin(&mut self)
        requires { 0 < self.old.room }
        ensures size { self.new.out.size ≡ self.old.out.size }
        ensures out { IsIdentity self.new.out }
        ensures under { self.new.under ≡ self.old.out ∷ self.old.under }
        ensures room { self.old.room ≡ self.new.room + 1 }
        ensures met { self.new.met ≡ self.old.met }
    {
        self.free -= 1;
        self.places[self.free].number = Some(self.met.nothing());
    }

    /// Puts the pairs of a text.
    pub(crate) fn put_text(&mut self)
        ensures same { (m : Hedge) (h : Held) → IsBeside m h self.old self.new }
        ensures pairs { IsComposition self.old.out self.old.met.text self.new.out }
    {
        let text = Some(self.met.text());
        let out = &mut self.places[self.free];
        put_behind(&mut self.met, out, text, &self.led, &mut self.room);
    }

    /// Puts a set of pairs.
    pub(crate) fn put(&mut self, set: &Mat)
        requires { set.now.size ≡ self.old.out.size }
        ensures same { (m : Hedge) (h : Held) → IsBeside m h self.old self.new }
        ensures pairs { IsComposition self.old.out set.now self.new.out }
    {
        let number = self.met.number_of(set);
        let out = &mut self.places[self.free];
        put_behind(&mut self.met, out, number, set, &mut self.room);
    }

    /// Puts a set of pairs that stands in rows under a number.
    pub(crate) fn put_held(&mut self, outputs: &HeldSets, held: u32)
        requires low { held < length outputs.now.matrices }
        requires size { outputs.now.size ≡ self.old.out.size }
        requires links { AreLinked outputs.now self.old.met }
        ensures same { (m : Hedge) → IsBeside m outputs.now self.old self.new }
        ensures pairs { IsComposition self.old.out (set_at outputs.now held) self.new.out }
    {
        let number = self.met.number_of_held(outputs, held);
        let set = outputs.get(MatId(held));
        let out = &mut self.places[self.free];
        put_behind(&mut self.met, out, number, set, &mut self.room);
    }

    /// The number in rows of the set that is put together, if it is known.
    pub(crate) fn held(&self) -> Option<u32>
        ensures { IfSome result (λ k. (h : Held) → AreLinked h self.now.met
            → (k < length h.matrices) × (set_at h k ≡ self.now.out)) }
    {
        self.met.held_of(self.places[self.free].number)
    }

    /// The number in rows of the set of each state with itself, if it is known.
    pub(crate) fn held_nothing(&self) -> Option<u32>
        ensures { IfSome result (λ k. (h : Held) → AreLinked h self.now.met
            → (k < length h.matrices) × IsIdentity (set_at h k)
            × ((set_at h k).size ≡ self.now.out.size)) }
    {
        self.met.held_of(Some(self.met.nothing()))
    }

    /// Keeps the number in rows of the set that is put together.
    pub(crate) fn link(&mut self, held: u32)
        ensures { (m : Hedge) (h : Held) → held < length h.matrices
            → set_at h held ≡ self.old.out → IsBeside m h self.old self.new }
    {
        if let Some(number) = self.places[self.free].number {
            self.met.link(held, number);
        }
    }

    /// Closes the set that was opened last, and puts the pairs of an element around it.
    pub(crate) fn end_element(&mut self, output: &Hedge<'_>, symbol: Sym)
        requires symbol { symbol.0 < output.now.symbols }
        requires states { a.states output.now.auto ≡ self.old.out.size }
        requires remembers { Remembers output.now self.old.met }
        requires sets { (o : Matrix) × (us : List Matrix) × (self.old.under ≡ o ∷ us) }
        ensures size { self.new.out.size ≡ self.old.out.size }
        ensures room { self.new.room ≡ self.old.room + 1 }
        ensures text { self.new.met.text ≡ self.old.met.text }
        ensures remembers { Remembers output.now self.new.met }
        ensures links { (h : Held) → AreLinked h self.old.met → AreLinked h self.new.met }
        ensures pairs { (o : Matrix) (us : List Matrix) → self.old.under ≡ o ∷ us
            → (self.new.under ≡ us)
            × ((led : Matrix) × IsAround output.now symbol.0 self.old.out led
            × IsComposition o led self.new.out) }
    {
        let inner = &self.places[self.free];
        let number = self
            .met
            .led_around(output, symbol, inner.number, &inner.words, &mut self.led);
        self.free += 1;
        let out = &mut self.places[self.free];
        put_behind(&mut self.met, out, number, &self.led, &mut self.room);
    }
}
