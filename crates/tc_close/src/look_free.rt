// Symbols whose elements read no look of what stands in them, so that lists of trees that differ in looks alone are the same to
// them.
ghost use Rattle.std.specs.Prelude.{◌≡◌, ◌<◌, ℕ, List, map, length, Some, slice_get, IfOk, IfSome, true};
ghost use Rattle.tc_model.specs.Letters.{IsLetter, of_symbol};
ghost use Rattle.tc_model.specs.Sheets.{Body};
ghost use Rattle.tc_model.specs.Symbols.{symbol_count};
ghost use Rattle.tc_model.specs.Views as see;
ghost use Rattle.tc_rules.specs.Asked.{found as found_of};
ghost use Rattle.tc_rules.specs.Kept.{told};
ghost use Rattle.tc_rules.specs.States.{Looking, built_in_at};
ghost use Rattle.tc_rules.specs.Tasks.{IsLookAt};
ghost use Rattle.tc_rows.specs.Triples.{Triple, sheet, predicates, ancestors};
ghost use Rattle.tc_beh.specs.Stands.{IsRulesIn, AreRules};
ghost use Rattle.tc_close.specs.LookFree.{IsFreeBody, AreFreeNamed, AreFreeEaches, AreFreeBodies, AreFreeSymbols, IsFreeSymbol, IsFreeMode, IsFreeAbove, IsDoneLook, plain_letter};

use std::alloc::Global;
use tc_alpha::Sym;
use tc_base::NoMemory;
use tc_model::Instr;
use tc_rules::{Found, Kind, Marks, Rules};

/// No predicate.
const NONE: Marks = Marks(0);

/// Bodies of a stylesheet that read no look: none of their instructions is a value or a choice.
#[derive(Drop)]
pub(crate) struct FreeBodies {
    /// All bodies of named templates are such.
    calls: bool,
    /// All bodies of for-eaches are such.
    eaches: bool,
    /// Which bodies of rules are such.
    rules: Vec<bool>,
}

/// True only of an instruction that reads no look on the node on which it is instantiated.
#[cycle(free)]
fn is_free(instruction: &Instr<'_>, calls: bool) -> bool
    ensures { result ≡ true → (rest : Body) → IsFreeBody calls rest
        → IsFreeBody calls (see.instruction instruction.now rest) }
{
    match instruction {
        Instr::Text(_) | Instr::ValueOfSelf | Instr::Apply(_, _) | Instr::ForEach(_, _, _) => true,
        Instr::Elem(_, inner) => are_free(inner, calls),
        Instr::Copy(inner) => are_free(inner, calls),
        Instr::Call(_) => calls,
        Instr::ValueOf(_) | Instr::Choose(_, _) => false,
    }
}

/// True only where all instructions of a body are such.
#[cycle(free)]
fn are_free(body: &[Instr<'_>], calls: bool) -> bool
    ensures { result ≡ true → IsFreeBody calls (see.body body.now) }
{
    for instruction in body {
        if !is_free(instruction, calls) {
            return false;
        }
    }
    true
}

/// True only where all bodies of named templates read no look.
fn are_named_free(named: &[&[Instr<'_>]]) -> bool
    ensures { result ≡ true → AreFreeNamed (map (λ b. see.body b.now) named.now) }
{
    for body in named {
        if !are_free(body, true) {
            return false;
        }
    }
    true
}

/// True only where all bodies of for-eaches read no look.
fn are_eaches_free(rules: &Rules<'_>, calls: bool) -> bool
    requires { AreRules rules.now }
    ensures { result ≡ true → (x : Triple) → IsRulesIn x rules.now → AreFreeEaches calls (sheet x) }
{
    for each in 0..rules.sheet().eaches {
        if !are_free(rules.each_body(each), calls) {
            return false;
        }
    }
    true
}

/// True only where no state of a look finds anything below an element of a symbol, where there is no predicate.
fn are_looks_done(rules: &Rules<'_>, symbol: u32) -> bool
    requires { AreRules rules.now }
    ensures { result ≡ true → (x : Triple) (k : ℕ) (s : Looking) (vs : List ℕ)
        → IsRulesIn x rules.now → IsLetter x.symbols (predicates x) (plain_letter symbol)
        → IsLookAt x.rules k s → IsDoneLook x symbol vs s }
{
    let first = rules.moves();
    for place in 0..rules.looks() {
        if rules.sel_step(first + place, Sym(symbol), NONE).is_some() {
            return false;
        }
    }
    true
}

impl FreeBodies {
    /// Those of the stylesheet of rules.
    ///
    /// # Errors
    ///
    /// There is no memory.
    fn of(alloc: Global, rules: &Rules<'_>) -> Result<FreeBodies, NoMemory>
        requires { AreRules rules.now }
        ensures { IfOk result
            (λ f. (x : Triple) → IsRulesIn x rules.now → AreFreeBodies (sheet x) f) }
    {
        let calls = are_named_free(rules.sheet().named);
        let eaches = are_eaches_free(rules, calls);
        let mut free = Vec::new(alloc);
        for rule in rules.sheet().rules {
            free.push(are_free(rule.body, calls))?;
        }
        Ok(FreeBodies {
            calls,
            eaches,
            rules: free,
        })
    }

    /// True only where the rule that was found reads no look.
    fn is_found_free(&self, found: Found) -> bool
        ensures { result ≡ true → IfSome (found_of found)
            (λ i. slice_get self.now.rules.items i ≡ Some true) }
    {
        match found {
            Found::BuiltIn => true,
            Found::Rule(number) => match self.rules.get(number as usize) {
                Some(is_free) => *is_free,
                None => false,
            },
        }
    }

    /// True only where no rule of a mode that is that of an element of a symbol reads a look, where there is no predicate.
    fn is_mode_free(&self, rules: &Rules<'_>, mode: u32, symbol: u32) -> bool
        requires rules { AreRules rules.now }
        requires mode { mode < (told rules.now).sheet.modes }
        ensures { result ≡ true → (x : Triple) → IsRulesIn x rules.now
            → AreFreeBodies (sheet x) self.now
            → IsLetter x.symbols (predicates x) (plain_letter symbol) → IsFreeMode x symbol mode }
    {
        for ancestor in 0..rules.ancestors() {
            let found = rules.rule_for(mode, ancestor, Kind::Elem(Sym(symbol)), NONE);
            if !self.is_found_free(found) {
                return false;
            }
        }
        true
    }

    /// True only where no rule that is that of an element of a symbol reads a look, where there is no predicate.
    fn are_modes_free(&self, rules: &Rules<'_>, symbol: u32) -> bool
        requires rules { AreRules rules.now }
        ensures { result ≡ true → (x : Triple) (mode : ℕ) → IsRulesIn x rules.now
            → AreFreeBodies (sheet x) self.now
            → IsLetter x.symbols (predicates x) (plain_letter symbol) → mode < (sheet x).modes
            → IsFreeMode x symbol mode }
    {
        for mode in 0..rules.sheet().modes {
            if !self.is_mode_free(rules, mode, symbol) {
                return false;
            }
        }
        true
    }

    /// True only of a symbol whose elements read no look.
    fn is_symbol_free(&self, rules: &Rules<'_>, symbol: u32) -> bool
        requires { AreRules rules.now }
        ensures { result ≡ true → (x : Triple) → IsRulesIn x rules.now
            → AreFreeBodies (sheet x) self.now → symbol < symbol_count x.symbols
            → IsFreeSymbol x symbol }
    {
        if rules.predicates() > 0 || !self.eaches {
            return false;
        }
        if !self.are_modes_free(rules, symbol) {
            return false;
        }
        are_looks_done(rules, symbol)
    }
}

/// Which symbols' elements read no look, as far as that was asked.
#[derive(Drop)]
pub(crate) struct FreeSymbols {
    bodies: FreeBodies,
    known: Vec<Option<bool>>,
}

impl FreeSymbols {
    /// None is known.
    ///
    /// # Errors
    ///
    /// There is no memory.
    pub(crate) fn of(
        alloc: Global,
        rules: &Rules<'_>,
        symbols: u32,
    ) -> Result<FreeSymbols, NoMemory>
        requires { AreRules rules.now }
        ensures { IfOk result
            (λ f. (x : Triple) → IsRulesIn x rules.now → AreFreeSymbols x f) }
    {
        let bodies = FreeBodies::of(alloc, rules)?;
        let known = vec![in alloc; None; symbols as usize]?;
        Ok(FreeSymbols { bodies, known })
    }

    /// True only of a symbol of which it is known that its elements read no look.
    pub(crate) fn is_free(&self, symbol: u32) -> bool
        ensures { result ≡ true → (x : Triple) → AreFreeSymbols x self.now
            → IsFreeSymbol x symbol }
    {
        match self.known.get(symbol as usize) {
            Some(Some(is_free)) => *is_free,
            _ => false,
        }
    }

    /// Finds out whether the elements of a symbol read no look, if that isn't known.
    pub(crate) fn learn(&mut self, rules: &Rules<'_>, symbol: u32)
        requires rules { AreRules rules.now }
        requires symbol { (x : Triple) → IsRulesIn x rules.now → symbol < symbol_count x.symbols }
        ensures { (x : Triple) → IsRulesIn x rules.now → AreFreeSymbols x self.old
            → AreFreeSymbols x self.new }
    {
        if let Some(None) = self.known.get(symbol as usize) {
            self.known[symbol as usize] = Some(self.bodies.is_symbol_free(rules, symbol));
        }
    }
}
