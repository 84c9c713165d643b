// Two schemas together: rows that are made of rows.
ghost use Rattle.std.specs.Prelude.{◌≡◌, length};
ghost use Rattle.tc_incl.specs.Alike.{AreKinds};

use crate::kinds::kinds_of;
use crate::rows::Row;
use crate::sides::Side;
use crate::steps::BothSteps;
use std::alloc::Global;
use tc_alpha::Alphabet;
use tc_auto::Auto;
use tc_base::NoMemory;
use tc_sets::Set;

/// Two schemas, and how many symbols there are.
#[derive(Drop)]
pub struct Both<'c, 'b> {
    pub(crate) alloc: Global,
    pub(crate) symbols: u32,
    pub(crate) first: Side<'c, 'b>,
    pub(crate) second: Side<'c, 'b>,
    /// For each symbol its kind.
    kinds: Vec<u32>,
    ghost first_counted: { length first.allowed.items ≡ symbols },
    ghost second_counted: { length second.allowed.items ≡ symbols },
    ghost kinds_counted: { length kinds.items ≡ symbols },
    ghost are_kinds: { AreKinds first.allowed.items second.allowed.items kinds.items },
}

impl<'c, 'b> Both<'c, 'b> {
    ghost use Rattle.std.specs.Prelude.{◌≡◌, ◌<◌, ℕ, IfOk, MatchBool, MatchOption, Some, slice_get};
    ghost use Rattle.tc_auto.specs.Stands as a;
    ghost use Rattle.tc_incl.specs.Held.{AreTold, Fails, IsAppended, IsHedgeFit, IsNone, IsText, IsTreeFit, IsWrapped, NoAppended, NoText, NoWrapped, Passes};
    ghost use Rattle.tc_incl.specs.Schemas.{Schemas};
    ghost use Rattle.tc_incl.specs.Stepped.{AreBothSteps};
    ghost use Rattle.tc_incl.specs.declared.rows.Row.{Row};
    ghost use Rattle.tc_model.specs.States as s;

    /// Two schemas by the symbols of an alphabet.
    pub(crate) fn of(
        alloc: Global,
        first: &'c Auto<'b>,
        second: &'c Auto<'b>,
        alphabet: &Alphabet,
    ) -> Result<Both<'c, 'b>, NoMemory>
        ensures told { IfOk result (λ r. (x : Schemas) → a.Stands s.input x.first first.now
            → a.Stands s.input x.second second.now → alphabet.now ≡ x.symbols → AreTold r x) }
    {
        let symbols = alphabet.count();
        let first = Side::of(alloc, first, alphabet)?;
        let second = Side::of(alloc, second, alphabet)?;
        let kinds = kinds_of(alloc, &first, &second, symbols)?;
        Ok(Both {
            alloc,
            symbols,
            first,
            second,
            kinds,
        })
    }

    /// The kind of a symbol: an element of one of the same kind has the same row.
    pub(crate) fn kind(&self, symbol: u32) -> u32
        requires { symbol < self.now.symbols }
        ensures { slice_get self.now.kinds.items symbol ≡ Some result }
    {
        self.kinds[symbol as usize]
    }

    /// The row of no tree.
    pub(crate) fn none(&self) -> Result<Row, NoMemory>
        ensures fit { IfOk result (λ u. IsHedgeFit self.now u) }
        ensures made { IfOk result (λ u. IsNone self.now u) }
    {
        let first = self.first.begun()?;
        let second = self.second.begun()?;
        Ok(Row {
            text: false,
            first,
            second,
        })
    }

    /// The row of a text, where texts are live.
    pub(crate) fn text(&self) -> Result<Option<Row>, NoMemory>
        ensures made { IfOk result
            (λ o. MatchOption o (NoText self.now) (λ u. IsTreeFit self.now u × IsText self.now u)) }
    {
        if !self.first.has_text() {
            return Ok(None);
        }
        let first = self.first.no_patterns()?;
        let second = self.second.no_patterns()?;
        Ok(Some(Row {
            text: true,
            first,
            second,
        }))
    }

    /// Where the states of the row of a list of trees lead.
    pub(crate) fn steps(&self, hedge: &Row) -> Result<BothSteps, NoMemory>
        requires { IsHedgeFit self.now hedge.now }
        ensures { IfOk result (λ r. AreBothSteps self.now hedge.now r) }
    {
        let first = self.first.steps(&hedge.first)?;
        let second = self.second.steps(&hedge.second)?;
        Ok(BothSteps { first, second })
    }

    /// The row of trees with one more behind them, where they are live.
    pub(crate) fn appended(
        &self,
        hedge: &Row,
        steps: &BothSteps,
        tree: &Row,
    ) -> Result<Option<Row>, NoMemory>
        requires hedge { IsHedgeFit self.now hedge.now }
        requires steps { AreBothSteps self.now hedge.now steps.now }
        requires tree { IsTreeFit self.now tree.now }
        ensures made { IfOk result
            (λ o. MatchOption o (NoAppended self.now hedge.now tree.now)
            (λ u. IsHedgeFit self.now u × IsAppended self.now hedge.now tree.now u)) }
    {
        if hedge.text && tree.text {
            return Ok(None);
        }
        let first = self.first.after(&steps.first, tree.text, &tree.first)?;
        if first.is_empty() {
            return Ok(None);
        }
        let second = self.second.after(&steps.second, tree.text, &tree.second)?;
        Ok(Some(Row {
            text: tree.text,
            first,
            second,
        }))
    }

    /// The row of an element of a symbol around trees, by where their states lead, where it is live.
    pub(crate) fn wrapped(&self, symbol: u32, steps: &BothSteps) -> Result<Option<Row>, NoMemory>
        requires symbol { symbol < self.now.symbols }
        requires steps { (h : Row) × AreBothSteps self.now h steps.now }
        ensures made { IfOk result
            (λ o. (h : Row) → IsHedgeFit self.now h → AreBothSteps self.now h steps.now
            → MatchOption o (NoWrapped self.now symbol h)
            (λ u. IsTreeFit self.now u × IsWrapped self.now symbol h u)) }
    {
        let first = self.first.matching_patterns(symbol, &steps.first)?;
        if first.is_empty() {
            return Ok(None);
        }
        let second = self.second.matching_patterns(symbol, &steps.second)?;
        Ok(Some(Row {
            text: false,
            first,
            second,
        }))
    }

    /// Whether the row of a tree is that of a document that is valid for the first schema and not for the second.
    pub(crate) fn is_failing(&self, tree: &Row) -> bool
        requires { IsTreeFit self.now tree.now }
        ensures { MatchBool result (Fails self.now tree.now) (Passes self.now tree.now) }
    {
        self.first.starts(&tree.first) && !self.second.starts(&tree.second)
    }
}
