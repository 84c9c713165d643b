// The rows of a certificate, and whether what comes of them is listed.
ghost use Rattle.std.specs.Prelude.{IfOk};
ghost use Rattle.tc_verify.specs.Checkers.{IsBlank, IsFit};

use crate::lists::Lists;
use crate::reading::{read_hedges, read_trees};
use std::alloc::Global;
use tc_alpha::Sym;
use tc_base::NoMemory;
use tc_beh::{HRow, Machine, Rows, TRow};
use tc_model::CertData;

/// The rows of a certificate, by their places, and room for what is made of them.
#[derive(Drop)]
pub(crate) struct Checker<'m, 'b> {
    rows: Rows<'m, 'b>,
    hedges: Vec<HRow>,
    trees: Vec<TRow>,
    hedge_lists: Lists,
    tree_lists: Lists,
    new_hedge: HRow,
    new_tree: TRow,
}

/// Rows over the sets of pairs of a certificate whose numbers fit, and rooms for what is made of rows, with no line read.
///
/// # Errors
///
/// There is no memory for them.
fn begun<'m, 'b>(
    alloc: Global,
    machine: &'m Machine<'b>,
    cert: &CertData,
) -> Result<Checker<'m, 'b>, NoMemory>
    requires { IsFit machine.now cert.now }
    ensures { IfOk result (λ c. IsBlank machine.now cert.now c) }
{
    let new_hedge = HRow::room(alloc, machine)?;
    let new_tree = TRow::room(alloc, machine)?;
    let rows = Rows::fixed(alloc, machine, &cert.outputs)?;
    Ok(Checker {
        rows,
        hedges: Vec::new(alloc),
        trees: Vec::new(alloc),
        hedge_lists: Lists::new(alloc),
        tree_lists: Lists::new(alloc),
        new_hedge,
        new_tree,
    })
}

impl<'m, 'b> Checker<'m, 'b> {
    ghost use Rattle.std.specs.Prelude.{◌≡◌, ◌<◌, length, MatchBool, OnOk};
    ghost use Rattle.tc_model.specs.Symbols.{symbol_count};
    ghost use Rattle.tc_verify.specs.Checkers.{AreBegun, AreChecked, AreRead, IsCheckerOf, StaysChecked, view_of};
    ghost use Rattle.tc_verify.specs.Listings.{EmptyHolds, EmptyBreaks, TextHolds, TextBreaks, AppendHolds, AppendBreaks, WrapHolds, WrapBreaks, RootHolds, RootBreaks};

    /// The rows of a certificate whose numbers fit.
    ///
    /// # Errors
    ///
    /// There is no memory for the rooms.
    pub(crate) fn new(
        alloc: Global,
        machine: &'m Machine<'b>,
        cert: &CertData,
    ) -> Result<Checker<'m, 'b>, NoMemory>
        requires { IsFit machine.now cert.now }
        ensures { IfOk result (λ c. IsCheckerOf machine.now cert.now c) }
    {
        let mut checker = begun(alloc, machine, cert)?;
        let read = checker.read(alloc, machine, cert);
        match read {
            Ok(()) => Ok(checker),
            Err(fault) => {
                drop(checker);
                Err(fault)
            }
        }
    }

    /// Reads the lines of a certificate, where none was read.
    ///
    /// # Errors
    ///
    /// There is no memory for the rooms.
    fn read(
        &mut self,
        alloc: Global,
        machine: &Machine<'_>,
        cert: &CertData,
    ) -> Result<(), NoMemory>
        requires fit { IsFit machine.now cert.now }
        requires blank { IsBlank machine.now cert.now self.old }
        ensures begun { AreBegun machine.now cert.now self.new.rows self.new.new_hedge
            self.new.new_tree }
        ensures read { OnOk result (AreRead machine.now cert.now self.new) }
    {
        read_hedges(
            alloc,
            machine,
            cert,
            &mut self.hedges,
            &mut self.hedge_lists,
        )?;
        read_trees(alloc, machine, cert, &mut self.trees, &mut self.tree_lists)?;
        Ok(())
    }

    /// How many rows of lists of trees there are.
    pub(crate) fn hedge_count(&self) -> u32
        requires { AreChecked self.now }
        ensures { result ≡ length (view_of self.now).hedges }
    {
        self.hedges.len() as u32
    }

    /// How many rows of trees there are.
    pub(crate) fn tree_count(&self) -> u32
        requires { AreChecked self.now }
        ensures { result ≡ length (view_of self.now).trees }
    {
        self.trees.len() as u32
    }

    /// How many symbols there are.
    pub(crate) fn symbol_count(&self) -> u32
        ensures { result ≡ symbol_count (view_of self.now).machine.alphabet }
    {
        self.rows.machine().alphabet().count()
    }

    /// Whether the row of no tree is listed.
    pub(crate) fn empty_is_listed(&mut self) -> bool
        requires checked { AreChecked self.old }
        ensures stays { StaysChecked self.old self.new }
        ensures exact { MatchBool result (EmptyHolds (view_of self.old))
            (EmptyBreaks (view_of self.old)) }
    {
        match self.rows.empty_row(&mut self.new_hedge) {
            Ok(()) => self.hedge_lists.has(self.new_hedge.numbers()),
            Err(_) => false,
        }
    }

    /// Whether the row of a text is listed, or a text can't stand in the input.
    pub(crate) fn text_is_listed(&mut self) -> bool
        requires checked { AreChecked self.old }
        ensures stays { StaysChecked self.old self.new }
        ensures exact { MatchBool result (TextHolds (view_of self.old))
            (TextBreaks (view_of self.old)) }
    {
        match self.rows.text_row(&mut self.new_tree) {
            Ok(true) => self.tree_lists.has(self.new_tree.numbers()),
            Ok(false) => true,
            Err(_) => false,
        }
    }

    /// Whether what a tree behind a list of trees makes is listed, or can't stand in the input.
    pub(crate) fn append_is_listed(&mut self, hedge: u32, tree: u32) -> bool
        requires checked { AreChecked self.old }
        requires row { (hedge < length (view_of self.old).hedges)
            × (tree < length (view_of self.old).trees) }
        ensures stays { StaysChecked self.old self.new }
        ensures exact { MatchBool result (AppendHolds (view_of self.old) hedge tree)
            (AppendBreaks (view_of self.old) hedge tree) }
    {
        let first = &self.hedges[hedge as usize];
        let next = &self.trees[tree as usize];
        match self.rows.append(first, next, &mut self.new_hedge) {
            Ok(true) => self.hedge_lists.has(self.new_hedge.numbers()),
            Ok(false) => true,
            Err(_) => false,
        }
    }

    /// Whether what an element of a symbol around a list of trees makes is listed, or can't stand in the input.
    pub(crate) fn wrap_is_listed(&mut self, hedge: u32, symbol: u32) -> bool
        requires checked { AreChecked self.old }
        requires row { (hedge < length (view_of self.old).hedges)
            × (symbol < symbol_count (view_of self.old).machine.alphabet) }
        ensures stays { StaysChecked self.old self.new }
        ensures exact { MatchBool result (WrapHolds (view_of self.old) hedge symbol)
            (WrapBreaks (view_of self.old) hedge symbol) }
    {
        let inner = &self.hedges[hedge as usize];
        match self.rows.wrap(Sym(symbol), inner, &mut self.new_tree) {
            Ok(true) => self.tree_lists.has(self.new_tree.numbers()),
            Ok(false) => true,
            Err(_) => false,
        }
    }

    /// Whether a tree passes at the root, or isn't a document of the input.
    pub(crate) fn root_is_good(&mut self, tree: u32) -> bool
        requires checked { AreChecked self.old }
        requires tree { tree < length (view_of self.old).trees }
        ensures stays { StaysChecked self.old self.new }
        ensures exact { MatchBool result (RootHolds (view_of self.old) tree)
            (RootBreaks (view_of self.old) tree) }
    {
        let root = &self.trees[tree as usize];
        !self.rows.admitted(root) || self.rows.root_ok(root)
    }
}
