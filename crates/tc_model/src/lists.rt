// What a certificate holds: rows, the outputs that stand in them, and the lists that they are made of.
ghost use Rattle.std.specs.Prelude.{◌≡◌, ◌<◌, ◌++◌, ◌∷◌, [], length, slice_get, Some, IfOk, OnOk, OnErr};

use std::alloc::Global;
use std::marker::Model;
use tc_base::NoMemory;

/// A list of numbers.
#[derive(Drop)]
pub struct Numbers {
    numbers: Vec<u32>,
}

impl Model for Numbers {
    ghost use Rattle.std.specs.Prelude.{◌≤◌, List, ℕ, length};

    ghost Value = { List ℕ };

    ghost view = { λ l. l.numbers.items };

    ghost invariant = { λ l. length l.numbers.items ≤ 4294967295 };
}

impl Numbers {
    /// No number.
    pub fn new(alloc: Global) -> Numbers
        ensures { result ≡ [] }
    {
        Numbers {
            numbers: Vec::new(alloc),
        }
    }

    /// Puts a number at the end. Where memory is refused, the list stays as it was.
    pub fn push(&mut self, number: u32) -> Result<(), NoMemory>
        requires { length self.old < 4294967295 }
        ensures ok { OnOk result (self.new ≡ self.old ++ number ∷ []) }
        ensures err { OnErr result (self.new ≡ self.old) }
    {
        self.numbers.push(number)?;
        Ok(())
    }

    /// The number of its numbers.
    pub fn len(&self) -> u32
        ensures { result ≡ length self.now }
    {
        self.numbers.len() as u32
    }

    /// The number at a place, counted from 0.
    pub fn get(&self, i: u32) -> &u32
        requires { i < length self.now }
        ensures { slice_get self.now i ≡ Some result.now }
    {
        &self.numbers[i as usize]
    }
}

/// A list of pairs of numbers.
#[derive(Drop)]
pub struct Pairs {
    pairs: Vec<(u32, u32)>,
}

impl Model for Pairs {
    ghost use Rattle.std.specs.Prelude.{◌≤◌, List, ℕ, length};

    ghost Value = { List (ℕ × ℕ) };

    ghost view = { λ l. l.pairs.items };

    ghost invariant = { λ l. length l.pairs.items ≤ 4294967295 };
}

impl Pairs {
    /// No pair.
    pub fn new(alloc: Global) -> Pairs
        ensures { result ≡ [] }
    {
        Pairs {
            pairs: Vec::new(alloc),
        }
    }

    /// Puts a pair at the end. Where memory is refused, the list stays as it was.
    pub fn push(&mut self, pair: (u32, u32)) -> Result<(), NoMemory>
        requires { length self.old < 4294967295 }
        ensures ok { OnOk result (self.new ≡ self.old ++ pair ∷ []) }
        ensures err { OnErr result (self.new ≡ self.old) }
    {
        self.pairs.push(pair)?;
        Ok(())
    }

    /// The number of its pairs.
    pub fn len(&self) -> u32
        ensures { result ≡ length self.now }
    {
        self.pairs.len() as u32
    }

    /// The pair at a place, counted from 0.
    pub fn get(&self, i: u32) -> &(u32, u32)
        requires { i < length self.now }
        ensures { slice_get self.now i ≡ Some result.now }
    {
        &self.pairs[i as usize]
    }
}

/// A list of lists of pairs.
#[derive(Drop)]
pub struct PairLists {
    lists: Vec<Pairs>,
}

impl Model for PairLists {
    ghost use Rattle.std.specs.Prelude.{◌≤◌, List, ℕ, length};

    ghost Value = { List (List (ℕ × ℕ)) };

    ghost view = { λ l. l.lists.items };

    ghost invariant = { λ l. length l.lists.items ≤ 4294967295 };
}

impl PairLists {
    /// No list of pairs.
    pub fn new(alloc: Global) -> PairLists
        ensures { result ≡ [] }
    {
        PairLists {
            lists: Vec::new(alloc),
        }
    }

    /// Puts a list of pairs at the end. Where memory is refused, the list stays as it was.
    pub fn push(&mut self, list: Pairs) -> Result<(), NoMemory>
        requires { length self.old < 4294967295 }
        ensures ok { OnOk result (self.new ≡ self.old ++ list ∷ []) }
        ensures err { OnErr result (self.new ≡ self.old) }
    {
        self.lists.push(list)?;
        Ok(())
    }

    /// The number of its lists of pairs.
    pub fn len(&self) -> u32
        ensures { result ≡ length self.now }
    {
        self.lists.len() as u32
    }

    /// The list of pairs at a place, counted from 0.
    pub fn get(&self, i: u32) -> &Pairs
        requires { i < length self.now }
        ensures { slice_get self.now i ≡ Some result.now }
    {
        &self.lists[i as usize]
    }
}

/// The row of a tree: what is told of the trees that share it.
#[derive(Drop)]
pub struct TreeLine {
    /// Whether it is a text.
    pub text: bool,
    /// Whether it is a text, or a text stands in it at some depth.
    pub bears: bool,
    /// The numbers of the input's element patterns that it matches.
    pub patterns: Numbers,
    /// The numbers of its outputs, ancestor state by ancestor state, and in each move state by move state.
    pub outs: Numbers,
    /// For each look state 0 where it has no hit, 1 where the first bears no text, 2 where it does.
    pub looks: Numbers,
}

/// Rows of trees.
#[derive(Drop)]
pub struct TreeLines {
    trees: Vec<TreeLine>,
}

impl Model for TreeLines {
    ghost use Rattle.std.specs.Prelude.{◌≤◌, List, ℕ, length};
    ghost use Rattle.tc_model.specs.declared.lists.TreeLine.{TreeLine};

    ghost Value = { List TreeLine };

    ghost view = { λ l. l.trees.items };

    ghost invariant = { λ l. length l.trees.items ≤ 4294967295 };
}

impl TreeLines {
    /// No row.
    pub fn new(alloc: Global) -> TreeLines
        ensures { result ≡ [] }
    {
        TreeLines {
            trees: Vec::new(alloc),
        }
    }

    /// Puts a row at the end. Where memory is refused, the list stays as it was.
    pub fn push(&mut self, line: TreeLine) -> Result<(), NoMemory>
        requires { length self.old < 4294967295 }
        ensures ok { OnOk result (self.new ≡ self.old ++ line ∷ []) }
        ensures err { OnErr result (self.new ≡ self.old) }
    {
        self.trees.push(line)?;
        Ok(())
    }

    /// The number of its rows.
    pub fn len(&self) -> u32
        ensures { result ≡ length self.now }
    {
        self.trees.len() as u32
    }

    /// The row at a place, counted from 0.
    pub fn get(&self, i: u32) -> &TreeLine
        requires { i < length self.now }
        ensures { slice_get self.now i ≡ Some result.now }
    {
        &self.trees[i as usize]
    }
}

/// The row of a list of trees: what is told of the lists that share it.
#[derive(Drop)]
pub struct HedgeLine {
    /// Whether its last tree is a text.
    pub ends: bool,
    /// Whether a text stands in it at some depth.
    pub bears: bool,
    /// The input states to which it leads from the start of their content.
    pub states: Numbers,
    /// The numbers of its outputs, ancestor state by ancestor state, and in each move state by move state.
    pub outs: Numbers,
    /// For each look state 0 where it has no hit, 1 where the first bears no text, 2 where it does.
    pub looks: Numbers,
}

/// Rows of lists of trees.
#[derive(Drop)]
pub struct HedgeLines {
    hedges: Vec<HedgeLine>,
}

impl Model for HedgeLines {
    ghost use Rattle.std.specs.Prelude.{◌≤◌, List, ℕ, length};
    ghost use Rattle.tc_model.specs.declared.lists.HedgeLine.{HedgeLine};

    ghost Value = { List HedgeLine };

    ghost view = { λ l. l.hedges.items };

    ghost invariant = { λ l. length l.hedges.items ≤ 4294967295 };
}

impl HedgeLines {
    /// No row.
    pub fn new(alloc: Global) -> HedgeLines
        ensures { result ≡ [] }
    {
        HedgeLines {
            hedges: Vec::new(alloc),
        }
    }

    /// Puts a row at the end. Where memory is refused, the list stays as it was.
    pub fn push(&mut self, line: HedgeLine) -> Result<(), NoMemory>
        requires { length self.old < 4294967295 }
        ensures ok { OnOk result (self.new ≡ self.old ++ line ∷ []) }
        ensures err { OnErr result (self.new ≡ self.old) }
    {
        self.hedges.push(line)?;
        Ok(())
    }

    /// The number of its rows.
    pub fn len(&self) -> u32
        ensures { result ≡ length self.now }
    {
        self.hedges.len() as u32
    }

    /// The row at a place, counted from 0.
    pub fn get(&self, i: u32) -> &HedgeLine
        requires { i < length self.now }
        ensures { slice_get self.now i ≡ Some result.now }
    {
        &self.hedges[i as usize]
    }
}

/// What a certificate holds.
#[derive(Drop)]
pub struct CertData {
    /// The outputs by their numbers from 0, each as the pairs of output states that it leads.
    pub outputs: PairLists,
    /// The rows of trees.
    pub trees: TreeLines,
    /// The rows of lists of trees.
    pub hedges: HedgeLines,
}
