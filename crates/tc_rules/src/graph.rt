// The states of a path by number, and how they lead to one another.
ghost use Rattle.std.specs.Prelude.{◌≡◌, ◌<◌, ◌≤◌, ◌^◌, ◌++◌, ◌∷◌, ◌==◌, ℕ, List, [], Bool, not, ◌||◌, false, None, Option, Some, length, map, take, drop, slice_get, get_or, option_map, filter, if◌then◌else◌, IfOk, OnOk};
ghost use Rattle.std.specs.List.{list_any};
ghost use Rattle.std.specs.Option.{IsSomeAnd};
ghost use Rattle.std.specs.Result.{IsErrOf};
ghost use Rattle.tc_model.specs.Numberings as n;
ghost use Rattle.tc_model.specs.Numbered.{numbers_below};
ghost use Rattle.tc_model.specs.PathStates as p;
ghost use Rattle.tc_model.specs.PathStates.{State, first_state};
ghost use Rattle.tc_model.specs.Views as see;
ghost use Rattle.tc_model.specs.Symbols.{Mention};
ghost use Rattle.tc_model.specs.declared.tree.Name.{Name as NameOf};
ghost use Rattle.tc_rules.specs.Classes.{marked_by, AreKindsOf, AreLettersOf, path_states, IsSourceOf};
ghost use Rattle.tc_rules.specs.Graphs.{class_of, fits_at, kind_at, next_at, IsGraphOf};
ghost use Rattle.tc_rules.specs.Once.{put_once, put_all};
ghost use Rattle.tc_rules.specs.Reached as r;
ghost use Rattle.tc_rules.specs.Reached.{counted, rounds, AreReached};
ghost use Rattle.tc_rules.specs.Rows as seen;
ghost use Rattle.tc_rules.specs.Rows.{words, all_words};
ghost use Rattle.tc_rules.specs.Words as w;
ghost use Rattle.tc_rules.specs.Views.{predicates};
ghost use Rattle.tc_rules.specs.Steps.{path_having, ends_at, some_ends};

use crate::rows::{Row, Sought, ends_of, first_row, row_having};
use crate::search::{Reached, Search};
use indexmap::IndexSet;
use std::alloc::{AllocError, AllocFailed, Global};
use tc_base::NoMemory;
use tc_model::{Name, Step, Test};

/// What the states of a path see of letters: the steps that fit a letter are those that fit its symbol, or a text, and whose
/// predicates are among its marks.
#[derive(Drop)]
pub(crate) struct Letters {
    /// The class of each symbol: the node tests of the path can't tell symbols of one class apart.
    pub(crate) classes: Vec<usize>,
    /// The steps whose node tests fit each class, and a text.
    pub(crate) kinds: IndexSet<Row>,
    pub(crate) text: Row,
    /// The steps whose predicates are in a set, for each set.
    pub(crate) marked: Vec<Row>,
    /// Where the steps of each alternative end.
    pub(crate) ends: Vec<usize>,
    /// The steps before which `//` stands.
    pub(crate) deep: Row,
    /// The steps after which one comes.
    pub(crate) inner: Row,
}

/// The numbers of the states to which a state leads by the letters of a class: the same one for all of them, or one for each set
/// of predicates.
#[derive(Drop)]
pub(crate) enum Leads {
    Alike(Option<u32>),
    BySet(Vec<Option<u32>>),
}

/// The states of a path, each by its number, and where each of them leads, for each class.
#[derive(Drop)]
pub(crate) struct Graph {
    pub(crate) states: IndexSet<Row>,
    pub(crate) letters: Letters,
    pub(crate) next: Vec<Vec<Leads>>,
    /// The alternatives of which all steps but the last may have been taken, for each state.
    pub(crate) ending: Vec<Vec<usize>>,
}

/// Why there is no graph.
#[derive(Clone, Copy)]
pub(crate) enum GraphFault {
    /// There are more states than there may be.
    TooManyStates,
    /// Memory was refused.
    NoMemory,
}

impl From<NoMemory> for GraphFault {
    ghost use Rattle.std.specs.Prelude.{◌≡◌};
    ghost use Rattle.tc_rules.specs.declared.graph.GraphFault.TheVariants.{NoMemory};

    ghost from_gives = { λ _ e. e ≡ NoMemory };

    fn from(_error: NoMemory) -> GraphFault {
        GraphFault::NoMemory
    }
}

impl From<AllocError> for GraphFault {
    ghost use Rattle.std.specs.Prelude.{◌≡◌};
    ghost use Rattle.tc_rules.specs.declared.graph.GraphFault.TheVariants.{NoMemory};

    ghost from_gives = { λ _ e. e ≡ NoMemory };

    fn from(_error: AllocError) -> GraphFault {
        GraphFault::NoMemory
    }
}

impl<T: Drop> From<AllocFailed<T>> for GraphFault {
    ghost use Rattle.std.specs.Prelude.{◌≡◌};
    ghost use Rattle.tc_rules.specs.declared.graph.GraphFault.TheVariants.{NoMemory};

    ghost from_gives = { λ _ e. e ≡ NoMemory };

    fn from(_error: AllocFailed<T>) -> GraphFault {
        GraphFault::NoMemory
    }
}

/// What the states of a path are made of.
#[derive(Drop)]
pub(crate) struct Source<'a, 'b> {
    pub(crate) alloc: Global,
    /// A name of each symbol.
    pub(crate) names: Vec<Name<'a>>,
    pub(crate) predicates: Vec<&'b Test<'b>>,
    /// How many sets of predicates there are.
    pub(crate) sets: u32,
}

impl<'a, 'b> Source<'a, 'b> {
    /// Which steps have what is asked.
    fn row(&self, path: &[&[Step<'_>]], sought: Sought<'_>) -> Result<Row, NoMemory>
        ensures { IfOk result (λ r. w.IsRow (see.alternatives path.now)
            (path_having self.now.predicates.items (see.alternatives path.now) sought.entry)
            (words r)) }
    {
        row_having(self.alloc, &self.predicates, path, &sought)
    }

    /// Which steps have predicates in a set, set by set.
    fn marked(&self, path: &[&[Step<'_>]]) -> Result<Vec<Row>, NoMemory>
        ensures { IfOk result (λ v. path_states (see.alternatives path.now) (all_words v.items)
            ≡ marked_by self.now.predicates.items (see.alternatives path.now) self.now.sets) }
    {
        let mut marked = Vec::new(self.alloc);
        for marks in 0..self.sets {
            let row = self.row(path, Sought::Marked(marks))?;
            marked.push(row)?;
        }
        Ok(marked)
    }

    /// One symbol more, by a name of it: its class is the one that passes the same node tests, or a new one.
    fn add_kind(
        &self,
        found: &mut Kinds,
        path: &[&[Step<'_>]],
        name: Name<'_>,
    ) -> Result<(), NoMemory>
        ensures { OnOk result ((names : List NameOf)
            → AreKindsOf self.now.predicates.items (see.alternatives path.now) names found.old
            → AreKindsOf self.now.predicates.items (see.alternatives path.now)
            (names ++ name.entry ∷ []) found.new) }
    {
        let kind = self.row(path, Sought::Passes(Some(name)))?;
        let class = insert_row(&mut found.kinds, kind)?;
        found.classes.push(class)?;
        Ok(())
    }

    /// The class of each symbol, and which node tests each class passes.
    fn kinds(&self, path: &[&[Step<'_>]]) -> Result<Kinds, NoMemory>
        ensures { IfOk result (λ k. AreKindsOf self.now.predicates.items
            (see.alternatives path.now) self.now.names.items k) }
    {
        let mut found = Kinds {
            classes: Vec::new(self.alloc),
            kinds: IndexSet::new(self.alloc),
        };
        for name in &self.names {
            self.add_kind(&mut found, path, *name)?;
        }
        Ok(found)
    }

    /// What the states of a path see of letters.
    fn letters(&self, path: &[&[Step<'_>]]) -> Result<Letters, NoMemory>
        ensures { IfOk result (λ l. AreLettersOf self.now.predicates.items
            (see.alternatives path.now) self.now.sets self.now.names.items l) }
    {
        let ends = ends_of(self.alloc, path)?;
        let deep = self.row(path, Sought::Deep)?;
        let inner = self.row(path, Sought::Inner)?;
        let text = self.row(path, Sought::Passes(None))?;
        let marked = self.marked(path)?;
        let Kinds { classes, kinds } = self.kinds(path)?;
        Ok(Letters {
            classes,
            kinds,
            text,
            marked,
            ends,
            deep,
            inner,
        })
    }

    /// The graph of a path.
    ///
    /// # Errors
    ///
    /// `TooManyStates` where there are more states than `most`.
    pub(crate) fn graph(
        &self,
        path: &[&[Step<'_>]],
        counts: Counts,
        most: usize,
    ) -> Result<Graph, GraphFault>
        requires sets { self.now.sets ≡ 2 ^ length self.now.predicates.items }
        requires most { most < 2 ^ 32 }
        ensures graph { IfOk result (λ g. (symbols : List Mention) → IsSourceOf symbols self.now
            → IsGraphOf symbols (predicates self.now.predicates.items) (counted counts)
            (see.alternatives path.now) (seen.graph g)) }
        ensures few { IfOk result (λ g. length (seen.graph g).states ≤ most) }
        ensures ending { IfOk result (λ g. seen.KeepsEndings g) }
        ensures many { IsErrOf result GraphFault.TooManyStates → (symbols : List Mention)
            → IsSourceOf symbols self.now → (m : ℕ)
            × (most < length
            (n.rounds (counted counts)
            (p.next_state symbols (predicates self.now.predicates.items)
            (see.alternatives path.now))
            (n.letters_of_elements symbols (predicates self.now.predicates.items)) m
            (filter (counted counts) (first_state (see.alternatives path.now) ∷ [])))) }
    {
        let letters = self.letters(path)?;
        let first = first_row(self.alloc, path)?;
        let search = Search {
            alloc: self.alloc,
            letters: &letters,
            counts,
            most,
        };
        let Reached { states, next } = search.reached(first)?;
        let ending = endings(self.alloc, &letters.ends, &states)?;
        Ok(Graph {
            states,
            letters,
            next,
            ending,
        })
    }
}

/// The class of each symbol, and which steps fit each class by their node tests.
#[derive(Drop)]
struct Kinds {
    classes: Vec<usize>,
    kinds: IndexSet<Row>,
}

/// The alternatives of which all steps but the last may have been taken, state by state.
fn endings(
    alloc: Global,
    ends: &[usize],
    states: &IndexSet<Row>,
) -> Result<Vec<Vec<usize>>, NoMemory>
    ensures { IfOk result (λ w. seen.lists w.items
        ≡ seen.endings_of (seen.states ends.now states.now.keys)) }
{
    let mut endings = Vec::new(alloc);
    for state in states.as_slice() {
        let ending = state.ending(alloc, ends)?;
        endings.push(ending)?;
    }
    Ok(endings)
}

/// Which states count: all, or those with an item.
#[derive(Clone, Copy)]
pub(crate) enum Counts {
    All,
    SomeItem,
}

impl Counts {
    /// Whether a state counts.
    pub(crate) fn includes(self, state: &Row) -> bool
        ensures { result ≡ r.kept_by self (words state.now) }
    {
        match self {
            Counts::All => true,
            Counts::SomeItem => !state.is_empty(),
        }
    }
}

/// What stands in a list for a set of predicates.
fn lead_at(leads: &[Option<u32>], marks: u32) -> Option<u32>
    ensures { (j : Option ℕ) → slice_get leads.now marks ≡ Some j → result ≡ j }
{
    match leads.get(marks as usize) {
        Some(lead) => *lead,
        None => None,
    }
}

/// Puts a row last, unless it is there, and gives its number.
pub(crate) fn insert_row(rows: &mut IndexSet<Row>, row: Row) -> Result<usize, NoMemory>
    ensures keys { OnOk result (all_words rows.new.keys
        ≡ put_once w.same_words (all_words rows.old.keys) (words row)) }
    ensures place { IfOk result (λ at. slice_get (all_words rows.new.keys) at ≡ Some (words row)) }
    ensures last { IfOk result (λ at. list_any (w.same_words (words row)) (all_words rows.old.keys)
        ≡ false → at ≡ length (all_words rows.old.keys)) }
{
    let (at, _is_new) = rows.insert_full(row)?;
    Ok(at)
}

/// The same number, which is far below 2 to the power 32.
pub(crate) fn as_u32(number: usize) -> u32
    ensures { number < 2 ^ 32 → result ≡ number }
{
    number.min(u32::MAX as usize) as u32
}

impl Graph {
    /// How many states there are.
    pub(crate) fn len(&self) -> u32
        ensures { length (seen.graph self.now).states < 2 ^ 32 → result
            ≡ length (seen.graph self.now).states }
    {
        as_u32(self.states.len())
    }

    /// Whether there are no states.
    pub(crate) fn is_empty(&self) -> bool
        ensures { result ≡ (0 == length (seen.graph self.now).states) }
    {
        self.states.len() == 0
    }

    /// The class of a symbol.
    fn class_of(&self, symbol: u32) -> usize
        ensures { result ≡ class_of (seen.graph self.now) symbol }
    {
        match self.letters.classes.get(symbol as usize) {
            Some(class) => *class,
            None => 0,
        }
    }

    /// The steps whose node tests fit an element of a symbol, or a text.
    fn kind(&self, symbol: Option<u32>) -> Option<&Row>
        ensures element { (k : ℕ) → symbol ≡ Some k
            → option_map (λ r. seen.state self.now.letters.ends.items r.now) result
            ≡ slice_get (seen.states self.now.letters.ends.items self.now.letters.kinds.keys)
            (class_of (seen.graph self.now) k) }
        ensures text { symbol ≡ None → option_map
            (λ r. seen.state self.now.letters.ends.items r.now) result
            ≡ Some (seen.state self.now.letters.ends.items self.now.letters.text) }
    {
        match symbol {
            Some(symbol) => self.letters.kinds.get_index(self.class_of(symbol)),
            None => Some(&self.letters.text),
        }
    }

    /// The steps whose predicates are in a set.
    fn marked(&self, marks: u32) -> Option<&Row>
        ensures { option_map (λ r. seen.state self.now.letters.ends.items r.now) result
            ≡ slice_get
            (seen.states self.now.letters.ends.items self.now.letters.marked.items) marks }
    {
        self.letters.marked.get(marks as usize)
    }

    /// The number of the state to which a state leads, if it counts.
    pub(crate) fn step(&self, number: u32, symbol: u32, marks: u32) -> Option<u32>
        ensures { (j : Option ℕ) → next_at (seen.graph self.now) number symbol marks ≡ Some j
            → result ≡ j }
    {
        let Some(of_state) = self.next.get(number as usize) else {
            return None;
        };
        let Some(of_class) = of_state.get(self.class_of(symbol)) else {
            return None;
        };
        match of_class {
            Leads::Alike(lead) => *lead,
            Leads::BySet(leads) => lead_at(leads, marks),
        }
    }

    /// The alternatives of which all steps but the last may have been taken at a state.
    fn ending_at(&self, number: u32) -> &[usize]
        ensures { result.now ≡ get_or (seen.ending self.now) number [] }
    {
        match self.ending.get(number as usize) {
            Some(ending) => ending.as_slice(),
            None => &[],
        }
    }

    /// Whether a node of a letter below a state is a hit, by some alternative.
    pub(crate) fn hits(&self, number: u32, symbol: Option<u32>, marks: u32) -> bool
        ensures { seen.KeepsEndings self.now → (x fit : State)
            → slice_get (seen.graph self.now).states number ≡ Some x
            → fits_at (seen.graph self.now) (record { kind = kind_at symbol; marks = marks })
            ≡ Some fit → result ≡ some_ends x fit }
    {
        let ending = self.ending_at(number);
        if ending.is_empty() {
            return false;
        }
        let Some(row) = self.states.get_index(number as usize) else {
            return false;
        };
        let Some(kind) = self.kind(symbol) else {
            return false;
        };
        let Some(marked) = self.marked(marks) else {
            return false;
        };
        row.hits_by(&self.letters.ends, ending, kind, marked)
    }

    /// Whether it is one by the alternative of this number.
    pub(crate) fn ends(
        &self,
        number: u32,
        symbol: Option<u32>,
        marks: u32,
        alternative: u32,
    ) -> bool
        ensures { (x fit : State) → slice_get (seen.graph self.now).states number ≡ Some x
            → fits_at (seen.graph self.now) (record { kind = kind_at symbol; marks = marks })
            ≡ Some fit → result ≡ ends_at x fit alternative }
    {
        let Some(row) = self.states.get_index(number as usize) else {
            return false;
        };
        let Some(kind) = self.kind(symbol) else {
            return false;
        };
        let Some(marked) = self.marked(marks) else {
            return false;
        };
        row.ends(&self.letters.ends, kind, marked, alternative as usize)
    }
}
