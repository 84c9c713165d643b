// Which rule fits a node, and what paths select, by the numbers of states.
ghost use Rattle.std.specs.Prelude.{◌≡◌, ◌<◌, ◌≤◌, ◌+◌, ◌^◌, ◌++◌, ◌∷◌, ℕ, [], length, map, get_or, List, true, Some, None, slice_get, option_map, if◌then◌else◌, IfOk, OnOk, IfErr, MatchOption, Contains};
ghost use Rattle.tc_base.specs.declared.limits.TheConstants.{MOST_PREDICATES};
ghost use Rattle.tc_model.specs.Numbered.{numbers_below};
ghost use Rattle.tc_model.specs.Chains.{top};
ghost use Rattle.tc_model.specs.Letters as l;
ghost use Rattle.tc_model.specs.Numberings as n;
ghost use Rattle.tc_model.specs.PathStates.{State, first_state, is_empty_state, path_of_rules};
ghost use Rattle.tc_model.specs.Paths as paths;
ghost use Rattle.tc_model.specs.RuleStates.{IsRuleOf, fits_below};
ghost use Rattle.tc_model.specs.Views as see;
ghost use Rattle.tc_model.specs.Sheets as s;
ghost use Rattle.tc_model.specs.Symbols.{Mention};
ghost use Rattle.tc_model.specs.Trees.{none};
ghost use Rattle.tc_model.specs.WellFormed.{ForEach, IsSheet, eaches_of};
ghost use Rattle.tc_rules.specs.Asked.{found, kind as see_kind, letter};
ghost use Rattle.tc_rules.specs.Classes.{IsSourceOf};
ghost use Rattle.tc_rules.specs.Graphs.{kind_at, IsGraphOf};
ghost use Rattle.tc_rules.specs.Picked.{better, is_root_at, outranks};
ghost use Rattle.tc_rules.specs.Rows.{AllKeepEndings, KeepsEndings, graph as see_graph, graphs as see_graphs};
ghost use Rattle.tc_rules.specs.Selects.{AreGraphs, IsAncestorCause, IsNextCause, IsSelectCause, first_from, paths_of, selects_from, starts_from};
ghost use Rattle.tc_rules.specs.Faults.{IsCause};
ghost use Rattle.tc_model.specs.StateCounts.{PassNone};
ghost use Rattle.tc_rules.specs.Gathered.{bodies as see_bodies, numbers};
ghost use Rattle.tc_rules.specs.Jobs.{AreJobs, IsJob};
ghost use Rattle.tc_rules.specs.MoveTables.{IsPathsCause};
ghost use Rattle.tc_rules.specs.Kept.{IsRulesOf, numbers_in_mode, told};
ghost use Rattle.tc_rules.specs.Usages.{usages_of};
ghost use Rattle.tc_rules.specs.Views.{mode_of, predicates, looks as see_paths, moves as see_moves, usages};
ghost use Rattle.tc_rules.specs.RulesView.{AreSymbolsWith, count_states, IsStateOf, ancestor, ancestor_below, is_hit_of, move_count, select_below, select_count};
ghost use Rattle.tc_model.specs.StateCounts.{all_count, some_item, PathUse};

use crate::gather::{
    all_eaches, all_looks, all_moves, all_predicates, all_usages, modes_of_rules, names_of,
    paths_of_rules,
};
use crate::graph::{Counts, Graph, GraphFault, Source, as_u32};
use crate::hints::Hints;
use crate::walk::{Job, Move, Usage};
use bumpalo::Bump;
use std::alloc::Global;
use tc_alpha::{Alphabet, Sym};
use tc_base::NoMemory;
use tc_base::limits::{MOST_ANCESTORS, MOST_SELECTS};
use tc_model::{Instr, Path, Pattern, Rule, Sheet, Test};

/// A set of predicates, to which the predicate of number i adds 2 to the power i.
#[derive(Clone, Copy)]
pub struct Marks(pub u32);

/// What a node test sees of a node: the symbol of an element, or that it is a text (XPath 1.0, 2.3).
#[derive(Clone, Copy)]
pub enum Kind {
    Elem(Sym),
    Text,
}

/// The rule of a node, by its number in the stylesheet, or that a built-in one is meant (XSLT 1.0, 5.8).
#[derive(Clone, Copy, Debug, PartialEq, Eq)]
pub enum Found {
    Rule(u32),
    BuiltIn,
}

/// Why there are no rules. Of the limits that are passed the first is told.
#[derive(Clone, Copy, Debug, PartialEq, Eq)]
pub enum RulesFault {
    /// There are more than 6 predicates.
    TooManyPredicates,
    /// There are more than 64 ancestor states.
    TooManyAncestorStates,
    /// There are more than 4,096 states of moves and looks together.
    TooManySelectStates,
    /// Memory was refused.
    NoMemory,
}

impl From<NoMemory> for RulesFault {
    ghost use Rattle.std.specs.Prelude.{◌≡◌};
    ghost use Rattle.tc_rules.specs.declared.rules.RulesFault.TheVariants.{NoMemory};

    ghost from_gives = { λ _ e. e ≡ NoMemory };

    fn from(_error: NoMemory) -> RulesFault {
        RulesFault::NoMemory
    }
}

/// A select state: the number of its graph, and its number there.
#[derive(Clone, Copy)]
struct Select {
    graph: usize,
    state: u32,
}

/// The rules of a stylesheet over the symbols of an alphabet. In contracts it is the stylesheet with the states of its paths by number.
/// Select states are numbered through all moves and then through all looks.
#[derive(Drop)]
pub struct Rules<'b> {
    sheet: Sheet<'b>,
    predicates: Vec<&'b Test<'b>>,
    moves: Vec<Move<'b>>,
    looks: Vec<&'b Path<'b>>,
    eaches: Vec<&'b [Instr<'b>]>,
    /// The numbers of the rules of each mode.
    pub(crate) modes: Vec<Vec<u32>>,
    above: Graph,
    graphs: Vec<Graph>,
    selects: Vec<Select>,
    /// The number of each graph's first state among the select states, and of those after the last.
    starts: Vec<u32>,
    /// Where moves and looks are looked for first.
    hints: Hints,
}

impl<'b> Rules<'b> {
    /// The rules of a stylesheet.
    ///
    /// # Errors
    ///
    /// Of the limits that are passed the first: more than 6 predicates, 64 ancestor states, or 4,096 select states.
    pub fn of(
        alloc: Global,
        sheet: &Sheet<'b>,
        alphabet: &Alphabet,
    ) -> Result<Rules<'b>, RulesFault>
        requires sheet { IsSheet (see.sheet sheet.now) }
        requires symbols { AreSymbolsWith alphabet.now (see.sheet sheet.now) }
        ensures sheet { IfOk result (λ r. (told r).sheet ≡ see.sheet sheet.now) }
        ensures rules { IfOk result (λ r. IsRulesOf alphabet.now r) }
        ensures within { OnOk result (PassNone alphabet.now (see.sheet sheet.now)) }
        ensures cause { IfErr result (λ e. IsCause alphabet.now (see.sheet sheet.now) e) }
    {
        let used = all_usages(alloc, sheet)?;
        let arena = Bump::new(alloc);
        let source = source_of(alloc, &arena, alphabet, &used)?;
        Rules::over(sheet, &used, source)
    }

    /// The rules of a stylesheet of at most 6 predicates, over its usages and what the states of its paths are made of.
    fn over(
        sheet: &Sheet<'b>,
        used: &[Usage<'b>],
        source: Source<'_, 'b>,
    ) -> Result<Rules<'b>, RulesFault>
        requires sheet { IsSheet (see.sheet sheet.now) }
        requires used { usages used.now ≡ usages_of (see.sheet sheet.now) }
        requires predicates { predicates source.predicates.items
            ≡ n.predicates_of (see.sheet sheet.now) }
        requires few { length source.predicates.items ≤ MOST_PREDICATES }
        requires sets { source.sets ≡ 2 ^ length source.predicates.items }
        ensures sheet { IfOk result (λ r. (told r).sheet ≡ see.sheet sheet.now) }
        ensures rules { (symbols : List Mention) → IsSourceOf symbols source.entry
            → AreSymbolsWith symbols (see.sheet sheet.now)
            → IfOk result (λ r. IsRulesOf symbols r) }
        ensures within { (symbols : List Mention) → IsSourceOf symbols source.entry
            → OnOk result (PassNone symbols (see.sheet sheet.now)) }
        ensures cause { (symbols : List Mention) → IsSourceOf symbols source.entry
            → IfErr result (λ e. IsCause symbols (see.sheet sheet.now) e) }
    {
        let above = ancestors_of(&source, sheet)?;
        let asked = asked_of(source.alloc, sheet, used, &source.predicates)?;
        let selected = selected_of(&source, &asked.moves, &asked.looks)?;
        Ok(Rules {
            sheet: *sheet,
            predicates: source.predicates,
            moves: asked.moves,
            looks: asked.looks,
            eaches: asked.eaches,
            modes: asked.modes,
            above,
            graphs: selected.graphs,
            selects: selected.selects,
            starts: selected.starts,
            hints: selected.hints,
        })
    }

    /// The stylesheet.
    pub fn sheet(&self) -> &Sheet<'b>
        ensures { see.sheet result.now ≡ (told self.now).sheet }
    {
        &self.sheet
    }

    /// How many ancestor states there are. State 0 is that above the document.
    pub fn ancestors(&self) -> u32
        ensures count { (symbols : List Mention) → IsRulesOf symbols self.now → result
            ≡ length (told self.now).ancestors.states }
        ensures first { (symbols : List Mention) → IsRulesOf symbols self.now
            → slice_get (told self.now).ancestors.states 0
            ≡ Some (first_state (path_of_rules (told self.now).sheet.rules)) }
    {
        self.above.len()
    }

    /// How many select states there are of moves.
    pub fn moves(&self) -> u32
        ensures { (symbols : List Mention) → IsRulesOf symbols self.now → result
            ≡ move_count (told self.now) }
    {
        self.start(self.moves.len())
    }

    /// How many select states there are of looks.
    pub fn looks(&self) -> u32
        ensures { (symbols : List Mention) → IsRulesOf symbols self.now
            → result + move_count (told self.now) ≡ select_count (told self.now) }
    {
        let all = self.start(self.graphs.len());
        all.saturating_sub(self.moves())
    }

    /// How many predicates there are.
    pub fn predicates(&self) -> u32
        ensures { (symbols : List Mention) → IsRulesOf symbols self.now → result
            ≡ length (n.predicates_of (told self.now).sheet) }
    {
        as_u32(self.predicates.len())
    }

    /// The predicate of a number.
    pub fn predicate(&self, i: u32) -> &'b Test<'b>
        requires { i < length (told self.now).predicates }
        ensures { (symbols : List Mention) → IsRulesOf symbols self.now
            → slice_get (n.predicates_of (told self.now).sheet) i ≡ Some (see.test result.now) }
    {
        self.predicates[i as usize]
    }

    /// The rule of the root in a mode (XSLT 1.0, 5.5).
    pub fn root_rule(&self, mode: u32) -> Found
        requires { mode < (told self.now).sheet.modes }
        ensures { (symbols : List Mention) → IsRulesOf symbols self.now
            → IsRuleOf (told self.now).sheet.rules mode (λ i r. paths.fits r.pattern (top none))
            (found result) }
    {
        let mut best = Found::BuiltIn;
        for number in self.rules_of(mode) {
            let fits = self.is_root(*number);
            best = self.better_if(fits, best, *number);
        }
        best
    }

    /// The rule in a mode of a node of a letter, the ancestor state of the node above it being given (XSLT 1.0, 5.5).
    pub fn rule_for(&self, mode: u32, anc: u32, kind: Kind, marks: Marks) -> Found
        requires mode { mode < (told self.now).sheet.modes }
        requires state { anc < length (told self.now).ancestors.states }
        ensures { (symbols : List Mention) → IsRulesOf symbols self.now
            → l.IsLetter symbols (n.predicates_of (told self.now).sheet) (letter kind marks)
            → IsRuleOf (told self.now).sheet.rules mode
            (fits_below symbols (n.predicates_of (told self.now).sheet)
            (ancestor (told self.now) anc) (letter kind marks)) (found result) }
    {
        let symbol = symbol_of(kind);
        let mut best = Found::BuiltIn;
        for number in self.rules_of(mode) {
            let fits = self.above.ends(anc, symbol, marks.0, *number);
            best = self.better_if(fits, best, *number);
        }
        best
    }

    /// The ancestor state one element further down.
    pub fn anc_step(&self, anc: u32, sym: Sym, marks: Marks) -> u32
        requires { anc < length (told self.now).ancestors.states }
        ensures { (symbols : List Mention) → IsRulesOf symbols self.now
            → l.IsLetter symbols (n.predicates_of (told self.now).sheet)
            (letter (Kind.Elem sym) marks) → slice_get (told self.now).ancestors.states result
            ≡ Some (ancestor_below symbols (told self.now) anc (letter (Kind.Elem sym) marks)) }
    {
        match self.above.step(anc, sym.0, marks.0) {
            Some(number) => number,
            None => 0,
        }
    }

    /// The select state one element further down, of the same path. There is none where no hit comes any more.
    pub fn sel_step(&self, sel: u32, sym: Sym, marks: Marks) -> Option<u32>
        requires { sel < select_count (told self.now) }
        ensures { (symbols : List Mention) (b : PathUse) (x : State) → IsRulesOf symbols self.now
            → l.IsLetter symbols (n.predicates_of (told self.now).sheet)
            (letter (Kind.Elem sym) marks) → IsStateOf (told self.now) sel b x
            → MatchOption result
            (is_empty_state
            (select_below symbols (told self.now) b x (letter (Kind.Elem sym) marks)) ≡ true)
            (λ k. IsStateOf (told self.now) k b
            (select_below symbols (told self.now) b x (letter (Kind.Elem sym) marks))) }
    {
        let Some(select) = self.select(sel) else {
            return None;
        };
        let Some(graph) = self.graph(select.graph) else {
            return None;
        };
        let start = self.start(select.graph);
        let lead = graph.step(select.state, sym.0, marks.0);
        match lead {
            Some(number) => Some(start.saturating_add(number)),
            None => None,
        }
    }

    /// Whether a node of a letter is a hit of a select state, which is that of the node above it.
    pub fn sel_hits(&self, sel: u32, kind: Kind, marks: Marks) -> bool
        requires { sel < select_count (told self.now) }
        ensures { (symbols : List Mention) (b : PathUse) (x : State) → IsRulesOf symbols self.now
            → l.IsLetter symbols (n.predicates_of (told self.now).sheet) (letter kind marks)
            → IsStateOf (told self.now) sel b x → result
            ≡ is_hit_of symbols (told self.now) b x (letter kind marks) }
    {
        let Some(select) = self.select(sel) else {
            return false;
        };
        let Some(graph) = self.graph(select.graph) else {
            return false;
        };
        let symbol = symbol_of(kind);
        graph.hits(select.state, symbol, marks.0)
    }

    /// The first state of a move of the stylesheet. There is none where the path has no alternative.
    pub fn move_first(&self, path: &Path<'_>, job: Job) -> Option<u32>
        requires { Contains (n.moves_of (told self.now).sheet)
            (record { path = see.path path.now; mode = mode_of (told self.now).sheet.modes job }) }
        ensures { (symbols : List Mention) → IsRulesOf symbols self.now
            → MatchOption result (see.path path.now ≡ s.no_alternative)
            (λ k. IsStateOf (told self.now) k
            (record
            { path = see.path path.now; mode = Some (mode_of (told self.now).sheet.modes job) })
            (first_state (see.path path.now))) }
    {
        let sought = Move { path, job };
        let number = self
            .hints
            .move_number(self.sheet.modes, &self.moves, &sought);
        self.first_of(number)
    }

    /// The first state of a look of the stylesheet. There is none where the path has no alternative.
    pub fn look_first(&self, path: &Path<'_>) -> Option<u32>
        requires { Contains (n.looks_of (told self.now).sheet) (see.path path.now) }
        ensures { (symbols : List Mention) → IsRulesOf symbols self.now
            → MatchOption result (see.path path.now ≡ s.no_alternative)
            (λ k. IsStateOf (told self.now) k (record { path = see.path path.now; mode = None })
            (first_state (see.path path.now))) }
    {
        let number = self.moves.len() + self.hints.look_number(&self.looks, path);
        self.first_of(number)
    }

    /// What is done on the nodes that a move selects, by a state of it.
    pub fn mode_of(&self, sel: u32) -> Job
        requires { sel < move_count (told self.now) }
        ensures mode { (symbols : List Mention) (b : PathUse) (x : State)
            → IsRulesOf symbols self.now → IsStateOf (told self.now) sel b x → b.mode
            ≡ Some (mode_of (told self.now).sheet.modes result) }
        ensures job { (symbols : List Mention) (b : PathUse) (x : State)
            → IsRulesOf symbols self.now → IsStateOf (told self.now) sel b x
            → IsJob (told self.now).sheet result }
    {
        let Some(select) = self.select(sel) else {
            return Job::Mode(0);
        };
        let Some(found) = self.move_at(select.graph) else {
            return Job::Mode(0);
        };
        found.job
    }

    /// The body of a for-each.
    pub fn each_body(&self, each: u32) -> &'b [Instr<'b>]
        requires { each < length (told self.now).eaches }
        ensures { (symbols : List Mention) (f : ForEach) → IsRulesOf symbols self.now
            → Contains (eaches_of (told self.now).sheet) f → f.number ≡ each → f.body
            ≡ see.body result.now }
    {
        self.eaches[each as usize]
    }

    /// The numbers of the rules of a mode, in order.
    fn rules_of(&self, mode: u32) -> &[u32]
        ensures { result.now ≡ get_or (map (λ w. w.items) self.now.modes.items) mode [] }
    {
        match self.modes.get(mode as usize) {
            Some(numbers) => numbers,
            None => &[],
        }
    }

    /// The rule of a number.
    fn rule(&self, number: u32) -> Option<&Rule<'b>>
        ensures { slice_get (told self.now).sheet.rules number
            ≡ option_map (λ r. see.rule r.now) result }
    {
        self.sheet.rules.get(number as usize)
    }

    /// Whether the pattern of a rule is `/`.
    fn is_root(&self, number: u32) -> bool
        ensures { result ≡ is_root_at (told self.now).sheet.rules number }
    {
        match self.rule(number) {
            Some(rule) => matches!(rule.pattern, Pattern::Root),
            None => false,
        }
    }

    /// Whether the first of two rules has the greater priority.
    fn outranks(&self, number: u32, other: u32) -> bool
        ensures { result ≡ outranks (slice_get (told self.now).sheet.rules number)
            (slice_get (told self.now).sheet.rules other) }
    {
        let Some(rule) = self.rule(number) else {
            return false;
        };
        let Some(other) = self.rule(other) else {
            return false;
        };
        rule.priority > other.priority
    }

    /// Of the best rule so far and one after it that fits, the one of greater priority; of two equal ones the later.
    fn better(&self, best: Found, number: u32) -> Found
        ensures { found result ≡ better (told self.now).sheet.rules (found best) number }
    {
        let Found::Rule(other) = best else {
            return Found::Rule(number);
        };
        if self.outranks(other, number) {
            return best;
        }
        Found::Rule(number)
    }

    /// The best rule so far, once one more is looked at.
    fn better_if(&self, fits: bool, best: Found, number: u32) -> Found
        ensures { found result
            ≡ (if fits then better (told self.now).sheet.rules
            (found best) number else found best) }
    {
        if fits {
            return self.better(best, number);
        }
        best
    }

    /// Where a select state stands.
    fn select(&self, sel: u32) -> Option<Select>
        ensures { result ≡ slice_get self.now.selects.items sel }
    {
        self.selects.get(sel as usize).copied()
    }

    /// How many select states the graphs before one of them have.
    fn start(&self, graph: usize) -> u32
        ensures { result ≡ get_or self.now.starts.items graph 0 }
    {
        match self.starts.get(graph) {
            Some(start) => *start,
            None => 0,
        }
    }

    /// The graph of a place.
    fn graph(&self, place: usize) -> Option<&Graph>
        ensures { slice_get self.now.graphs.items place ≡ option_map (λ g. g.now) result }
    {
        self.graphs.get(place)
    }

    /// The move of a place.
    fn move_at(&self, place: usize) -> Option<&Move<'b>>
        ensures { slice_get self.now.moves.items place ≡ option_map (λ m. m.now) result }
    {
        self.moves.get(place)
    }

    /// The first state of a graph, if it has states.
    fn first_of(&self, place: usize) -> Option<u32>
        ensures { result ≡ first_from (told self.now).selects self.now.starts.items place }
    {
        let Some(graph) = self.graph(place) else {
            return None;
        };
        if graph.is_empty() {
            return None;
        }
        Some(self.start(place))
    }
}

/// The symbol of a kind, or that it is a text.
fn symbol_of(kind: Kind) -> Option<u32>
    ensures { kind_at result ≡ see_kind kind }
{
    match kind {
        Kind::Elem(sym) => Some(sym.0),
        Kind::Text => None,
    }
}

/// The predicates of a stylesheet, and a name of each symbol.
fn source_of<'a, 'b>(
    alloc: Global,
    arena: &'a Bump,
    alphabet: &Alphabet,
    used: &[Usage<'b>],
) -> Result<Source<'a, 'b>, RulesFault>
    ensures source { IfOk result (λ y. IsSourceOf alphabet.now y) }
    ensures predicates { IfOk result (λ y. (x : s.Sheet) → usages used.now ≡ usages_of x
        → predicates y.predicates.items ≡ n.predicates_of x) }
    ensures few { IfOk result (λ y. length y.predicates.items ≤ MOST_PREDICATES) }
    ensures cause { IfErr result
        (λ e. (x : s.Sheet) → usages used.now ≡ usages_of x → IsCause alphabet.now x e) }
{
    let predicates = all_predicates(alloc, used)?;
    let names = names_of(alloc, arena, alphabet)?;
    let sets = sets_of(predicates.len());
    Ok(Source {
        alloc,
        names,
        predicates,
        sets,
    })
}

/// What is asked of a stylesheet but for its states: its moves, its looks, the bodies of its for-eaches, and the rules of its modes.
#[derive(Drop)]
struct Asked<'b> {
    moves: Vec<Move<'b>>,
    looks: Vec<&'b Path<'b>>,
    eaches: Vec<&'b [Instr<'b>]>,
    modes: Vec<Vec<u32>>,
}

fn asked_of<'b>(
    alloc: Global,
    sheet: &Sheet<'b>,
    used: &[Usage<'b>],
    numbered: &[&'b Test<'b>],
) -> Result<Asked<'b>, RulesFault>
    requires sheet { IsSheet (see.sheet sheet.now) }
    requires used { usages used.now ≡ usages_of (see.sheet sheet.now) }
    requires numbered { predicates numbered.now ≡ n.predicates_of (see.sheet sheet.now) }
    ensures moves { IfOk result
        (λ a. see_moves sheet.now.modes a.moves.items ≡ n.moves_of (see.sheet sheet.now)) }
    ensures jobs { IfOk result (λ a. AreJobs (see.sheet sheet.now) a.moves.items) }
    ensures looks { IfOk result (λ a. see_paths a.looks.items ≡ n.looks_of (see.sheet sheet.now)) }
    ensures eaches { IfOk result (λ a. length a.eaches.items ≡ sheet.now.eaches) }
    ensures bodies { IfOk result (λ a. (f : ForEach) → Contains (eaches_of (see.sheet sheet.now)) f
        → slice_get (see_bodies a.eaches.items) f.number ≡ Some f.body) }
    ensures modes { IfOk result (λ a. length a.modes.items ≡ sheet.now.modes) }
    ensures numbers { IfOk result
        (λ a. (m : ℕ) → m < sheet.now.modes → get_or (numbers a.modes.items) m []
        ≡ numbers_in_mode m 0 (map see.rule sheet.now.rules.now)) }
    ensures cause { IfErr result (λ e. IsPathsCause (paths_of (see.sheet sheet.now)) e) }
{
    let moves = all_moves(alloc, sheet, used, numbered)?;
    let looks = all_looks(alloc, used, numbered)?;
    let eaches = all_eaches(alloc, sheet, used)?;
    let modes = modes_of_rules(alloc, sheet)?;
    Ok(Asked {
        moves,
        looks,
        eaches,
        modes,
    })
}

/// The select states: the graph of each path, where each state stands, and where each graph begins.
#[derive(Drop)]
struct Selected {
    graphs: Vec<Graph>,
    selects: Vec<Select>,
    starts: Vec<u32>,
    hints: Hints,
}

fn selected_of(
    source: &Source<'_, '_>,
    moves: &[Move<'_>],
    looks: &[&Path<'_>],
) -> Result<Selected, RulesFault>
    requires { source.now.sets ≡ 2 ^ length source.now.predicates.items }
    ensures graphs { IfOk result
        (λ t. (symbols : List Mention) → IsSourceOf symbols source.now
        → AreGraphs symbols (predicates source.now.predicates.items)
        (map (λ m. see.path m.path.now) moves.now ++ see_paths looks.now)
        (see_graphs t.graphs.items)) }
    ensures few { IfOk result (λ t. count_states (see_graphs t.graphs.items) ≤ MOST_SELECTS) }
    ensures ending { IfOk result (λ t. AllKeepEndings t.graphs.items) }
    ensures selects { IfOk result
        (λ t. t.selects.items ≡ selects_from 0 (see_graphs t.graphs.items)) }
    ensures starts { IfOk result (λ t. t.starts.items ≡ starts_from 0 (see_graphs t.graphs.items)) }
    ensures cause { IfErr result
        (λ e. IsSelectCause source.now
        (map (λ m. see.path m.path.now) moves.now ++ see_paths looks.now) e) }
{
    let graphs = select_graphs(source, moves, looks)?;
    let selects = selects_of(source.alloc, &graphs)?;
    let starts = starts_of(source.alloc, &graphs)?;
    let hints = Hints::of(source.alloc, moves, looks)?;
    Ok(Selected {
        graphs,
        selects,
        starts,
        hints,
    })
}

/// How many sets of so many predicates there are.
fn sets_of(predicates: usize) -> u32
    requires { predicates ≤ MOST_PREDICATES }
    ensures { result ≡ 2 ^ predicates }
{
    1 << predicates
}

/// The ancestor states: those of all rules' patterns together.
fn ancestors_of(source: &Source<'_, '_>, sheet: &Sheet<'_>) -> Result<Graph, RulesFault>
    requires { source.now.sets ≡ 2 ^ length source.now.predicates.items }
    ensures graph { IfOk result
        (λ g. (symbols : List Mention) → IsSourceOf symbols source.now
        → IsGraphOf symbols (predicates source.now.predicates.items) all_count
        (path_of_rules (see.sheet sheet.now).rules) (see_graph g)) }
    ensures few { IfOk result (λ g. length (see_graph g).states ≤ MOST_ANCESTORS) }
    ensures cause { IfErr result
        (λ e. IsAncestorCause source.now (path_of_rules (see.sheet sheet.now).rules) e) }
{
    let path = paths_of_rules(source.alloc, sheet)?;
    match source.graph(&path, Counts::All, MOST_ANCESTORS as usize) {
        Ok(graph) => Ok(graph),
        Err(GraphFault::TooManyStates) => Err(RulesFault::TooManyAncestorStates),
        Err(GraphFault::NoMemory) => Err(RulesFault::NoMemory),
    }
}

/// The paths of moves and then of looks.
pub(crate) fn select_paths<'b>(
    alloc: Global,
    moves: &[Move<'b>],
    looks: &[&'b Path<'b>],
) -> Result<Vec<&'b Path<'b>>, NoMemory>
    ensures { IfOk result
        (λ v. see_paths v.items ≡ map (λ m. see.path m.path.now) moves.now ++ see_paths looks.now) }
{
    let mut paths = Vec::new(alloc);
    for found in moves {
        paths.push(found.path)?;
    }
    paths.extend_from_slice(looks)?;
    Ok(paths)
}

/// The graphs of the select states: those of the paths of moves, and then of looks.
fn select_graphs(
    source: &Source<'_, '_>,
    moves: &[Move<'_>],
    looks: &[&Path<'_>],
) -> Result<Vec<Graph>, RulesFault>
    requires { source.now.sets ≡ 2 ^ length source.now.predicates.items }
    ensures graphs { IfOk result
        (λ v. (symbols : List Mention) → IsSourceOf symbols source.now
        → AreGraphs symbols (predicates source.now.predicates.items)
        (map (λ m. see.path m.path.now) moves.now ++ see_paths looks.now) (see_graphs v.items)) }
    ensures few { IfOk result (λ v. count_states (see_graphs v.items) ≤ MOST_SELECTS) }
    ensures ending { IfOk result (λ v. AllKeepEndings v.items) }
    ensures cause { IfErr result
        (λ e. IsSelectCause source.now
        (map (λ m. see.path m.path.now) moves.now ++ see_paths looks.now) e) }
{
    let paths = select_paths(source.alloc, moves, looks)?;
    graphs_of(source, &paths)
}

/// The graphs of the select states of paths.
fn graphs_of(source: &Source<'_, '_>, paths: &[&Path<'_>]) -> Result<Vec<Graph>, RulesFault>
    requires { source.now.sets ≡ 2 ^ length source.now.predicates.items }
    ensures graphs { IfOk result
        (λ v. (symbols : List Mention) → IsSourceOf symbols source.now
        → AreGraphs symbols (predicates source.now.predicates.items) (see_paths paths.now)
        (see_graphs v.items)) }
    ensures few { IfOk result (λ v. count_states (see_graphs v.items) ≤ MOST_SELECTS) }
    ensures ending { IfOk result (λ v. AllKeepEndings v.items) }
    ensures cause { IfErr result (λ e. IsSelectCause source.now (see_paths paths.now) e) }
{
    let mut graphs = Vec::new(source.alloc);
    let mut left = MOST_SELECTS as usize;
    for path in paths {
        let graph = next_graph(source, path, left)?;
        left -= graph.len() as usize;
        keep_graph(&mut graphs, graph)?;
    }
    Ok(graphs)
}

fn keep_graph(graphs: &mut Vec<Graph>, graph: Graph) -> Result<(), NoMemory>
    ensures items { OnOk result (graphs.new.items ≡ graphs.old.items ++ graph ∷ []) }
    ensures graphs { OnOk result
        (see_graphs graphs.new.items ≡ see_graphs graphs.old.items ++ see_graph graph ∷ []) }
{
    graphs.push(graph)?;
    Ok(())
}

/// The graph of one more path, of at most so many states.
fn next_graph(source: &Source<'_, '_>, path: &Path<'_>, left: usize) -> Result<Graph, RulesFault>
    requires sets { source.now.sets ≡ 2 ^ length source.now.predicates.items }
    requires few { left ≤ MOST_SELECTS }
    ensures graph { IfOk result
        (λ g. (symbols : List Mention) → IsSourceOf symbols source.now
        → IsGraphOf symbols (predicates source.now.predicates.items) some_item (see.path path.now)
        (see_graph g)) }
    ensures few { IfOk result (λ g. length (see_graph g).states ≤ left) }
    ensures ending { IfOk result (λ g. KeepsEndings g) }
    ensures cause { IfErr result (λ e. IsNextCause source.now (see.path path.now) left e) }
{
    match source.graph(path.alts, Counts::SomeItem, left) {
        Ok(graph) => Ok(graph),
        Err(GraphFault::TooManyStates) => Err(RulesFault::TooManySelectStates),
        Err(GraphFault::NoMemory) => Err(RulesFault::NoMemory),
    }
}

/// Adds so many states of a graph.
fn add_selects(selects: &mut Vec<Select>, graph: usize, count: u32) -> Result<(), NoMemory>
    ensures { OnOk result (selects.new.items ≡ selects.old.items
        ++ map (λ j. record { graph = graph; state = j }) (numbers_below count)) }
{
    for state in 0..count {
        selects.push(Select { graph, state })?;
    }
    Ok(())
}

/// Where each select state stands.
fn selects_of(alloc: Global, graphs: &[Graph]) -> Result<Vec<Select>, NoMemory>
    requires { count_states (see_graphs graphs.now) ≤ MOST_SELECTS }
    ensures { IfOk result (λ v. v.items ≡ selects_from 0 (see_graphs graphs.now)) }
{
    let mut selects = Vec::new(alloc);
    for (i, graph) in graphs.iter().enumerate() {
        add_selects(&mut selects, i, graph.len())?;
    }
    Ok(selects)
}

/// How many select states stand before those of each graph, and in all.
fn starts_of(alloc: Global, graphs: &[Graph]) -> Result<Vec<u32>, NoMemory>
    requires { count_states (see_graphs graphs.now) ≤ MOST_SELECTS }
    ensures { IfOk result (λ v. v.items ≡ starts_from 0 (see_graphs graphs.now)) }
{
    let mut starts = Vec::new(alloc);
    let mut before = 0;
    for graph in graphs {
        starts.push(before)?;
        before += graph.len();
    }
    starts.push(before)?;
    Ok(starts)
}
