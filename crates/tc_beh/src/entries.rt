// The entries of a node, worked out from what stands below it: for each ancestor state above it, and in it for each state of a
// move, where what is put out on the node and below it leads the output.
ghost use Rattle.std.specs.Prelude.{◌≡◌, ◌<◌, ◌≤◌, ◌+◌, ◌*◌, ◌⊎◌, ℕ, List, length, get_or, IfOk, Some, IfSome, OnOk, OnErr, true, false, All};
ghost use Rattle.tc_mat.specs.Matrix.{Matrix, IsMatrix, IsIdentity};
ghost use Rattle.tc_hedge.specs.declared.hedge.Hedge.{Hedge};
ghost use Rattle.tc_mat.specs.Held.{Held, IsHeld};
ghost use Rattle.tc_model.specs.Letters.{IsLetter};
ghost use Rattle.tc_rules.specs.Asked as asked;
ghost use Rattle.tc_rules.specs.Kept.{told};
ghost use Rattle.tc_rules.specs.KnownRules.{AreKnown};
ghost use Rattle.tc_rules.specs.RulesView.{move_count};
ghost use Rattle.tc_rules.specs.States.{Going};
ghost use Rattle.tc_rules.specs.Tasks.{IsMoveAt};
ghost use Rattle.tc_rows.specs.Triples.{Triple, predicates, moves as moves_of, outputs as outputs_of};
ghost use Rattle.tc_beh.specs.Above.{letter_of, node_of};
ghost use Rattle.tc_beh.specs.Entries.{IsNode, IsNewNothing, IsNewEntry, AreGrounds, AreSomeGrounds, AreCalledOn, IsUnder, IsMadeOf, IsEntryAt, IsBefore, Comes, ComesPartly};
ghost use Rattle.tc_beh.specs.Held.{Extends, GrowsAt, set_at};
ghost use Rattle.tc_beh.specs.Leads.{AreLeads};
ghost use Rattle.tc_beh.specs.Opening.{AreLinked, IsBeside};
ghost use Rattle.tc_beh.specs.Places.{kind_of, entries_by};
ghost use Rattle.tc_beh.specs.Remembered.{IsNothing};
ghost use Rattle.tc_beh.specs.Rooms.{output_at};
ghost use Rattle.tc_beh.specs.RoomsOf.{IsRoomBeside};
ghost use Rattle.tc_beh.specs.RowsOf.{IsWork};
ghost use Rattle.tc_beh.specs.Stands.{IsRulesIn};
ghost use Rattle.tc_beh.specs.Templates.{IsAlike};
ghost use Rattle.tc_beh.specs.Refusals.{MayRefuse};

use crate::above::{Letter, put_entry_above};
use crate::bodies::{At, Place, entry_place};
use crate::held_sets::HeldSets;
use crate::leads::{Lead, lead_at};
use crate::machine::Machine;
use crate::named::put_named;
use crate::open_sets::OpenSets;
use crate::outputs::{RowFault, keep};
use crate::rooms::Room;
use crate::rows::Work;
use crate::runs::{Run, read_runs};
use crate::templates::{are_alike, template_at};
use tc_mat::Mat;
use tc_rules::{Kind, KnownRules, Rules};

/// A node that isn't the root: its letter, and what stands below it.
#[derive(Clone, Copy)]
pub(crate) struct Node<'a> {
    pub(crate) letter: Letter,
    /// Whether a text stands in it, at some depth.
    pub(crate) bears: bool,
    pub(crate) entries: &'a [u32],
    pub(crate) looks: &'a [u32],
    /// Where the states of moves go on it.
    pub(crate) leads: &'a [Lead],
}

/// Where an entry of a node stands: the ancestor state above the node, that for what stands below it, an ancestor state before
/// that leads to the same, and the state of a move. Beside them stands the number of the set of each state with itself, if it is
/// known.
#[derive(Clone, Copy)]
struct Spot {
    ancestor: u32,
    above: u32,
    before: Option<u32>,
    nothing: Option<u32>,
    state: u32,
}

/// What a node of a letter is.
fn node_at(kind: Kind) -> At
    ensures { kind_of result ≡ node_of (asked.kind kind) }
{
    match kind {
        Kind::Elem(sym) => At::Elem(sym),
        Kind::Text => At::Text,
    }
}

/// The node as bodies see it, for an ancestor state below it.
fn place_of<'a, 'b>(
    machine: &'a Machine<'b>,
    outputs: &'a HeldSets,
    text: &'a Mat,
    named: &'a [Mat],
    runs: &'a [Option<Run<'b>>],
    node: Node<'a>,
    above: u32,
) -> Place<'a, 'b>
    ensures { IsMadeOf machine.now outputs.now text.now named.now runs.now node.entry above
        result }
{
    let _held = outputs.len();
    Place {
        rules: &machine.rules,
        output: &machine.output,
        alphabet: &machine.alphabet,
        outputs,
        text,
        named,
        runs,
        node: node_at(node.letter.kind),
        bears: node.bears,
        entries: node.entries,
        looks: node.looks,
        above,
    }
}

/// The ancestor state below a node of a letter.
fn state_below(rules: &Rules<'_>, letter: Letter, ancestor: u32) -> u32
    requires ancestor { ancestor < length (told rules.now).ancestors.states }
    requires letter { (x : Triple) × IsRulesIn x rules.now
        × IsLetter x.symbols (predicates x) (letter_of letter) }
    ensures low { result < length (told rules.now).ancestors.states }
    ensures under { (x : Triple) → IsRulesIn x rules.now
        → IsLetter x.symbols (predicates x) (letter_of letter)
        → IsUnder x (letter_of letter) ancestor result }
{
    match letter.kind {
        Kind::Elem(sym) => rules.anc_step(ancestor, sym, letter.marks),
        Kind::Text => ancestor,
    }
}

/// Works out the sets of the bodies of named templates on a node.
fn put_named_on<'b>(
    machine: &Machine<'b>,
    outputs: &HeldSets,
    work: &mut Work<'b>,
    node: Node<'_>,
    above: u32,
)
    requires grounds { AreSomeGrounds machine.now outputs.now work.old node }
    requires above { above < length (told machine.now.rules).ancestors.states }
    ensures work { (x : Triple) → AreGrounds x machine.now outputs.now work.old node.entry
        → IsWork x machine.now outputs.now work.new }
    ensures called { (x : Triple) → AreGrounds x machine.now outputs.now work.old node.entry
        → AreCalledOn x outputs.now node.entry above work.new.named.items }
{
    let runs = work.runs.as_slice();
    let place = place_of(machine, outputs, &work.text, &[], runs, node, above);
    put_named(
        &place,
        machine.order.as_slice(),
        work.named.as_mut_slice(),
        &mut work.sets,
    );
}

/// Reads the runs of the bodies of rules, if that isn't done yet. They are the same on each node.
fn read_runs_on<'b>(
    machine: &Machine<'b>,
    outputs: &HeldSets,
    work: &mut Work<'b>,
    node: Node<'_>,
    above: u32,
)
    requires grounds { AreSomeGrounds machine.now outputs.now work.old node }
    requires above { above < length (told machine.now.rules).ancestors.states }
    ensures work { (x : Triple) → AreGrounds x machine.now outputs.now work.old node.entry
        → IsWork x machine.now outputs.now work.new }
    ensures named { work.new.named.items ≡ work.old.named.items }
{
    if work.are_read {
        return;
    }
    work.are_read = true;
    let named = work.named.as_slice();
    let runs = work.runs.as_slice();
    let place = place_of(machine, outputs, &work.text, named, runs, node, above);
    work.runs = read_runs(&place, work.alloc, &mut work.sets);
}

/// Works out the sets of the bodies of named templates on a node, if that isn't done yet.
fn ready_named<'b>(
    machine: &Machine<'b>,
    outputs: &HeldSets,
    work: &mut Work<'b>,
    node: Node<'_>,
    above: u32,
    is_ready: &mut bool,
)
    requires grounds { AreSomeGrounds machine.now outputs.now work.old node }
    requires above { above < length (told machine.now.rules).ancestors.states }
    ensures work { (x : Triple) → AreGrounds x machine.now outputs.now work.old node.entry
        → IsWork x machine.now outputs.now work.new }
    ensures called { (x : Triple) → AreGrounds x machine.now outputs.now work.old node.entry
        → (is_ready.old ≡ true
        → AreCalledOn x outputs.now node.entry above work.old.named.items)
        → AreCalledOn x outputs.now node.entry above work.new.named.items }
{
    if *is_ready {
        return;
    }
    read_runs_on(machine, outputs, work, node, above);
    put_named_on(machine, outputs, work, node, above);
    *is_ready = true;
}

/// An ancestor state before one that leads to the same below a node.
fn before_of(rules: &Rules<'_>, letter: Letter, ancestor: u32, above: u32) -> Option<u32>
    requires ancestor { ancestor < length (told rules.now).ancestors.states }
    requires letter { (x : Triple) × IsRulesIn x rules.now
        × IsLetter x.symbols (predicates x) (letter_of letter) }
    ensures { IfSome result (λ q. (q < ancestor) × ((x : Triple) → IsRulesIn x rules.now
        → IsLetter x.symbols (predicates x) (letter_of letter)
        → IsUnder x (letter_of letter) q above)) }
{
    for before in 0..ancestor {
        if state_below(rules, letter, before) == above {
            return Some(before);
        }
    }
    None
}

/// True only where a state doesn't hit a node, or the same is to be done there above the one and above the other ancestor state.
fn are_alike_at(
    machine: &Machine<'_>,
    known: &mut KnownRules,
    node: Node<'_>,
    before: u32,
    spot: Spot,
) -> bool
    requires node { (x : Triple) × IsRulesIn x machine.now.rules
        × IsLetter x.symbols (predicates x) (letter_of node.letter) }
    requires leads { AreLeads machine.now.rules node.letter node.leads.now }
    requires before { before < length (told machine.now.rules).ancestors.states }
    requires ancestor { spot.ancestor < length (told machine.now.rules).ancestors.states }
    requires state { spot.state < move_count (told machine.now.rules) }
    ensures known { (x : Triple) → IsRulesIn x machine.now.rules
        → AreKnown x.symbols x.rules known.old → AreKnown x.symbols x.rules known.new }
    ensures alike { result ≡ true → (x : Triple) (g : Going) → IsRulesIn x machine.now.rules
        → IsLetter x.symbols (predicates x) (letter_of node.entry.letter)
        → AreKnown x.symbols x.rules known.old → IsMoveAt x.rules spot.state g
        → IsAlike x g (letter_of node.entry.letter) before spot.ancestor }
{
    let rules = &machine.rules;
    let lead = lead_at(rules, node.letter, node.leads, spot.state);
    if lead.hits {
        are_alike(rules, known, node.letter, before, spot.ancestor, spot.state)
    } else {
        true
    }
}

/// The number of an entry that is that of an ancestor state before, if it is known to be.
fn as_before(
    machine: &Machine<'_>,
    known: &mut KnownRules,
    node: Node<'_>,
    spot: Spot,
    out: &Room,
) -> Option<u32>
    requires node { (x : Triple) × IsRulesIn x machine.now.rules
        × IsLetter x.symbols (predicates x) (letter_of node.letter) }
    requires leads { AreLeads machine.now.rules node.letter node.leads.now }
    requires ancestor { spot.ancestor < length (told machine.now.rules).ancestors.states }
    requires state { spot.state < move_count (told machine.now.rules) }
    requires before { IfSome spot.before (λ q. q < spot.ancestor) }
    requires room { (spot.ancestor + 1) * move_count (told machine.now.rules) ≤ out.now.entries }
    ensures known { (x : Triple) → IsRulesIn x machine.now.rules
        → AreKnown x.symbols x.rules known.old → AreKnown x.symbols x.rules known.new }
    ensures entry { IfSome result (λ k. (q : ℕ) × (spot.before ≡ Some q)
        × (k ≡ output_at out.now.flags out.now.numbers.items
        (q * move_count (told machine.now.rules) + spot.state))
        × ((x : Triple) (g : Going) → IsRulesIn x machine.now.rules
        → IsLetter x.symbols (predicates x) (letter_of node.entry.letter)
        → AreKnown x.symbols x.rules known.old → IsMoveAt x.rules spot.state g
        → IsAlike x g (letter_of node.entry.letter) q spot.ancestor)) }
{
    let Some(before) = spot.before else {
        return None;
    };
    if !are_alike_at(machine, known, node, before, spot) {
        return None;
    }
    Some(out.output(entry_place(before, machine.rules.moves(), spot.state)))
}

/// Works out what a state of a move above puts out on a node and then below it.
fn put_entry_of<'b>(
    machine: &Machine<'b>,
    outputs: &HeldSets,
    work: &mut Work<'b>,
    node: Node<'_>,
    spot: Spot,
)
    requires grounds { AreSomeGrounds machine.now outputs.now work.old node }
    requires ancestor { spot.ancestor < length (told machine.now.rules).ancestors.states }
    requires state { spot.state < move_count (told machine.now.rules) }
    requires above { spot.above < length (told machine.now.rules).ancestors.states }
    ensures work { (x : Triple) → AreGrounds x machine.now outputs.now work.old node.entry
        → IsWork x machine.now outputs.now work.new }
    ensures named { work.new.named.items ≡ work.old.named.items }
    ensures matrix { IsMatrix work.new.sets.out }
    ensures entry { (x : Triple) → AreGrounds x machine.now outputs.now work.old node.entry
        → IsUnder x (letter_of node.entry.letter) spot.ancestor spot.above
        → AreCalledOn x outputs.now node.entry spot.above work.old.named.items
        → IsEntryAt x (entries_by outputs.now.matrices node.entry.entries.now) node.entry
        (spot.ancestor * moves_of x + spot.state) work.new.sets.out }
{
    let rules = &machine.rules;
    let template = template_at(
        rules,
        &mut work.known,
        node.letter,
        spot.ancestor,
        spot.state,
    );
    work.sets.restart();
    let named = work.named.as_slice();
    let runs = work.runs.as_slice();
    let place = place_of(machine, outputs, &work.text, named, runs, node, spot.above);
    put_entry_above(&place, node.letter, template, spot.state, &mut work.sets);
    let _out = work.sets.out();
}

/// The number of an entry of an element that its state doesn't hit: that of the state to which the element leads it, below the
/// element, and that of nothing where it goes nowhere. There is none where it hits the node, or that isn't known.
fn passed_on(machine: &Machine<'_>, outputs: &HeldSets, node: Node<'_>, spot: Spot) -> Option<u32>
    requires node { (x : Triple) × IsRulesIn x machine.now.rules × IsNode x outputs.now node }
    requires leads { AreLeads machine.now.rules node.letter node.leads.now }
    requires state { spot.state < move_count (told machine.now.rules) }
    requires above { spot.above < length (told machine.now.rules).ancestors.states }
    requires nothing { IfSome spot.nothing (λ k. IsNothing outputs.now k) }
    ensures low { IfSome result (λ k. k < length outputs.now.matrices) }
    ensures entry { IfSome result
        (λ k. (x : Triple) → IsRulesIn x machine.now.rules → outputs.now.size ≡ outputs_of x
        → IsNode x outputs.now node.entry
        → IsUnder x (letter_of node.entry.letter) spot.ancestor spot.above
        → IsEntryAt x (entries_by outputs.now.matrices node.entry.entries.now) node.entry
        (spot.ancestor * moves_of x + spot.state) (set_at outputs.now k)) }
{
    let rules = &machine.rules;
    let Kind::Elem(_) = node.letter.kind else {
        return None;
    };
    let lead = lead_at(rules, node.letter, node.leads, spot.state);
    if lead.hits {
        return None;
    }
    match lead.below {
        None => spot.nothing,
        Some(next) => {
            let _held = outputs.len();
            Some(node.entries[entry_place(spot.above, rules.moves(), next)])
        }
    }
}

/// Whether a state of a move above puts nothing out on a node and below it: it doesn't hit the node, and goes nowhere.
fn puts_nothing(machine: &Machine<'_>, node: Node<'_>, spot: Spot) -> bool
    requires node { (x : Triple) × IsRulesIn x machine.now.rules
        × IsLetter x.symbols (predicates x) (letter_of node.letter) }
    requires leads { AreLeads machine.now.rules node.letter node.leads.now }
    requires state { spot.state < move_count (told machine.now.rules) }
    ensures { result ≡ true → (x : Triple) (es : List (List (ℕ × ℕ))) (m : Matrix)
        → IsRulesIn x machine.now.rules
        → IsLetter x.symbols (predicates x) (letter_of node.entry.letter)
        → IsIdentity m → m.size ≡ outputs_of x
        → IsEntryAt x es node.entry (spot.ancestor * moves_of x + spot.state) m }
{
    let letter = node.letter;
    let lead = lead_at(&machine.rules, letter, node.leads, spot.state);
    if lead.hits {
        return false;
    }
    match letter.kind {
        Kind::Elem(_) => match lead.below {
            None => true,
            Some(_) => false,
        },
        Kind::Text => true,
    }
}

/// The number of the set that a body put together, which is held from now on, or else is held already where the sets are fixed.
fn keep_open(outputs: &mut HeldSets, is_fixed: bool, sets: &mut OpenSets) -> Result<u32, RowFault>
    requires size { sets.old.out.size ≡ outputs.old.size }
    requires links { AreLinked outputs.old sets.old.met }
    ensures same { (m : Hedge) → IsBeside m outputs.new sets.old sets.new }
    ensures held { Extends outputs.old outputs.new }
    ensures number { IfOk result (λ k. (k < length outputs.new.matrices)
        × (set_at outputs.new k ≡ sets.old.out)) }
    ensures grows { IfOk result (GrowsAt outputs.old outputs.new) }
    ensures err { OnErr result ((outputs.new ≡ outputs.old)
        × ¬ IsHeld outputs.old sets.old.out) }
    ensures refusals { MayRefuse is_fixed outputs.old outputs.new result }
{
    if let Some(number) = sets.held() {
        return Ok(number);
    }
    match keep(outputs, is_fixed, sets.out()) {
        Ok(number) => {
            sets.link(number);
            Ok(number)
        }
        Err(fault) => Err(fault),
    }
}

/// The number of the set of each state with itself, which is held from now on, or else is held already where the sets are fixed.
fn keep_nothing(
    outputs: &mut HeldSets,
    is_fixed: bool,
    sets: &mut OpenSets,
) -> Result<u32, RowFault>
    requires size { sets.old.out.size ≡ outputs.old.size }
    requires links { AreLinked outputs.old sets.old.met }
    ensures same { (m : Hedge) → IsBeside m outputs.new sets.old sets.new }
    ensures held { Extends outputs.old outputs.new }
    ensures number { IfOk result (λ k. IsNothing outputs.new k) }
    ensures grows { IfOk result (GrowsAt outputs.old outputs.new) }
    ensures err { OnErr result ((outputs.new ≡ outputs.old) × IsNewNothing outputs.old) }
    ensures refusals { MayRefuse is_fixed outputs.old outputs.new result }
{
    sets.restart();
    let _out = sets.out();
    keep_open(outputs, is_fixed, sets)
}

/// The number of an entry of a node.
fn keep_entry<'b>(
    machine: &Machine<'b>,
    outputs: &mut HeldSets,
    is_fixed: bool,
    work: &mut Work<'b>,
    node: Node<'_>,
    spot: Spot,
    out: &Room,
    is_ready: &mut bool,
) -> Result<u32, RowFault>
    requires grounds { AreSomeGrounds machine.now outputs.old work.old node }
    requires ancestor { spot.ancestor < length (told machine.now.rules).ancestors.states }
    requires state { spot.state < move_count (told machine.now.rules) }
    requires above { spot.above < length (told machine.now.rules).ancestors.states }
    requires before { IfSome spot.before (λ q. (q < spot.ancestor)
        × (output_at out.now.flags out.now.numbers.items
        (q * move_count (told machine.now.rules) + spot.state) < length outputs.old.matrices)) }
    requires nothing { IfSome spot.nothing (λ k. IsNothing outputs.old k) }
    requires room { (spot.ancestor + 1) * move_count (told machine.now.rules) ≤ out.now.entries }
    ensures work { (x : Triple) → AreGrounds x machine.now outputs.old work.old node.entry
        → IsWork x machine.now outputs.new work.new }
    ensures called { (x : Triple) → AreGrounds x machine.now outputs.old work.old node.entry
        → (is_ready.old ≡ true
        → AreCalledOn x outputs.old node.entry spot.above work.old.named.items)
        → is_ready.new ≡ true
        → AreCalledOn x outputs.old node.entry spot.above work.new.named.items }
    ensures held { Extends outputs.old outputs.new }
    ensures low { IfOk result (λ k. k < length outputs.new.matrices) }
    ensures grows { IfOk result (GrowsAt outputs.old outputs.new) }
    ensures entry { IfOk result (λ k. (x : Triple)
        → AreGrounds x machine.now outputs.old work.old node.entry
        → IsUnder x (letter_of node.entry.letter) spot.ancestor spot.above
        → (is_ready.old ≡ true
        → AreCalledOn x outputs.old node.entry spot.above work.old.named.items)
        → IsBefore x
        (entries_by outputs.old.matrices node.entry.entries.now) node.entry outputs.old spot.above
        spot.state (output_at out.now.flags out.now.numbers.items) spot.before
        → IsEntryAt x (entries_by outputs.old.matrices node.entry.entries.now) node.entry
        (spot.ancestor * moves_of x + spot.state) (set_at outputs.new k)) }
    ensures err { OnErr result ((outputs.new ≡ outputs.old) × ((x : Triple)
        → AreGrounds x machine.now outputs.old work.old node.entry
        → IsUnder x (letter_of node.entry.letter) spot.ancestor spot.above
        → (is_ready.old ≡ true
        → AreCalledOn x outputs.old node.entry spot.above work.old.named.items)
        → IsNewEntry x
        (entries_by outputs.old.matrices node.entry.entries.now) node.entry outputs.old
        (spot.ancestor * moves_of x + spot.state))) }
    ensures refusals { MayRefuse is_fixed outputs.old outputs.new result }
{
    if let Some(number) = passed_on(machine, outputs, node, spot) {
        return Ok(number);
    }
    if let Some(number) = as_before(machine, &mut work.known, node, spot, out) {
        return Ok(number);
    }
    if puts_nothing(machine, node, spot) {
        return keep_nothing(outputs, is_fixed, &mut work.sets);
    }
    ready_named(machine, outputs, work, node, spot.above, is_ready);
    put_entry_of(machine, outputs, work, node, spot);
    keep_open(outputs, is_fixed, &mut work.sets)
}

/// Leaves the entries of a node for one ancestor state above it.
fn put_row<'b>(
    machine: &Machine<'b>,
    outputs: &mut HeldSets,
    is_fixed: bool,
    work: &mut Work<'b>,
    node: Node<'_>,
    ancestor: u32,
    out: &mut Room,
) -> Result<(), RowFault>
    requires grounds { AreSomeGrounds machine.now outputs.old work.old node }
    requires ancestor { ancestor < length (told machine.now.rules).ancestors.states }
    requires room { (ancestor + 1) * move_count (told machine.now.rules) ≤ out.old.entries }
    requires before { (x : Triple) × (begun : Held)
        × AreGrounds x machine.now outputs.old work.old node
        × Comes x (entries_by outputs.old.matrices node.entries.now) node begun outputs.old
        (output_at out.old.flags out.old.numbers.items) (ancestor * moves_of x) }
    ensures work { (x : Triple) → AreGrounds x machine.now outputs.old work.old node.entry
        → IsWork x machine.now outputs.new work.new }
    ensures beside { IsRoomBeside out.old out.new }
    ensures others { (k : ℕ) → (k < 2 + out.old.flags) ⊎ (2 + out.old.flags + out.old.entries ≤ k)
        → get_or out.new.numbers.items k 0 ≡ get_or out.old.numbers.items k 0 }
    ensures held { Extends outputs.old outputs.new }
    ensures comes { OnOk result
        ((x : Triple) (es : List (List (ℕ × ℕ))) (begun : Held)
        → AreGrounds x machine.now outputs.old work.old node.entry → es
        ≡ entries_by outputs.old.matrices node.entry.entries.now
        → Comes x es node.entry begun outputs.old (output_at out.old.flags out.old.numbers.items)
        (ancestor * moves_of x)
        → Comes x es node.entry begun outputs.new (output_at out.old.flags out.new.numbers.items)
        (ancestor * moves_of x + moves_of x)) }
    ensures partly { OnErr result
        ((x : Triple) (es : List (List (ℕ × ℕ))) (begun : Held)
        → AreGrounds x machine.now outputs.old work.old node.entry → es
        ≡ entries_by outputs.old.matrices node.entry.entries.now
        → Comes x es node.entry begun outputs.old (output_at out.old.flags out.old.numbers.items)
        (ancestor * moves_of x)
        → ComesPartly x es node.entry begun outputs.new) }
    ensures refusals { MayRefuse is_fixed outputs.old outputs.new result }
{
    let above = state_below(&machine.rules, node.letter, ancestor);
    let before = before_of(&machine.rules, node.letter, ancestor, above);
    let nothing = work.sets.held_nothing();
    let moves = machine.rules.moves();
    let mut is_ready = false;
    for state in 0..moves {
        let spot = Spot {
            ancestor,
            above,
            before,
            nothing,
            state,
        };
        let number = keep_entry(
            machine,
            outputs,
            is_fixed,
            work,
            node,
            spot,
            out,
            &mut is_ready,
        )?;
        out.set_output(entry_place(ancestor, moves, state), number);
    }
    Ok(())
}

/// Leaves the numbers of the entries of a node.
pub(crate) fn put_entries<'b>(
    machine: &Machine<'b>,
    outputs: &mut HeldSets,
    is_fixed: bool,
    work: &mut Work<'b>,
    node: Node<'_>,
    out: &mut Room,
) -> Result<(), RowFault>
    requires grounds { AreSomeGrounds machine.now outputs.old work.old node }
    requires room { length (told machine.now.rules).ancestors.states * move_count
        (told machine.now.rules) ≡ out.old.entries }
    ensures work { (x : Triple) → AreGrounds x machine.now outputs.old work.old node.entry
        → IsWork x machine.now outputs.new work.new }
    ensures beside { IsRoomBeside out.old out.new }
    ensures others { (k : ℕ) → (k < 2 + out.old.flags) ⊎ (2 + out.old.flags + out.old.entries ≤ k)
        → get_or out.new.numbers.items k 0 ≡ get_or out.old.numbers.items k 0 }
    ensures held { Extends outputs.old outputs.new }
    ensures comes { OnOk result
        ((x : Triple) → AreGrounds x machine.now outputs.old work.old node.entry
        → Comes x
        (entries_by outputs.old.matrices node.entry.entries.now) node.entry outputs.old outputs.new
        (output_at out.old.flags out.new.numbers.items) out.old.entries) }
    ensures partly { OnErr result
        ((x : Triple) → AreGrounds x machine.now outputs.old work.old node.entry
        → ComesPartly x
        (entries_by outputs.old.matrices node.entry.entries.now) node.entry outputs.old
        outputs.new) }
    ensures refusals { MayRefuse is_fixed outputs.old outputs.new result }
{
    for ancestor in 0..machine.rules.ancestors() {
        put_row(machine, outputs, is_fixed, work, node, ancestor, out)?;
    }
    Ok(())
}
