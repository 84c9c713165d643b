// Which rules, named bodies and branches of a stylesheet no valid document instantiates.
ghost use Rattle.std.specs.Prelude.{◌≡◌, ◌<◌, ◌≤◌, ◌⊎◌, ◌++◌, ◌∷◌, [], All, Contains, Err, IfOk, IfErr, List, OnOk, length, map};
ghost use Rattle.tc_base.specs.Reading.{longest_text};
ghost use Rattle.tc_beh.specs.Machines.{IsMachine, IsMachineOf};
ghost use Rattle.tc_dead.specs.Instantiated.{IsDead};
ghost use Rattle.tc_dead.specs.Marked.{marked_at, plain_schema};
ghost use Rattle.tc_dead.specs.Spots as s;
ghost use Rattle.tc_dead.specs.Spots.{spots_of};
ghost use Rattle.tc_dead.specs.Views.{seen};
ghost use Rattle.tc_decide.specs.Checking.{IsWithinTripleLimits};
ghost use Rattle.tc_decide.specs.DeadSpots.{IfUsed, IsWithinSpotLimits, OfEach, OnDead, TellsRefusalOfTwo, TellsSpots, Uses};
ghost use Rattle.tc_decide.specs.DeadSpotsSeen.{IsFoundOfSpots, IsFoundOfTwo, IsMarking, IsMarkingOf, IsTelling, IsToldByRows, IsToldOf, StopsSpot, StopsSpots, StopsTwo, stage_of};
ghost use Rattle.tc_decide.specs.MachinesSeen.{IsMachineFor, IsReadOf};
ghost use Rattle.tc_decide.specs.Texts.{IsShort, Spells};
ghost use Rattle.tc_model.specs.Grammars.{Grammar};
ghost use Rattle.tc_model.specs.Sheets as model;
ghost use Rattle.tc_model.specs.Views as see;
ghost use Rattle.tc_read.specs.Sheets.{IsSheetOf};
ghost use Rattle.tc_rows.specs.Triples as t;

use crate::checking::rows_failure;
use crate::copies::copied;
use crate::failure::{Failure, Kind, Which};
use crate::limits::MOST_ROWS;
use crate::machine::machine_of;
use crate::schemas::SchemaText;
use crate::texts::{schema_of, sheet_of};
use bumpalo::Bump;
use bumpalo::collections::into_bump_slice;
use std::alloc::Global;
use tc_base::{Limit, NoMemory};
use tc_beh::Machine;
use tc_close::Decision;
use tc_dead::{Spot, marked, places, plain};
use tc_model::{Node, Sheet};
use tc_read::Schema;

/// What is told of a rule, a named body or a branch.
#[derive(Clone, Copy)]
pub enum Told<'b> {
    /// No valid document instantiates it.
    Dead,
    /// This valid document does, with the fewest nodes of all that do.
    Used(Node<'b>),
    /// Some valid documents do, and each has more than 2,000 nodes.
    UsedTooLarge,
}

/// A rule, a named body or a branch, and what is told of it.
#[derive(Clone, Copy)]
pub struct SpotTold<'b> {
    /// Which one it is.
    pub spot: Spot,
    /// What is told of it.
    pub told: Told<'b>,
}

/// A schema, the plain one, and a stylesheet whose spots are asked for.
#[derive(Clone, Copy)]
struct Marking<'b> {
    input: Schema<'b>,
    plain: Schema<'b>,
    sheet: Sheet<'b>,
}

/// Which rules, named bodies and branches of a stylesheet no document instantiates that is valid for the schema, and for
/// each other a least document that does, unless each that does is too large to be shown, in the order of the stylesheet:
/// rules, named bodies, branches. A text isn't longer than a file may be. What is told lies in the arena.
///
/// # Errors
///
/// The first text that is refused; or else a limit that is passed for one of them; or want of memory, at any time.
pub fn dead<'b>(
    arena: &'b Bump,
    alloc: Global,
    input: SchemaText<'_>,
    sheet: &[u8],
) -> Result<&'b [SpotTold<'b>], Failure>
    requires input { IsShort input }
    requires sheet { length sheet.now ≤ longest_text }

    // Dead: no document that is valid for the schema instantiates it.
    ensures unused { (i : Grammar) (s : model.Sheet) → Spells input.entry i → IsSheetOf sheet.now s
        → IfOk result (λ told. All (λ t. OnDead t.told (IsDead i s (seen t.spot))) told.now) }

    // Used: the document that is shown is valid for the schema and instantiates it; and some such document does where all are told to be too large.
    ensures instantiated { (i : Grammar) (s : model.Sheet) → Spells input.entry i
        → IsSheetOf sheet.now s
        → IfOk result (λ told. All (λ t. IfUsed t.told (Uses i s (seen t.spot))) told.now) }

    // Unless memory is refused, each is told of exactly, in order, exactly where none passes a limit; and else a limit that is passed.
    ensures spots_told { (i : Grammar) (s : model.Sheet) → Spells input.entry i
        → IsSheetOf sheet.now s
        → (result ≡ Err Failure.NoMemory) ⊎ TellsSpots i s result }

    // The text that is refused, why and where; where none is, they are texts of a schema and a stylesheet.
    ensures refused { TellsRefusalOfTwo input.entry sheet.now result }
{
    dead_of_texts(arena, alloc, input, sheet)
}

/// Tells of the spots by the schema and the stylesheet of the texts, where there are such.
fn dead_of_texts<'b>(
    arena: &'b Bump,
    alloc: Global,
    input: SchemaText<'_>,
    sheet: &[u8],
) -> Result<&'b [SpotTold<'b>], Failure>
    requires input { IsShort input }
    requires sheet { length sheet.now ≤ longest_text }
    ensures { IsFoundOfTwo input.entry sheet.now result }
{
    let marking = marking_of(arena, input, sheet)?;
    dead_of(arena, alloc, &marking)
}

/// The schema and the stylesheet of texts.
fn marking_of<'b>(
    arena: &'b Bump,
    input: SchemaText<'_>,
    sheet: &[u8],
) -> Result<Marking<'b>, Failure>
    requires input { IsShort input }
    requires sheet { length sheet.now ≤ longest_text }
    ensures ok { IfOk result (IsMarkingOf input.entry sheet.now) }
    ensures no { IfErr result (StopsTwo input.entry sheet.now) }
{
    let schema = schema_of(arena, Which::Input, input)?;
    let stylesheet = sheet_of(arena, sheet)?;
    let plain = plain_of(arena)?;
    Ok(Marking {
        input: schema,
        plain,
        sheet: stylesheet,
    })
}

/// The schema of what is put out without a mark.
fn plain_of<'b>(arena: &'b Bump) -> Result<Schema<'b>, NoMemory>
    ensures { IfOk result (IsReadOf plain_schema) }
{
    let grammar = plain(arena)?;
    Ok(Schema::Small(grammar))
}

/// Tells of all spots of a stylesheet.
fn dead_of<'b>(
    arena: &'b Bump,
    alloc: Global,
    marking: &Marking<'b>,
) -> Result<&'b [SpotTold<'b>], Failure>
    requires marking { IsMarking marking.now }
    ensures { (i : Grammar) → IsReadOf i marking.now.input
        → IsFoundOfSpots i (see.sheet marking.now.sheet) result }
{
    let spots = places(arena, &marking.sheet)?;
    told_of_all(arena, alloc, marking, spots)
}

/// Tells of all these spots, one after the other.
fn told_of_all<'b>(
    arena: &'b Bump,
    alloc: Global,
    marking: &Marking<'b>,
    spots: &[Spot],
) -> Result<&'b [SpotTold<'b>], Failure>
    requires marking { IsMarking marking.now }
    requires spots { map seen spots.now ≡ spots_of (see.sheet marking.now.sheet) }
    ensures { (i : Grammar) → IsReadOf i marking.now.input
        → IsFoundOfSpots i (see.sheet marking.now.sheet) result }
{
    let mut found = Vec::new(arena);
    for index in 0..spots.len() {
        let spot = spots[index];
        match told_of(arena, alloc, marking, spot) {
            Ok(told) => {
                let Ok(()) = found.push(SpotTold { spot, told }) else {
                    return Err(Failure::NoMemory);
                };
            }
            Err(failure) => {
                return Err(first_of(alloc, marking, &spots[index + 1..], failure));
            }
        }
    }
    Ok(into_bump_slice(found))
}

/// What is told where a spot passes a limit: that, unless one of the spots after it passes one that is tried before. All
/// spots pass the same of those that are tried before calls, so that calls are told at once.
fn first_of(alloc: Global, marking: &Marking<'_>, later: &[Spot], failure: Failure) -> Failure
    requires marking { IsMarking marking.now }
    requires later { All
        (λ p. Contains (spots_of (see.sheet marking.now.sheet)) (seen p)) later.now }
    ensures { (i : Grammar) → IsReadOf i marking.now.input → (ps : List s.Spot)
        → OfEach ps (Contains (spots_of (see.sheet marking.now.sheet)))
        → StopsSpots i (see.sheet marking.now.sheet) ps failure
        → StopsSpots i (see.sheet marking.now.sheet) (ps ++ map seen later.now) result }
{
    let mut found = failure;
    for spot in later {
        if stage(found) <= 1 {
            return found;
        }
        found = earlier_of(alloc, marking, *spot, found);
    }
    found
}

/// What is told where one more spot is looked at, but for its rows.
fn earlier_of(alloc: Global, marking: &Marking<'_>, spot: Spot, found: Failure) -> Failure
    requires marking { IsMarking marking.now }
    requires spot { Contains (spots_of (see.sheet marking.now.sheet)) (seen spot) }
    ensures { (i : Grammar) → IsReadOf i marking.now.input → (ps : List s.Spot)
        → StopsSpots i (see.sheet marking.now.sheet) ps found
        → StopsSpots i (see.sheet marking.now.sheet) (ps ++ seen spot ∷ []) result }
{
    match try_machine(alloc, marking, spot) {
        Ok(()) => found,
        Err(here) => first_tried(here, found),
    }
}

/// Whether a spot passes a limit that is tried before rows are.
fn try_machine(alloc: Global, marking: &Marking<'_>, spot: Spot) -> Result<(), Failure>
    requires marking { IsMarking marking.now }
    requires spot { Contains (spots_of (see.sheet marking.now.sheet)) (seen spot) }
    ensures within { OnOk result ((i : Grammar) → IsReadOf i marking.now.input
        → IsWithinSpotLimits i (see.sheet marking.now.sheet) (seen spot)) }
    ensures err { IfErr result (λ e. (i : Grammar) → IsReadOf i marking.now.input
        → StopsSpot i (see.sheet marking.now.sheet) (seen spot) e) }
{
    let scratch = Bump::new(alloc);
    try_within(&scratch, alloc, marking, spot)
}

/// The same, in an arena of its own.
fn try_within<'m: 's, 's>(
    scratch: &'s Bump,
    alloc: Global,
    marking: &Marking<'m>,
    spot: Spot,
) -> Result<(), Failure>
    requires marking { IsMarking marking.now }
    requires spot { Contains (spots_of (see.sheet marking.now.sheet)) (seen spot) }
    ensures within { OnOk result ((i : Grammar) → IsReadOf i marking.now.input
        → IsWithinSpotLimits i (see.sheet marking.now.sheet) (seen spot)) }
    ensures err { IfErr result (λ e. (i : Grammar) → IsReadOf i marking.now.input
        → StopsSpot i (see.sheet marking.now.sheet) (seen spot) e) }
{
    let machine = machine_of_spot(scratch, alloc, marking, spot)?;
    drop(machine);
    Ok(())
}

/// Of two failures the one that is tried first.
fn first_tried(here: Failure, found: Failure) -> Failure
    ensures { ((result ≡ here) × (stage_of here < stage_of found))
        ⊎ ((result ≡ found) × (stage_of found ≤ stage_of here)) }
{
    if stage(here) < stage(found) {
        return here;
    }
    found
}

/// In which order limits are tried.
fn stage(failure: Failure) -> u32
    ensures { result ≡ stage_of failure }
{
    match failure {
        Failure::Passes(Kind::Texts(Limit::Calls), _) => 1,
        Failure::Passes(Kind::Texts(Limit::Entries), _) => 2,
        Failure::Passes(Kind::Texts(_), _) => 0,
        Failure::Passes(Kind::Rows(_), _) => 3,
        Failure::Passes(Kind::Nodes, _)
        | Failure::Passes(Kind::Certificate, _)
        | Failure::Passes(Kind::Work, _)
        | Failure::Passes(Kind::Open, _)
        | Failure::Passes(Kind::Pieces(_), _) => 4,
        Failure::Refused(_, _, _) | Failure::NoMemory => 0,
    }
}

/// What is told of a spot. What is worked out for it lies in an arena that is given back.
fn told_of<'b>(
    arena: &'b Bump,
    alloc: Global,
    marking: &Marking<'_>,
    spot: Spot,
) -> Result<Told<'b>, Failure>
    requires marking { IsMarking marking.now }
    requires spot { Contains (spots_of (see.sheet marking.now.sheet)) (seen spot) }
    ensures ok { IfOk result (λ told. (i : Grammar) → IsReadOf i marking.now.input
        → IsToldOf i (see.sheet marking.now.sheet) (seen spot) told) }
    ensures err { IfErr result (λ e. (i : Grammar) → IsReadOf i marking.now.input
        → StopsSpot i (see.sheet marking.now.sheet) (seen spot) e) }
{
    let scratch = Bump::new(alloc);
    told_within(arena, &scratch, alloc, marking, spot)
}

/// What is told of a spot, worked out in an arena of its own.
fn told_within<'b, 'm: 's, 's>(
    arena: &'b Bump,
    scratch: &'s Bump,
    alloc: Global,
    marking: &Marking<'m>,
    spot: Spot,
) -> Result<Told<'b>, Failure>
    requires marking { IsMarking marking.now }
    requires spot { Contains (spots_of (see.sheet marking.now.sheet)) (seen spot) }
    ensures ok { IfOk result (λ told. (i : Grammar) → IsReadOf i marking.now.input
        → IsToldOf i (see.sheet marking.now.sheet) (seen spot) told) }
    ensures err { IfErr result (λ e. (i : Grammar) → IsReadOf i marking.now.input
        → StopsSpot i (see.sheet marking.now.sheet) (seen spot) e) }
{
    let machine = machine_of_spot(scratch, alloc, marking, spot)?;
    told_by_rows(arena, scratch, alloc, &machine)
}

/// The machine of the schema, the plain one, and the stylesheet in which a spot is marked.
fn machine_of_spot<'m: 's, 's>(
    scratch: &'s Bump,
    alloc: Global,
    marking: &Marking<'m>,
    spot: Spot,
) -> Result<Machine<'s>, Failure>
    requires marking { IsMarking marking.now }
    requires spot { Contains (spots_of (see.sheet marking.now.sheet)) (seen spot) }
    ensures tells { OnOk result (IsTelling (see.sheet marking.now.sheet) (seen spot)) }
    ensures ok { IfOk result (λ m. (i : Grammar) → IsReadOf i marking.now.input
        → IsMachineFor i plain_schema (marked_at (seen spot) (see.sheet marking.now.sheet)) m) }
    ensures err { IfErr result (λ e. (i : Grammar) → IsReadOf i marking.now.input
        → StopsSpot i (see.sheet marking.now.sheet) (seen spot) e) }
{
    let sheet = marked(scratch, &marking.sheet, spot)?;
    Ok(machine_of(alloc, &marking.input, &marking.plain, &sheet)?)
}

/// What the rows of a machine tell, which are worked out in an arena of their own.
fn told_by_rows<'b, 's>(
    arena: &'b Bump,
    scratch: &'s Bump,
    alloc: Global,
    machine: &Machine<'s>,
) -> Result<Told<'b>, Failure>
    requires machine { IsMachine machine.now }
    ensures { (x : t.Triple) → IsMachineOf x machine.now
        → IsWithinTripleLimits x.input x.output (t.sheet x)
        → IsToldByRows x.input x.output (t.sheet x) result }
{
    match tc_close::decide(scratch, alloc, machine, MOST_ROWS) {
        Ok(Decision::Safe(_)) => Ok(Told::Dead),
        Ok(Decision::Unsafe(document)) => Ok(Told::Used(copied(arena, &document)?)),
        Ok(Decision::TooManyNodes) => Ok(Told::UsedTooLarge),
        Err(fault) => Err(rows_failure(MOST_ROWS, fault)),
    }
}
