// Different moves, found among many by numbers that equal ones share.
ghost use Rattle.std.specs.Prelude.{◌≡◌, ◌≢◌, ◌<◌, ◌≤◌, ◌%◌, ◌++◌, ◌∷◌, ℕ, List, [], length, map, filter, get_or, IfOk, IfErr, OnOk};
ghost use Rattle.std.specs.List.{list_any};
ghost use Rattle.tc_model.specs.Numbered.{each_once};
ghost use Rattle.tc_model.specs.Numberings.{same_move};
ghost use Rattle.tc_model.specs.PathStates.{first_state};
ghost use Rattle.tc_model.specs.SameTests.{same_path};
ghost use Rattle.tc_model.specs.Sheets as s;
ghost use Rattle.tc_model.specs.StateCounts.{some_item};
ghost use Rattle.tc_model.specs.Views as see;
ghost use Rattle.tc_rules.specs.Gathered.{numbers};
ghost use Rattle.tc_rules.specs.Jobs.{AreJobs, IsJob};
ghost use Rattle.tc_rules.specs.MoveTables.{IsFiled, IsPathsCause, is_move_at, move_on, paths};
ghost use Rattle.tc_rules.specs.Once.{put_once};
ghost use Rattle.tc_rules.specs.Views.{predicates, looks, moves, move as see_move};

use crate::gather::{add_number, no_numbers};
use crate::graph::as_u32;
use crate::mixed::mixed_move;
use crate::once::same_job;
use crate::rules::{RulesFault, select_paths};
use crate::walk::{Job, Move};
use std::alloc::Global;
use tc_base::NoMemory;
use tc_base::limits::MOST_SELECTS;
use tc_model::{Path, Test};

/// The most places of a table, but for one; with that their number is a prime.
const MOST_PLACES: usize = 4092;

/// Different moves, in their order.
#[derive(Drop)]
struct MoveTable<'b> {
    moves: Vec<Move<'b>>,
    /// The numbers of the moves of each place: equal moves have the same place.
    places: Vec<Vec<u32>>,
    /// How many of the moves have a first state.
    begun: usize,
}

impl<'b> MoveTable<'b> {
    /// A table without moves, with places for so many.
    fn new(alloc: Global, most: usize) -> Result<MoveTable<'b>, NoMemory>
        ensures moves { IfOk result (λ t. t.moves.items ≡ []) }
        ensures filed { IfOk result (λ t. (tests : List s.Test) (modes : ℕ)
            → IsFiled tests modes t) }
    {
        let count = most.min(MOST_PLACES) + 1;
        let places = no_numbers(alloc, as_u32(count))?;
        Ok(MoveTable {
            moves: Vec::new(alloc),
            places,
            begun: 0,
        })
    }

    /// The place of the moves that share a number.
    fn place_of(&self, number: u64) -> usize
        requires { 0 < length self.now.places.items }
        ensures place { result ≡ number % length self.now.places.items }
        ensures within { result < length self.now.places.items }
    {
        number as usize % self.places.len()
    }

    /// The numbers of the moves of a place.
    fn numbers_at(&self, place: usize) -> &[u32]
        ensures { result.now ≡ get_or (numbers self.now.places.items) place [] }
    {
        match self.places.get(place) {
            Some(numbers) => numbers,
            None => &[],
        }
    }

    /// Whether the move of a number is the same.
    fn is_move_at(&self, modes: u32, sought: &Move<'_>, number: u32) -> bool
        ensures { result ≡ is_move_at (moves modes self.now.moves.items)
            (see_move modes sought.now) number }
    {
        match self.moves.get(number as usize) {
            Some(other) => same_job(modes, sought, other),
            None => false,
        }
    }

    /// Whether the move of one of the numbers is the same.
    fn has_among(&self, modes: u32, sought: &Move<'_>, among: &[u32]) -> bool
        ensures { result ≡ list_any
            (is_move_at (moves modes self.now.moves.items) (see_move modes sought.now)) among.now }
    {
        for number in among {
            if self.is_move_at(modes, sought, *number) {
                return true;
            }
        }
        false
    }

    /// Puts a move last.
    fn put(&mut self, place: usize, sought: &Move<'b>) -> Result<(), NoMemory>
        requires place { place < length self.old.places.items }
        requires few { length self.old.places.items ≤ 4093 }
        ensures moves { OnOk result (self.new.moves.items ≡ self.old.moves.items
            ++ sought.now ∷ []) }
        ensures count { OnOk result (length self.new.places.items ≡ length self.old.places.items) }
        ensures added { OnOk result (get_or (numbers self.new.places.items) place []
            ≡ get_or (numbers self.old.places.items) place [] ++ length self.old.moves.items ∷ []) }
        ensures others { OnOk result ((p : ℕ) → p ≢ place
            → get_or (numbers self.new.places.items) p []
            ≡ get_or (numbers self.old.places.items) p []) }
    {
        let number = self.moves.len();
        add_number(&mut self.places, as_u32(place), number)?;
        self.moves.push(*sought)?;
        Ok(())
    }

    /// One more move, unless one of those kept is the same. Each that has a first state is a select state.
    fn keep(
        &mut self,
        numbered: &[&Test<'_>],
        modes: u32,
        sought: &Move<'b>,
    ) -> Result<(), RulesFault>
        requires { IsFiled (predicates numbered.now) modes self.old }
        ensures filed { OnOk result (IsFiled (predicates numbered.now) modes self.new) }
        ensures moves { OnOk result (moves modes self.new.moves.items
            ≡ put_once same_move (moves modes self.old.moves.items) (see_move modes sought.now)) }
        ensures jobs { OnOk result ((x : s.Sheet) → AreJobs x self.old.moves.items
            → IsJob x sought.now.job → AreJobs x self.new.moves.items) }
        ensures cause { IfErr result (λ e. IsPathsCause
            (paths (put_once same_move (moves modes self.old.moves.items)
            (see_move modes sought.now))) e) }
    {
        let place = self.place_of(mixed_move(numbered, modes, sought));
        if self.has_among(modes, sought, self.numbers_at(place)) {
            return Ok(());
        }
        let begun = self.begun + first_states(sought.path);
        if begun > MOST_SELECTS as usize {
            return Err(RulesFault::TooManySelectStates);
        }
        self.put(place, sought)?;
        self.begun = begun;
        Ok(())
    }
}

/// Whether an alternative has a step.
fn has_step(path: &Path<'_>) -> bool
    ensures { result ≡ some_item (first_state (see.path path.now)) }
{
    for steps in path.alts {
        if !steps.is_empty() {
            return true;
        }
    }
    false
}

/// How many first states a path has: one, or none where no alternative has a step.
fn first_states(path: &Path<'_>) -> usize
    ensures count { result ≡ length (filter some_item (first_state (see.path path.now) ∷ [])) }
    ensures few { result ≤ 1 }
{
    if has_step(path) { 1 } else { 0 }
}

/// The different moves, in their order. A table finds each among them; past 4,096 that have a first state none is looked for.
pub(crate) fn moves_once<'b>(
    alloc: Global,
    numbered: &[&Test<'_>],
    modes: u32,
    found: &[Move<'b>],
) -> Result<Vec<Move<'b>>, RulesFault>
    ensures kept { IfOk result (λ v. moves modes v.items
        ≡ each_once same_move (moves modes found.now)) }
    ensures jobs { IfOk result (λ v. (x : s.Sheet) → AreJobs x found.now → AreJobs x v.items) }
    ensures cause { IfErr result (λ e. IsPathsCause
        (paths (each_once same_move (moves modes found.now))) e) }
{
    let mut table = MoveTable::new(alloc, found.len())?;
    for sought in found {
        table.keep(numbered, modes, sought)?;
    }
    Ok(table.moves)
}

/// A move of one mode on each of the paths.
fn moves_on<'b>(alloc: Global, looked: &[&'b Path<'b>]) -> Result<Vec<Move<'b>>, NoMemory>
    ensures { IfOk result (λ v. moves 0 v.items ≡ map move_on (looks looked.now)) }
{
    let mut found = Vec::new(alloc);
    for path in looked {
        let job = Job::Mode(0);
        found.push(Move { path: *path, job })?;
    }
    Ok(found)
}

/// The different looks, in their order, which are told apart as moves of one mode are.
pub(crate) fn looks_once<'b>(
    alloc: Global,
    numbered: &[&Test<'_>],
    found: &[&'b Path<'b>],
) -> Result<Vec<&'b Path<'b>>, RulesFault>
    ensures kept { IfOk result (λ v. looks v.items ≡ each_once same_path (looks found.now)) }
    ensures cause { IfErr result (λ e. IsPathsCause (each_once same_path (looks found.now)) e) }
{
    let moves = moves_on(alloc, found)?;
    let kept = moves_once(alloc, numbered, 0, &moves)?;
    let paths = select_paths(alloc, &kept, &[])?;
    Ok(paths)
}
