// Where moves and looks are looked for first. No clause tells what stands there: what is found there is compared with what is looked
// for, and where it is another, all are gone through.

ghost use Rattle.std.specs.Prelude.{◌≡◌, ◌<◌, ◌≤◌, length, Some, slice_get, Contains, true};
ghost use Rattle.tc_model.specs.Views as see;
ghost use Rattle.tc_rules.specs.Views.{looks, move as see_move, moves};

use crate::graph::as_u32;
use crate::mixed::{START, mixed, mixed_bytes};
use crate::once::{number_of_move, number_of_path, same_job};
use crate::same::same_path;
use crate::walk::{Job, Move};
use std::alloc::Global;
use tc_base::NoMemory;
use tc_model::{NodeTest, Path, Step};

/// The most moves, or looks, that have a place of their own.
const MOST_PLACES: usize = 8192;

/// A number at each place, by what is mixed of moves and of looks.
#[derive(Drop)]
pub(crate) struct Hints {
    moves: Vec<u32>,
    looks: Vec<u32>,
}

fn mixed_step(start: u64, step: &Step<'_>) -> u64 {
    match step.test {
        NodeTest::Name(name) => mixed_bytes(start, name.local.as_bytes()),
        NodeTest::Ns(uri) => mixed(start, uri.len() as u64),
        NodeTest::Any => mixed(start, 3),
        NodeTest::Text => mixed(start, 4),
        NodeTest::Node => mixed(start, 5),
    }
}

fn mixed_steps(start: u64, steps: &[Step<'_>]) -> u64 {
    let mut hash = mixed(start, 6);
    for step in steps {
        hash = mixed_step(hash, step);
    }
    hash
}

/// What is mixed of a path: the local names and kinds of its steps.
fn mixed_path(start: u64, path: &Path<'_>) -> u64 {
    let mut hash = start;
    for steps in path.alts {
        hash = mixed_steps(hash, steps);
    }
    hash
}

fn mixed_job(job: Job) -> u64 {
    match job {
        Job::Mode(mode) => mixed(START, u64::from(mode)),
        Job::Each(each) => mixed(mixed(START, 1), u64::from(each)),
    }
}

/// Puts a number at its place.
fn put(places: &mut Vec<u32>, hash: u64, number: usize) {
    let count = places.len();
    if count == 0 {
        return;
    }
    places[hash as usize % count] = as_u32(number);
}

/// The number at a place.
fn at(places: &[u32], hash: u64) -> usize {
    let count = places.len();
    if count == 0 {
        return 0;
    }
    places[hash as usize % count] as usize
}

/// Whether the move of a number is the same.
fn is_move_at(modes: u32, numbered: &[Move<'_>], number: usize, sought: &Move<'_>) -> bool
    ensures { result ≡ true → slice_get (moves modes numbered.now) number
        ≡ Some (see_move modes sought.now) }
{
    if number >= numbered.len() {
        return false;
    }
    same_job(modes, sought, &numbered[number])
}

/// Whether the look of a number is the same.
fn is_look_at(numbered: &[&Path<'_>], number: usize, path: &Path<'_>) -> bool
    ensures there { result ≡ true → slice_get (looks numbered.now) number
        ≡ Some (see.path path.now) }
    ensures within { result ≡ true → number < length numbered.now }
{
    if number >= numbered.len() {
        return false;
    }
    same_path(path, numbered[number])
}

/// Places for so many numbers.
fn places_for(alloc: Global, count: usize) -> Result<Vec<u32>, NoMemory> {
    let places = vec![in alloc; 0; count.min(MOST_PLACES) * 2 + 1]?;
    Ok(places)
}

fn places_of_moves(alloc: Global, moves: &[Move<'_>]) -> Result<Vec<u32>, NoMemory> {
    let mut places = places_for(alloc, moves.len())?;
    for (i, found) in moves.iter().enumerate() {
        put(&mut places, mixed_path(mixed_job(found.job), found.path), i);
    }
    Ok(places)
}

fn places_of_looks(alloc: Global, looks: &[&Path<'_>]) -> Result<Vec<u32>, NoMemory> {
    let mut places = places_for(alloc, looks.len())?;
    for (i, path) in looks.iter().enumerate() {
        put(&mut places, mixed_path(START, path), i);
    }
    Ok(places)
}

impl Hints {
    /// Those of moves and looks.
    ///
    /// # Errors
    ///
    /// There is no memory for the places.
    pub(crate) fn of(
        alloc: Global,
        moves: &[Move<'_>],
        looks: &[&Path<'_>],
    ) -> Result<Hints, NoMemory> {
        let moves = places_of_moves(alloc, moves)?;
        let looks = places_of_looks(alloc, looks)?;
        Ok(Hints { moves, looks })
    }

    /// The number of a move that is one of these, which is looked for at one place first.
    pub(crate) fn move_number(&self, modes: u32, numbered: &[Move<'_>], sought: &Move<'_>) -> usize
        ensures { Contains (moves modes numbered.now) (see_move modes sought.now)
            → slice_get (moves modes numbered.now) result ≡ Some (see_move modes sought.now) }
    {
        let hinted = at(&self.moves, mixed_path(mixed_job(sought.job), sought.path));
        if is_move_at(modes, numbered, hinted, sought) {
            return hinted;
        }
        number_of_move(modes, numbered, sought)
    }

    /// The number of a look that is one of these, which is looked for at one place first.
    pub(crate) fn look_number(&self, numbered: &[&Path<'_>], path: &Path<'_>) -> usize
        ensures number { Contains (looks numbered.now) (see.path path.now)
            → slice_get (looks numbered.now) result ≡ Some (see.path path.now) }
        ensures bound { result ≤ length numbered.now }
    {
        let hinted = at(&self.looks, mixed_path(START, path));
        if is_look_at(numbered, hinted, path) {
            return hinted;
        }
        number_of_path(numbered, path)
    }
}
