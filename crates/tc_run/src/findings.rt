// Whether looks find something below the elements that have a number. Some of it is remembered, so that what stands below is not gone
// through again for each test on the nodes above: each entry is true, so that one is overwritten changes no answer.
ghost use Rattle.std.specs.Prelude.{◌≤◌, List, IfSome};
ghost use Rattle.tc_model.specs.Trees.{Trees};
ghost use Rattle.tc_run.specs.Findings.{AreFoundUnder, IsFindingUnder};
ghost use Rattle.tc_run.specs.Running.{Guide};

use crate::runner::Runner;
use bumpalo::Bump;

/// The most findings that are remembered.
const MOST_REMEMBERED: usize = 1_048_576;

/// Whether a look, by its state there, finds something below the element of a number.
#[derive(Clone, Copy)]
struct Finding {
    number: u32,
    look: u32,
    found: bool,
}

/// Some of what looks found. It is forgotten where something else comes to its place, and where there are more elements than before.
#[derive(Drop)]
pub(crate) struct Findings<'b> {
    arena: &'b Bump,
    places: Vec<Option<Finding>, &'b Bump>,
}

/// How many findings there may be, up to the most that are remembered.
fn room_for(runner: &Runner<'_, '_>) -> usize
    ensures { result ≤ 1048576 }
{
    let looks = runner.rules.looks() as usize;
    runner
        .numbered
        .len()
        .saturating_mul(looks)
        .min(MOST_REMEMBERED)
}

/// Where a finding is remembered among so many.
fn place_of(runner: &Runner<'_, '_>, number: u32, look: u32, count: usize) -> usize {
    if count == 0 {
        return 0;
    }
    let looks = runner.rules.looks() as usize;
    (number as usize)
        .wrapping_mul(looks)
        .wrapping_add(look as usize)
        % count
}

impl<'b> Findings<'b> {
    /// None is remembered.
    pub(crate) fn new(arena: &'b Bump) -> Findings<'b>
        ensures { (g : Guide) (numbered : List Trees) → AreFoundUnder g numbered result }
    {
        Findings {
            arena,
            places: Vec::new(arena),
        }
    }

    /// Whether a look finds something below the element of a number, if it is remembered.
    pub(crate) fn remembered(&self, runner: &Runner<'_, '_>, number: u32, look: u32) -> Option<bool>
        ensures { (g : Guide) (numbered : List Trees) → AreFoundUnder g numbered self.now
            → IfSome result (λ b. IsFindingUnder g numbered number look b) }
    {
        let place = place_of(runner, number, look, self.places.len());
        if place >= self.places.len() {
            return None;
        }
        let known = self.places[place]?;
        if known.number == number && known.look == look {
            Some(known.found)
        } else {
            None
        }
    }

    /// Forgets all where there is room for less than half of what may be found, if there is memory for more.
    fn make_room(&mut self, runner: &Runner<'_, '_>)
        ensures { (g : Guide) (numbered : List Trees) → AreFoundUnder g numbered self.old
            → AreFoundUnder g numbered self.new }
    {
        let room = room_for(runner);
        if self.places.len() >= room / 2 + 1 {
            return;
        }
        if let Ok(places) = vec![in self.arena; None; room + 1] {
            self.places = places;
        }
    }

    /// Remembers whether a look finds something below the element of a number.
    pub(crate) fn remember(&mut self, runner: &Runner<'_, '_>, number: u32, look: u32, found: bool)
        ensures { (g : Guide) (numbered : List Trees) → AreFoundUnder g numbered self.old
            → IsFindingUnder g numbered number look found → AreFoundUnder g numbered self.new }
    {
        self.make_room(runner);
        let place = place_of(runner, number, look, self.places.len());
        if place >= self.places.len() {
            return;
        }
        self.places[place] = Some(Finding {
            number,
            look,
            found,
        });
    }
}
