// Which sets that stand in rows were met on the way. A link is forgotten where another one comes to its place.
ghost use Rattle.std.specs.Prelude.{◌≡◌, IfOk, IfSome};
ghost use Rattle.tc_mat.specs.Held.{Held};
ghost use Rattle.tc_beh.specs.Links.{IsLink, AreLinks};

use crate::places::PLACES;
use std::alloc::Global;
use std::marker::Model;
use tc_base::NoMemory;

/// The number of a set in rows, and the one under which it was met.
#[derive(Clone, Copy)]
struct Link {
    held: u32,
    met: u32,
}

/// Links between sets that stand in rows and those that were met, each in the places of its two numbers.
#[derive(Drop)]
pub(crate) struct Links {
    by_held: Vec<Option<Link>>,
    by_met: Vec<Option<Link>>,
}

impl Model for Links {
    ghost use Rattle.std.specs.Prelude.{◌≡◌, length};
    ghost use Rattle.tc_beh.specs.Links.{Tables};

    ghost Value = { Tables };

    ghost view = { λ l. record { by_held = l.by_held.items; by_met = l.by_met.items } };

    ghost invariant = { λ l. (length l.by_held.items ≡ 4096) × (length l.by_met.items ≡ 4096) };
}

impl Links {
    /// No links.
    ///
    /// # Errors
    ///
    /// There is no memory for them.
    pub(crate) fn none(alloc: Global) -> Result<Links, NoMemory>
        ensures { IfOk result (λ l. (rows met : Held) → AreLinks rows met l) }
    {
        let by_held = vec![in alloc; None; PLACES]?;
        let by_met = vec![in alloc; None; PLACES]?;
        Ok(Links { by_held, by_met })
    }

    /// The number under which a set that stands in rows was met, if it is known.
    pub(crate) fn met_of(&self, held: u32) -> Option<u32>
        ensures { IfSome result (λ k. (rows met : Held) → AreLinks rows met self.now
            → IsLink rows met held k) }
    {
        let known = self.by_held[held as usize % PLACES]?;
        if known.held == held {
            Some(known.met)
        } else {
            None
        }
    }

    /// The number in rows of a set that was met, if it is known.
    pub(crate) fn held_of(&self, met: u32) -> Option<u32>
        ensures { IfSome result (λ k. (rows met_sets : Held) → AreLinks rows met_sets self.now
            → IsLink rows met_sets k met) }
    {
        let known = self.by_met[met as usize % PLACES]?;
        if known.met == met {
            Some(known.held)
        } else {
            None
        }
    }

    /// Keeps the two numbers of a set.
    pub(crate) fn keep(&mut self, held: u32, met: u32)
        ensures { (rows met_sets : Held) → AreLinks rows met_sets self.old
            → IsLink rows met_sets held met → AreLinks rows met_sets self.new }
    {
        let link = Some(Link { held, met });
        self.by_held[held as usize % PLACES] = link;
        self.by_met[met as usize % PLACES] = link;
    }
}
