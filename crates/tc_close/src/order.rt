// Lines in the order of their bytes.
ghost use Rattle.std.specs.Prelude.{◌≡◌, ◌<◌, ◌≤◌, ◌++◌, ◌∷◌, [], length, All, IfOk, OnOk};
ghost use Rattle.tc_close.specs.Orders.{IsOrder, AreRanks, ranked};

use std::alloc::Global;
use std::marker::Model;
use tc_base::NoMemory;
use tc_model::Numbers;

/// Lines, each with its place.
#[derive(Drop)]
pub(crate) struct PlacedLines {
    alloc: Global,
    lines: Vec<(Vec<u8>, u32)>,
}

impl Model for PlacedLines {
    ghost use Rattle.std.specs.Prelude.{ℕ, List, map};
    ghost use Rattle.tc_close.specs.Orders.{line_of, ArePlaced};

    ghost Value = { List (List ℕ) };

    ghost view = { λ p. map line_of p.lines.items };

    ghost invariant = { λ p. ArePlaced p.lines.items };
}

impl PlacedLines {
    /// No line.
    pub(crate) fn new(alloc: Global) -> PlacedLines
        ensures { result ≡ [] }
    {
        PlacedLines {
            alloc,
            lines: Vec::new(alloc),
        }
    }

    /// Puts a line at the end.
    pub(crate) fn push(&mut self, line: Vec<u8>) -> Result<(), NoMemory>
        requires { length self.old < 4294967295 }
        ensures { OnOk result (self.new ≡ self.old ++ line.items ∷ []) }
    {
        let place = self.lines.len() as u32;
        self.lines.push((line, place))?;
        Ok(())
    }

    /// All places, in the order of their lines.
    pub(crate) fn order(mut self) -> Result<Vec<u32>, NoMemory>
        ensures { IfOk result (λ places. IsOrder self places.items) }
    {
        self.lines.sort()?;
        let mut places = Vec::new(self.alloc);
        for line in &self.lines {
            places.push(line.1)?;
        }
        Ok(places)
    }
}

/// The ranks of numbers below a count: the place of each among them.
pub(crate) fn ranks_of(alloc: Global, numbers: &[u32], count: u32) -> Result<Vec<u32>, NoMemory>
    requires within { All (λ n. n < count) numbers.now }
    requires few { length numbers.now ≤ 4294967295 }
    ensures count { IfOk result (λ ranks. length ranks.items ≡ count) }
    ensures ranks { IfOk result (λ ranks. AreRanks numbers.now ranks.items) }
{
    let mut ranks = vec![in alloc; 0u32; count as usize]?;
    for place in 0..numbers.len() {
        ranks[numbers[place] as usize] = place as u32;
    }
    Ok(ranks)
}

/// These numbers by their ranks.
pub(crate) fn ranked(alloc: Global, ranks: &[u32], numbers: &Numbers) -> Result<Numbers, NoMemory>
    requires { All (λ n. n < length ranks.now) numbers.now }
    ensures { IfOk result (λ list. list ≡ ranked ranks.now numbers.now) }
{
    let mut list = Numbers::new(alloc);
    for place in 0..numbers.len() {
        list.push(ranks[*numbers.get(place) as usize])?;
    }
    Ok(list)
}
