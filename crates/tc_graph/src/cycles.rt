// Which numbers lead to one another and back. The numbers that a walk has come to and not yet left stand on a
// stack, cut into components: those of one component lead to one another, and each leads to all that follow.
// A step back to an earlier component makes one of all from there on (Gabow, Path-based depth-first search
// for strong and biconnected components, 2000).
ghost use Rattle.std.specs.Prelude.{◌≡◌, ◌<◌, length, IfOk, OnOk};
ghost use Rattle.std.specs.List.{All};
ghost use Rattle.tc_graph.specs.Graph.{IsGraph, rows_of};
ghost use Rattle.tc_graph.specs.Walks.{AreComponents, AreFinished, ComesTo, IsAtRest, IsClosed, IsStarted, IsUnderWay, IsWalk, KeepsOld, cost, entered, joined, same_component, seen, state_at};

use bumpalo::Bump;
use tc_base::NoMemory;

/// What a walk knows of a number.
#[derive(Clone, Copy)]
pub enum State {
    New,
    /// It stands at this place of the stack.
    Open(usize),
    /// It is in the component of this number.
    Done(usize),
}

/// Where a component begins on the stack, and on that of the steps that are to be taken.
#[derive(Clone, Copy)]
pub struct Start {
    pub place: usize,
    pub step: usize,
}

/// A walk along all steps.
#[derive(Drop)]
pub struct Walk<'b> {
    pub states: Vec<State, &'b Bump>,
    pub stack: Vec<usize, &'b Bump>,
    pub starts: Vec<Start, &'b Bump>,
    pub steps: Vec<usize, &'b Bump>,
    /// One number of each component that is left, each after those to which it leads.
    pub order: Vec<usize, &'b Bump>,
}

impl<'b> Walk<'b> {
    /// Comes to a number, which begins a component.
    fn enter(&mut self, number: usize, row: &[usize]) -> Result<(), NoMemory>
        requires { number < length self.old.states.items }
        ensures { OnOk result (seen self.new ≡ entered number row.now (seen self.old)) }
    {
        self.states[number] = State::Open(self.stack.len());
        self.starts.push(Start {
            place: self.stack.len(),
            step: self.steps.len(),
        })?;
        self.stack.push(number)?;
        self.steps.extend_from_slice(row)?;
        Ok(())
    }

    /// Makes one component of all that stand from a place on.
    fn join(&mut self, place: usize)
        ensures joined { seen self.new ≡ joined self.new.starts.items (seen self.old) }
        ensures started { IsStarted place self.old.starts.items self.new.starts.items }
    {
        while let Some(start) = self.starts.last().copied() {
            if start.place <= place {
                return;
            }
            let _ = self.starts.pop();
        }
    }

    /// Leaves the last component.
    fn close(&mut self, start: Start) -> Result<(), NoMemory>
        requires within { start.place < length self.old.stack.items }
        requires states { All (λ v. v < length self.old.states.items) self.old.stack.items }
        ensures { OnOk result (IsClosed start (seen self.old) (seen self.new)) }
    {
        let component = self.order.len();
        self.order.push(self.stack[start.place])?;
        finish(&mut self.states, &self.stack[start.place..], component);
        self.stack.truncate(start.place);
        let _ = self.starts.pop();
        Ok(())
    }

    /// Takes the last step, or leaves the last component where none of its steps is left.
    fn advance(&mut self, rows: &[&[usize]], start: Start) -> Result<(), NoMemory>
        requires { IsUnderWay (rows_of rows.now) (seen self.old) start }
        ensures walk { OnOk result (IsWalk (rows_of rows.now) (seen self.new)) }
        ensures old { OnOk result (KeepsOld (seen self.old) (seen self.new)) }
        ensures less { OnOk result
            (cost (rows_of rows.now) (seen self.new) < cost (rows_of rows.now) (seen self.old)) }
    {
        if self.steps.len() == start.step {
            return self.close(start);
        }
        let to = self.steps[self.steps.len() - 1];
        match self.states[to] {
            State::New => self.enter(to, rows[to]),
            State::Open(place) => {
                let _ = self.steps.pop();
                self.join(place);
                Ok(())
            }
            State::Done(_) => {
                let _ = self.steps.pop();
                Ok(())
            }
        }
    }

    /// Comes to a number, if it wasn't come to.
    fn begin(&mut self, rows: &[&[usize]], number: usize) -> Result<(), NoMemory>
        requires within { number < length rows.now }
        requires rest { IsAtRest (rows_of rows.now) (seen self.old) }
        ensures walk { OnOk result (IsWalk (rows_of rows.now) (seen self.new)) }
        ensures came { OnOk result (ComesTo number (seen self.old) (seen self.new)) }
    {
        match self.states[number] {
            State::New => self.enter(number, rows[number]),
            _ => Ok(()),
        }
    }

    /// Walks from a number to all to which it leads.
    fn walk(&mut self, rows: &[&[usize]], number: usize) -> Result<(), NoMemory>
        requires within { number < length rows.now }
        requires rest { IsAtRest (rows_of rows.now) (seen self.old) }
        ensures rest { OnOk result (IsAtRest (rows_of rows.now) (seen self.new)) }
        ensures came { OnOk result (ComesTo number (seen self.old) (seen self.new)) }
    {
        self.begin(rows, number)?;
        while let Some(start) = self.starts.last().copied() {
            self.advance(rows, start)?;
        }
        Ok(())
    }

    /// Whether two numbers are in one component.
    pub fn joins(&self, first: usize, second: usize) -> bool
        requires first { first < length self.now.states.items }
        requires second { second < length self.now.states.items }
        ensures { result ≡ same_component (state_at self.now.states.items first)
            (state_at self.now.states.items second) }
    {
        match (self.states[first], self.states[second]) {
            (State::Done(one), State::Done(other)) => one == other,
            _ => false,
        }
    }
}

/// Puts numbers into a component.
fn finish(states: &mut Vec<State, &Bump>, row: &[usize], component: usize)
    requires { All (λ v. v < length states.old.items) row.now }
    ensures { AreFinished row.now component states.old.items states.new.items }
{
    for number in row {
        states[*number] = State::Done(component);
    }
}

/// The components of all numbers.
pub fn components<'b>(arena: &'b Bump, rows: &[&[usize]]) -> Result<Walk<'b>, NoMemory>
    requires { IsGraph (rows_of rows.now) }
    ensures { IfOk result (λ w. AreComponents (rows_of rows.now) w.states.items w.order.items) }
{
    let mut walk = Walk {
        states: vec![in arena; State::New; rows.len()]?,
        stack: Vec::new(arena),
        starts: Vec::new(arena),
        steps: Vec::new(arena),
        order: Vec::new(arena),
    };
    for number in 0..rows.len() {
        walk.walk(rows, number)?;
    }
    Ok(walk)
}
