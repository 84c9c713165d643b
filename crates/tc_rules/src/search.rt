// The states that a path's first state leads to, each found once, and where each leads.
ghost use Rattle.std.specs.Prelude.{◌≡◌, ◌⊎◌, ◌<◌, ◌≤◌, ◌^◌, ◌∷◌, ℕ, [], Option, Some, length, drop, slice_get, get_or, filter, IfOk, OnOk};
ghost use Rattle.std.specs.Result.{IsErrOf};
ghost use Rattle.tc_rules.specs.Reached as r;
ghost use Rattle.tc_rules.specs.Reached.{rounds, AreReached};
ghost use Rattle.tc_rules.specs.Rows as seen;
ghost use Rattle.tc_rules.specs.Rows.{words, all_words};
ghost use Rattle.tc_rules.specs.Words as w;

use crate::graph::{Counts, GraphFault, Leads, Letters, as_u32, insert_row};
use crate::rows::{Row, asked_predicates, first_alike, next_row};
use indexmap::IndexSet;
use std::alloc::Global;

/// The states that were reached, and where those lead that were gone through.
#[derive(Drop)]
pub(crate) struct Reached {
    pub(crate) states: IndexSet<Row>,
    pub(crate) next: Vec<Vec<Leads>>,
}

/// With what states are searched: those that count, of which there are at most so many.
#[derive(Clone, Copy)]
pub(crate) struct Search<'l> {
    pub(crate) alloc: Global,
    pub(crate) letters: &'l Letters,
    pub(crate) counts: Counts,
    pub(crate) most: usize,
}

impl<'l> Search<'l> {
    /// The number of a state, if it counts: it is one more, if it wasn't found before.
    fn keep(&self, states: &mut IndexSet<Row>, row: Row) -> Result<Option<u32>, GraphFault>
        requires most { self.now.most < 2 ^ 32 }
        requires few { length (all_words states.old.keys) ≤ self.now.most }
        ensures done { IfOk result (λ k. r.IsGrown self.now.counts self.now.most
            (all_words states.old.keys) (words row ∷ []) (all_words states.new.keys)
            × r.IsLead self.now.counts (all_words states.new.keys) k (words row)) }
        ensures many { IsErrOf result GraphFault.TooManyStates
            → r.AreMany self.now.counts self.now.most (all_words states.old.keys) (words row ∷ []) }
    {
        if !self.counts.includes(&row) {
            return Ok(None);
        }
        let number = insert_row(states, row)?;
        if states.len() > self.most {
            return Err(GraphFault::TooManyStates);
        }
        Ok(Some(as_u32(number)))
    }

    /// The number of the state to which a state leads where these predicates hold, if it isn't known.
    fn lead(
        &self,
        states: &mut IndexSet<Row>,
        staying: &Row,
        moving: &Row,
        marks: &Row,
        known: Option<Option<u32>>,
    ) -> Result<Option<u32>, GraphFault>
        requires most { self.now.most < 2 ^ 32 }
        requires few { length (all_words states.old.keys) ≤ self.now.most }
        requires known { (k : Option ℕ) → known ≡ Some k
            → r.IsLead self.now.counts (all_words states.old.keys) k
            (r.lead_of (words staying.now) (words moving.now) (words marks.now)) }
        ensures done { IfOk result (λ k. r.IsGrown self.now.counts self.now.most
            (all_words states.old.keys)
            (r.lead_of (words staying.now) (words moving.now) (words marks.now) ∷ [])
            (all_words states.new.keys)
            × r.IsLead self.now.counts (all_words states.new.keys) k
            (r.lead_of (words staying.now) (words moving.now) (words marks.now))) }
        ensures many { IsErrOf result GraphFault.TooManyStates
            → r.AreMany self.now.counts self.now.most (all_words states.old.keys)
            (r.lead_of (words staying.now) (words moving.now) (words marks.now) ∷ []) }
    {
        if let Some(number) = known {
            return Ok(number);
        }
        let next = next_row(self.alloc, staying, moving, marks)?;
        self.keep(states, next)
    }

    /// The same, set by set.
    fn leads_by_set(
        &self,
        states: &mut IndexSet<Row>,
        staying: &Row,
        moving: &Row,
    ) -> Result<Vec<Option<u32>>, GraphFault>
        requires most { self.now.most < 2 ^ 32 }
        requires few { length (all_words states.old.keys) ≤ self.now.most }
        ensures done { IfOk result (λ k. r.IsGrown self.now.counts self.now.most
            (all_words states.old.keys)
            (r.leads_by_set (words staying.now) (words moving.now)
            (all_words self.now.letters.now.marked.items)) (all_words states.new.keys)
            × r.AreLeads self.now.counts (all_words states.new.keys) k.items
            (r.leads_by_set (words staying.now) (words moving.now)
            (all_words self.now.letters.now.marked.items))) }
        ensures many { IsErrOf result GraphFault.TooManyStates
            → r.AreMany self.now.counts self.now.most (all_words states.old.keys)
            (r.leads_by_set (words staying.now) (words moving.now)
            (all_words self.now.letters.now.marked.items)) }
    {
        let marked = &self.letters.marked;
        let asked = asked_predicates(moving, marked);
        let mut leads: Vec<Option<u32>> = Vec::with_capacity(self.alloc, marked.len())?;
        for (number, marks) in marked.iter().enumerate() {
            let before = first_alike(moving, marked, asked, number);
            let known = known_at(&leads, before);
            let lead = self.lead(states, staying, moving, marks, known)?;
            leads.push(lead)?;
        }
        Ok(leads)
    }

    /// The number of the state to which a state leads where no item moves on, if it isn't known.
    fn lead_staying(
        &self,
        states: &mut IndexSet<Row>,
        staying: &Row,
        known: Option<Option<u32>>,
    ) -> Result<Option<u32>, GraphFault>
        requires most { self.now.most < 2 ^ 32 }
        requires few { length (all_words states.old.keys) ≤ self.now.most }
        requires known { (k : Option ℕ) → known ≡ Some k
            → r.IsLead self.now.counts (all_words states.old.keys) k (words staying.now) }
        ensures done { IfOk result (λ k. r.IsGrown self.now.counts self.now.most
            (all_words states.old.keys) (words staying.now ∷ []) (all_words states.new.keys)
            × r.IsLead self.now.counts (all_words states.new.keys) k (words staying.now)) }
        ensures many { IsErrOf result GraphFault.TooManyStates
            → r.AreMany self.now.counts self.now.most (all_words states.old.keys)
            (words staying.now ∷ []) }
    {
        if let Some(number) = known {
            return Ok(number);
        }
        let next = staying.copied(self.alloc)?;
        self.keep(states, next)
    }

    /// The numbers of the states to which a state leads by the letters of a class: its items that stay, and those that may move
    /// on, are these.
    fn leads_of_class(
        &self,
        states: &mut IndexSet<Row>,
        staying: &Row,
        waiting: &Row,
        kind: &Row,
        known: Option<Option<u32>>,
    ) -> Result<Leads, GraphFault>
        requires most { self.now.most < 2 ^ 32 }
        requires few { length (all_words states.old.keys) ≤ self.now.most }
        requires known { (k : Option ℕ) → known ≡ Some k
            → r.IsLead self.now.counts (all_words states.old.keys) k (words staying.now) }
        ensures done { IfOk result (λ k. r.IsGrown self.now.counts self.now.most
            (all_words states.old.keys)
            (r.leads_by_set (words staying.now) (w.both_words (words waiting.now) (words kind.now))
            (all_words self.now.letters.now.marked.items)) (all_words states.new.keys)
            × r.AreLeads self.now.counts (all_words states.new.keys)
            (seen.leads (all_words self.now.letters.now.marked.items) k)
            (r.leads_by_set (words staying.now) (w.both_words (words waiting.now) (words kind.now))
            (all_words self.now.letters.now.marked.items))
            × ((j : Option ℕ) → seen.lead_alike k ≡ Some j
            → r.IsLead self.now.counts (all_words states.new.keys) j (words staying.now))) }
        ensures many { IsErrOf result GraphFault.TooManyStates
            → r.AreMany self.now.counts self.now.most (all_words states.old.keys)
            (r.leads_by_set (words staying.now) (w.both_words (words waiting.now) (words kind.now))
            (all_words self.now.letters.now.marked.items)) }
    {
        if waiting.is_apart(kind) && !self.letters.marked.is_empty() {
            let lead = self.lead_staying(states, staying, known)?;
            return Ok(Leads::Alike(lead));
        }
        let moving = waiting.both(self.alloc, kind)?;
        let leads = self.leads_by_set(states, staying, &moving)?;
        Ok(Leads::BySet(leads))
    }

    /// The numbers of the states to which a state leads, class by class.
    fn expand(&self, states: &mut IndexSet<Row>, number: usize) -> Result<Vec<Leads>, GraphFault>
        requires most { self.now.most < 2 ^ 32 }
        requires few { length (all_words states.old.keys) ≤ self.now.most }
        requires number { number < length (all_words states.old.keys) }
        ensures done { IfOk result (λ k. r.IsGrown self.now.counts self.now.most
            (all_words states.old.keys)
            (r.leads_from self.now.letters.now (get_or (all_words states.old.keys) number []))
            (all_words states.new.keys)
            × r.AreLeadsByClass self.now.counts
            (all_words states.new.keys) self.now.letters.now k.items
            (get_or (all_words states.old.keys) number [])) }
        ensures many { IsErrOf result GraphFault.TooManyStates
            → r.AreMany self.now.counts self.now.most (all_words states.old.keys)
            (r.leads_from self.now.letters.now (get_or (all_words states.old.keys) number [])) }
    {
        let state = &states.as_slice()[number];
        let staying = state.both(self.alloc, &self.letters.deep)?;
        let waiting = state.both(self.alloc, &self.letters.inner)?;
        self.leads_by_class(states, &staying, &waiting)
    }

    /// The same by its items that stay, and those that may move on.
    fn leads_by_class(
        &self,
        states: &mut IndexSet<Row>,
        staying: &Row,
        waiting: &Row,
    ) -> Result<Vec<Leads>, GraphFault>
        requires most { self.now.most < 2 ^ 32 }
        requires few { length (all_words states.old.keys) ≤ self.now.most }
        ensures done { IfOk result (λ k. r.IsGrown self.now.counts self.now.most
            (all_words states.old.keys)
            (r.leads_by_class (words staying.now) (words waiting.now) self.now.letters.now)
            (all_words states.new.keys)
            × r.AreLeadsOfClasses self.now.counts (all_words states.new.keys) self.now.letters.now
            (words staying.now) (words waiting.now) k.items
            (all_words self.now.letters.now.kinds.keys)) }
        ensures many { IsErrOf result GraphFault.TooManyStates
            → r.AreMany self.now.counts self.now.most (all_words states.old.keys)
            (r.leads_by_class (words staying.now) (words waiting.now) self.now.letters.now) }
    {
        let mut found = Vec::with_capacity(self.alloc, self.letters.kinds.len())?;
        let mut known = None;
        for kind in self.letters.kinds.as_slice() {
            let leads = self.leads_of_class(states, staying, waiting, kind, known)?;
            known = known_after(known, &leads);
            found.push(leads)?;
        }
        Ok(found)
    }

    /// Where the states lead from a number on, and one more state for each letter by which they lead to it, unless it is there.
    fn expand_from(&self, found: &mut Reached, from: usize) -> Result<(), GraphFault>
        requires most { self.now.most < 2 ^ 32 }
        requires from { from ≤ length (all_words found.old.states.keys) }
        requires few { length (all_words found.old.states.keys) ≤ self.now.most }
        requires led { r.AreLed self.now.counts self.now.letters.now from found.old }
        ensures done { OnOk result (r.IsGrown self.now.counts self.now.most
            (all_words found.old.states.keys)
            (r.leads_from_all self.now.letters.now (drop from (all_words found.old.states.keys)))
            (all_words found.new.states.keys)
            × r.AreLed self.now.counts self.now.letters.now
            (length (all_words found.old.states.keys)) found.new) }
        ensures many { IsErrOf result GraphFault.TooManyStates
            → r.AreMany self.now.counts self.now.most (all_words found.old.states.keys)
            (r.leads_from_all self.now.letters.now (drop from (all_words found.old.states.keys))) }
    {
        let end = found.states.len();
        for number in from..end {
            let leads = self.expand(&mut found.states, number)?;
            found.next.push(leads)?;
        }
        Ok(())
    }

    /// The first state, if it counts.
    fn begun(&self, first: Row) -> Result<Reached, GraphFault>
        requires { self.now.most < 2 ^ 32 }
        ensures done { IfOk result (λ x. r.IsGrown self.now.counts self.now.most []
            (words first ∷ []) (all_words x.states.keys)
            × r.AreLed self.now.counts self.now.letters.now 0 x) }
        ensures many { IsErrOf result GraphFault.TooManyStates
            → r.AreMany self.now.counts self.now.most [] (words first ∷ []) }
    {
        let mut states = IndexSet::new(self.alloc);
        self.keep(&mut states, first)?;
        Ok(Reached {
            states,
            next: Vec::new(self.alloc),
        })
    }

    /// The states that are reached from the first, and where they lead.
    pub(crate) fn reached(&self, first: Row) -> Result<Reached, GraphFault>
        requires { self.now.most < 2 ^ 32 }
        ensures done { IfOk result (λ x. AreReached w.same_words (r.kept_by self.now.counts)
            (r.leads_from self.now.letters.now) (words first) (all_words x.states.keys)
            × (length (all_words x.states.keys) ≤ self.now.most)
            × r.AreLed self.now.counts self.now.letters.now (length (all_words x.states.keys)) x) }
        ensures many { IsErrOf result GraphFault.TooManyStates → (m : ℕ)
            × (self.now.most < length
            (rounds w.same_words (r.kept_by self.now.counts) (r.leads_from self.now.letters.now) m
            (filter (r.kept_by self.now.counts) (words first ∷ [])))) }
    {
        let mut found = self.begun(first)?;
        let mut from = 0;
        while from < found.states.len() {
            let end = found.states.len();
            self.expand_from(&mut found, from)?;
            from = end;
        }
        Ok(found)
    }
}

/// The number of the state where no item moves on, if it was known or is now.
fn known_after(known: Option<Option<u32>>, leads: &Leads) -> Option<Option<u32>>
    ensures { (k : Option ℕ) → result ≡ Some k
        → (seen.lead_alike leads.now ≡ Some k) ⊎ (known ≡ Some k) }
{
    match leads {
        Leads::Alike(number) => Some(*number),
        Leads::BySet(_) => known,
    }
}

/// What stands at a place of a list, or nothing behind its end.
fn known_at(leads: &[Option<u32>], place: usize) -> Option<Option<u32>>
    ensures { result ≡ slice_get leads.now place }
{
    leads.get(place).copied()
}
