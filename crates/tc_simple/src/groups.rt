// Definitions by their names.
ghost use Rattle.std.specs.Prelude.{◌≡◌, ◌∷◌, ◌++◌, [], List, IfOk, OnOk, map};
ghost use Rattle.tc_model.specs.CompactSyntaxTrees as t;
ghost use Rattle.tc_model.specs.SimplifiesFaults.{clash};
ghost use Rattle.tc_model.specs.Views.{place as see_place};
ghost use Rattle.tc_rnc.specs.Views.{definition, pattern, joins as see_joins, syntax as see_syntax};
ghost use Rattle.tc_simple.specs.Places.{or_clash, maybe_place};

use bumpalo::Bump;
use std::collections::BTreeMap;
use tc_base::{NoMemory, Place};
use tc_rnc::{Def, Joins, SPat, Syntax};

/// The definitions of one name, in order, of which there is one at least.
#[derive(Drop)]
pub struct Group<'b> {
    pub name: &'b str,
    pub bodies: Vec<SPat<'b>, &'b Bump>,
    /// One of them has no operator.
    pub is_plain: bool,
    pub is_choice: bool,
    pub is_interleave: bool,
}

impl<'b> Group<'b> {
    ghost use Rattle.tc_simple.specs.Groups.{IsGroup, Notes, StartsGroup, any_of};

    /// The group of one definition.
    fn of(arena: &'b Bump, def: &Def<'b>) -> Result<Group<'b>, NoMemory>
        ensures { IfOk result (λ g. StartsGroup (definition def.now) g) }
    {
        Ok(Group {
            name: def.name,
            bodies: Vec::from_slice(arena, &[def.body])?,
            is_plain: def.joins == Joins::Plain,
            is_choice: def.joins == Joins::Choice,
            is_interleave: def.joins == Joins::Interleave,
        })
    }

    /// Whether a definition with this operator clashes with one of them.
    fn clashes(&self, joins: Joins) -> bool
        ensures { (front : List t.Definition) → IsGroup front self.now → result
            ≡ any_of (λ j. clash j (see_joins joins)) self.now.name.now front }
    {
        match joins {
            Joins::Plain => self.is_plain,
            Joins::Choice => self.is_interleave,
            Joins::Interleave => self.is_choice,
        }
    }

    /// Notes the operator of one more definition.
    fn note(&mut self, joins: Joins)
        ensures { Notes (see_joins joins) self.old self.new }
    {
        match joins {
            Joins::Plain => self.is_plain = true,
            Joins::Choice => self.is_choice = true,
            Joins::Interleave => self.is_interleave = true,
        }
    }

    /// One more definition.
    fn add(&mut self, def: &Def<'b>) -> Result<(), NoMemory>
        ensures group { OnOk result
            ((front : List t.Definition) → IsGroup front self.old → self.old.name.now
            ≡ def.now.name.now → IsGroup (front ++ definition def.now ∷ []) self.new) }
        ensures name { self.new.name ≡ self.old.name }
    {
        self.bodies.push(def.body)?;
        self.note(def.joins);
        Ok(())
    }
}

/// All definitions by their names, which are numbered in the order of the text.
#[derive(Drop)]
pub struct Gathered<'b> {
    pub numbers: BTreeMap<&'b str, usize, &'b Bump>,
    pub groups: Vec<Group<'b>, &'b Bump>,
    /// The place of the first that clashes with an earlier one of its name.
    pub clash: Option<Place>,
}

impl<'b> Gathered<'b> {
    ghost use Rattle.std.specs.Prelude.{◌<◌, length, None, Some, bytes_eq, slice_index_or, slice_set};
    ghost use Rattle.tc_simple.specs.Gathered.{Begins, Grows, IsGathered, number_in};

    /// The number of a name, if it has a definition.
    fn number(&self, name: &'b str) -> Option<usize>
        ensures { result ≡ number_in self.now.numbers name.now }
    {
        self.numbers.get(&name).copied()
    }

    /// The first definition of a name.
    fn begin(&mut self, arena: &'b Bump, def: &Def<'b>) -> Result<(), NoMemory>
        requires { number_in self.old.numbers def.now.name.now ≡ None }
        ensures { OnOk result (Begins (definition def.now) self.old self.new) }
    {
        let number = self.groups.len();
        let group = Group::of(arena, def)?;
        self.groups.push(group)?;
        self.numbers.insert(def.name, number)?;
        Ok(())
    }

    /// A further definition of a name.
    fn grow(&mut self, number: usize, def: &Def<'b>) -> Result<(), NoMemory>
        requires { number < length self.old.groups.items }
        ensures { OnOk result (Grows number (definition def.now) self.old self.new) }
    {
        let group = &mut self.groups[number];
        let clashes = group.clashes(def.joins);
        group.add(def)?;
        self.clash = earlier(self.clash, clashes, def.place);
        Ok(())
    }

    /// A definition more.
    fn take(&mut self, arena: &'b Bump, def: &Def<'b>) -> Result<(), NoMemory>
        requires { (front : List t.Definition) × IsGathered front self.old }
        ensures { OnOk result ((front : List t.Definition) → IsGathered front self.old
            → IsGathered (front ++ definition def.now ∷ []) self.new) }
    {
        match self.number(def.name) {
            None => self.begin(arena, def),
            Some(number) => self.grow(number, def),
        }
    }
}

/// The first clash, where there may be one more.
fn earlier(clash: Option<Place>, clashes: bool, place: Place) -> Option<Place>
    ensures { maybe_place result ≡ or_clash (maybe_place clash) clashes (see_place place) }
{
    match clash {
        None if clashes => Some(place),
        _ => clash,
    }
}

ghost use Rattle.tc_simple.specs.Gathered.{IsGathered};
ghost use Rattle.tc_simple.specs.Tables.{joined_of};

/// All definitions by their names.
fn gather<'b>(arena: &'b Bump, syntax: &Syntax<'b>) -> Result<Gathered<'b>, NoMemory>
    ensures { IfOk result (λ g. IsGathered (see_syntax syntax.now).definitions g) }
{
    let mut gathered = Gathered {
        numbers: BTreeMap::new(arena),
        groups: Vec::new(arena),
        clash: None,
    };
    for def in syntax.defs {
        gathered.take(arena, def)?;
    }
    Ok(gathered)
}

/// The pattern of a group.
fn joined<'b>(arena: &'b Bump, group: &Group<'b>) -> Result<SPat<'b>, NoMemory>
    ensures { IfOk result (λ p. pattern p ≡ joined_of group.now.is_choice group.now.bodies.items) }
{
    let bodies = group.bodies.as_slice();
    if bodies.len() == 1 {
        return Ok(bodies[0]);
    }
    let bodies = arena.try_alloc_slice_copy(bodies)?;
    if group.is_choice {
        Ok(SPat::Choice(bodies))
    } else {
        Ok(SPat::Interleave(bodies))
    }
}

/// The patterns of groups.
fn joined_all<'b>(
    arena: &'b Bump,
    groups: &[Group<'b>],
) -> Result<Vec<SPat<'b>, &'b Bump>, NoMemory>
    ensures { IfOk result
        (λ v. map pattern v.items ≡ map (λ g. joined_of g.is_choice g.bodies.items) groups.now) }
{
    let mut patterns = Vec::new(arena);
    for group in groups {
        let pattern = joined(arena, group)?;
        patterns.push(pattern)?;
    }
    Ok(patterns)
}

/// What each name stands for.
#[derive(Drop)]
pub struct Table<'b> {
    pub numbers: BTreeMap<&'b str, usize, &'b Bump>,
    pub patterns: Vec<SPat<'b>, &'b Bump>,
    /// The place of the first definition that clashes with an earlier one of its name.
    pub clash: Option<Place>,
}

impl<'b> Table<'b> {
    ghost use Rattle.tc_simple.specs.Tables.{IsTable, number_of};

    /// Joins all definitions by their names.
    pub fn of(arena: &'b Bump, syntax: &Syntax<'b>) -> Result<Table<'b>, NoMemory>
        ensures { IfOk result (λ t. IsTable (see_syntax syntax.now) t) }
    {
        let gathered = gather(arena, syntax)?;
        let patterns = joined_all(arena, &gathered.groups)?;
        let Gathered {
            numbers,
            groups: _,
            clash,
        } = gathered;
        Ok(Table {
            numbers,
            patterns,
            clash,
        })
    }

    /// The number of a name, if it is defined.
    pub fn number(&self, name: &'b str) -> Option<usize>
        ensures { result ≡ number_of self.now name.now }
    {
        self.numbers.get(&name).copied()
    }
}
