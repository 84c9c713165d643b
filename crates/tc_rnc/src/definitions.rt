// Definitions (OASIS, RELAX NG Compact Syntax, 2002: grammarContent, start, define, assignMethod).
ghost use Rattle.std.specs.Prelude.{◌≡◌, ◌++◌, ◌+◌, ◌∷◌, List, false, map, IfOk, IfErr, MatchBool, MatchOption, codes};
ghost use Rattle.tc_model.specs.CompactSyntax as syntax;
ghost use Rattle.tc_model.specs.CompactSyntaxNames as names;
ghost use Rattle.tc_model.specs.CompactSyntaxTokens as model;
ghost use Rattle.tc_model.specs.CompactSyntaxTrees as trees;
ghost use Rattle.tc_model.specs.Views.{place as seen_place};
ghost use Rattle.tc_rnc.specs.Blocks as blocks;
ghost use Rattle.tc_model.specs.CompactSyntaxStops as stops;
ghost use Rattle.tc_model.specs.CompactSyntaxUnread as unread;
ghost use Rattle.tc_rnc.specs.Beginnings.{IsNoDefinition};
ghost use Rattle.tc_rnc.specs.Refusals.{Refuses};
ghost use Rattle.tc_rnc.specs.Stops as parts;
ghost use Rattle.tc_rnc.specs.Scopes.{scope_of};
ghost use Rattle.tc_rnc.specs.Views as seen;
ghost use Rattle.tc_rnc.specs.declared.faults.RncFault.TheVariants.{NoMemory};

use crate::faults::{RncFault, first_of, unexpected};
use crate::marks::{after_mark, after_word};
use crate::parser::Parser;
use crate::patterns::opened;
use crate::syntax::{Def, Joins, SPat};
use crate::tokens::{End, Token};
use bumpalo::Bump;
use tc_base::{Place, Why};

/// What follows the two marks of an operator, if the second one stands directly after this first one.
fn after_equals<'s, 't>(first: &Token<'t>, rest: &'s [Token<'t>]) -> Option<&'s [Token<'t>]>
    ensures { MatchOption result
        ((u : model.Token) (after : List model.Token) → seen.tokens rest.now ≡ u ∷ after
        → names.IsMark 61 u → u.place ≡ first.now.place.0 + 1 → ⊥)
        (λ r. (u : model.Token) × (seen.tokens rest.now ≡ u ∷ seen.tokens r.now)
        × names.IsMark 61 u × (u.place ≡ first.now.place.0 + 1)) }
{
    let (second, after) = first_of(rest)?;
    if !second.is_mark('=') {
        return None;
    }
    if second.follows(first, 1) {
        Some(after)
    } else {
        None
    }
}

/// The operator that stands first, and what follows it.
pub fn operator<'s, 't>(tokens: &'s [Token<'t>]) -> Option<(Joins, &'s [Token<'t>])>
    ensures { MatchOption result
        ((j : trees.Joins) (after : List model.Token)
        → syntax.OperatorAt (seen.tokens tokens.now) j after → ⊥)
        (λ r. syntax.OperatorAt (seen.tokens tokens.now) (seen.joins r.0) (seen.tokens r.1.now)) }
{
    let (first, rest) = first_of(tokens)?;
    if first.is_mark('=') {
        return Some((Joins::Plain, rest));
    }
    if first.is_mark('|') {
        let after = after_equals(first, rest)?;
        return Some((Joins::Choice, after));
    }
    if first.is_mark('&') {
        let after = after_equals(first, rest)?;
        return Some((Joins::Interleave, after));
    }
    None
}

/// The name of the definition that begins with this token; that of `start` is empty.
fn defined_name<'t>(first: &Token<'t>) -> Option<&'t str>
    ensures { MatchOption result (blocks.DefinesNothing (seen.token first.now))
        (λ n. blocks.Defines (seen.token first.now) n.now) }
{
    if first.is_name("start") {
        return Some("");
    }
    first.identifier()
}

/// Whether definitions end here.
fn is_end(tokens: &[Token<'_>]) -> bool
    ensures { MatchBool result (blocks.IsEndOfDefinitions (seen.tokens tokens.now))
        (blocks.IsEndOfDefinitions (seen.tokens tokens.now) → ⊥) }
{
    match first_of(tokens) {
        Some((first, _)) => first.is_mark('}'),
        None => true,
    }
}

/// The refusal of what stands where a definition should.
fn no_definition(first: &Token<'_>, tokens: &[Token<'_>], end: End) -> RncFault
    requires { IsNoDefinition (seen.token first.now) (seen.tokens tokens.now) }
    ensures { Refuses (unread.NoDefinition (seen.end end) (seen.tokens tokens.now)) result }
{
    if first.is_name("include") {
        return RncFault::Unsupported(first.place, Why::Include);
    }
    unexpected(tokens, end)
}

/// A definition of this name.
fn made<'b>(
    arena: &'b Bump,
    name: &str,
    joins: Joins,
    body: SPat<'b>,
    place: Place,
) -> Result<Def<'b>, RncFault>
    ensures ok { IfOk result
        (λ d. seen.definition d
        ≡ record {
          name = name.now;
          joins = seen.joins joins;
          body = seen.pattern body.entry;
          place =
              seen_place place;
        }) }
    ensures no { IfErr result (λ e. e ≡ NoMemory) }
{
    let name: &'b str = arena.try_alloc_str(name)?;
    Ok(Def {
        name,
        joins,
        body,
        place,
    })
}

impl<'b> Parser<'b> {
    /// An operator and a pattern, and what follows them.
    fn assigned<'s, 't>(
        &self,
        tokens: &'s [Token<'t>],
        deepest: u32,
    ) -> Result<(Joins, SPat<'b>, &'s [Token<'t>]), RncFault>
        ensures ok { IfOk result
            (λ r. blocks.AssignedAt false (scope_of self.now.scope) deepest
            (seen.tokens tokens.now) (seen.joins r.0) (seen.pattern r.1) (seen.tokens r.2.now)) }
        ensures no { IfErr result
            (Refuses
            (parts.AssignedStops (seen.end self.now.end) (scope_of self.now.scope) deepest
            (seen.tokens tokens.now))) }
    {
        let Some((joins, rest)) = operator(tokens) else {
            return Err(unexpected(tokens, self.end));
        };
        let (body, after) = self.pattern(rest, deepest)?;
        Ok((joins, body, after))
    }

    /// Reads a definition of `start` or of a name, and gives what follows it.
    fn definition<'s, 't>(
        &self,
        defs: &mut Vec<Def<'b>, &'b Bump>,
        tokens: &'s [Token<'t>],
        deepest: u32,
    ) -> Result<&'s [Token<'t>], RncFault>
        requires more { blocks.IsEndOfDefinitions (seen.tokens tokens.now) → ⊥ }
        requires no_div { stops.LacksWord (codes "div") (seen.tokens tokens.now) }
        ensures ok { IfOk result (λ r. (ds : List trees.Definition)
            × (map seen.definition defs.new.items ≡ map seen.definition defs.old.items ++ ds)
            × syntax.DefinitionAt false (scope_of self.now.scope) deepest
            (seen.tokens tokens.now) ds (seen.tokens r.now)) }
        ensures no { IfErr result
            (Refuses
            (stops.DefinitionStops (seen.end self.now.end) (scope_of self.now.scope) deepest
            (seen.tokens tokens.now))) }
    {
        let Some((first, rest)) = first_of(tokens) else {
            return Err(unexpected(tokens, self.end));
        };
        let Some(name) = defined_name(first) else {
            return Err(no_definition(first, tokens, self.end));
        };
        let (joins, body, after) = self.assigned(rest, deepest)?;
        let def = made(self.arena, name, joins, body, first.place)?;
        defs.push(def)?;
        Ok(after)
    }

    /// Reads definitions up to a brace or the end, and gives what follows them.
    #[cycle(grammar_content)]
    pub fn definitions<'s, 't>(
        &self,
        defs: &mut Vec<Def<'b>, &'b Bump>,
        tokens: &'s [Token<'t>],
        deepest: u32,
    ) -> Result<&'s [Token<'t>], RncFault>
        ensures ok { IfOk result (λ r. (ds : List trees.Definition)
            × (map seen.definition defs.new.items ≡ map seen.definition defs.old.items ++ ds)
            × syntax.DefinitionsAt false (scope_of self.now.scope) deepest
            (seen.tokens tokens.now) ds (seen.tokens r.now)) }
        ensures no { IfErr result
            (Refuses
            (stops.DefinitionsStop (seen.end self.now.end) (scope_of self.now.scope) deepest
            (seen.tokens tokens.now))) }
    {
        let mut rest = tokens.split_at(0).1;
        loop {
            if is_end(rest) {
                return Ok(rest);
            }
            let after = self.grammar_content(defs, rest, deepest)?;
            rest = after;
        }
    }

    /// Reads a definition or a `div`, and gives what follows it.
    #[cycle(grammar_content)]
    fn grammar_content<'s, 't>(
        &self,
        defs: &mut Vec<Def<'b>, &'b Bump>,
        tokens: &'s [Token<'t>],
        deepest: u32,
    ) -> Result<&'s [Token<'t>], RncFault>
        requires { blocks.IsEndOfDefinitions (seen.tokens tokens.now) → ⊥ }
        ensures ok { IfOk result (λ r. (ds : List trees.Definition)
            × (map seen.definition defs.new.items ≡ map seen.definition defs.old.items ++ ds)
            × syntax.DefinitionAt false (scope_of self.now.scope) deepest
            (seen.tokens tokens.now) ds (seen.tokens r.now)) }
        ensures no { IfErr result
            (Refuses
            (stops.DefinitionStops (seen.end self.now.end) (scope_of self.now.scope) deepest
            (seen.tokens tokens.now))) }
    {
        if let Some(rest) = after_word(tokens, "div") {
            return self.braced_definitions(defs, rest, deepest);
        }
        self.definition(defs, tokens, deepest)
    }

    /// Reads definitions within braces, and gives what follows them.
    #[cycle(grammar_content)]
    pub fn braced_definitions<'s, 't>(
        &self,
        defs: &mut Vec<Def<'b>, &'b Bump>,
        tokens: &'s [Token<'t>],
        deepest: u32,
    ) -> Result<&'s [Token<'t>], RncFault>
        ensures ok { IfOk result (λ r. (ds : List trees.Definition)
            × (map seen.definition defs.new.items ≡ map seen.definition defs.old.items ++ ds)
            × stops.BlockAt false (scope_of self.now.scope) deepest (seen.tokens tokens.now) ds
            (seen.tokens r.now)) }
        ensures no { IfErr result
            (Refuses
            (stops.BlockStops (seen.end self.now.end) (scope_of self.now.scope) deepest
            (seen.tokens tokens.now))) }
    {
        let (inside, deeper) = opened('{', tokens, self.end, deepest)?;
        let closing = self.definitions(defs, inside, deeper)?;
        match after_mark(closing, '}') {
            Some(after) => Ok(after),
            None => Err(unexpected(closing, self.end)),
        }
    }
}
