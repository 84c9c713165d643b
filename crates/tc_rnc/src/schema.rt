// Whole schemas, as tokens (OASIS, RELAX NG Compact Syntax, 2002: topLevel).
ghost use Rattle.std.specs.Prelude.{◌≡◌, List, [], ◌∷◌, false, map, IfOk, IfErr, MatchBool, MatchOption, codes};
ghost use Rattle.tc_model.specs.CompactSyntax as model;
ghost use Rattle.tc_model.specs.CompactSyntaxNames as names;
ghost use Rattle.tc_model.specs.CompactSyntaxStops as stops;
ghost use Rattle.tc_model.specs.CompactSyntaxTrees as trees;
ghost use Rattle.tc_model.specs.XmlTextScopes.{first_scope};
ghost use Rattle.tc_rnc.specs.Beginnings.{IsPatternAlone};
ghost use Rattle.tc_rnc.specs.Refusals.{Refuses};
ghost use Rattle.tc_rnc.specs.Schemas as schemas;
ghost use Rattle.tc_rnc.specs.Scopes.{scope_of};
ghost use Rattle.tc_rnc.specs.Views as seen;
ghost use Rattle.tc_rnc.specs.declared.faults.RncFault.TheVariants.{NoMemory};

use crate::declarations::declarations;
use crate::definitions::operator;
use crate::faults::{RncFault, first_of, unexpected};
use crate::parser::Parser;
use crate::patterns::goes_on;
use crate::scopes::Scope;
use crate::syntax::{Def, Joins, SPat};
use crate::tokens::{End, Token};
use bumpalo::Bump;
use bumpalo::collections::into_bump_slice;
use tc_base::limits::DEEPEST_NESTING;
use tc_base::{Place, Why};

/// Whether the tokens begin with definitions and not with a pattern, as far as one can tell.
fn is_definitions(tokens: &[Token<'_>]) -> bool
    ensures { MatchBool result (stops.BeginsDefinitions (seen.tokens tokens.now))
        (schemas.LacksDefinitions (seen.tokens tokens.now)) }
{
    let Some((first, rest)) = first_of(tokens) else {
        return true;
    };
    if first.is_name("start") {
        return true;
    }
    if first.is_name("div") {
        return true;
    }
    if first.is_name("include") {
        return true;
    }
    let Some(_name) = first.identifier() else {
        return false;
    };
    match operator(rest) {
        Some(_) => true,
        None => false,
    }
}

/// The word `grammar` that stands first, and what follows it.
fn grammar_at<'s, 't>(tokens: &'s [Token<'t>]) -> Option<(&'s Token<'t>, &'s [Token<'t>])>
    ensures { MatchOption result (stops.LacksWord (codes "grammar") (seen.tokens tokens.now))
        (λ r. (seen.tokens tokens.now ≡ seen.token r.0.now ∷ seen.tokens r.1.now)
        × names.IsWord (codes "grammar") (seen.token r.0.now)) }
{
    let (first, rest) = first_of(tokens)?;
    if first.is_name("grammar") {
        Some((first, rest))
    } else {
        None
    }
}

/// The definition of `start` by a pattern that is the whole schema.
fn start_alone<'b>(arena: &'b Bump, body: SPat<'b>) -> Result<&'b [Def<'b>], RncFault>
    ensures ok { IfOk result (λ r. map seen.definition r.now
        ≡ model.one_definition [] trees.plain (seen.pattern body.entry) 0) }
    ensures no { IfErr result (λ e. e ≡ NoMemory) }
{
    let defs: &'b [Def<'b>] = arena.try_alloc_slice_copy(&[Def {
        name: "",
        joins: Joins::Plain,
        body,
        place: Place(0),
    }])?;
    Ok(defs)
}

impl<'b> Parser<'b> {
    /// Reads one pattern, which defines `start`.
    fn whole_pattern<'s, 't>(&self, tokens: &'s [Token<'t>]) -> Result<&'b [Def<'b>], RncFault>
        requires { IsPatternAlone (seen.tokens tokens.now) }
        ensures ok { IfOk result
            (λ r. model.SchemaAt false (scope_of self.now.scope) DEEPEST_NESTING
            (seen.tokens tokens.now)
            (map seen.definition r.now)) }
        ensures no { IfErr result
            (Refuses
            (stops.SchemaStops (seen.end self.now.end) (scope_of self.now.scope) DEEPEST_NESTING
            (seen.tokens tokens.now))) }
    {
        let (body, rest) = self.pattern(tokens, DEEPEST_NESTING)?;
        if let Some(_) = first_of(rest) {
            return Err(unexpected(rest, self.end));
        }
        start_alone(self.arena, body)
    }

    /// Reads definitions, up to the end.
    fn whole_definitions<'s, 't>(&self, tokens: &'s [Token<'t>]) -> Result<&'b [Def<'b>], RncFault>
        requires { stops.BeginsDefinitions (seen.tokens tokens.now) }
        ensures ok { IfOk result
            (λ r. model.SchemaAt false (scope_of self.now.scope) DEEPEST_NESTING
            (seen.tokens tokens.now)
            (map seen.definition r.now)) }
        ensures no { IfErr result
            (Refuses
            (stops.SchemaStops (seen.end self.now.end) (scope_of self.now.scope) DEEPEST_NESTING
            (seen.tokens tokens.now))) }
    {
        let mut defs = Vec::new(self.arena);
        let rest = self.definitions(&mut defs, tokens, DEEPEST_NESTING)?;
        if let Some(_) = first_of(rest) {
            return Err(unexpected(rest, self.end));
        }
        Ok(into_bump_slice(defs))
    }

    /// Reads a grammar within braces after its word, up to the end.
    fn whole_grammar<'s, 't>(
        &self,
        word: &Token<'t>,
        rest: &'s [Token<'t>],
    ) -> Result<&'b [Def<'b>], RncFault>
        requires { names.IsWord (codes "grammar") (seen.token word.now) }
        ensures ok { IfOk result
            (λ r. model.SchemaAt false (scope_of self.now.scope) DEEPEST_NESTING
            (seen.token word.now ∷ seen.tokens rest.now) (map seen.definition r.now)) }
        ensures no { IfErr result
            (Refuses
            (stops.SchemaStops (seen.end self.now.end) (scope_of self.now.scope) DEEPEST_NESTING
            (seen.token word.now ∷ seen.tokens rest.now))) }
    {
        let mut defs = Vec::new(self.arena);
        let after = self.braced_definitions(&mut defs, rest, DEEPEST_NESTING)?;
        if goes_on(after) {
            return Err(RncFault::Unsupported(word.place, Why::NestedGrammar));
        }
        if let Some(_) = first_of(after) {
            return Err(unexpected(after, self.end));
        }
        Ok(into_bump_slice(defs))
    }

    /// Reads what follows the declarations.
    fn top_level_body<'s, 't>(&self, tokens: &'s [Token<'t>]) -> Result<&'b [Def<'b>], RncFault>
        requires { schemas.LacksDeclaration (seen.tokens tokens.now) }
        ensures ok { IfOk result
            (λ r. model.SchemaAt false (scope_of self.now.scope) DEEPEST_NESTING
            (seen.tokens tokens.now)
            (map seen.definition r.now)) }
        ensures no { IfErr result
            (Refuses
            (stops.SchemaStops (seen.end self.now.end) (scope_of self.now.scope) DEEPEST_NESTING
            (seen.tokens tokens.now))) }
    {
        if let Some((word, rest)) = grammar_at(tokens) {
            return self.whole_grammar(word, rest);
        }
        if is_definitions(tokens) {
            return self.whole_definitions(tokens);
        }
        self.whole_pattern(tokens)
    }
}

/// The definitions of a schema, whose tokens these are.
pub fn top_level<'b, 's, 't>(
    arena: &'b Bump,
    tokens: &'s [Token<'t>],
    end: End,
) -> Result<&'b [Def<'b>], RncFault>
    ensures ok { IfOk result
        (λ r. model.SchemaAt false first_scope DEEPEST_NESTING (seen.tokens tokens.now)
        (map seen.definition r.now)) }
    ensures no { IfErr result
        (Refuses
        (stops.SchemaStops (seen.end end) first_scope DEEPEST_NESTING (seen.tokens tokens.now))) }
{
    let mut scope = Scope::first(arena)?;
    let rest = declarations(arena, &mut scope, tokens, end)?;
    let parser = Parser { arena, scope, end };
    parser.top_level_body(rest)
}
