// Name classes.
ghost use Rattle.std.specs.Prelude.{◌≡◌, [], ℕ, List, None, Some, IfOk, IfErr, MatchOption};
ghost use Rattle.tc_model.specs.CompactSyntaxNames as names;
ghost use Rattle.tc_model.specs.CompactSyntaxTrees as trees;
ghost use Rattle.tc_model.specs.Views.{name};
ghost use Rattle.tc_model.specs.XmlTextScopes as xml;
ghost use Rattle.tc_model.specs.CompactSyntaxStops as stops;
ghost use Rattle.tc_rnc.specs.Readings as reading;
ghost use Rattle.tc_rnc.specs.Refusals.{Refuses};
ghost use Rattle.tc_rnc.specs.Stops as parts;
ghost use Rattle.tc_rnc.specs.Scopes.{scope_of};
ghost use Rattle.tc_rnc.specs.Views as seen;
ghost use Rattle.tc_rnc.specs.Wildcards.{ExceptsNothing};
ghost use Rattle.tc_rnc.specs.declared.faults.RncFault.TheVariants.{NoMemory};

use crate::faults::{RncFault, first_of, unexpected};
use crate::marks::after_mark;
use crate::parser::Parser;
use crate::scopes::Scope;
use crate::syntax::SClass;
use crate::tokens::{Token, Word};
use crate::wildcards::{all_excepting, wildcard_at, within_wildcards};
use crate::words::up_to_or_all;
use bumpalo::collections::into_bump_slice;
use tc_model::Name;

/// The namespace and local part of the name for which a word stands, or nothing where it stands for none.
fn parts_of<'b, 't>(scope: &Scope<'b>, word: Word<'t>) -> Option<(&'b str, &'t str)>
    ensures { MatchOption result (names.name_in (scope_of scope.now) (seen.word word.entry) ≡ None)
        (λ r. names.name_in (scope_of scope.now) (seen.word word.entry)
        ≡ Some (record { uri = r.0.now; local = r.1.now })) }
{
    match word {
        Word::Name(n) | Word::Escaped(n) => Some((default_of(scope), n)),
        Word::Prefixed(name) => {
            let (prefix, local) = up_to_or_all(name, ":");
            Some((scope.uri_of(prefix)?, local))
        }
        _ => None,
    }
}

/// The default namespace, which is none where it isn't declared.
fn default_of<'b>(scope: &Scope<'b>) -> &'b str
    ensures { result.now ≡ names.or_none (xml.uri_of (scope_of scope.now) []) }
{
    match scope.uri_of("") {
        Some(uri) => uri,
        None => "",
    }
}

impl<'b> Parser<'b> {
    /// A name class, and what follows it; parentheses may stand so deep.
    #[cycle(name_class)]
    pub fn name_class<'s, 't>(
        &self,
        tokens: &'s [Token<'t>],
        deepest: u32,
    ) -> Result<(SClass<'b>, &'s [Token<'t>]), RncFault>
        ensures ok { IfOk result (λ r. names.ClassAt (scope_of self.now.scope) deepest
            (seen.tokens tokens.now) (seen.class r.0) (seen.tokens r.1.now)) }
        ensures no { IfErr result (Refuses
            (stops.ClassStops (seen.end self.now.end) (scope_of self.now.scope) deepest
            (seen.tokens tokens.now))) }
    {
        let (first, rest) = self.simple_name_class(tokens, deepest)?;
        let Some(behind) = after_mark(rest, '|') else {
            return Ok((first, rest));
        };
        let (all, after) = self.name_classes(first, behind, deepest)?;
        Ok((SClass::Choice(all), after))
    }

    /// This class and those after its bar, with bars between, and what follows them.
    #[cycle(name_class)]
    fn name_classes<'s, 't>(
        &self,
        first: SClass<'b>,
        tokens: &'s [Token<'t>],
        deepest: u32,
    ) -> Result<(&'b [SClass<'b>], &'s [Token<'t>]), RncFault>
        ensures ok { IfOk result (λ r. (cs : trees.SyntaxClasses)
            × (seen.classes r.0.now ≡ trees.class (seen.class first.entry) cs)
            × names.ClassesAt (scope_of self.now.scope) deepest (seen.tokens tokens.now) cs
            (seen.tokens r.1.now)) }
        ensures no { IfErr result (Refuses
            (stops.ClassStops (seen.end self.now.end) (scope_of self.now.scope) deepest
            (seen.tokens tokens.now))) }
    {
        let mut all = Vec::from_slice(self.arena, &[first])?;
        let mut rest = tokens.split_at(0).1;
        loop {
            let (next, after) = self.simple_name_class(rest, deepest)?;
            all.push(next)?;
            let Some(behind) = after_mark(after, '|') else {
                return Ok((into_bump_slice(all), after));
            };
            rest = behind;
        }
    }

    /// The name for which a word stands, or nothing where it stands for none.
    fn name(&self, word: Word<'_>) -> Result<Option<Name<'b>>, RncFault>
        ensures ok { IfOk result
            (λ o. MatchOption o
            (names.name_in (scope_of self.now.scope) (seen.word word.entry) ≡ None)
            (λ n. names.name_in (scope_of self.now.scope) (seen.word word.entry) ≡ Some (name n))) }
        ensures no { IfErr result (λ e. e ≡ NoMemory) }
    {
        let Some((uri, local)) = parts_of(&self.scope, word) else {
            return Ok(None);
        };
        let local: &'b str = self.arena.try_alloc_str(local)?;
        Ok(Some(Name { uri, local }))
    }

    /// A name class without bars but in parentheses, and what follows it.
    #[cycle(name_class)]
    fn simple_name_class<'s, 't>(
        &self,
        tokens: &'s [Token<'t>],
        deepest: u32,
    ) -> Result<(SClass<'b>, &'s [Token<'t>]), RncFault>
        ensures ok { IfOk result (λ r. names.SimpleAt (scope_of self.now.scope) deepest
            (seen.tokens tokens.now) (seen.class r.0) (seen.tokens r.1.now)) }
        ensures no { IfErr result (Refuses
            (stops.SimpleStops (seen.end self.now.end) (scope_of self.now.scope) deepest
            (seen.tokens tokens.now))) }
    {
        let (wildcards, rest) = all_excepting(self.arena, &self.scope, tokens)?;
        let (excepted, after) = self.innermost_name_class(rest, deepest)?;
        let class = within_wildcards(self.arena, wildcards, excepted)?;
        Ok((class, after))
    }

    /// The same where no wildcard with a minus sign behind it stands first.
    #[cycle(name_class)]
    fn innermost_name_class<'s, 't>(
        &self,
        tokens: &'s [Token<'t>],
        deepest: u32,
    ) -> Result<(SClass<'b>, &'s [Token<'t>]), RncFault>
        requires { ExceptsNothing (scope_of self.now.scope) (seen.tokens tokens.now) }
        ensures ok { IfOk result (λ r. names.SimpleAt (scope_of self.now.scope) deepest
            (seen.tokens tokens.now) (seen.class r.0) (seen.tokens r.1.now)) }
        ensures no { IfErr result (Refuses
            (stops.SimpleStops (seen.end self.now.end) (scope_of self.now.scope) deepest
            (seen.tokens tokens.now))) }
    {
        if let Some((wildcard, rest)) = wildcard_at(&self.scope, tokens) {
            return Ok((wildcard.without(&[]), rest));
        }
        let Some((first, rest)) = first_of(tokens) else {
            return Err(unexpected(tokens, self.end));
        };
        if first.is_mark('(') {
            if deepest == 0 {
                return Err(RncFault::TooDeep(first.place));
            }
            return self.closed_name_class(rest, deepest - 1);
        }
        match self.name(first.word)? {
            Some(name) => Ok((SClass::Name(name), rest)),
            None => Err(unexpected(tokens, self.end)),
        }
    }

    /// A name class and the parenthesis that closes it, and what follows.
    #[cycle(name_class)]
    fn closed_name_class<'s, 't>(
        &self,
        tokens: &'s [Token<'t>],
        deepest: u32,
    ) -> Result<(SClass<'b>, &'s [Token<'t>]), RncFault>
        ensures ok { IfOk result (λ r. reading.ClosedClassAt (scope_of self.now.scope) deepest
            (seen.tokens tokens.now) (seen.class r.0) (seen.tokens r.1.now)) }
        ensures no { IfErr result (Refuses
            (parts.ClosedClassStops (seen.end self.now.end) (scope_of self.now.scope) deepest
            (seen.tokens tokens.now))) }
    {
        let (inner, closing) = self.name_class(tokens, deepest)?;
        let Some(after) = after_mark(closing, ')') else {
            return Err(unexpected(closing, self.end));
        };
        Ok((inner, after))
    }
}
