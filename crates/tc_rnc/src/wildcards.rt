// Wildcards in name classes, and what is excepted from them.
// The syntax of RELAX NG sets excepts no limit, and in an attribute any number of them means something. So
// wildcards with a minus sign behind them are gathered in a loop, and put around the class behind them from
// the last to the first; parentheses alone go deeper in calls. In an element's name class a third one is
// `bad-except`, told before anything else walks it.
ghost use Rattle.std.specs.Prelude.{◌≡◌, ℕ, List, IfOk, IfErr, MatchOption};
ghost use Rattle.tc_model.specs.CompactSyntaxTokens as model;
ghost use Rattle.tc_rnc.specs.Scopes.{scope_of};
ghost use Rattle.tc_rnc.specs.Views as seen;
ghost use Rattle.tc_rnc.specs.Wildcards.{around, without, BeginsNoWildcard, ExceptsNothing, ExceptingAt, ExceptsAt, WildcardAt};
ghost use Rattle.tc_rnc.specs.declared.faults.RncFault.TheVariants.{NoMemory};

use crate::faults::{RncFault, first_of};
use crate::marks::after_mark;
use crate::scopes::Scope;
use crate::syntax::SClass;
use crate::tokens::{Token, Word};
use bumpalo::Bump;
use bumpalo::collections::into_bump_slice;
use tc_base::Place;

/// A wildcard as it stands at a place: all names of a namespace, or all names.
#[derive(Clone, Copy)]
pub enum Wildcard<'b> {
    Ns(Place, &'b str),
    Any(Place),
}

impl<'b> Wildcard<'b> {
    /// The class of its names without those of the class that is excepted, if there is one.
    pub fn without(self, except: &'b [SClass<'b>]) -> SClass<'b>
        ensures { seen.class result ≡ without self.entry (seen.classes except.now) }
    {
        match self {
            Wildcard::Ns(place, uri) => SClass::Ns(place, uri, except),
            Wildcard::Any(place) => SClass::Any(place, except),
        }
    }
}

/// The prefix of all names of its namespace.
fn prefix_of_all<'t>(word: Word<'t>) -> Option<&'t str>
    ensures { MatchOption result ((p : List ℕ) → seen.word word.entry ≡ model.all_of p → ⊥)
        (λ p. seen.word word.entry ≡ model.all_of p.now) }
{
    match word {
        Word::AllOf(prefix) => Some(prefix),
        _ => None,
    }
}

/// The wildcard that stands first, its prefix bound if it has one, and what follows it.
pub fn wildcard_at<'b, 's, 't>(
    scope: &Scope<'b>,
    tokens: &'s [Token<'t>],
) -> Option<(Wildcard<'b>, &'s [Token<'t>])>
    ensures { MatchOption result (BeginsNoWildcard (scope_of scope.now) (seen.tokens tokens.now))
        (λ r. WildcardAt (scope_of scope.now) (seen.tokens tokens.now) r.0 (seen.tokens r.1.now)) }
{
    let (first, rest) = first_of(tokens)?;
    if first.is_mark('*') {
        return Some((Wildcard::Any(first.place), rest));
    }
    let prefix = prefix_of_all(first.word)?;
    let uri = scope.uri_of(prefix)?;
    Some((Wildcard::Ns(first.place, uri), rest))
}

/// The wildcard that stands first with a minus sign behind it, and what follows that.
fn excepting_at<'b, 's, 't>(
    scope: &Scope<'b>,
    tokens: &'s [Token<'t>],
) -> Option<(Wildcard<'b>, &'s [Token<'t>])>
    ensures { MatchOption result (ExceptsNothing (scope_of scope.now) (seen.tokens tokens.now))
        (λ r. ExceptingAt (scope_of scope.now) (seen.tokens tokens.now) r.0
        (seen.tokens r.1.now)) }
{
    let (wildcard, rest) = wildcard_at(scope, tokens)?;
    let behind = after_mark(rest, '-')?;
    Some((wildcard, behind))
}

/// All wildcards at the front that have a minus sign behind them, and what follows the last sign.
pub fn all_excepting<'b, 's, 't>(
    arena: &'b Bump,
    scope: &Scope<'b>,
    tokens: &'s [Token<'t>],
) -> Result<(&'b [Wildcard<'b>], &'s [Token<'t>]), RncFault>
    ensures ok { IfOk result (λ r. ExceptsAt (scope_of scope.now) (seen.tokens tokens.now) r.0.now
        (seen.tokens r.1.now)) }
    ensures ends { IfOk result (λ r. ExceptsNothing (scope_of scope.now) (seen.tokens r.1.now)) }
    ensures no { IfErr result (λ e. e ≡ NoMemory) }
{
    let mut all = Vec::new(arena);
    let mut rest = tokens.split_at(0).1;
    while let Some((wildcard, behind)) = excepting_at(scope, rest) {
        all.push(wildcard)?;
        rest = behind;
    }
    Ok((into_bump_slice(all), rest))
}

/// A class with wildcards around it from which it is excepted, the last innermost.
pub fn within_wildcards<'b>(
    arena: &'b Bump,
    wildcards: &[Wildcard<'b>],
    excepted: SClass<'b>,
) -> Result<SClass<'b>, RncFault>
    ensures ok { IfOk result (λ c.
        seen.class c ≡ around wildcards.now (seen.class excepted.entry)) }
    ensures no { IfErr result (λ e. e ≡ NoMemory) }
{
    let mut class = excepted;
    for wildcard in wildcards.iter().rev() {
        let except: &'b [SClass<'b>] = arena.try_alloc_slice_copy(&[class])?;
        class = wildcard.without(except);
    }
    Ok(class)
}
